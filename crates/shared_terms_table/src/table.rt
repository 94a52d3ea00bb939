//! The table itself.

ghost use Rattle.shared_terms_rows.specs.Rows.{Backward, Fitting, RowsOnce};

use indexmap::IndexSet;
use shared_terms_rows::Row;

/// Rows, in the order in which they came, each once.
#[derive(Drop)]
pub struct Table {
    pub rows: IndexSet<Row>,

    ghost backward: { Backward rows.keys },
    ghost fitting: { Fitting rows.keys },
    ghost once: { RowsOnce rows.keys },
}
