//! What folding sees of a term is told by its row.

ghost use Rattle.std.specs.Prelude.{◌≡◌, ◌<◌, length};
ghost use Rattle.shared_terms_rows.specs.Parts.{as_term};
ghost use Rattle.shared_terms_rows.specs.Rows.{at};
ghost use Rattle.shared_terms_renaming.specs.Known.{held};
ghost use Rattle.shared_terms_folding.specs.Shapes.{shape_of, shape_in};
ghost use Rattle.shared_terms_folding.specs.Folded.{HasTerms};

use crate::shape::Shape;
use shared_terms_renaming::Work;
use shared_terms_rows::{Form, TermForm};

/// The shape of the term at the place, which is below the count of rows.
pub fn shape_at(work: &Work, place: usize) -> Shape
    requires within { place < length (held work.now) }
    ensures seen { shape_of (as_term (at (held work.now) place)) ≡ shape_in (held work.now) result }
    ensures terms { HasTerms (held work.now) result }
{
    let row = work.row(place);
    match row.form {
        Form::Term(TermForm::Word(word)) => Shape::Word(word),
        Form::Term(TermForm::Bool(truth)) => Shape::Bool(truth),
        Form::Term(TermForm::Loc(place)) => Shape::Loc(place),
        Form::Term(TermForm::Pair) => Shape::Pair(row.first, row.second),
        _ => Shape::Other,
    }
}
