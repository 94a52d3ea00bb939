//! Folding on rows: a row that stands for an operation on literals, a part of a pair, or a choice by a truth literal
//! isn't put into the table; what it is computed to stands there in its place. Each other row is put as it is. What
//! is computed is told by the rows of the parts alone, so no tree is built.
#![tactic(auto)]

ghost use Rattle.std.specs.Prelude.{◌≡◌, ◌≤◌, length, true, IfOk};
ghost use Rattle.shared_terms_rows.specs.Rows.{bound, fits, node, Extends};
ghost use Rattle.shared_terms_renaming.specs.Known.{held, Known};
ghost use Rattle.theory_rows_substitution.specs.Substitution.{fold_part};
ghost use Rattle.shared_terms_folding.specs.Folded.{Stands};

mod computing;
mod reading;
mod shape;

use computing::compute;
use shape::Computed;
use shared_terms_renaming::Work;
use shared_terms_rows::{Form, Row};
use std::alloc::AllocError;

/// The place of what the row is folded to, or of the row itself, which is put last where it isn't there. The row's
/// parts stand in the table, and are of the kinds of its slots. It fails for want of memory alone.
pub fn fold(work: &mut Work, row: Row) -> Result<usize, AllocError>
    requires known { Known work.old }
    requires behind { bound row ≤ length (held work.old) }
    requires fitting { fits (held work.old) row ≡ true }
    ensures known { Known work.new }
    ensures kept { Extends (held work.old) (held work.new) }
    ensures folded { IfOk result (λ place. Stands (held work.new) place (fold_part (node (held work.old) row))) }
{
    match compute(work, row) {
        Computed::Itself => work.push(row),
        Computed::Place(place) => Ok(place),
        Computed::Literal(form) => work.push(Row {
            form: Form::Term(form),
            first: 0,
            second: 0,
            third: 0,
            fourth: 0,
        }),
    }
}

#[cfg(test)]
mod tests;
