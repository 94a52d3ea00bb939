//! Formulas at the indices of a list, and the conditions of a triple at heaps and a value.

ghost use Rattle.std.specs.Prelude.{◌≡◌, IfOk};
ghost use Rattle.htt_syntax.specs.Views.{formula_tree};
ghost use Rattle.theory_renaming.specs.Renaming.{rename_formula};
ghost use Rattle.theory_states.specs.States.{at_heap, at_result};
ghost use Rattle.assertions.specs.Listed.{listed};

use crate::listed::Listed;
use htt_syntax::{Formula, Triple};
use htt_syntax_walk::walk_formula;
use std::alloc::{AllocError, Global};

/// The formula in which `to[i]` stands for each free index i, one past the list going `to.len()` down. It fails for
/// want of memory, or where an index or a depth would pass 32 bits.
pub fn rename(alloc: Global, formula: &Formula, to: &[u32]) -> Result<Formula, AllocError>
    ensures renamed { IfOk result (λ f. formula_tree f ≡ rename_formula (listed to.now 0) (formula_tree formula.now)) }
{
    rename_past(alloc, formula, to, 0)
}

/// The same, where the indices past the list go past `by` entries in its place.
#[tactic(auto, using(htt_syntax_shift::proofs::Renaming::formula_shifted))]
pub fn rename_past(
    alloc: Global,
    formula: &Formula,
    to: &[u32],
    by: u32,
) -> Result<Formula, AllocError>
    ensures renamed { IfOk result (λ f. formula_tree f ≡ rename_formula (listed to.now by) (formula_tree formula.now)) }
{
    walk_formula(alloc, formula, &Listed { to, by }, 0)
}

/// The precondition of a triple at a heap: `heap` stands for its `mem`. It fails for want of memory, or where an
/// index or a depth would pass 32 bits.
#[tactic(auto, using(crate::proofs::Lists::one_heap))]
pub fn pre_at(alloc: Global, triple: &Triple, heap: u32) -> Result<Formula, AllocError>
    ensures there { IfOk result (λ f. formula_tree f ≡ rename_formula (at_heap heap 0) (formula_tree triple.now.pre)) }
{
    rename(alloc, &triple.pre, &[heap])
}

/// The postcondition of a triple: `before` and `after` stand for its heaps `init` and `mem`, and `value` for its
/// result. It fails for want of memory, or where an index or a depth would pass 32 bits.
#[tactic(auto, using(crate::proofs::Lists::one_result))]
pub fn post_at(
    alloc: Global,
    triple: &Triple,
    before: u32,
    after: u32,
    value: u32,
) -> Result<Formula, AllocError>
    ensures there { IfOk result (λ f. formula_tree f ≡ rename_formula (at_result before after value 0) (formula_tree triple.now.post)) }
{
    rename(alloc, &triple.post, &[after, before, value])
}
