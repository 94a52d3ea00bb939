//! Branches, and the ends of branches and bodies.

ghost use Rattle.std.specs.Prelude.{◌≡◌, IfOk, map, suc, ◌+◌, ◌∷◌};
ghost use Rattle.std.specs.List.{range_with_len};
ghost use Rattle.htt_syntax.specs.Trees.{FormulaTree};
ghost use Rattle.htt_syntax.specs.Views.{mono_tree, term_tree, formula_tree};
ghost use Rattle.theory_states.specs.States as states;
ghost use Rattle.theory_states.specs.States.{some_values, ending};
ghost use Rattle.sp_checker.specs.Made.{Makes};

use crate::nodes::{and, equal, imp, or, some_value};
use crate::values::{mono_past, term_past};
use assertions::rename_past;
use htt_syntax::{Formula, Mono, Term};
use htt_syntax_shift::{shift_mono, shift_term};
use htt_syntax_walk::copy_formula;
use std::alloc::{AllocError, Global};

/// The state in which a branch begins: `R /\ M =[bool] true`, or false. It fails for want of memory, or where an
/// index or a depth would pass 32 bits.
pub fn branch(
    alloc: Global,
    state: &Formula,
    test: &Term,
    side: bool,
) -> Result<Formula, AllocError>
    ensures state { Makes result (states.branch (formula_tree state.now) (term_tree test.now) side) }
{
    let is = equal(
        Ok(Mono::Bool),
        term_past(alloc, test, 2),
        Ok(Term::Bool(side)),
    );
    and(alloc, copy_formula(alloc, state), is)
}

/// A sum; an error where it would pass 32 bits.
fn sum(count: u32, by: u32) -> Result<u32, AllocError>
    ensures sum { IfOk result (λ n. n ≡ count + by) }
{
    count.checked_add(by).ok_or(AllocError)
}

/// What stands in the place of each index of a state behind so many steps, where the result takes the place of their
/// variables: `mem`, `init`, and the variables.
#[tactic(auto, using(crate::proofs::EndMaps::one_more))]
fn within(alloc: Global, count: u32) -> Result<Vec<u32>, AllocError>
    ensures list { IfOk result (λ to. to.items ≡ count ∷ suc count ∷ range_with_len 0 count) }
{
    let next = sum(count, 1)?;
    let mut to = Vec::new(alloc);
    to.push(count)?;
    to.push(next)?;
    for index in 0..count {
        to.push(index)?;
    }
    Ok(to)
}

/// `R /\ y =[t] M` behind so many steps, where y takes the place of their variables.
fn ending(
    alloc: Global,
    count: u32,
    state: &Formula,
    mono: &Mono,
    value: &Term,
) -> Result<Formula, AllocError>
    ensures state { Makes result (ending count (formula_tree state.now) (mono_tree mono.now) (term_tree value.now)) }
{
    let to = within(alloc, count)?;
    let result = sum(count, 2)?;
    let past = sum(count, 3)?;
    let value = shift_term(alloc, value, count, 3);
    let is = equal(mono_past(alloc, mono, past), Ok(Term::Var(result)), value);
    and(alloc, rename_past(alloc, state, &to, past), is)
}

/// For some values of the variables of these steps, before which stand those of `count` more.
fn some_values(
    alloc: Global,
    count: u32,
    bound: &[Mono],
    body: Result<Formula, AllocError>,
) -> Result<Formula, AllocError>
    ensures made { (f : FormulaTree) → Makes body f → Makes result (some_values count (map mono_tree bound.now) f) }
{
    let Some((first, others)) = bound.split_first() else {
        return body;
    };
    match count.checked_add(1) {
        Some(next) => some_value(
            alloc,
            shift_mono(alloc, first, count, 3),
            some_values(alloc, next, others, body),
        ),
        None => Err(AllocError),
    }
}

/// The formula in which a body or a branch with the state R ends, whose steps bind variables of these monotypes, and
/// whose result is this value: `ex z1 . .. ex zj . R /\ y =[t] M`, with y in their place. It fails for want of memory,
/// or where an index or a depth would pass 32 bits.
pub fn finish(
    alloc: Global,
    state: &Formula,
    bound: &[Mono],
    mono: &Mono,
    value: &Term,
) -> Result<Formula, AllocError>
    ensures state { Makes result (states.finish (formula_tree state.now) (map mono_tree bound.now) (mono_tree mono.now) (term_tree value.now)) }
{
    match u32::try_from(bound.len()) {
        Ok(count) => some_values(alloc, 0, bound, ending(alloc, count, state, mono, value)),
        Err(_) => Err(AllocError),
    }
}

/// The state behind two branches, from the formulas in which they end: `B1 \/ B2`. It fails for want of memory, or
/// where a depth would pass 32 bits.
pub fn merge(alloc: Global, yes: &Formula, no: &Formula) -> Result<Formula, AllocError>
    ensures state { Makes result (states.merge (formula_tree yes.now) (formula_tree no.now)) }
{
    or(alloc, copy_formula(alloc, yes), copy_formula(alloc, no))
}

/// What a body owes at its end: `S => Q`. It fails for want of memory, or where a depth would pass 32 bits.
pub fn last(alloc: Global, end: &Formula, post: &Formula) -> Result<Formula, AllocError>
    ensures owed { Makes result (states.last (formula_tree end.now) (formula_tree post.now)) }
{
    imp(alloc, copy_formula(alloc, end), copy_formula(alloc, post))
}
