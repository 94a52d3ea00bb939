//! What a recursive function that passes its fixed parameters on can't tell apart. A function without a body
//! states laws by its contract.
#![tactic(auto)]

ghost use Rattle.theory_instances_passing.specs.Laws.{PassingOnAgrees};

/// Where a recursive function passes its fixed parameters on, its body at some arguments denotes the same
/// whether the recursion variable is the function, or the one whose fixed parameters are pinned to them.
pub fn passing_on_agrees()
    ensures law { PassingOnAgrees }
{}
