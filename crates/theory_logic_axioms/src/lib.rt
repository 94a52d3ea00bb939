//! The axioms of the proof rules: their names, a table of the formula that each has at its monotypes
//! and arguments, and the side conditions. The table stands first, as definitions alone; the laws say
//! that it keeps scopes and canonical forms. A function without a body states laws by its contract.
#![tactic(auto)]

ghost use Rattle.theory_logic_axioms.specs.Examples.{TheHeapInstances, TheRefusals, TheSideConditions, TheWordInstances};
ghost use Rattle.theory_logic_axioms.specs.Laws.{FormulaWhereShaped, InstanceInScope, InstanceIsCanonical, OneNameForText};

/// Each axiom has a text of its own.
pub fn names_are_told_apart()
    ensures law { OneNameForText }
{}

/// An axiom has a formula exactly where its monotypes are as many as it takes, and its arguments as
/// many as it takes and of their sorts.
pub fn formula_where_shaped()
    ensures law { FormulaWhereShaped }
{}

/// An instance of an axiom at monotypes and arguments in scope is in scope.
pub fn instance_in_scope()
    ensures law { InstanceInScope }
{}

/// An instance of an axiom at canonical monotypes and arguments is canonical.
pub fn instance_is_canonical()
    ensures law { InstanceIsCanonical }
{}

/// Worked examples of the table, whose formulas were found by hand.
pub fn examples_of_axioms()
    ensures words { TheWordInstances }
    ensures heaps { TheHeapInstances }
    ensures side_conditions { TheSideConditions }
    ensures refusals { TheRefusals }
{}
