//! The typing rules on the logic side: formation of types and formulas, terms that give or fit a
//! type, and computations against triples. A function without a body states a law by its contract.
#![tactic(auto)]

ghost use Rattle.theory_typing.specs.Examples.{TheBodies, TheItems};
ghost use Rattle.theory_typing.specs.Orders.{RunsInOrder, StepsInOrder, TermsInOrder};
ghost use Rattle.theory_typing.specs.Laws.{TypingGivesOne, WorkedTyping, WorldsGive};

/// A world of a context gives each variable a thing of its sort: a closed monotype, a heap, or a value
/// of the variable's monotype.
pub fn worlds_give()
    ensures law { WorldsGive }
{}

/// A phrase has at most one type, one canonical form and one list of obligations.
pub fn typing_gives_one()
    ensures law { TypingGivesOne }
{}

/// Small derivations, and phrases that have none, worked out by hand.
pub fn worked_typing()
    ensures examples { WorkedTyping }
{}

/// What the values, definitions and predicates of a file give, and bodies against triples with what
/// they owe, worked out by hand.
pub fn worked_bodies()
    ensures items { TheItems }
    ensures bodies { TheBodies }
{}

/// The order of obligations, worked out by hand: of a phrase's terms from the left, of a step's terms
/// before the step, and of what is run before the run.
pub fn worked_orders()
    ensures terms { TermsInOrder }
    ensures steps { StepsInOrder }
    ensures runs { RunsInOrder }
{}
