//! Positions say nothing in denotations, in formulas and in types, so phrases that are the same but for
//! positions mean the same. A function without a body states a law by its contract.
#![tactic(auto)]

ghost use Rattle.theory_denotation_positions.specs.Laws.{PositionsSayNothing};

/// A tree without its positions denotes, says and means what the tree does.
pub fn positions_say_nothing()
    ensures law { PositionsSayNothing }
{}
