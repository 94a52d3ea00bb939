//! Formed environments: each item keeps them so, and each is sound. A function without a body states a law
//! by its contract.
#![tactic(auto)]

ghost use Rattle.theory_formed_items.specs.Examples.{WorkedExamples};
ghost use Rattle.theory_formed_items.specs.Laws.{FormedIsSound, ItemsKeepFormed};

/// The empty environment is formed, and an item that derives in a formed environment leaves a formed one.
pub fn items_keep_formed()
    ensures law { ItemsKeepFormed }
{}

/// A formed environment is sound.
pub fn formed_is_sound()
    ensures law { FormedIsSound }
{}

/// Formed environments, and environments that aren't, worked out by hand.
pub fn worked_examples()
    ensures examples { WorkedExamples }
{}
