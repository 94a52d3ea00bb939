//! Worked examples of definitions that most crates use, found by hand, and why two rows of the states
//! read as they do. They stand apart from their crates, so that what stands on these isn't proved anew
//! for an example more. A function without a body states them by its contract.
#![tactic(auto)]

ghost use Rattle.theory_examples.specs.Contexts.{TheAxiomSorts, TheContexts, TheWorlds};
ghost use Rattle.theory_examples.specs.Heaps.{TheChoices, TheHeaps, TheValues};
ghost use Rattle.theory_examples.specs.Renamings.{TheRenamedProofs, TheRenamings, TheScopes};
ghost use Rattle.theory_examples.specs.Substitutions.{TheSubstitutions};
ghost use Rattle.theory_examples.specs.VariantLaws.{RunsAtEachSplit, SetForgets};

/// What trees become by a map of indices, and which trees are in scope.
pub fn worked_renaming()
    ensures renamings { TheRenamings }
    ensures proofs { TheRenamedProofs }
    ensures scopes { TheScopes }
{}

/// Values of monotypes, heaps and their unions, and which locations may be chosen.
pub fn worked_heaps()
    ensures values { TheValues }
    ensures heaps { TheHeaps }
    ensures choices { TheChoices }
{}

/// What a world, a context and an axiom's arguments are.
pub fn worked_contexts()
    ensures worlds { TheWorlds }
    ensures contexts { TheContexts }
    ensures sorts { TheAxiomSorts }
{}

/// What substitution gives for atoms, made functions and instances, and where it gives nothing.
pub fn worked_substitutions()
    ensures substitutions { TheSubstitutions }
{}

/// The state after a `set` is true of what it leaves, and a state that keeps the old cell isn't.
pub fn set_forgets()
    ensures law { SetForgets }
{}

/// The state after a run speaks of each split of the heap before; one that speaks of some split says less.
pub fn runs_at_each_split()
    ensures law { RunsAtEachSplit }
{}
