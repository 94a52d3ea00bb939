//! Renaming is reindexing of the valuation; folding and eta-expansion keep denotations, and so does
//! a monotype that is put for a variable. Renaming comes first, since what stands under a binder is
//! renamed. A function without a body states a law by its contract.
#![tactic(auto)]

ghost use Rattle.theory_denotation_renaming.specs.Laws.{ExpansionKeepsHeads, FoldingKeepsDenotations, MonotypesReindex, RenamingReindexes};

/// A renamed tree denotes in one valuation what the tree denotes in the other, where each entry of
/// the one stands where the map sends it.
pub fn renaming_reindexes()
    ensures law { RenamingReindexes }
{}

/// Folding keeps the value of a term.
pub fn folding_keeps_values()
    ensures law { FoldingKeepsDenotations }
{}

/// The eta-expansion of a neutral term denotes what the term denotes.
pub fn expansion_keeps_heads()
    ensures law { ExpansionKeepsHeads }
{}

/// Where a monotype is put for a variable, a canonical tree denotes what it did in the valuation that
/// gives the variable this monotype.
pub fn monotypes_reindex()
    ensures law { MonotypesReindex }
{}
