//! Substitution is reindexing of the world: what is put for a variable gives a tree that means what the
//! tree means where the variable stands for what was put. A function without a body states a law by its
//! contract.
#![tactic(auto)]

ghost use Rattle.theory_logic_substitution.specs.Laws.{ArgumentsReindex, EntriesDecide, HeapsReindex, MonotypesReindexTruth, TermsReindex};

/// Worlds that agree on the entries by which a formula is sorted make it true together.
pub fn entries_decide()
    ensures law { EntriesDecide }
{}

/// A term put for a value variable.
pub fn terms_reindex()
    ensures law { TermsReindex }
{}

/// A heap put for the innermost variable.
pub fn heaps_reindex()
    ensures law { HeapsReindex }
{}

/// A monotype put for a monotype variable.
pub fn monotypes_reindex()
    ensures law { MonotypesReindexTruth }
{}

/// Arguments put for the innermost variables.
pub fn arguments_reindex()
    ensures law { ArgumentsReindex }
{}
