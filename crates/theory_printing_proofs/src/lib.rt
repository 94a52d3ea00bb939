//! The tokens that are printed of proofs derive the printed trees. A function without a body states a law by its
//! contract.
#![tactic(auto)]

ghost use Rattle.theory_printing_proofs.specs.Laws.{PrintedProofs};

/// The printed tokens of a proof that has a text derive a tree, which comes to what was printed, with the printed levels
/// and operands.
pub fn printed_proofs_are_derived()
    ensures law { PrintedProofs }
{}
