//! The grammar of the language: of which tokens each tree is made, at which levels they stand, and
//! that a list of tokens is read as at most one tree. A function without a body states laws by its
//! contract.
#![tactic(auto)]

ghost use Rattle.theory_grammar.specs.Examples.{Files, Formulas, Monotypes, Proofs, Terms};
ghost use Rattle.theory_grammar.specs.Laws.{OneFile, OneFormula, OneMono, OneProof, OneTerm, OneType};

/// A list of tokens derives at most one tree of each production.
pub fn tokens_derive_one_tree()
    ensures monotypes { OneMono }
    ensures types { OneType }
    ensures terms { OneTerm }
    ensures formulas { OneFormula }
    ensures proofs { OneProof }
    ensures files { OneFile }
{}

/// Worked examples of the grammar, whose tokens, levels and operands were found by hand.
pub fn examples_of_the_grammar()
    ensures monotypes { Monotypes }
    ensures terms { Terms }
    ensures formulas { Formulas }
    ensures proofs { Proofs }
    ensures files { Files }
{}
