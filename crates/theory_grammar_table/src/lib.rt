//! The laws of the table of the grammar: it derives a list of tokens exactly where these tokens derive
//! some tree. A function without a body states laws by its contract.
#![tactic(auto)]

ghost use Rattle.theory_grammar_table.specs.Laws.{FileOfTable, FormulaOfTable, MonoOfTable, ProofOfTable, TermOfTable, TypeOfTable};

/// The table derives the tokens of the trees, and no others.
pub fn table_derives_the_trees()
    ensures monotypes { MonoOfTable }
    ensures types { TypeOfTable }
    ensures terms { TermOfTable }
    ensures formulas { FormulaOfTable }
    ensures proofs { ProofOfTable }
    ensures files { FileOfTable }
{}
