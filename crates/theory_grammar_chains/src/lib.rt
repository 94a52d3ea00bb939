//! A token that begins a further operand of a chain is no deeper than some token before it. A function
//! without a body states laws by its contract.
#![tactic(auto)]

ghost use Rattle.theory_grammar_chains.specs.Operands.{InFiles, InFormulas, InMonotypes, InProofs};

/// Where the tokens before a further operand have at most some level, the operand has no greater one.
pub fn operands_stand_no_deeper()
    ensures monotypes { InMonotypes }
    ensures formulas { InFormulas }
    ensures proofs { InProofs }
    ensures files { InFiles }
{}
