//! Printed phrases, written by hand. A function without a body states laws by its contract.
#![tactic(auto)]

ghost use Rattle.theory_printing_examples.specs.Phrases.{PrintedConnectives, PrintedFormulas, PrintedHeaps};
ghost use Rattle.theory_printing_examples.specs.Phrases.{PrintedMonotypes, PrintedOperands, PrintedSteps};
ghost use Rattle.theory_printing_examples.specs.Phrases.{PrintedTerms, PrintedTypes};
ghost use Rattle.theory_printing_examples.specs.Proofs.{PrintedBlocks, PrintedProofs};

/// What is printed of short phrases, each form and each place of brackets among them.
pub fn printed_phrases()
    ensures monotypes { PrintedMonotypes }
    ensures types { PrintedTypes }
    ensures terms { PrintedTerms }
    ensures operands { PrintedOperands }
    ensures steps { PrintedSteps }
    ensures formulas { PrintedFormulas }
    ensures connectives { PrintedConnectives }
    ensures heaps { PrintedHeaps }
{}

/// What is printed of short proofs: each form.
pub fn printed_proofs()
    ensures proofs { PrintedProofs }
    ensures blocks { PrintedBlocks }
{}
