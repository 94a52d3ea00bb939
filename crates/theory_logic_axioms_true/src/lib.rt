//! The axioms are true: the arithmetic of 64-bit words, what leaves the value of a term as it is, and
//! then what the table of axioms gives at arguments that have values of their sorts in a world. The
//! arithmetic comes first, over the value that an operation gives for two words. A function without a
//! body states a law by its contract.
#![tactic(auto)]

ghost use Rattle.theory_logic_axioms_true.specs.Laws.{AxiomsAreTrue};
ghost use Rattle.theory_logic_axioms_true.specs.TermLaws.{FoldingKeepsValues, PositionsKeepTruth};
ghost use Rattle.theory_logic_axioms_true.specs.WithoutConditions.{ConditionsAreNeeded};
ghost use Rattle.theory_logic_axioms_true.specs.WordLaws.{BitsAndShifts, InductionOnWords, SumsAndProducts, UnsignedOrder};

/// Sums and products are those of a commutative ring, and a difference undoes a sum.
pub fn words_add_and_multiply()
    ensures law { SumsAndProducts }
{}

/// `Lt` is a strict total order from 0 on, and a word that has one above it has a next word.
pub fn words_are_ordered()
    ensures law { UnsignedOrder }
{}

/// Bits in both, in one and in exactly one of a word and 0, or of a word and itself; a shift by 0, and
/// one to the left by 1.
pub fn words_have_bits()
    ensures law { BitsAndShifts }
{}

/// What is true of 0 and goes on from each word to the next is true of each word.
pub fn words_have_induction()
    ensures law { InductionOnWords }
{}

/// A term that is folded has the value that it had.
pub fn folding_keeps_values()
    ensures law { FoldingKeepsValues }
{}

/// A term without its positions has the value that it had, and a formula without its positions is
/// true where it was.
pub fn positions_keep_truth()
    ensures law { PositionsKeepTruth }
{}

/// Each instance of an axiom whose side condition holds is true in each world in which its arguments
/// have values of their sorts.
pub fn axioms_are_true()
    ensures law { AxiomsAreTrue }
{}

/// The greatest word isn't below its next word, and a block of one word isn't one of two: so the axiom
/// of the next word needs its premise, and that of widths its side condition.
pub fn conditions_are_needed()
    ensures law { ConditionsAreNeeded }
{}
