//! Phrases and items, and what they come to when they are checked, worked out by hand. A function without a
//! body states laws by its contract.
#![tactic(auto)]

ghost use Rattle.theory_checking_examples.specs.Examples.{CheckedItems, RefusedFormulas, RefusedItems, RefusedTerms};
ghost use Rattle.theory_checking_examples.specs.Orders.{FormulasInOrder, StepsInOrder, TermsInOrder, WithinLimits};

/// What small phrases and items come to, with the word and the byte of each refusal.
pub fn worked_checks()
    ensures terms { RefusedTerms }
    ensures formulas { RefusedFormulas }
    ensures items { RefusedItems }
    ensures checked_items { CheckedItems }
{}

/// Of two premises that both fail the first in the written order refuses; and what stands just within a limit.
pub fn checks_in_order()
    ensures terms { TermsInOrder }
    ensures formulas { FormulasInOrder }
    ensures steps { StepsInOrder }
    ensures within { WithinLimits }
{}
