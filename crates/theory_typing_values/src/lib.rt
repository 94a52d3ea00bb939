//! Typing gives a term of a monotype a value of that monotype, in each world of a first-order context. A
//! function without a body states a law by its contract.
#![tactic(auto)]

ghost use Rattle.theory_typing_values.specs.Laws.{FirstOrderContexts, FormedIsSorted, TypedValues};

/// In a first-order context no variable has another type than a monotype.
pub fn first_order_contexts()
    ensures law { FirstOrderContexts }
{}

/// A term that fits a monotype has a value of the monotype as its canonical form.
pub fn terms_have_values()
    ensures law { TypedValues }
{}

/// The canonical form of a formed formula uses each variable by its sort.
pub fn formed_formulas_are_sorted()
    ensures law { FormedIsSorted }
{}
