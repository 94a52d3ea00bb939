//! The nonterminals in an order: each after those of which one alone may make up a phrase of it, so
//! that a search that takes them in this order finds the smaller phrase first.

ghost use Rattle.std.specs.Prelude.{◌≡◌};
ghost use Rattle.htt_parser_table.specs.Table.{every_nonterminal};

use crate::Nonterminal;
use crate::Nonterminal::*;

static NONTERMINALS: [Nonterminal; 51] = [
    Binder,
    MonoName,
    SumSign,
    ProductSign,
    UnaryWord,
    UnaryRule,
    HeapNumber,
    Heap,
    Factor,
    Mono,
    MonoInBrackets,
    MonosAfter,
    Monos,
    TypePhrase,
    Triple,
    Atom,
    Application,
    Product,
    Sum,
    Relation,
    Term,
    Parameters,
    SumRest,
    ProductRest,
    Parts,
    Comp,
    Step,
    FormulaAtom,
    Separation,
    Conjunction,
    Disjunction,
    Formula,
    Sort,
    Terms,
    TermsAfter,
    Argument,
    Arguments,
    ArgumentsAfter,
    Motive,
    End,
    Proof,
    Statement,
    ProofsAfter,
    NamesAfter,
    Names,
    MonoParameter,
    MonoParametersAfter,
    MonoParameters,
    Body,
    Declaration,
    File,
];

/// Each nonterminal once, after those of which one alone may make up a phrase of it.
pub fn nonterminals() -> &'static [Nonterminal]
    ensures { result.now ≡ every_nonterminal }
{
    &NONTERMINALS
}
