//! The alternatives of each nonterminal, in the order of the grammar: words and signs first, then
//! monotypes, types and terms, computations, formulas, proofs and declarations.

ghost use Rattle.std.specs.Prelude.{◌≡◌, map};
ghost use Rattle.htt_parser_table.specs.Table.{alternatives_of};

use crate::Nonterminal::*;
use crate::Symbol::*;
use crate::{Nonterminal, Symbol};
use htt_lexer_tokens::Keyword::*;
use htt_lexer_tokens::Sign::*;

static BINDER: [&[Symbol]; 2] = [&[Name], &[Mark(UnderscoreSign)]];

static MONO_NAME: [&[Symbol]; 5] = [
    &[Word(WordWord)],
    &[Word(BoolWord)],
    &[Word(LocWord)],
    &[Word(UnitWord)],
    &[Name],
];

static SUM_SIGN: [&[Symbol]; 4] = [
    &[Mark(PlusSign)],
    &[Mark(MinusSign)],
    &[Mark(BarSign)],
    &[Mark(CaretSign)],
];

static PRODUCT_SIGN: [&[Symbol]; 4] = [
    &[Mark(StarSign)],
    &[Mark(AmpersandSign)],
    &[Mark(ShiftLeftSign)],
    &[Mark(ShiftRightSign)],
];

static UNARY_WORD: [&[Symbol]; 3] = [&[Word(FstWord)], &[Word(SndWord)], &[Word(NotWord)]];

static UNARY_RULE: [&[Symbol]; 5] = [
    &[Word(FirstWord)],
    &[Word(SecondWord)],
    &[Word(LeftWord)],
    &[Word(RightWord)],
    &[Word(AbsurdWord)],
];

static HEAP_NUMBER: [&[Symbol]; 2] = [&[], &[Mark(CaretSign), Number]];

static HEAP: [&[Symbol]; 3] = [
    &[Name],
    &[Word(InitWord), Phrase(HeapNumber)],
    &[Word(MemWord), Phrase(HeapNumber)],
];

static FACTOR: [&[Symbol]; 2] = [
    &[Phrase(MonoName)],
    &[Mark(OpenParenSign), Phrase(Mono), Mark(CloseParenSign)],
];

static MONO: [&[Symbol]; 2] = [
    &[Phrase(Factor)],
    &[Phrase(Factor), Mark(StarSign), Phrase(Mono)],
];

static MONO_IN_BRACKETS: [&[Symbol]; 1] = [&[
    Mark(OpenBracketSign),
    Phrase(Mono),
    Mark(CloseBracketSign),
]];

static MONOS_AFTER: [&[Symbol]; 2] = [&[], &[Mark(CommaSign), Phrase(Mono), Phrase(MonosAfter)]];

static MONOS: [&[Symbol]; 2] = [
    &[],
    &[
        Mark(OpenBracketSign),
        Phrase(Mono),
        Phrase(MonosAfter),
        Mark(CloseBracketSign),
    ],
];

static TYPE_PHRASE: [&[Symbol]; 4] = [
    &[
        Mark(OpenParenSign),
        Phrase(Binder),
        Mark(ColonSign),
        Phrase(TypePhrase),
        Mark(CloseParenSign),
        Mark(ArrowSign),
        Phrase(TypePhrase),
    ],
    &[
        Mark(OpenBracketSign),
        Name,
        Mark(CloseBracketSign),
        Mark(ArrowSign),
        Phrase(TypePhrase),
    ],
    &[Mark(OpenBraceSign), Phrase(Triple)],
    &[Phrase(Mono)],
];

static TRIPLE: [&[Symbol]; 1] = [&[
    Phrase(Formula),
    Mark(CloseBraceSign),
    Phrase(Binder),
    Mark(ColonSign),
    Phrase(Mono),
    Mark(OpenBraceSign),
    Phrase(Formula),
    Mark(CloseBraceSign),
]];

static TERM: [&[Symbol]; 5] = [
    &[Word(FunWord), Phrase(Binder), Mark(DotSign), Phrase(Term)],
    &[
        Word(FunWord),
        Mark(OpenBracketSign),
        Name,
        Mark(CloseBracketSign),
        Mark(DotSign),
        Phrase(Term),
    ],
    &[Word(DoWord), Phrase(Comp)],
    &[
        Word(FixWord),
        Name,
        Phrase(Parameters),
        Mark(ColonSign),
        Mark(OpenBraceSign),
        Phrase(Triple),
        Mark(DotSign),
        Phrase(Comp),
    ],
    &[Phrase(Relation)],
];

static PARAMETERS: [&[Symbol]; 2] = [
    &[],
    &[
        Mark(OpenParenSign),
        Phrase(Binder),
        Mark(ColonSign),
        Phrase(TypePhrase),
        Mark(CloseParenSign),
        Phrase(Parameters),
    ],
];

static RELATION: [&[Symbol]; 2] = [&[Phrase(Sum)], &[Phrase(Sum), Mark(LessSign), Phrase(Sum)]];

static SUM: [&[Symbol]; 1] = [&[Phrase(Product), Phrase(SumRest)]];

static SUM_REST: [&[Symbol]; 2] = [&[], &[Phrase(SumSign), Phrase(Product), Phrase(SumRest)]];

static PRODUCT: [&[Symbol]; 1] = [&[Phrase(Application), Phrase(ProductRest)]];

static PRODUCT_REST: [&[Symbol]; 2] = [
    &[],
    &[
        Phrase(ProductSign),
        Phrase(Application),
        Phrase(ProductRest),
    ],
];

static APPLICATION: [&[Symbol]; 2] = [
    &[Phrase(UnaryWord), Phrase(Atom)],
    &[Phrase(Atom), Phrase(Parts)],
];

static PARTS: [&[Symbol]; 3] = [
    &[],
    &[Phrase(Atom), Phrase(Parts)],
    &[
        Mark(OpenBracketSign),
        Phrase(Mono),
        Mark(CloseBracketSign),
        Phrase(Parts),
    ],
];

static ATOM: [&[Symbol]; 12] = [
    &[Name],
    &[Number],
    &[Word(TrueWord)],
    &[Word(FalseWord)],
    &[Word(NullWord)],
    &[Word(PlaceWord), Number],
    &[
        Word(EqWord),
        Phrase(MonoInBrackets),
        Mark(OpenParenSign),
        Phrase(Term),
        Mark(CommaSign),
        Phrase(Term),
        Mark(CloseParenSign),
    ],
    &[
        Word(SelWord),
        Phrase(MonoInBrackets),
        Mark(OpenParenSign),
        Phrase(Term),
        Mark(CommaSign),
        Phrase(Term),
        Mark(CommaSign),
        Phrase(Term),
        Mark(CloseParenSign),
    ],
    &[Mark(OpenParenSign), Mark(CloseParenSign)],
    &[Mark(OpenParenSign), Phrase(Term), Mark(CloseParenSign)],
    &[
        Mark(OpenParenSign),
        Phrase(Term),
        Mark(CommaSign),
        Phrase(Term),
        Mark(CloseParenSign),
    ],
    &[
        Mark(OpenParenSign),
        Phrase(Term),
        Mark(ColonSign),
        Phrase(TypePhrase),
        Mark(CloseParenSign),
    ],
];

static COMP: [&[Symbol]; 2] = [
    &[Word(RetWord), Phrase(Term)],
    &[
        Phrase(Binder),
        Mark(LeftArrowSign),
        Phrase(Step),
        Mark(SemicolonSign),
        Phrase(Comp),
    ],
];

static STEP: [&[Symbol]; 7] = [
    &[Word(AllocWord), Phrase(MonoInBrackets), Phrase(Atom)],
    &[Word(GetWord), Phrase(MonoInBrackets), Phrase(Atom)],
    &[
        Word(SetWord),
        Phrase(MonoInBrackets),
        Phrase(Atom),
        Phrase(Atom),
    ],
    &[Word(FreeWord), Phrase(MonoInBrackets), Phrase(Atom)],
    &[
        Word(IfWord),
        Phrase(MonoInBrackets),
        Phrase(Atom),
        Mark(OpenBraceSign),
        Phrase(Comp),
        Mark(CloseBraceSign),
        Mark(OpenBraceSign),
        Phrase(Comp),
        Mark(CloseBraceSign),
    ],
    &[
        Word(ClaimWord),
        Mark(OpenBraceSign),
        Phrase(Formula),
        Mark(CloseBraceSign),
    ],
    &[Phrase(Application)],
];

static FORMULA: [&[Symbol]; 4] = [
    &[
        Word(AllWord),
        Phrase(Binder),
        Mark(ColonSign),
        Phrase(Sort),
        Mark(DotSign),
        Phrase(Formula),
    ],
    &[
        Word(ExWord),
        Phrase(Binder),
        Mark(ColonSign),
        Phrase(Sort),
        Mark(DotSign),
        Phrase(Formula),
    ],
    &[Phrase(Disjunction)],
    &[Phrase(Disjunction), Mark(ImpliesSign), Phrase(Formula)],
];

static SORT: [&[Symbol]; 2] = [&[Phrase(Mono)], &[Word(HeapWord)]];

static DISJUNCTION: [&[Symbol]; 2] = [
    &[Phrase(Conjunction)],
    &[Phrase(Conjunction), Mark(OrSign), Phrase(Disjunction)],
];

static CONJUNCTION: [&[Symbol]; 2] = [
    &[Phrase(Separation)],
    &[Phrase(Separation), Mark(AndSign), Phrase(Conjunction)],
];

static SEPARATION: [&[Symbol]; 2] = [
    &[Phrase(FormulaAtom)],
    &[
        Phrase(FormulaAtom),
        Mark(DoubleStarSign),
        Phrase(Separation),
    ],
];

static FORMULA_ATOM: [&[Symbol]; 16] = [
    &[Word(TtWord)],
    &[Word(FfWord)],
    &[Word(EmpWord)],
    &[
        Mark(OpenBracketSign),
        Phrase(Formula),
        Mark(CloseBracketSign),
    ],
    &[
        Mark(AtSign),
        Phrase(Heap),
        Mark(OpenBracketSign),
        Phrase(Formula),
        Mark(CloseBracketSign),
    ],
    &[
        Word(CapitalEmpWord),
        Mark(OpenParenSign),
        Phrase(Heap),
        Mark(CloseParenSign),
    ],
    &[
        Word(SameWord),
        Mark(OpenParenSign),
        Phrase(Heap),
        Mark(CommaSign),
        Phrase(Heap),
        Mark(CloseParenSign),
    ],
    &[
        Word(JoinWord),
        Mark(OpenParenSign),
        Phrase(Heap),
        Mark(CommaSign),
        Phrase(Heap),
        Mark(CommaSign),
        Phrase(Heap),
        Mark(CloseParenSign),
    ],
    &[
        Word(CellWord),
        Phrase(MonoInBrackets),
        Mark(OpenParenSign),
        Phrase(Heap),
        Mark(CommaSign),
        Phrase(Term),
        Mark(CommaSign),
        Phrase(Term),
        Mark(CloseParenSign),
    ],
    &[
        Word(BlockWord),
        Phrase(MonoInBrackets),
        Mark(OpenParenSign),
        Phrase(Heap),
        Mark(CommaSign),
        Phrase(Term),
        Mark(CloseParenSign),
    ],
    &[
        Mark(BangSign),
        Name,
        Phrase(Monos),
        Mark(OpenParenSign),
        Phrase(Terms),
        Mark(CloseParenSign),
    ],
    &[
        Mark(BangSign),
        Name,
        Mark(OpenParenSign),
        Phrase(Term),
        Mark(SemicolonSign),
        Phrase(Terms),
        Mark(CloseParenSign),
    ],
    &[
        Mark(BangSign),
        Name,
        Mark(AtSign),
        Phrase(Heap),
        Mark(OpenParenSign),
        Phrase(Term),
        Mark(SemicolonSign),
        Phrase(Terms),
        Mark(CloseParenSign),
    ],
    &[
        Phrase(Relation),
        Mark(EqualSign),
        Phrase(MonoInBrackets),
        Phrase(Relation),
    ],
    &[
        Phrase(Relation),
        Mark(PointsToSign),
        Phrase(MonoInBrackets),
        Phrase(Relation),
    ],
    &[
        Phrase(Relation),
        Mark(PointsToSign),
        Phrase(MonoInBrackets),
        Mark(UnderscoreSign),
    ],
];

static TERMS: [&[Symbol]; 2] = [&[], &[Phrase(Term), Phrase(TermsAfter)]];

static TERMS_AFTER: [&[Symbol]; 2] = [&[], &[Mark(CommaSign), Phrase(Term), Phrase(TermsAfter)]];

static ARGUMENT: [&[Symbol]; 2] = [&[Mark(AtSign), Phrase(Heap)], &[Phrase(Term)]];

static ARGUMENTS: [&[Symbol]; 2] = [&[], &[Phrase(Argument), Phrase(ArgumentsAfter)]];

static ARGUMENTS_AFTER: [&[Symbol]; 2] = [
    &[],
    &[Mark(CommaSign), Phrase(Argument), Phrase(ArgumentsAfter)],
];

static MOTIVE: [&[Symbol]; 1] = [&[
    Phrase(Binder),
    Mark(DotSign),
    Mark(OpenBracketSign),
    Phrase(Formula),
    Mark(CloseBracketSign),
]];

static PROOF: [&[Symbol]; 2] = [&[Phrase(End)], &[Phrase(Statement), Phrase(Proof)]];

static STATEMENT: [&[Symbol]; 4] = [
    &[Word(IntroWord), Name, Mark(SemicolonSign)],
    &[Word(GenWord), Phrase(Binder), Mark(SemicolonSign)],
    &[
        Word(OpenWord),
        Phrase(Binder),
        Name,
        Mark(EqualSign),
        Phrase(Proof),
        Mark(SemicolonSign),
    ],
    &[
        Word(HaveWord),
        Name,
        Mark(ColonSign),
        Mark(OpenBracketSign),
        Phrase(Formula),
        Mark(CloseBracketSign),
        Mark(EqualSign),
        Phrase(Proof),
        Mark(SemicolonSign),
    ],
];

static END: [&[Symbol]; 16] = [
    &[Name],
    &[Word(TrivialWord)],
    &[Word(ReflWord)],
    &[
        Phrase(UnaryRule),
        Mark(OpenParenSign),
        Phrase(Proof),
        Mark(CloseParenSign),
    ],
    &[
        Word(BothWord),
        Mark(OpenParenSign),
        Phrase(Proof),
        Mark(CommaSign),
        Phrase(Proof),
        Mark(CloseParenSign),
    ],
    &[
        Word(GiveWord),
        Mark(OpenParenSign),
        Phrase(Argument),
        Mark(CommaSign),
        Phrase(Proof),
        Mark(CloseParenSign),
    ],
    &[
        Word(AppWord),
        Mark(OpenParenSign),
        Phrase(Proof),
        Mark(CommaSign),
        Phrase(Proof),
        Phrase(ProofsAfter),
        Mark(CloseParenSign),
    ],
    &[
        Word(InstWord),
        Mark(OpenParenSign),
        Phrase(Proof),
        Mark(CommaSign),
        Phrase(Argument),
        Phrase(ArgumentsAfter),
        Mark(CloseParenSign),
    ],
    &[
        Word(CaseWord),
        Mark(OpenParenSign),
        Phrase(Proof),
        Mark(CommaSign),
        Name,
        Mark(DotSign),
        Phrase(Proof),
        Mark(CommaSign),
        Name,
        Mark(DotSign),
        Phrase(Proof),
        Mark(CloseParenSign),
    ],
    &[
        Word(RewriteWord),
        Mark(OpenParenSign),
        Phrase(Proof),
        Mark(CommaSign),
        Phrase(Motive),
        Mark(CommaSign),
        Phrase(Proof),
        Mark(CloseParenSign),
    ],
    &[
        Word(InductWord),
        Mark(OpenParenSign),
        Phrase(Motive),
        Mark(CommaSign),
        Phrase(Term),
        Mark(CommaSign),
        Phrase(Proof),
        Mark(CommaSign),
        Phrase(Binder),
        Name,
        Name,
        Mark(DotSign),
        Phrase(Proof),
        Mark(CloseParenSign),
    ],
    &[
        Word(SplitWord),
        Mark(OpenParenSign),
        Phrase(Motive),
        Mark(CommaSign),
        Phrase(Term),
        Mark(CommaSign),
        Phrase(Proof),
        Mark(CommaSign),
        Phrase(Proof),
        Mark(CloseParenSign),
    ],
    &[
        Word(AxiomWord),
        Name,
        Phrase(Monos),
        Mark(OpenParenSign),
        Phrase(Arguments),
        Mark(CloseParenSign),
    ],
    &[
        Word(AxiomWord),
        Name,
        Mark(DotSign),
        Number,
        Mark(OpenParenSign),
        Phrase(Argument),
        Phrase(ArgumentsAfter),
        Mark(CloseParenSign),
    ],
    &[
        Word(LemWord),
        Mark(OpenBracketSign),
        Phrase(Formula),
        Mark(CloseBracketSign),
    ],
    &[
        Word(TheWord),
        Mark(OpenBracketSign),
        Phrase(Formula),
        Mark(CloseBracketSign),
        Mark(OpenParenSign),
        Phrase(Proof),
        Mark(CloseParenSign),
    ],
];

static PROOFS_AFTER: [&[Symbol]; 2] = [&[], &[Mark(CommaSign), Phrase(Proof), Phrase(ProofsAfter)]];

static NAMES_AFTER: [&[Symbol]; 2] = [&[], &[Mark(CommaSign), Name, Phrase(NamesAfter)]];

static NAMES: [&[Symbol]; 2] = [
    &[],
    &[
        Mark(OpenBracketSign),
        Name,
        Phrase(NamesAfter),
        Mark(CloseBracketSign),
    ],
];

static MONO_PARAMETER: [&[Symbol]; 1] = [&[Name, Mark(ColonSign), Phrase(Mono)]];

static MONO_PARAMETERS_AFTER: [&[Symbol]; 2] = [
    &[],
    &[
        Mark(CommaSign),
        Phrase(MonoParameter),
        Phrase(MonoParametersAfter),
    ],
];

static MONO_PARAMETERS: [&[Symbol]; 2] = [
    &[Mark(OpenParenSign), Mark(CloseParenSign)],
    &[
        Mark(OpenParenSign),
        Phrase(MonoParameter),
        Phrase(MonoParametersAfter),
        Mark(CloseParenSign),
    ],
];

static BODY: [&[Symbol]; 2] = [&[Word(AutoWord)], &[Phrase(Proof)]];

static DECLARATION: [&[Symbol]; 6] = [
    &[Word(TypeWord), Name, Mark(EqualSign), Phrase(Mono)],
    &[
        Word(PredWord),
        Name,
        Phrase(Names),
        Phrase(MonoParameters),
        Mark(EqualSign),
        Phrase(Formula),
    ],
    &[
        Word(PredWord),
        Name,
        Word(InductWord),
        Phrase(Binder),
        Phrase(MonoParameters),
        Mark(EqualSign),
        Mark(OpenBraceSign),
        Phrase(Formula),
        Mark(CloseBraceSign),
        Mark(OpenBraceSign),
        Phrase(Formula),
        Mark(CloseBraceSign),
    ],
    &[
        Word(DefWord),
        Name,
        Mark(ColonSign),
        Phrase(TypePhrase),
        Mark(EqualSign),
        Phrase(Term),
    ],
    &[
        Word(ValWord),
        Name,
        Mark(ColonSign),
        Phrase(TypePhrase),
        Mark(EqualSign),
        Phrase(Term),
    ],
    &[
        Word(ProofWord),
        Name,
        Mark(DotSign),
        Number,
        Mark(EqualSign),
        Phrase(Body),
    ],
];

static FILE: [&[Symbol]; 2] = [&[], &[Phrase(Declaration), Phrase(File)]];

/// The alternatives of a nonterminal.
pub fn alternatives(nonterminal: Nonterminal) -> &'static [&'static [Symbol]]
    ensures { map (λ row. row.now) result.now ≡ alternatives_of nonterminal }
{
    match nonterminal {
        Nonterminal::Binder => &BINDER,
        Nonterminal::MonoName => &MONO_NAME,
        Nonterminal::SumSign => &SUM_SIGN,
        Nonterminal::ProductSign => &PRODUCT_SIGN,
        Nonterminal::UnaryWord => &UNARY_WORD,
        Nonterminal::UnaryRule => &UNARY_RULE,
        Nonterminal::HeapNumber => &HEAP_NUMBER,
        Nonterminal::Heap => &HEAP,
        Nonterminal::Factor => &FACTOR,
        Nonterminal::Mono => &MONO,
        Nonterminal::MonoInBrackets => &MONO_IN_BRACKETS,
        Nonterminal::MonosAfter => &MONOS_AFTER,
        Nonterminal::Monos => &MONOS,
        Nonterminal::TypePhrase => &TYPE_PHRASE,
        Nonterminal::Triple => &TRIPLE,
        Nonterminal::Term => &TERM,
        Nonterminal::Parameters => &PARAMETERS,
        Nonterminal::Relation => &RELATION,
        Nonterminal::Sum => &SUM,
        Nonterminal::SumRest => &SUM_REST,
        Nonterminal::Product => &PRODUCT,
        Nonterminal::ProductRest => &PRODUCT_REST,
        Nonterminal::Application => &APPLICATION,
        Nonterminal::Parts => &PARTS,
        Nonterminal::Atom => &ATOM,
        Nonterminal::Comp => &COMP,
        Nonterminal::Step => &STEP,
        Nonterminal::Formula => &FORMULA,
        Nonterminal::Sort => &SORT,
        Nonterminal::Disjunction => &DISJUNCTION,
        Nonterminal::Conjunction => &CONJUNCTION,
        Nonterminal::Separation => &SEPARATION,
        Nonterminal::FormulaAtom => &FORMULA_ATOM,
        Nonterminal::Terms => &TERMS,
        Nonterminal::TermsAfter => &TERMS_AFTER,
        Nonterminal::Argument => &ARGUMENT,
        Nonterminal::Arguments => &ARGUMENTS,
        Nonterminal::ArgumentsAfter => &ARGUMENTS_AFTER,
        Nonterminal::Motive => &MOTIVE,
        Nonterminal::Proof => &PROOF,
        Nonterminal::Statement => &STATEMENT,
        Nonterminal::End => &END,
        Nonterminal::ProofsAfter => &PROOFS_AFTER,
        Nonterminal::NamesAfter => &NAMES_AFTER,
        Nonterminal::Names => &NAMES,
        Nonterminal::MonoParameter => &MONO_PARAMETER,
        Nonterminal::MonoParametersAfter => &MONO_PARAMETERS_AFTER,
        Nonterminal::MonoParameters => &MONO_PARAMETERS,
        Nonterminal::Body => &BODY,
        Nonterminal::Declaration => &DECLARATION,
        Nonterminal::File => &FILE,
    }
}
