//! With which tokens phrases begin.

ghost use Rattle.std.specs.Prelude.{◌≡◌, drop, cond};
ghost use Rattle.theory_grammar.specs.Beginnings.{begins_mono, begins_ty, begins_atom, begins_appl, begins_term, begins_comp, begins_fatom, begins_formula, begins_arg, begins_stmt, begins_end, begins_proof, begins_decl};
ghost use Rattle.theory_grammar.specs.Readers.{first_is};
ghost use Rattle.htt_parser_words.specs.Beginnings.{begins_of};
ghost use Rattle.htt_parser_words.specs.declared.cursor.Reason.TheVariants.{Expected};
ghost use Rattle.htt_parser_words.specs.declared.cursor.Halted.TheVariants.{At};

use crate::cursor::{Cursor, Halted, Reason};
use htt_lexer_tokens::{Keyword, Kind, Sign};

/// A kind of phrase, by the tokens with which it can begin.
#[derive(Clone, Copy, Debug, PartialEq, Eq)]
pub enum Phrase {
    Mono,
    Type,
    Atom,
    Application,
    Term,
    Computation,
    Fatom,
    Formula,
    Argument,
    Statement,
    Proof,
    Declaration,
}

fn begins_mono(kind: Kind) -> bool
    ensures { result ≡ begins_mono kind }
{
    match kind {
        Kind::Name => true,
        Kind::Keyword(
            Keyword::WordWord | Keyword::BoolWord | Keyword::LocWord | Keyword::UnitWord,
        ) => true,
        Kind::Sign(Sign::OpenParenSign) => true,
        _ => false,
    }
}

fn begins_ty(kind: Kind) -> bool
    ensures { result ≡ begins_ty kind }
{
    match kind {
        Kind::Sign(Sign::OpenBracketSign | Sign::OpenBraceSign) => true,
        _ => begins_mono(kind),
    }
}

fn begins_atom(kind: Kind) -> bool
    ensures { result ≡ begins_atom kind }
{
    match kind {
        Kind::Name | Kind::Number(_) => true,
        Kind::Keyword(
            Keyword::TrueWord
            | Keyword::FalseWord
            | Keyword::NullWord
            | Keyword::PlaceWord
            | Keyword::EqWord
            | Keyword::SelWord,
        ) => true,
        Kind::Sign(Sign::OpenParenSign) => true,
        _ => false,
    }
}

fn begins_appl(kind: Kind) -> bool
    ensures { result ≡ begins_appl kind }
{
    match kind {
        Kind::Keyword(Keyword::FstWord | Keyword::SndWord | Keyword::NotWord) => true,
        _ => begins_atom(kind),
    }
}

fn begins_term(kind: Kind) -> bool
    ensures { result ≡ begins_term kind }
{
    match kind {
        Kind::Keyword(Keyword::FunWord | Keyword::DoWord | Keyword::FixWord) => true,
        _ => begins_appl(kind),
    }
}

fn begins_comp(kind: Kind) -> bool
    ensures { result ≡ begins_comp kind }
{
    match kind {
        Kind::Name => true,
        Kind::Keyword(Keyword::RetWord) => true,
        Kind::Sign(Sign::UnderscoreSign) => true,
        _ => false,
    }
}

fn begins_fatom(kind: Kind) -> bool
    ensures { result ≡ begins_fatom kind }
{
    match kind {
        Kind::Keyword(
            Keyword::TtWord
            | Keyword::FfWord
            | Keyword::EmpWord
            | Keyword::CapitalEmpWord
            | Keyword::SameWord
            | Keyword::JoinWord
            | Keyword::CellWord
            | Keyword::BlockWord,
        ) => true,
        Kind::Sign(Sign::OpenBracketSign | Sign::AtSign | Sign::BangSign) => true,
        _ => begins_appl(kind),
    }
}

fn begins_formula(kind: Kind) -> bool
    ensures { result ≡ begins_formula kind }
{
    match kind {
        Kind::Keyword(Keyword::AllWord | Keyword::ExWord) => true,
        _ => begins_fatom(kind),
    }
}

fn begins_arg(kind: Kind) -> bool
    ensures { result ≡ begins_arg kind }
{
    match kind {
        Kind::Sign(Sign::AtSign) => true,
        _ => begins_term(kind),
    }
}

fn begins_stmt(kind: Kind) -> bool
    ensures { result ≡ begins_stmt kind }
{
    match kind {
        Kind::Keyword(
            Keyword::IntroWord | Keyword::GenWord | Keyword::OpenWord | Keyword::HaveWord,
        ) => true,
        _ => false,
    }
}

fn begins_end(kind: Kind) -> bool
    ensures { result ≡ begins_end kind }
{
    match kind {
        Kind::Name => true,
        Kind::Keyword(
            Keyword::TrivialWord
            | Keyword::ReflWord
            | Keyword::FirstWord
            | Keyword::SecondWord
            | Keyword::LeftWord
            | Keyword::RightWord
            | Keyword::AbsurdWord
            | Keyword::BothWord
            | Keyword::GiveWord
            | Keyword::AppWord
            | Keyword::InstWord
            | Keyword::CaseWord
            | Keyword::RewriteWord
            | Keyword::InductWord
            | Keyword::SplitWord
            | Keyword::AxiomWord
            | Keyword::LemWord
            | Keyword::TheWord,
        ) => true,
        _ => false,
    }
}

fn begins_proof(kind: Kind) -> bool
    ensures { result ≡ begins_proof kind }
{
    begins_stmt(kind) || begins_end(kind)
}

fn begins_decl(kind: Kind) -> bool
    ensures { result ≡ begins_decl kind }
{
    match kind {
        Kind::Keyword(
            Keyword::TypeWord
            | Keyword::PredWord
            | Keyword::DefWord
            | Keyword::ValWord
            | Keyword::ProofWord,
        ) => true,
        _ => false,
    }
}

impl Phrase {
    /// Whether such a phrase can begin with a token of this kind.
    fn begins_with(self, kind: Kind) -> bool
        ensures { result ≡ begins_of self kind }
    {
        match self {
            Phrase::Mono => begins_mono(kind),
            Phrase::Type => begins_ty(kind),
            Phrase::Atom => begins_atom(kind),
            Phrase::Application => begins_appl(kind),
            Phrase::Term => begins_term(kind),
            Phrase::Computation => begins_comp(kind),
            Phrase::Fatom => begins_fatom(kind),
            Phrase::Formula => begins_formula(kind),
            Phrase::Argument => begins_arg(kind),
            Phrase::Statement => begins_stmt(kind),
            Phrase::Proof => begins_proof(kind),
            Phrase::Declaration => begins_decl(kind),
        }
    }
}

impl Cursor<'_> {
    /// Whether a phrase of this kind can begin at a place.
    pub fn begins(&self, phrase: Phrase, at: usize) -> bool
        ensures { result ≡ first_is (begins_of phrase) (drop at self.now.tokens.now) }
    {
        match self.token(at) {
            Some(token) => phrase.begins_with(token.kind),
            None => false,
        }
    }

    /// The refusal of a phrase that would be past a limit: for this reason if one begins at the
    /// place, else as another token than was wanted.
    pub fn refuse(&self, reason: Reason, phrase: Phrase, at: usize) -> Halted
        ensures { result ≡ At (cond (first_is (begins_of phrase) (drop at self.now.tokens.now)) reason Expected) at }
    {
        if self.begins(phrase, at) {
            Halted::At(reason, at)
        } else {
            Halted::At(Reason::Expected, at)
        }
    }
}
