//! The keywords and the signs, in tables by the number of their bytes, so that a spelling is compared
//! with few others.

ghost use Rattle.std.specs.Prelude.{◌≡◌, map};
ghost use Rattle.htt_lexer.specs.Pieces.{spelled};
ghost use Rattle.htt_lexer.specs.Tables.{keyword_table, lookup, sign_table};

use htt_lexer_tokens::{Keyword, Sign};

const WORDS_OF_TWO: [(&str, Keyword); 6] = [
    ("do", Keyword::DoWord),
    ("if", Keyword::IfWord),
    ("eq", Keyword::EqWord),
    ("tt", Keyword::TtWord),
    ("ff", Keyword::FfWord),
    ("ex", Keyword::ExWord),
];

const WORDS_OF_THREE: [(&str, Keyword); 20] = [
    ("def", Keyword::DefWord),
    ("val", Keyword::ValWord),
    ("loc", Keyword::LocWord),
    ("fun", Keyword::FunWord),
    ("fix", Keyword::FixWord),
    ("ret", Keyword::RetWord),
    ("get", Keyword::GetWord),
    ("set", Keyword::SetWord),
    ("fst", Keyword::FstWord),
    ("snd", Keyword::SndWord),
    ("not", Keyword::NotWord),
    ("sel", Keyword::SelWord),
    ("emp", Keyword::EmpWord),
    ("all", Keyword::AllWord),
    ("Emp", Keyword::CapitalEmpWord),
    ("mem", Keyword::MemWord),
    ("gen", Keyword::GenWord),
    ("app", Keyword::AppWord),
    ("lem", Keyword::LemWord),
    ("the", Keyword::TheWord),
];

const WORDS_OF_FOUR: [(&str, Keyword); 22] = [
    ("type", Keyword::TypeWord),
    ("pred", Keyword::PredWord),
    ("auto", Keyword::AutoWord),
    ("word", Keyword::WordWord),
    ("bool", Keyword::BoolWord),
    ("unit", Keyword::UnitWord),
    ("heap", Keyword::HeapWord),
    ("free", Keyword::FreeWord),
    ("true", Keyword::TrueWord),
    ("null", Keyword::NullWord),
    ("Cell", Keyword::CellWord),
    ("Join", Keyword::JoinWord),
    ("Same", Keyword::SameWord),
    ("init", Keyword::InitWord),
    ("have", Keyword::HaveWord),
    ("open", Keyword::OpenWord),
    ("both", Keyword::BothWord),
    ("left", Keyword::LeftWord),
    ("give", Keyword::GiveWord),
    ("refl", Keyword::ReflWord),
    ("case", Keyword::CaseWord),
    ("inst", Keyword::InstWord),
];

const WORDS_OF_FIVE: [(&str, Keyword); 11] = [
    ("proof", Keyword::ProofWord),
    ("alloc", Keyword::AllocWord),
    ("claim", Keyword::ClaimWord),
    ("false", Keyword::FalseWord),
    ("place", Keyword::PlaceWord),
    ("Block", Keyword::BlockWord),
    ("intro", Keyword::IntroWord),
    ("right", Keyword::RightWord),
    ("split", Keyword::SplitWord),
    ("first", Keyword::FirstWord),
    ("axiom", Keyword::AxiomWord),
];

const WORDS_OF_SIX: [(&str, Keyword); 3] = [
    ("absurd", Keyword::AbsurdWord),
    ("induct", Keyword::InductWord),
    ("second", Keyword::SecondWord),
];

const WORDS_OF_SEVEN: [(&str, Keyword); 2] = [
    ("trivial", Keyword::TrivialWord),
    ("rewrite", Keyword::RewriteWord),
];

const SIGNS_OF_ONE: [(&str, Sign); 20] = [
    ("(", Sign::OpenParenSign),
    (")", Sign::CloseParenSign),
    ("[", Sign::OpenBracketSign),
    ("]", Sign::CloseBracketSign),
    ("{", Sign::OpenBraceSign),
    ("}", Sign::CloseBraceSign),
    (",", Sign::CommaSign),
    (";", Sign::SemicolonSign),
    (":", Sign::ColonSign),
    (".", Sign::DotSign),
    ("=", Sign::EqualSign),
    ("+", Sign::PlusSign),
    ("-", Sign::MinusSign),
    ("*", Sign::StarSign),
    ("&", Sign::AmpersandSign),
    ("|", Sign::BarSign),
    ("^", Sign::CaretSign),
    ("<", Sign::LessSign),
    ("@", Sign::AtSign),
    ("!", Sign::BangSign),
];

const SIGNS_OF_TWO: [(&str, Sign); 8] = [
    ("=>", Sign::ImpliesSign),
    ("->", Sign::ArrowSign),
    ("<-", Sign::LeftArrowSign),
    ("<<", Sign::ShiftLeftSign),
    (">>", Sign::ShiftRightSign),
    ("**", Sign::DoubleStarSign),
    ("/\\", Sign::AndSign),
    ("\\/", Sign::OrSign),
];

const SIGNS_OF_THREE: [(&str, Sign); 1] = [("|->", Sign::PointsToSign)];

/// What a table has for a spelling, if anything.
fn row_of<T: Copy>(table: &[(&str, T)], spelling: &[u8]) -> Option<T>
    ensures { result ≡ lookup (map spelled table.now) spelling.now }
{
    for (text, meaning) in table {
        if spelling == text.as_bytes() {
            return Some(*meaning);
        }
    }
    None
}

/// The keyword of this spelling, if any.
pub fn keyword_of(word: &[u8]) -> Option<Keyword>
    ensures { result ≡ lookup keyword_table word.now }
{
    match word.len() {
        2 => row_of(&WORDS_OF_TWO, word),
        3 => row_of(&WORDS_OF_THREE, word),
        4 => row_of(&WORDS_OF_FOUR, word),
        5 => row_of(&WORDS_OF_FIVE, word),
        6 => row_of(&WORDS_OF_SIX, word),
        7 => row_of(&WORDS_OF_SEVEN, word),
        _ => None,
    }
}

/// The sign of this spelling, if any.
pub fn sign_of(spelling: &[u8]) -> Option<Sign>
    ensures { result ≡ lookup sign_table spelling.now }
{
    match spelling.len() {
        1 => row_of(&SIGNS_OF_ONE, spelling),
        2 => row_of(&SIGNS_OF_TWO, spelling),
        3 => row_of(&SIGNS_OF_THREE, spelling),
        _ => None,
    }
}
