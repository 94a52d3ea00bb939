//! Texts with their tokens, and bytes that are refused, worked out by hand.

use crate::{Keyword, Kind, LexStop, Sign, Token, tokens};

/// Whether the text has exactly these tokens.
fn has(rt: HostRuntime, text: &[u8], wanted: &[Token]) -> bool {
    match tokens(rt.alloc(), text) {
        Ok(found) => found.as_slice() == wanted,
        Err(_) => false,
    }
}

fn name(from: u64, to: u64) -> Token {
    let kind = Kind::Name;
    Token { kind, from, to }
}

fn number(value: u64, from: u64, to: u64) -> Token {
    let kind = Kind::Number(value);
    Token { kind, from, to }
}

fn keyword(word: Keyword, from: u64, to: u64) -> Token {
    let kind = Kind::Keyword(word);
    Token { kind, from, to }
}

fn sign(sign: Sign, from: u64, to: u64) -> Token {
    let kind = Kind::Sign(sign);
    Token { kind, from, to }
}

#[test]
fn words_of_declarations_and_types_are_keywords(rt: HostRuntime) {
    let words = [
        ("type", Keyword::TypeWord),
        ("pred", Keyword::PredWord),
        ("def", Keyword::DefWord),
        ("val", Keyword::ValWord),
        ("proof", Keyword::ProofWord),
        ("auto", Keyword::AutoWord),
        ("word", Keyword::WordWord),
        ("bool", Keyword::BoolWord),
        ("loc", Keyword::LocWord),
        ("unit", Keyword::UnitWord),
        ("heap", Keyword::HeapWord),
    ];
    for (text, word) in words {
        let wanted = [keyword(word, 0, text.len() as u64)];
        assert!(rt; has(rt, text.as_bytes(), &wanted), "{text}");
    }
}

#[test]
fn words_of_computations_and_terms_are_keywords(rt: HostRuntime) {
    let words = [
        ("fun", Keyword::FunWord),
        ("do", Keyword::DoWord),
        ("fix", Keyword::FixWord),
        ("ret", Keyword::RetWord),
        ("alloc", Keyword::AllocWord),
        ("get", Keyword::GetWord),
        ("set", Keyword::SetWord),
        ("free", Keyword::FreeWord),
        ("if", Keyword::IfWord),
        ("claim", Keyword::ClaimWord),
        ("true", Keyword::TrueWord),
        ("false", Keyword::FalseWord),
        ("null", Keyword::NullWord),
        ("place", Keyword::PlaceWord),
        ("fst", Keyword::FstWord),
        ("snd", Keyword::SndWord),
        ("not", Keyword::NotWord),
        ("eq", Keyword::EqWord),
        ("sel", Keyword::SelWord),
        ("emp", Keyword::EmpWord),
    ];
    for (text, word) in words {
        let wanted = [keyword(word, 0, text.len() as u64)];
        assert!(rt; has(rt, text.as_bytes(), &wanted), "{text}");
    }
}

#[test]
fn words_of_formulas_are_keywords(rt: HostRuntime) {
    let words = [
        ("tt", Keyword::TtWord),
        ("ff", Keyword::FfWord),
        ("all", Keyword::AllWord),
        ("ex", Keyword::ExWord),
        ("Emp", Keyword::CapitalEmpWord),
        ("Cell", Keyword::CellWord),
        ("Block", Keyword::BlockWord),
        ("Join", Keyword::JoinWord),
        ("Same", Keyword::SameWord),
        ("init", Keyword::InitWord),
        ("mem", Keyword::MemWord),
    ];
    for (text, word) in words {
        let wanted = [keyword(word, 0, text.len() as u64)];
        assert!(rt; has(rt, text.as_bytes(), &wanted), "{text}");
    }
}

#[test]
fn words_of_proofs_are_keywords(rt: HostRuntime) {
    let words = [
        ("intro", Keyword::IntroWord),
        ("gen", Keyword::GenWord),
        ("have", Keyword::HaveWord),
        ("open", Keyword::OpenWord),
        ("both", Keyword::BothWord),
        ("left", Keyword::LeftWord),
        ("right", Keyword::RightWord),
        ("give", Keyword::GiveWord),
        ("trivial", Keyword::TrivialWord),
        ("refl", Keyword::ReflWord),
        ("absurd", Keyword::AbsurdWord),
        ("case", Keyword::CaseWord),
        ("rewrite", Keyword::RewriteWord),
        ("induct", Keyword::InductWord),
        ("split", Keyword::SplitWord),
        ("first", Keyword::FirstWord),
        ("second", Keyword::SecondWord),
        ("app", Keyword::AppWord),
        ("inst", Keyword::InstWord),
        ("axiom", Keyword::AxiomWord),
        ("lem", Keyword::LemWord),
        ("the", Keyword::TheWord),
    ];
    for (text, word) in words {
        let wanted = [keyword(word, 0, text.len() as u64)];
        assert!(rt; has(rt, text.as_bytes(), &wanted), "{text}");
    }
}

#[test]
fn every_sign_is_one_token(rt: HostRuntime) {
    let signs = [
        ("(", Sign::OpenParenSign),
        (")", Sign::CloseParenSign),
        ("[", Sign::OpenBracketSign),
        ("]", Sign::CloseBracketSign),
        ("{", Sign::OpenBraceSign),
        ("}", Sign::CloseBraceSign),
        (",", Sign::CommaSign),
        (";", Sign::SemicolonSign),
        (":", Sign::ColonSign),
        (".", Sign::DotSign),
        ("=", Sign::EqualSign),
        ("=>", Sign::ImpliesSign),
        ("->", Sign::ArrowSign),
        ("<-", Sign::LeftArrowSign),
        ("|->", Sign::PointsToSign),
        ("_", Sign::UnderscoreSign),
        ("+", Sign::PlusSign),
        ("-", Sign::MinusSign),
        ("*", Sign::StarSign),
        ("&", Sign::AmpersandSign),
        ("|", Sign::BarSign),
        ("^", Sign::CaretSign),
        ("<<", Sign::ShiftLeftSign),
        (">>", Sign::ShiftRightSign),
        ("<", Sign::LessSign),
        ("**", Sign::DoubleStarSign),
        ("/\\", Sign::AndSign),
        ("\\/", Sign::OrSign),
        ("@", Sign::AtSign),
        ("!", Sign::BangSign),
    ];
    for (text, spelled) in signs {
        let wanted = [sign(spelled, 0, text.len() as u64)];
        assert!(rt; has(rt, text.as_bytes(), &wanted), "{text}");
    }
}

#[test]
fn blanks_and_comments_are_no_tokens(rt: HostRuntime) {
    let texts: [(&str, &[Token]); 9] = [
        ("", &[]),
        (" \t\r\n", &[]),
        ("-->", &[]),
        ("-- to the end", &[]),
        ("--", &[]),
        ("|--", &[sign(Sign::BarSign, 0, 1)]),
        ("|-->", &[sign(Sign::BarSign, 0, 1)]),
        ("--\rx\ny", &[name(5, 6)]),
        ("x--\u{2192}\n2", &[name(0, 1), number(2, 7, 8)]),
    ];
    for (text, wanted) in texts {
        assert!(rt; has(rt, text.as_bytes(), wanted), "{text}");
    }
}

#[test]
fn the_longest_sign_is_taken(rt: HostRuntime) {
    let texts: [(&str, &[Token]); 8] = [
        (
            "<--",
            &[sign(Sign::LeftArrowSign, 0, 2), sign(Sign::MinusSign, 2, 3)],
        ),
        (
            "<-->",
            &[sign(Sign::LeftArrowSign, 0, 2), sign(Sign::ArrowSign, 2, 4)],
        ),
        (
            "|->-",
            &[sign(Sign::PointsToSign, 0, 3), sign(Sign::MinusSign, 3, 4)],
        ),
        (
            "|-",
            &[sign(Sign::BarSign, 0, 1), sign(Sign::MinusSign, 1, 2)],
        ),
        (
            "***",
            &[sign(Sign::DoubleStarSign, 0, 2), sign(Sign::StarSign, 2, 3)],
        ),
        (
            "<<<-",
            &[
                sign(Sign::ShiftLeftSign, 0, 2),
                sign(Sign::LeftArrowSign, 2, 4),
            ],
        ),
        (
            "==>",
            &[sign(Sign::EqualSign, 0, 1), sign(Sign::ImpliesSign, 1, 3)],
        ),
        (
            "/\\\\/",
            &[sign(Sign::AndSign, 0, 2), sign(Sign::OrSign, 2, 4)],
        ),
    ];
    for (text, wanted) in texts {
        assert!(rt; has(rt, text.as_bytes(), wanted), "{text}");
    }
}

#[test]
fn a_number_ends_with_its_last_digit(rt: HostRuntime) {
    let texts: [(&str, &[Token]); 6] = [
        ("1a", &[number(1, 0, 1), name(1, 2)]),
        ("1_", &[number(1, 0, 1), sign(Sign::UnderscoreSign, 1, 2)]),
        (
            "1-2",
            &[
                number(1, 0, 1),
                sign(Sign::MinusSign, 1, 2),
                number(2, 2, 3),
            ],
        ),
        ("007", &[number(7, 0, 3)]),
        ("18446744073709551615", &[number(u64::MAX, 0, 20)]),
        (
            "0000000000000000000000018446744073709551615",
            &[number(u64::MAX, 0, 43)],
        ),
    ];
    for (text, wanted) in texts {
        assert!(rt; has(rt, text.as_bytes(), wanted), "{text}");
    }
}

#[test]
fn a_word_is_as_long_as_it_can_be(rt: HostRuntime) {
    let texts: [(&str, &[Token]); 11] = [
        ("_", &[sign(Sign::UnderscoreSign, 0, 1)]),
        ("__", &[name(0, 2)]),
        ("_1", &[name(0, 2)]),
        (
            "_ _",
            &[
                sign(Sign::UnderscoreSign, 0, 1),
                sign(Sign::UnderscoreSign, 2, 3),
            ],
        ),
        ("gr\u{f6}\u{df}e", &[name(0, 7)]),
        ("\u{540d}\u{524d}", &[name(0, 6)]),
        ("x\u{663}", &[name(0, 3)]),
        ("_\u{301}", &[name(0, 3)]),
        ("words word2 Word", &[name(0, 5), name(6, 11), name(12, 16)]),
        (
            "emp Emp EMP Empty",
            &[
                keyword(Keyword::EmpWord, 0, 3),
                keyword(Keyword::CapitalEmpWord, 4, 7),
                name(8, 11),
                name(12, 17),
            ],
        ),
        ("f.k", &[name(0, 1), sign(Sign::DotSign, 1, 2), name(2, 3)]),
    ];
    for (text, wanted) in texts {
        assert!(rt; has(rt, text.as_bytes(), wanted), "{text}");
    }
}

#[test]
fn a_declaration_has_its_tokens(rt: HostRuntime) {
    let wanted = [
        keyword(Keyword::DefWord, 0, 3),
        name(4, 5),
        sign(Sign::ColonSign, 6, 7),
        keyword(Keyword::WordWord, 8, 12),
        sign(Sign::EqualSign, 13, 14),
        number(1, 15, 16),
        name(16, 17),
    ];
    assert!(rt; has(rt, b"def a : word = 1a", &wanted));
}

#[test]
fn the_first_fault_is_told(rt: HostRuntime) {
    let refused = [
        (b"\xff".as_slice(), LexStop::NotUtf8 { at: 0 }),
        (b"% \xff", LexStop::NotUtf8 { at: 2 }),
        (b"x -- \xc3\n", LexStop::NotUtf8 { at: 5 }),
        (b"\xe5\x90", LexStop::NotUtf8 { at: 0 }),
        (b"\xed\xa0\x80", LexStop::NotUtf8 { at: 0 }),
        (b"18446744073709551616 \xff", LexStop::NotUtf8 { at: 21 }),
        (b"%", LexStop::BadChar { at: 0 }),
        (b"% 18446744073709551616", LexStop::BadChar { at: 0 }),
        (b"x \x0c", LexStop::BadChar { at: 2 }),
        (b"\0", LexStop::BadChar { at: 0 }),
        (b"1\xc2\xa02", LexStop::BadChar { at: 1 }),
        (b"\xef\xbb\xbfval", LexStop::BadChar { at: 0 }),
        (b"1\xd9\xa3", LexStop::BadChar { at: 1 }),
        (b"a > b", LexStop::BadChar { at: 2 }),
        (b"/", LexStop::BadChar { at: 0 }),
        (b"\\", LexStop::BadChar { at: 0 }),
        (b"18446744073709551616", LexStop::LiteralTooLarge { at: 0 }),
        (
            b"-- 18446744073709551616\n0 18446744073709551616 %",
            LexStop::LiteralTooLarge { at: 26 },
        ),
        (
            b"100000000000000000000000000000000000000000",
            LexStop::LiteralTooLarge { at: 0 },
        ),
    ];
    for (text, wanted) in refused {
        match tokens(rt.alloc(), text) {
            Ok(_) => panic!(rt; "{wanted}"),
            Err(stop) => assert_eq!(rt; stop, wanted),
        }
    }
}
