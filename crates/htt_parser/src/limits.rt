//! The limits: texts at the last level, operand and declaration that may be, and texts one past them.

use crate::tests::{Call, stop};
use crate::{ParseStop, parse_mono};
use htt_lexer::tokens;
use std::test::Fail;

/// The text with this before it and that behind it, so often.
fn around(
    rt: HostRuntime,
    before: &str,
    text: &str,
    behind: &str,
    times: usize,
) -> Result<String, Fail> {
    let mut whole = String::new(rt.alloc());
    for _ in 0..times {
        whole.push_str(before)?;
    }
    whole.push_str(text)?;
    for _ in 0..times {
        whole.push_str(behind)?;
    }
    Ok(whole)
}

/// What nests a phrase: the call, what stands before all turns, a turn before the phrase, how many of
/// its bytes stand before what is a level deeper, the phrase, a turn behind it, what stands behind all.
const TURNS: [(Call, &str, &str, u64, &str, &str, &str); 30] = [
    (
        Call::File,
        "val f : ",
        "(x : word) -> ",
        5,
        "word",
        "",
        " = 1",
    ),
    (
        Call::File,
        "val f : ",
        "(x : ",
        5,
        "word",
        ") -> word",
        " = 1",
    ),
    (Call::File, "val f : ", "[a] -> ", 7, "word", "", " = 1"),
    (Call::File, "type t = ", "word * ", 7, "word", "", ""),
    (Call::File, "def e : word = ", "(", 1, "1", ")", ""),
    (Call::File, "def e : word = ", "(1, ", 1, "1", ")", ""),
    (
        Call::File,
        "def e : word = ",
        "eq[word](",
        9,
        "1",
        ", 1)",
        "",
    ),
    (
        Call::File,
        "def e : word = ",
        "sel[word](true, 1, ",
        10,
        "1",
        ")",
        "",
    ),
    (Call::File, "def e : word = ", "fun x . ", 8, "1", "", ""),
    (Call::File, "def e : word = ", "fun [a] . ", 10, "1", "", ""),
    (Call::Formula, "", "[", 1, "tt", "]", ""),
    (Call::Formula, "", "tt => ", 6, "tt", "", ""),
    (Call::Formula, "", "tt \\/ ", 6, "tt", "", ""),
    (Call::Formula, "", "tt /\\ ", 6, "tt", "", ""),
    (Call::Formula, "", "tt ** ", 6, "tt", "", ""),
    (Call::Formula, "", "all x : word . ", 15, "tt", "", ""),
    (Call::Formula, "", "ex x : heap . ", 14, "tt", "", ""),
    (Call::Formula, "", "@h [", 4, "tt", "]", ""),
    (Call::Proof, "", "left(", 5, "u", ")", ""),
    (Call::Proof, "", "both(u, ", 5, "u", ")", ""),
    (Call::Proof, "", "give(@h, ", 9, "u", ")", ""),
    (Call::Proof, "", "open x u = ", 11, "u", "; u", ""),
    (Call::Proof, "", "have u : [tt] = ", 10, "u", "; u", ""),
    (Call::Proof, "", "case(", 5, "u", ", u . u, v . v)", ""),
    (Call::Proof, "", "app(", 4, "u", ", u)", ""),
    (Call::Proof, "", "inst(", 5, "u", ", @h)", ""),
    (Call::Proof, "", "rewrite(u, x . [tt], ", 8, "u", ")", ""),
    (
        Call::Proof,
        "",
        "induct(x . [tt], 1, u, y a b . ",
        12,
        "u",
        ")",
        "",
    ),
    (Call::Proof, "", "split(x . [tt], 1, u, ", 11, "u", ")", ""),
    (Call::Proof, "", "the[tt](", 4, "u", ")", ""),
];

/// The byte behind what stands before all turns and so many turns.
fn behind_turns(start: &str, turn: &str, turns: u64) -> u64 {
    (start.len() as u64).wrapping_add((turn.len() as u64).wrapping_mul(turns))
}

#[test]
fn phrases_have_at_most_256_levels(rt: HostRuntime) -> Result<(), Fail> {
    let alloc = rt.alloc();
    for (call, start, before, deeper, text, behind, end) in TURNS {
        let last = around(rt, before, text, behind, 255)?;
        let last = format!(in alloc; "{start}{last}{end}")?;
        assert!(rt; stop(rt, call, &last).is_none(), "{before}");
        let past = around(rt, before, text, behind, 256)?;
        let past = format!(in alloc; "{start}{past}{end}")?;
        let at = behind_turns(start, before, 255).wrapping_add(deeper);
        assert!(rt;
            stop(rt, call, &past) == Some(ParseStop::TooNested { at }),
            "{before}"
        );
    }
    Ok(())
}

#[test]
fn computations_and_their_results_are_levels(rt: HostRuntime) -> Result<(), Fail> {
    let alloc = rt.alloc();
    let start = "def e : word = ";
    for before in ["do ret ", "fix f : {tt} x : word {tt} . ret "] {
        let last = around(rt, before, "1", "", 127)?;
        let last = format!(in alloc; "{start}{last}")?;
        assert!(rt; stop(rt, Call::File, &last).is_none(), "{before}");
        let past = around(rt, before, "1", "", 128)?;
        let past = format!(in alloc; "{start}{past}")?;
        let at = behind_turns(start, before, 128);
        assert!(rt;
            stop(rt, Call::File, &past) == Some(ParseStop::TooNested { at }),
            "{before}"
        );
    }
    Ok(())
}

#[test]
fn chains_have_at_most_64_operands(rt: HostRuntime) -> Result<(), Fail> {
    for (call, text, more, end, from) in [
        (Call::Formula, "x", "+x", "=[word]y", 2),
        (Call::Formula, "x", " x", "=[word]y", 2),
        (Call::Formula, "x", "[word]", "=[word]y", 2),
        (Call::Proof, "app(u", ",u", ")", 6),
        (Call::Proof, "inst(u", ",x", ")", 7),
    ] {
        let mut last = around(rt, "", text, more, 63)?;
        let at = from + more.len() as u64 * 63;
        let mut longer = around(rt, "", text, more, 64)?;
        last.push_str(end)?;
        longer.push_str(end)?;
        assert!(rt; stop(rt, call, &last).is_none(), "{text}{more}");
        let refused = stop(rt, call, &longer);
        assert!(rt;
            refused == Some(ParseStop::TooLongChain { at }),
            "{text}{more}"
        );
    }
    Ok(())
}

#[test]
fn no_token_is_past_both_limits(rt: HostRuntime) -> Result<(), Fail> {
    for (call, turn, turns, chain, more, too_long, too_nested) in [
        (Call::Formula, "[", 255, "x", " x", 383, 256),
        (Call::Proof, "left(", 254, "inst(u", ",x", 1_403, 1_280),
        (Call::Proof, "left(", 254, "inst(u", ",@h", 1_466, 1_280),
        (Call::Proof, "left(", 254, "app(u", ",u", 1_402, 1_279),
    ] {
        let longer = around(rt, "", chain, more, 64)?;
        let last = around(rt, turn, &longer, "", turns)?;
        let refused = stop(rt, call, &last);
        let at = too_long;
        assert!(rt; refused == Some(ParseStop::TooLongChain { at }), "{more}");
        let deeper = around(rt, turn, &longer, "", turns + 1)?;
        let refused = stop(rt, call, &deeper);
        let at = too_nested;
        assert!(rt; refused == Some(ParseStop::TooNested { at }), "{more}");
    }
    Ok(())
}

#[test]
fn a_file_has_at_most_10000_declarations(rt: HostRuntime) -> Result<(), Fail> {
    let last = around(rt, "", "", "type t=word ", 10_000)?;
    assert!(rt; stop(rt, Call::File, &last).is_none());
    let more = around(rt, "", "", "type t=word ", 10_001)?;
    let at = 120_000;
    assert_eq!(rt;
        stop(rt, Call::File, &more),
        Some(ParseStop::TooMany { at })
    );
    let other = around(rt, last.as_str(), "word", "", 1)?;
    assert_eq!(rt;
        stop(rt, Call::File, &other),
        Some(ParseStop::Expected { at })
    );
    Ok(())
}

#[test]
fn the_limit_is_answered_only_where_a_monotype_can_begin(rt: HostRuntime) -> Result<(), Fail> {
    for (last, refusal) in [
        ("word", ParseStop::TooNested { at: 1_536 }),
        (")", ParseStop::Expected { at: 1_536 }),
    ] {
        let text = around(rt, "word *", last, "", 256)?;
        let found = tokens(rt.alloc(), text.as_bytes())?;
        let refused = parse_mono(rt.alloc(), text.as_bytes(), &found).err();
        assert_eq!(rt; refused, Some(refusal), "{last}");
    }
    Ok(())
}
