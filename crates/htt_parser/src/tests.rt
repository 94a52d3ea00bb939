//! Texts with what is read from them and where they are refused, worked out by hand, and what the
//! plain recogniser says of them.

use crate::{ParseStop, parse, parse_formula, parse_mono, parse_proof};
use htt_lexer::tokens;
use htt_parser_recogniser::{is_file, is_formula, is_proof};
use htt_parser_trees::{MonoName, RawBracket, RawDecl, RawRight};
use std::test::Fail;

/// A call of the crate.
#[derive(Clone, Copy)]
pub enum Call {
    File,
    Formula,
    Proof,
}

/// How the call refuses the text, if it does; texts that have no tokens aren't asked about.
pub fn stop(rt: HostRuntime, call: Call, text: &str) -> Option<ParseStop> {
    let Ok(found) = tokens(rt.alloc(), text.as_bytes()) else {
        return Some(ParseStop::NoMemory);
    };
    let bytes = text.as_bytes();
    match call {
        Call::File => parse(rt.alloc(), bytes, &found).err(),
        Call::Formula => parse_formula(rt.alloc(), bytes, &found).err(),
        Call::Proof => parse_proof(rt.alloc(), bytes, &found).err(),
    }
}

/// Whether the recogniser finds the phrase of the call in the text.
fn is_found(rt: HostRuntime, call: Call, text: &str) -> bool {
    let Ok(found) = tokens(rt.alloc(), text.as_bytes()) else {
        return false;
    };
    let answer = match call {
        Call::File => is_file(rt.alloc(), &found),
        Call::Formula => is_formula(rt.alloc(), &found),
        Call::Proof => is_proof(rt.alloc(), &found),
    };
    answer == Ok(true)
}

/// Texts that are read.
const READ: [(Call, &str); 44] = [
    (Call::File, ""),
    (Call::File, "-- nothing"),
    (Call::File, "type t = word * (bool * loc) * unit"),
    (Call::File, "type t = ((word)) type u = t"),
    (Call::File, "pred p() = tt"),
    (Call::File, "pred p[a, b](x : a, y : b) = x =[a] x"),
    (Call::File, "pred p induct n (x : word) = {tt} {!p(n; x)}"),
    (Call::File, "def x : word = 1 2 [word] (3, null) ()"),
    (
        Call::File,
        "val f : (x : word) -> (_ : bool) -> unit = fun x . fun _ . ()",
    ),
    (Call::File, "val f : [a] -> a = fun [a] . fun x . x"),
    (Call::File, "val f : {tt} x : word {tt} = do ret place 1"),
    (
        Call::File,
        "val f : word = do x <- alloc[word] 1; y <- get[word] x; _ <- set[word] x y; ret y",
    ),
    (
        Call::File,
        "val f : word = do _ <- free[word] l; _ <- claim {emp}; x <- f 1; ret x",
    ),
    (
        Call::File,
        "val f : word = do x <- if[word] b {ret 1} {ret 2}; ret x",
    ),
    (
        Call::File,
        "val f : word = fix f (x : word) (_ : bool) : {tt} r : word {tt} . ret fst x",
    ),
    (
        Call::File,
        "def e : bool = eq[word](1, 2) & sel[bool](true, false, not x) << 1 >> 2",
    ),
    (
        Call::File,
        "def e : word = 1 + 2 - 3 | 4 ^ 5 * snd (x : word)",
    ),
    (Call::File, "proof f.1 = auto proof f.2 = intro u; trivial"),
    (Call::Formula, "tt \\/ ff /\\ emp ** tt => tt"),
    (Call::Formula, "all _ : heap . ex x : word * bool . tt"),
    (Call::Formula, "x + 1 < y =[bool] true"),
    (Call::Formula, "l |->[word] _ ** l |->[word * word] (1, 2)"),
    (Call::Formula, "@mem^1 [Emp(init)]"),
    (Call::Formula, "Join(h, a, b) /\\ Same(a, b)"),
    (Call::Formula, "Cell[word](h, l, 1) /\\ Block[word](h, l)"),
    (Call::Formula, "!p()"),
    (Call::Formula, "!p[word, bool](1, 2)"),
    (Call::Formula, "!q(1; 2)"),
    (Call::Formula, "!q@h(1;)"),
    (Call::Formula, "(fun x . x) =[word] y"),
    (Call::Proof, "u"),
    (Call::Proof, "gen _; intro u; second(u)"),
    (
        Call::Proof,
        "open e v = axiom emp_some(); give(@e, trivial)",
    ),
    (
        Call::Proof,
        "have c : [tt] = refl; both(first(c), left(right(c)))",
    ),
    (Call::Proof, "app(u, v, w)"),
    (Call::Proof, "inst(u, @h, x + 1)"),
    (Call::Proof, "case(p, u . absurd(u), v . r)"),
    (Call::Proof, "rewrite(p, x . [x =[word] 1], q)"),
    (Call::Proof, "induct(x . [tt], 1, p, y u v . q)"),
    (Call::Proof, "split(_ . [tt], true, p, q)"),
    (Call::Proof, "axiom p[word]()"),
    (Call::Proof, "axiom p.1(@h, x)"),
    (Call::Proof, "lem[tt]"),
    (Call::Proof, "the[tt](trivial)"),
];

/// Programs as `docs/LANGUAGE.md` has them.
const PROGRAMS: [&str; 5] = [
    "type cell = word * loc
pred same[a](x : a, y : a) = x =[a] y",
    "pred lst induct n (p : loc) = {emp /\\ p =[loc] null}
  {ex c : cell . p |->[cell] c ** !lst(n; snd c)}",
    "def id : [a] -> (x : a) -> a = fun [a] . fun x . x",
    "val swap : (l : loc) -> (k : loc) -> (a : word) -> (b : word) ->
  {l |->[word] a ** k |->[word] b} z : unit {l |->[word] b ** k |->[word] a} =
  fun l . fun k . fun a . fun b . do
    x <- get[word] l;
    y <- get[word] k;
    _ <- set[word] l y;
    _ <- set[word] k x;
    ret ()
proof swap.1 = auto",
    "val drop : (n : word) -> (p : loc) -> {!lst(n; p)} u : unit {emp} =
  fix drop (n : word) (p : loc) : {!lst(n; p)} u : unit {emp} .
    u <- if[unit] eq[word](n, 0) {ret ()} {
      c <- get[cell] p;
      _ <- free[cell] p;
      r <- drop (n - 1) (snd c);
      ret r
    };
    ret u",
];

/// Texts with the byte of their first wrong token.
const REFUSED: [(Call, &str, u64); 44] = [
    (Call::File, "val", 3),
    (Call::File, "zz", 0),
    (Call::File, "type t = word *", 15),
    (Call::File, "type t = word type", 18),
    (Call::File, "type t = (word", 14),
    (Call::File, "pred p[](x : word) = tt", 7),
    (Call::File, "pred p induct n () = {tt}", 25),
    (Call::File, "def x word = 1", 6),
    (Call::File, "val f : ((x : word) -> word) = 1", 12),
    (Call::File, "val f : (_) -> word = 1", 10),
    (Call::File, "val f : {tt} word {tt} = 1", 13),
    (Call::File, "val f : word = do x <- alloc 1; ret x", 29),
    (Call::File, "val f : word = do x <- f 1 ret x", 27),
    (Call::File, "val f : word = do ret", 21),
    (Call::File, "def e : word = eq(1, 2)", 17),
    (Call::File, "def e : word = fun [x . x", 22),
    (Call::File, "def e : word = 1 +", 18),
    (Call::File, "proof f = auto", 8),
    (Call::File, "proof f.1 = auto auto", 17),
    (Call::Formula, "", 0),
    (Call::Formula, "tt /\\ ex x : word . tt", 6),
    (Call::Formula, "x < y < z =[bool] true", 6),
    (Call::Formula, "ex word : heap . tt", 3),
    (Call::Formula, "fun x . x =[word] y", 0),
    (Call::Formula, "_ |->[word] l", 0),
    (Call::Formula, "@k Emp(k)", 3),
    (Call::Formula, "Join(h, a)", 9),
    (Call::Formula, "Block(h, l)", 5),
    (Call::Formula, "!q[word](1; 2)", 10),
    (Call::Formula, "!q(1, 2;)", 7),
    (Call::Formula, "!q@h(1)", 6),
    (Call::Formula, "!q@h()", 5),
    (Call::Formula, "!p(1,)", 5),
    (Call::Formula, "!p[]()", 3),
    (Call::Formula, "tt tt", 3),
    (Call::Proof, "intro u;", 8),
    (Call::Proof, "intro _; refl", 6),
    (Call::Proof, "have c : tt = trivial; c", 9),
    (Call::Proof, "app(u)", 5),
    (Call::Proof, "inst(u)", 6),
    (Call::Proof, "axiom p.0()", 10),
    (Call::Proof, "rewrite(p, x =[word] 1, q)", 13),
    (Call::Proof, "split(_ . tt, true, p, q)", 10),
    (Call::Proof, "u u", 2),
];

#[test]
fn texts_of_every_production_are_read(rt: HostRuntime) {
    for (call, text) in READ {
        let refused = stop(rt, call, text);
        assert!(rt; refused.is_none(), "{text}");
        assert!(rt; is_found(rt, call, text), "{text}");
    }
}

#[test]
fn programs_are_read(rt: HostRuntime) {
    for text in PROGRAMS {
        assert!(rt; stop(rt, Call::File, text).is_none(), "{text}");
    }
}

#[test]
fn refusals_stand_at_the_first_wrong_token(rt: HostRuntime) {
    for (call, text, at) in REFUSED {
        let refused = stop(rt, call, text);
        assert!(rt; refused == Some(ParseStop::Expected { at }), "{text}");
        assert!(rt; !is_found(rt, call, text), "{text}");
    }
}

#[test]
fn trees_keep_what_stands_in_the_text(rt: HostRuntime) -> Result<(), Fail> {
    let text = b"((word)*a)";
    let found = tokens(rt.alloc(), text)?;
    let mono = parse_mono(rt.alloc(), text, &found)?;
    assert_eq!(rt; mono.name, MonoName::Word { at: 2 });
    assert!(rt; matches!(mono.right, RawRight::Nothing));
    match mono.brackets.as_slice() {
        [inner, outer] => {
            assert!(rt; matches!(inner, RawBracket::Times { at: 1, .. }));
            assert!(rt; matches!(outer, RawBracket::Alone { at: 0 }));
        }
        _ => assert!(rt; false),
    }
    Ok(())
}

#[test]
fn declarations_stand_in_their_order(rt: HostRuntime) -> Result<(), Fail> {
    let text = b"type t = word proof t.7 = auto";
    let found = tokens(rt.alloc(), text)?;
    let decls = parse(rt.alloc(), text, &found)?;
    assert_eq!(rt; decls.len(), 2);
    assert!(rt; matches!(decls[0], RawDecl::Type { .. }));
    assert!(rt;
        matches!(
            decls[1],
            RawDecl::Proof {
                at: 14,
                number: 7,
                ..
            }
        )
    );
    let formula = parse_formula(rt.alloc(), b"", &[]).err();
    assert_eq!(rt; formula, Some(ParseStop::Expected { at: 0 }));
    Ok(())
}
