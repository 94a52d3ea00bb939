//! Texts that the grammar derives, and texts that differ from such in one point.

use crate::{is_file, is_formula, is_proof, is_type};
use htt_lexer::tokens;

/// A call of the crate.
#[derive(Clone, Copy)]
enum Call {
    File,
    Type,
    Formula,
    Proof,
}

/// Whether the call gives this answer on the tokens of the text.
fn answers(rt: HostRuntime, call: Call, text: &str, wanted: bool) -> bool {
    let Ok(found) = tokens(rt.alloc(), text.as_bytes()) else {
        return false;
    };
    let answer = match call {
        Call::File => is_file(rt.alloc(), &found),
        Call::Type => is_type(rt.alloc(), &found),
        Call::Formula => is_formula(rt.alloc(), &found),
        Call::Proof => is_proof(rt.alloc(), &found),
    };
    answer == Ok(wanted)
}

#[test]
fn files_are_lists_of_declarations(rt: HostRuntime) {
    let files = [
        ("", true),
        ("-- nothing", true),
        ("val", false),
        ("type t = word", true),
        ("type t = word * bool * loc", true),
        ("type t = ((word))", true),
        ("type t = word *", false),
        ("type t = word type", false),
        ("pred p() = tt", true),
        ("pred p[](x : word) = tt", false),
        ("pred p[a, b](x : a, y : b) = tt", true),
        ("pred p induct n () = {tt} {!p(n;)}", true),
        ("pred p induct n () = {tt}", false),
        ("def x : word = 1", true),
        ("def x : word = 1 2 [word]", true),
        ("val f : ((x : word) -> word) = 1", false),
        ("val f : (x : word) -> word = fun x . x", true),
        ("val f : [a] -> (_ : a) -> a = fun [a] . fun x . x", true),
        ("proof f.1 = auto", true),
        ("proof f.1 = intro u; trivial", true),
        ("proof f = auto", false),
        ("proof f.1 = auto proof f.2 = trivial", true),
        ("zz", false),
    ];
    for (text, wanted) in files {
        assert!(rt; answers(rt, Call::File, text, wanted), "{text}");
    }
}

#[test]
fn types_are_functions_triples_and_monotypes(rt: HostRuntime) {
    let types = [
        ("word", true),
        ("(word * bool) * loc", true),
        ("(x : word) -> (_ : bool) -> unit", true),
        ("(word) -> word", false),
        ("((x : word) -> word)", false),
        ("[a] -> a", true),
        ("{tt} x : word {x =[word] 5}", true),
        ("{tt} word {tt}", false),
        ("", false),
    ];
    for (text, wanted) in types {
        assert!(rt; answers(rt, Call::Type, text, wanted), "{text}");
    }
}

#[test]
fn a_quantifier_stands_right_of_implies_alone(rt: HostRuntime) {
    let formulas = [
        ("tt /\\ ex x : word . tt", false),
        ("tt => ex x : word . tt", true),
        ("tt /\\ [ex x : word . tt]", true),
        ("tt \\/ ff /\\ emp ** tt => tt", true),
        ("all _ : heap . all x : word * bool . tt", true),
        ("ex word : heap . tt", false),
        ("x + 1 < y =[bool] true", true),
        ("x < y < z =[bool] true", false),
        ("fun x . x =[word] y", false),
        ("(fun x . x) =[word] y", true),
        ("l |->[word] _", true),
        ("l |->[word * word] (1, 2)", true),
        ("_ |->[word] l", false),
        ("@mem^1 [Emp(init)]", true),
        ("@k Emp(k)", false),
        ("Join(h, a, b) /\\ Same(a, b)", true),
        ("Join(h, a)", false),
        ("Cell[word](h, l, 1) /\\ Block[word](h, l)", true),
        ("Block(h, l)", false),
        ("", false),
    ];
    for (text, wanted) in formulas {
        assert!(rt; answers(rt, Call::Formula, text, wanted), "{text}");
    }
}

#[test]
fn a_recursive_predicate_has_no_monotypes(rt: HostRuntime) {
    let formulas = [
        ("!p()", true),
        ("!p[word, bool](1, 2)", true),
        ("!q(1; 2)", true),
        ("!q(1;)", true),
        ("!q@h(1; 2)", true),
        ("!q[word](1; 2)", false),
        ("!q(1, 2;)", false),
        ("!q@h(1)", false),
        ("!q@h()", false),
        ("!p(1,)", false),
        ("!p[]()", false),
    ];
    for (text, wanted) in formulas {
        assert!(rt; answers(rt, Call::Formula, text, wanted), "{text}");
    }
}

#[test]
fn proofs_are_statements_and_an_end(rt: HostRuntime) {
    let proofs = [
        ("u", true),
        ("intro u; second(u)", true),
        ("intro u;", false),
        ("gen _; refl", true),
        ("intro _; refl", false),
        ("open e v = axiom emp_some(); give(@e, trivial)", true),
        ("have c : [tt] = trivial; c", true),
        ("have c : tt = trivial; c", false),
        ("app(u, v, w)", true),
        ("app(u)", false),
        ("inst(u, @h, x + 1)", true),
        ("inst(u)", false),
        ("case(p, u . q, v . r)", true),
        ("rewrite(p, x . [x =[word] 1], q)", true),
        ("rewrite(p, x =[word] 1, q)", false),
        ("induct(x . [tt], 1, p, y u v . q)", true),
        ("split(_ . [tt], true, p, q)", true),
        ("axiom p[word]()", true),
        ("axiom p.1(@h, x)", true),
        ("axiom p.0()", false),
        ("axiom p[word].0(1)", false),
        ("the [tt] (lem [ff])", true),
        ("absurd(u, v)", false),
        ("", false),
    ];
    for (text, wanted) in proofs {
        assert!(rt; answers(rt, Call::Proof, text, wanted), "{text}");
    }
}

#[test]
fn programs_are_files(rt: HostRuntime) {
    let texts = [
        (
            "val main : {tt} x : word {x =[word] 5} = do ret 2 + 3",
            true,
        ),
        ("val main : {tt} x : word {x =[word] 5} = do ret 2 +", false),
        (
            "val main : {emp} x : word {emp} = do l <- alloc[word] 7; ret l",
            true,
        ),
        ("def f : word = do l <- alloc 7; ret l", false),
        (
            "def f : word = do _ <- set[word] l (g 1); _ <- free[word] l; ret ()",
            true,
        ),
        ("def f : word = do _ <- set[word] l; ret ()", false),
    ];
    for (text, wanted) in texts {
        assert!(rt; answers(rt, Call::File, text, wanted), "{text}");
    }
}

#[test]
fn terms_and_computations_are_parts_of_files(rt: HostRuntime) {
    let texts = [
        ("def f : word = do x <- get[word] place 5; ret x", true),
        (
            "def f : word = do b <- if [word] c { ret 0 } { y <- f h; ret y }; ret b",
            true,
        ),
        ("def f : word = do _ <- claim {tt}; ret ()", true),
        ("def f : word = do x <- 1", false),
        (
            "def f : word = fix f (n : word) : {tt} z : word {tt} . ret n",
            true,
        ),
        ("def f : word = fst not x", false),
        ("def f : word = (fst x, sel[word](b, 1, 2) : word)", false),
    ];
    for (text, wanted) in texts {
        assert!(rt; answers(rt, Call::File, text, wanted), "{text}");
    }
}
