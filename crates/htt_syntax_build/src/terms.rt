//! Terms.

ghost use Rattle.std.specs.Prelude.{◌≡◌, IfOk, List};
ghost use Rattle.htt_syntax.specs.declared.mono.Mono.{Mono};
ghost use Rattle.htt_syntax.specs.declared.tree.Ty.{Ty};
ghost use Rattle.htt_syntax.specs.declared.tree.Term.{Term};
ghost use Rattle.htt_syntax.specs.declared.tree.Term.TheVariants as vterm;

use htt_syntax::{Mono, Op, Term, Ty};
use htt_syntax_seq::{Seq, both};
use sqlite_items::Boxed;
use std::alloc::AllocError;

/// `Term::App` of its parts.
pub fn term_app(
    function: Result<Boxed<Term>, AllocError>,
    argument: Result<Boxed<Term>, AllocError>,
) -> Result<Term, AllocError>
    ensures made { IfOk result (λ t. (x : Term) × (y : Term)
        × (function ≡ Ok x) × (argument ≡ Ok y)
        × (t ≡ vterm.App x y)) }
{
    both(function, argument).map(|(function, argument)| Term::App(function, argument))
}

/// `Term::Inst` of its parts.
pub fn term_inst(
    function: Result<Boxed<Term>, AllocError>,
    mono: Result<Mono, AllocError>,
) -> Result<Term, AllocError>
    ensures made { IfOk result (λ t. (x : Term) × (y : Mono)
        × (function ≡ Ok x) × (mono ≡ Ok y)
        × (t ≡ vterm.Inst x y)) }
{
    both(function, mono).map(|(function, mono)| Term::Inst(function, mono))
}

/// `Term::Lam` of its part.
pub fn term_lam(body: Result<Boxed<Term>, AllocError>) -> Result<Term, AllocError>
    ensures made { IfOk result (λ t. (x : Term) × (body ≡ Ok x) × (t ≡ vterm.Lam x)) }
{
    body.map(|body| Term::Lam(body))
}

/// `Term::LamT` of its part.
pub fn term_lam_t(body: Result<Boxed<Term>, AllocError>) -> Result<Term, AllocError>
    ensures made { IfOk result (λ t. (x : Term) × (body ≡ Ok x) × (t ≡ vterm.LamT x)) }
{
    body.map(|body| Term::LamT(body))
}

/// `Term::Pair` of its parts.
pub fn term_pair(
    left: Result<Boxed<Term>, AllocError>,
    right: Result<Boxed<Term>, AllocError>,
) -> Result<Term, AllocError>
    ensures made { IfOk result (λ t. (x : Term) × (y : Term)
        × (left ≡ Ok x) × (right ≡ Ok y)
        × (t ≡ vterm.Pair x y)) }
{
    both(left, right).map(|(left, right)| Term::Pair(left, right))
}

/// `Term::Fst` of its part.
pub fn term_fst(pair: Result<Boxed<Term>, AllocError>) -> Result<Term, AllocError>
    ensures made { IfOk result (λ t. (x : Term) × (pair ≡ Ok x) × (t ≡ vterm.Fst x)) }
{
    pair.map(|pair| Term::Fst(pair))
}

/// `Term::Snd` of its part.
pub fn term_snd(pair: Result<Boxed<Term>, AllocError>) -> Result<Term, AllocError>
    ensures made { IfOk result (λ t. (x : Term) × (pair ≡ Ok x) × (t ≡ vterm.Snd x)) }
{
    pair.map(|pair| Term::Snd(pair))
}

/// `Term::Un` of its part.
pub fn term_not(term: Result<Boxed<Term>, AllocError>) -> Result<Term, AllocError>
    ensures made { IfOk result (λ t. (x : Term) × (term ≡ Ok x) × (t ≡ vterm.Un x)) }
{
    term.map(|term| Term::Un(term))
}

/// `Term::Bin` of its parts.
pub fn term_bin(
    op: Op,
    left: Result<Boxed<Term>, AllocError>,
    right: Result<Boxed<Term>, AllocError>,
) -> Result<Term, AllocError>
    ensures made { IfOk result (λ t. (x : Term) × (y : Term)
        × (left ≡ Ok x) × (right ≡ Ok y)
        × (t ≡ vterm.Bin op x y)) }
{
    both(left, right).map(|(left, right)| Term::Bin(op, left, right))
}

/// `Term::Eq` of its parts.
pub fn term_eq(
    mono: Result<Mono, AllocError>,
    left: Result<Boxed<Term>, AllocError>,
    right: Result<Boxed<Term>, AllocError>,
) -> Result<Term, AllocError>
    ensures made { IfOk result (λ t. (x : Mono) × (y : Term) × (z : Term)
        × (mono ≡ Ok x) × (left ≡ Ok y) × (right ≡ Ok z)
        × (t ≡ vterm.Eq x y z)) }
{
    both(mono, both(left, right)).map(|(mono, (left, right))| Term::Eq(mono, left, right))
}

/// `Term::Sel` of its parts.
pub fn term_sel(
    mono: Result<Mono, AllocError>,
    test: Result<Boxed<Term>, AllocError>,
    on_true: Result<Boxed<Term>, AllocError>,
    on_false: Result<Boxed<Term>, AllocError>,
) -> Result<Term, AllocError>
    ensures made { IfOk result (λ t. (x : Mono) × (y : Term) × (z : Term) × (w : Term)
        × (mono ≡ Ok x) × (test ≡ Ok y) × (on_true ≡ Ok z) × (on_false ≡ Ok w)
        × (t ≡ vterm.Sel x y z w)) }
{
    both(both(mono, test), both(on_true, on_false)).map(|(
        (mono, test),
        (on_true, on_false),
    )| Term::Sel(mono, test, on_true, on_false))
}

/// `Term::Ann` of its parts.
pub fn term_ann(
    term: Result<Boxed<Term>, AllocError>,
    ty: Result<Boxed<Ty>, AllocError>,
) -> Result<Term, AllocError>
    ensures made { IfOk result (λ t. (x : Term) × (y : Ty)
        × (term ≡ Ok x) × (ty ≡ Ok y)
        × (t ≡ vterm.Ann x y)) }
{
    both(term, ty).map(|(term, ty)| Term::Ann(term, ty))
}

/// `Term::Made` of its parts.
pub fn term_made(number: u32, values: Result<Seq<Term>, AllocError>) -> Result<Term, AllocError>
    ensures made { IfOk result (λ t. (x : List Term)
        × (values ≡ Ok x)
        × (t ≡ vterm.Made number x)) }
{
    values.map(|values| Term::Made(number, values))
}

/// `Term::At` of its parts.
pub fn term_at(at: u64, term: Result<Boxed<Term>, AllocError>) -> Result<Term, AllocError>
    ensures made { IfOk result (λ t. (x : Term) × (term ≡ Ok x) × (t ≡ vterm.At at x)) }
{
    term.map(|term| Term::At(at, term))
}
