//! Formulas. A heap is given as a result too, since its index may have to be found.

ghost use Rattle.std.specs.Prelude.{◌≡◌, IfOk, ℕ, List};
ghost use Rattle.htt_syntax.specs.declared.mono.Mono.{Mono};
ghost use Rattle.htt_syntax.specs.declared.tree.Term.{Term};
ghost use Rattle.htt_syntax.specs.declared.tree.Formula.{Formula};
ghost use Rattle.htt_syntax.specs.declared.tree.Formula.TheVariants as vformula;

use htt_syntax::{Formula, Mono, Term};
use htt_syntax_seq::{Seq, both};
use sqlite_items::Boxed;
use std::alloc::AllocError;

/// `Formula::And` of its parts.
pub fn formula_and(
    left: Result<Boxed<Formula>, AllocError>,
    right: Result<Boxed<Formula>, AllocError>,
) -> Result<Formula, AllocError>
    ensures made { IfOk result (λ t. (x : Formula) × (y : Formula)
        × (left ≡ Ok x) × (right ≡ Ok y)
        × (t ≡ vformula.And x y)) }
{
    both(left, right).map(|(left, right)| Formula::And(left, right))
}

/// `Formula::Or` of its parts.
pub fn formula_or(
    left: Result<Boxed<Formula>, AllocError>,
    right: Result<Boxed<Formula>, AllocError>,
) -> Result<Formula, AllocError>
    ensures made { IfOk result (λ t. (x : Formula) × (y : Formula)
        × (left ≡ Ok x) × (right ≡ Ok y)
        × (t ≡ vformula.Or x y)) }
{
    both(left, right).map(|(left, right)| Formula::Or(left, right))
}

/// `Formula::Imp` of its parts.
pub fn formula_imp(
    left: Result<Boxed<Formula>, AllocError>,
    right: Result<Boxed<Formula>, AllocError>,
) -> Result<Formula, AllocError>
    ensures made { IfOk result (λ t. (x : Formula) × (y : Formula)
        × (left ≡ Ok x) × (right ≡ Ok y)
        × (t ≡ vformula.Imp x y)) }
{
    both(left, right).map(|(left, right)| Formula::Imp(left, right))
}

/// `Formula::AllT` of its parts.
pub fn formula_all_t(
    mono: Result<Mono, AllocError>,
    body: Result<Boxed<Formula>, AllocError>,
) -> Result<Formula, AllocError>
    ensures made { IfOk result (λ t. (x : Mono) × (y : Formula)
        × (mono ≡ Ok x) × (body ≡ Ok y)
        × (t ≡ vformula.AllT x y)) }
{
    both(mono, body).map(|(mono, body)| Formula::AllT(mono, body))
}

/// `Formula::ExT` of its parts.
pub fn formula_ex_t(
    mono: Result<Mono, AllocError>,
    body: Result<Boxed<Formula>, AllocError>,
) -> Result<Formula, AllocError>
    ensures made { IfOk result (λ t. (x : Mono) × (y : Formula)
        × (mono ≡ Ok x) × (body ≡ Ok y)
        × (t ≡ vformula.ExT x y)) }
{
    both(mono, body).map(|(mono, body)| Formula::ExT(mono, body))
}

/// `Formula::AllH` of its part.
pub fn formula_all_h(body: Result<Boxed<Formula>, AllocError>) -> Result<Formula, AllocError>
    ensures made { IfOk result (λ t. (x : Formula) × (body ≡ Ok x) × (t ≡ vformula.AllH x)) }
{
    body.map(|body| Formula::AllH(body))
}

/// `Formula::ExH` of its part.
pub fn formula_ex_h(body: Result<Boxed<Formula>, AllocError>) -> Result<Formula, AllocError>
    ensures made { IfOk result (λ t. (x : Formula) × (body ≡ Ok x) × (t ≡ vformula.ExH x)) }
{
    body.map(|body| Formula::ExH(body))
}

/// `Formula::Emp` of its part.
pub fn formula_emp(heap: Result<u32, AllocError>) -> Result<Formula, AllocError>
    ensures made { IfOk result (λ t. (x : ℕ) × (heap ≡ Ok x) × (t ≡ vformula.Emp x)) }
{
    heap.map(|heap| Formula::Emp(heap))
}

/// `Formula::Cell` of its parts.
pub fn formula_cell(
    mono: Result<Mono, AllocError>,
    heap: Result<u32, AllocError>,
    place: Result<Term, AllocError>,
    value: Result<Term, AllocError>,
) -> Result<Formula, AllocError>
    ensures made { IfOk result (λ t. (x : Mono) × (y : ℕ) × (z : Term) × (w : Term)
        × (mono ≡ Ok x) × (heap ≡ Ok y) × (place ≡ Ok z) × (value ≡ Ok w)
        × (t ≡ vformula.Cell x y z w)) }
{
    both(both(mono, heap), both(place, value)).map(|((mono, heap), (place, value))| Formula::Cell(
        mono, heap, place, value,
    ))
}

/// `Formula::Block` of its parts.
pub fn formula_block(
    mono: Result<Mono, AllocError>,
    heap: Result<u32, AllocError>,
    place: Result<Term, AllocError>,
) -> Result<Formula, AllocError>
    ensures made { IfOk result (λ t. (x : Mono) × (y : ℕ) × (z : Term)
        × (mono ≡ Ok x) × (heap ≡ Ok y) × (place ≡ Ok z)
        × (t ≡ vformula.Block x y z)) }
{
    both(mono, both(heap, place)).map(|(mono, (heap, place))| Formula::Block(mono, heap, place))
}

/// `Formula::Join` of its parts.
pub fn formula_join(
    whole: Result<u32, AllocError>,
    left: Result<u32, AllocError>,
    right: Result<u32, AllocError>,
) -> Result<Formula, AllocError>
    ensures made { IfOk result (λ t. (x : ℕ) × (y : ℕ) × (z : ℕ)
        × (whole ≡ Ok x) × (left ≡ Ok y) × (right ≡ Ok z)
        × (t ≡ vformula.Join x y z)) }
{
    both(whole, both(left, right)).map(|(whole, (left, right))| Formula::Join(whole, left, right))
}

/// `Formula::Same` of its parts.
pub fn formula_same(
    left: Result<u32, AllocError>,
    right: Result<u32, AllocError>,
) -> Result<Formula, AllocError>
    ensures made { IfOk result (λ t. (x : ℕ) × (y : ℕ)
        × (left ≡ Ok x) × (right ≡ Ok y)
        × (t ≡ vformula.Same x y)) }
{
    both(left, right).map(|(left, right)| Formula::Same(left, right))
}

/// `Formula::Eq` of its parts.
pub fn formula_eq(
    mono: Result<Mono, AllocError>,
    left: Result<Term, AllocError>,
    right: Result<Term, AllocError>,
) -> Result<Formula, AllocError>
    ensures made { IfOk result (λ t. (x : Mono) × (y : Term) × (z : Term)
        × (mono ≡ Ok x) × (left ≡ Ok y) × (right ≡ Ok z)
        × (t ≡ vformula.Eq x y z)) }
{
    both(mono, both(left, right)).map(|(mono, (left, right))| Formula::Eq(mono, left, right))
}

/// `Formula::At` of its parts.
pub fn formula_at(
    at: u64,
    formula: Result<Boxed<Formula>, AllocError>,
) -> Result<Formula, AllocError>
    ensures made { IfOk result (λ t. (x : Formula) × (formula ≡ Ok x) × (t ≡ vformula.At at x)) }
{
    formula.map(|formula| Formula::At(at, formula))
}

/// `Formula::Rec` of its parts.
pub fn formula_rec(
    number: u32,
    heap: Result<u32, AllocError>,
    place: Result<Term, AllocError>,
    arguments: Result<Seq<Term>, AllocError>,
) -> Result<Formula, AllocError>
    ensures made { IfOk result (λ t. (x : ℕ) × (y : Term) × (z : List Term)
        × (heap ≡ Ok x) × (place ≡ Ok y) × (arguments ≡ Ok z)
        × (t ≡ vformula.Rec number x y z)) }
{
    both(heap, both(place, arguments)).map(|(heap, (place, arguments))| Formula::Rec(
        number, heap, place, arguments,
    ))
}
