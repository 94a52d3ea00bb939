//! Recursive functions, computations and their steps.

ghost use Rattle.std.specs.Prelude.{◌≡◌, IfOk, Option};
ghost use Rattle.htt_syntax.specs.declared.mono.Mono.{Mono};
ghost use Rattle.htt_syntax.specs.declared.tree.Term.{Term};
ghost use Rattle.htt_syntax.specs.declared.tree.Formula.{Formula};
ghost use Rattle.htt_syntax.specs.declared.tree.Step.TheVariants as vstep;

use htt_syntax::{Comp, Fix, Formula, Mono, Step, Term, Triple, Ty};
use htt_syntax_seq::{Seq, both};
use std::alloc::AllocError;

/// A `Fix` of its parts.
pub fn fix(
    at: u64,
    params: Result<Seq<Ty>, AllocError>,
    triple: Result<Triple, AllocError>,
    body: Result<Comp, AllocError>,
) -> Result<Fix, AllocError>
    ensures at_kept { IfOk result (λ t. t.at ≡ at) }
    ensures params_made { IfOk result (λ t. params ≡ Ok t.params) }
    ensures triple_made { IfOk result (λ t. triple ≡ Ok t.triple) }
    ensures body_made { IfOk result (λ t. body ≡ Ok t.body) }
{
    both(params, both(triple, body)).map(|(params, (triple, body))| Fix {
        at,
        params,
        triple,
        body,
    })
}

/// A `Comp` of its parts.
pub fn comp(
    steps: Result<Seq<Step>, AllocError>,
    answer: Result<Term, AllocError>,
) -> Result<Comp, AllocError>
    ensures steps_made { IfOk result (λ t. steps ≡ Ok t.steps) }
    ensures answer_made { IfOk result (λ t. answer ≡ Ok t.result) }
{
    both(steps, answer).map(|(steps, answer)| Comp {
        steps,
        result: answer,
    })
}

/// `Step::Run` of its parts.
pub fn step_run(
    term: Result<Term, AllocError>,
    mono: Result<Option<Mono>, AllocError>,
) -> Result<Step, AllocError>
    ensures made { IfOk result (λ t. (x : Term) × (y : Option Mono)
        × (term ≡ Ok x) × (mono ≡ Ok y)
        × (t ≡ vstep.Run x y)) }
{
    both(term, mono).map(|(term, mono)| Step::Run(term, mono))
}

/// `Step::Alloc` of its parts.
pub fn step_alloc(
    mono: Result<Mono, AllocError>,
    value: Result<Term, AllocError>,
) -> Result<Step, AllocError>
    ensures made { IfOk result (λ t. (x : Mono) × (y : Term)
        × (mono ≡ Ok x) × (value ≡ Ok y)
        × (t ≡ vstep.Alloc x y)) }
{
    both(mono, value).map(|(mono, value)| Step::Alloc(mono, value))
}

/// `Step::Get` of its parts.
pub fn step_get(
    mono: Result<Mono, AllocError>,
    place: Result<Term, AllocError>,
) -> Result<Step, AllocError>
    ensures made { IfOk result (λ t. (x : Mono) × (y : Term)
        × (mono ≡ Ok x) × (place ≡ Ok y)
        × (t ≡ vstep.Get x y)) }
{
    both(mono, place).map(|(mono, place)| Step::Get(mono, place))
}

/// `Step::Set` of its parts.
pub fn step_set(
    mono: Result<Mono, AllocError>,
    place: Result<Term, AllocError>,
    value: Result<Term, AllocError>,
) -> Result<Step, AllocError>
    ensures made { IfOk result (λ t. (x : Mono) × (y : Term) × (z : Term)
        × (mono ≡ Ok x) × (place ≡ Ok y) × (value ≡ Ok z)
        × (t ≡ vstep.Set x y z)) }
{
    both(mono, both(place, value)).map(|(mono, (place, value))| Step::Set(mono, place, value))
}

/// `Step::Free` of its parts.
pub fn step_free(
    mono: Result<Mono, AllocError>,
    place: Result<Term, AllocError>,
) -> Result<Step, AllocError>
    ensures made { IfOk result (λ t. (x : Mono) × (y : Term)
        × (mono ≡ Ok x) × (place ≡ Ok y)
        × (t ≡ vstep.Free x y)) }
{
    both(mono, place).map(|(mono, place)| Step::Free(mono, place))
}

/// `Step::Claim` of its part.
pub fn step_claim(formula: Result<Formula, AllocError>) -> Result<Step, AllocError>
    ensures made { IfOk result (λ t. (x : Formula) × (formula ≡ Ok x) × (t ≡ vstep.Claim x)) }
{
    formula.map(|formula| Step::Claim(formula))
}
