//! Monotypes, types and triples.

ghost use Rattle.std.specs.Prelude.{◌≡◌, IfOk};
ghost use Rattle.htt_syntax.specs.declared.mono.Mono.{Mono};
ghost use Rattle.htt_syntax.specs.declared.mono.Mono.TheVariants as vmono;
ghost use Rattle.htt_syntax.specs.declared.tree.Ty.{Ty};
ghost use Rattle.htt_syntax.specs.declared.tree.Ty.TheVariants as vty;

use htt_syntax::{Formula, Mono, Triple, Ty};
use htt_syntax_seq::both;
use sqlite_items::Boxed;
use std::alloc::AllocError;

/// `Mono::Pair` of its parts.
pub fn mono_pair(
    left: Result<Boxed<Mono>, AllocError>,
    right: Result<Boxed<Mono>, AllocError>,
) -> Result<Mono, AllocError>
    ensures made { IfOk result (λ t. (x : Mono) × (y : Mono) × (left ≡ Ok x) × (right ≡ Ok y) × (t ≡ vmono.Pair x y)) }
{
    both(left, right).map(|(left, right)| Mono::Pair(left, right))
}

/// `Ty::Mono` of its part.
pub fn ty_mono(mono: Result<Mono, AllocError>) -> Result<Ty, AllocError>
    ensures made { IfOk result (λ t. (x : Mono) × (mono ≡ Ok x) × (t ≡ vty.Mono x)) }
{
    mono.map(|mono| Ty::Mono(mono))
}

/// `Ty::Fun` of its parts.
pub fn ty_fun(
    argument: Result<Boxed<Ty>, AllocError>,
    answer: Result<Boxed<Ty>, AllocError>,
) -> Result<Ty, AllocError>
    ensures made { IfOk result (λ t. (x : Ty) × (y : Ty)
        × (argument ≡ Ok x) × (answer ≡ Ok y)
        × (t ≡ vty.Fun x y)) }
{
    both(argument, answer).map(|(argument, answer)| Ty::Fun(argument, answer))
}

/// `Ty::All` of its part.
pub fn ty_all(body: Result<Boxed<Ty>, AllocError>) -> Result<Ty, AllocError>
    ensures made { IfOk result (λ t. (x : Ty) × (body ≡ Ok x) × (t ≡ vty.All x)) }
{
    body.map(|body| Ty::All(body))
}

/// `Ty::At` of its parts.
pub fn ty_at(at: u64, ty: Result<Boxed<Ty>, AllocError>) -> Result<Ty, AllocError>
    ensures made { IfOk result (λ t. (x : Ty) × (ty ≡ Ok x) × (t ≡ vty.At at x)) }
{
    ty.map(|ty| Ty::At(at, ty))
}

/// A `Triple` of its parts.
pub fn triple(
    pre: Result<Formula, AllocError>,
    answer: Result<Mono, AllocError>,
    post: Result<Formula, AllocError>,
) -> Result<Triple, AllocError>
    ensures pre_made { IfOk result (λ t. pre ≡ Ok t.pre) }
    ensures answer_made { IfOk result (λ t. answer ≡ Ok t.result) }
    ensures post_made { IfOk result (λ t. post ≡ Ok t.post) }
{
    both(pre, both(answer, post)).map(|(pre, (answer, post))| Triple {
        pre,
        result: answer,
        post,
    })
}
