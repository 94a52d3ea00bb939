//! Answers about a whole from those about its parts, each of which is given as the result of its finding.

ghost use Rattle.std.specs.Prelude.{◌≡◌, ◌&&◌, Bool, Option, Some, Ok, IfOk, option_map};
ghost use Rattle.theory_canonical_decided.specs.Standings.{is_o, is_told_o, is_told_c, told_if, of_instance};
ghost use Rattle.canonical_forms_skeletons.specs.declared.skeleton.Skeleton.{Skeleton};
ghost use Rattle.canonical_forms_skeletons.specs.Views.{skeleton_tree};

use canonical_forms_skeletons::Skeleton;
use htt_syntax_seq::both;
use std::alloc::AllocError;

/// Whether the one holds and the other does.
pub(crate) fn and(one: bool, other: bool) -> bool
    ensures both { result ≡ (one && other) }
{
    one && other
}

/// Whether the one holds and the other does, where both were found.
pub(crate) fn both_hold(
    one: Result<bool, AllocError>,
    other: Result<bool, AllocError>,
) -> Result<bool, AllocError>
    ensures both { IfOk result (λ r. (x : Bool) × (y : Bool) × (one ≡ Ok x) × (other ≡ Ok y) × (r ≡ (x && y))) }
{
    both(one, other).map(|(one, other)| and(one, other))
}

/// Whether the skeleton is that of a monotype.
#[tactic(auto, using(canonical_forms_skeletons::specs::Levels::skeleton_levels))]
pub(crate) fn is_o(skeleton: &Skeleton) -> bool
    ensures o { result ≡ is_o (skeleton_tree skeleton.now) }
{
    match skeleton {
        Skeleton::O => true,
        Skeleton::C => false,
        Skeleton::Arrow(_, _) => false,
        Skeleton::All(_) => false,
    }
}

/// Whether the skeleton is that of a computation.
#[tactic(auto, using(canonical_forms_skeletons::specs::Levels::skeleton_levels))]
fn is_c(skeleton: &Skeleton) -> bool
    ensures c { result ≡ is_told_c (Some (skeleton_tree skeleton.now)) }
{
    match skeleton {
        Skeleton::O => false,
        Skeleton::C => true,
        Skeleton::Arrow(_, _) => false,
        Skeleton::All(_) => false,
    }
}

fn is_told_o(told: &Option<Skeleton>) -> bool
    ensures o { result ≡ is_told_o (option_map skeleton_tree told.now) }
{
    match told {
        Some(skeleton) => is_o(skeleton),
        None => false,
    }
}

fn is_told_c(told: &Option<Skeleton>) -> bool
    ensures c { result ≡ is_told_c (option_map skeleton_tree told.now) }
{
    match told {
        Some(skeleton) => is_c(skeleton),
        None => false,
    }
}

/// Whether a skeleton is told, and is that of a monotype.
pub(crate) fn tells_o(told: Result<Option<Skeleton>, AllocError>) -> Result<bool, AllocError>
    ensures o { IfOk result (λ r. (s : Option Skeleton) × (told ≡ Ok s) × (r ≡ is_told_o (option_map skeleton_tree s))) }
{
    told.map(|told| is_told_o(&told))
}

/// Whether a skeleton is told, and is that of a computation.
pub(crate) fn tells_c(told: Result<Option<Skeleton>, AllocError>) -> Result<bool, AllocError>
    ensures c { IfOk result (λ r. (s : Option Skeleton) × (told ≡ Ok s) × (r ≡ is_told_c (option_map skeleton_tree s))) }
{
    told.map(|told| is_told_c(&told))
}

/// The skeleton, if this holds.
pub(crate) fn kept_if(holds: bool, told: Option<Skeleton>) -> Option<Skeleton>
    ensures told { option_map skeleton_tree result ≡ told_if holds (option_map skeleton_tree told) }
{
    if holds { told } else { None }
}

/// The skeleton that is told, if this holds.
pub(crate) fn told_if(
    holds: Result<bool, AllocError>,
    told: Result<Option<Skeleton>, AllocError>,
) -> Result<Option<Skeleton>, AllocError>
    ensures told { IfOk result (λ r. (x : Bool) × (s : Option Skeleton)
        × (holds ≡ Ok x) × (told ≡ Ok s)
        × (option_map skeleton_tree r ≡ told_if x (option_map skeleton_tree s))) }
{
    both(holds, told).map(|(holds, told)| kept_if(holds, told))
}

#[tactic(auto, using(canonical_forms_skeletons::specs::Levels::skeleton_levels))]
fn body_of(family: Skeleton) -> Option<Skeleton>
    ensures body { option_map skeleton_tree result ≡ of_instance (Some (skeleton_tree family)) }
{
    match family {
        Skeleton::All(body) => Some(body.into_inner()),
        Skeleton::O => None,
        Skeleton::C => None,
        Skeleton::Arrow(_, _) => None,
    }
}

fn of_instance(family: Option<Skeleton>) -> Option<Skeleton>
    ensures instance { option_map skeleton_tree result ≡ of_instance (option_map skeleton_tree family) }
{
    match family {
        Some(family) => body_of(family),
        None => None,
    }
}

/// The skeleton of an instance, from that of the function of a monotype.
pub(crate) fn instance(
    told: Result<Option<Skeleton>, AllocError>,
) -> Result<Option<Skeleton>, AllocError>
    ensures told { IfOk result (λ r. (s : Option Skeleton) × (told ≡ Ok s)
        × (option_map skeleton_tree r ≡ of_instance (option_map skeleton_tree s))) }
{
    told.map(|told| of_instance(told))
}
