//! The two maps by which substitution renames.

ghost use Rattle.std.specs.Prelude.{◌≡◌, ◌+◌, IfOk};
ghost use Rattle.theory_renaming.specs.Renaming.{lifts};
ghost use Rattle.shared_terms_renaming.specs.Maps.{map_of};

use std::alloc::AllocError;

/// What each index becomes.
#[derive(Clone, Copy, PartialEq, Eq, Hash)]
pub enum Renaming {
    /// The variables from this place on go past one more entry.
    Past(u32),
    /// The gap that the variable at this place leaves is closed: those above it fall by one.
    Closing(u32),
}

impl Renaming {
    /// The renaming under so many more binders; an error where a place would pass 32 bits.
    #[tactic(auto, using(crate::proofs::Maps::past_under, crate::proofs::Maps::closing_under), unfolding(crate::specs::Maps::map_of))]
    pub fn under(self, binders: u32) -> Result<Renaming, AllocError>
        ensures under { IfOk result (λ r. map_of r ≡ lifts binders (map_of self)) }
    {
        match self {
            Renaming::Past(from) => match from.checked_add(binders) {
                Some(from) => Ok(Renaming::Past(from)),
                None => Err(AllocError),
            },
            Renaming::Closing(gap) => match gap.checked_add(binders) {
                Some(gap) => Ok(Renaming::Closing(gap)),
                None => Err(AllocError),
            },
        }
    }

    /// What the index becomes; an error where it would pass 32 bits. At the gap itself it is the gap.
    #[tactic(auto, using(crate::proofs::Maps::past_below, crate::proofs::Maps::past_from, crate::proofs::Maps::closing_to, crate::proofs::Maps::closing_above), unfolding(crate::specs::Maps::map_of))]
    pub fn index(self, index: u32) -> Result<u32, AllocError>
        ensures index { IfOk result (λ n. n ≡ map_of self index) }
    {
        match self {
            Renaming::Past(from) => {
                if index < from {
                    Ok(index)
                } else {
                    index.checked_add(1).ok_or(AllocError)
                }
            }
            Renaming::Closing(gap) => {
                if index <= gap {
                    Ok(index)
                } else {
                    Ok(index - 1)
                }
            }
        }
    }
}
