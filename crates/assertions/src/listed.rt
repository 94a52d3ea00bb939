//! What a list of indices puts for each variable.

ghost use Rattle.std.specs.Prelude.{◌≡◌, IfOk};
ghost use Rattle.theory_renaming.specs.Renaming.{lifts};
ghost use Rattle.htt_syntax_shift.specs.Renamed.{renamed};
ghost use Rattle.assertions.specs.Listed.{listed};

use htt_syntax::{Mono, Term};
use htt_syntax_walk::Action;
use std::alloc::{AllocError, Global};

/// The action that puts `to[i]` for the variable i, and lets those past the list go past `by` entries in its place.
#[derive(Drop)]
pub struct Listed<'a> {
    pub to: &'a [u32],
    pub by: u32,
}

impl<'a> Listed<'a> {
    /// The index that stands for `index` where no binder is around; an error where it would pass 32 bits.
    #[tactic(auto, using(crate::proofs::Lists::within_list, crate::proofs::Lists::past_list))]
    fn at(&self, index: u32) -> Result<u32, AllocError>
        ensures listed { IfOk result (λ n. n ≡ listed self.now.to.now self.now.by index) }
    {
        let place = index as usize;
        if place < self.to.len() {
            Ok(self.to[place])
        } else {
            let past = (place - self.to.len()) as u32;
            past.checked_add(self.by).ok_or(AllocError)
        }
    }

    /// The index that stands for `index` under `depth` binders; an error where it would pass 32 bits.
    #[tactic(auto, using(crate::proofs::Lists::bound_stays, crate::proofs::Lists::free_goes))]
    fn under(&self, index: u32, depth: u32) -> Result<u32, AllocError>
        ensures under { IfOk result (λ n. n ≡ lifts depth (listed self.now.to.now self.now.by) index) }
    {
        if index < depth {
            Ok(index)
        } else {
            self.at(index - depth)?.checked_add(depth).ok_or(AllocError)
        }
    }
}

impl<'a> Action for Listed<'a> {
    ghost puts = { λ l. renamed (listed l.to.now l.by) };

    #[tactic(auto, using(htt_syntax::specs::Levels::term_levels))]
    fn at_term(&self, alloc: Global, index: u32, depth: u32) -> Result<Term, AllocError> {
        self.under(index, depth).map(|index| Term::Var(index))
    }

    #[tactic(auto, using(htt_syntax::specs::Levels::mono_levels))]
    fn at_mono(&self, alloc: Global, index: u32, depth: u32) -> Result<Mono, AllocError> {
        self.under(index, depth).map(|index| Mono::Var(index))
    }

    fn at_heap(&self, index: u32, depth: u32) -> Result<u32, AllocError> {
        self.under(index, depth)
    }
}
