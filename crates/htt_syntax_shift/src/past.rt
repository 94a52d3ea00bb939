//! What a shift puts for each variable.

ghost use Rattle.std.specs.Prelude.{◌≡◌, IfOk};
ghost use Rattle.theory_renaming.specs.Renaming.{lifts, shifting};
ghost use Rattle.htt_syntax_shift.specs.Renamed.{renamed};

use htt_syntax::{Mono, Term};
use htt_syntax_walk::Action;
use std::alloc::{AllocError, Global};

/// The action that lets the variables from `from` on go past `by` more entries.
#[derive(Drop)]
pub struct Past {
    pub from: u32,
    pub by: u32,
}

impl Past {
    /// The index that stands for `index` under `depth` binders; an error where it would pass 32 bits.
    #[tactic(auto, using(crate::proofs::Places::stays_below, crate::proofs::Places::goes_past))]
    fn shifted(&self, index: u32, depth: u32) -> Result<u32, AllocError>
        ensures shifted { IfOk result (λ n. n ≡ lifts depth (shifting self.now.from self.now.by) index) }
    {
        if u64::from(index) < u64::from(depth) + u64::from(self.from) {
            Ok(index)
        } else {
            index.checked_add(self.by).ok_or(AllocError)
        }
    }
}

impl Action for Past {
    ghost puts = { λ past. renamed (shifting past.from past.by) };

    #[tactic(auto, using(htt_syntax::specs::Levels::term_levels))]
    fn at_term(&self, alloc: Global, index: u32, depth: u32) -> Result<Term, AllocError> {
        self.shifted(index, depth).map(|index| Term::Var(index))
    }

    #[tactic(auto, using(htt_syntax::specs::Levels::mono_levels))]
    fn at_mono(&self, alloc: Global, index: u32, depth: u32) -> Result<Mono, AllocError> {
        self.shifted(index, depth).map(|index| Mono::Var(index))
    }

    fn at_heap(&self, index: u32, depth: u32) -> Result<u32, AllocError> {
        self.shifted(index, depth)
    }
}
