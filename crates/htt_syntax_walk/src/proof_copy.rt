//! Copies of proofs: the walk that puts each variable for itself.

ghost use Rattle.std.specs.Prelude.{◌≡◌, IfOk};
ghost use Rattle.htt_syntax.specs.ProofViews.{proof_tree};

use crate::Keep;
use crate::proofs::walk_proof;
use htt_syntax::Proof;
use std::alloc::{AllocError, Global};

/// A proof equal to `proof`.
#[tactic(auto, using(crate::proofs::KeepingProofs::proof_kept))]
pub fn copy_proof(alloc: Global, proof: &Proof) -> Result<Proof, AllocError>
    ensures same_tree { IfOk result (λ p. proof_tree p ≡ proof_tree proof.now) }
{
    walk_proof(alloc, proof, &Keep {}, 0)
}
