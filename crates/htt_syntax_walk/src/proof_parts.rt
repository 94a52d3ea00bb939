//! What a proof holds beside proofs: arguments, monotypes and formulas, and how many variables its
//! statements add.

ghost use Rattle.std.specs.Prelude.{◌≡◌, ◌+◌, ◌≤◌, IfOk, IfSome, map};
ghost use Rattle.htt_syntax.specs.Trees.{binders_of};
ghost use Rattle.htt_syntax.specs.Views.{mono_tree};
ghost use Rattle.htt_syntax.specs.ProofViews.{arg_tree, stmt_tree};
ghost use Rattle.htt_syntax_walk.specs.Walk.{walk_mono};
ghost use Rattle.htt_syntax_walk.specs.WalkProof.{walk_arg};
ghost use Rattle.htt_syntax_walk.specs.Descent as descent;

use crate::{Action, walk_mono, walk_term};
use htt_syntax::{Arg, Mono, Stmt};
use htt_syntax_seq::Seq;
use std::alloc::{AllocError, Global};

/// The argument with what the action puts for its variables; `depth` binders stand around it.
#[tactic(auto, using(htt_syntax::specs::ProofLevels::arg_levels, crate::specs::WalkProofLevels::arg_walks))]
pub fn walk_arg<A: Action>(
    alloc: Global,
    arg: &Arg,
    action: &A,
    depth: u32,
) -> Result<Arg, AllocError>
    ensures walked { IfOk result (λ a. arg_tree a ≡ walk_arg (A.puts action.now) depth (arg_tree arg.now)) }
{
    match arg {
        Arg::Heap(heap) => action.at_heap(*heap, depth).map(|heap| Arg::Heap(heap)),
        Arg::Term(term) => walk_term(alloc, term, action, depth).map(|term| Arg::Term(term)),
    }
}

pub fn walk_args<A: Action>(
    alloc: Global,
    args: &[Arg],
    action: &A,
    depth: u32,
) -> Result<Seq<Arg>, AllocError>
    ensures walked { IfOk result (λ xs. map arg_tree xs ≡ map (walk_arg (A.puts action.now) depth) (map arg_tree args.now)) }
{
    let mut walked = Vec::new(alloc);
    for arg in args {
        walked.push(walk_arg(alloc, arg, action, depth)?)?;
    }
    Ok(Seq::of(walked))
}

pub fn walk_monos<A: Action>(
    alloc: Global,
    monos: &[Mono],
    action: &A,
    depth: u32,
) -> Result<Seq<Mono>, AllocError>
    ensures walked { IfOk result (λ ms. map mono_tree ms ≡ map (walk_mono (A.puts action.now) depth) (map mono_tree monos.now)) }
{
    let mut walked = Vec::new(alloc);
    for mono in monos {
        walked.push(walk_mono(alloc, mono, action, depth)?)?;
    }
    Ok(Seq::of(walked))
}

pub fn copy_bytes(alloc: Global, bytes: &[u8]) -> Result<Seq<u8>, AllocError>
    ensures same { IfOk result (λ copied. copied ≡ bytes.now) }
{
    Ok(Seq::of(Vec::from_slice(alloc, bytes)?))
}

/// How many variables the statement adds for what follows it.
#[tactic(auto, using(htt_syntax::specs::ProofLevels::stmt_levels, crate::specs::WalkProofLevels::binders))]
pub fn binders(stmt: &Stmt) -> u32
    ensures count { result ≡ binders_of (stmt_tree stmt.now) }
{
    match stmt {
        Stmt::Intro => 0,
        Stmt::Gen => 1,
        Stmt::Have(_, _) => 0,
        Stmt::Unpack(_) => 1,
        Stmt::At(_, stmt) => binders(stmt.get()),
    }
}

/// The binders around what follows the statements; none where they would pass 32 bits.
pub fn depth_after(stmts: &[Stmt], depth: u32) -> Option<u32>
    ensures after { IfSome result (λ inner. inner ≡ descent.depth_after depth (map stmt_tree stmts.now)) }
{
    let mut inner = depth;
    for stmt in stmts {
        inner = inner.checked_add(binders(stmt))?;
    }
    Some(inner)
}
