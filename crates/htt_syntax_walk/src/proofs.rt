//! The walk over proofs and statements, which are one recursion. What stands under a variable that
//! a proof adds is walked with the depth raised; a depth past 32 bits answers want of memory.

ghost use Rattle.std.specs.Prelude.{◌≡◌, ◌+◌, IfOk, map};
ghost use Rattle.htt_syntax.specs.ProofViews.{proof_tree, stmt_tree};
ghost use Rattle.htt_syntax_walk.specs.WalkProof.{walk_proof, walk_stmt};
ghost use Rattle.htt_syntax_walk.specs.Descent.{walked_stmts};

use crate::formulas::formula_under;
use crate::proof_parts::{binders, copy_bytes, depth_after, walk_arg, walk_args, walk_monos};
use crate::{Action, walk_formula, walk_term};
use htt_syntax::{Proof, Stmt};
use htt_syntax_seq::{Seq, boxed};
use sqlite_items::Boxed;
use std::alloc::{AllocError, Global};

/// The proof with what the action puts for its variables; `depth` binders stand around it.
/// One flat `match`: each form of node is one line, so that a missing or wrong one is seen.
#[cycle(proof_walk)]
#[tactic(auto, using(htt_syntax::specs::ProofLevels::proof_levels, crate::specs::WalkProofLevels::proof_walks, crate::proofs::Blocks::block_walked))]
pub fn walk_proof<A: Action>(
    alloc: Global,
    proof: &Proof,
    action: &A,
    depth: u32,
) -> Result<Proof, AllocError>
    ensures walked { IfOk result (λ t. proof_tree t ≡ walk_proof (A.puts action.now) depth (proof_tree proof.now)) }
{
    match proof {
        Proof::Hyp(number) => Ok(Proof::Hyp(*number)),
        Proof::Trivial => Ok(Proof::Trivial),
        Proof::Refl => Ok(Proof::Refl),
        Proof::First(proof) => htt_syntax_build::proof_first(proof_box(
            alloc, proof, action, depth,
        )),
        Proof::Second(proof) => htt_syntax_build::proof_second(proof_box(
            alloc, proof, action, depth,
        )),
        Proof::Left(proof) => htt_syntax_build::proof_left(proof_box(alloc, proof, action, depth)),
        Proof::Right(proof) => htt_syntax_build::proof_right(proof_box(
            alloc, proof, action, depth,
        )),
        Proof::Absurd(proof) => htt_syntax_build::proof_absurd(proof_box(
            alloc, proof, action, depth,
        )),
        Proof::Both(left, right) => htt_syntax_build::proof_both(
            proof_box(alloc, left, action, depth),
            proof_box(alloc, right, action, depth),
        ),
        Proof::Give(arg, proof) => htt_syntax_build::proof_give(
            walk_arg(alloc, arg, action, depth),
            proof_box(alloc, proof, action, depth),
        ),
        Proof::App(function, argument) => htt_syntax_build::proof_app(
            proof_box(alloc, function, action, depth),
            proof_box(alloc, argument, action, depth),
        ),
        Proof::Inst(proof, arg) => htt_syntax_build::proof_inst(
            proof_box(alloc, proof, action, depth),
            walk_arg(alloc, arg, action, depth),
        ),
        Proof::Case(either, left, right) => htt_syntax_build::proof_case(
            proof_box(alloc, either, action, depth),
            proof_box(alloc, left, action, depth),
            proof_box(alloc, right, action, depth),
        ),
        Proof::Rewrite(equation, motive, proof) => htt_syntax_build::proof_rewrite(
            proof_box(alloc, equation, action, depth),
            formula_under(alloc, motive, action, depth, 1),
            proof_box(alloc, proof, action, depth),
        ),
        Proof::Induct(motive, word, at_zero, at_next) => htt_syntax_build::proof_induct(
            formula_under(alloc, motive, action, depth, 1),
            walk_term(alloc, word, action, depth),
            proof_box(alloc, at_zero, action, depth),
            proof_box_under(alloc, at_next, action, depth, 1),
        ),
        Proof::Split(motive, test, on_true, on_false) => htt_syntax_build::proof_split(
            formula_under(alloc, motive, action, depth, 1),
            walk_term(alloc, test, action, depth),
            proof_box(alloc, on_true, action, depth),
            proof_box(alloc, on_false, action, depth),
        ),
        Proof::Axiom(name, monos, arguments) => htt_syntax_build::proof_axiom(
            copy_bytes(alloc, name.as_slice()),
            walk_monos(alloc, monos.as_slice(), action, depth),
            walk_args(alloc, arguments.as_slice(), action, depth),
        ),
        Proof::Lem(formula) => htt_syntax_build::proof_lem(walk_formula(
            alloc, formula, action, depth,
        )),
        Proof::The(formula, proof) => htt_syntax_build::proof_the(
            walk_formula(alloc, formula, action, depth),
            proof_box(alloc, proof, action, depth),
        ),
        Proof::Block(stmts, proof) => match depth_after(stmts.as_slice(), depth) {
            Some(inner) => htt_syntax_build::proof_block(
                walk_stmts(alloc, stmts.as_slice(), action, depth),
                proof_box(alloc, proof, action, inner),
            ),
            None => Err(AllocError),
        },
        Proof::At(at, proof) => htt_syntax_build::proof_at(
            *at,
            proof_box(alloc, proof, action, depth),
        ),
        Proof::Unfold(number, case, arguments) => htt_syntax_build::proof_unfold(
            *number,
            *case,
            walk_args(alloc, arguments.as_slice(), action, depth),
        ),
    }
}

/// The statement with what the action puts for its variables; `depth` binders stand around it.
#[cycle(proof_walk)]
#[tactic(auto, using(htt_syntax::specs::ProofLevels::stmt_levels, crate::specs::WalkProofLevels::stmt_walks))]
pub fn walk_stmt<A: Action>(
    alloc: Global,
    stmt: &Stmt,
    action: &A,
    depth: u32,
) -> Result<Stmt, AllocError>
    ensures walked { IfOk result (λ t. stmt_tree t ≡ walk_stmt (A.puts action.now) depth (stmt_tree stmt.now)) }
{
    match stmt {
        Stmt::Intro => Ok(Stmt::Intro),
        Stmt::Gen => Ok(Stmt::Gen),
        Stmt::Have(formula, proof) => htt_syntax_build::stmt_have(
            walk_formula(alloc, formula, action, depth),
            walk_proof(alloc, proof, action, depth),
        ),
        Stmt::Unpack(proof) => htt_syntax_build::stmt_open(walk_proof(alloc, proof, action, depth)),
        Stmt::At(at, stmt) => htt_syntax_build::stmt_at(*at, stmt_box(alloc, stmt, action, depth)),
    }
}

#[cycle(proof_walk)]
fn walk_stmts<A: Action>(
    alloc: Global,
    stmts: &[Stmt],
    action: &A,
    depth: u32,
) -> Result<Seq<Stmt>, AllocError>
    ensures walked { IfOk result (λ ss. map stmt_tree ss ≡ walked_stmts (A.puts action.now) depth (map stmt_tree stmts.now)) }
{
    let mut walked = Vec::new(alloc);
    let mut inner = depth;
    for stmt in stmts {
        walked.push(walk_stmt(alloc, stmt, action, inner)?)?;
        inner = inner.checked_add(binders(stmt)).ok_or(AllocError)?;
    }
    Ok(Seq::of(walked))
}

#[cycle(proof_walk)]
fn proof_box<A: Action>(
    alloc: Global,
    proof: &Boxed<Proof>,
    action: &A,
    depth: u32,
) -> Result<Boxed<Proof>, AllocError>
    ensures walked { IfOk result (λ t. proof_tree t ≡ walk_proof (A.puts action.now) depth (proof_tree proof.now)) }
{
    boxed(alloc, walk_proof(alloc, proof.get(), action, depth))
}

#[cycle(proof_walk)]
fn stmt_box<A: Action>(
    alloc: Global,
    stmt: &Boxed<Stmt>,
    action: &A,
    depth: u32,
) -> Result<Boxed<Stmt>, AllocError>
    ensures walked { IfOk result (λ t. stmt_tree t ≡ walk_stmt (A.puts action.now) depth (stmt_tree stmt.now)) }
{
    boxed(alloc, walk_stmt(alloc, stmt.get(), action, depth))
}

#[cycle(proof_walk)]
fn proof_box_under<A: Action>(
    alloc: Global,
    proof: &Boxed<Proof>,
    action: &A,
    depth: u32,
    by: u32,
) -> Result<Boxed<Proof>, AllocError>
    ensures walked { IfOk result (λ t. proof_tree t ≡ walk_proof (A.puts action.now) (depth + by) (proof_tree proof.now)) }
{
    match depth.checked_add(by) {
        Some(inner) => proof_box(alloc, proof, action, inner),
        None => Err(AllocError),
    }
}
