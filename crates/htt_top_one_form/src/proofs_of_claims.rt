//! The proof of a claim: `intro u; second(u)`.

ghost use Rattle.std.specs.Prelude.{◌≡◌};
ghost use Rattle.htt_parser_trees.specs.Trees.{p_end};
ghost use Rattle.htt_parser_trees.specs.DeclViews.{raw_body_tree};
ghost use Rattle.htt_parser_trees.specs.ProofLevels.{raw_proof_tree, raw_stmts_tree};
ghost use Rattle.htt_parser_trees.specs.ProofViews.{raw_end_tree, raw_stmt_tree};
ghost use Rattle.htt_top_one_form.specs.Matching.{body_place, end_place, introduces, is_hypothesis, is_name_end, is_second, proof_place};

use crate::names::is_named;
use htt_parser_trees::{ProofBody, RawEnd, RawProof, RawStmt, UnaryRule};

/// Whether an end is the hypothesis `u`.
#[tactic(auto, using(crate::proofs::Endings::name_ends))]
fn is_name_end(text: &[u8], end: &RawEnd) -> bool
    ensures { result ≡ is_name_end text.now (raw_end_tree end.now) }
{
    match end {
        RawEnd::Name(name) => is_named(text, *name, b"u"),
        _ => false,
    }
}

/// Whether a proof is the hypothesis `u` alone.
#[tactic(auto, using(crate::proofs::Endings::hypothesis_matched))]
fn is_hypothesis(text: &[u8], proof: &RawProof) -> bool
    ensures { result ≡ is_hypothesis text.now (raw_proof_tree proof.now) }
{
    proof.statements.as_slice().is_empty() && is_name_end(text, &proof.end)
}

fn is_second(rule: UnaryRule) -> bool
    ensures { result ≡ is_second rule }
{
    matches!(rule, UnaryRule::Second)
}

/// The first byte of `second(u)`.
#[tactic(auto, using(crate::proofs::Endings::unary_ends))]
fn end_place(text: &[u8], end: &RawEnd) -> Option<u64>
    ensures { result ≡ end_place text.now (raw_end_tree end.now) }
{
    match end {
        RawEnd::Unary { at, rule, proof } => {
            if is_second(*rule) && is_hypothesis(text, proof.get()) {
                Some(*at)
            } else {
                None
            }
        }
        _ => None,
    }
}

/// Whether a statement introduces the hypothesis `u`.
#[tactic(auto, using(crate::proofs::Endings::statements))]
fn introduces(text: &[u8], statement: &RawStmt) -> bool
    ensures { result ≡ introduces text.now (raw_stmt_tree statement.now) }
{
    match statement {
        RawStmt::Intro { name, .. } => is_named(text, *name, b"u"),
        _ => false,
    }
}

/// The first byte of `second` in a proof with these statements and this end.
#[tactic(auto, using(crate::proofs::Endings::lists))]
fn place_after(text: &[u8], statements: &[RawStmt], end: &RawEnd) -> Option<u64>
    ensures { result ≡ proof_place text.now (raw_stmts_tree statements.now (p_end (raw_end_tree end.now))) }
{
    match statements {
        [] => None,
        [statement, others @ ..] => {
            if others.is_empty() && introduces(text, statement) {
                end_place(text, end)
            } else {
                None
            }
        }
    }
}

/// The first byte of `second` in `intro u; second(u)`.
#[tactic(auto, unfolding(htt_parser_trees::specs::ProofLevels::raw_proof_tree))]
fn proof_place(text: &[u8], proof: &RawProof) -> Option<u64>
    ensures { result ≡ proof_place text.now (raw_proof_tree proof.now) }
{
    place_after(text, proof.statements.as_slice(), &proof.end)
}

/// The same of what proves an obligation.
pub(crate) fn body_place(text: &[u8], body: &ProofBody) -> Option<u64>
    ensures { result ≡ body_place text.now (raw_body_tree body.now) }
{
    match body {
        ProofBody::Proof(proof) => proof_place(text, proof),
        ProofBody::Auto { .. } => None,
    }
}
