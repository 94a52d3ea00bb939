//! The public calls: a phrase that is the whole list of tokens, or the declarations of a file.

ghost use Rattle.std.specs.Prelude.{IfOk, IfErr, length, map};
ghost use Rattle.theory_grammar.specs.Derivations.{IsFile, IsFileWithin, IsFormula, IsFormulaWithin, IsMono, IsProof, IsProofWithin};
ghost use Rattle.theory_reading.specs.Laws.{IsMonoWithin};
ghost use Rattle.htt_parser_trees.specs.DeclViews.{raw_decl_tree};
ghost use Rattle.htt_parser_trees.specs.MonoLevels.{raw_mono_tree};
ghost use Rattle.htt_parser_trees.specs.ProofLevels.{raw_proof_tree};
ghost use Rattle.htt_parser_trees.specs.TreeViews.{raw_formula_tree};
ghost use Rattle.theory_grammar.specs.Grammar.{formula, mono, proof};
ghost use Rattle.htt_parser.specs.Refusals.{RefusesTokens, RefusesFile};

use crate::stops::{ParseStop, stop};
use htt_lexer_tokens::Token;
use htt_parser_declarations::Declarations;
use htt_parser_phrases::Phrases;
use htt_parser_proofs::Proofs;
use htt_parser_trees::{RawDecl, RawFormula, RawMono, RawProof};
use htt_parser_words::Cursor;
use std::alloc::Global;

/// How many levels a phrase may have.
const LEVELS: u32 = 256;

/// Reads a monotype that is the whole list of tokens; `text` is the text whose tokens they are. Where
/// the tokens are no monotype, or one past the limits, the refusal is the first that is right: what
/// stands before the refused token begins a monotype, and none goes on with that token, or only past
/// the limit. It takes linear time, and its stack grows with the levels alone.
pub fn parse_mono(alloc: Global, text: &[u8], tokens: &[Token]) -> Result<RawMono, ParseStop>
    ensures derived { IfOk result (λ mono. IsMono tokens.now (raw_mono_tree mono)) }
    ensures within { IfOk result (λ mono. IsMonoWithin (raw_mono_tree mono)) }
    ensures refused { IfErr result (λ stop. RefusesTokens (mono 1) (length text.now) tokens.now stop) }
{
    let cursor = Cursor { alloc, tokens };
    match cursor.deeper_mono(LEVELS, 0) {
        Ok((mono, at)) => match cursor.token(at) {
            None => Ok(mono),
            Some(token) => Err(ParseStop::Expected { at: token.from }),
        },
        Err(halted) => Err(stop(&cursor, text.len() as u64, halted)),
    }
}

/// Reads a formula that is the whole list of tokens, as `parse_mono` reads a monotype.
pub fn parse_formula(alloc: Global, text: &[u8], tokens: &[Token]) -> Result<RawFormula, ParseStop>
    ensures derived { IfOk result (λ tree. IsFormula tokens.now (raw_formula_tree tree)) }
    ensures within { IfOk result (λ tree. IsFormulaWithin (raw_formula_tree tree)) }
    ensures refused { IfErr result (λ stop. RefusesTokens (formula 1) (length text.now) tokens.now stop) }
{
    let cursor = Cursor { alloc, tokens };
    let phrases = Phrases { cursor };
    match phrases.deeper_formula(LEVELS, 0) {
        Ok((formula, at)) => match cursor.token(at) {
            None => Ok(formula),
            Some(token) => Err(ParseStop::Expected { at: token.from }),
        },
        Err(halted) => Err(stop(&cursor, text.len() as u64, halted)),
    }
}

/// Reads a proof that is the whole list of tokens, as `parse_mono` reads a monotype.
pub fn parse_proof(alloc: Global, text: &[u8], tokens: &[Token]) -> Result<RawProof, ParseStop>
    ensures derived { IfOk result (λ tree. IsProof tokens.now (raw_proof_tree tree)) }
    ensures within { IfOk result (λ tree. IsProofWithin (raw_proof_tree tree)) }
    ensures refused { IfErr result (λ stop. RefusesTokens (proof 1) (length text.now) tokens.now stop) }
{
    let cursor = Cursor { alloc, tokens };
    let proofs = Proofs {
        phrases: Phrases { cursor },
    };
    match proofs.deeper_proof(LEVELS, 0) {
        Ok((proof, at)) => match cursor.token(at) {
            None => Ok(proof),
            Some(token) => Err(ParseStop::Expected { at: token.from }),
        },
        Err(halted) => Err(stop(&cursor, text.len() as u64, halted)),
    }
}

/// Reads the declarations of a file; `text` is the text whose tokens they are. Where they are none of
/// a file, or one past the limits, the refusal is the first that is right, as for a phrase. It takes
/// linear time, and its stack grows with the levels alone.
pub fn parse(alloc: Global, text: &[u8], tokens: &[Token]) -> Result<Vec<RawDecl>, ParseStop>
    ensures derived { IfOk result (λ decls. IsFile tokens.now (map raw_decl_tree decls.items)) }
    ensures within { IfOk result (λ decls. IsFileWithin (map raw_decl_tree decls.items)) }
    ensures refused { IfErr result (λ stop. RefusesFile (length text.now) tokens.now stop) }
{
    let cursor = Cursor { alloc, tokens };
    let declarations = Declarations {
        proofs: Proofs {
            phrases: Phrases { cursor },
        },
    };
    match declarations.declarations(0) {
        Ok((decls, _)) => Ok(decls),
        Err(halted) => Err(stop(&cursor, text.len() as u64, halted)),
    }
}
