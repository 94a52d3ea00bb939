//! Whether some tokens are a file, a type, a formula or a proof: whether the grammar derives a tree by
//! them, whatever its levels and chains.

ghost use Rattle.std.specs.Prelude.{List, ◌↔◌, IfOk, IsTrue};
ghost use Rattle.htt_parser_trees.specs.Trees.{RawDeclTree, RawFormulaTree, RawProofTree, RawTyTree};
ghost use Rattle.theory_grammar.specs.Derivations.{IsFile, IsFormula, IsProof, IsType};

use crate::chart::derives;
use htt_lexer_tokens::Token;
use htt_parser_table::Nonterminal;
use std::alloc::{AllocError, Global};

/// Whether the tokens are a file. Refuses for want of memory alone.
pub fn is_file(alloc: Global, tokens: &[Token]) -> Result<bool, AllocError>
    ensures { IfOk result (λ found. IsTrue found ↔ ((decls : List RawDeclTree) × IsFile tokens.now decls)) }
{
    derives(alloc, tokens, Nonterminal::File)
}

/// Whether the tokens are a type. Refuses for want of memory alone.
pub fn is_type(alloc: Global, tokens: &[Token]) -> Result<bool, AllocError>
    ensures { IfOk result (λ found. IsTrue found ↔ ((tree : RawTyTree) × IsType tokens.now tree)) }
{
    derives(alloc, tokens, Nonterminal::TypePhrase)
}

/// Whether the tokens are a formula. Refuses for want of memory alone.
pub fn is_formula(alloc: Global, tokens: &[Token]) -> Result<bool, AllocError>
    ensures { IfOk result (λ found. IsTrue found ↔ ((tree : RawFormulaTree) × IsFormula tokens.now tree)) }
{
    derives(alloc, tokens, Nonterminal::Formula)
}

/// Whether the tokens are a proof. Refuses for want of memory alone.
pub fn is_proof(alloc: Global, tokens: &[Token]) -> Result<bool, AllocError>
    ensures { IfOk result (λ found. IsTrue found ↔ ((tree : RawProofTree) × IsProof tokens.now tree)) }
{
    derives(alloc, tokens, Nonterminal::Proof)
}
