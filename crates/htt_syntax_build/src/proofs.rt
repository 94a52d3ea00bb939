//! Proofs and statements.

ghost use Rattle.std.specs.Prelude.{◌≡◌, IfOk, ℕ, List};
ghost use Rattle.htt_syntax.specs.declared.mono.Mono.{Mono};
ghost use Rattle.htt_syntax.specs.declared.tree.Term.{Term};
ghost use Rattle.htt_syntax.specs.declared.tree.Formula.{Formula};
ghost use Rattle.htt_syntax.specs.declared.proof.Arg.{Arg};
ghost use Rattle.htt_syntax.specs.declared.proof.Proof.{Proof};
ghost use Rattle.htt_syntax.specs.declared.proof.Proof.TheVariants as vproof;
ghost use Rattle.htt_syntax.specs.declared.proof.Stmt.{Stmt};
ghost use Rattle.htt_syntax.specs.declared.proof.Stmt.TheVariants as vstmt;

use htt_syntax::{Arg, Formula, Mono, Proof, Stmt, Term};
use htt_syntax_seq::{Seq, both};
use sqlite_items::Boxed;
use std::alloc::AllocError;

/// `Proof::First` of its part.
pub fn proof_first(proof: Result<Boxed<Proof>, AllocError>) -> Result<Proof, AllocError>
    ensures made { IfOk result (λ t. (x : Proof) × (proof ≡ Ok x) × (t ≡ vproof.First x)) }
{
    proof.map(|proof| Proof::First(proof))
}

/// `Proof::Second` of its part.
pub fn proof_second(proof: Result<Boxed<Proof>, AllocError>) -> Result<Proof, AllocError>
    ensures made { IfOk result (λ t. (x : Proof) × (proof ≡ Ok x) × (t ≡ vproof.Second x)) }
{
    proof.map(|proof| Proof::Second(proof))
}

/// `Proof::Left` of its part.
pub fn proof_left(proof: Result<Boxed<Proof>, AllocError>) -> Result<Proof, AllocError>
    ensures made { IfOk result (λ t. (x : Proof) × (proof ≡ Ok x) × (t ≡ vproof.Left x)) }
{
    proof.map(|proof| Proof::Left(proof))
}

/// `Proof::Right` of its part.
pub fn proof_right(proof: Result<Boxed<Proof>, AllocError>) -> Result<Proof, AllocError>
    ensures made { IfOk result (λ t. (x : Proof) × (proof ≡ Ok x) × (t ≡ vproof.Right x)) }
{
    proof.map(|proof| Proof::Right(proof))
}

/// `Proof::Absurd` of its part.
pub fn proof_absurd(proof: Result<Boxed<Proof>, AllocError>) -> Result<Proof, AllocError>
    ensures made { IfOk result (λ t. (x : Proof) × (proof ≡ Ok x) × (t ≡ vproof.Absurd x)) }
{
    proof.map(|proof| Proof::Absurd(proof))
}

/// `Proof::Both` of its parts.
pub fn proof_both(
    left: Result<Boxed<Proof>, AllocError>,
    right: Result<Boxed<Proof>, AllocError>,
) -> Result<Proof, AllocError>
    ensures made { IfOk result (λ t. (x : Proof) × (y : Proof)
        × (left ≡ Ok x) × (right ≡ Ok y)
        × (t ≡ vproof.Both x y)) }
{
    both(left, right).map(|(left, right)| Proof::Both(left, right))
}

/// `Proof::Give` of its parts.
pub fn proof_give(
    arg: Result<Arg, AllocError>,
    proof: Result<Boxed<Proof>, AllocError>,
) -> Result<Proof, AllocError>
    ensures made { IfOk result (λ t. (x : Arg) × (y : Proof)
        × (arg ≡ Ok x) × (proof ≡ Ok y)
        × (t ≡ vproof.Give x y)) }
{
    both(arg, proof).map(|(arg, proof)| Proof::Give(arg, proof))
}

/// `Proof::App` of its parts.
pub fn proof_app(
    function: Result<Boxed<Proof>, AllocError>,
    argument: Result<Boxed<Proof>, AllocError>,
) -> Result<Proof, AllocError>
    ensures made { IfOk result (λ t. (x : Proof) × (y : Proof)
        × (function ≡ Ok x) × (argument ≡ Ok y)
        × (t ≡ vproof.App x y)) }
{
    both(function, argument).map(|(function, argument)| Proof::App(function, argument))
}

/// `Proof::Inst` of its parts.
pub fn proof_inst(
    proof: Result<Boxed<Proof>, AllocError>,
    arg: Result<Arg, AllocError>,
) -> Result<Proof, AllocError>
    ensures made { IfOk result (λ t. (x : Proof) × (y : Arg)
        × (proof ≡ Ok x) × (arg ≡ Ok y)
        × (t ≡ vproof.Inst x y)) }
{
    both(proof, arg).map(|(proof, arg)| Proof::Inst(proof, arg))
}

/// `Proof::Case` of its parts.
pub fn proof_case(
    either: Result<Boxed<Proof>, AllocError>,
    left: Result<Boxed<Proof>, AllocError>,
    right: Result<Boxed<Proof>, AllocError>,
) -> Result<Proof, AllocError>
    ensures made { IfOk result (λ t. (x : Proof) × (y : Proof) × (z : Proof)
        × (either ≡ Ok x) × (left ≡ Ok y) × (right ≡ Ok z)
        × (t ≡ vproof.Case x y z)) }
{
    both(either, both(left, right)).map(|(either, (left, right))| Proof::Case(either, left, right))
}

/// `Proof::Rewrite` of its parts.
pub fn proof_rewrite(
    equation: Result<Boxed<Proof>, AllocError>,
    motive: Result<Formula, AllocError>,
    proof: Result<Boxed<Proof>, AllocError>,
) -> Result<Proof, AllocError>
    ensures made { IfOk result (λ t. (x : Proof) × (y : Formula) × (z : Proof)
        × (equation ≡ Ok x) × (motive ≡ Ok y) × (proof ≡ Ok z)
        × (t ≡ vproof.Rewrite x y z)) }
{
    both(equation, both(motive, proof)).map(|(equation, (motive, proof))| Proof::Rewrite(
        equation, motive, proof,
    ))
}

/// `Proof::Induct` of its parts.
pub fn proof_induct(
    motive: Result<Formula, AllocError>,
    word: Result<Term, AllocError>,
    at_zero: Result<Boxed<Proof>, AllocError>,
    at_next: Result<Boxed<Proof>, AllocError>,
) -> Result<Proof, AllocError>
    ensures made { IfOk result (λ t. (x : Formula) × (y : Term) × (z : Proof) × (w : Proof)
        × (motive ≡ Ok x) × (word ≡ Ok y) × (at_zero ≡ Ok z) × (at_next ≡ Ok w)
        × (t ≡ vproof.Induct x y z w)) }
{
    both(both(motive, word), both(at_zero, at_next)).map(|(
        (motive, word),
        (at_zero, at_next),
    )| Proof::Induct(motive, word, at_zero, at_next))
}

/// `Proof::Split` of its parts.
pub fn proof_split(
    motive: Result<Formula, AllocError>,
    test: Result<Term, AllocError>,
    on_true: Result<Boxed<Proof>, AllocError>,
    on_false: Result<Boxed<Proof>, AllocError>,
) -> Result<Proof, AllocError>
    ensures made { IfOk result (λ t. (x : Formula) × (y : Term) × (z : Proof) × (w : Proof)
        × (motive ≡ Ok x) × (test ≡ Ok y) × (on_true ≡ Ok z) × (on_false ≡ Ok w)
        × (t ≡ vproof.Split x y z w)) }
{
    both(both(motive, test), both(on_true, on_false)).map(|(
        (motive, test),
        (on_true, on_false),
    )| Proof::Split(motive, test, on_true, on_false))
}

/// `Proof::Axiom` of its parts.
pub fn proof_axiom(
    name: Result<Seq<u8>, AllocError>,
    monos: Result<Seq<Mono>, AllocError>,
    arguments: Result<Seq<Arg>, AllocError>,
) -> Result<Proof, AllocError>
    ensures made { IfOk result (λ t. (x : List ℕ) × (y : List Mono) × (z : List Arg)
        × (name ≡ Ok x) × (monos ≡ Ok y) × (arguments ≡ Ok z)
        × (t ≡ vproof.Axiom x y z)) }
{
    both(name, both(monos, arguments)).map(|(name, (monos, arguments))| Proof::Axiom(
        name, monos, arguments,
    ))
}

/// `Proof::Lem` of its part.
pub fn proof_lem(formula: Result<Formula, AllocError>) -> Result<Proof, AllocError>
    ensures made { IfOk result (λ t. (x : Formula) × (formula ≡ Ok x) × (t ≡ vproof.Lem x)) }
{
    formula.map(|formula| Proof::Lem(formula))
}

/// `Proof::The` of its parts.
pub fn proof_the(
    formula: Result<Formula, AllocError>,
    proof: Result<Boxed<Proof>, AllocError>,
) -> Result<Proof, AllocError>
    ensures made { IfOk result (λ t. (x : Formula) × (y : Proof)
        × (formula ≡ Ok x) × (proof ≡ Ok y)
        × (t ≡ vproof.The x y)) }
{
    both(formula, proof).map(|(formula, proof)| Proof::The(formula, proof))
}

/// `Proof::Block` of its parts.
pub fn proof_block(
    stmts: Result<Seq<Stmt>, AllocError>,
    proof: Result<Boxed<Proof>, AllocError>,
) -> Result<Proof, AllocError>
    ensures made { IfOk result (λ t. (x : List Stmt) × (y : Proof)
        × (stmts ≡ Ok x) × (proof ≡ Ok y)
        × (t ≡ vproof.Block x y)) }
{
    both(stmts, proof).map(|(stmts, proof)| Proof::Block(stmts, proof))
}

/// `Proof::At` of its parts.
pub fn proof_at(at: u64, proof: Result<Boxed<Proof>, AllocError>) -> Result<Proof, AllocError>
    ensures made { IfOk result (λ t. (x : Proof) × (proof ≡ Ok x) × (t ≡ vproof.At at x)) }
{
    proof.map(|proof| Proof::At(at, proof))
}

/// `Proof::Unfold` of its parts.
pub fn proof_unfold(
    number: u32,
    case: u64,
    arguments: Result<Seq<Arg>, AllocError>,
) -> Result<Proof, AllocError>
    ensures made { IfOk result (λ t. (x : List Arg)
        × (arguments ≡ Ok x)
        × (t ≡ vproof.Unfold number case x)) }
{
    arguments.map(|arguments| Proof::Unfold(number, case, arguments))
}

/// `Stmt::Have` of its parts.
pub fn stmt_have(
    formula: Result<Formula, AllocError>,
    proof: Result<Proof, AllocError>,
) -> Result<Stmt, AllocError>
    ensures made { IfOk result (λ t. (x : Formula) × (y : Proof)
        × (formula ≡ Ok x) × (proof ≡ Ok y)
        × (t ≡ vstmt.Have x y)) }
{
    both(formula, proof).map(|(formula, proof)| Stmt::Have(formula, proof))
}

/// `Stmt::Unpack` of its part.
pub fn stmt_open(proof: Result<Proof, AllocError>) -> Result<Stmt, AllocError>
    ensures made { IfOk result (λ t. (x : Proof) × (proof ≡ Ok x) × (t ≡ vstmt.Unpack x)) }
{
    proof.map(|proof| Stmt::Unpack(proof))
}

/// `Stmt::At` of its parts.
pub fn stmt_at(at: u64, stmt: Result<Boxed<Stmt>, AllocError>) -> Result<Stmt, AllocError>
    ensures made { IfOk result (λ t. (x : Stmt) × (stmt ≡ Ok x) × (t ≡ vstmt.At at x)) }
{
    stmt.map(|stmt| Stmt::At(at, stmt))
}
