//! The forms of rows: what a node of a tree is, apart from its parts. The variants are those of the trees. What
//! stands under a binder is the part that follows it, as in the family of trees that definitions speak of.

use crate::operation::Operation;

/// What a row is of.
#[derive(Clone, Copy, PartialEq, Eq, Hash)]
pub enum Kind {
    Skeleton,
    Mono,
    Ty,
    Triple,
    Term,
    /// A list of terms.
    Terms,
    Fix,
    Comp,
    Step,
    Formula,
}

/// What a node is, apart from its parts: its form, with the indices, numbers and bytes that it holds.
#[derive(Clone, Copy, PartialEq, Eq, Hash)]
pub enum Form {
    Skeleton(SkeletonForm),
    Mono(MonoForm),
    Ty(TyForm),
    Triple,
    Term(TermForm),
    NoTerms,
    /// A term before a list of terms.
    MoreTerms,
    Fix(FixForm),
    Comp(CompForm),
    Step(StepForm),
    Formula(FormulaForm),
}

/// Skeletons.
#[derive(Clone, Copy, PartialEq, Eq, Hash)]
pub enum SkeletonForm {
    /// That of a monotype.
    O,
    /// That of a computation.
    C,
    /// That of a function.
    Arrow,
    /// That of a type under a monotype.
    All,
}

/// Monotypes.
#[derive(Clone, Copy, PartialEq, Eq, Hash)]
pub enum MonoForm {
    Word,
    Bool,
    Loc,
    Unit,
    Pair,
    Var(u32),
}

/// Types.
#[derive(Clone, Copy, PartialEq, Eq, Hash)]
pub enum TyForm {
    Mono,
    Fun,
    All,
    Hoare,
    At(u64),
}

/// Terms.
#[derive(Clone, Copy, PartialEq, Eq, Hash)]
pub enum TermForm {
    Var(u32),
    Val(u32),
    Def(u32),
    App,
    Inst,
    Lam,
    LamT,
    Do,
    /// The byte of the keyword.
    Fix(u64),
    Word(u64),
    Bool(bool),
    Loc(u64),
    Unit,
    Pair,
    Fst,
    Snd,
    Un,
    Bin(Operation),
    Eq,
    Sel,
    Ann,
    Made(u32),
    At(u64),
}

/// Recursive functions: a parameter and what stands under it, or the triple and, under the function itself, the
/// computation.
#[derive(Clone, Copy, PartialEq, Eq, Hash)]
pub enum FixForm {
    Param,
    Body,
}

/// Computations: the result, or a step and what stands under its variable.
#[derive(Clone, Copy, PartialEq, Eq, Hash)]
pub enum CompForm {
    Ret,
    Step,
}

/// Steps.
#[derive(Clone, Copy, PartialEq, Eq, Hash)]
pub enum StepForm {
    Run,
    /// A run whose result has no monotype yet.
    RunOpen,
    Alloc,
    Get,
    Set,
    Free,
    If,
    Claim,
}

/// Formulas.
#[derive(Clone, Copy, PartialEq, Eq, Hash)]
pub enum FormulaForm {
    Tt,
    Ff,
    And,
    Or,
    Imp,
    AllT,
    ExT,
    AllH,
    ExH,
    Emp(u32),
    Cell(u32),
    Block(u32),
    Join(u32, u32, u32),
    Same(u32, u32),
    Eq,
    At(u64),
    Rec(u32, u32),
}
