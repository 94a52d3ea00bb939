//! The names of what a file, a run or a proof can be refused for. They carry no text of their own:
//! the lines in which they are printed are made by the commands.

/// The rule that refuses a phrase, named by the word that a refusal prints in small letters.
/// `Unpack` is printed `open`.
#[derive(Clone, Copy, Debug, PartialEq, Eq)]
pub enum Rule {
    Function,
    Instance,
    Pair,
    Project,
    Eq,
    Synth,
    Fun,
    Do,
    Mismatch,
    Pure,
    Sort,
    Ending,
    Run,
    Stray,
    Twice,
    Name,
    Index,
    Infer,
    Axiom,
    First,
    Second,
    App,
    Inst,
    Intro,
    Gen,
    Unpack,
    Both,
    Left,
    Right,
    Give,
    Trivial,
    Refl,
    Case,
    Rewrite,
    Induct,
    Split,
}

/// How a text fails to be a file of the language.
#[derive(Clone, Copy, Debug, PartialEq, Eq)]
pub enum SyntaxKind {
    Utf8,
    Char,
    Literal,
    Token,
    Unbound,
    Duplicate,
    Sort,
}

/// The quantity that passed its limit.
#[derive(Clone, Copy, Debug, PartialEq, Eq)]
pub enum Which {
    File,
    CodeFile,
    HeapFile,
    Declarations,
    Nesting,
    Chain,
    Nodes,
    Depth,
    Context,
    Mono,
}

/// Why a derived file has no code. `at` is the byte of a `fix`, `position` counts its parameters
/// from 1, and `function` is the number of a function of the code.
#[derive(Clone, Copy, Debug, PartialEq, Eq)]
pub enum Why {
    NoMain,
    Parameters,
    Varying { at: u64, position: u64 },
    Instances,
    Mono,
    Nodes,
    Locals { function: u32 },
    Long,
}

/// The instruction at which a machine faults.
#[derive(Clone, Copy, Debug, PartialEq, Eq)]
pub enum Kind {
    Get,
    Set,
    Free,
}

/// The limit at which a run was stopped.
#[derive(Clone, Copy, Debug, PartialEq, Eq)]
pub enum Bound {
    Step,
    Frame,
    Heap,
    Fuel,
    Turns,
}
