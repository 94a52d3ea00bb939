//! The status with which a command ends, and the code that the process gives for it.

ghost use Rattle.std.specs.Prelude.{◌≡◌};
ghost use Rattle.htt_base.specs.Status.{status_code};

use htt_syntax_words::{Bound, Kind, Rule, SyntaxKind, Which, Why};

/// How a command ended. `at` is a byte of the file that was read, counted from 0; `line` counts
/// from 1.
#[derive(Clone, Copy, Debug, PartialEq, Eq)]
pub enum Status {
    /// All that the command does is done.
    Done,
    /// The rules don't derive the declaration with this number, counted from 0.
    No { decl: u32, at: u64, rule: Rule },
    /// The words have none of the forms.
    Usage,
    /// The bytes aren't a file of the language.
    Syntax { at: u64, kind: SyntaxKind },
    /// All is derived but for this many obligations without a proof.
    Unproved { count: u64 },
    /// The file is derived and has no code.
    NotExtractable(Why),
    /// A quantity passed its limit.
    Limit { which: Which },
    /// A file couldn't be read.
    ReadFault,
    /// A file or the output couldn't be written.
    WriteFault,
    /// The machine faulted at this location.
    MachineFault { kind: Kind, location: u64 },
    /// The run reached this count, which is the first limit that it met.
    Stopped { which: Bound, count: u64 },
    /// The bytes aren't a code file.
    BadCode { at: u64 },
    /// The bytes aren't heap text.
    BadHeap { line: u64 },
    /// The precondition of main doesn't fit the empty heap.
    NotEmptyStart,
    /// Memory ran out.
    NoMemory,
    /// The given precondition is false in the start heap.
    PreFalse,
    /// The given precondition can't be judged.
    NotJudged,
    /// The code isn't that of the given file.
    OtherCode,
}

impl Status {
    /// The code of the process, from 0 to 17.
    pub fn code(&self) -> u8
        ensures { result ≡ status_code self.now }
    {
        match self {
            Status::Done => 0,
            Status::No { .. } => 1,
            Status::Usage => 2,
            Status::Syntax { .. } => 3,
            Status::Unproved { .. } => 4,
            Status::NotExtractable(_) => 5,
            Status::Limit { .. } => 6,
            Status::ReadFault => 7,
            Status::WriteFault => 8,
            Status::MachineFault { .. } => 9,
            Status::Stopped { .. } => 10,
            Status::BadCode { .. } => 11,
            Status::BadHeap { .. } => 12,
            Status::NotEmptyStart => 13,
            Status::NoMemory => 14,
            Status::PreFalse => 15,
            Status::NotJudged => 16,
            Status::OtherCode => 17,
        }
    }
}
