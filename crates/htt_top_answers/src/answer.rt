//! What a command answers, before anything is printed. The program ends with its status; its lines
//! are made in `lines`.

ghost use Rattle.std.specs.Prelude.{◌≡◌};
ghost use Rattle.htt_top_answers.specs.declared.answer.Refusal.TheVariants.{NoMemory};

use heap_model_flat::Heap;
use htt_base::Status;
use htt_syntax_seq::Seq;
use htt_syntax_words::{Bound, Kind, Rule, SyntaxKind, Which};
use std::alloc::AllocError;

/// What the work of a command gives.
#[derive(Drop)]
pub enum Success {
    /// The value that main returned.
    Value(u64),
    /// Code halted with these words and this heap.
    Halted(Seq<u64>, Heap),
}

/// Why a command gives nothing.
#[derive(Clone, Copy, Debug, PartialEq, Eq)]
pub enum Refusal {
    /// The words have no form.
    Usage,
    /// A file couldn't be read.
    ReadFault,
    /// This quantity passes its limit.
    Limit(Which),
    /// The bytes aren't a file of the language; `at` is a byte, counted from 0.
    Syntax { at: u64, kind: SyntaxKind },
    /// The proof of main's obligation doesn't infer its goal; `at` is the first byte of its end.
    NotInferred { at: u64 },
    /// The bytes aren't a code file; the field at this byte is the first whose test isn't met.
    BadCode { at: u64 },
    /// The bytes aren't heap text; this line, counted from 1, is the first bad one.
    BadHeap { line: u64 },
    /// The machine faulted at this location.
    Fault { kind: Kind, location: u64 },
    /// The run met this limit first, at this count.
    Stopped { bound: Bound, count: u64 },
    /// Memory ran out.
    NoMemory,
}

impl From<AllocError> for Refusal {
    ghost from_gives = { λ _ refusal. refusal ≡ NoMemory };

    fn from(_error: AllocError) -> Refusal {
        Refusal::NoMemory
    }
}

impl Refusal {
    ghost use Rattle.htt_top_answers.specs.Answers.{refusal_status};

    /// The status with which the program ends.
    pub fn status(&self) -> Status
        ensures { result ≡ refusal_status self.now }
    {
        match self {
            Refusal::Usage => Status::Usage,
            Refusal::ReadFault => Status::ReadFault,
            Refusal::Limit(which) => Status::Limit { which: *which },
            Refusal::Syntax { at, kind } => Status::Syntax {
                at: *at,
                kind: *kind,
            },
            Refusal::NotInferred { at } => Status::No {
                decl: 1,
                at: *at,
                rule: Rule::Infer,
            },
            Refusal::BadCode { at } => Status::BadCode { at: *at },
            Refusal::BadHeap { line } => Status::BadHeap { line: *line },
            Refusal::Fault { kind, location } => Status::MachineFault {
                kind: *kind,
                location: *location,
            },
            Refusal::Stopped { bound, count } => Status::Stopped {
                which: *bound,
                count: *count,
            },
            Refusal::NoMemory => Status::NoMemory,
        }
    }
}
