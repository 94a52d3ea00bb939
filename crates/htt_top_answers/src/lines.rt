//! The lines that each answer prints. All text of the program is made here.

ghost use Rattle.std.specs.Prelude.{◌≡◌, ◌++◌, IfOk, codes, string_bytes};
ghost use Rattle.std.specs.Fmt.{decimal};
ghost use Rattle.heap_model_flat.specs.Blocks.{blocks_of};
ghost use Rattle.heap_model_text.specs.HeapText.{words_text};
ghost use Rattle.htt_top_answers.specs.Answers.{halt, seen_answer};
ghost use Rattle.htt_top_answers.specs.Lines.{kind_word, fault_word, bound_word, limit_word, limit_of, refusal_line, AreLines};

use crate::answer::{Refusal, Success};
use heap_model_flat::Heap;
use heap_model_text::write_heap;
use htt_syntax_words::{Bound, Kind, SyntaxKind, Which};
use std::alloc::{AllocError, Global};

/// The line of want of memory, for which none is taken.
pub(crate) const NO_MEMORY: &str = "no memory\n";

fn kind_word(kind: SyntaxKind) -> &'static str
    ensures { result.now ≡ kind_word kind }
{
    match kind {
        SyntaxKind::Utf8 => "utf8",
        SyntaxKind::Char => "char",
        SyntaxKind::Literal => "literal",
        SyntaxKind::Token => "token",
        SyntaxKind::Unbound => "unbound",
        SyntaxKind::Duplicate => "duplicate",
        SyntaxKind::Sort => "sort",
    }
}

fn fault_word(kind: Kind) -> &'static str
    ensures { result.now ≡ fault_word kind }
{
    match kind {
        Kind::Get => "get",
        Kind::Set => "set",
        Kind::Free => "free",
    }
}

fn bound_word(bound: Bound) -> &'static str
    ensures { result.now ≡ bound_word bound }
{
    match bound {
        Bound::Step => "step",
        Bound::Frame => "frame",
        Bound::Heap => "heap",
        Bound::Fuel => "fuel",
        Bound::Turns => "turns",
    }
}

fn limit_word(which: Which) -> &'static str
    ensures { result.now ≡ limit_word which }
{
    match which {
        Which::File => "file",
        Which::CodeFile => "codefile",
        Which::HeapFile => "heapfile",
        Which::Declarations => "declarations",
        Which::Nesting => "nesting",
        Which::Chain => "chain",
        Which::Nodes => "nodes",
        Which::Depth => "depth",
        Which::Context => "context",
        Which::Mono => "mono",
    }
}

/// The largest permitted number of what is counted.
pub fn limit_of(which: Which) -> u64
    ensures { result ≡ limit_of which }
{
    match which {
        Which::File => 1_048_576,
        Which::CodeFile => 33_554_432,
        Which::HeapFile => 16_777_216,
        Which::Declarations => 10_000,
        Which::Nesting => 256,
        Which::Chain => 64,
        Which::Nodes => 1_000_000,
        Which::Depth => 1_000,
        Which::Context => 4_096,
        Which::Mono => 64,
    }
}

/// A line of a word, a number, and a word between them and after them.
fn number_line(alloc: Global, before: &str, number: u64, after: &str) -> Result<String, AllocError>
    ensures { IfOk result (λ text. string_bytes text ≡ before.now ++ decimal number ++ after.now) }
{
    format!(in alloc; "{before}{number}{after}")
}

/// The line of a text that isn't a file of the language.
fn syntax_line(alloc: Global, at: u64, kind: &str) -> Result<String, AllocError>
    ensures { IfOk result (λ text. string_bytes text ≡ codes "syntax " ++ decimal at ++ codes " " ++ kind.now ++ codes "\n") }
{
    format!(in alloc; "syntax {at} {kind}\n")
}

/// A line of two words and a number.
fn counted_line(alloc: Global, first: &str, second: &str, number: u64) -> Result<String, AllocError>
    ensures { IfOk result (λ text. string_bytes text ≡ first.now ++ second.now ++ codes " " ++ decimal number ++ codes "\n") }
{
    format!(in alloc; "{first}{second} {number}\n")
}

fn refusal_line(alloc: Global, refusal: &Refusal) -> Result<String, AllocError>
    ensures { IfOk result (λ text. string_bytes text ≡ refusal_line refusal.now) }
{
    match refusal {
        Refusal::Usage => String::from_str(alloc, "usage\n"),
        Refusal::ReadFault => String::from_str(alloc, "read fault\n"),
        Refusal::Limit(which) => counted_line(
            alloc,
            "limit ",
            limit_word(*which),
            limit_of(*which) + 1,
        ),
        Refusal::Syntax { at, kind } => syntax_line(alloc, *at, kind_word(*kind)),
        Refusal::NotInferred { at } => number_line(alloc, "no main.1 ", *at, " infer\n"),
        Refusal::BadCode { at } => number_line(alloc, "bad code ", *at, "\n"),
        Refusal::BadHeap { line } => number_line(alloc, "bad heap ", *line, "\n"),
        Refusal::Fault { kind, location } => counted_line(
            alloc,
            "fault ",
            fault_word(*kind),
            *location,
        ),
        Refusal::Stopped { bound, count } => counted_line(
            alloc,
            "stopped ",
            bound_word(*bound),
            *count,
        ),
        Refusal::NoMemory => String::from_str(alloc, NO_MEMORY),
    }
}

/// The line of the words with which code halted.
fn words_line(alloc: Global, words: &[u64]) -> Result<String, AllocError>
    ensures { IfOk result (λ text. string_bytes text ≡ codes "words" ++ words_text words.now ++ codes "\n") }
{
    let mut text = String::from_str(alloc, "words")?;
    for word in words {
        write!(text, " {word}")?;
    }
    text.push_str("\n")?;
    Ok(text)
}

/// The lines of code that halted.
fn halt_lines(alloc: Global, words: &[u64], heap: &Heap) -> Result<Vec<u8>, AllocError>
    ensures { IfOk result (λ lines. AreLines (Ok (halt words.now (blocks_of heap.now))) lines.items) }
{
    let mut lines = words_line(alloc, words)?.into_bytes();
    lines.extend_from_slice(write_heap(alloc, heap)?.as_slice())?;
    Ok(lines)
}

/// The lines of an answer, each with its line feed.
pub(crate) fn lines(alloc: Global, answer: &Result<Success, Refusal>) -> Result<Vec<u8>, AllocError>
    ensures { IfOk result (λ lines. AreLines (seen_answer answer.now) lines.items) }
{
    match answer {
        Ok(Success::Value(value)) => Ok(number_line(alloc, "value ", *value, "\n")?.into_bytes()),
        Ok(Success::Halted(words, heap)) => halt_lines(alloc, words.as_slice(), heap),
        Err(refusal) => Ok(refusal_line(alloc, refusal)?.into_bytes()),
    }
}
