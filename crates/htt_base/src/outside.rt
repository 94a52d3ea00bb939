//! What a command sees of files and of its output. A trait tells by ghost members what is held,
//! read and written, where it knows, and counts its faults always: so a caller that reports a
//! fault can show that one came.

ghost use Rattle.std.specs.Prelude.{◌≡◌, ◌≤◌, List, ℕ, Option, IfOk, length};
ghost use Rattle.htt_base.specs.Outside.{Held, ReadGives, NotesName, CountsRead, WriteGives, CountsWrite, PutGives, CountsPut};

use std::alloc::Global;

/// Why a read gave no bytes.
#[derive(Clone, Copy, Debug, PartialEq, Eq)]
pub enum ReadStop {
    /// The name holds nothing, or the outside failed.
    Failed,
    /// The name holds more bytes than were asked for.
    TooLong,
    /// Memory ran out.
    NoMemory,
}

/// Why a write wasn't done.
#[derive(Clone, Copy, Debug, PartialEq, Eq)]
pub enum WriteStop {
    /// The outside failed; the name may hold anything.
    Failed,
    /// Memory ran out; the name holds what it held.
    NoMemory,
}

/// Why a put wasn't done in full.
#[derive(Clone, Copy, Debug, PartialEq, Eq)]
pub enum PutStop {
    /// The outside failed.
    Failed,
    /// Memory ran out.
    NoMemory,
}

/// Files that are read and written whole, by their names. A count of faults at 2^64-1 stays there,
/// and counts as risen.
pub trait Files {
    /// What each name holds, where it is told.
    ghost held: { Self → Option Held };

    /// The names that were read, where they are told.
    ghost reads: { Self → Option (List (List ℕ)) };

    /// How many reads failed.
    ghost read_faults: { Self → ℕ };

    /// How many writes failed.
    ghost write_faults: { Self → ℕ };

    /// All the bytes that the name holds, of which there are at most `max`.
    fn read(&mut self, alloc: Global, name: &str, max: u64) -> Result<Vec<u8>, ReadStop>
        ensures gives { ReadGives (held self.old) name.now max result }
        ensures within { IfOk result (λ v. length v.items ≤ max) }
        ensures notes { NotesName (reads self.old) (reads self.new) name.now result }
        ensures counts { CountsRead (read_faults self.old) (read_faults self.new) result }
        ensures held_stays { held self.new ≡ held self.old }
        ensures write_faults_stay { write_faults self.new ≡ write_faults self.old };

    /// Lets the name hold exactly the bytes.
    fn write(&mut self, alloc: Global, name: &str, bytes: &[u8]) -> Result<(), WriteStop>
        ensures gives { WriteGives (held self.old) (held self.new) name.now bytes.now result }
        ensures counts { CountsWrite (write_faults self.old) (write_faults self.new) result }
        ensures reads_stay { reads self.new ≡ reads self.old }
        ensures read_faults_stay { read_faults self.new ≡ read_faults self.old };
}

/// Output that only grows.
pub trait Sink {
    /// The bytes that were written, where they are told.
    ghost written: { Self → Option (List ℕ) };

    /// How many puts failed. A count at 2^64-1 stays there, and counts as risen.
    ghost faults: { Self → ℕ };

    /// Appends the bytes; where it stops, a prefix of them is appended.
    fn put(&mut self, alloc: Global, bytes: &[u8]) -> Result<(), PutStop>
        ensures gives { PutGives (written self.old) (written self.new) bytes.now result }
        ensures counts { CountsPut (faults self.old) (faults self.new) result };
}
