//! Reading a file of a command within its limit.

ghost use Rattle.std.specs.Prelude.{◌≡◌, ◌≤◌, [], ◌∷◌, Ok};
ghost use Rattle.htt_top.specs.Stages.{FileGives, seen};
ghost use Rattle.htt_top.specs.Words.{ReadsOf};
ghost use Rattle.htt_top.specs.Views.{bytes_result, ReadsAll};

use htt_base::{Files, ReadStop};
use htt_syntax_words::Which;
use htt_top_answers::{Refusal, limit_of};
use std::alloc::Global;

/// The bytes of a file, within the limit on its kind.
pub(crate) fn read_file<F: Files>(
    alloc: Global,
    files: &mut F,
    name: &str,
    which: Which,
) -> Result<Vec<u8>, Refusal>
    ensures gives { FileGives (seen (F.held files.old) (F.read_faults files.old) (F.read_faults files.new)) name.now which (bytes_result result) }
    ensures reads { ReadsOf (name.now ∷ []) (F.reads files.old) (F.reads files.new) }
    ensures reads_all { ReadsAll (name.now ∷ []) (F.reads files.old) (F.reads files.new) result }
    ensures counts { F.read_faults files.old ≤ F.read_faults files.new }
    ensures held { F.held files.new ≡ F.held files.old }
    ensures write_faults { F.write_faults files.new ≡ F.write_faults files.old }
{
    match files.read(alloc, name, limit_of(which)) {
        Ok(bytes) => Ok(bytes),
        Err(ReadStop::Failed) => Err(Refusal::ReadFault),
        Err(ReadStop::TooLong) => Err(Refusal::Limit(which)),
        Err(ReadStop::NoMemory) => Err(Refusal::NoMemory),
    }
}
