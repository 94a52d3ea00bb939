//! Signs of operations, and places of the heap.

ghost use Rattle.std.specs.Prelude.{◌≡◌, ◌++◌, OnOk};
ghost use Rattle.htt_printer_pieces.specs.Bytes.{sign_bytes, place_bytes};

use htt_printer_names::push_number;
use htt_syntax::Op;
use std::alloc::AllocError;

/// The sign of an operation, with a space on each side.
#[tactic(auto, unfolding(crate::specs::Bytes::sign_bytes, theory_printing::specs::Pieces::bytes_of))]
pub fn spaced_sign(op: Op) -> &'static [u8]
    ensures spelled { result.now ≡ sign_bytes op }
{
    match op {
        Op::Add => b" + ",
        Op::Sub => b" - ",
        Op::Mul => b" * ",
        Op::And => b" & ",
        Op::Or => b" | ",
        Op::Xor => b" ^ ",
        Op::Shl => b" << ",
        Op::Shr => b" >> ",
        Op::Lt => b" < ",
    }
}

/// Appends a place of the heap: `null`, or `place` and its number. It fails for want of memory alone.
#[tactic(auto, using(std::proofs::lemmas::Grind::common_steps, crate::proofs::PlaceRows::place_rows))]
pub fn push_literal_place(out: &mut Vec<u8>, at: u64) -> Result<(), AllocError>
    ensures printed { OnOk result (out.new.items ≡ out.old.items ++ place_bytes at) }
{
    if at == 0 {
        return out.extend_from_slice(b"null");
    }
    out.extend_from_slice(b"place ")?;
    push_number(out, at)
}
