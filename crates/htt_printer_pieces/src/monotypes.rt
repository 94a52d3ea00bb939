//! Monotypes.

ghost use Rattle.std.specs.Prelude.{◌≡◌, ◌++◌, OnOk};
ghost use Rattle.htt_syntax.specs.Views.{mono_tree};
ghost use Rattle.htt_printer_names.specs.Views.{print_scope};
ghost use Rattle.htt_printer_pieces.specs.Bytes.{mono_bytes, mono_operand_bytes};

use crate::brackets::{Place, needs_brackets};
use crate::forms::mono_shape;
use htt_printer_names::NameScope;
use htt_syntax::Mono;
use sqlite_items::Boxed;
use std::alloc::AllocError;

/// Appends the monotype. It fails for want of memory alone.
#[cycle(mono)]
#[tactic(auto, using(std::proofs::lemmas::Grind::common_steps, htt_syntax::specs::Levels::mono_levels, crate::proofs::MonoRows::mono_rows))]
pub fn push_mono(out: &mut Vec<u8>, scope: &NameScope<'_>, mono: &Mono) -> Result<(), AllocError>
    ensures printed { OnOk result (out.new.items ≡ out.old.items ++ mono_bytes (print_scope scope.now) (mono_tree mono.now)) }
{
    match mono {
        Mono::Word => out.extend_from_slice(b"word"),
        Mono::Bool => out.extend_from_slice(b"bool"),
        Mono::Loc => out.extend_from_slice(b"loc"),
        Mono::Unit => out.extend_from_slice(b"unit"),
        Mono::Pair(left, right) => {
            push_operand(out, scope, left)?;
            out.extend_from_slice(b" * ")?;
            push_operand(out, scope, right)
        }
        Mono::Var(index) => scope.push_entry(out, *index),
    }
}

#[cycle(mono)]
#[tactic(auto, using(std::proofs::lemmas::Grind::common_steps, crate::proofs::MonoRows::mono_places))]
fn push_operand(
    out: &mut Vec<u8>,
    scope: &NameScope<'_>,
    mono: &Boxed<Mono>,
) -> Result<(), AllocError>
    ensures { OnOk result (out.new.items ≡ out.old.items ++ mono_operand_bytes (print_scope scope.now) (mono_tree mono.now)) }
{
    if needs_brackets(Place::Operand, mono_shape(mono.get())) {
        out.extend_from_slice(b"(")?;
        push_mono(out, scope, mono.get())?;
        out.extend_from_slice(b")")
    } else {
        push_mono(out, scope, mono.get())
    }
}
