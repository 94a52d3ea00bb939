//! Value text.

ghost use Rattle.std.specs.Prelude.{◌≡◌, ◌++◌, IfOk, OnOk, string_bytes};
ghost use Rattle.heap_model.specs.ValueText.{place_text, value_text};
ghost use Rattle.heap_model.specs.Views.{value_tree};

use crate::value::Value;
use std::alloc::{AllocError, Global};

/// The text of a value. The only error is want of memory.
pub fn write_value(alloc: Global, value: &Value) -> Result<Vec<u8>, AllocError>
    ensures text { IfOk result (λ text. text.items ≡ value_text (value_tree value.now)) }
{
    let mut text = String::new(alloc);
    push_value(&mut text, value)?;
    Ok(text.into_bytes())
}

#[tactic(auto, using(crate::specs::Levels::value_levels))]
fn push_value(text: &mut String, value: &Value) -> Result<(), AllocError>
    ensures { OnOk result (string_bytes text.new ≡ string_bytes text.old ++ value_text (value_tree value.now)) }
{
    match value {
        Value::Word(word) => write!(text, "{word}"),
        Value::Bool(true) => text.push_str("true"),
        Value::Bool(false) => text.push_str("false"),
        Value::Loc(at) => push_place(text, *at),
        Value::Unit => text.push_str("()"),
        Value::Pair(first, second) => {
            text.push_str("(")?;
            push_value(text, first.get())?;
            text.push_str(", ")?;
            push_value(text, second.get())?;
            text.push_str(")")?;
            Ok(())
        }
    }
}

fn push_place(text: &mut String, at: u64) -> Result<(), AllocError>
    ensures { OnOk result (string_bytes text.new ≡ string_bytes text.old ++ place_text at) }
{
    match at {
        0 => text.push_str("null"),
        _ => write!(text, "place {at}"),
    }
}
