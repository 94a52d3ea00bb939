//! How values are kept as words: how many words a monotype takes, the words of a value, and the value
//! of words.

ghost use Rattle.std.specs.Prelude.{◌≡◌, ◌++◌, ◌<◌, ◌≤◌, ◌^◌, option_map, IfOk, OnOk};
ghost use Rattle.htt_syntax.specs.Views.{mono_tree};
ghost use Rattle.theory_values.specs.Values.{IsClosed, width, encoding, value_of_words};
ghost use Rattle.heap_model.specs.Views.{value_tree};
ghost use Rattle.theory_counts.specs.Nodes.{nodes_mono};

use crate::decoding::front_of;
use crate::value::Value;
use htt_syntax::Mono;
use std::alloc::{AllocError, Global};

/// How many words a value of the monotype takes. It takes no memory.
#[tactic(auto, using(crate::proofs::WidthLemmas::width_small))]
pub fn width(t: &Mono) -> u64
    requires closed { IsClosed (mono_tree t.now) }
    requires small { nodes_mono (mono_tree t.now) ≤ 64 }
    ensures width { result ≡ width (mono_tree t.now) }
{
    saturated_width(t)
}

/// The width of a monotype, where it is below 2^64.
#[tactic(auto, using(htt_syntax::specs::Levels::mono_levels))]
fn saturated_width(t: &Mono) -> u64
    ensures { width (mono_tree t.now) < 2 ^ 64 → result ≡ width (mono_tree t.now) }
{
    match t {
        Mono::Word | Mono::Bool | Mono::Loc => 1,
        Mono::Unit | Mono::Var(_) => 0,
        Mono::Pair(first, second) => {
            saturated_width(first.get()).saturating_add(saturated_width(second.get()))
        }
    }
}

/// The words of a value. The only error is want of memory.
pub fn encode(alloc: Global, value: &Value) -> Result<Vec<u64>, AllocError>
    ensures words { IfOk result (λ words. words.items ≡ encoding (value_tree value.now)) }
{
    let mut words = Vec::new(alloc);
    push_words(&mut words, value)?;
    Ok(words)
}

#[tactic(auto, using(crate::specs::Levels::value_levels))]
fn push_words(words: &mut Vec<u64>, value: &Value) -> Result<(), AllocError>
    ensures { OnOk result (words.new.items ≡ words.old.items ++ encoding (value_tree value.now)) }
{
    match value {
        Value::Word(word) => words.push(*word)?,
        Value::Bool(truth) => words.push(u64::from(*truth))?,
        Value::Loc(at) => words.push(*at)?,
        Value::Unit => {}
        Value::Pair(first, second) => {
            push_words(words, first.get())?;
            push_words(words, second.get())?;
        }
    }
    Ok(())
}

/// The value of the monotype that has these words, if there is one: a monotype with a variable has
/// no value. The only error is want of memory.
pub fn decode(alloc: Global, t: &Mono, words: &[u64]) -> Result<Option<Value>, AllocError>
    ensures value { IfOk result (λ v. option_map value_tree v ≡ value_of_words (mono_tree t.now) words.now) }
{
    let Some(front) = front_of(alloc, t, words)? else {
        return Ok(None);
    };
    if front.len < words.len() {
        return Ok(None);
    }
    Ok(Some(front.value))
}
