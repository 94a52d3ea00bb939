//! The decoder's walk over a monotype. Each part takes its words from the front of those that the
//! parts before it left.

ghost use Rattle.std.specs.Prelude.{◌≡◌, IfOk};
ghost use Rattle.htt_syntax.specs.Trees.{m_word, m_bool, m_loc};
ghost use Rattle.htt_syntax.specs.Views.{mono_tree};
ghost use Rattle.theory_values.specs.Values.{v_pair};
ghost use Rattle.heap_model.specs.Fronts.{IsFront};
ghost use Rattle.heap_model.specs.Views.{value_tree};

use crate::front::Front;
use crate::value::Value;
use htt_syntax::Mono;
use sqlite_items::Boxed;
use std::alloc::{AllocError, Global};

/// The value of the monotype at the front of the words, if one stands there.
pub(crate) fn front_of(alloc: Global, t: &Mono, words: &[u64]) -> Result<Option<Front>, AllocError>
    ensures front { IfOk result (IsFront (mono_tree t.now) words.now) }
{
    match t {
        Mono::Word => Ok(word_front(words)),
        Mono::Bool => Ok(bool_front(words)),
        Mono::Loc => Ok(place_front(words)),
        Mono::Unit => Ok(Some(Front {
            value: Value::Unit,
            len: 0,
        })),
        Mono::Pair(first, second) => {
            let Some(left) = front_of(alloc, first.get(), words)? else {
                return Ok(None);
            };
            let Some(right) = front_of(alloc, second.get(), &words[left.len..])? else {
                return Ok(None);
            };
            let len = left.len + right.len;
            let value = pair(alloc, left.value, right.value)?;
            Ok(Some(Front { value, len }))
        }
        Mono::Var(_) => Ok(None),
    }
}

fn word_front(words: &[u64]) -> Option<Front>
    ensures { IsFront m_word words.now result }
{
    if words.is_empty() {
        return None;
    }
    let word = words[0];
    Some(Front {
        value: Value::Word(word),
        len: 1,
    })
}

fn bool_front(words: &[u64]) -> Option<Front>
    ensures { IsFront m_bool words.now result }
{
    if words.is_empty() || words[0] > 1 {
        return None;
    }
    let truth = words[0] == 1;
    Some(Front {
        value: Value::Bool(truth),
        len: 1,
    })
}

fn place_front(words: &[u64]) -> Option<Front>
    ensures { IsFront m_loc words.now result }
{
    if words.is_empty() {
        return None;
    }
    let at = words[0];
    Some(Front {
        value: Value::Loc(at),
        len: 1,
    })
}

#[tactic(auto, using(crate::specs::Levels::value_levels))]
fn pair(alloc: Global, first: Value, second: Value) -> Result<Value, AllocError>
    ensures { IfOk result (λ v. value_tree v ≡ v_pair (value_tree first) (value_tree second)) }
{
    let first = Boxed::new(alloc, first)?;
    let second = Boxed::new(alloc, second)?;
    Ok(Value::Pair(first, second))
}
