//! What no clause says: words and their forms, as a user types them.

use crate::{Command, read_words};
use std::alloc::{AllocError, Global};
use std::test::Fail;

/// Words, given as texts.
fn words_of(alloc: Global, texts: &[&str]) -> Result<Vec<String>, AllocError> {
    let mut words = Vec::new(alloc);
    for text in texts {
        words.push(String::from_str(alloc, text)?)?;
    }
    Ok(words)
}

#[test]
fn options_stand_after_the_names_in_their_order(rt: HostRuntime) -> Result<(), Fail> {
    let all = words_of(rt.alloc(), &["run", "C", "--heap", "H", "--steps", "5"])?;
    let command = Command::Run {
        code: "C",
        heap: Some("H"),
        steps: Some(5),
    };
    assert_eq!(rt; read_words(&all), Some(command));
    let turned = words_of(rt.alloc(), &["run", "C", "--steps", "5", "--heap", "H"])?;
    assert_eq!(rt; read_words(&turned), None);
    Ok(())
}

#[test]
fn a_number_of_steps_has_one_spelling(rt: HostRuntime) -> Result<(), Fail> {
    for (word, steps) in [
        ("1", Some(1)),
        ("1000000000", Some(1_000_000_000)),
        ("1000000001", None),
        ("0", None),
        ("010", None),
        ("+5", None),
        ("5 ", None),
        ("", None),
    ] {
        let words = words_of(rt.alloc(), &["run", "C", "--steps", word])?;
        let command = steps.map(|n| Command::Run {
            code: "C",
            heap: None,
            steps: Some(n),
        });
        assert_eq!(rt; read_words(&words), command, "{word}");
    }
    Ok(())
}
