//! The program: it makes the real files and the real sink, hands them with its words to the top
//! call, and ends with the code of the status that it answers.
#![tactic(auto)]

use htt_base::{RealFiles, RealSink, Status};
use htt_top::htt_command;
use htt_top_answers::{Refusal, print};
use std::env;
use std::io::{self, ErrorKind};
use std::process::ExitCode;

/// The words after the program's name.
fn words(rt: &HostRuntime) -> io::Result<Vec<String>> {
    let mut words = Vec::new(rt.alloc());
    for word in env::args(rt)?.skip(1) {
        words.push(word)?;
    }
    Ok(words)
}

/// What is done with the words. Words that are no text have no form; other failures to read them are
/// want of memory, which is printed here, since no command has begun.
fn status(rt: &HostRuntime) -> Status {
    let mut files = RealFiles::new(*rt);
    let mut out = RealSink::new(*rt);
    match words(rt) {
        Ok(words) => htt_command(rt.alloc(), &words, &mut files, &mut out),
        Err(error) => match error.kind() {
            ErrorKind::InvalidData => htt_command(rt.alloc(), &[], &mut files, &mut out),
            _ => print(rt.alloc(), &Err(Refusal::NoMemory), &mut out),
        },
    }
}

fn main(rt: HostRuntime) -> ExitCode {
    ExitCode::from(status(&rt).code())
}
