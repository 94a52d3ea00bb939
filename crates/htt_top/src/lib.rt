//! The commands: from the words and the files to a status and the lines of the sink. Each command
//! goes through its stages in the order in which a refusal comes.
#![tactic(auto)]

mod command;
mod go;
mod laws;
mod read;
mod run;
mod text;

pub use command::htt_command;
pub use laws::heap_files_fit;

#[cfg(test)]
mod tests;
