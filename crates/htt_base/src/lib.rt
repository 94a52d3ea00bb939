//! The outside of the program: files and a sink, each with the count of its faults, in memory and
//! over the runtime; and the status with which a command ends.
#![tactic(auto)]

mod mem_files;
mod mem_sink;
mod outside;
mod real_files;
mod real_sink;
mod status;

pub use mem_files::MemFiles;
pub use mem_sink::MemSink;
pub use outside::{Files, PutStop, ReadStop, Sink, WriteStop};
pub use real_files::RealFiles;
pub use real_sink::RealSink;
pub use status::Status;
