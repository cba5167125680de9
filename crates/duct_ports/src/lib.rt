//! The outside of the program: files to read and a sink to write, on disk, on the standard output
//! or in memory, and a gate for workers.
//!
//! Lengths are in bytes. Each source and each sink counts its faults, and answers one only where
//! its count rose in that call or stands at `u64::MAX`.
#![tactic(auto)]

mod calls;
mod disk;
mod files;
mod gate;
mod held;
pub mod laws;
mod memory_files;
mod memory_sink;
mod names;
mod read;
mod sink;
mod standard_output;
mod sure;
mod write;

pub use disk::DiskFiles;
pub use files::{FileFault, Files, MAX_NAMES};
pub use gate::{Gate, OpenGate};
pub use held::HeldFile;
pub use memory_files::MemoryFiles;
pub use memory_sink::MemorySink;
pub use names::Names;
pub use read::{BUFFER_BYTES, MAX_FILE_BYTES, TakeError, read_all};
pub use sink::{Sink, SinkFault};
pub use standard_output::StdSink;
pub use sure::{SureFiles, SureSink};
pub use write::{WriteFault, write_all};

#[cfg(test)]
mod tests;
