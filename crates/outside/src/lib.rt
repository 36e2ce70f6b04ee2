//! What lies outside the program: files, a stream that is read, a stream that is written, and a gate.
#![tactic(auto)]

mod disk_files;
mod fault;
mod files;
mod gate;
mod memory_files;
mod memory_sink;
mod memory_source;
mod sink;
mod source;
mod stdin_source;
mod stdout_sink;
mod sure_files;
mod sure_sink;
mod sure_source;
mod whole;

pub use disk_files::{DiskFiles, FileFailure};
pub use fault::{Failed, PutFault, TakeFault};
pub use files::{FILE_LIMIT, Files};
pub use gate::{Gate, OpenGate};
pub use memory_files::MemFiles;
pub use memory_sink::MemSink;
pub use memory_source::MemSource;
pub use sink::Sink;
pub use source::Source;
pub use stdin_source::StdinSource;
pub use stdout_sink::StdoutSink;
pub use sure_files::SureFiles;
pub use sure_sink::SureSink;
pub use sure_source::SureSource;
pub use whole::{read_whole, write_whole};

#[cfg(test)]
mod tests;
