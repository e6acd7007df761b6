//! What mtcc reads and writes: files by their names, a source of bytes and a sink of bytes, each in memory or of the host.
#![tactic(auto)]

mod calls;
mod files;
mod host_files;
mod mem_files;
mod mem_sink;
mod mem_source;
mod sink;
mod source;
mod std_sink;
mod std_source;

pub use files::{Files, ReadAnswer, WriteAnswer};
pub use host_files::HostFiles;
pub use mem_files::{MemFile, MemFiles};
pub use mem_sink::MemSink;
pub use mem_source::MemSource;
pub use sink::{PutAnswer, Sink};
pub use source::{NextAnswer, Source};
pub use std_sink::StdSink;
pub use std_source::StdSource;
