//! Sources, files, sinks and lines, each with a written meaning.
#![tactic(auto)]

mod adapters;
mod calls;
mod files;
mod host_files;
mod lines;
mod mem_files;
mod mem_sink;
mod mem_source;
mod sink;
mod source;

pub use adapters::{HostSink, HostSource};
pub use files::{Files, Opened};
pub use host_files::HostFiles;
pub use lines::{Lines, Next};
pub use mem_files::{MemFiles, SureFiles};
pub use mem_sink::MemSink;
pub use mem_source::{MemSource, SureSource};
pub use sink::{Put, Sink, put_all};
pub use source::{Got, Source};

/// Memory that was asked for isn't there.
pub type NoMemory = std::alloc::AllocError;
