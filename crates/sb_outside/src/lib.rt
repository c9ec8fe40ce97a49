//! The outside of the program as traits: where bytes come from, where they go to, and files.
//!
//! Each object has a count of faults, and tells its content or does not. There are objects in memory,
//! which tell all, and adapters of the system's streams and files, which tell nothing: what a real file
//! or terminal gives or takes no clause can know. Of a source that tells nothing `specs/Rest` says what
//! it may give: any bytes, or none once its end was met.
#![tactic(auto)]

mod files;
mod host;
pub mod laws;
mod memory_files;
mod memory_sink;
mod memory_source;
mod sink;
mod source;

pub use files::{FileFault, Files};
pub use host::{HostFiles, StdSink, StdSource, read_at_most};
pub use memory_files::MemFiles;
pub use memory_sink::MemSink;
pub use memory_source::MemSource;
pub use sink::Sink;
pub use source::{Failed, Source};
