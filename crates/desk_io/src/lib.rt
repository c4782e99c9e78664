//! The outside: where bytes come from and go to, in memory and through the system, with the count
//! of failed calls that shows the cause of each failure.
#![tactic(auto)]

mod gathered;
mod memory_folder;
mod memory_sink;
mod memory_source;
mod outside;
mod pieces;
mod real;
mod script;
mod texts;
mod whole;

pub use gathered::Gathered;
pub use memory_folder::MemoryFolder;
pub use memory_sink::MemorySink;
pub use memory_source::MemorySource;
pub use outside::{Begin, Counted, Failed, Folder, Sink, Source};
pub use real::{RealFolder, RealStream};
pub use texts::{Blob, Name};
pub use whole::{ReadAll, WriteFault, read_all, write_all};
