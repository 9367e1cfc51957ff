//! Where bytes come from and where they go: sources and sinks, which count their faults.
//!
//! A caller blames a fault on the outside only where the count of faults has risen.
#![tactic(auto)]

mod counted;
mod failed;
mod memory_sink;
mod memory_source;
mod read;
mod reader;
mod sink;
mod source;
mod write;
mod writer;

pub use failed::Failed;
pub use memory_sink::MemSink;
pub use memory_source::MemSource;
pub use read::{READ_SIZE, ReadAll, read_all};
pub use reader::ReaderSource;
pub use sink::Sink;
pub use source::Source;
pub use write::{PUT_SIZE, put_all};
pub use writer::WriterSink;
