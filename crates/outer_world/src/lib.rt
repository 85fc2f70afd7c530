//! Where texts come from and where they go: files and standard output, and both in memory for
//! tests and proofs.
#![tactic(auto)]

mod file_shelf;
mod memory_shelf;
mod memory_sink;
mod named_text;
mod open_bytes;
mod planned_faults;
mod read;
mod shelf;
mod short_name;
mod sink;
mod stdout_sink;
mod sure_shelf;
mod sure_sink;
mod write;

pub use file_shelf::FileShelf;
pub use memory_shelf::MemoryShelf;
pub use memory_sink::MemorySink;
pub use named_text::{Bytes, NamedText};
pub use read::{MOST_BYTES, ReadEnd, read_text};
pub use shelf::{MOST_SHELF_NAME_BYTES, Opening, Reading, Shelf};
pub use sink::{Sink, Writing};
pub use stdout_sink::StdoutSink;
pub use sure_shelf::SureShelf;
pub use sure_sink::SureSink;
pub use write::{WriteEnd, write_text};
