//! Input and output: where files come from and where text goes, in memory and in the system.
#![tactic(auto)]

mod append;
mod count;
mod file_shelf;
mod held;
mod memory_shelf;
mod memory_sink;
mod shelf;
mod sink;
mod std_sink;
mod sure_shelf;
mod sure_sink;

pub use file_shelf::FileShelf;
pub use held::Held;
pub use memory_shelf::MemoryShelf;
pub use memory_sink::{FailPut, MemorySink};
pub use shelf::{Shelf, ShelfFault};
pub use sink::{Sink, SinkFault};
pub use std_sink::StdSink;
pub use sure_shelf::SureShelf;
pub use sure_sink::SureSink;
