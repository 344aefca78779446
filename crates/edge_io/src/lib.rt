//! Input and output. A shelf provides named files and a sink accepts bytes; both count their
//! faults, so the contract of a caller can state that an error is genuine. `take_all` reads a whole
//! file and `put_all` writes a whole piece. There are shelves and sinks in memory, whose contents
//! are observable, and over the files and streams of the operating system.
#![tactic(auto)]

mod begun;
mod dir_shelf;
mod error_sink;
mod fault_plan;
mod faults;
mod mem_shelf;
mod mem_sink;
mod put;
mod stored_files;
mod stream_sink;
mod take;
mod traits;

pub use dir_shelf::DirShelf;
pub use error_sink::ErrorSink;
pub use faults::{Failed, TakeFault, WriteFault};
pub use mem_shelf::MemShelf;
pub use mem_sink::MemSink;
pub use put::{put_all, put_pieces};
pub use stream_sink::StreamSink;
pub use take::take_all;
pub use traits::{Shelf, Sink};
