//! The outside: where files are fetched from, where text is put, and what is wrong with a file's
//! content; and files as lines, and what every reader of a file gives, its value or the first fault. In
//! memory shelf and sink are exact; over the machine only the count of faults is known. Start from
//! `Shelf`, `Sink`, `FileFault` and `cut_line`.
#![tactic(auto)]

mod calls;
mod difference;
mod faults;
mod file_fault;
mod folder_shelf;
mod laws;
mod lines;
mod mark;
mod memory_shelf;
mod memory_sink;
mod out_sink;
mod ports;

pub use difference::Difference;
pub use faults::fault;
pub use file_fault::{FileError, FileFault, FileKind};
pub use folder_shelf::FolderShelf;
pub use laws::{faults_join, lines_begin_anew};
pub use lines::cut_line;
pub use mark::MARK;
pub use memory_shelf::MemoryShelf;
pub use memory_sink::MemorySink;
pub use out_sink::OutSink;
pub use ports::{Shelf, ShelfError, Sink, SinkError};
