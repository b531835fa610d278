// The outside as the compiler and the machine see it: an input that is read, an output that is
// written, and a tree of files. Each trait tells what it holds where that is known, and a count of
// faults that never falls: a call fails only where that count rose in the call, or stands at its end.
// `MemSource`, `MemSink` and `MemFolder` hold all in memory, tell all of it, and fail at the calls
// that a list names. `write_all` and `write_pieces` write whole texts to any sink.
// Assumed: nothing. Relied on above: the clauses of the three traits, and nothing of their types.
#![tactic(auto)]

mod calls;
mod files;
mod memory;
#[cfg(test)]
mod tests;
mod traits;
mod writing;

pub use files::{MemFile, MemFolder};
pub use memory::{MemSink, MemSource, Unread};
pub use traits::{Failed, Folder, FolderError, Sink, Source};
pub use writing::{write_all, write_pieces};
