//! The edge to the outside: what the program reads, writes and counts.
//!
//! A [`Shelf`] holds named files, a [`Sink`] takes the bytes that are printed, and [`Steps`] counts steps for proofs alone. Each
//! of the first two is a trait with one meaning, a record of what it holds and of how many faults it has counted, and a
//! [`History`] of the calls that came to it. Callers are generic over them, so that they are proved once: for the objects in
//! memory, which tell their bytes, and for a real folder and standard output, which do not. [`Calls`] says which calls of
//! an object in memory fail.
//!
//! The contract that the crates above use: a read gives the file, `Missing` or `TooLong` by the files; [`put_all`]
//! appends all bytes or a prefix, and each put is given all that is left; `Failed` comes only where a count of that
//! object rose, and every other answer leaves the counts as they were; each call is noted, whatever it answers, and a read with
//! what it answered.
//!
//! `desk_run` shows a use, in `src/reading.rt` and `src/carrying.rt`.
//!
//! The contracts cite `Faults` (when a count rose), `History` (which calls came, and what reads and loads answered), `Calls` (which calls are listed to fail),
//! `Shelf` (what a shelf holds, and what reads and writes do to it), `Sink` (what a sink has taken), `MemoryShelf` and
//! `MemorySink` (the objects in memory), `FolderShelf` and `OutSink` (a real folder and standard output).
#![tactic(auto)]

mod calls;
mod folder_shelf;
mod history;
mod memory;
mod memory_shelf;
mod memory_sink;
mod out_sink;
mod request;
mod shelf;
mod sink;
mod steps;
mod system;
mod system_call;
mod text;
mod trace;
mod whole_files;

pub use calls::Calls;
pub use folder_shelf::FolderShelf;
pub use history::History;
pub use memory::Memory;
pub use memory_shelf::MemoryShelf;
pub use memory_sink::MemorySink;
pub use out_sink::OutSink;
pub use request::{LoadAnswer, Request};
pub use shelf::{Found, Shelf, ShelfFault};
pub use sink::{Sink, SinkFault, put_all};
pub use steps::Steps;
pub use system::{Host, System};
pub use system_call::{Refusal, SystemCall};
pub use text::{Bytes, Text};
pub use trace::Trace;
