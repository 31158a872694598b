//! The outside of the security manager: sources that bytes come from, sinks that bytes go to, the shelf of named inputs
//! and outputs, the lines of an input, disks and clocks. Each object counts its faults, and a call fails only where the
//! count of its object rose.
//!
//! The principal type is `Shelf`: `MemoryShelf` is that of an embedder or a test, which tells what was written.
//! `racf_run` works a stream between an input and an output of any. Who embeds a shelf of another kind counts its faults
//! in `Faults`, and lends its outputs by `Outputs`.
//!
//! A `Disk` outlives the program: `MemoryDisk` is one in memory, which tells what a read gives and what a crash may
//! leave at each moment, and `ReadOnlyDisk` one that takes no write. A `Clock` says what moment it is: `Steady` gives
//! one number alone.
//!
//! The shelf of real files, the disk that is a real file and the real clock are adapters, and lie in the crate
//! `racf_files`.
//!
//! ```text
//! let mut shelf = MemoryShelf::new(alloc, failing);
//! shelf.put("IN", bytes, Vec::new(alloc))?;
//! let (status, disks) = racf(rt, alloc, &words, &mut shelf, disks, &gate);
//! let written = shelf.output("OUT");
//! ```
#![tactic(auto)]

mod blocks;
mod calls;
mod clock;
mod disk;
mod faults;
pub mod laws;
mod line_buffer;
mod lines;
mod memory;
mod memory_disk;
mod memory_shelf;
mod never_disk;
mod outputs;
mod read_only_disk;
mod scanner;
mod shelf;
mod streams;

pub use clock::{Clock, Steady};
pub use disk::{Disk, Two};
pub use faults::Faults;
pub use lines::{Line, LineFault, Lines};
pub use memory::{MemorySink, MemorySource, NeverSink, NeverSource};
pub use memory_disk::MemoryDisk;
pub use memory_shelf::{Failing, MemoryShelf};
pub use never_disk::NeverDisk;
pub use outputs::Outputs;
pub use read_only_disk::ReadOnlyDisk;
pub use shelf::Shelf;
pub use streams::{Failed, Sink, Source};
