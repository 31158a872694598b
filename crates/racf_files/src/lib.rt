//! The outside as it is: real files, standard input and standard output, as what `racf_outside` asks for. Nothing of it
//! tells what it holds: all that is proved here is that it is safe, and that a call fails only where it counts a fault.
//!
//! `FileShelf` opens the named inputs and outputs of a run, and keeps why one couldn't be opened, read or written.
//! `FileDisk` is a file of a database, `open_both` opens the two, and `read_both` reads them where nothing is to be
//! written. `occupy_standard_streams` comes before all of these: no file of a database takes the place of a standard
//! stream that is closed.
//!
//! ```text
//! occupy_standard_streams(&rt, rt.stdin(), rt.stdout(), rt.stderr())?;
//! let disks = open_both(alloc, &rt, ["racf.db1", "racf.db2"])?;
//! let mut shelf = FileShelf::new(alloc, rt.clone()?);
//! shelf.guard_disk("racf.db1", disks.first.identity())?;
//! shelf.plan(Some("IN"), Some("OUT"))?;
//! let (status, disks) = racf(&rt, alloc, words, &mut shelf, disks, &Idle);
//! ```
#![tactic(auto)]

mod clock;
mod dialogue;
mod file_at;
mod file_disk;
mod file_identity;
mod file_shelf;
mod file_sink;
mod file_source;
mod guard;
mod lost_mark;
mod open_files;
mod opening;
mod paths;
mod planned;
mod progress;
mod read_alone;
mod reasons;
mod size_bound;
mod standard;

pub use clock::RealClock;
pub use file_disk::{FileDisk, open_both};
pub use file_identity::{FileIdentity, identity_at};
pub use file_shelf::FileShelf;
pub use file_sink::FileSink;
pub use file_source::FileSource;
pub use lost_mark::LOST;
pub use planned::{Role, Trouble};
pub use progress::{Phase, Progress};
pub use read_alone::{ReadAlone, read_both};
pub use reasons::{DatabaseFile, DiskTrouble, Reason};
pub use size_bound::has_room_for_message;
pub use standard::occupy_standard_streams;
