//! A checkpoint on a pair of disks: the rows of a database, their number, and the records since.
//!
//! Each of the two files has room for a checkpoint, and one of them counts. [`side_that_counts`] tells which, by the
//! first bytes of both, and [`read_file`] reads a [`Checkpoint`] of a file's bytes, or its first fault; [`read_pair`] is
//! both. A file of more than 2^28 bytes is damaged.
//! [`compact`] writes new rows on the disk that doesn't count: at every moment a crash leaves a pair that says what it
//! said, or the new rows. It is [`prepare`], which takes all memory, and [`write`]. [`make_bare`] makes a file one
//! without a checkpoint. Disks are those of `racf_outside`, the image of the rows is that of `database_image`, and the
//! records behind it are a journal of `racf_journal`.
//!
//! ```
//! let (side, checkpoint) = read_pair(alloc, &first, &second)?;        // the bytes of both files
//! compact(alloc, &mut idle, checkpoint.epoch + 1, number, &rows)?;    // `idle` is the other disk
//! ```
#![tactic(auto)]

mod baring;
mod compacting;
mod counting;
mod fault;
mod heads;
pub mod laws;
mod layout;
mod reading;
mod writing;

pub use baring::{first_to_go, make_bare};
pub use compacting::{NewCheckpoint, compact, prepare, write};
pub use counting::{Side, TELLING, file_on, read_pair, side_that_counts, which};
pub use fault::CheckpointFault;
pub use reading::{Checkpoint, read_file};
