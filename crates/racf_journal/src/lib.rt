//! The journal on a disk: records behind gates, and what every crash leaves of them.
//!
//! A [`Journal`] keeps records on a `Disk` of `racf_outside`: as its whole file, or as the end of one.
//! [`Journal::append`] returns once a record stays whatever happens; until then a crash leaves the records as they
//! were, or with that one behind them. [`Journal::open`] reads them again, and makes good what a crash left of the last
//! append. It is two calls, for a caller that judges the records in between: [`Journal::find`] leaves the disk as it
//! is, and [`FoundJournal::open`] makes its end good. What a record says is the caller's: here it is four bytes, which
//! tell the length of the rest, and that rest.
//!
//! ```
//! let mut journal = Journal::format(disk)?;
//! if journal.fits(record.len() as u64) {
//!     journal.append(alloc, &record)?;                       // from here on every crash keeps it
//! }
//! let found = Journal::find(alloc, journal.into_disk(), 8)?;
//! let (journal, records) = found.open()?;                    // where found.records() are what they should be
//! ```
#![tactic(auto)]

mod fault;
mod found;
mod gates;
mod journal;
mod laws;
mod layout;
mod reading;
mod repair;
mod scan;
mod writing;

pub use fault::JournalFault;
pub use found::FoundJournal;
pub use journal::Journal;
pub use laws::{
    cutting_changes_no_reading, resting_reads_as_its_records, rewriting_the_gate_changes_no_reading,
};
pub use layout::MOST_BYTES;
pub use reading::{read_from, read_front};
pub use scan::{FoundRecords, read_records};
