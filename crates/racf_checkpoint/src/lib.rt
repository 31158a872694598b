//! The store on two disks: a checkpoint, the records since, and what every crash leaves of them.
//!
//! A [`Store`] keeps the rows of a database and the records of the commands since, on a pair of disks in turn. The one
//! that counts has a checkpoint, the image of the rows, and behind it a journal; [`Store::append`] returns once a
//! record stays there whatever happens. [`Store::compact`] writes a new checkpoint on the other disk, which counts from
//! then on, with no record behind it. [`Store::load`] gives the rows and the records again. For a caller that judges
//! the records first, [`Store::find`] reads them and only syncs the disks, and [`FoundStore::open`] makes a store of
//! them. What two files say is told by `checkpoint_disks`, the journal is that of `racf_journal`, the rows are those of
//! `racf_profiles`.
//!
//! ```
//! let mut store = Store::format(alloc, disks)?;
//! if store.fits(record.len() as u64) {
//!     store.append(alloc, &record)?;                         // from here on every crash keeps it
//! }
//! store.compact(alloc, number, &rows)?;                      // the rows that the records led to, and their number
//! let Loaded { store, rows, records, .. } = Store::load(alloc, store.into_disks())?;
//! ```
#![tactic(auto)]

mod fault;
mod formatting;
mod found;
mod laws;
mod reading;
mod sides;
mod store;

pub use fault::StoreFault;
pub use found::FoundStore;
pub use laws::{a_new_database_is_stored, what_is_stored_is_said, what_was_possible_is_said};
pub use store::{Loaded, Store};
