//! The image of a database: its rows as bytes, and back.
//!
//! An image is what a disk keeps of the rows of a database: numbers, identifiers, names and lists of them, one behind
//! another. [`write`] gives the image of rows, and [`read`] the rows of an image, or the place of its first fault: the
//! first field that has no lawful value, and where each has one the first whose fact about others doesn't hold, as that
//! a group is there. [`read_fields`] tests each field by itself and no such fact. [`stored_copy`] judges rows that are
//! at hand: it gives a copy of rows that an image may hold, and of others the place of the first field that isn't
//! lawful. What the fields are, and what is lawful in each, stands once, in `Description` of `specs/`, and the facts in
//! `Facts`; the laws say that what is written is read as the same rows, and what is read is written as the same bytes.
//!
//! Some rows have no image, and their bytes would mislead: a list longer than its count's field has room for, a name of
//! another class's kind. So rows are judged by their bytes before the first such field (`Misleading` of `specs/`).
//!
//! Rows and names are those of `racf_profiles`, `access_levels` and `generic_names`; disks, and which image on them
//! counts, are no matter of this crate.
//!
//! ```
//! let rows = Rows::new_database(alloc)?;
//! let image = write(alloc, &rows)?;           // 327 bytes
//! let again = read(alloc, &image)?;           // the same rows
//! let fault = read(alloc, &[8]);              // Err(ImageFault::BadField(0)): there is no such option
//! let copy = stored_copy(alloc, &rows)?;      // the same rows
//! ```
#![tactic(auto)]

mod between;
mod categories;
mod classes;
mod cycles;
mod entries;
mod faults;
mod fields;
mod index;
mod judging;
pub mod laws;
mod left;
mod members;
mod misleading;
mod names;
mod profiles;
mod putting;
mod reading;
mod users;
mod widths;
mod writing;

pub use faults::ImageFault;
pub use judging::stored_copy;
pub use reading::{read, read_fields};
pub use writing::write;
