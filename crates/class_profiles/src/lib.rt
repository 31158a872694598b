//! The profiles of each class, [`ClassTables`], and of one class, [`ProfileTable`]; and [`SharedProfiles`], those of
//! one class in a table that doesn't change, whose changed versions share what they have in common.
//!
//! Rows are those of `racf_profiles`, and the order of profiles is kept by `profile_index`. The tables of a database
//! hold the classes; an image has a table for each class.
//!
//! ```
//! let mut tables = ClassTables::new(alloc)?;
//! tables.reserve(class, 1)?;
//! tables.put(class, profile);
//! let found = tables.profile(class, &name);
//! ```
#![tactic(auto)]

mod class_table;
mod class_tables;
pub mod laws;
mod limits;
mod shared_profiles;
mod table;

pub use class_table::ClassTable;
pub use class_tables::ClassTables;
pub use limits::{MOST_CLASS_PROFILES, MOST_ENTRIES_IN_ALL, MOST_PROFILES};
pub use profile_index::Made;
pub use racf_profiles::NoMemory;
pub use shared_profiles::SharedProfiles;
pub use table::ProfileTable;
