//! The rows of a database, [`Rows`]: users, groups, profiles, classes and options, what an [`Edit`] does to them, and
//! the table of the fixed classes, beside which
//! there are dynamic ones.
//!
//! The definitions that tell what holds of the rows of every database, and what a state with listed copies is, stand
//! here for all crates above. IDs, levels and access list entries are those of `access_levels`, names of profiles
//! those of `generic_names`. Below `row_tables` rows are plain lists, and questions of them go through [`View`].
//!
//! ```
//! let rows = Rows::new_database(alloc)?;
//! let user = rows.user(ibmuser());
//! let kind = kind_in(FixedClass::Facility.id()); // NameKind::General
//! ```
#![tactic(auto)]

mod class_rows;
mod dynamic_classes;
mod edits;
mod fixed_classes;
mod groups;
mod known;
pub mod laws;
mod names;
mod options;
mod profiles;
mod rows;
mod users;
mod view;

pub use class_rows::{ClassRow, ClassRows, LogOption};
pub use dynamic_classes::{facts_in, traits_of};
pub use edits::{Change, Edit, Edits};
pub use fixed_classes::{
    CLASS_TABLE, ClassFacts, FixedClass, NameForm, class_facts, class_table, kind_in, kind_of_class,
};
pub use groups::{Group, Groups};
pub use known::{ibmuser, sys1};
pub use names::general_name;
pub use options::{CategoryNames, Options};
pub use profiles::{
    AuditRule, ClassTraits, CondEntries, Entries, Member, Members, Profile, Profiles,
};
pub use rows::Rows;
pub use users::{Classes, Connect, Connects, User, Users};
pub use view::View;

/// The answer of a call that got no memory.
pub type NoMemory = std::alloc::AllocError;
