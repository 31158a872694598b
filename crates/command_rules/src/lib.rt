//! What each command makes of the rows and what it conflicts with, as definitions, and the questions on rows that both
//! ask.
//!
//! The definitions are `step` and its parts, `edits_of`, and `conflict_of` with its kinds, of which [`Conflict`] is the
//! type. `command_effects` makes the edits and `command_conflicts` finds the conflict, and both count here: the members,
//! categories and entries that there are after a command, the levels, categories and labels by the live profiles.
//! Commands are the fields of `command_fields`, the rows those of `row_tables`.
//!
//! ```
//! match level_number(&tables, name) {
//!     Some(number) => number,
//!     None => return Err(Conflict::UnknownName(name)),
//! }
//! ```
#![tactic(auto)]

mod conflict;
pub mod laws;
mod members;
mod parts;
mod permit;
mod security;

pub use conflict::{Conflict, Holder, Limit, Named};
pub use members::{categories_count, is_member_named, is_named_in, member_name, members_count};
pub use parts::{
    altered_group, attributes_after, dataset, deleted_class, named_class, new_group,
    owner_or_issuer, switched,
};
pub use permit::{conditional_count, conditional_reset, standard_count, standard_reset};
pub use security::{category_number, is_category, is_label, level_number, was_category};
