//! The edits that a command makes of the rows: [`edits_of`].
//!
//! What a command makes of the rows is defined in `command_rules`. Commands are the fields of `command_fields`, the
//! rows those of `row_tables`, which makes the edits. Whether the rows allow a command is told by `command_conflicts`.
//!
//! ```
//! let edits = edits_of(alloc, &tables, &issuer, command.fields())?;
//! ```
#![tactic(auto)]

mod edits;
mod made;

pub use edits::edits_of;
