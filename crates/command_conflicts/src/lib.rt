//! What a command conflicts with: [`check_command`] gives the first conflict of a command with the rows of a database.
//!
//! The rows are those of `row_tables`, commands the fields of `command_fields`. The conflicts, and what a command makes
//! of the rows, are defined in `command_rules`: limits are met where the rows that it would make pass them. No row is
//! made to find that out.
//!
//! ```
//! match check_command(&tables, &issuer, command.fields()) {
//!     Ok(()) => {}
//!     Err(conflict) => report(conflict.number()),
//! }
//! ```
#![tactic(auto)]

mod check;
mod limits;

pub use check::check_command;
