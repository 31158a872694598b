//! The table of commands, and the reader and the printer that go by it: a text is read as a command's positional words
//! and operands, and these are written as the canonical text.
//!
//! `Parts` is a command as the table sees it, with a value for each operand that was given. `Verb` has the rows of the
//! table. The values are those of `command_values`, and `command_parser` makes of `Parts` a struct with named fields.
//!
//! ```text
//! let parts = read(alloc, &Context { issuer: joe }, b"ALG PAYROLL OWN(MARY)")?;
//! printed(alloc, &parts)?; // ALTGROUP PAYROLL OWNER(MARY)
//! ```
#![tactic(auto)]

mod closing;
pub mod laws;
mod operand_rows;
mod operands;
mod printing;
mod profile_table;
mod reading;
mod setropts_table;
mod table;

pub use printing::printed;
pub use reading::{LONGEST, Parts, read};
pub use table::{Needed, Operand, Position, Verb};
