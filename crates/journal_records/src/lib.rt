//! Records of the journal: a command with its issuer as bytes, and back.
//!
//! A [`CommandRecord`] is what the journal keeps of an accepted command: the command, and the issuer with his current
//! group. [`write`] appends its bytes, and [`read`] gives the record that the bytes spell, or their first fault. Every
//! record has one spelling. Commands and their canonical texts are those of `command_parser`.
//!
//! ```
//! let command = parse(alloc, issuer.id, b"AU JOE")?;
//! let mut bytes = Vec::new(alloc);
//! write(&CommandRecord { issuer, command }, &mut bytes)?;     // X'0000001B', IBMUSER, SYS1, ADDUSER JOE
//! let record = read(alloc, &bytes)?;                          // the same issuer and command
//! ```
#![tactic(auto)]

mod fields;
pub mod laws;
mod reading;
mod record;
mod writing;

pub use reading::read;
pub use record::{CommandRecord, RecordFault};
pub use writing::write;
