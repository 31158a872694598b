//! The grammar of commands, both ways: `parse` reads a `Command` from its text, and `print` writes its canonical text.
//!
//! `CommandFields` says which command it is, with a field for each of its operands; it is the type of `command_fields`,
//! handed on here. The table of commands, their reader and their printer stand in `command_grammar`, and the values of
//! operands in `command_values`.
//!
//! ```text
//! let command = parse(alloc, joe, b"ALG PAYROLL OWNER(MARY)")?;
//! match command.fields() {
//!     CommandFields::AltGroup(alter) => change_owner(alter.group, alter.owner),
//!     _ => ..
//! }
//! print(&command, &mut journal)?; // ALTGROUP PAYROLL OWNER(MARY)
//! ```
#![tactic(auto)]

mod commands;
mod convert;
mod convert_options;
mod convert_profiles;
mod convert_users;
pub mod laws;
mod slots;

pub use command_fields::{
    AddGroup, AddSd, AddUser, AltGroup, AltSd, AltUser, CommandFields, Connect, DelGroup, DelSd,
    DelUser, Ids, Issuer, LogClause, LogClauses, MemberNames, Permit, RAlter, RDefine, RDelete,
    Remove, Reset, SetRopts, Whos,
};
pub use command_values::{ParseFault, Syntax, Word};
pub use commands::{Command, NoMemory, parse, print, printed_is_read};
