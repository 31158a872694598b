//! The values of commands' operands: the words that operands go by, the kinds of their values, how each kind is read
//! and how it is written.
//!
//! A `Content` is a value that was read. `value` reads what stands in an operand's parentheses, `one` the word of a
//! positional place, `bare` an operand alone; each answers the value or the first fault. `push_content` writes it. What
//! a value may depend on beside its text, the issuer and the class and the profile in front, is a `Scope`. The words
//! come from `command_words`, the lists that are handed on from `command_fields`, and `command_grammar` says which operand
//! takes which kind.
//!
//! ```text
//! let level = value(alloc, &scope, ValueKind::Level, place, Tokens::new(b"read"))?;
//! push_content(&mut out, &level)?; // READ
//! ```
#![tactic(auto)]

mod audits;
mod entries;
mod faults;
mod log_options;
mod members;
mod named_words;
mod operand_words;
mod profile_names;
mod value_kinds;
mod value_printing;
mod value_reading;
mod value_words;
mod values;

pub use command_fields::{Ids, LogClause, LogClauses, MemberNames, Reset, Whos};
pub use faults::{ParseFault, Syntax};
pub use named_words::{group_named, id_named, level_named, port_class_named};
pub use operand_words::{Word, is_same};
pub use profile_names::{any_named, is_unclosed};
pub use value_kinds::ValueKind;
pub use value_printing::push_content;
pub use value_reading::{bare, one, value};
pub use value_words::{clean, held, unless_stray};
pub use values::{Content, Context, Known, ProfileName, Scope};
