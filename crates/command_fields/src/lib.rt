//! The fields of commands: one type a command, with a field for each of its operands, and which of them a text may
//! spell.
//!
//! `CommandFields` says which command it is, RDEFINE and RALTER in class CDT apart from those in other classes; `Issuer` says who gives it, and what it takes from him where it names no
//! group. The lists that fields hold are `Ids`, `Whos`, `MemberNames` and `LogClauses`. What is lawful of fields,
//! `AreLawfulFields`, stands here too, for whoever works with commands and reads no text. `command_values` reads the
//! values, `command_grammar` the words of a command, and `command_parser` makes its fields of them.
//!
//! ```text
//! let fields = CommandFields::AltGroup(AltGroup { group: payroll, supgroup: None, owner: Some(mary) });
//! let issuer = Issuer::new(joe, staff).unwrap();
//! issuer.group_or_current(None); // STAFF
//! ```
#![tactic(auto)]

mod class_fields;
mod fields;
mod issuer;
mod lists;
mod log_clauses;
mod member_form;
mod option_fields;
mod profile_fields;
mod resets;

pub use class_fields::{AlterClass, ClassNames, DefineClass, cdt, is_cdt};
pub use fields::{
    AddGroup, AddUser, AltGroup, AltUser, CommandFields, Connect, DelGroup, DelUser, Remove,
};
pub use issuer::Issuer;
pub use lists::{Ids, MemberNames, Whos};
pub use log_clauses::{LogClause, LogClauses};
pub use member_form::MemberForm;
pub use option_fields::SetRopts;
pub use profile_fields::{AddSd, AltSd, DelSd, Permit, RAlter, RDefine, RDelete};
pub use resets::Reset;
