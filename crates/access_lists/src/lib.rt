//! Access lists: what PERMIT does to one, and which of its entries counts for a user and his groups.
//!
//! [`permit`] and [`withdraw`] change a list, and [`answer`] says what it gives to a user: his own entry, without one
//! the highest of his groups', without both that of `*`. The same is there for conditional lists, whose entries count
//! under a port of entry. `racf_profiles` has the profiles whose lists these are, and `decision` asks them.
//!
//! ```
//! permit(&mut list, Entry { who: Who::Named(pay), level: Level::Update })?;
//! let found = answer(list.as_slice(), ann, &[pay], false);     // Found::Group(pay, Level::Update)
//! ```
#![tactic(auto)]

mod answers;
mod best;
mod edits;
pub mod laws;
mod places;

pub use answers::{Found, answer, answer_when};
pub use edits::{
    ListFault, MOST_ENTRIES, is_for_under, is_same_port, is_same_who, permit, permit_when,
    withdraw, withdraw_when,
};
