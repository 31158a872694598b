//! The rules of a desk: what it may answer, where it stands behind a command, and what its disks stand for.
//!
//! A [`Refusal`] says why a command is refused, and [`Refusal::write`] has its words; a [`Ready`] is what is made of
//! one that is accepted, a [`Reply`] what its issuer is told. The definitions say the rest: `outcome` has the tests of
//! a command in their order, a `Position` is the number of accepted commands, the state that they led to and the place
//! of the journal's last gate, `standing` is what the files of two disks stand for, and a history the list of the
//! commands that led somewhere. [`laws`] has what is true of them, of every desk and of whoever knows its commands
//! alone. `racf_desk` is the desk that keeps these rules; `command_history` and `raclist_snapshots` speak of histories
//! and need no desk.
//!
//! ```
//! match reply {
//!     Reply::Accepted(number) => count(number),                   // it stands on the disks
//!     Reply::Refused(number, refusal) => refusal.write(out)?,     // EXISTS JOE
//!     Reply::DiskFault(number) | Reply::Halted(number) => return Err(Halted),
//!     Reply::NoMemory => return Err(NoMemory),
//! }
//! ```
#![tactic(auto)]

mod answers;
pub mod laws;
mod refusal;
mod refusal_words;

pub use answers::{MOST_NUMBER, Ready, Reply};
pub use refusal::Refusal;
