//! The desk: one command after another, judged as its issuer stands at that command, made, put on the disks and
//! installed.
//!
//! A [`Desk`] has the database, the image of its rows, and the store of `racf_checkpoint` with the records of the
//! commands. [`Desk::format`] makes a new database and [`Desk::open`] opens the one that the disks stand for;
//! [`Desk::look`] gives a desk at that database that keeps nothing, and leaves the disks as they are.
//! [`Desk::judge`] tests a command in a fixed order, takes all memory and makes the next image; [`Desk::commit`] puts
//! its record on the disks, and [`Desk::install`] puts the image in place; [`Desk::execute`] is the three.
//! [`Desk::compact`] writes a checkpoint of the rows on the other disk, behind which the journal begins anew. The
//! commands are those of `command_parser`, their records those of `journal_records`; `racf_database` says what they
//! conflict with and `command_authority` who may give them. What a desk may answer, where it stands behind a command,
//! and the words of every refusal are those of `desk_rules`.
//!
//! ```
//! let mut desk = Desk::open(alloc, disks)?;
//! match desk.execute(alloc, ibmuser(), None, b"ADDUSER JOE") {
//!     Reply::Accepted(number) => count(number),                   // every crash keeps it
//!     Reply::Refused(number, refusal) => refusal.write(out)?,     // EXISTS JOE
//!     Reply::DiskFault(number) | Reply::Halted(number) => return Err(open_again(desk.into_disks())),
//!     Reply::NoMemory => return Err(NoMemory),
//! }
//! ```
#![tactic(auto)]

mod desk;
mod issuers;
mod looking;
mod making;
mod outcome;
mod recovery;

pub use desk::Desk;
pub use desk_rules::{MOST_NUMBER, Ready, Refusal, Reply};
pub use racf_profiles::NoMemory;
