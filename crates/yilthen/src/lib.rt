//! What a program of one's own names: the desk between two commands, who a user is, what he may access, and the disks.
//!
//! A [`Desk`] stands over two disks. [`Desk::format`] makes a new database, [`Desk::open`] opens the one that the disks
//! stand for, and [`Desk::look`] leaves them as they are; [`Desk::execute`] gives a command, and [`Desk::compact`] writes
//! a checkpoint. Nothing is ever under way at it between two calls: whose commands are judged in one step and committed
//! in another takes `racf_desk`, which this crate stands on. [`verify`] makes an [`Acee`] of the image of a desk; [`auth`], [`fastauth`] and [`logged`] ask it.
//! All that can be refused or fail is an [`Error`], which is shown in the words of the guide.
//!
//! This crate stands on no thread and no lock. What threads share is in `racroute`.
//!
//! ```
//! let mut desk = Desk::format(alloc, disks)?;
//! let number = desk.execute(alloc, ibmuser, None, b"ADDUSER JOE")?;   // behind it the disks have the command
//! let acee = verify(alloc, desk.image(), &VerifyRequest { user: joe, .. })?;
//! let decision = auth(desk.image(), &acee, &request);
//! ```
#![tactic(auto)]

mod desk;
mod error;
mod verified;

pub use access_levels::{Condition, Id, Level, PortClass};
pub use acee::{Acee, VerifyFault, VerifyRequest};
pub use audit_records::logged;
pub use decision::{Decision, Request, Rule, auth, fastauth};
pub use desk::Desk;
pub use desk_rules::Refusal;
pub use error::{Error, Refused};
pub use generic_names::{NameKind, Resource};
pub use racf_files::{
    DatabaseFile, DiskTrouble, FileDisk, Reason, occupy_standard_streams, open_both,
};
pub use racf_outside::{Disk, MemoryDisk, NeverDisk, Two};
pub use racf_profiles::FixedClass;
pub use raclist_image::Image;
pub use verified::verify;
