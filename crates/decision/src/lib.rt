//! Decisions: whether a user may access a resource, and whether a user is verified.
//!
//! [`auth`] answers a [`Request`] with a [`Decision`]: the return code, the rule by which it came, and what the
//! deciding profile asks to be logged. It is a table of cases, of which the first that fits decides. [`fastauth`]
//! answers it in RACLISTed classes alone, by the same table but for the cases that come before a profile is asked.
//! [`verify`] makes all checks of VERIFY and answers the user's ACEE. All read an image of `raclist_image`; ACEEs are
//! those of `acee`, and `global_table` tells what a global access table gives. `request_files` prints the answers, and
//! `audit_records` tells which are logged.
//!
//! ```
//! let acee = verify(alloc, &image, &who)?;
//! let request = Request::new(FixedClass::Facility.id(), name, Level::Read)?;
//! let decision = auth(&image, &acee, &request);       // decision.rc is 0, 4 or 8
//! ```
#![tactic(auto)]

mod answer;
mod classification;
mod decide;
mod entries;
mod entry;
mod operations;
mod outcome;
mod request;

pub use decide::{auth, fastauth};
pub use entry::verify;
pub use outcome::{Audits, Decision, Rule};
pub use request::Request;
