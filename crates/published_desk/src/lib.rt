//! A desk whose accepted commands are published, for the tests of snapshots. Its disks keep nothing.
//!
//! [`new_desk`] makes one, and [`give`] gives it a command of IBMUSER's: where it is accepted, it is held, committed,
//! published and installed, one after another, as a running database has to do it.
#![tactic(auto)]

mod giving;

pub use giving::{Given, give, new_desk};
