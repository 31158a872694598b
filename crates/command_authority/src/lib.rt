//! Who may give which command: [`authorised`].
//!
//! Each command has one [`Requirement`] or more; each is met where one of its needs holds for the issuer; and an issuer
//! who may not give a command is told all [`Needs`] of the first requirement that he doesn't meet. The issuer's
//! attributes and connections are read through a `View` of `racf_profiles`, and scope is that of `group_tree`.
//!
//! ```
//! match authorised(&database, database.tree(), &issuer, &command) {
//!     Ok(()) => {}
//!     Err(needs) => report(needs),         // SPECIAL, or to own the user, or group-SPECIAL
//! }
//! ```
#![tactic(auto)]

mod groups;
mod held;
mod judge;
pub mod laws;
mod needs;
mod operands;
mod options;
mod profiles;
mod requirement;
mod targets;
mod users;

pub use judge::authorised;
pub use needs::{Need, Needs};
pub use requirement::{Requirement, Target};
