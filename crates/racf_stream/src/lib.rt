//! The stream: lines of commands and requests in, replies and answers out, from a source to a sink, at a desk on disks.
//!
//! The principal function is [`script`], which answers with a [`Status`]. The statements, their replies and the ends of
//! a run are those of `statements`, commands are given at the desk of `racf_desk`, requests are answered by
//! `request_files` on the desk's image. `laws` is for a reader of an output.
//!
//! ```text
//! let desk = Desk::open(alloc, disks)?;
//! let (status, source, desk) = script(alloc, source, &mut sink, desk, Issuing::Free);
//! std::process::exit(status.code())
//! ```
#![tactic(auto)]

pub mod laws;
mod scripts;
mod stream;

pub use scripts::script;
pub use statements::{Issuing, Status};
