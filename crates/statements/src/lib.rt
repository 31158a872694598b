//! The statements of an input, the replies to them, and what a run is that works through them.
//!
//! [`next_statement`] joins lines to statements; it is told the [`Kind`] of the input, a stream or a deck. A [`Reply`]
//! has its line, and [`Replies`] gathers the lines, whose room is lent before a statement is worked. A [`Stop`] says
//! why no statement comes, [`end_run`] writes what is gathered, and a [`Status`] is how it ended, with its exit code
//! and its words. [`Issuing`] says who gives the commands. What such a run means is a machine of `specs/Runs`, with an
//! input of its own.
//!
//! A statement is worked elsewhere: `racf_stream` works those of a stream at a desk, `racf_workers` those of a deck and
//! the lines of request files over what threads share.
//!
//! ```text
//! loop {
//!     match next_statement(Kind::Deck, alloc, &mut lines, &mut replies, &mut sink, &mut room)? {
//!         Ok(Some(statement)) => work(&statement, replies.room()?)?,
//!         Ok(None) => {}                                                   // a comment, or a blank line
//!         Err(stop) => return end_run(stop, failed, refused, &mut replies, &mut sink),
//!     }
//! }
//! ```
#![tactic(auto)]

mod input;
mod issuer;
mod joining;
pub mod laws;
mod mark;
mod replies;
mod reply;
mod statement;
mod status;
mod stopping;

pub use input::next_statement;
pub use issuer::{Issuing, first_issuer, issuer_named};
pub use replies::{Replies, write_all, write_before_read};
pub use reply::{LONGEST_LINE, Refusal, Reply};
pub use statement::{Kind, LineText, Statement, is_skipped};
pub use status::Status;
pub use stopping::{Stop, end_run, unless_failed};
