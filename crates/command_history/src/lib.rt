//! The history of a running database: a log that only grows, of which everybody may know a front.
//!
//! An event is an accepted command, [`Accepted`], or the final mark, behind which nothing comes, and which names the
//! entry of the command that a disk failed, where one did. The log itself is known to proofs alone; what threads share
//! is one word, the [`Book`]. A [`Front`] is the knowledge that the history has reached a list of events: of two of
//! them one extends the other, and one with the final mark is the whole. A [`Turn`] is the right to the event of one
//! place, of which there is one for each place. So who has the turn behind what he knows has seen all, which
//! [`Book::covers`] shows of each other front, and he alone can add the next event.
//!
//! Everything of one history has one type parameter, a [`Naming`]: whoever opens a history picks it in a proof, with
//! the position where the history begins, the count of the disk's faults there, and what the two disks told there.
//! `reached` is the position behind a list of events; [`laws`] has what is true of these definitions.
//!
//! ```
//! // J is the name that was picked for what is opened, as a `requires` of the caller says.
//! fn one_command<J: Naming>(opened: Opened, entry: &Accepted) -> Option<Front<J>> {
//!     let (book, mut front) = opened.named::<J>();
//!     let early = front.again();                   // who has seen nothing yet
//!     let mut turn = book.turn(&front, 0)?;        // the right to the first event: nobody else gets it
//!     book.covers(&mut turn, &front, &early);      // what is known elsewhere is no more than what is known here
//!     front.add(&book, turn, entry);               // now it has the entry, and early.is_behind(&front)
//!     Some(front)
//! }
//! ```
#![tactic(auto)]

mod book;
mod events;
mod front;
pub mod laws;
mod rule;
mod turn;

pub use book::{Book, Opened};
pub use events::{Accepted, Event};
pub use front::Front;
pub use rule::Naming;
pub use turn::Turn;
