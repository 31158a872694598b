//! The office: one history, one desk, any number of callers and decks.
//!
//! A [`Racf`] is what threads share: behind one lock stands an [`Office`], with the desk of `racf_desk`, the publisher
//! of `raclist_snapshots`, and the list of the accepted commands. [`Racf::start`] makes one, with a [`DeckPass`] for
//! each deck that will give commands; callers come from `raclist_snapshots`. A deck gives a command by
//! [`Racf::submit`], waits for others by [`Racf::after`], and hands its pass in by [`Racf::end_deck`]; [`Racf::close`]
//! gives back what was done. [`verify`], [`auth`] and [`fastauth`] ask the newest image that their caller knows of:
//! they take no lock and wait for nobody.
//!
//! A pass carries shares of three ledgers: of the commands that were accepted, of the faults of the disk, and of the
//! passes that are out. So the counts of all decks add up to what the history has, and a pass in hand is one that is
//! out.
//!
//! ```text
//! let (racf, passes) = Racf::start(alloc, publisher, blanks, desk, 1)?;
//! let reply = racf.submit(rt, alloc, &mut caller, &mut pass, ibmuser(), None, b"ADDUSER JOE");
//! let decision = auth(&mut caller, &acee, &request);      // on what the caller has seen: this command too
//! let end = racf.end_deck(rt, pass);
//! let closed = racf.close(callers, ends)?;                // each caller saw a beginning of closed.accepted
//! ```
#![tactic(auto)]

mod asking;
mod holding;
mod office;
mod passes;
mod racf;
mod rest;
mod waiting;

pub use asking::{auth, fastauth, verify};
pub use office::{Closed, Office};
pub use passes::{DeckEnd, DeckPass};
pub use racf::{Racf, StillOut};
pub use waiting::AfterFault;
