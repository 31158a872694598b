//! A run: decks and request files, each in a thread of its own, over one history.
//!
//! [`run`] takes a desk, the decks and the request files, each a source with its sink, and works them side by side: a
//! deck gives its commands, a request file asks. All that they do stands in one history, and each output tells a part
//! of it. A [`Ran`] has what is left: every source and every sink, the disks, and the commands that were accepted, in
//! their order. The workers of one line each are those of `racf_workers`, what they share is a `Racf` of `racroute`,
//! and what they see is published by `raclist_snapshots`. [`run_files`] takes one list of both kinds, and loses none of
//! it, whatever comes. Names of files and the shelf are no matter of this crate.
//!
//! ```text
//! let Ran { status, outs, disks, accepted, .. } = run(rt, alloc, desk, decks, requests, Issuing::Free, &Idle);
//! ```
#![tactic(auto)]

mod begin;
mod room;
mod seating;
mod together;
mod worker;

pub use together::{Ran, run, run_files};
