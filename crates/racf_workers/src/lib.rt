//! The workers of a run: each works its own lines, in a thread of its own, over what all share.
//!
//! [`answer_requests`] answers the lines of a request file over one `Racf` of `racroute`, by a `Caller` of
//! `raclist_snapshots`. A line that reaches a decision is answered on the newest image that the caller knows of, and
//! waits for nobody; `*AFTER` waits for a number of commands. The lines are those of `racf_outside`, read and answered
//! by `request_files`; what a stop leaves is said by the definitions of `statements`. A [`Gate`] is asked before each
//! line and behind it, so that a run can take a course that is known; [`Idle`] lets everything pass.
//!
//! [`give_commands`] gives the commands of a deck, with a pass. The room of each reply is there before its command is
//! given, so that none is lost behind a command that was accepted.
//!
//! ```text
//! let (status, source) = answer_requests(rt, alloc, &racf, &mut caller, source, &mut sink, &Idle, 0);
//! let (status, source) =
//!     give_commands(rt, alloc, &racf, &mut caller, &mut pass, source, &mut sink, Issuing::Free, &Idle, 1);
//! ```
#![tactic(auto)]

mod answering;
mod between;
mod decks;
mod gate;
mod giving;
mod reading;
mod requests;
mod telling;

pub use decks::give_commands;
pub use gate::{Gate, Idle};
pub use requests::answer_requests;
