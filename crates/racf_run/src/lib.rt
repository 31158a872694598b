//! The top call of the program, over a shelf of named inputs and outputs and the disks of a database.
//!
//! The principal functions are `racf`, the top call over a shelf and disks of `racf_outside`, and `make`, which writes
//! the text of `racf_generator`; both answer with a `Status`. The stream between one source and one sink, `script`, is
//! that of `racf_stream`; decks and request files side by side, `run`, are those of `racf_threads`, whose workers ask a
//! `Gate` of `racf_workers` at each line. The words `init` and `compact` make a new database, and write a checkpoint of
//! one, by the desk of `racf_desk`; `check` tries a stream at a desk that looks at the database, and keeps nothing of
//! it, and `ask` answers questions there by `racf_ask`.
//!
//! ```text
//! let (status, disks) = racf(rt, alloc, words, &mut shelf, disks, &Idle);
//! std::process::exit(status.code())
//! ```
#![tactic(auto)]

mod asking;
mod checking;
mod compacting;
mod issuers;
mod making;
mod names;
mod opening;
mod running;
mod top;

pub use making::make;
pub use racf_stream::script;
pub use racf_threads::{Ran, run};
pub use racf_workers::{Gate, Idle};
pub use statements::{Issuing, Status};
pub use top::{looks_at_disks, racf, works_on_disks};
