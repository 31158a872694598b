//! Questions alone: the lines of a request file, answered on one image.
//!
//! [`ask`] answers the lines of a source as `racf_workers` answers a request file over a history in which nothing was
//! accepted, and may put in front of each line that it prints the number of the input's line. Every line is a request,
//! or it is refused, so that nothing in the input can be a command. The lines are those of `racf_outside`, read and
//! answered by `request_files`; what a stop leaves is said by the definitions of `statements`.
//!
//! ```text
//! let (status, source) = ask(alloc, &image, true, source, &mut sink);      // the first line gives `1 5 0 VERIFIED`
//! ```
#![tactic(auto)]

mod asking;
mod between;
pub mod laws;
mod reading;
mod writing;

pub use asking::ask;
