//! The generator: a text of commands and requests for a number of users, made as it is read, and the counts of what a
//! stream answers to such a text, taken as it is written. Neither holds more than a line or a few of its text.
//!
//! The principal types are `MadeText`, a source as `racf_outside` has them, and `AnswerTally`, a sink. Between the two
//! `racf_run` works a stream.
//!
//! ```text
//! let mut text = MadeText::new(alloc, 1_000);
//! let mut counts = AnswerTally::new(alloc);
//! // .. a stream reads `text` and writes its answers to `counts`, and then
//! counts.write_summary(u64::from(line_count(1_000)), &mut out)?;
//! ```
#![tactic(auto)]

mod answer_tally;
mod counts;
mod faults;
pub mod laws;
mod line_words;
mod made_lines;
mod made_text;
mod parts;

pub use answer_tally::AnswerTally;
pub use made_lines::line_count;
pub use made_text::MadeText;
