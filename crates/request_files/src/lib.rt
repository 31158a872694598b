//! Lines of requests: what they ask for, the ACEEs that they name, and the answers.
//!
//! [`read_line`] reads a [`RequestLine`] or its refusal, [`respond`] works it on an image and an [`AceeTable`], and
//! writes the answer. The checks of VERIFY and the decisions are those of `acee` and `decision`; `racf_stream` hands
//! the lines of a stream on. [`read_issuer`] reads the line of a stream that names the issuer of its commands.
//!
//! ```
//! let mut acees = AceeTable::new(alloc)?;
//! let line = read_line(b"VERIFY A ANN TERMINAL(T100)");
//! let refused = respond(alloc, &line, &image, &mut acees, &mut out)?;      // out has `1 0 VERIFIED` and a line feed
//! ```
#![tactic(auto)]

mod acees;
mod answers;
mod asked;
mod issuer_line;
pub mod laws;
mod line;
mod next_words;
mod numbers;
mod operands;
mod reading;
mod said;
mod spellings;
mod working;

pub use acees::{AceeTable, NamedAcee};
pub use answers::answer_text;
pub use issuer_line::{NamedIssuer, read_issuer};
pub use line::{LineRefusal, RequestLine, read_line};
pub use numbers::number_word;
pub use working::respond;
