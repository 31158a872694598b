//! The words of texts: of a command's text its words and its values in parentheses, each with its place; of a line of
//! requests its words.
//!
//! `Tokens` is a command's text that is still to be read. Each `ValuedWord` that is split off is a word with the value
//! behind it, and a value's inside is `Tokens` again; nothing is copied. `LineWords` are the words of a line, and
//! `Parting` finds the word that a text begins with. `command_values` reads the values, and `request_files` and
//! `racf_run` the lines.
//!
//! ```text
//! let text = Tokens::new(b"PERMIT PAY ID(MARY)");
//! while let Some((word, rest)) = text.split_valued() { .. } // PERMIT, PAY, and ID with the value MARY
//! ```
#![tactic(auto)]

mod bytes;
mod folded_word;
mod front_words;
mod line_words;
mod quoting;
mod scan;
mod tokens;
mod valued_words;

pub use bytes::{folded, is_blank};
pub use folded_word::{FoldedWord, ShortWord};
pub use front_words::Parting;
pub use line_words::{LineWord, LineWords};
pub use quoting::Quoting;
pub use tokens::{Piece, Tokens};
pub use valued_words::{ValuedWord, faulty_at, is_cut, is_spelled};
