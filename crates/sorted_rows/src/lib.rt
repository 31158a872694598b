//! Tables of rows in the order of their keys, of which a changed version shares all but what leads to the change.
//!
//! [`SortedRows`] keeps rows that are [`Keyed`] in a list of `pages`, in the order of the bytes of their keys, and
//! finds the row of a key in as many comparisons as the number of rows has binary digits, and a few more. A table never
//! changes: [`SortedRows::with_row`] and [`SortedRows::without_row`] answer a table of their own. Rows are held as
//! `Arc`s: who has one already hands it in, and `find_shared` gives it out again.
//!
//! `defined_rows` stands on it, which keeps rows in order of definition beside.
//!
//! ```
//! let table = SortedRows::new(alloc).with_row(alloc, Arc::new(alloc, ann)?)?;
//! let later = table.without_row(alloc, b"ANN")?;
//! let row = table.find(b"ANN");                       // there still
//! ```
#![tactic(auto)]

mod keyed;
pub mod laws;
mod rows;

pub use keyed::Keyed;
pub use pages::{NoMemory, Walk};
pub use rows::SortedRows;
