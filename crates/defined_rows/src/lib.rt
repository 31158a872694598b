//! Rows in order of definition, each found by its key, of which a changed version shares all but what leads to the
//! change.
//!
//! [`DefinedRows`] keeps each row twice, as one `Arc`: in a list of `pages` in the order in which the rows were
//! defined, and in a table of `sorted_rows`, by its key. A row has a number there, and the numbers rise along the list,
//! so the place of a key is found by two searches of few steps. A table never changes: [`DefinedRows::with_row`] and
//! [`DefinedRows::without_row`] answer a table of their own.
//!
//! ```
//! let table = DefinedRows::of(alloc, vec![in alloc; pay, ann]?)?;
//! let later = table.with_row(alloc, other_pay)?;      // in place of the first
//! let row = table.get(b"PAY");                        // the one before still
//! ```
#![tactic(auto)]

mod numbered;
mod rows;

pub use rows::DefinedRows;
pub use sorted_rows::{Keyed, NoMemory};
