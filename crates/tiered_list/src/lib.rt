//! A list in rows of 256 items, all full but the last, into which an item goes without moving the ones behind it.
//!
//! [`TieredList`] is what there is. Contracts see its items and how many more can be put in without memory. A row is a
//! ring: where an item goes in, its row moves, and each row behind gives its last item to the front of the next. So a
//! list of n items moves 256 of them at most and touches n / 256 rows, and an item is found by its place in one step.
//! `profile_index` keeps the order of its entries in one.
//!
//! ```
//! let mut list = TieredList::new(alloc);
//! list.reserve(1)?;
//! list.insert(0, item);
//! ```
#![tactic(auto)]

mod list;

pub use list::TieredList;
