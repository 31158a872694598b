//! Lists of which a changed version shares all but what leads to the change.
//!
//! [`Pages`] is a list of items in pages of at most 32. A list never changes: [`Pages::with_inserted`],
//! [`Pages::with_replaced`] and [`Pages::with_removed`] answer a list of their own, for which they copy one page at
//! each of three levels, and the pages themselves have as many owners as there are lists. So an old version can be
//! read on while a new one is made, and want of memory leaves it as it was. [`Pages::first`] searches by a [`Test`],
//! and [`Pages::iter`] gives the items in order. Items are held as `Arc`s: who has one already hands it in, and
//! `shared_at` gives it out again.
//!
//! The leaves are pages of items where nothing else is said. A crate above may keep its items in leaves of its own
//! kind, a [`Part`]: it says where a leaf is cut, may have keys by which a search goes, a [`KeyedPart`], and counts
//! what it places for a change, which [`Pages::insert`], [`Pages::replace`] and [`Pages::remove`] answer beside the
//! list, in a [`Made`].
//!
//! `sorted_rows` and the shared index of `profile_index` stand on this crate; the images of `raclist_image` keep users
//! and groups in the one, by `defined_rows`, and profiles in the other, by `class_profiles`.
//!
//! ```
//! let list = Pages::of(alloc, vec![in alloc; "ANN", "PAY"]?)?;
//! let longer = list.with_inserted(alloc, 1, Arc::new(alloc, "BOB")?)?;    // ANN BOB PAY
//! let name = list.at(1);                                                  // PAY still
//! ```
#![tactic(auto)]

mod keyed_part;
mod pages;
mod part;
mod search;
mod search_key;
mod shared_page;
mod splice;
mod test;
mod walk;

pub use keyed_part::KeyedPart;
pub use pages::{NoMemory, Pages};
pub use part::{Change, Made, Part};
pub use search_key::{SearchKey, begin_of};
pub use shared_page::SharedPage;
pub use test::Test;
pub use walk::Walk;
