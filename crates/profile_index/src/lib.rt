//! Profiles in the order of specificity, and the one that decides on a name.
//!
//! An [`Index`] keeps an item under each name, and finds the most specific name that covers a resource without looking
//! at all of them; `class_profiles` keeps the profiles of a class in one. An entry comes in without memory where
//! `reserve` made room before. [`Steps`] counts the comparisons of the search for a very name, of which there are at
//! most as many as the number of entries has binary digits. A [`SharedIndex`] doesn't change: a changed version is an index of
//! its own, and shares the rest with the one before.
//!
//! In both a name's place in the order is kept as bytes, its key, and a search computes the key of what it looks for
//! once, so that a step of it is one comparison of bytes. An [`Index`] keeps each entry behind its key, and in the
//! order the first eight bytes of each key: where those differ, a step needs no more. A [`SharedIndex`] keeps up to 16
//! entries of one first qualifier in a bucket, with their keys in one region.
//!
//! ```
//! let mut index = Index::new(alloc)?;
//! index.reserve(1)?;
//! index.insert(Pattern::read(NameKind::General, b"BPX.**")?, "the services of z/OS UNIX");
//! let place = index.find(&Resource::read(NameKind::General, b"BPX.SUPERUSER")?);  // Some(0)
//! ```
#![tactic(auto)]

mod bucket;
mod bucket_rows;
mod entry;
mod entry_list;
mod entry_slots;
mod index;
mod keyed_entry;
mod search;
mod shared_index;
mod steps;

pub use bucket_rows::key_length;
pub use entry::Entry;
pub use index::{Index, NoMemory};
pub use pages::Made;
pub use shared_index::SharedIndex;
pub use steps::Steps;
