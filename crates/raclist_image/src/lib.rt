//! Images: the state that decisions read. An image never changes, so many may read it at once.
//!
//! An [`Image`] is made of the rows of a database with the number of commands that led to them, or by [`Image::after`]
//! of the image before and a command's edits, with which it shares what these don't lead to; contracts see it as its
//! state and number. A [`ClassImage`] has the profiles of a class, and finds the one that decides on a name. `acee` and
//! `decision` read images, `racf_database` has the rows that they are made of. No call that reads takes memory.
//!
//! ```
//! let before = Image::of(alloc, &database.to_rows(alloc)?, 41)?;
//! let image = before.after(alloc, &change, 42)?;                  // `before` can be read on
//! let profiles = image.effective(FixedClass::Facility.id());      // the listed copy where the class is RACLISTed
//! let facts = profiles?.find(&name);                              // those of the profile that decides
//! ```
#![tactic(auto)]

mod class_image;
mod classes;
mod copies;
mod facts;
mod flags;
mod image;
mod index;
mod names;
mod rows;
mod state;

pub use class_image::ClassImage;
pub use class_profiles::Made;
pub use facts::Facts;
pub use flags::{ClassFlags, ClassOptions};
pub use image::Image;
pub use racf_profiles::NoMemory;
