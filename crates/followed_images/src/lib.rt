//! A database that commands change, and the image that follows it, for the tools that ask images and for tests of them.
//!
//! A [`Followed`] is a new database with the image of its rows. [`Followed::give`] gives it a command of IBMUSER, and
//! each accepted one makes the next image of the one before. [`Followed::take`] hands out the image as it stands, and
//! [`Followed::image_of_rows`] makes one of all rows.
//!
//! ```
//! let mut followed = Followed::new(alloc)?;
//! followed.give(alloc, b"ADDUSER JOE")?;
//! let image = followed.take()?;
//! image.image().user(Id::read(b"JOE")?)
//! ```
#![tactic(auto)]

mod followed;
mod taken;

pub use followed::{Followed, Outcome};
pub use taken::TakenImage;
