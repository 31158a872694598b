//! Room for texts, taken once: a region holds texts one behind another, and gives each back by its spot.
//!
//! A [`Region`] takes all its memory when it is made, so that placing a text takes none. A [`Spot`] is where a text
//! stands, in eight bytes, and stays good until the region is cleared; who knows which text it is reads it by its
//! number, [`Region::row`]. A [`Room`] is a sum over texts, of their bytes and a row for each; a region of just this room
//! holds them all, and has none to spare then. This crate stands on no other of the product. `profile_index` keeps the
//! keys of a bucket's names in a region.
//!
//! ```
//! let mut region = Region::with_room(alloc, 6, 2)?;
//! let first = region.place(b"AB");       // Spot { start: 0, length: 2 }
//! let second = region.place(b"CDE");     // Spot { start: 2, length: 3 }
//! let text = region.text(first);         // b"AB"
//! let more = region.fits(1);             // false: a byte is free, but no row
//! let spare = region.spare();            // Room { bytes: 1, rows: 0 }
//! ```
#![tactic(auto)]

pub mod laws;
mod region;
mod room;
mod rows;
mod spot;

pub use region::{NoMemory, Region};
pub use room::Room;
pub use spot::Spot;
