//! The small values that all else is made of: identifiers, access levels, group authorities, texts, the entries of
//! access lists and sets of category numbers.
//!
//! An [`Id`] is the name of a user, a group, a class or a port, in its one spelling. A [`Level`] is how far an access
//! goes; the levels rise, and each includes all before it. [`Categories`] is a set of the numbers 0 to 255. Nothing
//! here takes memory but [`Text`]. Names of resources and profiles are in `generic_names`, and rows made of both in
//! `racf_profiles`.
//!
//! ```
//! let user = Id::read(b"IBMUSER");            // Ok
//! let group = Id::read_group(b"9PAY");        // Err(IdFault::BadByte(1)): a group doesn't begin with a digit
//! let enough = Level::Update.suffices(Level::Read);
//! let red_and_blue = Categories::none().with(0).with(7);
//! ```
#![tactic(auto)]

mod authorities;
mod categories;
mod entries;
mod ids;
mod levels;
mod texts;

pub use authorities::GroupAuthority;
pub use categories::Categories;
pub use entries::{Attributes, CondEntry, Condition, Entry, PortClass, Who};
pub use ids::{Id, IdFault};
pub use levels::Level;
pub use texts::Text;
