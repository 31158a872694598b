//! Names of resources and of profiles: what spells one, which resources a profile covers, and which of two profiles is
//! the more specific one.
//!
//! A [`Resource`] is the name of one data set or general resource. A [`Pattern`] is the name of a profile, which may be
//! generic: `%`, `*` and `**` stand for bytes and qualifiers. A [`MemberName`] is the name of a member of the global
//! access table, in which a qualifier may stand for the user or his group. All three lie in arrays of a fixed size, so
//! nothing here takes memory. `profile_index` keeps patterns in order and finds the one that decides. An [`OrderKey`]
//! is the place of a name in that order as bytes, and the end of a [`Gap`] has one too, so that a search compares bytes
//! alone.
//!
//! ```
//! let profile = Pattern::read(NameKind::DataSet, b"SYS1.PARM*")?;
//! let name = Resource::read(NameKind::DataSet, b"SYS1.PARMLIB")?;
//! let covered = profile.covers(&name);        // true
//! let first = profile.before(&Pattern::read(NameKind::DataSet, b"SYS1.**")?);     // true
//! ```
#![tactic(auto)]

mod covering;
mod fault;
mod form;
mod gap;
mod kind;
pub mod laws;
mod member;
mod order;
mod order_key;
mod pattern;
mod qualifiers;
mod reading;
mod resource;
mod spelling;

pub use fault::NameFault;
pub use gap::Gap;
pub use kind::NameKind;
pub use member::MemberName;
pub use order_key::OrderKey;
pub use pattern::Pattern;
pub use qualifiers::first_qualifier;
pub use resource::Resource;
