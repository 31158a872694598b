//! The accessor environment element (ACEE) of a verified user: who he is, his groups and attributes, and where he came from.
//!
//! [`Acee::of`] makes one of an image, or answers the first check of VERIFY that fails. It stays as it was made,
//! whatever commands change afterwards. Images are those of `raclist_image`; `decision` makes the other checks of
//! VERIFY, and decides by an ACEE what its user may access.
//!
//! ```
//! let request = VerifyRequest { user: ann, group: None, port: None, application: None, label: None };
//! let acee = Acee::of(alloc, &image, &request)?;
//! let groups = acee.groups.names();        // those of the connections that aren't revoked
//! ```
#![tactic(auto)]

mod acee;
mod groups;
mod request;
mod verify;

pub use acee::Acee;
pub use groups::{AceeGroup, AceeGroups};
pub use request::{VerifyFault, VerifyRequest};
pub use verify::is_active;
