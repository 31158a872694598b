//! The ACEE.
use crate::groups::AceeGroups;
use access_levels::{Attributes, Categories, Condition, Id};

/// The accessor environment element: what decisions know of a user. It stays as it was made, whatever
/// commands change afterwards.
#[derive(Debug, Drop)]
pub struct Acee {
    pub user: Id,
    /// The current group.
    pub current: Id,
    /// The groups of the connections that weren't revoked, in the order of the connections.
    pub groups: AceeGroups,
    pub attributes: Attributes,
    pub level: u8,
    pub categories: Categories,
    /// None while class SECLABEL isn't active.
    pub label: Option<Id>,
    /// The port of entry.
    pub port: Option<Condition>,
    pub application: Option<Id>,
    /// How many commands had been accepted.
    pub generation: u64,
}
