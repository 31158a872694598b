//! What a decision reads of a profile.
use access_levels::{Categories, CondEntry, Entry, Id, Level};
use generic_names::Pattern;
use racf_profiles::AuditRule;

/// What a decision reads of a profile.
#[derive(Clone, Copy)]
pub struct Facts<'a> {
    pub name: &'a Pattern,
    /// A user or a group.
    pub owner: Id,
    /// The universal access.
    pub uacc: Level,
    /// Access that would be refused is given, with a warning.
    pub warning: bool,
    pub standard: &'a [Entry],
    pub conditional: &'a [CondEntry],
    pub level: u8,
    pub categories: Categories,
    pub label: Option<Id>,
    pub audit: AuditRule,
    pub global_audit: AuditRule,
}
