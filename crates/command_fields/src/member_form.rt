//! What the members of a profile are.

use generic_names::NameKind;

/// What the members of a profile are.
#[derive(Clone, Copy, Debug, PartialEq, Eq)]
pub enum MemberForm {
    /// Names of this kind, each with the access that everyone has.
    Access(NameKind),
    /// Names of security levels, each with its number.
    SecurityLevel,
    /// Names of security categories.
    Category,
}
