//! Whether rows are the same, field by field.

use racf_profiles::{Options, User};
use raclist_image::Facts;

/// Whether both are the same user, or none.
pub(crate) fn is_same_user_of(one: Option<&User>, other: Option<&User>) -> bool {
    match (one, other) {
        (Some(one), Some(other)) => is_same_user(one, other),
        (None, None) => true,
        _ => false,
    }
}

/// Whether two users are the same.
fn is_same_user(one: &User, other: &User) -> bool {
    one.id == other.id
        && one.default_group == other.default_group
        && one.owner == other.owner
        && one.name == other.name
        && one.attributes == other.attributes
        && is_same_security(one, other)
        && one.classes.items.as_slice() == other.classes.items.as_slice()
        && one.connects.items.as_slice() == other.connects.items.as_slice()
}

/// Whether two users have the same level, categories and label.
fn is_same_security(one: &User, other: &User) -> bool {
    one.level == other.level && one.categories == other.categories && one.label == other.label
}

/// Whether two options of the whole system are the same.
pub(crate) fn is_same_options(one: &Options, other: &Options) -> bool {
    one.grplist == other.grplist
        && one.protectall == other.protectall
        && one.mls == other.mls
        && one.categories.items.as_slice() == other.categories.items.as_slice()
}

/// Whether a decision reads the same of two profiles.
pub(crate) fn is_same_facts(one: &Facts<'_>, other: &Facts<'_>) -> bool {
    one.owner == other.owner
        && one.uacc == other.uacc
        && one.warning == other.warning
        && one.standard == other.standard
        && one.conditional == other.conditional
        && is_same_marks(one, other)
}

/// Whether two profiles have the same level, categories, label and auditing.
fn is_same_marks(one: &Facts<'_>, other: &Facts<'_>) -> bool {
    one.level == other.level
        && one.categories == other.categories
        && one.label == other.label
        && one.audit == other.audit
        && one.global_audit == other.global_audit
}
