//! What bars a user from a resource by their levels, categories and labels.
ghost use Rattle.std.specs.Prelude.{◌≡◌};
ghost use Rattle.std.specs.Result.{result_err};
ghost use Rattle.seclabels.specs.Labels.{label_of, barred, barred_by_label, barred_by_labels, barred_by_level};

use crate::labels::{Clearance, Label, dominates};
use access_levels::Level;

/// Why a user is barred from a resource.
#[derive(Clone, Copy, Debug, PartialEq, Eq)]
pub enum Classified {
    /// The user's level is below the resource's.
    LevelTooLow,
    /// The resource has the category of this number, and the user doesn't: the least such number.
    CategoryMissing(u8),
    /// The user's label doesn't dominate the resource's.
    LabelNotDominant,
    /// The user asks to write, and the resource's label doesn't dominate his: under MLS nothing is written down.
    WriteDown,
}

/// Which checks are made.
#[derive(Clone, Copy, Debug)]
pub struct Checks {
    /// Labels: while class SECLABEL is active. They are then checked in the place of levels and categories.
    pub labels: bool,
    /// Levels and categories: while class SECDATA is active.
    pub levels: bool,
    /// MLS: where labels are checked, nothing is written down.
    pub mls: bool,
}

/// Whether levels, categories or labels let a user have the access that he asks for. It takes no memory.
///
/// # Errors
///
/// What bars him. Of the categories that he misses, the one of the least number is told.
pub fn check(
    user: &Clearance,
    resource: &Clearance,
    checks: Checks,
    asked: Level,
) -> Result<(), Classified>
    ensures { result_err result ≡ barred user.now resource.now checks asked }
{
    if checks.labels {
        return check_label(&label_of(user), &resource.label, checks.mls, asked);
    }
    if checks.levels {
        return check_level(user, resource);
    }
    Ok(())
}

/// The label that a user counts with: without one he counts as SYSLOW.
fn label_of(user: &Clearance) -> Label
    ensures { result ≡ label_of user.now }
{
    match &user.label {
        Some(label) => *label,
        None => Label::system_low(),
    }
}

/// The check of a label against that of a resource, if it has one.
fn check_label(
    user: &Label,
    resource: &Option<Label>,
    mls: bool,
    asked: Level,
) -> Result<(), Classified>
    ensures { result_err result ≡ barred_by_label user.now resource.now mls asked }
{
    match resource {
        Some(resource) => check_labels(user, resource, mls, asked),
        None => Ok(()),
    }
}

/// The check of two labels.
fn check_labels(user: &Label, resource: &Label, mls: bool, asked: Level) -> Result<(), Classified>
    ensures { result_err result ≡ barred_by_labels user.now resource.now mls asked }
{
    if !dominates(user, resource) {
        return Err(Classified::LabelNotDominant);
    }
    if mls && asked.suffices(Level::Update) && !dominates(resource, user) {
        return Err(Classified::WriteDown);
    }
    Ok(())
}

/// The check of levels and categories.
fn check_level(user: &Clearance, resource: &Clearance) -> Result<(), Classified>
    ensures { result_err result ≡ barred_by_level user.now resource.now }
{
    if user.level < resource.level {
        return Err(Classified::LevelTooLow);
    }
    match user.categories.first_missing(&resource.categories) {
        Some(missing) => Err(Classified::CategoryMissing(missing)),
        None => Ok(()),
    }
}
