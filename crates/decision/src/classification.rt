//! The classification check: levels, categories and labels.
ghost use Rattle.std.specs.Prelude.{◌≡◌, true, None, is_some, option_map};
ghost use Rattle.racf_profiles.specs.declared.profiles.Profile.{Profile};
ghost use Rattle.raclist_image.specs.Facts.{AreFacts};
ghost use Rattle.decision.specs.Classification.{classified, label_profile, profile_label, label_value, valued, user_clearance, resource_clearance, checks};

use access_levels::{Categories, Id, Level};
use acee::{Acee, is_active};
use racf_profiles::{FixedClass, general_name};
use raclist_image::{Facts, Image};
use seclabels::{Checks, Classified, Clearance, Label, check};

/// Why the classification check of a profile fails, if it does. What isn't classified bars nobody, and then nothing is
/// looked up.
#[inline(always)]
pub(crate) fn classified(
    image: &Image,
    acee: &Acee,
    facts: &Facts<'_>,
    asked: Level,
) -> Option<Classified>
    ensures { (p : Profile) → AreFacts p facts.now → result ≡ classified image.now.state acee.now p asked }
{
    if is_unclassified(facts) {
        return None;
    }
    checked(image, acee, facts, asked)
}

/// Whether the profile has no level, no category and no label.
#[inline(always)]
fn is_unclassified(facts: &Facts<'_>) -> bool
    ensures { (p : Profile) → AreFacts p facts.now → result ≡ true → (p.level ≡ 0) × ((p.categories ≡ 0) × (p.label ≡ None)) }
{
    facts.label.is_none() && facts.level == 0 && facts.categories == Categories::none()
}

/// The classification check of a profile.
#[tactic(auto, unfolding(crate::specs::Classification::classified))]
fn checked(image: &Image, acee: &Acee, facts: &Facts<'_>, asked: Level) -> Option<Classified>
    ensures { (p : Profile) → AreFacts p facts.now → result ≡ classified image.now.state acee.now p asked }
{
    let user = user_clearance(image, acee);
    let resource = resource_clearance(image, facts);
    check(&user, &resource, checks(image), asked).err()
}

/// Which checks are made: that of labels while class SECLABEL is active, those of levels and categories while SECDATA
/// is.
fn checks(image: &Image) -> Checks
    ensures { result ≡ checks image.now.state.rows }
{
    Checks {
        labels: is_active(image, FixedClass::Seclabel.id()),
        levels: is_active(image, FixedClass::Secdata.id()),
        mls: image.options().mls,
    }
}

/// What the user has.
fn user_clearance(image: &Image, acee: &Acee) -> Clearance
    ensures { result ≡ user_clearance image.now.state acee.now }
{
    Clearance {
        level: acee.level,
        categories: acee.categories,
        label: valued(image, &acee.label, Label::system_low()),
    }
}

/// What the resource has, by its profile.
fn resource_clearance(image: &Image, facts: &Facts<'_>) -> Clearance
    ensures { (p : Profile) → AreFacts p facts.now → result ≡ resource_clearance image.now.state p }
{
    Clearance {
        level: facts.level,
        categories: facts.categories,
        label: valued(image, &facts.label, Label::system_high()),
    }
}

/// The value of a label, where there is one: `otherwise` where it has none.
fn valued(image: &Image, label: &Option<Id>, otherwise: Label) -> Option<Label>
    ensures { result ≡ option_map (valued image.now.state otherwise) label.now }
{
    match label {
        Some(label) => Some(label_value(image, *label).unwrap_or(otherwise)),
        None => None,
    }
}

/// The value of a label.
fn label_value(image: &Image, label: Id) -> Option<Label>
    ensures { result ≡ label_value image.now.state label }
{
    if label.text() == b"SYSHIGH".as_slice() {
        return Some(Label::system_high());
    }
    if label.text() == b"SYSLOW".as_slice() {
        return Some(Label::system_low());
    }
    profile_label(image, label)
}

/// The level and the categories of the effective profile of a label.
fn profile_label(image: &Image, label: Id) -> Option<Label>
    ensures { result ≡ option_map profile_label (label_profile image.now.state label) }
{
    let profiles = image.effective(FixedClass::Seclabel.id())?;
    match profiles.find(&general_name(label)) {
        Some(facts) => Some(Label {
            level: facts.level,
            categories: facts.categories,
        }),
        None => None,
    }
}

/// Whether a label has an effective profile.
pub(crate) fn has_label_profile(image: &Image, label: Id) -> bool
    ensures { result ≡ is_some (label_profile image.now.state label) }
{
    match image.effective(FixedClass::Seclabel.id()) {
        Some(profiles) => profiles.find(&general_name(label)).is_some(),
        None => false,
    }
}
