//! What the commands on profiles require.
ghost use Rattle.std.specs.Prelude.{◌≡◌, is_ok, IsTrue};
ghost use Rattle.access_levels.specs.Spelling.{id_of};
ghost use Rattle.generic_names.specs.Spelled.{first_qualifier};
ghost use Rattle.command_authority.specs.Requirements.{dataset, over_new_data_set, profile_needs, over_profile, auditing, add_sd_requirements, alt_sd_requirements, del_sd_requirements, r_define_requirements, define_class_requirements, alter_class_requirements, r_alter_requirements, r_delete_requirements, permit_requirements};

use crate::needs::{Need, Needs};
use crate::operands::{alt_sd_audits_alone, r_alter_audits_alone};
use crate::requirement::{Requirement, Target, over, over_where};
use access_levels::Id;
use command_fields::{AddSd, AltSd, AlterClass, DelSd, Permit, RAlter, RDefine, RDelete, cdt};
use generic_names::{Pattern, first_qualifier};
use racf_profiles::FixedClass;

/// What ADDSD requires.
#[tactic(auto, unfolding(crate::specs::Requirements::add_sd_requirements))]
pub(crate) fn add_sd(command: &AddSd) -> [Requirement; 1]
    requires { IsTrue (is_ok (id_of (first_qualifier command.now.profile.text))) }
    ensures { result ≡ add_sd_requirements command.now }
{
    [over_new_data_set(qualifier_of(&command.profile))]
}

/// The first qualifier of a data set profile's name, which is an ID.
fn qualifier_of(name: &Pattern) -> Id
    requires { IsTrue (is_ok (id_of (first_qualifier name.now.text))) }
    ensures { result ≡ first_qualifier name.now.text }
{
    match Id::read(first_qualifier(name.text())) {
        Ok(qualifier) => qualifier,
        Err(_) => unreachable!(),
    }
}

/// What a new data set profile requires, by its first qualifier.
fn over_new_data_set(qualifier: Id) -> Requirement
    ensures { result ≡ over_new_data_set qualifier }
{
    let needs = Needs::of(&[
        Need::Special,
        Need::OwnData,
        Need::Create(qualifier),
        Need::GroupSpecial,
    ]);
    over(Target::DataSets(qualifier), needs)
}

/// What RDEFINE requires.
#[tactic(auto, unfolding(crate::specs::Requirements::r_define_requirements))]
pub(crate) fn r_define(command: &RDefine) -> [Requirement; 1]
    ensures { result ≡ r_define_requirements command.now }
{
    let needs = Needs::of(&[Need::Special, Need::ClassAuthority(command.class)]);
    [over(Target::Nothing, needs)]
}

/// What RDEFINE in class CDT requires.
#[tactic(auto, unfolding(crate::specs::Requirements::define_class_requirements))]
pub(crate) fn define_class() -> [Requirement; 1]
    ensures { result ≡ define_class_requirements }
{
    let needs = Needs::of(&[Need::Special, Need::ClassAuthority(cdt())]);
    [over(Target::Nothing, needs)]
}

/// What RALTER in class CDT requires.
#[tactic(auto, unfolding(crate::specs::Requirements::alter_class_requirements))]
pub(crate) fn alter_class(command: &AlterClass) -> [Requirement; 1]
    ensures { result ≡ alter_class_requirements command.now }
{
    [over_profile(true, cdt(), &command.profile)]
}

/// What ALTSD requires.
#[tactic(auto, unfolding(crate::specs::Requirements::alt_sd_requirements))]
pub(crate) fn alt_sd(command: &AltSd) -> [Requirement; 2]
    ensures { result ≡ alt_sd_requirements command.now }
{
    [
        over_profile(!alt_sd_audits_alone(command), dataset(), &command.profile),
        auditing(command.globalaudit.is_some()),
    ]
}

/// What DELSD requires.
#[tactic(auto, unfolding(crate::specs::Requirements::del_sd_requirements))]
pub(crate) fn del_sd(command: &DelSd) -> [Requirement; 1]
    ensures { result ≡ del_sd_requirements command.now }
{
    [over_profile(true, dataset(), &command.profile)]
}

/// What RALTER requires.
#[tactic(auto, unfolding(crate::specs::Requirements::r_alter_requirements))]
pub(crate) fn r_alter(command: &RAlter) -> [Requirement; 2]
    ensures { result ≡ r_alter_requirements command.now }
{
    [
        over_profile(
            !r_alter_audits_alone(command),
            command.class,
            &command.profile,
        ),
        auditing(command.globalaudit.is_some()),
    ]
}

/// What RDELETE requires.
#[tactic(auto, unfolding(crate::specs::Requirements::r_delete_requirements))]
pub(crate) fn r_delete(command: &RDelete) -> [Requirement; 1]
    ensures { result ≡ r_delete_requirements command.now }
{
    [over_profile(true, command.class, &command.profile)]
}

/// What PERMIT requires.
#[tactic(auto, unfolding(crate::specs::Requirements::permit_requirements))]
pub(crate) fn permit(command: &Permit) -> [Requirement; 1]
    ensures { result ≡ permit_requirements command.now }
{
    [over_profile(true, command.class, &command.profile)]
}

/// What a change of a profile that is there requires.
fn over_profile(stands: bool, class: Id, name: &Pattern) -> Requirement
    ensures { result ≡ over_profile stands class name.now }
{
    over_where(
        stands,
        Target::Profile(class, *name),
        profile_needs(class, name),
    )
}

/// What is needed over a profile: in class DATASET one's own data count, and an entry counts for a discrete profile.
fn profile_needs(class: Id, name: &Pattern) -> Needs
    ensures { result ≡ profile_needs class name.now }
{
    Needs::of(&[Need::Special, Need::Owner, Need::GroupSpecial])
        .and_where(class == dataset(), Need::OwnData)
        .and_where(!name.is_generic(), Need::AlterEntry)
}

/// What GLOBALAUDIT requires.
pub(crate) fn auditing(stands: bool) -> Requirement
    ensures { result ≡ auditing stands }
{
    over_where(stands, Target::Nothing, Needs::of(&[Need::Auditor]))
}

/// The class of data sets.
fn dataset() -> Id
    ensures { result ≡ dataset }
{
    FixedClass::Dataset.id()
}
