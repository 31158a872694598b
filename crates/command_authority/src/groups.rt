//! What the commands on groups and connections require.
ghost use Rattle.std.specs.Prelude.{◌≡◌, option_and_then};
ghost use Rattle.racf_profiles.specs.declared.groups.Group.{Group};
ghost use Rattle.racf_profiles.specs.Lookup.{group_of};
ghost use Rattle.command_authority.specs.Requirements.{below, leaving, giving, over_members, add_group_requirements, alt_group_requirements, del_group_requirements, connect_requirements, remove_requirements};

use crate::needs::{Need, Needs};
use crate::operands::alters_group_attribute;
use crate::requirement::{Requirement, Target, over, over_where};
use access_levels::{GroupAuthority, Id};
use command_fields::{AddGroup, AltGroup, Connect, DelGroup, Issuer, Remove};
use racf_profiles::View;

/// What ADDGROUP requires.
#[tactic(auto, unfolding(crate::specs::Requirements::add_group_requirements))]
pub(crate) fn add_group(issuer: &Issuer, command: &AddGroup) -> [Requirement; 1]
    ensures { result ≡ add_group_requirements issuer.now command.now }
{
    let superior = issuer.group_or_current(command.supgroup);
    [over(Target::Group(superior), below(superior))]
}

/// What ALTGROUP requires.
#[tactic(auto, unfolding(crate::specs::Requirements::alt_group_requirements))]
pub(crate) fn alt_group(command: &AltGroup) -> [Requirement; 2]
    ensures { result ≡ alt_group_requirements command.now }
{
    let superior = command.supgroup.unwrap_or(command.group);
    let stands = command.supgroup.is_some();
    [
        over(
            Target::Group(command.group),
            Needs::of(&[Need::Special, Need::Owner, Need::GroupSpecial]),
        ),
        over_where(stands, Target::Group(superior), below(superior)),
    ]
}

/// What DELGROUP requires.
#[tactic(auto, unfolding(crate::specs::Requirements::del_group_requirements))]
pub(crate) fn del_group<V: View>(view: &V, command: &DelGroup) -> [Requirement; 1]
    ensures { result ≡ del_group_requirements (V.rows view.now) command.now }
{
    let superior = superior_of(view, command.group);
    [over(Target::Group(command.group), leaving(superior))]
}

/// The superior group of a group.
fn superior_of<V: View>(view: &V, group: Id) -> Option<Id>
    ensures { result ≡ option_and_then (λ (group : Group). group.superior) (group_of group (V.rows view.now)) }
{
    match view.group(group) {
        Some(row) => row.superior,
        None => None,
    }
}

/// SPECIAL, JOIN in the superior group, or to own the target or to have group-SPECIAL over it.
fn below(superior: Id) -> Needs
    ensures { result ≡ below superior }
{
    Needs::of(&[
        Need::Special,
        Need::Join(superior),
        Need::Owner,
        Need::GroupSpecial,
    ])
}

/// What DELGROUP needs. SYS1 has no superior group.
fn leaving(superior: Option<Id>) -> Needs
    ensures { result ≡ leaving superior }
{
    match superior {
        None => Needs::of(&[Need::Special, Need::Owner, Need::GroupSpecial]),
        Some(superior) => below(superior),
    }
}

/// What CONNECT requires.
#[tactic(auto, unfolding(crate::specs::Requirements::connect_requirements))]
pub(crate) fn connect(issuer: &Issuer, command: &Connect) -> [Requirement; 3]
    ensures { result ≡ connect_requirements issuer.now command.now }
{
    let group = issuer.group_or_current(command.group);
    [
        over_members(group),
        over_where(
            command.authority.is_some(),
            Target::Group(group),
            giving(command.authority),
        ),
        over_where(
            alters_group_attribute(command),
            Target::Group(group),
            Needs::of(&[Need::Special, Need::GroupSpecial]),
        ),
    ]
}

/// What REMOVE requires.
#[tactic(auto, unfolding(crate::specs::Requirements::remove_requirements))]
pub(crate) fn remove(issuer: &Issuer, command: &Remove) -> [Requirement; 1]
    ensures { result ≡ remove_requirements issuer.now command.now }
{
    [over_members(issuer.group_or_current(command.group))]
}

/// What connections to a group require.
fn over_members(group: Id) -> Requirement
    ensures { result ≡ over_members group }
{
    let needs = Needs::of(&[
        Need::Special,
        Need::Connect(group),
        Need::Owner,
        Need::GroupSpecial,
    ]);
    over(Target::Group(group), needs)
}

/// What AUTHORITY needs.
fn giving(authority: Option<GroupAuthority>) -> Needs
    ensures { result ≡ giving authority }
{
    match authority {
        None => Needs::of(&[]),
        Some(wanted) => Needs::of(&[
            Need::Special,
            Need::Owner,
            Need::GroupSpecial,
            Need::Authority(wanted),
        ]),
    }
}
