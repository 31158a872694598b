//! What the commands on users require.
ghost use Rattle.std.specs.Prelude.{◌≡◌};
ghost use Rattle.command_authority.specs.Requirements.{add_user_requirements, alt_user_requirements, del_user_requirements};

use crate::needs::{Need, Needs};
use crate::operands::{alters_attribute, alters_uaudit, alters_uaudit_alone, gives_attribute};
use crate::requirement::{Requirement, Target, over, over_where};
use command_fields::{AddUser, AltUser, DelUser, Issuer};

/// What ADDUSER requires.
#[tactic(auto, unfolding(crate::specs::Requirements::add_user_requirements))]
pub(crate) fn add_user(issuer: &Issuer, command: &AddUser) -> [Requirement; 2]
    ensures { result ≡ add_user_requirements issuer.now command.now }
{
    let group = issuer.group_or_current(command.dfltgrp);
    let needs = Needs::of(&[
        Need::Special,
        Need::UserJoin(group),
        Need::UserOwner,
        Need::UserGroupSpecial,
    ]);
    [
        over(Target::Group(group), needs),
        over_where(
            gives_attribute(command),
            Target::Nothing,
            Needs::of(&[Need::Special]),
        ),
    ]
}

/// What ALTUSER requires.
#[tactic(auto, unfolding(crate::specs::Requirements::alt_user_requirements))]
pub(crate) fn alt_user(command: &AltUser) -> [Requirement; 3]
    ensures { result ≡ alt_user_requirements command.now }
{
    [
        over_where(
            !alters_uaudit_alone(command),
            Target::User(command.user),
            Needs::of(&[Need::Special, Need::Owner, Need::GroupSpecial]),
        ),
        over_where(
            alters_attribute(command),
            Target::Nothing,
            Needs::of(&[Need::Special]),
        ),
        over_where(
            alters_uaudit(command),
            Target::Nothing,
            Needs::of(&[Need::Auditor]),
        ),
    ]
}

/// What DELUSER requires.
#[tactic(auto, unfolding(crate::specs::Requirements::del_user_requirements))]
pub(crate) fn del_user(command: &DelUser) -> [Requirement; 1]
    ensures { result ≡ del_user_requirements command.now }
{
    let needs = Needs::of(&[Need::Special, Need::Owner, Need::GroupSpecial]);
    [over(Target::User(command.user), needs)]
}
