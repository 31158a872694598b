//! Parts of the rows that a command makes: groups, attributes and owners.
ghost use Rattle.std.specs.Prelude.{◌≡◌};
ghost use Rattle.command_rules.specs.Effects.{switched, owner_or_issuer, new_group, altered_group, attributes_after};
ghost use Rattle.command_rules.specs.ProfileEffects.{dataset, named_class, deleted_class};

use access_levels::{Attributes, Id};
use command_fields::{AddGroup, AltGroup, AltUser, Issuer, RDelete, is_cdt};
use generic_names::Pattern;
use racf_profiles::{FixedClass, Group};

/// The owner that is named, or else the issuer.
pub fn owner_or_issuer(issuer: &Issuer, given: Option<Id>) -> Id
    ensures { result ≡ owner_or_issuer issuer.now given }
{
    given.unwrap_or(issuer.id)
}

/// An attribute after X, which gives it, and NOX behind it, which takes it away.
pub fn switched(on: bool, off: bool, before: bool) -> bool
    ensures { result ≡ switched on off before }
{
    !off && (on || before)
}

/// The group of ADDGROUP.
pub fn new_group(issuer: &Issuer, command: &AddGroup) -> Group
    ensures { result ≡ new_group issuer.now command.now }
{
    Group {
        id: command.group,
        superior: Some(issuer.group_or_current(command.supgroup)),
        owner: owner_or_issuer(issuer, command.owner),
    }
}

/// A group after ALTGROUP.
pub fn altered_group(command: &AltGroup, old: &Group) -> Group
    ensures { result ≡ altered_group command.now old.now }
{
    Group {
        id: old.id,
        superior: command.supgroup.or(old.superior),
        owner: command.owner.unwrap_or(old.owner),
    }
}

/// The attributes of a user after ALTUSER.
pub fn attributes_after(command: &AltUser, old: Attributes) -> Attributes
    ensures { result ≡ attributes_after command.now old }
{
    Attributes {
        special: switched(command.special, command.nospecial, old.special),
        operations: switched(command.operations, command.nooperations, old.operations),
        auditor: switched(command.auditor, command.noauditor, old.auditor),
        restricted: switched(command.restricted, command.norestricted, old.restricted),
        revoked: switched(command.revoke, command.resume, old.revoked),
        uaudit: switched(command.uaudit, command.nouaudit, old.uaudit),
    }
}

/// The class of the data set profiles.
pub fn dataset() -> Id
    ensures { result ≡ dataset }
{
    FixedClass::Dataset.id()
}

/// The class that the name of a profile in CDT stands for; none where it isn't spelled as an ID, which no text gives.
pub fn named_class(name: &Pattern) -> Option<Id>
    ensures { result ≡ named_class name.now }
{
    Id::read(name.text()).ok()
}

/// The class that RDELETE takes away with its profile: in CDT the one of the profile's name.
pub fn deleted_class(command: &RDelete) -> Option<Id>
    ensures { result ≡ deleted_class command.now }
{
    if is_cdt(command.class) {
        named_class(&command.profile)
    } else {
        None
    }
}
