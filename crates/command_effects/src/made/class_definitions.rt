//! Profiles of class CDT as a command makes them.
ghost use Rattle.std.specs.Prelude.{◌≡◌, [], ◌∷◌, IfOk};
ghost use Rattle.command_rules.specs.ProfileEffects.{traits_given, new_class_profile, altered_class_profile};
ghost use Rattle.racf_profiles.specs.declared.profiles.Member.TheVariants.{Traits};

use super::profiles::first_profile;
use command_fields::{AlterClass, ClassNames, DefineClass, Issuer};
use command_rules::owner_or_issuer;
use racf_profiles::{ClassTraits, Member, Members, NoMemory, Profile};
use std::alloc::Global;

/// The profile of RDEFINE in class CDT.
pub(crate) fn new_class_profile(
    alloc: Global,
    issuer: &Issuer,
    command: &DefineClass,
) -> Result<Profile, NoMemory>
    ensures { IfOk result (λ profile. profile ≡ new_class_profile issuer.now command.now) }
{
    let owner = owner_or_issuer(issuer, command.owner);
    let members = only_traits(alloc, traits_given(command))?;
    Ok(Profile {
        members,
        ..first_profile(alloc, command.profile, owner)
    })
}

/// A profile of class CDT after RALTER.
pub(crate) fn altered_class_profile(
    alloc: Global,
    command: &AlterClass,
    old: &Profile,
) -> Result<Profile, NoMemory>
    ensures { IfOk result (λ profile. profile ≡ altered_class_profile command.now old.now) }
{
    let owner = command.owner.unwrap_or(old.owner);
    Ok(Profile {
        owner,
        ..old.copy(alloc)?
    })
}

/// The traits that RDEFINE in class CDT gives a class.
fn traits_given(command: &DefineClass) -> ClassTraits
    ensures { result ≡ traits_given command.now }
{
    ClassTraits {
        operations: command.operations.unwrap_or(false),
        ids: matches!(command.names, Some(ClassNames::Id)),
        longest: command.maxlength.unwrap_or(246),
    }
}

/// The one member of a profile of class CDT.
fn only_traits(alloc: Global, traits: ClassTraits) -> Result<Members, NoMemory>
    ensures { IfOk result (λ members. members ≡ Traits traits ∷ []) }
{
    let mut items = Vec::with_capacity(alloc, 1)?;
    items.push(Member::Traits(traits))?;
    Ok(Members { items })
}
