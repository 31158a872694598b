//! Profiles as a command makes them.
ghost use Rattle.std.specs.Prelude.{◌≡◌, [], IfOk};
ghost use Rattle.command_rules.specs.ProfileEffects.{new_data_set, altered_data_set, new_resource, altered_resource};
ghost use Rattle.command_effects.specs.Operands.{first_profile};
ghost use Rattle.command_rules.specs.Members.{members_after};

use super::members::members_after;
use super::operands::{Operands, operands_of_altered, operands_of_new, with_operands};
use access_levels::{Categories, Id, Level};
use command_fields::{AddSd, AltSd, Issuer, RAlter, RDefine};
use generic_names::{MemberName, Pattern};
use racf_profiles::{AuditRule, CondEntries, Entries, Member, Members, NoMemory, Profile};
use row_tables::RowTables;
use std::alloc::Global;

/// The profile of ADDSD.
pub(crate) fn new_data_set(
    alloc: Global,
    tables: &RowTables,
    issuer: &Issuer,
    command: &AddSd,
) -> Profile
    ensures { result ≡ new_data_set issuer.now command.now tables.now.rows }
{
    let operands = operands_of_new!(command);
    with_operands(
        tables,
        first_profile(alloc, command.profile, issuer.id),
        &operands,
    )
}

/// A profile after ALTDSD.
pub(crate) fn altered_data_set(
    alloc: Global,
    tables: &RowTables,
    command: &AltSd,
    old: &Profile,
) -> Result<Profile, NoMemory>
    ensures { IfOk result (λ profile. profile ≡ altered_data_set command.now tables.now.rows old.now) }
{
    let operands = operands_of_altered!(command);
    Ok(with_operands(tables, old.copy(alloc)?, &operands))
}

/// The profile of RDEFINE.
pub(crate) fn new_resource(
    alloc: Global,
    tables: &RowTables,
    issuer: &Issuer,
    command: &RDefine,
) -> Result<Profile, NoMemory>
    ensures { IfOk result (λ profile. profile ≡ new_resource issuer.now command.now tables.now.rows) }
{
    let operands = operands_of_new!(command);
    let base = first_profile(alloc, command.profile, issuer.id);
    let profile = with_operands(tables, base, &operands);
    with_members(profile, command.addmem.items.as_slice(), &[])
}

/// A profile after RALTER.
pub(crate) fn altered_resource(
    alloc: Global,
    tables: &RowTables,
    command: &RAlter,
    old: &Profile,
) -> Result<Profile, NoMemory>
    ensures { IfOk result (λ profile. profile ≡ altered_resource command.now tables.now.rows old.now) }
{
    let operands = operands_of_altered!(command);
    let base = old.copy(alloc)?;
    let profile = with_operands(tables, base, &operands);
    with_members(
        profile,
        command.addmem.items.as_slice(),
        command.delmem.items.as_slice(),
    )
}

/// The profile that a command defines, before its operands change it.
pub(super) fn first_profile(alloc: Global, name: Pattern, owner: Id) -> Profile
    ensures { result ≡ first_profile name owner }
{
    Profile {
        name,
        owner,
        uacc: Level::NoAccess,
        warning: false,
        standard: no_entries(alloc),
        conditional: no_conditional_entries(alloc),
        level: 0,
        categories: Categories::none(),
        label: None,
        audit: FAILURES_FROM_READ,
        global_audit: NO_AUDIT,
        members: no_members(alloc),
    }
}

/// The profile without the members of DELMEM, and then with those of ADDMEM.
fn with_members(
    profile: Profile,
    added: &[Member],
    gone: &[MemberName],
) -> Result<Profile, NoMemory>
    ensures { IfOk result (λ after. after ≡ record profile { members = members_after added.now gone.now profile.members }) }
{
    let items = members_after(profile.members.items, added, gone)?;
    Ok(Profile {
        members: Members { items },
        ..profile
    })
}

/// What a new profile logs without AUDIT: failures from READ on.
const FAILURES_FROM_READ: AuditRule = AuditRule {
    success: None,
    failures: Some(Level::Read),
};

/// Global auditing that logs nothing.
const NO_AUDIT: AuditRule = AuditRule {
    success: None,
    failures: None,
};

/// No entry.
fn no_entries(alloc: Global) -> Entries
    ensures { result ≡ [] }
{
    Entries {
        items: Vec::new(alloc),
    }
}

/// No conditional entry.
fn no_conditional_entries(alloc: Global) -> CondEntries
    ensures { result ≡ [] }
{
    CondEntries {
        items: Vec::new(alloc),
    }
}

/// No member.
fn no_members(alloc: Global) -> Members
    ensures { result ≡ [] }
{
    Members {
        items: Vec::new(alloc),
    }
}
