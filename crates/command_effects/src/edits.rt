//! The edits that a command makes.
ghost use Rattle.std.specs.Prelude.{◌≡◌, [], ◌∷◌, IfOk};
ghost use Rattle.racf_profiles.specs.Lookup.{user_of, group_of};
ghost use Rattle.command_rules.specs.Effects.{altered_user, connected_user, removed_user, altered_group};
ghost use Rattle.command_fields.specs.declared.fields.CommandFields.TheVariants as fields;
ghost use Rattle.command_fields.specs.declared.profile_fields.Permit.{Permit};
ghost use Rattle.command_rules.specs.PermitEffects.{PermitFits};
ghost use Rattle.command_rules.specs.Edits.{edits_of, put_user, put_group};

mod classes;
mod options;
mod profiles;

use crate::made::{altered_user, connected_user, new_user, removed_user};
use classes::{edits_of_alter_class, edits_of_define_class, edits_of_r_delete};
use command_fields::{AltGroup, AltUser, CommandFields, Connect, Issuer, Remove};
use command_rules::{altered_group, dataset, new_group};
use options::edits_of_set_ropts;
use profiles::{
    edits_of_add_sd, edits_of_alt_sd, edits_of_permit, edits_of_r_alter, edits_of_r_define,
};
use racf_profiles::{Edit, NoMemory, View};
use row_tables::RowTables;
use std::alloc::Global;

/// The edits that the command makes of these rows: at most one of a row, and behind it one of the options. Those of
/// SETROPTS are one of the options, then those of the flags of classes, and then those that list and unlist classes.
/// RDEFINE in class CDT adds the class behind its profile, and RDELETE there drops it behind the profile, which goes
/// behind an edit of each user who has the class in his CLAUTH list: it copies all users to find them.
///
/// # Errors
///
/// Want of memory.
pub fn edits_of(
    alloc: Global,
    tables: &RowTables,
    issuer: &Issuer,
    command: &CommandFields,
) -> Result<Vec<Edit>, NoMemory>
    requires { (permit : Permit) → command.now ≡ fields.Permit permit → PermitFits permit tables.now.rows }
    ensures { IfOk result (λ edits. edits.items ≡ edits_of issuer.now command.now tables.now.rows) }
{
    match command {
        CommandFields::AddUser(command) => one(
            alloc,
            Edit::PutUser(new_user(alloc, tables, issuer, command)?),
        ),
        CommandFields::AltUser(command) => edits_of_alt_user(alloc, tables, command),
        CommandFields::DelUser(command) => one(alloc, Edit::DropUser(command.user)),
        CommandFields::AddGroup(command) => one(alloc, Edit::PutGroup(new_group(issuer, command))),
        CommandFields::AltGroup(command) => edits_of_alt_group(alloc, tables, command),
        CommandFields::DelGroup(command) => one(alloc, Edit::DropGroup(command.group)),
        CommandFields::Connect(command) => edits_of_connect(alloc, tables, issuer, command),
        CommandFields::Remove(command) => edits_of_remove(alloc, tables, issuer, command),
        CommandFields::AddSd(command) => edits_of_add_sd(alloc, tables, issuer, command),
        CommandFields::AltSd(command) => edits_of_alt_sd(alloc, tables, command),
        CommandFields::DelSd(command) => one(alloc, Edit::DropProfile(dataset(), command.profile)),
        CommandFields::RDefine(command) => edits_of_r_define(alloc, tables, issuer, command),
        CommandFields::RAlter(command) => edits_of_r_alter(alloc, tables, command),
        CommandFields::DefineClass(command) => edits_of_define_class(alloc, issuer, command),
        CommandFields::AlterClass(command) => edits_of_alter_class(alloc, tables, command),
        CommandFields::RDelete(command) => edits_of_r_delete(alloc, tables, command),
        CommandFields::Permit(command) => edits_of_permit(alloc, tables, command),
        CommandFields::SetRopts(command) => edits_of_set_ropts(alloc, tables, command),
    }
}

/// The edits of ALTUSER.
fn edits_of_alt_user(
    alloc: Global,
    tables: &RowTables,
    command: &AltUser,
) -> Result<Vec<Edit>, NoMemory>
    ensures { IfOk result (λ edits. edits.items ≡ put_user (altered_user command.now tables.now.rows) (user_of command.now.user tables.now.rows)) }
{
    match tables.user(command.user) {
        None => Ok(Vec::new(alloc)),
        Some(old) => one(
            alloc,
            Edit::PutUser(altered_user(alloc, tables, command, old)?),
        ),
    }
}

/// The edits of CONNECT.
fn edits_of_connect(
    alloc: Global,
    tables: &RowTables,
    issuer: &Issuer,
    command: &Connect,
) -> Result<Vec<Edit>, NoMemory>
    ensures { IfOk result (λ edits. edits.items ≡ put_user (connected_user issuer.now command.now) (user_of command.now.user tables.now.rows)) }
{
    match tables.user(command.user) {
        None => Ok(Vec::new(alloc)),
        Some(old) => one(
            alloc,
            Edit::PutUser(connected_user(alloc, issuer, command, old)?),
        ),
    }
}

/// The edits of REMOVE.
fn edits_of_remove(
    alloc: Global,
    tables: &RowTables,
    issuer: &Issuer,
    command: &Remove,
) -> Result<Vec<Edit>, NoMemory>
    ensures { IfOk result (λ edits. edits.items ≡ put_user (removed_user issuer.now command.now) (user_of command.now.user tables.now.rows)) }
{
    match tables.user(command.user) {
        None => Ok(Vec::new(alloc)),
        Some(old) => one(
            alloc,
            Edit::PutUser(removed_user(alloc, issuer, command, old)?),
        ),
    }
}

/// The edits of ALTGROUP.
fn edits_of_alt_group(
    alloc: Global,
    tables: &RowTables,
    command: &AltGroup,
) -> Result<Vec<Edit>, NoMemory>
    ensures { IfOk result (λ edits. edits.items ≡ put_group (altered_group command.now) (group_of command.now.group tables.now.rows)) }
{
    match tables.group(command.group) {
        None => Ok(Vec::new(alloc)),
        Some(old) => one(alloc, Edit::PutGroup(altered_group(command, old))),
    }
}

/// One edit.
#[inline(always)]
pub(crate) fn one(alloc: Global, edit: Edit) -> Result<Vec<Edit>, NoMemory>
    ensures { IfOk result (λ edits. edits.items ≡ edit ∷ []) }
{
    let mut edits = Vec::with_capacity(alloc, 1)?;
    edits.push(edit)?;
    Ok(edits)
}
