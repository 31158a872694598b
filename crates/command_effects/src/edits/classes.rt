//! The edits of RDEFINE and RALTER in class CDT, and of RDELETE.
ghost use Rattle.std.specs.Prelude.{◌≡◌, ◌∷◌, ◌++◌, map, IfOk};
ghost use Rattle.std.specs.List.{filter};
ghost use Rattle.racf_profiles.specs.declared.users.User.{User as UserRow};
ghost use Rattle.racf_profiles.specs.declared.edits.Edit.TheVariants.{PutUser, DropProfile};
ghost use Rattle.command_rules.specs.ProfileEffects.{has_clauth, without_clauth, deleted_class};
ghost use Rattle.command_rules.specs.Edits.{add_class, drop_class, put_without_clauth, edits_of_define_class, edits_of_alter_class, edits_of_r_delete};

use super::one;
use crate::made::{altered_class_profile, has_clauth, new_class_profile, without_clauth};
use access_levels::Id;
use command_fields::{AlterClass, DefineClass, Issuer, RDelete, cdt};
use command_rules::{deleted_class, named_class};
use racf_profiles::{Edit, NoMemory, Users, View};
use row_tables::RowTables;
use std::alloc::Global;

/// The edits of RDEFINE in class CDT.
pub(super) fn edits_of_define_class(
    alloc: Global,
    issuer: &Issuer,
    command: &DefineClass,
) -> Result<Vec<Edit>, NoMemory>
    ensures { IfOk result (λ edits. edits.items ≡ edits_of_define_class issuer.now command.now) }
{
    let profile = new_class_profile(alloc, issuer, command)?;
    let edits = one(alloc, Edit::PutProfile(cdt(), profile))?;
    with_class_added(edits, named_class(&command.profile))
}

/// The edits of RALTER in class CDT.
pub(super) fn edits_of_alter_class(
    alloc: Global,
    tables: &RowTables,
    command: &AlterClass,
) -> Result<Vec<Edit>, NoMemory>
    ensures { IfOk result (λ edits. edits.items ≡ edits_of_alter_class command.now tables.now.rows) }
{
    match tables.profile(cdt(), &command.profile) {
        None => Ok(Vec::new(alloc)),
        Some(old) => {
            let profile = altered_class_profile(alloc, command, old)?;
            one(alloc, Edit::PutProfile(cdt(), profile))
        }
    }
}

/// The edits of RDELETE.
pub(super) fn edits_of_r_delete(
    alloc: Global,
    tables: &RowTables,
    command: &RDelete,
) -> Result<Vec<Edit>, NoMemory>
    ensures { IfOk result (λ edits. edits.items ≡ edits_of_r_delete command.now tables.now.rows) }
{
    let edits = put_without_clauth(alloc, tables, command)?;
    with_drops(edits, command)
}

/// The edits of the users who have the class, where one is taken away, in their CLAUTH lists.
fn put_without_clauth(
    alloc: Global,
    tables: &RowTables,
    command: &RDelete,
) -> Result<Vec<Edit>, NoMemory>
    ensures { IfOk result (λ edits. edits.items ≡ put_without_clauth (deleted_class command.now) tables.now.rows.users) }
{
    match deleted_class(command) {
        None => Ok(Vec::new(alloc)),
        Some(class) => put_each_without_clauth(alloc, tables.users().rows(alloc)?, class),
    }
}

/// The edits of those of these users who have the class in their CLAUTH lists: each without it.
fn put_each_without_clauth(alloc: Global, users: Users, class: Id) -> Result<Vec<Edit>, NoMemory>
    ensures { IfOk result (λ edits. edits.items ≡ map (λ (user : UserRow). PutUser (without_clauth class user)) (filter (has_clauth class) users)) }
{
    let mut edits = Vec::new(alloc);
    for user in users.items {
        if has_clauth(&user, class) {
            edits.push(Edit::PutUser(without_clauth(alloc, user, class)?))?;
        }
    }
    Ok(edits)
}

/// Edits, and behind them the one that adds a class.
fn with_class_added(edits: Vec<Edit>, class: Option<Id>) -> Result<Vec<Edit>, NoMemory>
    ensures { IfOk result (λ all. all.items ≡ edits.items ++ add_class class) }
{
    let mut edits = edits;
    if let Some(class) = class {
        edits.push(Edit::AddClass(class))?;
    }
    Ok(edits)
}

/// Edits, and behind them the one that drops the profile, and the one that drops the class that goes with it.
fn with_drops(edits: Vec<Edit>, command: &RDelete) -> Result<Vec<Edit>, NoMemory>
    ensures { IfOk result (λ all. all.items ≡ edits.items ++ DropProfile command.now.class command.now.profile ∷ drop_class (deleted_class command.now)) }
{
    let mut edits = edits;
    edits.push(Edit::DropProfile(command.class, command.profile))?;
    if let Some(class) = deleted_class(command) {
        edits.push(Edit::DropClass(class))?;
    }
    Ok(edits)
}
