//! The edits of the commands on profiles.
ghost use Rattle.std.specs.Prelude.{◌≡◌, ◌++◌, IfOk};
ghost use Rattle.racf_profiles.specs.Lookup.{profile_of};
ghost use Rattle.command_rules.specs.Members.{options_after};
ghost use Rattle.command_rules.specs.ProfileEffects.{dataset, altered_data_set, altered_resource};
ghost use Rattle.command_rules.specs.PermitEffects.{permitted_profile, PermitFits};
ghost use Rattle.command_rules.specs.Edits.{put_changed, put_options, edits_of_add_sd, edits_of_alt_sd, edits_of_r_define, edits_of_r_alter, edits_of_permit};

use super::one;
use crate::made::{
    altered_data_set, altered_resource, categories_defined, new_data_set, new_resource,
    permitted_profile,
};
use command_fields::{AddSd, AltSd, Issuer, Permit, RAlter, RDefine};
use command_rules::dataset;
use racf_profiles::{CategoryNames, Edit, Members, NoMemory, Options, View};
use row_tables::RowTables;
use std::alloc::Global;

/// The edits of ADDSD.
pub(super) fn edits_of_add_sd(
    alloc: Global,
    tables: &RowTables,
    issuer: &Issuer,
    command: &AddSd,
) -> Result<Vec<Edit>, NoMemory>
    ensures { IfOk result (λ edits. edits.items ≡ edits_of_add_sd issuer.now command.now tables.now.rows) }
{
    let profile = new_data_set(alloc, tables, issuer, command);
    one(alloc, Edit::PutProfile(dataset(), profile))
}

/// The edits of ALTSD.
pub(super) fn edits_of_alt_sd(
    alloc: Global,
    tables: &RowTables,
    command: &AltSd,
) -> Result<Vec<Edit>, NoMemory>
    ensures { IfOk result (λ edits. edits.items ≡ edits_of_alt_sd command.now tables.now.rows) }
{
    match tables.profile(dataset(), &command.profile) {
        None => Ok(Vec::new(alloc)),
        Some(old) => {
            let profile = altered_data_set(alloc, tables, command, old)?;
            one(alloc, Edit::PutProfile(dataset(), profile))
        }
    }
}

/// The edits of RDEFINE.
#[inline(always)]
pub(super) fn edits_of_r_define(
    alloc: Global,
    tables: &RowTables,
    issuer: &Issuer,
    command: &RDefine,
) -> Result<Vec<Edit>, NoMemory>
    ensures { IfOk result (λ edits. edits.items ≡ edits_of_r_define issuer.now command.now tables.now.rows) }
{
    let profile = new_resource(alloc, tables, issuer, command)?;
    let edits = one(alloc, Edit::PutProfile(command.class, profile))?;
    with_options(alloc, tables, &command.addmem, edits)
}

/// The edits of RALTER.
pub(super) fn edits_of_r_alter(
    alloc: Global,
    tables: &RowTables,
    command: &RAlter,
) -> Result<Vec<Edit>, NoMemory>
    ensures { IfOk result (λ edits. edits.items ≡ edits_of_r_alter command.now tables.now.rows) }
{
    let edits = put_altered_resource(alloc, tables, command)?;
    with_options(alloc, tables, &command.addmem, edits)
}

/// The edit of the profile that RALTER changes.
fn put_altered_resource(
    alloc: Global,
    tables: &RowTables,
    command: &RAlter,
) -> Result<Vec<Edit>, NoMemory>
    ensures { IfOk result (λ edits. edits.items ≡ put_changed command.now.class (altered_resource command.now tables.now.rows) (profile_of command.now.class command.now.profile tables.now.rows)) }
{
    match tables.profile(command.class, &command.profile) {
        None => Ok(Vec::new(alloc)),
        Some(old) => {
            let profile = altered_resource(alloc, tables, command, old)?;
            one(alloc, Edit::PutProfile(command.class, profile))
        }
    }
}

/// The edits of PERMIT.
#[inline(always)]
pub(super) fn edits_of_permit(
    alloc: Global,
    tables: &RowTables,
    command: &Permit,
) -> Result<Vec<Edit>, NoMemory>
    requires { PermitFits command.now tables.now.rows }
    ensures { IfOk result (λ edits. edits.items ≡ edits_of_permit command.now tables.now.rows) }
{
    match tables.profile(command.class, &command.profile) {
        None => Ok(Vec::new(alloc)),
        Some(old) => {
            let profile = permitted_profile(alloc, command, old)?;
            one(alloc, Edit::PutProfile(command.class, profile))
        }
    }
}

/// Edits, and behind them the one of the options, where members are added.
fn with_options(
    alloc: Global,
    tables: &RowTables,
    added: &Members,
    edits: Vec<Edit>,
) -> Result<Vec<Edit>, NoMemory>
    ensures { IfOk result (λ all. all.items ≡ edits.items ++ put_options added.now tables.now.rows.options) }
{
    let mut edits = edits;
    if added.items.is_empty() {
        return Ok(edits);
    }
    edits.push(Edit::PutOptions(options_after(alloc, tables, added)?))?;
    Ok(edits)
}

/// The options with the categories that are new.
fn options_after(alloc: Global, tables: &RowTables, added: &Members) -> Result<Options, NoMemory>
    ensures { IfOk result (λ options. options ≡ options_after added.now tables.now.rows.options) }
{
    let old = tables.options().categories.items.as_slice();
    let items = categories_defined(alloc, added.items.as_slice(), old)?;
    Ok(Options {
        grplist: tables.options().grplist,
        protectall: tables.options().protectall,
        mls: tables.options().mls,
        categories: CategoryNames { items },
    })
}
