//! What a command conflicts with.
ghost use Rattle.std.specs.Prelude.{◌≡◌};
ghost use Rattle.std.specs.Result.{result_err};
ghost use Rattle.command_rules.specs.ProfileEffects.{dataset};
ghost use Rattle.command_rules.specs.ProfileConflicts.{add_sd_requirements, new_profile_limits, add_sd_conflicts, alt_sd_conflicts, del_sd_conflicts, r_define_requirements, new_resource_limits, r_define_conflicts, r_alter_conflicts, define_class_requirements, new_class_limits, define_class_conflicts, alter_class_conflicts, r_delete_conflicts, permit_conflicts};
ghost use Rattle.command_rules.specs.OptionConflicts.{set_ropts_conflicts};
ghost use Rattle.command_rules.specs.Conflicts.{conflict_of, conflicts, first_met, add_user_conflicts, alt_user_conflicts, del_user_conflicts, add_group_conflicts, alt_group_conflicts, del_group_conflicts, connect_conflicts, remove_conflicts};

mod classes;
mod groups;
mod members;
mod names;
mod options;
mod permit;
mod profiles;
mod security;
mod users;

use classes::{check_class_free, check_class_unused, check_classes_fit, check_name_allowed};
use command_fields::{
    AddGroup, AddSd, AddUser, AltGroup, AltSd, AltUser, AlterClass, CommandFields, Connect,
    DefineClass, DelGroup, DelSd, DelUser, Issuer, Permit, RAlter, RDefine, RDelete, Remove,
    SetRopts, cdt,
};
use command_rules::{Conflict, dataset};
use groups::{
    check_altered_owner, check_cycle, check_group_fits, check_new_owner, check_no_subgroup,
    check_root_gone, check_root_moved,
};
use members::{check_categories_fit, check_members_fit, check_new_members_fit};
use names::{
    check_classes, check_connected, check_default_connected, check_free, check_group,
    check_named_group, check_no_profile, check_none_connected, check_not_default, check_owner,
    check_user,
};
use options::{
    check_generic_classes, check_known_classes, check_listed_anew, check_listed_classes,
    check_logged_classes, check_not_always_active, check_refreshed,
};
use permit::{check_conditional_fits, check_entries_fit, check_permitted, check_standard_fits};
use profiles::{
    check_class, check_class_profiles_fit, check_first_qualifier, check_found, check_generic,
    check_global_class, check_profile, check_profile_free, check_profiles_fit,
    check_resource_class, check_resource_profile,
};
use racf_profiles::View;
use row_tables::RowTables;
use security::{check_categories, check_former_categories, check_label, check_level};
use users::{
    check_connection_fits, check_connects_of_user, check_new_connection_fits,
    check_special_user_altered, check_special_user_gone, check_user_fits,
};

/// The first conflict that these tests meet. Each stands for `test?`, of which Rattle makes no proof where the error
/// is an enum with enums of names in it.
macro_rules! first_conflict {
    ($($test:expr),+ $(,)?) => {{
        $(
            if let Err(conflict) = $test {
                return Err(conflict);
            }
        )+
        Ok(())
    }};
}

/// Whether the rows allow the command. It takes no memory. A command takes a look-up for each name in it. DELGROUP also
/// looks at every group, where a user may be connected at every user, and where a data set profile may have its name,
/// as DELUSER does, at every data set profile. PERMIT compares each ID with those before it and with the entries of
/// the list, and ADDMEM each member with those before it and with the others.
///
/// # Errors
///
/// The first conflict that is met, by the order of the kinds and then of the operands in the canonical text.
pub fn check_command(
    tables: &RowTables,
    issuer: &Issuer,
    command: &CommandFields,
) -> Result<(), Conflict>
    ensures { result_err result ≡ conflict_of issuer.now command.now tables.now.rows }
{
    match command {
        CommandFields::AddUser(command) => check_add_user(tables, issuer, command),
        CommandFields::AltUser(command) => check_alt_user(tables, issuer, command),
        CommandFields::DelUser(command) => check_del_user(tables, issuer, command),
        CommandFields::AddGroup(command) => check_add_group(tables, issuer, command),
        CommandFields::AltGroup(command) => check_alt_group(tables, command),
        CommandFields::DelGroup(command) => check_del_group(tables, command),
        CommandFields::Connect(command) => check_connect(tables, issuer, command),
        CommandFields::Remove(command) => check_remove(tables, issuer, command),
        CommandFields::AddSd(command) => check_add_sd(tables, issuer, command),
        CommandFields::AltSd(command) => check_alt_sd(tables, command),
        CommandFields::DelSd(command) => check_del_sd(tables, command),
        CommandFields::RDefine(command) => check_r_define(tables, issuer, command),
        CommandFields::RAlter(command) => check_r_alter(tables, issuer, command),
        CommandFields::DefineClass(command) => check_define_class(tables, issuer, command),
        CommandFields::AlterClass(command) => check_alter_class(tables, command),
        CommandFields::RDelete(command) => check_r_delete(tables, command),
        CommandFields::Permit(command) => check_permit(tables, issuer, command),
        CommandFields::SetRopts(command) => check_set_ropts(tables, command),
    }
}

/// The tests of ADDUSER, in their order.
#[tactic(auto, unfolding(command_rules::specs::Conflicts::add_user_conflicts, command_rules::specs::Conflicts::user_full))]
fn check_add_user(tables: &RowTables, issuer: &Issuer, command: &AddUser) -> Result<(), Conflict>
    ensures { result_err result ≡ first_met (add_user_conflicts issuer.now command.now tables.now.rows) }
{
    first_conflict![
        check_owner(tables, command.owner),
        check_group(tables, issuer.group_or_current(command.dfltgrp)),
        check_classes(tables, &command.clauth),
        check_free(tables, command.user),
        check_level(tables, command.seclevel),
        check_categories(tables, &command.addcategory),
        check_label(tables, command.seclabel),
        check_user_fits(tables, issuer, command),
        check_new_connection_fits(tables, issuer, command),
    ]
}

/// The tests of ALTUSER, in their order.
#[tactic(auto, unfolding(command_rules::specs::Conflicts::alt_user_conflicts))]
fn check_alt_user(tables: &RowTables, issuer: &Issuer, command: &AltUser) -> Result<(), Conflict>
    ensures { result_err result ≡ first_met (alt_user_conflicts issuer.now command.now tables.now.rows) }
{
    first_conflict![
        check_user(tables, command.user),
        check_owner(tables, command.owner),
        check_named_group(tables, command.dfltgrp),
        check_classes(tables, &command.clauth),
        check_classes(tables, &command.noclauth),
        check_default_connected(tables, command.user, command.dfltgrp),
        check_special_user_altered(tables, issuer, command),
        check_level(tables, command.seclevel),
        check_categories(tables, &command.addcategory),
        check_former_categories(tables, &command.delcategory),
        check_label(tables, command.seclabel),
    ]
}

/// The tests of DELUSER, in their order.
#[tactic(auto, unfolding(command_rules::specs::Conflicts::del_user_conflicts))]
fn check_del_user(tables: &RowTables, issuer: &Issuer, command: &DelUser) -> Result<(), Conflict>
    ensures { result_err result ≡ first_met (del_user_conflicts issuer.now command.now tables.now.rows) }
{
    first_conflict![
        check_user(tables, command.user),
        check_no_profile(tables, command.user),
        check_special_user_gone(tables, issuer, command),
    ]
}

/// The tests of ADDGROUP, in their order.
#[tactic(auto, unfolding(command_rules::specs::Conflicts::add_group_conflicts))]
fn check_add_group(tables: &RowTables, issuer: &Issuer, command: &AddGroup) -> Result<(), Conflict>
    ensures { result_err result ≡ first_met (add_group_conflicts issuer.now command.now tables.now.rows) }
{
    first_conflict![
        check_owner(tables, command.owner),
        check_group(tables, issuer.group_or_current(command.supgroup)),
        check_free(tables, command.group),
        check_new_owner(tables, issuer, command),
        check_group_fits(tables, issuer, command),
    ]
}

/// The tests of ALTGROUP, in their order.
#[tactic(auto, unfolding(command_rules::specs::Conflicts::alt_group_conflicts))]
fn check_alt_group(tables: &RowTables, command: &AltGroup) -> Result<(), Conflict>
    ensures { result_err result ≡ first_met (alt_group_conflicts command.now tables.now.rows) }
{
    first_conflict![
        check_owner(tables, command.owner),
        check_group(tables, command.group),
        check_named_group(tables, command.supgroup),
        check_root_moved(command),
        check_cycle(tables, command.group, command.supgroup),
        check_altered_owner(tables, command),
    ]
}

/// The tests of DELGROUP, in their order.
#[tactic(auto, unfolding(command_rules::specs::Conflicts::del_group_conflicts))]
fn check_del_group(tables: &RowTables, command: &DelGroup) -> Result<(), Conflict>
    ensures { result_err result ≡ first_met (del_group_conflicts command.now tables.now.rows) }
{
    first_conflict![
        check_group(tables, command.group),
        check_root_gone(command),
        check_no_subgroup(tables, command.group),
        check_none_connected(tables, command.group),
        check_no_profile(tables, command.group),
    ]
}

/// The tests of CONNECT, in their order.
#[tactic(auto, unfolding(command_rules::specs::Conflicts::connect_conflicts))]
fn check_connect(tables: &RowTables, issuer: &Issuer, command: &Connect) -> Result<(), Conflict>
    ensures { result_err result ≡ first_met (connect_conflicts issuer.now command.now tables.now.rows) }
{
    let group = issuer.group_or_current(command.group);
    first_conflict![
        check_user(tables, command.user),
        check_group(tables, group),
        check_connects_of_user(tables, command, group),
        check_connection_fits(tables, issuer, command, group),
    ]
}

/// The tests of REMOVE, in their order.
#[tactic(auto, unfolding(command_rules::specs::Conflicts::remove_conflicts))]
fn check_remove(tables: &RowTables, issuer: &Issuer, command: &Remove) -> Result<(), Conflict>
    ensures { result_err result ≡ first_met (remove_conflicts issuer.now command.now tables.now.rows) }
{
    let group = issuer.group_or_current(command.group);
    first_conflict![
        check_user(tables, command.user),
        check_group(tables, group),
        check_connected(tables, command.user, group),
        check_not_default(tables, command.user, group),
    ]
}

/// The tests of ADDSD, in their order.
fn check_add_sd(tables: &RowTables, issuer: &Issuer, command: &AddSd) -> Result<(), Conflict>
    ensures { result_err result ≡ first_met (add_sd_conflicts issuer.now command.now tables.now.rows) }
{
    tables.what_is_kept();
    if let Err(conflict) = check_new_data_set(tables, command) {
        return Err(conflict);
    }
    check_data_set_fits(tables)
}

/// One more data set profile is within the limits.
fn check_data_set_fits(tables: &RowTables) -> Result<(), Conflict>
    ensures { result_err result ≡ first_met (new_profile_limits dataset tables.now.rows) }
{
    first_conflict![
        check_class_profiles_fit(tables, dataset()),
        check_profiles_fit(tables),
    ]
}

/// The tests of a data set profile that is to be defined.
#[tactic(auto, unfolding(command_rules::specs::ProfileConflicts::add_sd_requirements))]
fn check_new_data_set(tables: &RowTables, command: &AddSd) -> Result<(), Conflict>
    ensures { result_err result ≡ first_met (add_sd_requirements command.now tables.now.rows) }
{
    first_conflict![
        check_first_qualifier(tables, &command.profile),
        check_owner(tables, command.owner),
        check_profile_free(tables, dataset(), &command.profile),
        check_level(tables, command.seclevel),
        check_categories(tables, &command.addcategory),
        check_label(tables, command.seclabel),
    ]
}

/// The tests of ALTSD, in their order.
#[tactic(auto, unfolding(command_rules::specs::ProfileConflicts::alt_sd_conflicts))]
fn check_alt_sd(tables: &RowTables, command: &AltSd) -> Result<(), Conflict>
    ensures { result_err result ≡ first_met (alt_sd_conflicts command.now tables.now.rows) }
{
    first_conflict![
        check_owner(tables, command.owner),
        check_profile(tables, dataset(), &command.profile),
        check_level(tables, command.seclevel),
        check_categories(tables, &command.addcategory),
        check_former_categories(tables, &command.delcategory),
        check_label(tables, command.seclabel),
    ]
}

/// The tests of DELSD, in their order.
#[tactic(auto, unfolding(command_rules::specs::ProfileConflicts::del_sd_conflicts))]
fn check_del_sd(tables: &RowTables, command: &DelSd) -> Result<(), Conflict>
    ensures { result_err result ≡ first_met (del_sd_conflicts command.now tables.now.rows) }
{
    check_profile(tables, dataset(), &command.profile)
}

/// The tests of RDEFINE, in their order.
fn check_r_define(tables: &RowTables, issuer: &Issuer, command: &RDefine) -> Result<(), Conflict>
    ensures { result_err result ≡ first_met (r_define_conflicts issuer.now command.now tables.now.rows) }
{
    if let Err(conflict) = check_new_resource(tables, command) {
        return Err(conflict);
    }
    if let Err(conflict) = check_resource_fits(tables, command) {
        return Err(conflict);
    }
    check_name_allowed(tables, command.class, &command.profile)
}

/// The tests of a general resource profile that is to be defined.
#[tactic(auto, unfolding(command_rules::specs::ProfileConflicts::r_define_requirements))]
fn check_new_resource(tables: &RowTables, command: &RDefine) -> Result<(), Conflict>
    ensures { result_err result ≡ first_met (r_define_requirements command.now tables.now.rows) }
{
    first_conflict![
        check_owner(tables, command.owner),
        check_resource_class(tables, command.class),
        check_global_class(tables, command.class, &command.profile),
        check_profile_free(tables, command.class, &command.profile),
        check_generic(tables, command.class, &command.profile),
        check_level(tables, command.seclevel),
        check_categories(tables, &command.addcategory),
        check_label(tables, command.seclabel),
    ]
}

/// One more profile, with its members, is within the limits.
fn check_resource_fits(tables: &RowTables, command: &RDefine) -> Result<(), Conflict>
    ensures { result_err result ≡ first_met (new_resource_limits command.now tables.now.rows) }
{
    first_conflict![
        check_class_profiles_fit(tables, command.class),
        check_profiles_fit(tables),
        check_new_members_fit(command),
        check_categories_fit(tables, &command.addmem),
    ]
}

/// The tests of RALTER, in their order.
#[tactic(auto, unfolding(command_rules::specs::ProfileConflicts::r_alter_conflicts, command_rules::specs::ProfileConflicts::categories_full))]
fn check_r_alter(tables: &RowTables, issuer: &Issuer, command: &RAlter) -> Result<(), Conflict>
    ensures { result_err result ≡ first_met (r_alter_conflicts issuer.now command.now tables.now.rows) }
{
    first_conflict![
        check_owner(tables, command.owner),
        check_resource_profile(tables, command.class, &command.profile),
        check_resource_class(tables, command.class),
        check_level(tables, command.seclevel),
        check_categories(tables, &command.addcategory),
        check_former_categories(tables, &command.delcategory),
        check_label(tables, command.seclabel),
        check_members_fit(tables, issuer, command),
        check_categories_fit(tables, &command.addmem),
    ]
}

/// The tests of RDEFINE in class CDT, in their order. The counts are those of the rows before it: one profile and one
/// class more.
fn check_define_class(
    tables: &RowTables,
    issuer: &Issuer,
    command: &DefineClass,
) -> Result<(), Conflict>
    ensures { result_err result ≡ first_met (define_class_conflicts issuer.now command.now tables.now.rows) }
{
    if let Err(conflict) = check_new_class(tables, command) {
        return Err(conflict);
    }
    check_class_fits(tables, command)
}

/// The tests of a class that is to be defined.
#[tactic(auto, unfolding(command_rules::specs::ProfileConflicts::define_class_requirements))]
fn check_new_class(tables: &RowTables, command: &DefineClass) -> Result<(), Conflict>
    ensures { result_err result ≡ first_met (define_class_requirements command.now tables.now.rows) }
{
    first_conflict![
        check_owner(tables, command.owner),
        check_resource_class(tables, cdt()),
        check_class_free(tables, &command.profile),
    ]
}

/// One more class, with its profile, is within the limits.
fn check_class_fits(tables: &RowTables, command: &DefineClass) -> Result<(), Conflict>
    ensures { result_err result ≡ first_met (new_class_limits command.now tables.now.rows) }
{
    first_conflict![
        check_class_profiles_fit(tables, cdt()),
        check_profiles_fit(tables),
        check_classes_fit(tables, command),
    ]
}

/// The tests of RALTER in class CDT, in their order.
#[tactic(auto, unfolding(command_rules::specs::ProfileConflicts::alter_class_conflicts))]
fn check_alter_class(tables: &RowTables, command: &AlterClass) -> Result<(), Conflict>
    ensures { result_err result ≡ first_met (alter_class_conflicts command.now tables.now.rows) }
{
    first_conflict![
        check_owner(tables, command.owner),
        check_resource_profile(tables, cdt(), &command.profile),
        check_resource_class(tables, cdt()),
    ]
}

/// The tests of RDELETE, in their order.
#[tactic(auto, unfolding(command_rules::specs::ProfileConflicts::r_delete_conflicts))]
fn check_r_delete(tables: &RowTables, command: &RDelete) -> Result<(), Conflict>
    ensures { result_err result ≡ first_met (r_delete_conflicts command.now tables.now.rows) }
{
    first_conflict![
        check_resource_profile(tables, command.class, &command.profile),
        check_resource_class(tables, command.class),
        check_class_unused(tables, command),
    ]
}

/// The tests of PERMIT, in their order.
#[tactic(auto, unfolding(command_rules::specs::ProfileConflicts::permit_conflicts))]
fn check_permit(tables: &RowTables, issuer: &Issuer, command: &Permit) -> Result<(), Conflict>
    ensures { result_err result ≡ first_met (permit_conflicts issuer.now command.now tables.now.rows) }
{
    let found = tables.profile(command.class, &command.profile);
    first_conflict![
        check_permitted(tables, command),
        check_found(tables, command.class, &command.profile, found),
        check_class(tables, command.class),
        check_standard_fits(tables, issuer, command, found),
        check_conditional_fits(tables, issuer, command, found),
        check_entries_fit(tables, issuer, command, found),
    ]
}

/// The tests of SETROPTS, in their order.
#[tactic(auto, unfolding(command_rules::specs::OptionConflicts::set_ropts_conflicts))]
fn check_set_ropts(tables: &RowTables, command: &SetRopts) -> Result<(), Conflict>
    ensures { result_err result ≡ first_met (set_ropts_conflicts command.now tables.now.rows) }
{
    first_conflict![
        check_known_classes(tables, &command.classact),
        check_known_classes(tables, &command.noclassact),
        check_known_classes(tables, &command.raclist),
        check_known_classes(tables, &command.noraclist),
        check_known_classes(tables, &command.global),
        check_known_classes(tables, &command.noglobal),
        check_known_classes(tables, &command.generic),
        check_logged_classes(tables, command),
        check_generic_classes(tables, &command.generic),
        check_refreshed(tables, command),
        check_listed_classes(tables, &command.noraclist),
        check_not_always_active(&command.noclassact),
        check_listed_anew(tables, command),
    ]
}
