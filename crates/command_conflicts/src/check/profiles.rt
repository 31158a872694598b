//! Which profiles and classes have to be there, or not, and how many there may be.
ghost use Rattle.std.specs.Prelude.{◌≡◌, ◌+◌, ◌≤◌, length, codes, bytes_eq};
ghost use Rattle.std.specs.Option.{option_copied};
ghost use Rattle.std.specs.Result.{result_err, result_ok};
ghost use Rattle.access_levels.specs.Spelling.{id_of};
ghost use Rattle.generic_names.specs.Spelled.{first_qualifier};
ghost use Rattle.racf_profiles.specs.Limits.{most_class_profiles, most_profiles};
ghost use Rattle.racf_profiles.specs.Counts.{profile_count};
ghost use Rattle.racf_profiles.specs.Lookup.{profile_of};
ghost use Rattle.command_rules.specs.ProfileEffects.{dataset};
ghost use Rattle.command_rules.specs.ProfileConflicts.{no_first_qualifier, no_such_class, no_resource_class, no_global_class, classless, no_profile, no_resource_profile, profile_taken, has_generic, not_generic, profiles_in};
ghost use Rattle.command_rules.specs.Required.{over};

use super::names::{check_owner, has_class};
use crate::limits::check_count;
use access_levels::Id;
use class_profiles::{MOST_CLASS_PROFILES, MOST_PROFILES};
use command_rules::{Conflict, Limit, Named, dataset};
use generic_names::{Pattern, first_qualifier};
use racf_profiles::{FixedClass, Profile, View, facts_in};
use row_tables::RowTables;

/// The first qualifier of a data set profile is a user or a group.
#[tactic(auto, unfolding(command_rules::specs::ProfileConflicts::no_first_qualifier))]
pub(super) fn check_first_qualifier(tables: &RowTables, name: &Pattern) -> Result<(), Conflict>
    ensures { result_err result ≡ no_first_qualifier name.now tables.now.rows }
{
    check_owner(tables, qualifier_id(name))
}

/// The class is in the table.
#[inline(always)]
#[tactic(auto, unfolding(command_rules::specs::ProfileConflicts::no_such_class))]
pub(super) fn check_class(tables: &RowTables, class: Id) -> Result<(), Conflict>
    ensures { result_err result ≡ no_such_class class tables.now.rows }
{
    if has_class(tables, class) {
        Ok(())
    } else {
        Err(Conflict::NoClass(class))
    }
}

/// The class is in the table, and isn't that of the data sets.
#[tactic(auto, unfolding(command_rules::specs::ProfileConflicts::no_resource_class, command_rules::specs::ProfileConflicts::no_such_class))]
pub(super) fn check_resource_class(tables: &RowTables, class: Id) -> Result<(), Conflict>
    ensures { result_err result ≡ no_resource_class class tables.now.rows }
{
    if class == dataset() {
        return Err(Conflict::NoClass(class));
    }
    check_class(tables, class)
}

/// A profile of class GLOBAL has the name of a class.
#[tactic(auto, unfolding(command_rules::specs::ProfileConflicts::no_global_class))]
pub(super) fn check_global_class(
    tables: &RowTables,
    class: Id,
    name: &Pattern,
) -> Result<(), Conflict>
    ensures { result_err result ≡ no_global_class class name.now tables.now.rows }
{
    check_classless(tables, is_global(class), Id::read(name.text()).ok())
}

/// The same, of a name that is spelled as an ID.
fn check_classless(tables: &RowTables, global: bool, name: Option<Id>) -> Result<(), Conflict>
    ensures { result_err result ≡ classless global name tables.now.rows }
{
    match name {
        None => Ok(()),
        Some(id) => {
            if global && !has_class(tables, id) {
                return Err(Conflict::NoClass(id));
            }
            Ok(())
        }
    }
}

/// A class that is there has a profile of that name.
#[inline(always)]
pub(super) fn check_profile(tables: &RowTables, class: Id, name: &Pattern) -> Result<(), Conflict>
    ensures { result_err result ≡ no_profile class name.now tables.now.rows }
{
    check_found(tables, class, name, tables.profile(class, name))
}

/// The same, where the profile of that name was looked up.
#[inline(always)]
#[tactic(auto, unfolding(command_rules::specs::ProfileConflicts::no_profile))]
pub(super) fn check_found(
    tables: &RowTables,
    class: Id,
    name: &Pattern,
    found: Option<&Profile>,
) -> Result<(), Conflict>
    requires { option_copied found ≡ profile_of class name.now tables.now.rows }
    ensures { result_err result ≡ no_profile class name.now tables.now.rows }
{
    if has_class(tables, class) && found.is_none() {
        return Err(Conflict::NoProfile(class, *name));
    }
    Ok(())
}

/// The same of a class of resources.
#[tactic(auto, unfolding(command_rules::specs::ProfileConflicts::no_resource_profile))]
pub(super) fn check_resource_profile(
    tables: &RowTables,
    class: Id,
    name: &Pattern,
) -> Result<(), Conflict>
    ensures { result_err result ≡ no_resource_profile class name.now tables.now.rows }
{
    if class == dataset() {
        return Ok(());
    }
    check_profile(tables, class, name)
}

/// There is no profile of that name.
#[inline(always)]
#[tactic(auto, unfolding(command_rules::specs::ProfileConflicts::profile_taken))]
pub(super) fn check_profile_free(
    tables: &RowTables,
    class: Id,
    name: &Pattern,
) -> Result<(), Conflict>
    ensures { result_err result ≡ profile_taken class name.now tables.now.rows }
{
    match tables.profile(class, name) {
        Some(_) => Err(Conflict::Exists(Named::Profile(*name))),
        None => Ok(()),
    }
}

/// One more profile is within the limit of its class.
#[inline(always)]
pub(super) fn check_class_profiles_fit(tables: &RowTables, class: Id) -> Result<(), Conflict>
    ensures { result_err result ≡ over Limit.ClassProfiles most_class_profiles (length (profiles_in class tables.now.rows) + 1) }
{
    let count = profiles_in(tables, class) + 1;
    check_count(Limit::ClassProfiles, MOST_CLASS_PROFILES, count)
}

/// One more profile is within the limit of all classes.
#[inline(always)]
pub(super) fn check_profiles_fit(tables: &RowTables) -> Result<(), Conflict>
    ensures { result_err result ≡ over Limit.Profiles most_profiles (profile_count tables.now.rows.classes + 1) }
{
    check_count(Limit::Profiles, MOST_PROFILES, tables.classes().count() + 1)
}

/// How many profiles the class has.
fn profiles_in(tables: &RowTables, class: Id) -> usize
    ensures count { result ≡ length (profiles_in class tables.now.rows) }
    ensures few { result ≤ most_class_profiles }
{
    match tables.classes().class(class) {
        Some(table) => table.profiles().len(),
        None => 0,
    }
}

/// A generic name stands only in a class that has generic profiles.
#[tactic(auto, unfolding(command_rules::specs::ProfileConflicts::not_generic))]
pub(super) fn check_generic(tables: &RowTables, class: Id, name: &Pattern) -> Result<(), Conflict>
    ensures { result_err result ≡ not_generic class name.now tables.now.rows }
{
    if name.is_generic() && !has_generic(tables, class) {
        return Err(Conflict::NotGeneric(class));
    }
    Ok(())
}

/// Whether the class has generic profiles.
pub(super) fn has_generic(tables: &RowTables, class: Id) -> bool
    ensures { result ≡ has_generic class tables.now.rows }
{
    match facts_in(tables, class) {
        Some(facts) => facts.generic,
        None => false,
    }
}

/// Whether it is the class of the global access table.
fn is_global(class: Id) -> bool
    ensures { result ≡ bytes_eq class (codes "GLOBAL") }
{
    class == FixedClass::Global.id()
}

/// The first qualifier of a name, where it is spelled as an ID.
fn qualifier_id(name: &Pattern) -> Option<Id>
    ensures { result ≡ result_ok (id_of (first_qualifier name.now.text)) }
{
    Id::read(first_qualifier(name.text())).ok()
}
