//! Which names a dynamic class allows, and which classes class CDT may define and drop.
ghost use Rattle.std.specs.Prelude.{◌≡◌, ◌+◌, true, false, length};
ghost use Rattle.std.specs.Option.{option_copied, option_map_or};
ghost use Rattle.racf_profiles.specs.Names.{is_class_word};
ghost use Rattle.std.specs.Result.{result_err};
ghost use Rattle.racf_profiles.specs.DynamicClasses.{is_short};
ghost use Rattle.racf_profiles.specs.Limits.{most_dynamic_classes};
ghost use Rattle.command_rules.specs.ProfileEffects.{named_class};
ghost use Rattle.command_rules.specs.ProfileConflicts.{name_not_allowed, may_be_named, keeps_form, class_taken, class_in_use, first_profile, uses_class, dynamic_among, classes_more};
ghost use Rattle.command_rules.specs.Required.{over};

use super::names::is_class_word;
use crate::limits::check_count;
use access_levels::Id;
use command_fields::{DefineClass, RDelete, cdt};
use command_rules::{Conflict, Holder, Limit, Named, deleted_class, named_class};
use generic_names::Pattern;
use racf_profiles::{ClassFacts, FixedClass, NameForm, Profile, View, facts_in, general_name};
use row_tables::{MOST_DYNAMIC_CLASSES, RowTables};

/// A class that isn't a fixed one allows the name.
#[tactic(auto, unfolding(command_rules::specs::ProfileConflicts::name_not_allowed))]
pub(super) fn check_name_allowed(
    tables: &RowTables,
    class: Id,
    name: &Pattern,
) -> Result<(), Conflict>
    ensures { result_err result ≡ name_not_allowed class name.now tables.now.rows }
{
    if FixedClass::of(class).is_some() || is_allowed(facts_in(tables, class), name) {
        Ok(())
    } else {
        Err(Conflict::NameNotAllowed(class))
    }
}

/// Whether what a class allows, where there is one, allows the name.
fn is_allowed(facts: Option<ClassFacts>, name: &Pattern) -> bool
    ensures { result ≡ option_map_or (may_be_named name.now) facts true }
{
    match facts {
        Some(facts) => may_be_named(name, &facts),
        None => true,
    }
}

/// Whether the name is short enough, and a discrete one has the form of the class's names.
fn may_be_named(name: &Pattern, facts: &ClassFacts) -> bool
    ensures { result ≡ may_be_named name.now facts.now }
{
    is_short(facts, name.text()) && (name.is_generic() || keeps_form(facts.names, name.text()))
}

/// Whether the text has at most the bytes that the class allows.
fn is_short(facts: &ClassFacts, text: &[u8]) -> bool
    ensures { result ≡ is_short facts.now text.now }
{
    match facts.longest {
        Some(longest) => text.len() <= longest as usize,
        None => true,
    }
}

/// Whether the text is spelled as an ID where the names of the class are.
fn keeps_form(form: NameForm, text: &[u8]) -> bool
    ensures { result ≡ keeps_form form text.now }
{
    match form {
        NameForm::Identifier => Id::read(text).is_ok(),
        _ => true,
    }
}

/// There is no class of that name, and no profile in CDT, and it isn't USER.
#[tactic(auto, unfolding(command_rules::specs::ProfileConflicts::class_taken))]
pub(super) fn check_class_free(tables: &RowTables, name: &Pattern) -> Result<(), Conflict>
    ensures { result_err result ≡ class_taken name.now tables.now.rows }
{
    if tables.profile(cdt(), name).is_some() || is_class_named(tables, named_class(name)) {
        return Err(Conflict::Exists(Named::Profile(*name)));
    }
    Ok(())
}

/// Whether CLAUTH takes the name, where there is one.
fn is_class_named(tables: &RowTables, name: Option<Id>) -> bool
    ensures { result ≡ option_map_or (is_class_word tables.now.rows) name false }
{
    match name {
        Some(name) => is_class_word(tables, name),
        None => false,
    }
}

/// One more class is within the limit.
#[inline(always)]
pub(super) fn check_classes_fit(tables: &RowTables, command: &DefineClass) -> Result<(), Conflict>
    ensures { result_err result ≡ over Limit.Classes most_dynamic_classes (dynamic_among (length tables.now.rows.classes + classes_more (named_class command.now.profile))) }
{
    let more = if named_class(&command.profile).is_some() {
        1
    } else {
        0
    };
    let classes = tables.classes().as_slice().len() + more;
    check_count(
        Limit::Classes,
        MOST_DYNAMIC_CLASSES,
        classes.saturating_sub(FixedClass::ALL.len()),
    )
}

/// A class that RDELETE takes away has no profile, and no global access table.
#[tactic(auto, unfolding(command_rules::specs::ProfileConflicts::class_in_use))]
pub(super) fn check_class_unused(tables: &RowTables, command: &RDelete) -> Result<(), Conflict>
    ensures { result_err result ≡ class_in_use command.now tables.now.rows }
{
    let Some(class) = deleted_class(command) else {
        return Ok(());
    };
    match profile_using(tables, class) {
        Some(profile) => Err(Conflict::InUse(Holder::Profile(profile.name))),
        None => Ok(()),
    }
}

/// The first profile of a class, or else the one of its global access table.
fn profile_using(tables: &RowTables, class: Id) -> Option<&Profile>
    ensures { option_copied result ≡ uses_class tables.now.rows class }
{
    match first_profile(tables, class) {
        Some(profile) => Some(profile),
        None => tables.profile(
            FixedClass::Global.id(),
            &Pattern::discrete(&general_name(class)),
        ),
    }
}

/// The first profile of a class.
fn first_profile(tables: &RowTables, class: Id) -> Option<&Profile>
    ensures { option_copied result ≡ first_profile class tables.now.rows }
{
    let profiles = tables.classes().class(class)?.profiles();
    if profiles.len() == 0 {
        return None;
    }
    Some(profiles.at(0))
}
