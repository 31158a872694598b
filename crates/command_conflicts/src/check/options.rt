//! Which classes SETROPTS may name.
ghost use Rattle.std.specs.Prelude.{◌≡◌, not, is_some, find};
ghost use Rattle.std.specs.List.{flat_map};
ghost use Rattle.std.specs.Result.{result_err};
ghost use Rattle.racf_profiles.specs.Lookup.{class_of};
ghost use Rattle.racf_profiles.specs.State.{is_listed};
ghost use Rattle.command_fields.specs.declared.log_clauses.LogClause.{LogClause};
ghost use Rattle.command_rules.specs.OptionConflicts.{absent_class, class_without_generic, unlisted_class, may_be_listed, never_listed_class, always_active_class, logged_classes, refreshed, listed_anew};

use super::names::has_class;
use super::profiles::has_generic;
use access_levels::Id;
use command_fields::{Ids, LogClause, SetRopts};
use command_rules::{Conflict, dataset};
use racf_profiles::facts_in;
use row_tables::RowTables;

/// Each class is in the table.
#[tactic(auto, unfolding(command_rules::specs::OptionConflicts::absent_class))]
pub(super) fn check_known_classes(tables: &RowTables, classes: &Ids) -> Result<(), Conflict>
    ensures { result_err result ≡ absent_class classes.now tables.now.rows }
{
    match first_absent(tables, classes.items.as_slice()) {
        Some(class) => Err(Conflict::NoClass(class)),
        None => Ok(()),
    }
}

/// Each class of LOGOPTIONS is in the table.
#[tactic(auto, unfolding(command_rules::specs::OptionConflicts::absent_class))]
pub(super) fn check_logged_classes(tables: &RowTables, command: &SetRopts) -> Result<(), Conflict>
    ensures { result_err result ≡ absent_class (logged_classes command.now) tables.now.rows }
{
    match first_absent_logged(tables, command.logoptions.items.as_slice()) {
        Some(class) => Err(Conflict::NoClass(class)),
        None => Ok(()),
    }
}

/// The first of the classes under these words that isn't in the table.
fn first_absent_logged(tables: &RowTables, clauses: &[LogClause]) -> Option<Id>
    ensures { result ≡ find (λ class. not (is_some (class_of class tables.now.rows))) (flat_map (λ (clause : LogClause). clause.classes) clauses.now) }
{
    for clause in clauses {
        if let Some(class) = first_absent(tables, clause.classes.items.as_slice()) {
            return Some(class);
        }
    }
    None
}

/// The first of these classes that isn't in the table.
fn first_absent(tables: &RowTables, classes: &[Id]) -> Option<Id>
    ensures { result ≡ find (λ class. not (is_some (class_of class tables.now.rows))) classes.now }
{
    classes
        .iter()
        .copied()
        .find(|class| !has_class(tables, *class))
}

/// Each class has generic profiles.
#[tactic(auto, unfolding(command_rules::specs::OptionConflicts::class_without_generic))]
pub(super) fn check_generic_classes(tables: &RowTables, classes: &Ids) -> Result<(), Conflict>
    ensures { result_err result ≡ class_without_generic classes.now tables.now.rows }
{
    match classes
        .items
        .iter()
        .find(|class| !has_generic(tables, **class))
    {
        Some(class) => Err(Conflict::NotGeneric(*class)),
        None => Ok(()),
    }
}

/// Each class is RACLISTed.
#[tactic(auto, unfolding(command_rules::specs::OptionConflicts::unlisted_class))]
pub(super) fn check_listed_classes(tables: &RowTables, classes: &Ids) -> Result<(), Conflict>
    ensures { result_err result ≡ unlisted_class classes.now tables.now.rows }
{
    match classes
        .items
        .iter()
        .find(|class| !is_listed(tables, **class))
    {
        Some(class) => Err(Conflict::NotListed(*class)),
        None => Ok(()),
    }
}

/// Each class of RACLIST with REFRESH is RACLISTed.
#[tactic(auto, unfolding(command_rules::specs::OptionConflicts::unlisted_class))]
pub(super) fn check_refreshed(tables: &RowTables, command: &SetRopts) -> Result<(), Conflict>
    ensures { result_err result ≡ unlisted_class (refreshed command.now) tables.now.rows }
{
    if !command.refresh {
        return Ok(());
    }
    check_listed_classes(tables, &command.raclist)
}

/// No class is one that is never inactive.
#[tactic(auto, unfolding(command_rules::specs::OptionConflicts::always_active_class))]
pub(super) fn check_not_always_active(classes: &Ids) -> Result<(), Conflict>
    ensures { result_err result ≡ always_active_class classes.now }
{
    match classes.items.iter().find(|class| dataset() == **class) {
        Some(class) => Err(Conflict::ClassFixed(*class)),
        None => Ok(()),
    }
}

/// Each class may be RACLISTed.
#[tactic(auto, unfolding(command_rules::specs::OptionConflicts::never_listed_class))]
fn check_may_be_listed(tables: &RowTables, classes: &Ids) -> Result<(), Conflict>
    ensures { result_err result ≡ never_listed_class classes.now tables.now.rows }
{
    match classes
        .items
        .iter()
        .find(|class| !may_be_listed(tables, **class))
    {
        Some(class) => Err(Conflict::ClassFixed(*class)),
        None => Ok(()),
    }
}

/// Each class of RACLIST without REFRESH may be RACLISTed.
#[tactic(auto, unfolding(command_rules::specs::OptionConflicts::never_listed_class))]
pub(super) fn check_listed_anew(tables: &RowTables, command: &SetRopts) -> Result<(), Conflict>
    ensures { result_err result ≡ never_listed_class (listed_anew command.now) tables.now.rows }
{
    if command.refresh {
        return Ok(());
    }
    check_may_be_listed(tables, &command.raclist)
}

/// Whether the class is RACLISTed.
fn is_listed(tables: &RowTables, class: Id) -> bool
    ensures { result ≡ is_listed class tables.now.rows }
{
    match tables.classes().class(class) {
        Some(table) => table.is_listed(),
        None => false,
    }
}

/// Whether the class may be RACLISTed.
fn may_be_listed(tables: &RowTables, class: Id) -> bool
    ensures { result ≡ may_be_listed class tables.now.rows }
{
    match facts_in(tables, class) {
        Some(facts) => facts.raclist,
        None => false,
    }
}
