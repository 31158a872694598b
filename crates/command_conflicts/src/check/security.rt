//! Levels, categories and labels that a command names.
ghost use Rattle.std.specs.Prelude.{◌≡◌, not, find};
ghost use Rattle.command_rules.specs.Security.{is_category};
ghost use Rattle.std.specs.Result.{result_err};
ghost use Rattle.command_rules.specs.Conflicts.{unknown_level, unknown_category, never_category, unknown_label};

use access_levels::Id;
use command_fields::Ids;
use command_rules::{Conflict, is_category, is_label, level_number, was_category};
use row_tables::RowTables;

/// A level that is named is one.
#[tactic(auto, unfolding(command_rules::specs::Required::unknown_level))]
pub(super) fn check_level(tables: &RowTables, level: Option<Id>) -> Result<(), Conflict>
    ensures { result_err result ≡ unknown_level level tables.now.rows }
{
    match level {
        None => Ok(()),
        Some(name) => match level_number(tables, name) {
            Some(_) => Ok(()),
            None => Err(Conflict::UnknownName(name)),
        },
    }
}

/// Each category is one.
#[tactic(auto, unfolding(command_rules::specs::Required::unknown_category))]
pub(super) fn check_categories(tables: &RowTables, categories: &Ids) -> Result<(), Conflict>
    ensures { result_err result ≡ unknown_category categories.now tables.now.rows }
{
    match first_no_category(tables, categories.items.as_slice()) {
        Some(name) => Err(Conflict::UnknownName(name)),
        None => Ok(()),
    }
}

/// The first of these names that is no category.
fn first_no_category(tables: &RowTables, names: &[Id]) -> Option<Id>
    ensures { result ≡ find (λ name. not (is_category tables.now.rows name)) names.now }
{
    names
        .iter()
        .copied()
        .find(|name| !is_category(tables, *name))
}

/// Each category was one at some time.
#[tactic(auto, unfolding(command_rules::specs::Required::never_category))]
pub(super) fn check_former_categories(tables: &RowTables, categories: &Ids) -> Result<(), Conflict>
    ensures { result_err result ≡ never_category categories.now tables.now.rows }
{
    match categories
        .items
        .iter()
        .find(|name| !was_category(tables, **name))
    {
        Some(name) => Err(Conflict::UnknownName(*name)),
        None => Ok(()),
    }
}

/// A label that is named is one.
#[tactic(auto, unfolding(command_rules::specs::Required::unknown_label))]
pub(super) fn check_label(tables: &RowTables, label: Option<Id>) -> Result<(), Conflict>
    ensures { result_err result ≡ unknown_label label tables.now.rows }
{
    match label {
        None => Ok(()),
        Some(name) => {
            if is_label(tables, name) {
                Ok(())
            } else {
                Err(Conflict::UnknownName(name))
            }
        }
    }
}
