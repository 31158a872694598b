//! Levels, categories and labels as a command gives them and takes them away.
ghost use Rattle.std.specs.Prelude.{◌≡◌, fold, unwrap_or, option_and_then};
ghost use Rattle.command_rules.specs.Security.{level_number, with_category, without_category};
ghost use Rattle.command_rules.specs.ProfileEffects.{level_given, label_given};

use access_levels::{Categories, Id};
use command_rules::{category_number, level_number};
use row_tables::RowTables;

/// A level after SECLEVEL, which gives one, and NOSECLEVEL behind it, which takes it away.
pub(crate) fn level_given(tables: &RowTables, name: Option<Id>, off: bool, old: u8) -> u8
    ensures { result ≡ level_given tables.now.rows name off old }
{
    if off {
        return 0;
    }
    level_or(tables, name, old)
}

/// The number of the security level, where one is named.
fn level_or(tables: &RowTables, name: Option<Id>, otherwise: u8) -> u8
    ensures { result ≡ unwrap_or (option_and_then (level_number tables.now.rows) name) otherwise }
{
    match name {
        Some(name) => level_number(tables, name).unwrap_or(otherwise),
        None => otherwise,
    }
}

/// The set with these categories.
pub(crate) fn with_categories(tables: &RowTables, set: Categories, names: &[Id]) -> Categories
    ensures { result ≡ fold (with_category tables.now.rows) set names.now }
{
    let mut set = set;
    for name in names {
        set = with_category(tables, set, *name);
    }
    set
}

/// The set without these categories.
pub(crate) fn without_categories(tables: &RowTables, set: Categories, names: &[Id]) -> Categories
    ensures { result ≡ fold (without_category tables.now.rows) set names.now }
{
    let mut set = set;
    for name in names {
        set = without_category(tables, set, *name);
    }
    set
}

/// The set with the number of this category.
fn with_category(tables: &RowTables, set: Categories, name: Id) -> Categories
    ensures { result ≡ with_category tables.now.rows set name }
{
    match category_number(tables, name) {
        Some(number) => set.with(number),
        None => set,
    }
}

/// The set without the number of this category.
fn without_category(tables: &RowTables, set: Categories, name: Id) -> Categories
    ensures { result ≡ without_category tables.now.rows set name }
{
    match category_number(tables, name) {
        Some(number) => set.without(number),
        None => set,
    }
}

/// A label after SECLABEL, which gives one, and NOSECLABEL behind it, which takes it away.
pub(crate) fn label_given(name: Option<Id>, off: bool, old: Option<Id>) -> Option<Id>
    ensures { result ≡ label_given name off old }
{
    if off {
        return None;
    }
    name.or(old)
}
