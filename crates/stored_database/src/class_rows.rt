//! The tables of classes.
ghost use Rattle.std.specs.Prelude.{◌≡◌, ◌+◌, ◌≤◌, IfOk, OnOk, length};
ghost use Rattle.std.specs.List.{sum_by};
ghost use Rattle.racf_profiles.specs.Counts.{profile_count, entry_count, entries_in};
ghost use Rattle.racf_profiles.specs.Edits.{at_class};
ghost use Rattle.racf_profiles.specs.LawfulProfiles.{AreClassNames, AreClasses, AreProfiles, kind_in, names_of};
ghost use Rattle.racf_profiles.specs.Limits.{most_profiles, most_entries_in_all};
ghost use Rattle.class_profiles.specs.Classes.{room_in};
ghost use Rattle.stored_database.specs.Filling.{HasNoProfiles, CanComeLast, empty_like, with_last, with_profiles, with_all_flags};

use access_levels::Id;
use class_profiles::{ClassTables, laws};
use generic_names::laws::order_is_total;
use racf_profiles::{ClassRow, FixedClass, NoMemory, Profile, Profiles};
use std::alloc::Global;

/// The tables of these classes.
pub(crate) fn classes_of(alloc: Global, classes: Vec<ClassRow>) -> Result<ClassTables, NoMemory>
    requires lawful { AreClasses classes.items }
    requires few_profiles { profile_count classes.items ≤ most_profiles }
    requires few_entries { entry_count classes.items ≤ most_entries_in_all }
    ensures { IfOk result (λ tables. tables.classes ≡ classes.items) }
{
    let mut tables = empty_tables(alloc, classes.as_slice())?;
    for class in classes {
        put_class(&mut tables, class)?;
    }
    Ok(tables)
}

/// The tables of classes of these names, without profiles: the fixed ones as in a new database, and behind them the
/// dynamic ones.
fn empty_tables(alloc: Global, classes: &[ClassRow]) -> Result<ClassTables, NoMemory>
    requires { AreClassNames (names_of classes.now) }
    ensures { IfOk result (λ tables. tables.classes ≡ empty_like classes.now) }
{
    let mut tables = ClassTables::new(alloc)?;
    let dynamic = &classes[FixedClass::ALL.len()..];
    for class in dynamic {
        tables.reserve_class()?;
        tables.add(class.name);
    }
    Ok(tables)
}

/// Puts a class in the place of the one of its name, which has no profiles.
fn put_class(tables: &mut ClassTables, class: ClassRow) -> Result<(), NoMemory>
    requires empty { HasNoProfiles class.name tables.old.classes }
    requires lawful { AreProfiles (kind_in class.name) class.profiles }
    requires few_profiles { profile_count tables.old.classes + length class.profiles ≤ most_profiles }
    requires few_entries { entry_count tables.old.classes + sum_by entries_in class.profiles ≤ most_entries_in_all }
    ensures { OnOk result (tables.new.classes ≡ at_class class.name (λ _. class) tables.old.classes) }
{
    make_ready(tables, &class)?;
    put_profiles(tables, class.name, class.profiles);
    Ok(())
}

/// Sets what a class's row says of the class, but for its profiles, and makes room for these.
fn make_ready(tables: &mut ClassTables, class: &ClassRow) -> Result<(), NoMemory>
    requires { HasNoProfiles class.now.name tables.old.classes }
    ensures classes { tables.new.classes ≡ at_class class.now.name (with_all_flags class.now) tables.old.classes }
    ensures room { OnOk result (length class.now.profiles ≤ room_in class.now.name tables.new) }
{
    tables.set_flags(class.name, class.active, class.global, class.log);
    tables.set_listed(class.name, class.listed);
    tables.reserve(class.name, count_of(&class.profiles))
}

/// How many profiles there are.
fn count_of(profiles: &Profiles) -> usize
    ensures { result ≡ length profiles.now }
{
    profiles.items.len()
}

/// Puts the profiles of a class, which has none, in their order.
fn put_profiles(tables: &mut ClassTables, class: Id, profiles: Profiles)
    requires empty { HasNoProfiles class tables.old.classes }
    requires lawful { AreProfiles (kind_in class) profiles }
    requires room { length profiles ≤ room_in class tables.old }
    requires few_profiles { profile_count tables.old.classes + length profiles ≤ most_profiles }
    requires few_entries { entry_count tables.old.classes + sum_by entries_in profiles ≤ most_entries_in_all }
    ensures { tables.new.classes ≡ at_class class (with_profiles profiles) tables.old.classes }
{
    order_is_total();
    for profile in profiles.items {
        put_last(tables, class, profile);
    }
}

/// Puts a profile behind the others of its class.
fn put_last(tables: &mut ClassTables, class: Id, profile: Profile)
    requires { CanComeLast tables.old class profile }
    ensures classes { tables.new.classes ≡ at_class class (with_last profile) tables.old.classes }
    ensures room { room_in class tables.old ≤ room_in class tables.new + 1 }
    ensures profiles { profile_count tables.new.classes ≤ profile_count tables.old.classes + 1 }
    ensures entries { entry_count tables.new.classes ≤ entry_count tables.old.classes + entries_in profile }
{
    order_is_total();
    laws::found_is_lawful();
    laws::counts_are_enough();
    laws::puts_are_counted();
    let _count = tables.count();
    tables.put(class, profile);
}
