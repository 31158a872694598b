//! Classes and the whole image, read.
ghost use Rattle.std.specs.Prelude.{◌≡◌, ◌≤◌, ◌+◌, true, nat_lt, [], length, map, Some, bytes_eq, IfOk};
ghost use Rattle.std.specs.List.{list_any, slice_get, sum_by};
ghost use Rattle.std.specs.Option.{option_eq, option_map_or};
ghost use Rattle.racf_profiles.specs.declared.fixed_classes.ClassFacts.{ClassFacts};
ghost use Rattle.racf_profiles.specs.declared.class_rows.ClassRow.{ClassRow};
ghost use Rattle.racf_profiles.specs.Limits.{most_profiles, most_class_profiles, most_entries_in_all};
ghost use Rattle.racf_profiles.specs.Counts.{profile_count, entry_count, entries_in};
ghost use Rattle.racf_profiles.specs.ClassTable.{class_name, fixed_classes, facts_of};
ghost use Rattle.racf_profiles.specs.LawfulProfiles.{names_of};
ghost use Rattle.database_image.specs.Reading.{Gives};
ghost use Rattle.database_image.specs.Forms.{items_from, listed, number};
ghost use Rattle.database_image.specs.Fields.{is_set, is_new, id};
ghost use Rattle.database_image.specs.Description.{within, are_class_flags, is_class_at, is_read_count, class, read_image, profile};

use crate::faults::ReadFault;
use crate::fields::{byte_at, id_at, is_set, log_at, short_at, word_at};
use crate::left::{Left, require};
use crate::profiles::{entries_in, profiles_from};
use crate::users::{groups_at, options_at, users_at};
use access_levels::Id;
use racf_profiles::{ClassRow, ClassRows, FixedClass, Profiles, Rows, class_facts};
use std::alloc::Global;

/// The most profiles of a class, and of all.
const MOST_CLASS_PROFILES: u32 = 50_000;

const MOST_PROFILES: usize = 100_000;

/// The rows of an image.
#[tactic(auto, unfolding(crate::specs::Description::image_by))]
pub fn rows_at(alloc: Global, left: &mut Left<'_>) -> Result<Rows, ReadFault>
    ensures { Gives (λ x. (x, left.new)) result (read_image.reading left.old) }
{
    let options = options_at(alloc, left)?;
    let groups = groups_at(alloc, left)?;
    let users = users_at(alloc, options.categories.items.len(), left)?;
    let classes = classes_at(alloc, options.categories.items.as_slice(), left)?;
    Ok(Rows {
        users,
        groups,
        classes,
        options,
    })
}

/// The classes.
fn classes_at(alloc: Global, categories: &[Id], left: &mut Left<'_>) -> Result<ClassRows, ReadFault>
    requires { length categories.now ≤ 256 }
    ensures { Gives (λ x. (x, left.new)) result ((listed 2 is_read_count (class categories.now)).reading left.old) }
{
    let begin = left.len();
    let count = short_at(left)?;
    require(is_read_count(count), begin)?;
    let items = classes_from(alloc, categories, u32::from(count), left)?;
    Ok(ClassRows { items })
}

/// Whether an image may have so many classes: the fixed ones and at most 32 more, or those without CDT.
fn is_read_count(count: u16) -> bool
    ensures { result ≡ is_read_count count }
{
    count == 14 || (15 <= count && count <= 47)
}

/// So many classes.
fn classes_from(
    alloc: Global,
    categories: &[Id],
    count: u32,
    left: &mut Left<'_>,
) -> Result<Vec<ClassRow>, ReadFault>
    requires categories { length categories.now ≤ 256 }
    ensures { Gives (λ x. (x.items, left.new)) result (items_from (class categories.now) count [] left.old) }
{
    let mut profiles = 0;
    let mut entries = 0;
    let mut items = Vec::new(alloc);
    for _ in 0..count {
        let class = next_class(alloc, categories, &items, profiles, entries, left)?;
        profiles += profiles_of(&class);
        entries += entries_of(&class);
        items.push(class)?;
    }
    Ok(items)
}

/// How many profiles a class has.
fn profiles_of(class: &ClassRow) -> usize
    ensures { result ≡ length class.now.profiles }
{
    class.profiles.items.len()
}

/// How many entries the profiles of a class have.
fn entries_of(class: &ClassRow) -> usize
    requires { sum_by entries_in class.now.profiles ≤ most_entries_in_all }
    ensures { result ≡ sum_by entries_in class.now.profiles }
{
    let mut entries = 0;
    for profile in &class.profiles.items {
        entries += entries_in(profile);
    }
    entries
}

/// A class behind others, which have so many profiles and entries.
#[tactic(auto, unfolding(crate::specs::Description::class))]
fn next_class(
    alloc: Global,
    categories: &[Id],
    before: &[ClassRow],
    profiles: usize,
    entries: usize,
    left: &mut Left<'_>,
) -> Result<ClassRow, ReadFault>
    requires categories { length categories.now ≤ 256 }
    requires profiles { profiles ≡ profile_count before.now }
    requires few_profiles { profiles ≤ most_profiles }
    requires entries { entries ≡ entry_count before.now }
    requires few_entries { entries ≤ most_entries_in_all }
    ensures reads { Gives (λ x. (x, left.new)) result ((class categories.now before.now).reading left.old) }
    ensures few_profiles { IfOk result (λ x. profiles + length x.profiles ≤ most_profiles) }
    ensures few_entries { IfOk result (λ x. entries + sum_by entries_in x.profiles ≤ most_entries_in_all) }
{
    let name = class_name_at(before, left)?;
    let begin = left.len();
    let flags = byte_at(left)?;
    require(are_class_flags(name, flags), begin)?;
    let log = log_at(left)?;
    let profiles = profiles_at(alloc, categories, name, profiles, entries, left)?;
    Ok(ClassRow {
        name,
        active: is_set(flags, 1),
        listed: is_set(flags, 2),
        global: is_set(flags, 4),
        log,
        profiles,
    })
}

/// The name of the class behind others.
fn class_name_at(before: &[ClassRow], left: &mut Left<'_>) -> Result<Id, ReadFault>
    ensures { Gives (λ x. (x, left.new)) result ((id (is_class_at (names_of before.now))).reading left.old) }
{
    let begin = left.len();
    let name = id_at(left)?;
    require(is_class_at(before, name), begin)?;
    Ok(name)
}

/// Whether the class behind others has the name.
fn is_class_at(before: &[ClassRow], name: Id) -> bool
    ensures { result ≡ is_class_at (names_of before.now) name }
{
    if are_first(before) {
        is_fixed_at(before.len(), name)
    } else {
        is_new(before, name)
    }
}

/// Whether fixed classes are behind these.
fn are_first(before: &[ClassRow]) -> bool
    ensures { result ≡ nat_lt (length before.now) 15 }
{
    before.len() < FixedClass::ALL.len()
}

/// Whether the fixed class at that place has the name.
fn is_fixed_at(place: usize, name: Id) -> bool
    ensures { result ≡ option_eq bytes_eq (slice_get (map class_name fixed_classes) place) (Some name) }
{
    match fixed_class_at(place) {
        Some(class) => class.name() == name.text(),
        None => false,
    }
}

/// The fixed class at that place.
fn fixed_class_at(place: usize) -> Option<FixedClass>
    ensures { result ≡ slice_get fixed_classes place }
{
    FixedClass::ALL.get(place).copied()
}

/// Whether none of the classes has the name.
fn is_new(before: &[ClassRow], name: Id) -> bool
    ensures { result ≡ is_new (names_of before.now) name }
{
    !is_among(before, name)
}

/// Whether one of the classes has the name.
fn is_among(classes: &[ClassRow], name: Id) -> bool
    ensures { result ≡ list_any (λ (class : ClassRow). bytes_eq name class.name) classes.now }
{
    classes.iter().any(|class| name == class.name)
}

/// Whether a class of that name may have the flags.
fn are_class_flags(name: Id, flags: u8) -> bool
    ensures { result ≡ are_class_flags name flags }
{
    flags < 8
        && (is_set(flags, 1) || name.text() != b"DATASET".as_slice())
        && (!is_set(flags, 2) || is_raclist(name))
}

/// Whether the class of that name may be RACLISTed, as dynamic ones may.
fn is_raclist(name: Id) -> bool
    ensures { result ≡ option_map_or (λ (facts : ClassFacts). facts.raclist) (facts_of name) true }
{
    match class_facts(name) {
        Some(facts) => facts.raclist,
        None => true,
    }
}

/// The profiles of a class, where the classes before have so many profiles and entries.
fn profiles_at(
    alloc: Global,
    categories: &[Id],
    class: Id,
    before: usize,
    entries: usize,
    left: &mut Left<'_>,
) -> Result<Profiles, ReadFault>
    requires categories { length categories.now ≤ 256 }
    requires few_profiles { before ≤ most_profiles }
    requires few_entries { entries ≤ most_entries_in_all }
    ensures reads { Gives (λ x. (x, left.new)) result ((listed 4 (within most_class_profiles most_profiles before) (profile categories.now class entries)).reading left.old) }
    ensures few_profiles { IfOk result (λ x. before + length x ≤ most_profiles) }
    ensures few_entries { IfOk result (λ x. entries + sum_by entries_in x ≤ most_entries_in_all) }
{
    let begin = left.len();
    let count = word_at(left)?;
    require(
        count <= MOST_CLASS_PROFILES && before + count as usize <= MOST_PROFILES,
        begin,
    )?;
    let items = profiles_from(alloc, categories, class, entries, count, left)?;
    Ok(Profiles { items })
}
