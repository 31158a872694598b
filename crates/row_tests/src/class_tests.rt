//! Tables of a few profiles: what is found, replaced and taken away, and what the counts say.
ghost use Rattle.std.specs.Prelude.{◌≡◌, length, IfOk};
ghost use Rattle.racf_profiles.specs.Counts.{entries_in};
ghost use Rattle.racf_profiles.specs.LawfulProfiles.{AreProfiles};

use access_levels::{Categories, Entry, Id, Level, Who};
use class_profiles::laws::{counts_are_enough, puts_are_counted};
use class_profiles::{
    ClassTables, MOST_CLASS_PROFILES, MOST_ENTRIES_IN_ALL, MOST_PROFILES, NoMemory, ProfileTable,
    SharedProfiles,
};
use generic_names::{NameKind, Pattern, Resource};
use racf_profiles::{AuditRule, CondEntries, Entries, FixedClass, Members, Profile, sys1};
use std::alloc::{AllocError, Global};

/// An access list of one entry.
fn one_entry(alloc: Global) -> Result<Entries, NoMemory>
    ensures { IfOk result (λ entries. length entries ≡ 1) }
{
    let mut items = Vec::new(alloc);
    let entry = Entry {
        who: Who::Star,
        level: Level::Read,
    };
    let _who: Who = entry.who;
    items.push(entry)?;
    Ok(Entries { items })
}

/// A profile of that name with one entry in its access list.
fn profile(alloc: Global, name: Pattern, uacc: Level) -> Result<Profile, NoMemory>
    ensures name { IfOk result (λ profile. profile.name ≡ name) }
    ensures one { IfOk result (λ profile. entries_in profile ≡ 1) }
{
    let standard = one_entry(alloc)?;
    let audit = AuditRule {
        success: None,
        failures: Some(Level::Read),
    };
    Ok(Profile {
        name,
        owner: sys1(),
        uacc,
        warning: false,
        standard,
        conditional: CondEntries {
            items: Vec::new(alloc),
        },
        level: 0,
        categories: Categories::none(),
        label: None,
        audit,
        global_audit: audit,
        members: Members {
            items: Vec::new(alloc),
        },
    })
}

/// Puts a profile of that name, if it is a name and there is room.
fn put(alloc: Global, table: &mut ProfileTable, name: &[u8], uacc: Level) -> bool {
    puts_are_counted();
    let Ok(name) = Pattern::read(table.kind(), name) else {
        return false;
    };
    if table.len() >= MOST_CLASS_PROFILES {
        return false;
    }
    let Ok(()) = table.reserve(1) else {
        return false;
    };
    let Ok(profile) = profile(alloc, name, uacc) else {
        return false;
    };
    table.put(profile);
    true
}

/// Names of data set profiles with their levels, put one behind the other.
const PUT: [(&[u8], Level); 4] = [
    (b"SYS1.**", Level::NoAccess),
    (b"SYS1.PARM*", Level::NoAccess),
    (b"SYS1.PARMLIB", Level::NoAccess),
    (b"SYS1.PARM*", Level::Read),
];

/// Whether each of these could be put.
fn puts(alloc: Global, table: &mut ProfileTable) -> bool {
    for (name, uacc) in &PUT {
        if !put(alloc, table, name, *uacc) {
            return false;
        }
    }
    true
}

/// Whether that profile decides on the resource; none does where it is empty.
fn decides(table: &ProfileTable, resource: &[u8], name: &[u8]) -> bool {
    let Ok(resource) = Resource::read(table.kind(), resource) else {
        return false;
    };
    match table.find(&resource) {
        Some(place) => table.at(place).name.text() == name,
        None => name.is_empty(),
    }
}

/// Resources, each with the profile that decides on it.
const DECIDED: [(&[u8], &[u8]); 4] = [
    (b"SYS1.PARMLIB", b"SYS1.PARMLIB"),
    (b"SYS1.PARMS", b"SYS1.PARM*"),
    (b"SYS1.A.B", b"SYS1.**"),
    (b"SYS2.PARMLIB", b""),
];

/// Whether each of these resources is decided on by its profile.
fn decides_on_each(table: &ProfileTable) -> bool {
    for (resource, name) in &DECIDED {
        if !decides(table, resource, name) {
            return false;
        }
    }
    true
}

/// How many profiles are left once the profile of that name is taken away.
fn left_without(table: &mut ProfileTable, name: &[u8]) -> usize {
    let Ok(name) = Pattern::read(NameKind::General, name) else {
        return 0;
    };
    table.remove(&name);
    table.len()
}

/// How many rows a table gives.
fn row_count(alloc: Global, table: &ProfileTable) -> usize {
    match table.rows(alloc) {
        Ok(rows) => rows.items.len(),
        Err(_) => 0,
    }
}

#[test]
fn one_class(rt: HostRuntime) {
    let alloc = rt.alloc();
    let Ok(mut table) = ProfileTable::new(alloc, NameKind::DataSet) else {
        panic!(rt; "no memory")
    };
    assert!(rt; puts(alloc, &mut table) && table.len() == 3);
    assert!(rt; decides_on_each(&table));
    assert!(rt; left_without(&mut table, b"SYS1.PARMLIB") == 2);
    assert!(rt; left_without(&mut table, b"SYS1.PARMLIB") == 2);
    assert!(rt; decides(&table, b"SYS1.PARMLIB", b"SYS1.PARM*"));
    assert!(rt; row_count(alloc, &table) == 2);
}

/// Puts a profile of that name into a class, if it is a name of its kind and there is room.
fn put_in(alloc: Global, tables: &mut ClassTables, class: Id, name: &[u8]) -> bool {
    counts_are_enough();
    let Some(row) = tables.class(class) else {
        return false;
    };
    let Ok(name) = Pattern::read(row.profiles().kind(), name) else {
        return false;
    };
    if row.profiles().len() >= MOST_CLASS_PROFILES {
        return false;
    }
    if tables.count() >= MOST_PROFILES || tables.entries() >= MOST_ENTRIES_IN_ALL {
        return false;
    }
    let Ok(()) = tables.reserve(class, 1) else {
        return false;
    };
    let Ok(profile) = profile(alloc, name, Level::NoAccess) else {
        return false;
    };
    tables.put(class, profile);
    true
}

/// Classes with names of profiles, put one behind the other.
const PUT_IN: [(FixedClass, &[u8]); 4] = [
    (FixedClass::Dataset, b"SYS1.**"),
    (FixedClass::Dataset, b"SYS1.PARMLIB"),
    (FixedClass::Dataset, b"SYS1.**"),
    (FixedClass::Terminal, b"T1"),
];

/// Whether each of these could be put into its class.
fn puts_in(alloc: Global, tables: &mut ClassTables) -> bool {
    for (class, name) in &PUT_IN {
        if !put_in(alloc, tables, class.id(), name) {
            return false;
        }
    }
    true
}

/// Whether there are this many profiles, with an entry each.
fn has(tables: &ClassTables, count: usize) -> bool {
    tables.count() == count && tables.entries() == count
}

/// Whether the first profile under that qualifier has that name; there is none where it is empty.
fn is_first_under(tables: &ClassTables, qualifier: Id, name: &[u8]) -> bool {
    match tables.first_under(qualifier) {
        Some(first) => first.text() == name,
        None => name.is_empty(),
    }
}

/// Whether a data set profile is there, and no longer once it is taken away.
fn goes(tables: &mut ClassTables, name: &[u8]) -> bool {
    let Ok(name) = Pattern::read(NameKind::DataSet, name) else {
        return false;
    };
    let class = FixedClass::Dataset.id();
    let is_there = tables.profile(class, &name).is_some();
    tables.remove(class, &name);
    is_there && tables.profile(class, &name).is_none()
}

/// How many classes the rows have, once a class is listed.
fn class_count(alloc: Global, tables: &mut ClassTables, class: Id) -> usize {
    tables.set_listed(class, true);
    match tables.rows(alloc) {
        Ok(rows) => rows.items.len(),
        Err(_) => 0,
    }
}

#[test]
fn two_classes(rt: HostRuntime) {
    let alloc = rt.alloc();
    let terminals = FixedClass::Terminal.id();
    let Ok(mut tables) = ClassTables::new(alloc) else {
        panic!(rt; "no memory")
    };
    assert!(rt; puts_in(alloc, &mut tables));
    assert!(rt; !put_in(alloc, &mut tables, sys1(), b"T1"));
    assert!(rt; has(&tables, 3));
    assert!(rt; is_first_under(&tables, sys1(), b"SYS1.PARMLIB"));
    assert!(rt; is_first_under(&tables, terminals, b""));
    assert!(rt; goes(&mut tables, b"SYS1.PARMLIB") && has(&tables, 2));
    assert!(rt; class_count(alloc, &mut tables, terminals) == 15);
}

/// The profiles of a table are lawful. It does nothing: its contract is what it is for.
fn are_lawful(table: &ProfileTable)
    ensures { AreProfiles table.now.kind table.now.profiles }
{
    let _count = table.len();
}

/// The profiles of a table, in a table that doesn't change.
fn shared(alloc: Global, table: &ProfileTable) -> Result<SharedProfiles, NoMemory>
    ensures { IfOk result (λ shared. shared.profiles ≡ table.now.profiles) }
{
    are_lawful(table);
    let rows = table.rows(alloc)?;
    SharedProfiles::of(alloc, table.kind(), &rows.items)
}

/// The table with a profile of that name, if it is a name and there is room.
fn with_name(
    alloc: Global,
    table: &SharedProfiles,
    name: &[u8],
    uacc: Level,
) -> Result<SharedProfiles, NoMemory> {
    puts_are_counted();
    let Ok(name) = Pattern::read(table.kind(), name) else {
        return Err(AllocError);
    };
    if table.len() >= MOST_CLASS_PROFILES {
        return Err(AllocError);
    }
    let profile = profile(alloc, name, uacc)?;
    Ok(table.with_profile(alloc, profile)?.what)
}

/// The name of the profile that decides on a resource.
fn name_for<'a>(table: &'a ProfileTable, resource: &[u8]) -> Option<&'a [u8]> {
    let Ok(resource) = Resource::read(table.kind(), resource) else {
        return None;
    };
    let place = table.find(&resource)?;
    Some(table.at(place).name.text())
}

/// The same in a table that doesn't change.
fn shared_name_for<'a>(table: &'a SharedProfiles, resource: &[u8]) -> Option<&'a [u8]> {
    match Resource::read(table.kind(), resource) {
        Ok(resource) => Some(table.find(&resource)?.name.text()),
        Err(_) => None,
    }
}

/// Whether both have profiles of the same names and levels, and the same one decides on `A.B`.
fn is_same(shared: &SharedProfiles, table: &ProfileTable) -> bool {
    for place in 0..table.len() {
        if place >= shared.len() {
            return false;
        }
        let (one, other) = (shared.at(place), table.at(place));
        if one.name.text() != other.name.text() || one.uacc != other.uacc {
            return false;
        }
    }
    shared.len() == table.len() && shared_name_for(shared, b"A.B") == name_for(table, b"A.B")
}

/// Takes the profile of that name away from both.
fn without_name(
    alloc: Global,
    shared: &SharedProfiles,
    table: &mut ProfileTable,
    name: &[u8],
) -> Result<SharedProfiles, NoMemory> {
    let Ok(name) = Pattern::read(NameKind::General, name) else {
        return Err(AllocError);
    };
    table.remove(&name);
    Ok(shared.without_profile(alloc, &name)?.what)
}

/// Puts a profile of that name into both.
fn with_both(
    alloc: Global,
    shared: &SharedProfiles,
    table: &mut ProfileTable,
    name: &[u8],
    uacc: Level,
) -> Result<SharedProfiles, NoMemory> {
    if !put(alloc, table, name, uacc) {
        return Err(AllocError);
    }
    with_name(alloc, shared, name, uacc)
}

/// Makes one change of both: puts a profile of that name, or takes it away.
fn change(
    alloc: Global,
    shared: &SharedProfiles,
    table: &mut ProfileTable,
    name: &[u8],
    random: u32,
) -> Result<SharedProfiles, NoMemory> {
    match random % 3 {
        0 => with_both(alloc, shared, table, name, Level::NoAccess),
        1 => with_both(alloc, shared, table, name, Level::Read),
        _ => without_name(alloc, shared, table, name),
    }
}

/// Names of profiles of general resources.
const NAMES: [&[u8]; 8] = [
    b"A.B", b"A.*", b"A.**", b"**", b"B", b"%", b"A.%", b"C.B.**",
];

/// Makes one change of both, and answers whether they are then the same.
fn is_same_after(
    alloc: Global,
    shared: &mut SharedProfiles,
    table: &mut ProfileTable,
    random: u32,
) -> bool {
    let name = NAMES[(random >> 8) as usize % 8];
    match change(alloc, shared, table, name, random >> 16) {
        Ok(version) => {
            *shared = version;
            is_same(shared, table)
        }
        Err(_) => false,
    }
}

/// How many of some random changes of a table make the same of its versions.
fn count_alike(alloc: Global, table: &mut ProfileTable, changes: u32) -> u32 {
    let Ok(mut versions) = shared(alloc, table) else {
        return 0;
    };
    let mut random = 7u32;
    let mut alike = 0u32;
    for _change in 0..changes {
        random = random.wrapping_mul(1_664_525).wrapping_add(1_013_904_223);
        if is_same_after(alloc, &mut versions, table, random) {
            alike = alike.wrapping_add(1);
        }
    }
    alike
}

/// Each version has what a table has that changes.
#[test]
fn versions_like_a_table(rt: HostRuntime) {
    let alloc = rt.alloc();
    let Ok(mut table) = ProfileTable::new(alloc, NameKind::General) else {
        panic!(rt; "no memory")
    };
    assert!(rt; count_alike(alloc, &mut table, 300) == 300);
}

/// Whether a version has the profile of that name, and the version without it hasn't.
fn has_until_taken_away(alloc: Global, version: &SharedProfiles, name: &Pattern) -> bool {
    match version.without_profile(alloc, name) {
        Ok(made) => version.get(name).is_some() && made.what.get(name).is_none(),
        Err(_) => false,
    }
}

/// Whether a version of one profile, `SYS1.**`, stays as it was when another profile is put, and so does that one when
/// the first profile is taken away.
fn stays(alloc: Global, first: &SharedProfiles) -> bool {
    let Ok(name) = Pattern::read(NameKind::DataSet, b"SYS1.**") else {
        return false;
    };
    match with_name(alloc, first, b"SYS1.PARMLIB", Level::Read) {
        Ok(second) => {
            first.len() == 1 && second.len() == 2 && has_until_taken_away(alloc, &second, &name)
        }
        Err(_) => false,
    }
}

/// A change leaves the version before it as it was.
#[test]
fn versions_of_profiles(rt: HostRuntime) {
    let alloc = rt.alloc();
    let Ok(mut table) = ProfileTable::new(alloc, NameKind::DataSet) else {
        panic!(rt; "no memory")
    };
    assert!(rt; put(alloc, &mut table, b"SYS1.**", Level::NoAccess));
    match shared(alloc, &table) {
        Ok(first) => assert!(rt; stays(alloc, &first)),
        Err(_) => panic!(rt; "no memory"),
    }
}
