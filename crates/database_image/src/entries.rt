//! Access lists, read.
ghost use Rattle.std.specs.Prelude.{◌≡◌, ◌≤◌, ◌+◌, ◌++◌, ◌∷◌, [], length, map, IfOk};
ghost use Rattle.racf_profiles.specs.Limits.{most_list_entries, most_entries_in_all};
ghost use Rattle.access_levels.specs.declared.entries.PortClass.{PortClass};
ghost use Rattle.database_image.specs.Reading.{Gives};
ghost use Rattle.database_image.specs.Forms.{items_from, listed, number};
ghost use Rattle.database_image.specs.Fields.{who, who_text, is_new};
ghost use Rattle.database_image.specs.Description.{within, entry, entry_key, cond_entry, cond_entry_key, cond_key};

use crate::faults::ReadFault;
use crate::fields::{filled, id_at, level_at, port_at, port_rank, short_at, who_at, who_text};
use crate::left::{Left, require};
use crate::names::Names;
use access_levels::{CondEntry, Condition, Entry, Id, PortClass, Who};
use racf_profiles::{CondEntries, Entries};
use std::alloc::{AllocError, Global};

/// The most entries of an access list, and of all.
const MOST_LIST_ENTRIES: u16 = 1_000;

const MOST_ENTRIES_IN_ALL: usize = 1_000_000;

/// A standard access list, where there are so many entries before.
pub fn entries_at(alloc: Global, before: usize, left: &mut Left<'_>) -> Result<Entries, ReadFault>
    requires { before ≤ most_entries_in_all }
    ensures reads { Gives (λ x. (x, left.new)) result ((listed 2 (within most_list_entries most_entries_in_all before) entry).reading left.old) }
    ensures few { IfOk result (λ x. before + length x ≤ most_entries_in_all) }
{
    let count = entry_count_at(before, left)?;
    let items = entries_from(alloc, count, left)?;
    Ok(Entries { items })
}

/// A conditional access list, where there are so many entries before.
pub fn cond_entries_at(
    alloc: Global,
    before: usize,
    left: &mut Left<'_>,
) -> Result<CondEntries, ReadFault>
    requires { before ≤ most_entries_in_all }
    ensures reads { Gives (λ x. (x, left.new)) result ((listed 2 (within most_list_entries most_entries_in_all before) cond_entry).reading left.old) }
    ensures few { IfOk result (λ x. before + length x ≤ most_entries_in_all) }
{
    let count = entry_count_at(before, left)?;
    let items = cond_entries_from(alloc, count, left)?;
    Ok(CondEntries { items })
}

/// How many entries a list has, where there are so many before.
fn entry_count_at(before: usize, left: &mut Left<'_>) -> Result<u32, ReadFault>
    requires { before ≤ most_entries_in_all }
    ensures reads { Gives (λ x. (x, left.new)) result ((number 2 (within most_list_entries most_entries_in_all before)).reading left.old) }
    ensures few { IfOk result (λ x. before + x ≤ most_entries_in_all) }
{
    let begin = left.len();
    let count = short_at(left)?;
    require(
        count <= MOST_LIST_ENTRIES && before + usize::from(count) <= MOST_ENTRIES_IN_ALL,
        begin,
    )?;
    Ok(u32::from(count))
}

/// So many entries.
fn entries_from(alloc: Global, count: u32, left: &mut Left<'_>) -> Result<Vec<Entry>, ReadFault>
    ensures reads { Gives (λ x. (x.items, left.new)) result (items_from entry count [] left.old) }
    ensures count { IfOk result (λ x. length x.items ≡ count) }
{
    let mut names = Names::new(alloc);
    let mut items = Vec::new(alloc);
    for _ in 0..count {
        let entry = next_entry(&items, &mut names, left)?;
        items.push(entry)?;
    }
    Ok(items)
}

/// An entry behind others.
#[tactic(auto, unfolding(crate::specs::Description::entry))]
fn next_entry(before: &[Entry], names: &mut Names, left: &mut Left<'_>) -> Result<Entry, ReadFault>
    requires { names.old ≡ map entry_key before.now }
    ensures reads { Gives (λ x. (x, left.new)) result ((entry before.now).reading left.old) }
    ensures noted { IfOk result (λ x. names.new ≡ names.old ++ entry_key x ∷ []) }
{
    let _before = before;
    let who = new_who_at(names, left)?;
    let level = level_at(left)?;
    Ok(Entry { who, level })
}

/// Whom an entry speaks of, who weren't noted.
fn new_who_at(names: &mut Names, left: &mut Left<'_>) -> Result<Who, ReadFault>
    ensures reads { Gives (λ x. (x, left.new)) result ((who (λ who. is_new names.old (who_text who))).reading left.old) }
    ensures noted { IfOk result (λ x. names.new ≡ names.old ++ who_text x ∷ []) }
{
    let begin = left.len();
    let who = who_at(left)?;
    let new = names.note(who_text(&who))?;
    require(new, begin)?;
    Ok(who)
}

/// So many conditional entries.
fn cond_entries_from(
    alloc: Global,
    count: u32,
    left: &mut Left<'_>,
) -> Result<Vec<CondEntry>, ReadFault>
    ensures reads { Gives (λ x. (x.items, left.new)) result (items_from cond_entry count [] left.old) }
    ensures count { IfOk result (λ x. length x.items ≡ count) }
{
    let mut names = Names::new(alloc);
    let mut items = Vec::new(alloc);
    for _ in 0..count {
        let entry = next_cond_entry(alloc, &items, &mut names, left)?;
        items.push(entry)?;
    }
    Ok(items)
}

/// A conditional entry behind others.
#[tactic(auto, unfolding(crate::specs::Description::cond_entry))]
fn next_cond_entry(
    alloc: Global,
    before: &[CondEntry],
    names: &mut Names,
    left: &mut Left<'_>,
) -> Result<CondEntry, ReadFault>
    requires { names.old ≡ map cond_entry_key before.now }
    ensures reads { Gives (λ x. (x, left.new)) result ((cond_entry before.now).reading left.old) }
    ensures noted { IfOk result (λ x. names.new ≡ names.old ++ cond_entry_key x ∷ []) }
{
    let _before = before;
    let class = port_at(left)?;
    let name = id_at(left)?;
    let who = new_who_under(alloc, class, name, names, left)?;
    let level = level_at(left)?;
    Ok(CondEntry {
        condition: Condition { class, name },
        who,
        level,
    })
}

/// Whom an entry speaks of under this condition, who weren't noted under it.
fn new_who_under(
    alloc: Global,
    class: PortClass,
    port: Id,
    names: &mut Names,
    left: &mut Left<'_>,
) -> Result<Who, ReadFault>
    ensures reads { Gives (λ x. (x, left.new)) result ((who (λ who. is_new names.old (cond_key class port who))).reading left.old) }
    ensures noted { IfOk result (λ x. names.new ≡ names.old ++ cond_key class port x ∷ []) }
{
    let begin = left.len();
    let who = who_at(left)?;
    let key = cond_key(alloc, class, &port, &who)?;
    let new = names.note(&key)?;
    require(new, begin)?;
    Ok(who)
}

/// What tells a conditional entry from others.
fn cond_key(alloc: Global, class: PortClass, port: &Id, who: &Who) -> Result<Vec<u8>, AllocError>
    ensures { IfOk result (λ key. key.items ≡ cond_key class port.now who.now) }
{
    let mut key = Vec::new(alloc);
    key.push(port_rank(class))?;
    key.extend_from_slice(&filled(port.text()))?;
    key.extend_from_slice(who_text(who))?;
    Ok(key)
}
