//! Which groups lie below themselves. A way up that never ends goes round among such groups, so that they are the ones
//! that are reached by many steps up. Steps are doubled, so that no way is walked step by step.
ghost use Rattle.std.specs.Prelude.{◌≡◌, ◌+◌, ◌^◌, ◌<◌, List, ℕ, Some, bytes_eq, IfOk, OnOk, ◌||◌, if◌then◌else◌};
ghost use Rattle.std.specs.Option.{option_or, option_eq, option_and_then};
ghost use Rattle.indexmap.specs.IndexMap.{get};
ghost use Rattle.indexmap.specs.IndexSet.{contains};
ghost use Rattle.database_image.specs.Ways.{IsIndexOf, AreWays, AreReached};

use crate::index::above;
use access_levels::Id;
use indexmap::{IndexMap, IndexSet};
use racf_profiles::{Group, NoMemory};
use std::alloc::Global;

/// So many doublings make more steps than there can be groups.
const DOUBLINGS: u32 = 13;

/// The groups that lie below themselves: those to which 8,192 steps up from a group lead.
pub fn cycles(
    alloc: Global,
    groups: &[Group],
    index: &IndexMap<Id, Option<Id>>,
) -> Result<IndexSet<Id>, NoMemory>
    requires { IsIndexOf groups.now index.now }
    ensures { IfOk result (λ ends. AreReached (2 ^ 13) groups.now ends) }
{
    let ways = long_ways(alloc, groups, index)?;
    ends(alloc, groups, &ways)
}

/// Where ways from the groups lead.
fn ends(alloc: Global, groups: &[Group], ways: &IndexMap<Id, Id>) -> Result<IndexSet<Id>, NoMemory>
    ensures { IfOk result (λ ends. (n : ℕ) → AreWays n groups.now ways.now → AreReached n groups.now ends) }
{
    let mut ends = IndexSet::new(alloc);
    for group in groups {
        note(&mut ends, end(ways, group.id))?;
    }
    Ok(ends)
}

/// Where 8,192 steps up from each group lead.
fn long_ways(
    alloc: Global,
    groups: &[Group],
    index: &IndexMap<Id, Option<Id>>,
) -> Result<IndexMap<Id, Id>, NoMemory>
    requires { IsIndexOf groups.now index.now }
    ensures { IfOk result (λ ways. AreWays (2 ^ 13) groups.now ways) }
{
    let mut ways = steps(alloc, groups, index)?;
    for _ in 0..DOUBLINGS {
        ways = doubled(alloc, groups, &ways)?;
    }
    Ok(ways)
}

/// Where one step up from each group leads.
fn steps(
    alloc: Global,
    groups: &[Group],
    index: &IndexMap<Id, Option<Id>>,
) -> Result<IndexMap<Id, Id>, NoMemory>
    requires { IsIndexOf groups.now index.now }
    ensures { IfOk result (λ ways. AreWays 1 groups.now ways) }
{
    let mut ways = IndexMap::new(alloc);
    for group in groups {
        put(&mut ways, group.id, above(index, group.id))?;
    }
    Ok(ways)
}

/// Where twice as many steps up from each group lead.
fn doubled(
    alloc: Global,
    groups: &[Group],
    ways: &IndexMap<Id, Id>,
) -> Result<IndexMap<Id, Id>, NoMemory>
    ensures { IfOk result (λ twice. (n : ℕ) → 0 < n → AreWays n groups.now ways.now → AreWays (n + n) groups.now twice) }
{
    let mut twice = IndexMap::new(alloc);
    for group in groups {
        put(&mut twice, group.id, second_end(ways, group.id))?;
    }
    Ok(twice)
}

/// Where a way from a group leads.
fn end(ways: &IndexMap<Id, Id>, id: Id) -> Option<Id>
    ensures { result ≡ get bytes_eq ways.now id }
{
    match ways.get(&id) {
        Some(end) => Some(*end),
        None => None,
    }
}

/// Where a way from a group leads, and then one from there.
fn second_end(ways: &IndexMap<Id, Id>, id: Id) -> Option<Id>
    ensures { result ≡ option_and_then (get bytes_eq ways.now) (get bytes_eq ways.now id) }
{
    end(ways, end(ways, id)?)
}

/// Puts where a way from a group leads, if it goes so far.
fn put(ways: &mut IndexMap<Id, Id>, group: Id, end: Option<Id>) -> Result<(), NoMemory>
    ensures { OnOk result ((id : List ℕ) → get bytes_eq ways.new id ≡ (if bytes_eq group id then option_or end (get bytes_eq ways.old id) else get bytes_eq ways.old id)) }
{
    if let Some(end) = end {
        ways.insert(group, end)?;
    }
    Ok(())
}

/// Notes where a way leads, if it goes so far.
fn note(ends: &mut IndexSet<Id>, end: Option<Id>) -> Result<(), NoMemory>
    ensures { OnOk result ((id : List ℕ) → contains bytes_eq ends.new id ≡ (contains bytes_eq ends.old id || option_eq bytes_eq end (Some id))) }
{
    if let Some(end) = end {
        ends.insert(end)?;
    }
    Ok(())
}
