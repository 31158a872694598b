//! The best of the entries for a user's groups.
ghost use Rattle.std.specs.Prelude.{◌≡◌, if◌then◌else◌, Some};
ghost use Rattle.access_lists.specs.Lists.{is_under};
ghost use Rattle.access_lists.specs.Answers.{for_group, as_group_entry, goes_before, first_of_two, group_entry, unconditional, entries_under};

use crate::edits::is_same_port;
use crate::places::{Places, pays, starts_of};
use access_levels::{CondEntry, Condition, Entry, Id, Level, Who};

/// An entry for a group of the user.
#[derive(Clone, Copy, Debug)]
pub struct GroupEntry {
    pub group: Id,
    pub level: Level,
    /// The group's place among the user's groups.
    pub place: usize,
}

impl GroupEntry {
    /// Whether it goes before another: by its level, and at the same level by its group's place.
    fn goes_before(&self, other: &GroupEntry) -> bool
        ensures { result ≡ goes_before self.now other.now }
    {
        let (rank, other_rank) = (self.level.rank(), other.level.rank());
        rank > other_rank || (rank == other_rank && self.place < other.place)
    }
}

/// The group entry of a standard list. Few groups are compared, and no room for a look-up is made.
pub(crate) fn group_entry(list: &[Entry], groups: &[Id]) -> Option<GroupEntry>
    ensures { result ≡ group_entry groups.now list.now }
{
    if pays(groups, list.len()) {
        looked_up(list, groups)
    } else {
        best_of(list, &Places::compared(groups))
    }
}

/// The same by a look-up.
fn looked_up(list: &[Entry], groups: &[Id]) -> Option<GroupEntry>
    ensures { result ≡ group_entry groups.now list.now }
{
    let starts = starts_of(groups);
    best_of(list, &Places::looked_up(groups, &starts))
}

/// The best of the entries of a standard list.
fn best_of(list: &[Entry], places: &Places) -> Option<GroupEntry>
    ensures { result ≡ group_entry places.now list.now }
{
    let mut best = None;
    for entry in list {
        best = better(best, places, entry.who, entry.level);
    }
    best
}

/// The group entry of a conditional list under a port, likewise.
pub(crate) fn group_entry_under(
    list: &[CondEntry],
    port: &Condition,
    groups: &[Id],
) -> Option<GroupEntry>
    ensures { result ≡ group_entry groups.now (entries_under port.now list.now) }
{
    if pays(groups, list.len()) {
        looked_up_under(list, port, groups)
    } else {
        best_under(list, port, &Places::compared(groups))
    }
}

/// The same by a look-up.
fn looked_up_under(list: &[CondEntry], port: &Condition, groups: &[Id]) -> Option<GroupEntry>
    ensures { result ≡ group_entry groups.now (entries_under port.now list.now) }
{
    let starts = starts_of(groups);
    best_under(list, port, &Places::looked_up(groups, &starts))
}

/// The best of the entries of a conditional list under a port.
fn best_under(list: &[CondEntry], port: &Condition, places: &Places) -> Option<GroupEntry>
    ensures { result ≡ group_entry places.now (entries_under port.now list.now) }
{
    let mut best = None;
    for entry in list {
        best = better_under(best, port, places, entry);
    }
    best
}

/// The better of the best so far and a conditional entry under the port.
fn better_under(
    best: Option<GroupEntry>,
    port: &Condition,
    places: &Places,
    entry: &CondEntry,
) -> Option<GroupEntry>
    ensures { result ≡ (if is_under port.now entry.now then first_of_two best (as_group_entry places.now (unconditional entry.now)) else best) }
{
    if is_same_port(&entry.condition, port) {
        better(best, places, entry.who, entry.level)
    } else {
        best
    }
}

/// The better of the best so far and an entry. Its group is looked up only where it can be the better
/// one by its level.
fn better(best: Option<GroupEntry>, places: &Places, who: Who, level: Level) -> Option<GroupEntry>
    ensures { result ≡ first_of_two best (for_group places.now level who) }
{
    match best {
        None => for_group(places, who, level),
        Some(best) if best.level.rank() > level.rank() => Some(best),
        Some(best) => first_of_two(best, for_group(places, who, level)),
    }
}

/// The first of two where there is a second.
fn first_of_two(best: GroupEntry, other: Option<GroupEntry>) -> Option<GroupEntry>
    ensures { result ≡ first_of_two (Some best) other }
{
    match other {
        Some(other) if other.goes_before(&best) => Some(other),
        _ => Some(best),
    }
}

/// An entry for one of the groups, with the place of its group.
fn for_group(places: &Places, who: Who, level: Level) -> Option<GroupEntry>
    ensures { result ≡ for_group places.now level who }
{
    match &who {
        Who::Star => None,
        Who::Named(id) => match places.place_of(*id) {
            Some(place) => Some(GroupEntry {
                group: *id,
                level,
                place,
            }),
            None => None,
        },
    }
}
