//! The entry of an access list that counts for a user and his groups.
ghost use Rattle.std.specs.Prelude.{◌≡◌, Some, None, option_map};
ghost use Rattle.std.specs.List.{find};
ghost use Rattle.access_levels.specs.declared.entries.Entry.{Entry};
ghost use Rattle.access_lists.specs.Lists.{is_for};
ghost use Rattle.access_lists.specs.Answers.{answered, answered_when, found_of, star_entry};

use crate::best::{group_entry, group_entry_under};
use crate::edits::{is_same_who, place_under};
use access_levels::{CondEntry, Condition, Entry, Id, Level, Who};

/// What an access list gives to a user: the level of the entry that counts for him.
#[derive(Clone, Copy, Debug, PartialEq, Eq)]
pub enum Found {
    /// The user's own entry.
    User(Level),
    /// The entry of this group.
    Group(Id, Level),
    /// The entry of `*`.
    Star(Level),
    Nothing,
}

/// What a standard list gives to a user who is in these groups: the level of his own entry; without one
/// that of the best entry for his groups, on a tie of the group that comes first; without both that
/// of `*`, which doesn't count for a RESTRICTED user. A lower kind is asked only where there is no
/// entry of a higher one, and not where its level is too low (z/OS Security Server RACF Security
/// Administrator's Guide, authorization checking).
///
/// It goes through the list three times at most. With 16 groups and 16 entries or more it goes through
/// the groups once, and then looks up the group of each entry whose level isn't below the best one so
/// far: only the groups from the first one of the same slot on are compared with it, none where no group
/// has that slot. With fewer all groups are compared. It takes no memory.
pub fn answer(list: &[Entry], user: Id, groups: &[Id], restricted: bool) -> Found
    ensures { result ≡ answered user groups.now restricted list.now }
{
    if let Some(level) = level_for(list, Who::Named(user)) {
        return Found::User(level);
    }
    if let Some(best) = group_entry(list, groups) {
        return Found::Group(best.group, best.level);
    }
    star_level(list, restricted)
}

/// What the star entry gives.
fn star_level(list: &[Entry], restricted: bool) -> Found
    ensures { result ≡ found_of None None (star_entry restricted list.now) }
{
    match level_for(list, Who::Star) {
        Some(level) if !restricted => Found::Star(level),
        _ => Found::Nothing,
    }
}

/// The level of the entry for one.
fn level_for(list: &[Entry], who: Who) -> Option<Level>
    ensures { result ≡ option_map (λ (entry : Entry). entry.level) (find (is_for who) list.now) }
{
    match list.iter().find(|entry| is_same_who(&entry.who, &who)) {
        Some(entry) => Some(entry.level),
        None => None,
    }
}

/// The place in a conditional list of the entry that counts for a user who came in through this port.
/// The entries under the port are asked as those of a standard list, and the others count for nobody.
///
/// # Returns
///
/// None exactly where no entry counts, as for a user without a port of entry. It costs what `answer`
/// costs, the look-ups too, and one more way through the list.
pub fn answer_when(
    list: &[CondEntry],
    port: Option<Condition>,
    user: Id,
    groups: &[Id],
    restricted: bool,
) -> Option<usize>
    ensures { result ≡ answered_when port user groups.now restricted list.now }
{
    match &port {
        Some(port) => place_that_counts(list, port, user, groups, restricted),
        None => None,
    }
}

/// The place of the entry that counts under a port.
fn place_that_counts(
    list: &[CondEntry],
    port: &Condition,
    user: Id,
    groups: &[Id],
    restricted: bool,
) -> Option<usize>
    ensures { result ≡ answered_when (Some port.now) user groups.now restricted list.now }
{
    let own = Who::Named(user);
    if let Some(place) = place_under(list, port, &own) {
        return Some(place);
    }
    if let Some(best) = group_entry_under(list, port, groups) {
        let group = Who::Named(best.group);
        return place_under(list, port, &group);
    }
    if restricted {
        return None;
    }
    place_under(list, port, &Who::Star)
}
