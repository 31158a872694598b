//! The places of a user's groups, found by a look-up.
ghost use Rattle.std.specs.Prelude.{◌≡◌, ℕ, ◌<◌, ◌≤◌, [], false, length, get_or, position, bytes_eq};
ghost use Rattle.access_lists.specs.Places.{slot_of, AreStarts};

use access_levels::Id;
use std::marker::Model;

/// The slots of the look-up. Groups are spread over them by their spelling.
const SLOTS: usize = 2048;

/// Fewer groups are all compared, and so are all for fewer entries: that costs less than a look-up.
const FEW: usize = 16;

/// For each slot a place that isn't behind its first group.
pub(crate) type Starts = [u16; SLOTS];

/// The groups of a user, which are all compared, or each looked for from the start of its slot on.
/// Contracts see them as their list.
#[derive(Drop)]
pub(crate) struct Places<'a> {
    /// The groups that are looked for.
    groups: &'a [Id],
    /// Where the look-up of each slot begins; none where all groups are compared.
    starts: Option<&'a Starts>,
}

impl<'a> Model for Places<'a> {
    ghost use Rattle.std.specs.Prelude.{List, ℕ, IfSome};
    ghost use Rattle.access_lists.specs.Places.{AreStarts};

    ghost Value = { List (List ℕ) };

    ghost view = { λ places. places.groups.now };

    ghost invariant = { λ places. IfSome places.starts (λ starts. AreStarts places.groups.now starts.now) };
}

impl<'a> Places<'a> {
    /// Groups that are all compared.
    pub(crate) fn compared(groups: &'a [Id]) -> Places<'a>
        ensures { result ≡ groups.now }
    {
        Places {
            groups,
            starts: None,
        }
    }

    /// Groups that are looked up by their starts.
    pub(crate) fn looked_up(groups: &'a [Id], starts: &'a Starts) -> Places<'a>
        requires { AreStarts groups.now starts.now }
        ensures { result ≡ groups.now }
    {
        Places {
            groups,
            starts: Some(starts),
        }
    }

    /// The place of a group.
    pub(crate) fn place_of(&self, id: Id) -> Option<usize>
        ensures { result ≡ position (bytes_eq id) self.now }
    {
        match &self.starts {
            None => place_in(self.groups, id),
            Some(starts) => place_from(self.groups, usize::from(starts[slot_of(id)]), id),
        }
    }
}

/// Whether it pays to look the groups up, for so many entries.
pub(crate) fn pays(groups: &[Id], entries: usize) -> bool {
    groups.len() >= FEW && entries >= FEW
}

/// For each slot the place of its first group, and the number of groups for a slot without one.
pub(crate) fn starts_of(groups: &[Id]) -> Starts
    ensures { AreStarts groups.now result }
{
    let mut starts = [at_most(groups.len()); SLOTS];
    for (place, group) in groups.iter().enumerate() {
        let slot = slot_of(*group);
        if usize::from(starts[slot]) > place {
            starts[slot] = at_most(place);
        }
    }
    starts
}

/// A place that isn't behind this one, in sixteen bits.
fn at_most(place: usize) -> u16
    ensures { result ≤ place }
{
    u16::try_from(place).unwrap_or(u16::MAX)
}

/// The slot of a group.
fn slot_of(id: Id) -> usize
    ensures slot { result ≡ slot_of id }
    ensures within { result < 2048 }
{
    let mut slot = 0;
    for byte in id.text() {
        slot = (slot * 31 + usize::from(*byte)) % SLOTS;
    }
    slot
}

/// The place of a group that isn't before this place.
fn place_from(groups: &[Id], from: usize, id: Id) -> Option<usize>
    requires within { from ≤ length groups.now }
    requires behind { (place : ℕ) → place < from → bytes_eq id (get_or groups.now place []) ≡ false }
    ensures { result ≡ position (bytes_eq id) groups.now }
{
    let behind = &groups[from..];
    match place_in(behind, id) {
        Some(place) => Some(from + place),
        None => None,
    }
}

/// The place of a group in a list.
fn place_in(groups: &[Id], id: Id) -> Option<usize>
    ensures { result ≡ position (bytes_eq id) groups.now }
{
    groups.iter().position(|group| id == *group)
}
