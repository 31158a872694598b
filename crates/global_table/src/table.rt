//! Which member of a global access table gives access.
ghost use Rattle.std.specs.Prelude.{◌≡◌, false};
ghost use Rattle.generic_names.specs.Best.{more_specific};
ghost use Rattle.global_table.specs.Grants.{resolved, globals, covers_name, deciding, granted};
ghost use Rattle.global_table.specs.Steps.{with_member, CoversForNone, stands_for_others, may_begin};

use access_levels::{Id, Level};
use generic_names::{Pattern, Resource};
use racf_profiles::Member;

/// The member that gives access.
#[derive(Clone, Copy, Debug)]
pub struct Grant {
    /// Its place in the table, from 0.
    pub place: usize,
    /// Its level.
    pub level: Level,
}

/// A member as it counts for a user.
#[derive(Clone, Copy)]
struct Resolved {
    /// The pattern that it stands for.
    name: Pattern,
    /// Its level.
    level: Level,
    /// Its place in the table.
    place: usize,
}

/// The member that decides on the name for a user with that current group, where its level suffices for what is
/// asked. The most specific member that covers the name decides alone (this product's own rule). It goes through the
/// members, of which a table has at most 1,000, and passes over each whose text begins otherwise than the name before
/// it replaces symbols. It takes no memory.
#[tactic(auto, unfolding(crate::specs::Grants::granted))]
pub fn grants(
    members: &[Member],
    user: Id,
    group: Id,
    name: &Resource,
    asked: Level,
) -> Option<Grant>
    ensures { result ≡ granted members.now user group name.now asked }
{
    match deciding(members, user, group, name) {
        Some(member) if member.level.suffices(asked) => Some(Grant {
            place: member.place,
            level: member.level,
        }),
        _ => None,
    }
}

/// The member that decides on the name. It goes from the last to the first, so that of equal ones the first is kept.
fn deciding(members: &[Member], user: Id, group: Id, name: &Resource) -> Option<Resolved>
    ensures { result ≡ deciding (globals user group members.now) name.now }
{
    let mut best = None;
    for place in (0..members.len()).rev() {
        let member = &members[place];
        if may_cover(member, name) {
            best = with_member(best, member, place, user, group, name);
        }
    }
    best
}

/// The best of a member and those behind it. To resolve the member is the dear part.
fn with_member(
    behind: Option<Resolved>,
    member: &Member,
    place: usize,
    user: Id,
    group: Id,
    name: &Resource,
) -> Option<Resolved>
    ensures { result ≡ with_member name.now (resolved user group place member.now) behind }
{
    match as_it_counts(member, place, user, group) {
        Some(member) if covers_name(&member, name) => Some(more_specific(member, behind)),
        _ => behind,
    }
}

/// Whether a member may cover a name for some user. It only compares the bytes that their texts have in common.
fn may_cover(member: &Member, name: &Resource) -> bool
    ensures { result ≡ false → CoversForNone name.now member.now }
{
    match member {
        Member::Access(pattern, _) => may_begin(pattern.text(), name.text()),
        Member::SecurityLevel(..) | Member::Category(_) | Member::Traits(_) => false,
    }
}

/// Whether the text of a member, up to the first byte that may stand for others, is that of the name.
fn may_begin(member: &[u8], name: &[u8]) -> bool
    ensures { result ≡ may_begin member.now name.now }
{
    for (i, byte) in member.iter().enumerate() {
        if stands_for_others(*byte) {
            return true;
        }
        if i == name.len() {
            return *byte == b'.';
        }
        if *byte != name[i] {
            return false;
        }
    }
    member.len() == name.len()
}

/// Whether a byte may stand for others: `%`, `*`, and the `&` of a symbol.
fn stands_for_others(byte: u8) -> bool
    ensures { result ≡ stands_for_others byte }
{
    matches!(byte, b'%' | b'*' | b'&')
}

/// A member as it counts, if it does.
fn as_it_counts(member: &Member, place: usize, user: Id, group: Id) -> Option<Resolved>
    ensures { result ≡ resolved user group place member.now }
{
    match member {
        Member::Access(name, level) => Some(Resolved {
            name: name.resolve(user.text(), group.text())?,
            level: *level,
            place,
        }),
        Member::SecurityLevel(..) | Member::Category(_) | Member::Traits(_) => None,
    }
}

/// Whether a member covers a name of its own kind.
fn covers_name(member: &Resolved, name: &Resource) -> bool
    ensures { result ≡ covers_name name.now member.now }
{
    member.name.kind() == name.kind() && member.name.covers(name)
}

/// The more specific of a member and the best of those behind it; of equal ones the member.
fn more_specific(member: Resolved, behind: Option<Resolved>) -> Resolved
    ensures { result ≡ more_specific (λ m. m.name) member behind }
{
    match behind {
        Some(other) if other.name.before(&member.name) => other,
        _ => member,
    }
}
