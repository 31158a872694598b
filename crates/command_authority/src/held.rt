//! What a user holds.
ghost use Rattle.std.specs.Prelude.{◌≡◌, ◌&&◌, option_map, bytes_eq};
ghost use Rattle.std.specs.List.{list_any};
ghost use Rattle.access_levels.specs.declared.entries.Entry.{Entry};
ghost use Rattle.access_lists.specs.Lists.{is_for};
ghost use Rattle.access_lists.specs.Answers.{user_entry};
ghost use Rattle.command_authority.specs.Held.{has_class, reaches, has_authority, has_alter};
ghost use Rattle.command_authority.specs.Entries.{is_in, is_for_group, gives_group_alter};

use access_levels::{Entry, GroupAuthority, Id, Level, Who};
use racf_profiles::{Connect, User};

/// Whether the user has class authority in the class of this name, or in the word USER.
pub(crate) fn has_class(user: &User, class: &[u8]) -> bool
    ensures { result ≡ has_class user.now class.now }
{
    user.classes.items.iter().any(|name| name.text() == class)
}

/// Whether the user's authority in the group is at least the one that is wanted.
pub(crate) fn has_authority(user: &User, wanted: GroupAuthority, group: Id) -> bool
    ensures { result ≡ has_authority user.now wanted group }
{
    user.connects
        .items
        .iter()
        .filter(|connection| !connection.revoked)
        .any(|connection| gives(connection, wanted, group))
}

/// Whether the connection gives at least that authority in the group.
fn gives(connection: &Connect, wanted: GroupAuthority, group: Id) -> bool
    ensures { result ≡ (bytes_eq connection.now.group group && reaches wanted connection.now) }
{
    connection.group == group && connection.authority.rank() >= wanted.rank()
}

/// Whether a standard list gives the user ALTER by his own entry, or without one by that of a group of his. It goes
/// through the list twice, and through the connections once for each entry with ALTER.
pub(crate) fn has_alter(user: &User, list: &[Entry]) -> bool
    ensures { result ≡ has_alter user.now list.now }
{
    match own_level(user, list) {
        Some(level) => level.suffices(Level::Alter),
        None => has_group_alter(user, list),
    }
}

/// Whether an entry gives ALTER to a group of the user.
fn has_group_alter(user: &User, list: &[Entry]) -> bool
    ensures { result ≡ list_any (gives_group_alter user.now) list.now }
{
    list.iter().any(|entry| gives_group_alter(user, entry))
}

/// The level of the user's own entry.
fn own_level(user: &User, list: &[Entry]) -> Option<Level>
    ensures { result ≡ option_map (λ (entry : Entry). entry.level) (user_entry user.now.id list.now) }
{
    match list.iter().find(|entry| is_for(entry, user.id)) {
        Some(entry) => Some(entry.level),
        None => None,
    }
}

/// Whether the entry is for that ID.
fn is_for(entry: &Entry, id: Id) -> bool
    ensures { result ≡ is_for (Who.Named id) entry.now }
{
    match &entry.who {
        Who::Named(other) => *other == id,
        _ => false,
    }
}

/// Whether the entry gives ALTER to a group of the user.
fn gives_group_alter(user: &User, entry: &Entry) -> bool
    ensures { result ≡ gives_group_alter user.now entry.now }
{
    entry.level.suffices(Level::Alter) && is_for_group(user, &entry.who)
}

/// Whether it is a group of the user.
fn is_for_group(user: &User, who: &Who) -> bool
    ensures { result ≡ is_for_group user.now who.now }
{
    match who {
        Who::Star => false,
        Who::Named(id) => is_in(user, *id),
    }
}

/// Whether the user is in the group.
fn is_in(user: &User, group: Id) -> bool
    ensures { result ≡ is_in user.now group }
{
    user.connects
        .items
        .iter()
        .filter(|connection| !connection.revoked)
        .any(|connection| group == connection.group)
}
