//! The users, and what they hold together.
ghost use Rattle.std.specs.Prelude.{◌≡◌, ◌+◌, ◌<◌, ◌≤◌, [], length, find, slice_get, Some, IfOk, OnOk};
ghost use Rattle.std.specs.Option.{option_copied, option_map_or};
ghost use Rattle.racf_profiles.specs.Lookup.{is_user};
ghost use Rattle.racf_profiles.specs.Edits.{put_row, drop_row};
ghost use Rattle.racf_profiles.specs.Names.{connections, special_users, is_special_user, special_user_count, connected_to, is_connected_to, connections_added};
ghost use Rattle.racf_profiles.specs.Limits.{most_users, most_connections_in_all};
ghost use Rattle.racf_profiles.specs.LawfulUsers.{AreUsers};
ghost use Rattle.row_tables.specs.UserList.{CanPut};

use access_levels::Id;
use indexmap::IndexMap;
use racf_profiles::{NoMemory, User, Users};
use std::alloc::Global;
use std::marker::Model;

/// The users in order of definition. How many connections and how many unrevoked SPECIAL users there are is kept beside
/// them, so that neither is counted anew for a command.
#[derive(Drop)]
pub struct UserTable {
    /// The users by name, in order of definition.
    users: IndexMap<Id, User>,
    /// How many connections they have in all.
    connections: usize,
    /// How many of them have SPECIAL and are not revoked.
    special_users: usize,
}

impl Model for UserTable {
    ghost use Rattle.racf_profiles.specs.LawfulUsers.{AreUsers};
    ghost use Rattle.row_tables.specs.UserList.{UserList};

    ghost Value = { UserList };

    ghost use Rattle.row_tables.specs.KeptUsers.{users_of, IsCounted};

    ghost view = { users_of };

    ghost invariant = { IsCounted };
}

impl UserTable {
    /// No user.
    pub fn new(alloc: Global) -> UserTable
        ensures { result.users ≡ [] }
    {
        UserTable {
            users: IndexMap::new(alloc),
            connections: 0,
            special_users: 0,
        }
    }

    /// The user of that ID.
    pub fn get(&self, id: Id) -> Option<&User>
        ensures { option_copied result ≡ find (is_user id) self.now.users }
    {
        self.users.get(&id)
    }

    /// How many users there are.
    pub fn len(&self) -> usize
        ensures count { result ≡ length self.now.users }
        ensures few { result ≤ most_users }
        ensures lawful { AreUsers self.now.users }
    {
        self.users.len()
    }

    /// How many connections they have together.
    pub fn connections(&self) -> usize
        ensures count { result ≡ connections self.now.users }
        ensures few { result ≤ most_connections_in_all }
    {
        self.connections
    }

    /// How many users other than that one have SPECIAL and aren't revoked.
    pub fn special_users_beside(&self, id: Id) -> usize
        ensures { result ≡ special_users (drop_row (is_user id) self.now.users) }
    {
        self.special_users - self.share_of(id).special_users
    }

    /// The first user who is connected to the group. It goes through the users.
    pub fn first_connected(&self, group: Id) -> Option<&User>
        ensures { option_copied result ≡ find (is_connected_to group) self.now.users }
    {
        self.users
            .values()
            .find(|user| is_connected_to(user, group))
    }

    /// All users, copied.
    pub fn rows(&self, alloc: Global) -> Result<Users, NoMemory>
        ensures { IfOk result (λ users. users ≡ self.now.users) }
    {
        let mut items = Vec::new(alloc);
        for place in 0..self.len() {
            items.push(self.at(place).copy(alloc)?)?;
        }
        Ok(Users { items })
    }

    /// The user at that place, from 0.
    fn at(&self, place: usize) -> &User
        requires { place < length self.now.users }
        ensures { slice_get self.now.users place ≡ Some result.now }
    {
        &self.users[place]
    }

    /// Makes room for this many users more.
    pub fn reserve(&mut self, more: usize) -> Result<(), NoMemory>
        ensures users { self.new.users ≡ self.old.users }
        ensures spare { OnOk result (more ≤ self.new.spare) }
        ensures kept { self.old.spare ≤ self.new.spare }
    {
        self.users.reserve(more)
    }

    /// Puts a user in the place of the one of his ID, or else last. It takes no memory.
    pub fn put(&mut self, user: User)
        requires { CanPut self.old user }
        ensures users { self.new.users ≡ put_row (is_user user.id) user self.old.users }
        ensures spare { self.old.spare ≤ self.new.spare + 1 }
    {
        let id = user.id;
        let before = self.share_of(id);
        let after = share_of_user(&user);
        self.connections = self.connections - before.connections + after.connections;
        self.special_users = self.special_users - before.special_users + after.special_users;
        let Ok(_replaced) = self.users.insert(id, user) else {
            unreachable!()
        };
    }

    /// Takes the user of that ID away, with his connections. It moves the users behind him up.
    pub fn remove(&mut self, id: Id)
        ensures users { self.new.users ≡ drop_row (is_user id) self.old.users }
        ensures kept { self.old.spare ≤ self.new.spare }
    {
        let share = self.share_of(id);
        self.connections -= share.connections;
        self.special_users -= share.special_users;
        self.users.shift_remove(&id);
    }

    /// What the user of that ID adds to the counts.
    fn share_of(&self, id: Id) -> Share
        ensures connections { result.connections ≡ option_map_or connected_to (find (is_user id) self.now.users) 0 }
        ensures special_users { result.special_users ≡ option_map_or special_user_count (find (is_user id) self.now.users) 0 }
    {
        match self.get(id) {
            None => Share {
                connections: 0,
                special_users: 0,
            },
            Some(user) => share_of_user(user),
        }
    }
}

/// What one user adds to the counts.
#[derive(Clone, Copy)]
struct Share {
    /// The connections of the user.
    connections: usize,
    /// 1 for a user with SPECIAL who is not revoked, else 0.
    special_users: usize,
}

/// What this user adds to the counts.
fn share_of_user(user: &User) -> Share
    ensures connections { result.connections ≡ connected_to user.now }
    ensures special_users { result.special_users ≡ special_user_count user.now }
{
    Share {
        connections: user.connects.items.len(),
        special_users: usize::from(is_special_user(user)),
    }
}

/// Whether the user has SPECIAL and isn't revoked.
pub fn is_special_user(user: &User) -> bool
    ensures { result ≡ is_special_user user.now }
{
    user.attributes.special && !user.attributes.revoked
}

/// Whether the user is connected to the group.
pub fn is_connected_to(user: &User, group: Id) -> bool
    ensures { result ≡ is_connected_to group user.now }
{
    user.connects
        .items
        .iter()
        .any(|connection| connection.group == group)
}

/// How many connections a user gets, once he is connected to the group: none where he is.
pub fn connections_added(user: &User, group: Id) -> usize
    ensures { result ≡ connections_added group user.now.connects }
{
    if is_connected_to(user, group) { 0 } else { 1 }
}

/// How many connections a user has, once he is connected to the group.
pub fn connections_with(user: &User, group: Id) -> usize
    ensures { result ≡ connected_to user.now + connections_added group user.now.connects }
{
    user.connects.items.len() + connections_added(user, group)
}
