//! Options, groups and users, read.
ghost use Rattle.std.specs.Prelude.{◌≡◌, ◌≤◌, ◌+◌, ◌++◌, ◌∷◌, [], map, length, IfOk};
ghost use Rattle.std.specs.List.{list_all};
ghost use Rattle.racf_profiles.specs.declared.groups.Group.{Group};
ghost use Rattle.racf_profiles.specs.declared.users.User.{User};
ghost use Rattle.racf_profiles.specs.declared.users.Connect.{Connect as Connection};
ghost use Rattle.racf_profiles.specs.Limits.{most_categories, most_groups, most_users, most_connections, most_connections_in_all};
ghost use Rattle.racf_profiles.specs.Names.{connected_to, connections};
ghost use Rattle.racf_profiles.specs.LawfulUsers.{is_printable};
ghost use Rattle.database_image.specs.Reading.{Gives};
ghost use Rattle.database_image.specs.Forms.{spelled_at, items_from, listed, number};
ghost use Rattle.database_image.specs.Fields.{any, below, at_most, id, group_name, group_or_none, itself, is_new, text_spelling};
ghost use Rattle.database_image.specs.Description.{within, text, printable, is_superior_of, attributes, options, group, connection, user};

use crate::categories::defined_at;
use crate::faults::ReadFault;
use crate::fields::{
    authority_at, byte_at, group_at, id_at, is_set, label_at, short_at, superior_at, word_at,
};
use crate::left::{Left, require};
use crate::names::Names;
use access_levels::{Attributes, Id, Text};
use racf_profiles::{
    CategoryNames, Classes, Connect, Connects, Group, Groups, Options, User, Users, sys1,
};
use std::alloc::Global;

/// The most categories that are ever defined, groups, users, and connections of a user and of all.
const MOST_CATEGORIES: u16 = 256;

const MOST_GROUPS: u32 = 8_000;

const MOST_USERS: u32 = 20_000;

const MOST_CONNECTIONS: u16 = 300;

const MOST_CONNECTIONS_IN_ALL: usize = 200_000;

/// The options.
#[tactic(auto, unfolding(crate::specs::Description::options))]
pub fn options_at(alloc: Global, left: &mut Left<'_>) -> Result<Options, ReadFault>
    ensures reads { Gives (λ x. (x, left.new)) result (options.reading left.old) }
    ensures few { IfOk result (λ x. length x.categories ≤ most_categories) }
{
    let begin = left.len();
    let flags = byte_at(left)?;
    require(flags < 8, begin)?;
    let categories = category_names_at(alloc, left)?;
    Ok(Options {
        grplist: is_set(flags, 1),
        protectall: is_set(flags, 2),
        mls: is_set(flags, 4),
        categories,
    })
}

/// The names of the categories.
fn category_names_at(alloc: Global, left: &mut Left<'_>) -> Result<CategoryNames, ReadFault>
    ensures reads { Gives (λ x. (x, left.new)) result ((listed 2 (at_most most_categories) (λ before. id (is_new before))).reading left.old) }
    ensures few { IfOk result (λ x. length x ≤ most_categories) }
{
    let begin = left.len();
    let count = short_at(left)?;
    require(count <= MOST_CATEGORIES, begin)?;
    let items = new_ids_from(alloc, u32::from(count), left)?;
    Ok(CategoryNames { items })
}

/// So many identifiers, no two of them equal.
fn new_ids_from(alloc: Global, count: u32, left: &mut Left<'_>) -> Result<Vec<Id>, ReadFault>
    ensures reads { Gives (λ x. (x.items, left.new)) result (items_from (λ before. id (is_new before)) count [] left.old) }
    ensures count { IfOk result (λ x. length x.items ≡ count) }
{
    let mut names = Names::new(alloc);
    let mut items = Vec::new(alloc);
    for _ in 0..count {
        let name = new_id_at(&mut names, left)?;
        items.push(name)?;
    }
    Ok(items)
}

/// An identifier that wasn't noted.
fn new_id_at(names: &mut Names, left: &mut Left<'_>) -> Result<Id, ReadFault>
    ensures reads { Gives (λ x. (x, left.new)) result ((id (is_new names.old)).reading left.old) }
    ensures noted { IfOk result (λ x. names.new ≡ names.old ++ x ∷ []) }
{
    let begin = left.len();
    let name = id_at(left)?;
    let new = names.note(name.text())?;
    require(new, begin)?;
    Ok(name)
}

/// The groups.
pub fn groups_at(alloc: Global, left: &mut Left<'_>) -> Result<Groups, ReadFault>
    ensures { Gives (λ x. (x, left.new)) result ((listed 4 (at_most most_groups) group).reading left.old) }
{
    let begin = left.len();
    let count = word_at(left)?;
    require(count <= MOST_GROUPS, begin)?;
    let items = groups_from(alloc, count, left)?;
    Ok(Groups { items })
}

/// So many groups.
fn groups_from(alloc: Global, count: u32, left: &mut Left<'_>) -> Result<Vec<Group>, ReadFault>
    ensures { Gives (λ x. (x.items, left.new)) result (items_from group count [] left.old) }
{
    let mut names = Names::new(alloc);
    let mut items = Vec::new(alloc);
    for _ in 0..count {
        let group = next_group(&items, &mut names, left)?;
        items.push(group)?;
    }
    Ok(items)
}

/// A group behind others.
#[tactic(auto, unfolding(crate::specs::Description::group))]
fn next_group(before: &[Group], names: &mut Names, left: &mut Left<'_>) -> Result<Group, ReadFault>
    requires { names.old ≡ map (λ (group : Group). group.id) before.now }
    ensures reads { Gives (λ x. (x, left.new)) result ((group before.now).reading left.old) }
    ensures noted { IfOk result (λ x. names.new ≡ names.old ++ x.id ∷ []) }
{
    let _before = before;
    let id = new_group_at(names, left)?;
    let superior = superior_of(id, left)?;
    let owner = id_at(left)?;
    Ok(Group {
        id,
        superior,
        owner,
    })
}

/// The superior group of the group of that name.
fn superior_of(id: Id, left: &mut Left<'_>) -> Result<Option<Id>, ReadFault>
    ensures { Gives (λ x. (x, left.new)) result ((group_or_none (is_superior_of id)).reading left.old) }
{
    let begin = left.len();
    let superior = superior_at(left)?;
    require(superior.is_none() == (id == sys1()), begin)?;
    Ok(superior)
}

/// The name of a group that wasn't noted.
fn new_group_at(names: &mut Names, left: &mut Left<'_>) -> Result<Id, ReadFault>
    ensures reads { Gives (λ x. (x, left.new)) result ((group_name (is_new names.old)).reading left.old) }
    ensures noted { IfOk result (λ x. names.new ≡ names.old ++ x ∷ []) }
{
    let begin = left.len();
    let name = group_at(left)?;
    let new = names.note(name.text())?;
    require(new, begin)?;
    Ok(name)
}

/// The users.
pub fn users_at(alloc: Global, categories: usize, left: &mut Left<'_>) -> Result<Users, ReadFault>
    requires { categories ≤ 256 }
    ensures { Gives (λ x. (x, left.new)) result ((listed 4 (at_most most_users) (user categories)).reading left.old) }
{
    let begin = left.len();
    let count = word_at(left)?;
    require(count <= MOST_USERS, begin)?;
    let items = users_from(alloc, categories, count, left)?;
    Ok(Users { items })
}

/// So many users.
fn users_from(
    alloc: Global,
    categories: usize,
    count: u32,
    left: &mut Left<'_>,
) -> Result<Vec<User>, ReadFault>
    requires { categories ≤ 256 }
    ensures { Gives (λ x. (x.items, left.new)) result (items_from (user categories) count [] left.old) }
{
    let mut names = Names::new(alloc);
    let mut connections = 0;
    let mut items = Vec::new(alloc);
    for _ in 0..count {
        let user = next_user(alloc, categories, &items, &mut names, connections, left)?;
        connections += connections_of(&user);
        items.push(user)?;
    }
    Ok(items)
}

/// How many connections a user has.
fn connections_of(user: &User) -> usize
    ensures { result ≡ connected_to user.now }
{
    user.connects.items.len()
}

/// A user behind others, who have so many connections.
#[tactic(auto, unfolding(crate::specs::Description::user))]
fn next_user(
    alloc: Global,
    categories: usize,
    before: &[User],
    names: &mut Names,
    held: usize,
    left: &mut Left<'_>,
) -> Result<User, ReadFault>
    requires categories { categories ≤ 256 }
    requires names { names.old ≡ map (λ (user : User). user.id) before.now }
    requires held { held ≡ connections before.now }
    requires few { held ≤ most_connections_in_all }
    ensures reads { Gives (λ x. (x, left.new)) result ((user categories before.now).reading left.old) }
    ensures noted { IfOk result (λ x. names.new ≡ names.old ++ x.id ∷ []) }
    ensures few { IfOk result (λ x. held + length x.connects ≤ most_connections_in_all) }
{
    let _before = before;
    let id = new_id_at(names, left)?;
    let default_group = group_at(left)?;
    let owner = id_at(left)?;
    let name = user_name_at(alloc, left)?;
    let attributes = attributes_at(left)?;
    let level = byte_at(left)?;
    let set = defined_at(categories, left)?;
    let label = label_at(left)?;
    let classes = classes_at(alloc, left)?;
    let connects = connects_at(alloc, held, left)?;
    Ok(User {
        id,
        default_group,
        owner,
        name,
        attributes,
        classes,
        level,
        categories: set,
        label,
        connects,
    })
}

/// A user's name.
fn user_name_at(alloc: Global, left: &mut Left<'_>) -> Result<Text, ReadFault>
    ensures { Gives (λ x. (x, left.new)) result ((text 1 (at_most 20) itself printable any).reading left.old) }
{
    let begin = left.len();
    let count = byte_at(left)?;
    require(count <= 20, begin)?;
    printable_at(alloc, usize::from(count), left)
}

/// So many printable bytes.
#[tactic(auto, unfolding(crate::specs::Forms::spelled_at))]
fn printable_at(alloc: Global, count: usize, left: &mut Left<'_>) -> Result<Text, ReadFault>
    ensures { Gives (λ x. (x, left.new)) result (spelled_at (text_spelling itself printable count) left.old) }
{
    let begin = left.len();
    let name = left.part(count)?;
    require(is_printable(name), begin)?;
    Ok(Text::of(alloc, name)?)
}

/// Whether all bytes are printable.
fn is_printable(name: &[u8]) -> bool
    ensures { result ≡ list_all is_printable name.now }
{
    name.iter().all(|byte| 32 <= *byte && *byte <= 126)
}

/// A user's attributes.
fn attributes_at(left: &mut Left<'_>) -> Result<Attributes, ReadFault>
    ensures { Gives (λ x. (x, left.new)) result (attributes.reading left.old) }
{
    let begin = left.len();
    let flags = byte_at(left)?;
    require(flags < 64, begin)?;
    Ok(Attributes {
        special: is_set(flags, 1),
        operations: is_set(flags, 2),
        auditor: is_set(flags, 4),
        restricted: is_set(flags, 8),
        revoked: is_set(flags, 16),
        uaudit: is_set(flags, 32),
    })
}

/// The classes in which a user may define profiles.
fn classes_at(alloc: Global, left: &mut Left<'_>) -> Result<Classes, ReadFault>
    ensures { Gives (λ x. (x, left.new)) result ((listed 1 any (λ before. id (is_new before))).reading left.old) }
{
    let count = byte_at(left)?;
    let items = new_ids_from(alloc, u32::from(count), left)?;
    Ok(Classes { items })
}

/// A user's connections, where the users before have so many.
fn connects_at(alloc: Global, before: usize, left: &mut Left<'_>) -> Result<Connects, ReadFault>
    requires { before ≤ most_connections_in_all }
    ensures reads { Gives (λ x. (x, left.new)) result ((listed 2 (within most_connections most_connections_in_all before) connection).reading left.old) }
    ensures few { IfOk result (λ x. before + length x ≤ most_connections_in_all) }
{
    let begin = left.len();
    let count = short_at(left)?;
    require(
        count <= MOST_CONNECTIONS && before + usize::from(count) <= MOST_CONNECTIONS_IN_ALL,
        begin,
    )?;
    let items = connects_from(alloc, u32::from(count), left)?;
    Ok(Connects { items })
}

/// So many connections.
fn connects_from(alloc: Global, count: u32, left: &mut Left<'_>) -> Result<Vec<Connect>, ReadFault>
    ensures reads { Gives (λ x. (x.items, left.new)) result (items_from connection count [] left.old) }
    ensures count { IfOk result (λ x. length x.items ≡ count) }
{
    let mut names = Names::new(alloc);
    let mut items = Vec::new(alloc);
    for _ in 0..count {
        let connection = next_connection(&items, &mut names, left)?;
        items.push(connection)?;
    }
    Ok(items)
}

/// A connection behind others.
#[tactic(auto, unfolding(crate::specs::Description::connection))]
fn next_connection(
    before: &[Connect],
    names: &mut Names,
    left: &mut Left<'_>,
) -> Result<Connect, ReadFault>
    requires { names.old ≡ map (λ (connection : Connection). connection.group) before.now }
    ensures reads { Gives (λ x. (x, left.new)) result ((connection before.now).reading left.old) }
    ensures noted { IfOk result (λ x. names.new ≡ names.old ++ x.group ∷ []) }
{
    let _before = before;
    let group = new_group_at(names, left)?;
    let authority = authority_at(left)?;
    let begin = left.len();
    let flags = byte_at(left)?;
    require(flags < 16, begin)?;
    Ok(Connect {
        group,
        authority,
        special: is_set(flags, 1),
        operations: is_set(flags, 2),
        auditor: is_set(flags, 4),
        revoked: is_set(flags, 8),
    })
}
