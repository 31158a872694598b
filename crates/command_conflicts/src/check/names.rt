//! Who and what has to be there, or not.
ghost use Rattle.std.specs.Prelude.{◌≡◌, is_some, codes, bytes_eq};
ghost use Rattle.racf_profiles.specs.Lookup.{class_of};
ghost use Rattle.std.specs.Result.{result_err};
ghost use Rattle.racf_profiles.specs.Names.{is_taken, is_class_word};
ghost use Rattle.command_rules.specs.Conflicts.{no_user, no_group, no_owner, no_named_group, no_class, name_taken, not_connected, default_not_connected, default_group, has_profile, has_connected};

use access_levels::Id;
use command_fields::Ids;
use command_rules::{Conflict, Holder, Named};
use racf_profiles::View;
use row_tables::{RowTables, is_connected_to};

/// There is a user of that ID.
#[tactic(auto, unfolding(command_rules::specs::Required::no_user))]
pub(super) fn check_user(tables: &RowTables, id: Id) -> Result<(), Conflict>
    ensures { result_err result ≡ no_user id tables.now.rows }
{
    match tables.user(id) {
        Some(_) => Ok(()),
        None => Err(Conflict::NoUser(id)),
    }
}

/// There is a group of that name.
#[tactic(auto, unfolding(command_rules::specs::Required::no_group))]
pub(super) fn check_group(tables: &RowTables, id: Id) -> Result<(), Conflict>
    ensures { result_err result ≡ no_group id tables.now.rows }
{
    match tables.group(id) {
        Some(_) => Ok(()),
        None => Err(Conflict::NoGroup(id)),
    }
}

/// The same, where a group is named.
#[tactic(auto, unfolding(command_rules::specs::Required::no_named_group))]
pub(super) fn check_named_group(tables: &RowTables, group: Option<Id>) -> Result<(), Conflict>
    ensures { result_err result ≡ no_named_group group tables.now.rows }
{
    match group {
        Some(id) => check_group(tables, id),
        None => Ok(()),
    }
}

/// An owner that is named is a user or a group.
#[tactic(auto, unfolding(command_rules::specs::Required::no_owner))]
pub(super) fn check_owner(tables: &RowTables, owner: Option<Id>) -> Result<(), Conflict>
    ensures { result_err result ≡ no_owner owner tables.now.rows }
{
    match owner {
        None => Ok(()),
        Some(id) => {
            if is_taken(tables, id) {
                Ok(())
            } else {
                Err(Conflict::NoUser(id))
            }
        }
    }
}

/// Neither a user nor a group has the name.
#[tactic(auto, unfolding(command_rules::specs::Required::name_taken))]
pub(super) fn check_free(tables: &RowTables, id: Id) -> Result<(), Conflict>
    ensures { result_err result ≡ name_taken id tables.now.rows }
{
    if is_taken(tables, id) {
        Err(Conflict::Exists(Named::Id(id)))
    } else {
        Ok(())
    }
}

/// Each class is in the table, or is the word USER.
#[tactic(auto, unfolding(command_rules::specs::Required::no_class))]
pub(super) fn check_classes(tables: &RowTables, classes: &Ids) -> Result<(), Conflict>
    ensures { result_err result ≡ no_class classes.now tables.now.rows }
{
    match classes
        .items
        .iter()
        .find(|name| !is_class_word(tables, **name))
    {
        Some(name) => Err(Conflict::NoClass(*name)),
        None => Ok(()),
    }
}

/// The user is connected to the group.
#[tactic(auto, unfolding(command_rules::specs::Required::not_connected))]
pub(super) fn check_connected(tables: &RowTables, user: Id, group: Id) -> Result<(), Conflict>
    ensures { result_err result ≡ not_connected user group tables.now.rows }
{
    let connected = match tables.user(user) {
        Some(row) => is_connected_to(row, group),
        None => false,
    };
    if connected {
        Ok(())
    } else {
        Err(Conflict::NotConnected(group))
    }
}

/// The same of a default group that is named.
#[tactic(auto, unfolding(command_rules::specs::Required::default_not_connected))]
pub(super) fn check_default_connected(
    tables: &RowTables,
    user: Id,
    group: Option<Id>,
) -> Result<(), Conflict>
    ensures { result_err result ≡ default_not_connected user group tables.now.rows }
{
    match group {
        Some(id) => check_connected(tables, user, id),
        None => Ok(()),
    }
}

/// The group isn't the user's default group.
#[tactic(auto, unfolding(command_rules::specs::Conflicts::default_group))]
pub(super) fn check_not_default(tables: &RowTables, user: Id, group: Id) -> Result<(), Conflict>
    ensures { result_err result ≡ default_group user group tables.now.rows }
{
    match tables.user(user) {
        None => Ok(()),
        Some(row) => {
            if row.default_group == group {
                Err(Conflict::DefaultGroup(group))
            } else {
                Ok(())
            }
        }
    }
}

/// No user is connected to the group.
#[tactic(auto, unfolding(command_rules::specs::Conflicts::has_connected))]
pub(super) fn check_none_connected(tables: &RowTables, group: Id) -> Result<(), Conflict>
    ensures { result_err result ≡ has_connected group tables.now.rows }
{
    match tables.users().first_connected(group) {
        Some(user) => Err(Conflict::InUse(Holder::Connected(user.id))),
        None => Ok(()),
    }
}

/// No data set profile begins with the ID.
#[tactic(auto, unfolding(command_rules::specs::Conflicts::has_profile))]
pub(super) fn check_no_profile(tables: &RowTables, id: Id) -> Result<(), Conflict>
    ensures { result_err result ≡ has_profile id tables.now.rows }
{
    match tables.classes().first_under(id) {
        Some(name) => Err(Conflict::InUse(Holder::Profile(*name))),
        None => Ok(()),
    }
}

/// Whether a user or a group has the name.
pub(super) fn is_taken(tables: &RowTables, id: Id) -> bool
    ensures { result ≡ is_taken id tables.now.rows }
{
    if tables.user(id).is_some() {
        return true;
    }
    tables.group(id).is_some()
}

/// Whether CLAUTH takes the name.
pub(super) fn is_class_word(tables: &RowTables, name: Id) -> bool
    ensures { result ≡ is_class_word tables.now.rows name }
{
    is_user_word(name) || has_class(tables, name)
}

/// Whether the class is in the table.
pub(super) fn has_class(tables: &RowTables, name: Id) -> bool
    ensures { result ≡ is_some (class_of name tables.now.rows) }
{
    match tables.classes().class(name) {
        Some(_) => true,
        None => false,
    }
}

/// Whether the name is the word USER.
fn is_user_word(name: Id) -> bool
    ensures { result ≡ bytes_eq name (codes "USER") }
{
    name.text() == b"USER".as_slice()
}
