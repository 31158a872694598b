//! What has to hold of the users after the command: the limits, and that someone can still administer everything.
ghost use Rattle.std.specs.Prelude.{◌≡◌, false};
ghost use Rattle.std.specs.Result.{result_err};
ghost use Rattle.command_fields.specs.declared.fields.CommandFields.TheVariants as fields;
ghost use Rattle.std.specs.Option.{option_map_or};
ghost use Rattle.racf_profiles.specs.Lookup.{user_of};
ghost use Rattle.racf_profiles.specs.declared.users.User.{User};
ghost use Rattle.racf_profiles.specs.Names.{connects_of, is_special_user};
ghost use Rattle.command_rules.specs.Effects.{connects_after, altered_user, group_or_current};
ghost use Rattle.command_rules.specs.Conflicts.{users_full, connections_full, user_full, last_special};

use crate::limits::check_count;
use access_levels::Id;
use command_fields::{AddUser, AltUser, Connect, DelUser, Issuer};
use command_rules::{Conflict, Limit, attributes_after};
use racf_profiles::View;
use row_tables::{
    MOST_CONNECTIONS, MOST_CONNECTIONS_IN_ALL, MOST_USERS, RowTables, connections_added,
    connections_with,
};

/// One more user is within the limit.
#[tactic(auto, unfolding(command_rules::specs::Conflicts::users_full))]
pub(super) fn check_user_fits(
    tables: &RowTables,
    issuer: &Issuer,
    command: &AddUser,
) -> Result<(), Conflict>
    ensures { result_err result ≡ users_full issuer.now (fields.AddUser command.now) tables.now.rows }
{
    check_count(Limit::Users, MOST_USERS, tables.users().len() + 1)
}

/// One more connection, that of a new user, is within the limit of all.
#[tactic(auto, unfolding(command_rules::specs::Conflicts::connections_full))]
pub(super) fn check_new_connection_fits(
    tables: &RowTables,
    issuer: &Issuer,
    command: &AddUser,
) -> Result<(), Conflict>
    ensures { result_err result ≡ connections_full issuer.now (fields.AddUser command.now) tables.now.rows }
{
    check_count(
        Limit::AllConnections,
        MOST_CONNECTIONS_IN_ALL,
        tables.users().connections() + 1,
    )
}

/// The user's connections are within the limit, once he is connected to the group.
#[tactic(auto, unfolding(command_rules::specs::Conflicts::user_full))]
pub(super) fn check_connects_of_user(
    tables: &RowTables,
    command: &Connect,
    group: Id,
) -> Result<(), Conflict>
    ensures { result_err result ≡ user_full (connects_after command.now group (connects_of command.now.user tables.now.rows)) }
{
    match tables.user(command.user) {
        None => Ok(()),
        Some(user) => check_count(
            Limit::Connections,
            MOST_CONNECTIONS,
            connections_with(user, group),
        ),
    }
}

/// All connections are within the limit, once the user is connected to the group.
#[tactic(auto, unfolding(command_rules::specs::Conflicts::connections_full))]
pub(super) fn check_connection_fits(
    tables: &RowTables,
    issuer: &Issuer,
    command: &Connect,
    group: Id,
) -> Result<(), Conflict>
    requires { group ≡ group_or_current issuer.now command.now.group }
    ensures { result_err result ≡ connections_full issuer.now (fields.Connect command.now) tables.now.rows }
{
    let count = tables.users().connections();
    match tables.user(command.user) {
        None => check_count(Limit::AllConnections, MOST_CONNECTIONS_IN_ALL, count),
        Some(user) => check_count(
            Limit::AllConnections,
            MOST_CONNECTIONS_IN_ALL,
            count + connections_added(user, group),
        ),
    }
}

/// After ALTUSER a user who isn't revoked has SPECIAL.
#[tactic(auto, unfolding(command_rules::specs::Conflicts::last_special))]
pub(super) fn check_special_user_altered(
    tables: &RowTables,
    issuer: &Issuer,
    command: &AltUser,
) -> Result<(), Conflict>
    ensures { result_err result ≡ last_special issuer.now (fields.AltUser command.now) command.now.user tables.now.rows }
{
    if is_special_after(tables, command) {
        return Ok(());
    }
    if tables.users().special_users_beside(command.user) == 0 {
        return Err(Conflict::LastSpecial(command.user));
    }
    Ok(())
}

/// After DELUSER a user who isn't revoked has SPECIAL.
#[tactic(auto, unfolding(command_rules::specs::Conflicts::last_special))]
pub(super) fn check_special_user_gone(
    tables: &RowTables,
    issuer: &Issuer,
    command: &DelUser,
) -> Result<(), Conflict>
    ensures { result_err result ≡ last_special issuer.now (fields.DelUser command.now) command.now.user tables.now.rows }
{
    if tables.users().special_users_beside(command.user) == 0 {
        return Err(Conflict::LastSpecial(command.user));
    }
    Ok(())
}

/// Whether the user has SPECIAL and isn't revoked, after ALTUSER.
fn is_special_after(tables: &RowTables, command: &AltUser) -> bool
    ensures { result ≡ option_map_or (λ (user : User). is_special_user (altered_user command.now tables.now.rows user)) (user_of command.now.user tables.now.rows) false }
{
    match tables.user(command.user) {
        None => false,
        Some(user) => {
            let attributes = attributes_after(command, user.attributes);
            attributes.special && !attributes.revoked
        }
    }
}
