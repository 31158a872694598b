//! What has to hold of the tree of groups after the command.
ghost use Rattle.std.specs.Prelude.{◌≡◌, ◌&&◌, Some, is_some};
ghost use Rattle.std.specs.Option.{option_map};
ghost use Rattle.std.specs.Result.{result_err};
ghost use Rattle.command_fields.specs.declared.fields.CommandFields.TheVariants as fields;
ghost use Rattle.racf_profiles.specs.Lookup.{group_of};
ghost use Rattle.command_rules.specs.Effects.{new_group, altered_group};
ghost use Rattle.command_rules.specs.Conflicts.{if_met, is_root, has_subgroup, cycle, owner_not_superior, owner_apart, groups_full, meets};

use crate::limits::check_count;
use access_levels::Id;
use command_fields::{AddGroup, AltGroup, DelGroup, Issuer};
use command_rules::{Conflict, Holder, Limit, altered_group, new_group};
use racf_profiles::{Group, View, sys1};
use row_tables::{MOST_GROUPS, RowTables};

/// No group is below the group.
#[tactic(auto, unfolding(command_rules::specs::Conflicts::has_subgroup))]
pub(super) fn check_no_subgroup(tables: &RowTables, group: Id) -> Result<(), Conflict>
    ensures { result_err result ≡ has_subgroup group tables.now.rows }
{
    match tables.tree().first_subgroup(group) {
        Some(subgroup) => Err(Conflict::InUse(Holder::Subgroup(subgroup))),
        None => Ok(()),
    }
}

/// The new superior group isn't the group or below it.
#[tactic(auto, unfolding(command_rules::specs::Conflicts::cycle))]
pub(super) fn check_cycle(
    tables: &RowTables,
    group: Id,
    superior: Option<Id>,
) -> Result<(), Conflict>
    ensures { result_err result ≡ cycle group superior tables.now.rows }
{
    match superior {
        None => Ok(()),
        Some(superior) => {
            if meets(tables, superior, group) {
                Err(Conflict::Cycle(group))
            } else {
                Ok(())
            }
        }
    }
}

/// Whether the walk up from one group meets another.
fn meets(tables: &RowTables, from: Id, group: Id) -> bool
    ensures { result ≡ meets group from tables.now.rows.groups }
{
    // That the groups are a tree makes the two answers one.
    tables.what_is_kept();
    tables.tree().is_within(group, from)
}

/// A group that would own the new group is its superior group.
pub(super) fn check_new_owner(
    tables: &RowTables,
    issuer: &Issuer,
    command: &AddGroup,
) -> Result<(), Conflict>
    ensures { result_err result ≡ owner_not_superior command.now.supgroup command.now.owner (Some (new_group issuer.now command.now)) tables.now.rows }
{
    let group = new_group(issuer, command);
    check_owner_superior(tables, command.supgroup, command.owner, &group)
}

/// A group that would own the altered group is its superior group.
#[tactic(auto, unfolding(command_rules::specs::Conflicts::owner_not_superior))]
pub(super) fn check_altered_owner(tables: &RowTables, command: &AltGroup) -> Result<(), Conflict>
    ensures { result_err result ≡ owner_not_superior command.now.supgroup command.now.owner (option_map (altered_group command.now) (group_of command.now.group tables.now.rows)) tables.now.rows }
{
    match tables.group(command.group) {
        None => Ok(()),
        Some(old) => {
            let group = altered_group(command, old);
            check_owner_superior(tables, command.supgroup, command.owner, &group)
        }
    }
}

/// The same, of a group as it is after the command.
#[tactic(auto, unfolding(command_rules::specs::Conflicts::owner_not_superior))]
fn check_owner_superior(
    tables: &RowTables,
    superior: Option<Id>,
    owner: Option<Id>,
    group: &Group,
) -> Result<(), Conflict>
    ensures { result_err result ≡ owner_not_superior superior owner (Some group.now) tables.now.rows }
{
    if superior.is_none() && owner.is_none() {
        return Ok(());
    }
    check_owner_apart(tables, group)
}

/// An owner that is a group is the superior group.
fn check_owner_apart(tables: &RowTables, group: &Group) -> Result<(), Conflict>
    ensures { result_err result ≡ owner_apart group.now tables.now.rows }
{
    match tables.group(group.owner) {
        None => Ok(()),
        Some(_) => {
            if group.superior == Some(group.owner) {
                Ok(())
            } else {
                Err(Conflict::OwnerNotSuperior(group.owner))
            }
        }
    }
}

/// One more group is within the limit.
#[tactic(auto, unfolding(command_rules::specs::Conflicts::groups_full))]
pub(super) fn check_group_fits(
    tables: &RowTables,
    issuer: &Issuer,
    command: &AddGroup,
) -> Result<(), Conflict>
    ensures { result_err result ≡ groups_full issuer.now (fields.AddGroup command.now) tables.now.rows }
{
    check_count(Limit::Groups, MOST_GROUPS, tables.tree().len() + 1)
}

/// SYS1 gets no superior group.
pub(super) fn check_root_moved(command: &AltGroup) -> Result<(), Conflict>
    ensures { result_err result ≡ if_met (is_root command.now.group && is_some command.now.supgroup) Conflict.Root }
{
    if is_root(command.group) && command.supgroup.is_some() {
        Err(Conflict::Root)
    } else {
        Ok(())
    }
}

/// SYS1 stays.
pub(super) fn check_root_gone(command: &DelGroup) -> Result<(), Conflict>
    ensures { result_err result ≡ if_met (is_root command.now.group) Conflict.Root }
{
    if is_root(command.group) {
        Err(Conflict::Root)
    } else {
        Ok(())
    }
}

/// Whether the group is SYS1.
#[tactic(auto, unfolding(command_rules::specs::Conflicts::is_root))]
fn is_root(group: Id) -> bool
    ensures { result ≡ is_root group }
{
    group == sys1()
}
