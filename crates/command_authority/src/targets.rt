//! Authority over what a command is about.
ghost use Rattle.std.specs.Prelude.{◌≡◌, ◌&&◌};
ghost use Rattle.racf_profiles.specs.Tree.{IsTree};
ghost use Rattle.group_tree.specs.ScopeTest.{is_group_in_scope, is_profile_in_scope};
ghost use Rattle.command_authority.specs.Targets.{owner_of, is_in_scope, is_owner, has_group_special, is_own_data, has_alter_entry, has_authority_in};

use crate::held::{has_alter, has_authority};
use crate::requirement::Target;
use access_levels::{GroupAuthority, Id};
use generic_names::{Pattern, first_qualifier};
use group_tree::Tree;
use group_tree::laws::scope_is_tested;
use racf_profiles::{Connect, User, View};

/// Whether the user owns the target.
pub(crate) fn is_owner<V: View>(view: &V, user: &User, target: &Target) -> bool
    ensures { result ≡ is_owner (V.rows view.now) user.now target.now }
{
    match owner_of(view, target) {
        Some(owner) => owner == user.id,
        None => false,
    }
}

/// The target's owner.
fn owner_of<V: View>(view: &V, target: &Target) -> Option<Id>
    ensures { result ≡ owner_of (V.rows view.now) target.now }
{
    match target {
        Target::User(id) => view.user(*id).map(|user| user.owner),
        Target::Group(id) => view.group(*id).map(|group| group.owner),
        Target::Profile(class, name) => view.profile(*class, name).map(|profile| profile.owner),
        Target::Nothing | Target::DataSets(_) => None,
    }
}

/// Whether the user has group-SPECIAL in a group in whose scope the target is. It walks up the groups once for each
/// connection with group-SPECIAL.
pub(crate) fn has_group_special<V: View>(
    view: &V,
    tree: &Tree,
    user: &User,
    target: &Target,
) -> bool
    requires { tree.now.groups ≡ (V.rows view.now).groups }
    ensures { result ≡ has_group_special (V.rows view.now) user.now target.now }
{
    user.connects
        .items
        .iter()
        .filter(|connection| !connection.revoked)
        .any(|connection| reaches(view, tree, connection, target))
}

/// Whether the connection's group-SPECIAL reaches the target.
fn reaches<V: View>(view: &V, tree: &Tree, connection: &Connect, target: &Target) -> bool
    requires { tree.now.groups ≡ (V.rows view.now).groups }
    ensures { result ≡ (connection.now.special && is_in_scope (V.rows view.now) connection.now.group target.now) }
{
    connection.special && is_in_scope(view, tree, connection.group, target)
}

/// Whether the target is in scope of the group.
fn is_in_scope<V: View>(view: &V, tree: &Tree, top: Id, target: &Target) -> bool
    requires { tree.now.groups ≡ (V.rows view.now).groups }
    ensures { result ≡ is_in_scope (V.rows view.now) top target.now }
{
    match target {
        Target::Nothing => false,
        Target::User(id) => match view.user(*id) {
            Some(user) => is_group_in_scope(tree, top, user.owner),
            None => false,
        },
        Target::Group(id) => is_group_in_scope(tree, top, *id),
        Target::Profile(class, name) => match view.profile(*class, name) {
            Some(profile) => is_profile_in_scope(view, tree, top, profile.owner),
            None => false,
        },
        Target::DataSets(qualifier) => is_profile_in_scope(view, tree, top, *qualifier),
    }
}

/// The groups are a tree, where the tests tell what is in scope. It does nothing: its contract is what it is for.
pub(crate) fn groups_are_a_tree(tree: &Tree)
    ensures { IsTree tree.now.groups }
{
    let _groups = tree.len();
}

/// Whether the group is in scope of another. The walk up tells it in a tree.
fn is_group_in_scope(tree: &Tree, top: Id, group: Id) -> bool
    ensures { result ≡ is_group_in_scope tree.now.groups top group }
{
    groups_are_a_tree(tree);
    scope_is_tested();
    tree.in_scope_group(top, group)
}

/// Whether a profile of that owner is in scope of the group.
fn is_profile_in_scope<V: View>(view: &V, tree: &Tree, top: Id, owner: Id) -> bool
    requires { tree.now.groups ≡ (V.rows view.now).groups }
    ensures { result ≡ is_profile_in_scope (V.rows view.now) top owner }
{
    groups_are_a_tree(tree);
    scope_is_tested();
    tree.in_scope_profile(view, top, owner)
}

/// Whether the target is a group in which the user has at least this authority.
pub(crate) fn has_authority_in(user: &User, wanted: GroupAuthority, target: &Target) -> bool
    ensures { result ≡ has_authority_in user.now wanted target.now }
{
    match target {
        Target::Group(id) => has_authority(user, wanted, *id),
        _ => false,
    }
}

/// Whether the target is a profile whose standard list gives the user ALTER.
pub(crate) fn has_alter_entry<V: View>(view: &V, user: &User, target: &Target) -> bool
    ensures { result ≡ has_alter_entry (V.rows view.now) user.now target.now }
{
    match target {
        Target::Profile(class, name) => match view.profile(*class, name) {
            Some(profile) => has_alter(user, &profile.standard.items),
            None => false,
        },
        _ => false,
    }
}

/// Whether the target is the user's own data.
pub(crate) fn is_own_data(user: &User, target: &Target) -> bool
    ensures { result ≡ is_own_data user.now target.now }
{
    match target {
        Target::Profile(_, name) => first_qualifier(name.text()) == user.id.text(),
        Target::DataSets(qualifier) => *qualifier == user.id,
        _ => false,
    }
}
