//! Whether an issuer may give a command.
ghost use Rattle.std.specs.Prelude.{◌≡◌, ◌↔◌, ℕ, List, map, IsTrue};
ghost use Rattle.racf_profiles.specs.Scope.{InScopeGroup, InScopeProfile};
ghost use Rattle.group_tree.specs.ScopeTest.{is_group_in_scope, is_profile_in_scope};
ghost use Rattle.std.specs.List.{find, list_any};
ghost use Rattle.std.specs.Result.{result_err};
ghost use Rattle.command_authority.specs.Requirements.{refreshing, refreshed_classes, set_ropts_requirements};
ghost use Rattle.command_authority.specs.Authority.{may_define_users, holds, is_met, first_unmet, is_withheld, need};

use crate::groups::{add_group, alt_group, connect, del_group, remove};
use crate::held::{has_authority, has_class};
use crate::needs::{Need, Needs};
use crate::options::{refreshing, setting};
use crate::profiles::{
    add_sd, alt_sd, alter_class, define_class, del_sd, permit, r_alter, r_define, r_delete,
};
use crate::requirement::{Requirement, Target};
use crate::targets::{
    groups_are_a_tree, has_alter_entry, has_authority_in, has_group_special, is_own_data, is_owner,
};
use crate::users::{add_user, alt_user, del_user};
use access_levels::{GroupAuthority, Id};
use command_fields::{CommandFields, Ids, Issuer, SetRopts};
use command_parser::laws::fields_of_a_text_are_lawful;
use command_parser::{Command, printed_is_read};
use group_tree::Tree;
use group_tree::laws::scope_is_tested;
use racf_profiles::{User, View};

/// Whether the issuer may give the command, by his user profile and his connections as the view has them (z/OS Security
/// Server RACF Command Language Reference, authorization required). Revoked connections don't count, and GRPLIST plays
/// no part. An issuer who isn't a user holds nothing, and nobody has authority over what isn't there by owning it or by
/// scope. The tree's groups are those of the view. It takes no memory.
///
/// # Errors
///
/// All needs of the first requirement of the command that the issuer doesn't meet, in their order.
#[tactic(auto, unfolding(crate::specs::Authority::need))]
pub fn authorised<V: View>(
    view: &V,
    tree: &Tree,
    issuer: &Issuer,
    command: &Command,
) -> Result<(), Needs>
    requires { tree.now.groups ≡ (V.rows view.now).groups }
    ensures lacking { result_err result ≡ need (V.rows view.now) issuer.now command.now }

    // What is in scope is said by the test that can be computed; these say that it is scope by ways up.
    ensures group_in_scope { (top group : List ℕ) → IsTrue (is_group_in_scope (V.rows view.now).groups top group) ↔ InScopeGroup (V.rows view.now).groups top group }
    ensures profile_in_scope { (top owner : List ℕ) → IsTrue (is_profile_in_scope (V.rows view.now) top owner) ↔ InScopeProfile (V.rows view.now) top owner }
{
    groups_are_a_tree(tree);
    scope_is_tested();
    // The first qualifier of a data set profile that a text spells is an ID.
    printed_is_read(command);
    fields_of_a_text_are_lawful();
    match command.fields() {
        CommandFields::AddUser(command) => unmet(view, tree, issuer, &add_user(issuer, command)),
        CommandFields::AltUser(command) => unmet(view, tree, issuer, &alt_user(command)),
        CommandFields::DelUser(command) => unmet(view, tree, issuer, &del_user(command)),
        CommandFields::AddGroup(command) => unmet(view, tree, issuer, &add_group(issuer, command)),
        CommandFields::AltGroup(command) => unmet(view, tree, issuer, &alt_group(command)),
        CommandFields::DelGroup(command) => unmet(view, tree, issuer, &del_group(view, command)),
        CommandFields::Connect(command) => unmet(view, tree, issuer, &connect(issuer, command)),
        CommandFields::Remove(command) => unmet(view, tree, issuer, &remove(issuer, command)),
        CommandFields::AddSd(command) => unmet(view, tree, issuer, &add_sd(command)),
        CommandFields::AltSd(command) => unmet(view, tree, issuer, &alt_sd(command)),
        CommandFields::DelSd(command) => unmet(view, tree, issuer, &del_sd(command)),
        CommandFields::RDefine(command) => unmet(view, tree, issuer, &r_define(command)),
        CommandFields::RAlter(command) => unmet(view, tree, issuer, &r_alter(command)),
        CommandFields::DefineClass(_) => unmet(view, tree, issuer, &define_class()),
        CommandFields::AlterClass(command) => unmet(view, tree, issuer, &alter_class(command)),
        CommandFields::RDelete(command) => unmet(view, tree, issuer, &r_delete(command)),
        CommandFields::Permit(command) => unmet(view, tree, issuer, &permit(command)),
        CommandFields::SetRopts(command) => unmet_of_set_ropts(view, tree, issuer, command),
    }
}

/// The needs of the first requirement that isn't met.
fn unmet<V: View>(
    view: &V,
    tree: &Tree,
    issuer: &Issuer,
    requirements: &[Requirement],
) -> Result<(), Needs>
    requires { tree.now.groups ≡ (V.rows view.now).groups }
    ensures { result_err result ≡ first_unmet (V.rows view.now) issuer.now requirements.now }
{
    match requirements
        .iter()
        .find(|requirement| !is_met(view, tree, issuer, requirement))
    {
        Some(requirement) => Err(Needs::of(requirement.needs.as_slice())),
        None => Ok(()),
    }
}

/// The needs of the first requirement of SETROPTS that isn't met.
#[tactic(auto, unfolding(crate::specs::Requirements::set_ropts_requirements))]
fn unmet_of_set_ropts<V: View>(
    view: &V,
    tree: &Tree,
    issuer: &Issuer,
    command: &SetRopts,
) -> Result<(), Needs>
    requires { tree.now.groups ≡ (V.rows view.now).groups }
    ensures { result_err result ≡ first_unmet (V.rows view.now) issuer.now (set_ropts_requirements command.now) }
{
    if command.refresh {
        unmet_of_refresh(view, tree, issuer, command)
    } else {
        unmet(view, tree, issuer, &setting(command))
    }
}

/// The needs for the first class that the issuer may not refresh.
fn unmet_of_refresh<V: View>(
    view: &V,
    tree: &Tree,
    issuer: &Issuer,
    command: &SetRopts,
) -> Result<(), Needs>
    requires { tree.now.groups ≡ (V.rows view.now).groups }
    ensures { result_err result ≡ first_unmet (V.rows view.now) issuer.now (map refreshing (refreshed_classes command.now)) }
{
    let withheld = first_withheld(view, tree, issuer, &command.raclist)
        .or(first_withheld(view, tree, issuer, &command.global))
        .or(first_withheld(view, tree, issuer, &command.generic));
    match withheld {
        Some(class) => Err(refreshing(class).needs),
        None => Ok(()),
    }
}

/// The first of the classes that the issuer may not refresh.
fn first_withheld<V: View>(view: &V, tree: &Tree, issuer: &Issuer, classes: &Ids) -> Option<Id>
    requires { tree.now.groups ≡ (V.rows view.now).groups }
    ensures { result ≡ find (is_withheld (V.rows view.now) issuer.now) classes.now }
{
    classes
        .items
        .iter()
        .copied()
        .find(|class| is_withheld(view, tree, issuer, *class))
}

/// Whether the issuer may not refresh a class.
fn is_withheld<V: View>(view: &V, tree: &Tree, issuer: &Issuer, class: Id) -> bool
    requires { tree.now.groups ≡ (V.rows view.now).groups }
    ensures { result ≡ is_withheld (V.rows view.now) issuer.now class }
{
    !is_met(view, tree, issuer, &refreshing(class))
}

/// Whether a requirement is met: it doesn't stand, or one of its needs holds.
#[tactic(auto, unfolding(crate::specs::Authority::is_met))]
fn is_met<V: View>(view: &V, tree: &Tree, issuer: &Issuer, requirement: &Requirement) -> bool
    requires { tree.now.groups ≡ (V.rows view.now).groups }
    ensures { result ≡ is_met (V.rows view.now) issuer.now requirement.now }
{
    if !requirement.stands {
        return true;
    }
    match view.user(issuer.id) {
        Some(user) => one_holds(view, tree, user, requirement),
        None => false,
    }
}

/// Whether one of a requirement's needs holds.
fn one_holds<V: View>(view: &V, tree: &Tree, user: &User, requirement: &Requirement) -> bool
    requires { tree.now.groups ≡ (V.rows view.now).groups }
    ensures { result ≡ list_any (holds (V.rows view.now) user.now requirement.now.target) requirement.now.needs }
{
    requirement
        .needs
        .as_slice()
        .iter()
        .any(|need| holds(view, tree, user, &requirement.target, need))
}

/// Whether a need holds over the target.
fn holds<V: View>(view: &V, tree: &Tree, user: &User, target: &Target, need: &Need) -> bool
    requires { tree.now.groups ≡ (V.rows view.now).groups }
    ensures { result ≡ holds (V.rows view.now) user.now target.now need.now }
{
    match need {
        Need::Special => user.attributes.special,
        Need::Auditor => user.attributes.auditor,
        Need::ClassAuthority(class) => has_class(user, class.text()),
        Need::Join(group) => has_authority(user, GroupAuthority::MayJoin, *group),
        Need::Connect(group) => has_authority(user, GroupAuthority::MayConnect, *group),
        Need::Create(group) => has_authority(user, GroupAuthority::MayCreate, *group),
        Need::Authority(wanted) => has_authority_in(user, *wanted, target),
        Need::Owner => is_owner(view, user, target),
        Need::GroupSpecial => has_group_special(view, tree, user, target),
        Need::OwnData => is_own_data(user, target),
        Need::AlterEntry => has_alter_entry(view, user, target),
        Need::UserJoin(group) => {
            may_define_users(user) && has_authority(user, GroupAuthority::MayJoin, *group)
        }
        Need::UserOwner => may_define_users(user) && is_owner(view, user, target),
        Need::UserGroupSpecial => {
            may_define_users(user) && has_group_special(view, tree, user, target)
        }
    }
}

/// Whether the user has class authority in the word USER.
fn may_define_users(user: &User) -> bool
    ensures { result ≡ may_define_users user.now }
{
    has_class(user, b"USER")
}
