//! What is in scope of a group: the walk up by the groups' owners.
ghost use Rattle.std.specs.Prelude.{◌≡◌, ◌↔◌, IsTrue};
ghost use Rattle.racf_profiles.specs.Scope.{IsWithin, InScopeGroup, InScopeUser, InScopeProfile};
ghost use Rattle.racf_profiles.specs.Tree.{IsTree};

use crate::climb::{Climb, GroupList, leads_up};
use crate::tree::Tree;
use access_levels::Id;
use racf_profiles::View;

/// Whether the group is in scope of `top`: it is `top`, or its owner is its superior group and that one is
/// in scope (the scope of a group: z/OS Security Server RACF Security Administrator's Guide). A name that no group
/// has is in scope of none, and has none in scope. One look-up by name for each group on the way.
pub fn in_scope_group<G: GroupList>(groups: &G, top: Id, group: Id) -> bool
    requires { IsTree (G.groups groups.now) }
    ensures { IsTrue result ↔ InScopeGroup (G.groups groups.now) top group }
{
    leads_up(groups, Climb::ByOwners, group, top)
}

/// Whether a user with that owner is in scope of `top`: a group in scope owns it (the same book).
pub fn in_scope_user<G: GroupList>(groups: &G, top: Id, owner: Id) -> bool
    requires { IsTree (G.groups groups.now) }
    ensures { IsTrue result ↔ InScopeUser (G.groups groups.now) top owner }
{
    in_scope_group(groups, top, owner)
}

impl Tree {
    /// Whether the group is `top` or below it: superior groups lead from it to `top`. One look-up by name for each
    /// group on the way.
    pub fn is_within(&self, top: Id, group: Id) -> bool
        ensures { IsTrue result ↔ IsWithin self.now.groups top group }
    {
        self.is_lawful();
        leads_up(self, Climb::BySuperiors, group, top)
    }

    /// Whether the group is in scope of `top`, as [`in_scope_group`] tells.
    pub fn in_scope_group(&self, top: Id, group: Id) -> bool
        ensures { IsTrue result ↔ InScopeGroup self.now.groups top group }
    {
        self.is_lawful();
        in_scope_group(self, top, group)
    }

    /// Whether a user with that owner is in scope of `top`, as [`in_scope_user`] tells.
    pub fn in_scope_user(&self, top: Id, owner: Id) -> bool
        ensures { IsTrue result ↔ InScopeUser self.now.groups top owner }
    {
        self.is_lawful();
        in_scope_user(self, top, owner)
    }

    /// Whether a profile with that owner is in scope of `top`: a group in scope owns it, or a user in scope (this
    /// product's own rule). The view tells the users; its groups are those of the tree.
    pub fn in_scope_profile<V: View>(&self, view: &V, top: Id, owner: Id) -> bool
        requires { self.now.groups ≡ (V.rows view.now).groups }
        ensures { IsTrue result ↔ InScopeProfile (V.rows view.now) top owner }
    {
        if self.in_scope_group(top, owner) {
            return true;
        }
        match view.user(owner) {
            Some(user) => self.in_scope_user(top, user.owner),
            None => false,
        }
    }

    /// What every tree keeps. It does nothing: its contract is what it is for.
    fn is_lawful(&self)
        ensures { IsTree self.now.groups }
    {
        let _count = self.len();
    }
}
