//! Making edits.
ghost use Rattle.std.specs.Prelude.{◌≡◌, ◌+◌, ◌≤◌, ◌⊎◌, None, Some};
ghost use Rattle.racf_profiles.specs.Lookup.{is_group, find_group};
ghost use Rattle.racf_profiles.specs.Edits.{put_row, drop_row, changed};
ghost use Rattle.racf_profiles.specs.Tree.{IsTree};
ghost use Rattle.row_tables.specs.Applying.{CanMake, CanApply, HasAtLeast, tables_after, CanAddGroup, CanMoveGroup, CanPutGroup, CanDropGroup};

use crate::tables::RowTables;
use access_levels::Id;
use group_tree::Tree;
use racf_profiles::{Edit, Group};

impl RowTables {
    /// Makes edits in their order. It takes no memory. A user or a group that goes takes time that grows with the
    /// users or the groups, and a profile that comes or goes moves those behind it in its class; any other row that
    /// is put takes a look-up.
    pub fn apply(&mut self, edits: Vec<Edit>)
        requires { CanApply self.old edits.items }
        ensures { self.new.rows ≡ changed edits.items self.old.rows }
    {
        for edit in edits {
            self.make(edit);
        }
    }

    /// Makes one edit.
    #[inline(always)]
    fn make(&mut self, edit: Edit)
        requires { CanMake self.old edit }
        ensures { HasAtLeast (tables_after edit self.old) self.new }
    {
        match edit {
            Edit::PutUser(user) => self.users.put(user),
            Edit::DropUser(id) => self.users.remove(id),
            Edit::PutGroup(group) => put_group(&mut self.tree, &group),
            Edit::DropGroup(id) => drop_group(&mut self.tree, id),
            Edit::PutProfile(class, profile) => self.classes.put(class, profile),
            Edit::DropProfile(class, name) => self.classes.remove(class, &name),
            Edit::PutOptions(new) => self.options = new,
            Edit::PutClass(class, active, global, log) => {
                self.classes.set_flags(class, active, global, log);
            }
            Edit::List(class) => self.classes.set_listed(class, true),
            Edit::Unlist(class) => self.classes.set_listed(class, false),
            Edit::AddClass(class) => self.classes.add(class),
            Edit::DropClass(class) => self.classes.drop_class(class),
        }
    }
}

/// Puts a group in the place of the one of its name, or else last.
fn put_group(tree: &mut Tree, group: &Group)
    requires { CanPutGroup tree.old group.now }
    ensures groups { tree.new.groups ≡ put_row (is_group group.now.id) group.now tree.old.groups }
    ensures spare { tree.old.spare ≤ tree.new.spare + 1 }
{
    match group_of(tree, group.id) {
        None => add_group(tree, group),
        Some(old) => alter_group(tree, &old, group),
    }
}

/// The group of that name.
fn group_of(tree: &Tree, id: Id) -> Option<Group>
    ensures { result ≡ find_group tree.now.groups id }
{
    tree.get(id).copied()
}

/// Adds a group that isn't there.
fn add_group(tree: &mut Tree, group: &Group)
    requires absent { find_group tree.old.groups group.now.id ≡ None }
    requires can { CanAddGroup tree.old group.now }
    ensures groups { tree.new.groups ≡ put_row (is_group group.now.id) group.now tree.old.groups }
    ensures spare { tree.old.spare ≤ tree.new.spare + 1 }
{
    let Some(superior) = group.superior else {
        unreachable!()
    };
    let Ok(()) = tree.add(group.id, superior, group.owner) else {
        unreachable!()
    };
}

/// Gives a group that is there its superior group and its owner.
fn alter_group(tree: &mut Tree, old: &Group, group: &Group)
    requires there { find_group tree.old.groups group.now.id ≡ Some old.now }
    requires can { (old.now.superior ≡ group.now.superior) ⊎ CanMoveGroup tree.old.groups group.now }
    ensures groups { tree.new.groups ≡ put_row (is_group group.now.id) group.now tree.old.groups }
    ensures spare { tree.new.spare ≡ tree.old.spare }
{
    move_group(tree, old, group);
    own_group(tree, old, group);
}

/// Puts a group that is there below its superior group.
fn move_group(tree: &mut Tree, old: &Group, group: &Group)
    requires there { find_group tree.old.groups group.now.id ≡ Some old.now }
    requires can { (old.now.superior ≡ group.now.superior) ⊎ CanMoveGroup tree.old.groups group.now }
    ensures groups { tree.new.groups ≡ put_row (is_group group.now.id) (record old.now { superior = group.now.superior }) tree.old.groups }
    ensures spare { tree.new.spare ≡ tree.old.spare }
{
    if old.superior == group.superior {
        return;
    }
    let Some(superior) = group.superior else {
        unreachable!()
    };
    names_are_distinct(tree);
    let Ok(()) = tree.set_superior(group.id, superior) else {
        unreachable!()
    };
}

/// Gives a group that is there its owner, where it is below its superior group.
fn own_group(tree: &mut Tree, old: &Group, group: &Group)
    requires { find_group tree.old.groups group.now.id ≡ Some (record old.now { superior = group.now.superior }) }
    ensures groups { tree.new.groups ≡ put_row (is_group group.now.id) group.now tree.old.groups }
    ensures spare { tree.new.spare ≡ tree.old.spare }
{
    names_are_distinct(tree);
    let Ok(()) = tree.set_owner(group.id, group.owner) else {
        unreachable!()
    };
}

/// Takes a group away.
fn drop_group(tree: &mut Tree, id: Id)
    requires { CanDropGroup tree.old.groups id }
    ensures groups { tree.new.groups ≡ drop_row (is_group id) tree.old.groups }
    ensures spare { tree.new.spare ≡ tree.old.spare }
{
    let Ok(()) = tree.remove(id) else {
        unreachable!()
    };
}

/// No two groups have one name: the tree tells so where it is asked for its length. It does nothing: its contract is
/// what it is for.
fn names_are_distinct(tree: &Tree)
    ensures { IsTree tree.now.groups }
{
    let _count = tree.len();
}
