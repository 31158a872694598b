//! Scope over a group that a user owns, each fault, and a full tree.
ghost use Rattle.std.specs.Prelude.{◌∷◌, [], false};

use access_levels::{Attributes, Categories, Id, Text};
use generic_names::Pattern;
use group_tree::{Tree, TreeFault};
use racf_profiles::{Classes, Connects, Group, Profile, User, View};
use std::alloc::{AllocError, Global};

/// A group with its superior group and its owner.
type Row = (&'static [u8], &'static [u8], &'static [u8]);

/// SYS1, and below it DIV, DEPT, TEAM and UNIT, each below the one before. The user ADM owns TEAM; the superior group
/// owns each other.
const THREE_LEVELS: [Row; 4] = [
    (b"DIV", b"SYS1", b"SYS1"),
    (b"DEPT", b"DIV", b"DIV"),
    (b"TEAM", b"DEPT", b"ADM"),
    (b"UNIT", b"TEAM", b"TEAM"),
];

/// Adds a group to the tree, and answers whether it could.
fn adds(tree: &mut Tree, (group, superior, owner): Row) -> bool {
    let (Ok(group), Ok(superior), Ok(owner)) = (
        Id::read(group),
        Id::read(superior),
        Id::read(owner),
    ) else {
        return false;
    };
    tree.reserve(1).is_ok() && tree.add(group, superior, owner).is_ok()
}

/// Adds the groups below SYS1, and answers whether it could.
fn adds_each(tree: &mut Tree) -> bool {
    for row in &THREE_LEVELS {
        if !adds(tree, *row) {
            return false;
        }
    }
    true
}

/// The tree of these groups.
fn three_levels(alloc: Global) -> Option<Tree> {
    let mut tree = Tree::new(alloc).ok()?;
    if adds_each(&mut tree) {
        Some(tree)
    } else {
        None
    }
}

/// A group, an owner, and whether what the owner owns is within the scope of the group.
type Scope = (&'static [u8], &'static [u8], bool);

/// The scope of groups over groups and users, which is the same.
const SCOPES: [Scope; 10] = [
    (b"SYS1", b"SYS1", true),
    (b"SYS1", b"DEPT", true),
    (b"DIV", b"DEPT", true),
    (b"DEPT", b"DIV", false),
    (b"DEPT", b"TEAM", false),
    (b"SYS1", b"UNIT", false),
    (b"TEAM", b"UNIT", true),
    (b"TEAM", b"ADM", false),
    (b"ADM", b"TEAM", false),
    (b"GONE", b"GONE", false),
];

/// Whether the scope over groups and users is what the row says.
fn has_scope(tree: &Tree, (top, owner, within): Scope) -> bool {
    let (Ok(top), Ok(owner)) = (Id::read(top), Id::read(owner)) else {
        return false;
    };
    tree.in_scope_group(top, owner) == within && tree.in_scope_user(top, owner) == within
}

#[test]
fn scope(rt: HostRuntime) {
    let Some(tree) = three_levels(rt.alloc()) else {
        panic!(rt; "no tree")
    };
    for row in &SCOPES {
        assert!(rt; has_scope(&tree, *row));
    }
}

/// A view of the groups of a tree and of one user.
#[derive(Drop)]
struct OneUser<'a> {
    tree: &'a Tree,
    user: User,
}

impl View for OneUser<'_> {
    ghost rows = { λ view. record { users = view.user ∷ []; groups = view.tree.now.groups; classes = []; options = record { grplist = false; protectall = false; mls = false; categories = [] } } };

    fn user(&self, id: Id) -> Option<&User> {
        if self.user.id == id {
            Some(&self.user)
        } else {
            None
        }
    }

    fn group(&self, id: Id) -> Option<&Group> {
        self.tree.get(id)
    }

    fn profile(&self, _class: Id, _name: &Pattern) -> Option<&Profile> {
        None
    }
}

/// The user SUE, whose owner and default group is DEPT.
fn sue(alloc: Global, id: Id, dept: Id) -> Result<User, AllocError> {
    let name = Text::of(alloc, b"")?;
    Ok(User {
        id,
        default_group: dept,
        owner: dept,
        name,
        attributes: Attributes::default(),
        classes: Classes {
            items: Vec::new(alloc),
        },
        level: 0,
        categories: Categories::none(),
        label: None,
        connects: Connects {
            items: Vec::new(alloc),
        },
    })
}

/// The view of a tree and the user SUE.
fn with_sue(alloc: Global, tree: &Tree) -> Option<OneUser<'_>> {
    let (id, dept) = (Id::read(b"SUE").ok()?, Id::read(b"DEPT").ok()?);
    match sue(alloc, id, dept) {
        Ok(user) => Some(OneUser { tree, user }),
        Err(_) => None,
    }
}

/// The scope of groups over profiles, by their owners.
const PROFILE_SCOPES: [Scope; 5] = [
    (b"DIV", b"DEPT", true),
    (b"DIV", b"SUE", true),
    (b"TEAM", b"SUE", false),
    (b"DIV", b"TEAM", false),
    (b"DIV", b"BOB", false),
];

/// Whether the scope over profiles is what the row says.
fn has_profile_scope(view: &OneUser<'_>, (top, owner, within): Scope) -> bool {
    let (Ok(top), Ok(owner)) = (Id::read(top), Id::read(owner)) else {
        return false;
    };
    view.tree.in_scope_profile(view, top, owner) == within
}

/// Whether each of these scopes is what its row says.
fn has_profile_scopes(alloc: Global, tree: &Tree) -> bool {
    let Some(view) = with_sue(alloc, tree) else {
        return false;
    };
    for row in &PROFILE_SCOPES {
        if !has_profile_scope(&view, *row) {
            return false;
        }
    }
    true
}

#[test]
fn scope_of_profiles(rt: HostRuntime) {
    match three_levels(rt.alloc()) {
        Some(tree) => assert!(rt; has_profile_scopes(rt.alloc(), &tree)),
        None => panic!(rt; "no tree"),
    }
}

/// The tree of the same groups, made anew.
fn made_anew(alloc: Global, tree: &Tree) -> Result<Tree, TreeFault> {
    let mut groups = Vec::new(alloc);
    for place in 0..tree.len() {
        let Ok(()) = groups.push(*tree.at(place)) else {
            return Err(TreeFault::NoMemory);
        };
    }
    Tree::of(alloc, groups.as_slice())
}

/// The tree of three levels, made anew.
fn three_levels_anew(alloc: Global) -> Option<Tree> {
    match three_levels(alloc) {
        Some(tree) => made_anew(alloc, &tree).ok(),
        None => None,
    }
}

/// Groups of that tree with their owners.
const OWNERS: [(&[u8], &[u8]); 4] = [
    (b"SYS1", b"IBMUSER"),
    (b"DIV", b"SYS1"),
    (b"TEAM", b"ADM"),
    (b"UNIT", b"TEAM"),
];

/// Whether a group has that owner.
fn is_owned(tree: &Tree, name: &[u8], owner: &[u8]) -> bool {
    let (Ok(name), Ok(owner)) = (Id::read(name), Id::read(owner)) else {
        return false;
    };
    match tree.get(name) {
        Some(group) => group.owner == owner,
        None => false,
    }
}

/// Whether UNIT is within DIV, and there is no group DESK.
fn has_unit_and_no_desk(tree: &Tree) -> bool {
    let (Ok(div), Ok(unit), Ok(desk)) = (Id::read(b"DIV"), Id::read(b"UNIT"), Id::read(b"DESK"))
    else {
        return false;
    };
    tree.is_within(div, unit) && tree.get(desk).is_none()
}

#[test]
fn of_groups(rt: HostRuntime) {
    let Some(tree) = three_levels_anew(rt.alloc()) else {
        panic!(rt; "no tree")
    };
    assert!(rt; tree.len() == 5);
    for (name, owner) in &OWNERS {
        assert!(rt; is_owned(&tree, name, owner));
    }
    assert!(rt; has_unit_and_no_desk(&tree));
}

/// A call that changes a tree.
#[derive(Clone, Copy)]
enum Call {
    Add,
    SetSuperior,
    SetOwner,
    Remove,
}

/// An answer to a call, which names a group.
#[derive(Clone, Copy)]
enum Answer {
    Done,
    NoGroup,
    Exists,
    Cycle,
    HasSubgroup,
}

/// Makes a call that isn't about SYS1.
fn change(tree: &mut Tree, call: Call, group: Id, other: Id) -> Result<(), TreeFault> {
    let Ok(root) = Id::read(b"SYS1") else {
        return Err(TreeFault::NoMemory);
    };
    if group == root {
        return Err(TreeFault::NoMemory);
    }
    match call {
        Call::Add => tree.add(group, other, other),
        Call::SetSuperior => tree.set_superior(group, other),
        Call::SetOwner => tree.set_owner(group, other),
        Call::Remove => tree.remove(group),
    }
}

/// The answer that names this group.
fn expected(answer: Answer, id: Id) -> Result<(), TreeFault> {
    match answer {
        Answer::Done => Ok(()),
        Answer::NoGroup => Err(TreeFault::NoGroup(id)),
        Answer::Exists => Err(TreeFault::Exists(id)),
        Answer::Cycle => Err(TreeFault::Cycle(id)),
        Answer::HasSubgroup => Err(TreeFault::HasSubgroup(id)),
    }
}

/// A call about two groups, and its answer, which names a group.
type Change = (Call, &'static [u8], &'static [u8], Answer, &'static [u8]);

/// Changes of the tree of three levels, one behind the other.
const CHANGES: [Change; 13] = [
    (Call::Add, b"DIV", b"GONE", Answer::NoGroup, b"GONE"),
    (Call::Add, b"DIV", b"DEPT", Answer::Exists, b"DIV"),
    (
        Call::SetSuperior,
        b"GONE",
        b"LOST",
        Answer::NoGroup,
        b"GONE",
    ),
    (
        Call::SetSuperior,
        b"DEPT",
        b"LOST",
        Answer::NoGroup,
        b"LOST",
    ),
    (Call::SetSuperior, b"DEPT", b"UNIT", Answer::Cycle, b"DEPT"),
    (Call::SetSuperior, b"DEPT", b"DEPT", Answer::Cycle, b"DEPT"),
    (Call::SetOwner, b"GONE", b"DIV", Answer::NoGroup, b"GONE"),
    (Call::Remove, b"GONE", b"DIV", Answer::NoGroup, b"GONE"),
    (Call::Remove, b"DEPT", b"DIV", Answer::HasSubgroup, b"TEAM"),
    (Call::SetSuperior, b"UNIT", b"DIV", Answer::Done, b"UNIT"),
    (Call::SetOwner, b"UNIT", b"DIV", Answer::Done, b"UNIT"),
    (Call::Remove, b"TEAM", b"DIV", Answer::Done, b"TEAM"),
    (Call::SetOwner, b"TEAM", b"DIV", Answer::NoGroup, b"TEAM"),
];

/// Makes the call of the row, and tells whether it answers what the row says.
fn answers(tree: &mut Tree, (call, group, other, answer, named): Change) -> bool {
    let (Ok(group), Ok(other), Ok(named)) = (Id::read(group), Id::read(other), Id::read(named))
    else {
        return false;
    };
    change(tree, call, group, other) == expected(answer, named)
}

/// Whether UNIT is within SYS1 and its scope, DIV is the first group below SYS1, and there are four groups.
fn is_changed(tree: &Tree) -> bool {
    let (Ok(root), Ok(moved), Ok(first)) = (Id::read(b"SYS1"), Id::read(b"UNIT"), Id::read(b"DIV"))
    else {
        return false;
    };
    tree.in_scope_group(root, moved)
        && tree.is_within(root, moved)
        && tree.first_subgroup(root) == Some(first)
        && tree.len() == 4
}

#[test]
fn faults(rt: HostRuntime) {
    let Some(mut tree) = three_levels(rt.alloc()) else {
        panic!(rt; "no tree")
    };
    for row in &CHANGES {
        assert!(rt; answers(&mut tree, *row));
    }
    assert!(rt; is_changed(&tree));
}

/// The ID G and a number of four digits.
fn numbered(number: u16) -> Option<Id> {
    let digits = [
        b'G',
        b'0' + (number / 1000 % 10) as u8,
        b'0' + (number / 100 % 10) as u8,
        b'0' + (number / 10 % 10) as u8,
        b'0' + (number % 10) as u8,
    ];
    Id::read(&digits).ok()
}

/// Adds a numbered group below SYS1.
fn add_numbered(tree: &mut Tree, root: Id, number: u16) -> Result<(), TreeFault> {
    match numbered(number) {
        Some(id) => tree.add(id, root, root),
        None => Err(TreeFault::NoMemory),
    }
}

/// Whether 7,999 groups could be added below SYS1.
fn fills(tree: &mut Tree, root: Id) -> bool {
    for number in 1..8000u16 {
        if add_numbered(tree, root, number).is_err() {
            return false;
        }
    }
    true
}

/// Whether there are 8,000 groups, the last of them G7999.
fn is_full(tree: &Tree) -> bool {
    tree.len() == 8000 && Some(tree.at(7999).id) == numbered(7999)
}

/// Whether a group of 8,000 is within the scope of SYS1.
fn has_in_scope(tree: &Tree, root: Id, number: u16) -> bool {
    match numbered(number) {
        Some(id) => tree.in_scope_group(root, id),
        None => false,
    }
}

#[test]
fn full(rt: HostRuntime) {
    let Ok(root) = Id::read(b"SYS1") else {
        panic!(rt; "no ID")
    };
    let Ok(mut tree) = Tree::new(rt.alloc()) else {
        panic!(rt; "no tree")
    };
    assert!(rt; fills(&mut tree, root) && is_full(&tree));
    assert!(rt; add_numbered(&mut tree, root, 8000) == Err(TreeFault::Full));
    assert!(rt; has_in_scope(&tree, root, 4711));
}
