//! The tree of groups.
ghost use Rattle.access_levels.specs.Spelling.{id_of};
ghost use Rattle.std.specs.Prelude.{◌≡◌, ℕ, ◌+◌, ◌<◌, ◌≤◌, List, ◌∷◌, ◌++◌, [], length, slice_get, bytes_eq, Ok, Some, None, IfOk, IfErr, OnOk, OnErr};
ghost use Rattle.std.specs.Option.{option_copied, option_map};
ghost use Rattle.indexmap.specs.IndexMap.{get, spare, IsUnchanged};
ghost use Rattle.racf_profiles.specs.NewDatabase.{sys1};
ghost use Rattle.group_tree.specs.Groups.{first_subgroup};
ghost use Rattle.racf_profiles.specs.Lookup.{find_group};
ghost use Rattle.racf_profiles.specs.Tree.{IsTree, IsBelow};

mod changes;

use crate::climb::GroupList;
use crate::faults::TreeFault;
use access_levels::Id;
use indexmap::IndexMap;
use racf_profiles::Group;
use std::alloc::Global;
use std::marker::Model;

/// The most groups that a tree has (this product's own rule).
pub(crate) const MOST_GROUPS: usize = 8000;

/// The groups with their superior groups and owners, in order of definition. Nothing else is kept: a question
/// of scope walks up from group to group, with one look-up by name a step.
#[derive(Drop)]
pub struct Tree {
    /// The groups by name, in order of definition.
    groups: IndexMap<Id, Group>,
    /// How many groups can be added without memory.
    spare: usize,
}

impl Model for Tree {
    ghost use Rattle.group_tree.specs.Groups.{GroupTree};

    ghost Value = { GroupTree };

    ghost use Rattle.group_tree.specs.Keyed.{stored, IsStored};

    ghost view = { stored };

    ghost invariant = { IsStored };
}

impl Tree {
    /// The tree of a new database: SYS1 alone, owned by IBMUSER.
    ///
    /// # Errors
    ///
    /// `NoMemory` alone.
    pub fn new(alloc: Global) -> Result<Tree, TreeFault>
        ensures made { IfOk result (λ tree. tree ≡ record { groups = sys1 ∷ []; spare = 0 }) }
        ensures refused { IfErr result (λ fault. fault ≡ TreeFault.NoMemory) }
    {
        let root = Group {
            id: spelled(b"SYS1"),
            superior: None,
            owner: spelled(b"IBMUSER"),
        };
        let mut groups = IndexMap::new(alloc);
        put_last(&mut groups, root)?;
        Ok(Tree { groups, spare: 0 })
    }

    /// The tree of these groups, in their order.
    ///
    /// # Errors
    ///
    /// `NoMemory` alone.
    pub fn of(alloc: Global, groups: &[Group]) -> Result<Tree, TreeFault>
        requires { IsTree groups.now }
        ensures made { IfOk result (λ tree. tree ≡ record { groups = groups.now; spare = 0 }) }
        ensures refused { IfErr result (λ fault. fault ≡ TreeFault.NoMemory) }
    {
        let mut kept = IndexMap::new(alloc);
        for group in groups {
            put_last(&mut kept, *group)?;
        }
        Ok(Tree {
            groups: kept,
            spare: 0,
        })
    }

    /// How many groups there are, at most 8,000.
    pub fn len(&self) -> usize
        ensures count { result ≡ length self.now.groups }
        ensures lawful { IsTree self.now.groups }
        ensures no_group_below_itself { (id : List ℕ) → ¬ (IsBelow self.now.groups id id) }
    {
        self.groups.len()
    }

    /// The group of that name.
    pub fn get(&self, id: Id) -> Option<&Group>
        ensures { option_copied result ≡ find_group self.now.groups id }
    {
        self.groups.get(&id)
    }

    /// The group at that place, from 0, in order of definition.
    pub fn at(&self, place: usize) -> &Group
        requires { place < length self.now.groups }
        ensures { slice_get self.now.groups place ≡ Some result.now }
    {
        &self.groups[place]
    }

    /// The name of the first group, in order of definition, that has that superior group. It looks at every group.
    pub fn first_subgroup(&self, superior: Id) -> Option<Id>
        ensures { result ≡ option_map (λ row. row.id) (first_subgroup self.now.groups superior) }
    {
        for group in self.groups.values() {
            if group.superior == Some(superior) {
                return Some(group.id);
            }
        }
        None
    }
}

impl GroupList for Tree {
    ghost groups = { λ tree. tree.groups };

    fn find_group(&self, id: Id) -> Option<&Group> {
        self.get(id)
    }
}

/// Puts a group that isn't there behind the others, under its name.
fn put_last(groups: &mut IndexMap<Id, Group>, group: Group) -> Result<(), TreeFault>
    requires { get bytes_eq groups.old group.id ≡ None }
    ensures last { OnOk result (groups.new.entries ≡ groups.old.entries ++ (group.id, group) ∷ []) }
    ensures spare { spare groups.old ≤ spare groups.new + 1 }
    ensures refused { IfErr result (λ fault. (fault ≡ TreeFault.NoMemory) × (spare groups.old ≡ 0)) }
    ensures kept { OnErr result (IsUnchanged groups.old groups.new) }
{
    match groups.insert(group.id, group) {
        Ok(_) => Ok(()),
        Err(_) => Err(TreeFault::NoMemory),
    }
}

/// The identifier that a text spells.
fn spelled(text: &[u8]) -> Id
    requires { id_of text.now ≡ Ok text.now }
    ensures { result ≡ text.now }
{
    match Id::read(text) {
        Ok(id) => id,
        Err(_) => unreachable!(),
    }
}
