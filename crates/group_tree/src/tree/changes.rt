//! The calls that change a tree. One that is refused leaves it as it was.
ghost use Rattle.std.specs.Prelude.{◌≡◌, ◌≢◌, ◌-◌, ◌<◌, max, is_some, IsNone, IsSome, IfErr, OnOk, OnErr};
ghost use Rattle.racf_profiles.specs.Lookup.{is_group, find_group};
ghost use Rattle.racf_profiles.specs.Edits.{drop_row};
ghost use Rattle.racf_profiles.specs.NewDatabase.{sys1};
ghost use Rattle.group_tree.specs.Groups.{with_group, at_group, with_superior, with_owner};
ghost use Rattle.group_tree.specs.Answers.{CanAdd, AddRefused, CanMove, MoveRefused, OwnerRefused, CanRemove, RemoveRefused};

use super::{MOST_GROUPS, Tree, put_last};
use crate::faults::TreeFault;
use access_levels::Id;
use racf_profiles::Group;

impl Tree {
    /// Adds a group below that superior group, as the last in order of definition. Any ID may own it. It takes no
    /// memory while some is spare.
    ///
    /// # Errors
    ///
    /// The first that fits of: `NoGroup` of the superior group, `Exists` of the group, `Full` at 8,000 groups,
    /// `NoMemory` where none is spare.
    pub fn add(&mut self, group: Id, superior: Id, owner: Id) -> Result<(), TreeFault>
        ensures accepted { OnOk result (CanAdd self.old.groups group superior) }
        ensures groups { OnOk result (self.new.groups ≡ with_group self.old.groups group superior owner) }
        ensures spare { OnOk result (self.new.spare ≡ self.old.spare - 1) }

        ensures refused { IfErr result (AddRefused self.old group superior) }
        ensures kept { OnErr result (self.new ≡ self.old) }
    {
        self.check_there(superior)?;
        if self.contains(group) {
            return Err(TreeFault::Exists(group));
        }
        if self.len() == MOST_GROUPS {
            return Err(TreeFault::Full);
        }
        let row = Group {
            id: group,
            superior: Some(superior),
            owner,
        };
        put_last(&mut self.groups, row)?;
        self.spare = self.spare.saturating_sub(1);
        Ok(())
    }

    /// Puts a group below another superior group, with all that is below it. It takes no memory. SYS1 has no superior
    /// group.
    ///
    /// # Errors
    ///
    /// The first that fits of: `NoGroup` of the group, `NoGroup` of the superior group, `Cycle` of the group, where
    /// the superior group is the group or below it.
    pub fn set_superior(&mut self, group: Id, superior: Id) -> Result<(), TreeFault>
        requires { group ≢ sys1.id }
        ensures accepted { OnOk result (CanMove self.old.groups group superior) }
        ensures groups { OnOk result (self.new.groups ≡ at_group group (with_superior superior) self.old.groups) }
        ensures spare { self.new.spare ≡ self.old.spare }

        ensures refused { IfErr result (MoveRefused self.old.groups group superior) }
        ensures kept { OnErr result (self.new ≡ self.old) }
    {
        self.check_there(group)?;
        self.check_there(superior)?;
        if self.is_within(group, superior) {
            return Err(TreeFault::Cycle(group));
        }
        let Some(row) = self.groups.get_mut(&group) else {
            unreachable!()
        };
        row.superior = Some(superior);
        Ok(())
    }

    /// Gives a group another owner, any ID. It takes no memory.
    ///
    /// # Errors
    ///
    /// `NoGroup` of the group.
    pub fn set_owner(&mut self, group: Id, owner: Id) -> Result<(), TreeFault>
        ensures accepted { OnOk result (IsSome (find_group self.old.groups group)) }
        ensures groups { OnOk result (self.new.groups ≡ at_group group (with_owner owner) self.old.groups) }
        ensures spare { self.new.spare ≡ self.old.spare }

        ensures refused { IfErr result (OwnerRefused self.old.groups group) }
        ensures kept { OnErr result (self.new ≡ self.old) }
    {
        let Some(row) = self.groups.get_mut(&group) else {
            return Err(TreeFault::NoGroup(group));
        };
        row.owner = owner;
        Ok(())
    }

    /// Takes a group away that is no superior group, in time that grows with the groups. It takes no memory. SYS1
    /// stays.
    ///
    /// # Errors
    ///
    /// The first that fits of: `NoGroup` of the group, `HasSubgroup` of the first group, in order of definition, that
    /// has it as its superior group.
    pub fn remove(&mut self, group: Id) -> Result<(), TreeFault>
        requires { group ≢ sys1.id }
        ensures accepted { OnOk result (CanRemove self.old.groups group) }
        ensures groups { OnOk result (self.new.groups ≡ drop_row (is_group group) self.old.groups) }
        ensures spare { self.new.spare ≡ self.old.spare }

        ensures refused { IfErr result (RemoveRefused self.old.groups group) }
        ensures kept { OnErr result (self.new ≡ self.old) }
    {
        self.check_there(group)?;
        match self.first_subgroup(group) {
            Some(subgroup) => Err(TreeFault::HasSubgroup(subgroup)),
            None => {
                self.groups.shift_remove(&group);
                Ok(())
            }
        }
    }

    /// Makes memory spare for this many groups more.
    ///
    /// # Errors
    ///
    /// `NoMemory` alone, where less was spare.
    pub fn reserve(&mut self, more: usize) -> Result<(), TreeFault>
        ensures groups { self.new.groups ≡ self.old.groups }
        ensures spare { OnOk result (self.new.spare ≡ max self.old.spare more) }

        ensures refused { IfErr result (λ fault. (fault ≡ TreeFault.NoMemory) × (self.old.spare < more)) }
        ensures kept { OnErr result (self.new ≡ self.old) }
    {
        if self.spare >= more {
            return Ok(());
        }
        match self.groups.reserve(more) {
            Ok(()) => {
                self.spare = more;
                Ok(())
            }
            Err(_) => Err(TreeFault::NoMemory),
        }
    }

    /// Whether there is a group of that name.
    fn contains(&self, id: Id) -> bool
        ensures { result ≡ is_some (find_group self.now.groups id) }
    {
        self.groups.contains_key(&id)
    }

    /// Refuses a name that no group has.
    fn check_there(&self, id: Id) -> Result<(), TreeFault>
        ensures there { OnOk result (IsSome (find_group self.now.groups id)) }
        ensures absent { IfErr result (λ fault. (fault ≡ TreeFault.NoGroup id) × IsNone (find_group self.now.groups id)) }
    {
        if self.contains(id) {
            Ok(())
        } else {
            Err(TreeFault::NoGroup(id))
        }
    }
}
