//! The groups of an ACEE.
ghost use Rattle.std.specs.Prelude.{◌≡◌, map, filter, IfOk};
ghost use Rattle.acee.specs.Groups.{acee_group, acee_groups, group_names};

use access_levels::Id;
use racf_profiles::{Connect, NoMemory};
use std::alloc::Global;
use std::marker::Model;

/// A group of the user.
#[derive(Clone, Copy, Debug, PartialEq, Eq)]
pub struct AceeGroup {
    pub group: Id,
    /// The connection has group-OPERATIONS.
    pub operations: bool,
}

/// The groups of a user in their order. Their names are kept as a list too, by which access lists are
/// asked without taking memory.
#[derive(Debug, Drop)]
pub struct AceeGroups {
    /// The groups, each with what its connection gives.
    items: Vec<AceeGroup>,
    /// Their names alone, in the same order, by which access lists are asked.
    names: Vec<Id>,
}

impl Model for AceeGroups {
    ghost use Rattle.std.specs.Prelude.{List};
    ghost use Rattle.acee.specs.declared.groups.AceeGroup.{AceeGroup};

    ghost Value = { List AceeGroup };

    ghost use Rattle.acee.specs.KeptGroups.{groups_of, AreKept};

    ghost view = { groups_of };

    ghost invariant = { AreKept };
}

impl AceeGroups {
    /// The groups of those of the connections that aren't revoked.
    pub fn of(alloc: Global, connects: &[Connect]) -> Result<AceeGroups, NoMemory>
        ensures { IfOk result (λ groups. groups ≡ acee_groups connects.now) }
    {
        let items = groups_of(alloc, connects)?;
        let names = names_of(alloc, items.as_slice())?;
        Ok(AceeGroups { items, names })
    }

    /// The groups, each with its group-OPERATIONS.
    pub fn as_slice(&self) -> &[AceeGroup]
        ensures { result.now ≡ self.now }
    {
        self.items.as_slice()
    }

    /// The names of the groups.
    pub fn names(&self) -> &[Id]
        ensures { result.now ≡ group_names self.now }
    {
        self.names.as_slice()
    }
}

/// The group of a connection.
fn acee_group(connection: &Connect) -> AceeGroup
    ensures { result ≡ acee_group connection.now }
{
    AceeGroup {
        group: connection.group,
        operations: connection.operations,
    }
}

/// The groups of the connections that aren't revoked.
fn groups_of(alloc: Global, connects: &[Connect]) -> Result<Vec<AceeGroup>, NoMemory>
    ensures { IfOk result (λ groups. groups.items ≡ acee_groups connects.now) }
{
    connects
        .iter()
        .filter(|connection| !connection.revoked)
        .map(|connection| acee_group(connection))
        .collect(alloc)
}

/// The names of the groups.
fn names_of(alloc: Global, groups: &[AceeGroup]) -> Result<Vec<Id>, NoMemory>
    ensures { IfOk result (λ names. names.items ≡ group_names groups.now) }
{
    groups.iter().map(|group| group.group).collect(alloc)
}
