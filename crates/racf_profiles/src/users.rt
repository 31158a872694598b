//! Users and their connections to groups.
ghost use Rattle.std.specs.Prelude.{◌≡◌, IfOk};

use crate::NoMemory;
use access_levels::{Attributes, Categories, GroupAuthority, Id, Text};
use std::alloc::Global;
use std::marker::Model;

/// A user.
#[derive(Debug, Drop)]
pub struct User {
    pub id: Id,
    pub default_group: Id,
    /// A user or a group.
    pub owner: Id,
    /// Free text, as NAME gave it; empty where none was given.
    pub name: Text,
    pub attributes: Attributes,
    /// The classes in which the user has class authority (CLAUTH).
    pub classes: Classes,
    pub level: u8,
    pub categories: Categories,
    pub label: Option<Id>,
    /// In the order in which they were made.
    pub connects: Connects,
}

/// A user's connection to a group. The attributes hold within the scope of the group.
#[derive(Clone, Copy, Debug, PartialEq, Eq)]
pub struct Connect {
    pub group: Id,
    pub authority: GroupAuthority,
    pub special: bool,
    pub operations: bool,
    pub auditor: bool,
    pub revoked: bool,
}

/// A list of class names.
#[derive(Debug, Drop)]
pub struct Classes {
    pub items: Vec<Id>,
}

impl Model for Classes {
    ghost use Rattle.std.specs.Prelude.{List, ℕ};

    ghost Value = { List (List ℕ) };

    ghost view = { λ list. list.items.items };
}

impl Classes {
    /// An equal list.
    pub fn copy(&self, alloc: Global) -> Result<Classes, NoMemory>
        ensures { IfOk result (λ copy. copy ≡ self.now) }
    {
        Ok(Classes {
            items: Vec::from_slice(alloc, self.items.as_slice())?,
        })
    }
}

/// A list of connections.
#[derive(Debug, Drop)]
pub struct Connects {
    pub items: Vec<Connect>,
}

impl Model for Connects {
    ghost use Rattle.std.specs.Prelude.{List};
    ghost use Rattle.racf_profiles.specs.declared.users.Connect.{Connect};

    ghost Value = { List Connect };

    ghost view = { λ list. list.items.items };
}

impl Connects {
    /// An equal list.
    pub fn copy(&self, alloc: Global) -> Result<Connects, NoMemory>
        ensures { IfOk result (λ copy. copy ≡ self.now) }
    {
        Ok(Connects {
            items: Vec::from_slice(alloc, self.items.as_slice())?,
        })
    }
}

/// A list of users.
#[derive(Debug, Drop)]
pub struct Users {
    pub items: Vec<User>,
}

impl Model for Users {
    ghost use Rattle.std.specs.Prelude.{List};
    ghost use Rattle.racf_profiles.specs.declared.users.User.{User};

    ghost Value = { List User };

    ghost view = { λ list. list.items.items };
}

impl User {
    /// An equal user.
    pub fn copy(&self, alloc: Global) -> Result<User, NoMemory>
        ensures { IfOk result (λ copy. copy ≡ self.now) }
    {
        Ok(User {
            id: self.id,
            default_group: self.default_group,
            owner: self.owner,
            name: self.name.clone()?,
            attributes: self.attributes,
            classes: self.classes.copy(alloc)?,
            level: self.level,
            categories: self.categories,
            label: self.label,
            connects: self.connects.copy(alloc)?,
        })
    }
}
