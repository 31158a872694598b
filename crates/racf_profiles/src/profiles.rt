//! Profiles of resources: their access lists, auditing and members.
ghost use Rattle.std.specs.Prelude.{◌≡◌, IfOk};

use crate::NoMemory;
use access_levels::{Categories, CondEntry, Entry, Id, Level};
use generic_names::{MemberName, Pattern};
use std::alloc::Global;
use std::marker::Model;

/// A profile, discrete or generic.
#[derive(Drop)]
pub struct Profile {
    pub name: Pattern,
    /// A user or a group.
    pub owner: Id,
    /// The universal access, which whoever is in no entry has.
    pub uacc: Level,
    /// Access that would be refused is given, with a warning.
    pub warning: bool,
    pub standard: Entries,
    pub conditional: CondEntries,
    pub level: u8,
    pub categories: Categories,
    pub label: Option<Id>,
    pub audit: AuditRule,
    pub global_audit: AuditRule,
    pub members: Members,
}

/// Which accesses are logged: successes and failures, each from a level on; none where it is not given.
#[derive(Clone, Copy, Debug, PartialEq, Eq)]
pub struct AuditRule {
    pub success: Option<Level>,
    pub failures: Option<Level>,
}

/// What RDEFINE in class CDT says of a class.
#[derive(Clone, Copy, Debug, PartialEq, Eq)]
pub struct ClassTraits {
    /// The attribute OPERATIONS gives access.
    pub operations: bool,
    /// Names of its profiles are spelled as user IDs are, and none is generic.
    pub ids: bool,
    /// The most bytes that a profile's name has, from 1 to 246.
    pub longest: u8,
}

/// A member of a profile of class GLOBAL, SECDATA or CDT.
#[derive(Clone, Copy)]
pub enum Member {
    /// Of a GLOBAL profile: resources, and the access that everyone has to them.
    Access(MemberName, Level),
    /// Of SECDATA's SECLEVEL: a name of a security level, and its number.
    SecurityLevel(Id, u8),
    /// Of SECDATA's CATEGORY: a name of a category.
    Category(Id),
    /// Of CDT: what the class of the profile's name has. It is the profile's one member.
    Traits(ClassTraits),
}

/// A standard access list.
#[derive(Debug, Drop)]
pub struct Entries {
    pub items: Vec<Entry>,
}

impl Model for Entries {
    ghost use Rattle.std.specs.Prelude.{List};
    ghost use Rattle.access_levels.specs.declared.entries.Entry.{Entry};

    ghost Value = { List Entry };

    ghost view = { λ list. list.items.items };
}

impl Entries {
    /// An equal list.
    pub fn copy(&self, alloc: Global) -> Result<Entries, NoMemory>
        ensures { IfOk result (λ copy. copy ≡ self.now) }
    {
        Ok(Entries {
            items: Vec::from_slice(alloc, self.items.as_slice())?,
        })
    }
}

/// A conditional access list.
#[derive(Debug, Drop)]
pub struct CondEntries {
    pub items: Vec<CondEntry>,
}

impl Model for CondEntries {
    ghost use Rattle.std.specs.Prelude.{List};
    ghost use Rattle.access_levels.specs.declared.entries.CondEntry.{CondEntry};

    ghost Value = { List CondEntry };

    ghost view = { λ list. list.items.items };
}

impl CondEntries {
    /// An equal list.
    pub fn copy(&self, alloc: Global) -> Result<CondEntries, NoMemory>
        ensures { IfOk result (λ copy. copy ≡ self.now) }
    {
        Ok(CondEntries {
            items: Vec::from_slice(alloc, self.items.as_slice())?,
        })
    }
}

/// The members of a profile.
#[derive(Drop)]
pub struct Members {
    pub items: Vec<Member>,
}

impl Model for Members {
    ghost use Rattle.std.specs.Prelude.{List};
    ghost use Rattle.racf_profiles.specs.declared.profiles.Member.{Member};

    ghost Value = { List Member };

    ghost view = { λ list. list.items.items };
}

impl Members {
    /// An equal list.
    pub fn copy(&self, alloc: Global) -> Result<Members, NoMemory>
        ensures { IfOk result (λ copy. copy ≡ self.now) }
    {
        Ok(Members {
            items: Vec::from_slice(alloc, self.items.as_slice())?,
        })
    }
}

/// The profiles of a class.
#[derive(Drop)]
pub struct Profiles {
    pub items: Vec<Profile>,
}

impl Model for Profiles {
    ghost use Rattle.std.specs.Prelude.{List};
    ghost use Rattle.racf_profiles.specs.declared.profiles.Profile.{Profile};

    ghost Value = { List Profile };

    ghost view = { λ list. list.items.items };
}

impl Profile {
    /// An equal profile.
    pub fn copy(&self, alloc: Global) -> Result<Profile, NoMemory>
        ensures { IfOk result (λ copy. copy ≡ self.now) }
    {
        Ok(Profile {
            name: self.name,
            owner: self.owner,
            uacc: self.uacc,
            warning: self.warning,
            standard: self.standard.copy(alloc)?,
            conditional: self.conditional.copy(alloc)?,
            level: self.level,
            categories: self.categories,
            label: self.label,
            audit: self.audit,
            global_audit: self.global_audit,
            members: self.members.copy(alloc)?,
        })
    }
}
