//! Why the rows don't allow a command.

use access_levels::Id;
use generic_names::Pattern;

/// What a command conflicts with, in the order in which the conflicts are tested: those from `Root` on come after the
/// issuer's authority was judged.
#[derive(Clone, Copy)]
pub enum Conflict {
    /// No user has this ID; or, of an owner, no user and no group.
    NoUser(Id),
    /// No group has this name.
    NoGroup(Id),
    /// The class has no profile of this name.
    NoProfile(Id, Pattern),
    /// No class has this name.
    NoClass(Id),
    /// What is to be defined is there.
    Exists(Named),
    /// The user isn't connected to this group.
    NotConnected(Id),
    /// SYS1 stays, and stays above all other groups.
    Root,
    /// What is to be deleted is still used by this one.
    InUse(Holder),
    /// The group would be below itself.
    Cycle(Id),
    /// This group would own a group, and isn't its superior group.
    OwnerNotSuperior(Id),
    /// The class has no generic profiles.
    NotGeneric(Id),
    /// The class isn't RACLISTed.
    NotListed(Id),
    /// The class is never RACLISTed, or never inactive.
    ClassFixed(Id),
    /// The group is the user's default group.
    DefaultGroup(Id),
    /// Without this user no user who isn't revoked has SPECIAL.
    LastSpecial(Id),
    /// No level, category or label has this name.
    UnknownName(Id),
    /// The database would hold more of this kind than this number.
    Full(Limit, u64),
    /// The class, which isn't a fixed one, doesn't allow the name.
    NameNotAllowed(Id),
}

impl Conflict {
    ghost use Rattle.std.specs.Prelude.{◌≡◌};
    ghost use Rattle.command_rules.specs.Numbers.{number_of, is_early};

    /// Its number: of several conflicts that a command meets, one of the least number is told.
    pub fn number(&self) -> u8
        ensures { result ≡ number_of self.now }
    {
        match self {
            Conflict::NoUser(_) => 1,
            Conflict::NoGroup(_) => 2,
            Conflict::NoProfile(_, _) => 3,
            Conflict::NoClass(_) => 4,
            Conflict::Exists(_) => 5,
            Conflict::NotConnected(_) => 6,
            Conflict::Root => 7,
            Conflict::InUse(_) => 8,
            Conflict::Cycle(_) => 9,
            Conflict::OwnerNotSuperior(_) => 10,
            Conflict::NotGeneric(_) => 11,
            Conflict::NotListed(_) => 12,
            Conflict::ClassFixed(_) => 13,
            Conflict::DefaultGroup(_) => 14,
            Conflict::LastSpecial(_) => 15,
            Conflict::UnknownName(_) => 16,
            Conflict::Full(_, _) => 17,
            Conflict::NameNotAllowed(_) => 18,
        }
    }

    /// Whether it is told before the issuer's authority is judged: those that come before `Root` are.
    pub fn is_early(&self) -> bool
        ensures { result ≡ is_early self.now }
    {
        self.number() <= 6
    }
}

/// What stands in the way of a definition.
#[derive(Clone, Copy)]
pub enum Named {
    /// A user or a group.
    Id(Id),
    Profile(Pattern),
}

/// What still uses a user, a group or a class.
#[derive(Clone, Copy)]
pub enum Holder {
    /// A group below the group.
    Subgroup(Id),
    /// A user who is connected to the group.
    Connected(Id),
    /// A data set profile whose first qualifier is the ID; a profile of the class, or its own in GLOBAL.
    Profile(Pattern),
}

/// What is limited in number (this product's own rule), in the order in which the limits are tested.
#[derive(Clone, Copy, Debug, PartialEq, Eq)]
pub enum Limit {
    Users,
    Groups,
    /// The connections of one user.
    Connections,
    /// The connections of all users.
    AllConnections,
    /// The profiles of one class.
    ClassProfiles,
    Profiles,
    /// The entries of one access list.
    Entries,
    /// The entries of all access lists.
    AllEntries,
    /// The members of one profile.
    Members,
    /// The categories ever defined.
    Categories,
    /// The classes beside the fixed ones.
    Classes,
}
