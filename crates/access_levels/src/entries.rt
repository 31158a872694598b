//! Entries of access lists, the conditions under which they count, and a user's attributes.
ghost use Rattle.std.specs.Prelude.{◌≡◌};
ghost use Rattle.access_levels.specs.Level.{port_class_name};
ghost use Rattle.access_levels.specs.Spelling.{port_class_of};

use crate::ids::Id;
use crate::levels::Level;

/// Whom an entry of an access list speaks of: every user who is defined (`*`), or one user or group.
#[derive(Clone, Copy, Debug, PartialEq, Eq)]
pub enum Who {
    Star,
    Named(Id),
}

/// An entry of a standard access list.
#[derive(Clone, Copy, Debug, PartialEq, Eq)]
pub struct Entry {
    pub who: Who,
    pub level: Level,
}

/// The classes that protect ports of entry.
#[derive(Clone, Copy, Debug, PartialEq, Eq)]
pub enum PortClass {
    Terminal,
    Console,
    Jesinput,
    Appcport,
}

impl PortClass {
    /// The classes in the order of their definition.
    pub const ALL: [PortClass; 4] = [
        PortClass::Terminal,
        PortClass::Console,
        PortClass::Jesinput,
        PortClass::Appcport,
    ];

    /// The class of that name.
    pub fn read(bytes: &[u8]) -> Option<PortClass>
        ensures { result ≡ port_class_of bytes.now }
    {
        PortClass::ALL
            .iter()
            .copied()
            .find(|class| class.name() == bytes)
    }

    /// The name of the class.
    pub fn name(self) -> &'static [u8]
        ensures { result.now ≡ port_class_name self }
    {
        match self {
            PortClass::Terminal => b"TERMINAL".as_slice(),
            PortClass::Console => b"CONSOLE".as_slice(),
            PortClass::Jesinput => b"JESINPUT".as_slice(),
            PortClass::Appcport => b"APPCPORT".as_slice(),
        }
    }
}

/// A port of entry, as PERMIT's WHEN names it.
#[derive(Clone, Copy, Debug, PartialEq, Eq)]
pub struct Condition {
    pub class: PortClass,
    pub name: Id,
}

/// An entry of a conditional access list, which counts for users who came in through that port.
#[derive(Clone, Copy, Debug, PartialEq, Eq)]
pub struct CondEntry {
    pub condition: Condition,
    pub who: Who,
    pub level: Level,
}

/// The attributes of a user (z/OS Security Server RACF Command Language Reference, ADDUSER).
#[derive(Clone, Copy, Debug, Default, PartialEq, Eq)]
pub struct Attributes {
    pub special: bool,
    pub operations: bool,
    pub auditor: bool,
    pub restricted: bool,
    pub revoked: bool,
    pub uaudit: bool,
}
