//! The values of positional words and operands.

use access_levels::{Condition, GroupAuthority, Id, Level, Text};
use command_fields::{ClassNames, Ids, LogClauses, MemberNames, Reset, Whos};
use generic_names::Pattern;
use racf_profiles::{AuditRule, Members};
use std::alloc::{AllocError, Global};
use std::marker::Model;

/// The name of a profile, seen by contracts as that name. It lies in memory of its own, since it takes many times the
/// room of all the other values, which are moved often.
#[derive(Drop)]
pub struct ProfileName {
    /// The name.
    name: Box<Pattern>,
}

impl Model for ProfileName {
    ghost use Rattle.generic_names.specs.Spelled.{Spelled};

    ghost Value = { Spelled };

    ghost view = { λ profile. profile.name.value };
}

impl ProfileName {
    ghost use Rattle.std.specs.Prelude.{◌≡◌, IfOk};

    /// The name in memory of its own.
    pub fn new(alloc: Global, name: Pattern) -> Result<ProfileName, AllocError>
        ensures { IfOk result (λ profile. profile ≡ name) }
    {
        Ok(ProfileName {
            name: Box::new(alloc, name)?,
        })
    }

    /// The name.
    pub fn pattern(&self) -> &Pattern
        ensures { result.now ≡ self.now }
    {
        &self.name
    }
}

/// The words of RESET.
pub const RESETS: [Reset; 3] = [Reset::All, Reset::Standard, Reset::When];

/// The words of NAMES.
pub const CLASS_NAMES: [ClassNames; 2] = [ClassNames::Full, ClassNames::Id];

/// The value of a positional word or an operand.
#[derive(Drop)]
pub enum Content {
    /// The operand stands, and takes no value.
    Flag,
    /// A user, a group, a class, a level, a label.
    Id(Id),
    /// A group authority.
    Authority(GroupAuthority),
    /// The text of a user's name, without its quotes.
    Name(Text),
    /// A list of names.
    Ids(Ids),
    /// An access level.
    Level(Level),
    /// Which accesses are logged.
    Audit(AuditRule),
    /// The name of a profile.
    Profile(ProfileName),
    /// Which access lists are emptied.
    Reset(Reset),
    /// Users and groups, or `*`.
    Whos(Whos),
    /// A port of entry.
    When(Condition),
    /// Members of a profile.
    Members(Members),
    /// Names of members of a profile.
    MemberNames(MemberNames),
    /// GENERIC, at its place. No command that was read has it.
    Generic(u32),
    /// FAILURES.
    Failures,
    /// What is logged of accesses to classes.
    LogOptions(LogClauses),
    /// How long names may be, in bytes.
    Length(u8),
    /// YES, or NO.
    Truth(bool),
    /// Which names the profiles of a class have.
    ClassNames(ClassNames),
}

/// What the reading of a command depends on beside its text.
#[derive(Clone, Copy, Debug)]
pub struct Context {
    /// Who gives the command.
    pub issuer: Id,
}

/// What the positional words in front tell of the words behind them.
#[derive(Clone, Copy)]
pub struct Known {
    pub class: Option<Id>,
    pub profile: Option<Pattern>,
}

/// What the reading of a value may depend on beside its text.
#[derive(Clone, Copy)]
pub struct Scope {
    /// Who gives the command.
    pub issuer: Id,
    pub known: Known,
}
