//! Why a command is refused, and the words for it.

use crate::refusal_words::{write_conflict, write_name, write_needs, write_syntax};
use access_levels::Id;
use command_authority::Needs;
use command_parser::Syntax;
use command_rules::Conflict;
use std::alloc::AllocError;

/// Why a command was refused. It is tested in this order, but that the conflicts from `Root` on come behind `Need`.
#[derive(Drop)]
pub enum Refusal {
    /// The text spells no command: its first fault.
    Syntax(Syntax),
    /// No user has the issuer's ID.
    IssuerUnknown(Id),
    /// The issuer is a user who is revoked.
    IssuerRevoked(Id),
    /// The issuer isn't connected to his current group, which this is, or by a revoked connection.
    IssuerNotConnected(Id),
    /// What the command conflicts with.
    Conflict(Conflict),
    /// What would let the issuer give it.
    Need(Needs),
    /// The journal has no room for the command's record.
    JournalFull,
    /// As many commands were accepted as there are numbers.
    NumberSpent,
}

impl Refusal {
    ghost use Rattle.std.specs.Prelude.{◌≡◌, ◌++◌, OnOk, OnErr};
    ghost use Rattle.desk_rules.specs.Words.{refusal_words};

    /// Writes the words at the end of `out`. Where memory is short, `out` stays as it was.
    pub fn write(&self, out: &mut Vec<u8>) -> Result<(), AllocError>
        ensures words { OnOk result (out.new.items ≡ out.old.items ++ refusal_words self.now) }
        ensures kept { OnErr result (out.new.items ≡ out.old.items) }
    {
        let mut words = Vec::new(*out.allocator());
        self.write_words(&mut words)?;
        out.extend_from_slice(&words)
    }

    /// The same, where `out` may keep the front of the words when memory is short.
    fn write_words(&self, out: &mut Vec<u8>) -> Result<(), AllocError>
        ensures { OnOk result (out.new.items ≡ out.old.items ++ refusal_words self.now) }
    {
        match self {
            Refusal::Syntax(fault) => {
                out.extend_from_slice(b"SYNTAX ")?;
                write_syntax(fault, out)
            }
            Refusal::IssuerUnknown(id) => write_name(b"ISSUERUNKNOWN ", id.text(), out),
            Refusal::IssuerRevoked(id) => write_name(b"ISSUERREVOKED ", id.text(), out),
            Refusal::IssuerNotConnected(group) => {
                write_name(b"ISSUERNOTCONNECTED ", group.text(), out)
            }
            Refusal::Conflict(conflict) => write_conflict(conflict, out),
            Refusal::Need(needs) => {
                out.extend_from_slice(b"NEED")?;
                write_needs(needs, out)
            }
            Refusal::JournalFull => out.extend_from_slice(b"JOURNALFULL"),
            Refusal::NumberSpent => out.extend_from_slice(b"NUMBERSPENT"),
        }
    }
}
