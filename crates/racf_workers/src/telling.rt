//! What a command is told, as it is printed.

ghost use Rattle.std.specs.Prelude.{◌≡◌, ◌≢◌, ◌+◌, ◌≤◌, ◌++◌, true, OnOk, OnErr, vec_len, vec_capacity};
ghost use Rattle.statements.specs.Replies.{longest_line};
ghost use Rattle.racf_workers.specs.Deck.{told_line, is_acceptance, is_refusal, is_failure};
ghost use Rattle.racf_workers.specs.Giving.{may_be_lost};

use racf_desk::Reply;
use statements::{Refusal, Reply as Printed};
use std::alloc::AllocError;

/// Whether a command was accepted, so that its reply is to be written at once.
pub(crate) fn is_accepted(reply: &Reply) -> bool
    ensures { result ≡ is_acceptance reply.now }
{
    matches!(reply, Reply::Accepted(_))
}

/// Whether the rules refused a command.
pub(crate) fn is_refusal(reply: &Reply) -> bool
    ensures { result ≡ is_refusal reply.now }
{
    matches!(reply, Reply::Refused(_, _))
}

/// Whether a disk failed a command, or one before it.
pub(crate) fn is_failure(reply: &Reply) -> bool
    ensures { result ≡ is_failure reply.now }
{
    matches!(reply, Reply::Halted(_) | Reply::DiskFault(_))
}

/// Writes the line of a reply at the end of `out`, with the number that the reply tells. The room is there, unless it
/// is a refusal; where memory was wanting for the command, there is none to write.
pub(crate) fn write_reply(reply: Reply, out: &mut Vec<u8>) -> Result<(), AllocError>
    requires room { vec_len out.old + longest_line ≤ vec_capacity out.old }
    ensures line { OnOk result (out.new.items ≡ out.old.items ++ told_line reply) }
    ensures told { OnOk result (reply ≢ Reply.NoMemory) }
    ensures lost { OnErr result (may_be_lost reply ≡ true) }
{
    match reply {
        Reply::Accepted(number) => Printed::Accepted.write_line(number, out),
        Reply::Refused(number, why) => {
            Printed::Refused(Refusal::Command(why)).write_line(number, out)
        }
        Reply::Halted(number) => Printed::Halted.write_line(number, out),
        Reply::DiskFault(number) => Printed::DiskFault.write_line(number, out),
        Reply::NoMemory => Err(AllocError),
    }
}
