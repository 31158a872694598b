//! The replies to commands and to issuers, and to lines that are too long, as they are printed.

ghost use Rattle.std.specs.Prelude.{◌≡◌, ◌+◌, ◌≤◌, ◌++◌, false, IsOk, OnOk, OnErr, vec_len, vec_capacity};
ghost use Rattle.audit_records.specs.Writing.{Keeps};
ghost use Rattle.statements.specs.Replies.{is_refused, longest_line, longest_words, refusal_words, reply_words, reply_line};

use desk_rules::Refusal as OfCommand;
use itoa::Buffer;
use std::alloc::AllocError;

/// How many bytes the line of a reply has at most that refuses nothing.
pub const LONGEST_LINE: usize = 31;

/// Why a line was refused.
#[derive(Drop)]
pub enum Refusal {
    /// Why the command is refused at its position, or the place of the word by which a line names no issuer.
    Command(OfCommand),
    /// A line of more than 4,096 bytes.
    LineTooLong,
    /// A line that would name an issuer, where he is fixed.
    IssuerFixed,
}

/// What is printed for a line, after the number.
#[derive(Drop)]
pub enum Reply {
    /// The command was worked, and stands on the disks.
    Accepted,
    /// A disk failed the command.
    DiskFault,
    /// A disk failed an earlier command.
    Halted,
    /// The line was refused, and changed nothing.
    Refused(Refusal),
}

impl Refusal {
    /// Writes the words at the end of `out`. Where memory is short, `out` stays as it was.
    fn write(&self, out: &mut Vec<u8>) -> Result<(), AllocError>
        ensures words { OnOk result (out.new.items ≡ out.old.items ++ refusal_words self.now) }
        ensures kept { OnErr result (out.new.items ≡ out.old.items) }
    {
        match self {
            Refusal::Command(why) => why.write(out),
            Refusal::LineTooLong => out.extend_from_slice(b"LINETOOLONG"),
            Refusal::IssuerFixed => out.extend_from_slice(b"ISSUERFIXED"),
        }
    }
}

impl Reply {
    /// Writes the line of a reply, with the number before it, at the end of `out`. One that refuses nothing needs no
    /// more room than [`LONGEST_LINE`]. Where memory is short, `out` stays as it was.
    pub fn write_line(&self, number: u64, out: &mut Vec<u8>) -> Result<(), AllocError>
        ensures line { OnOk result (out.new.items ≡ out.old.items ++ reply_line number self.now) }
        ensures succeeds { is_refused self.now ≡ false → vec_len out.old + longest_line ≤ vec_capacity out.old → IsOk result }
        ensures kept { OnErr result (out.new.items ≡ out.old.items) }
    {
        let length = out.len();
        match self.write_numbered(number, out) {
            Ok(()) => Ok(()),
            Err(fault) => {
                out.truncate(length);
                Err(fault)
            }
        }
    }

    /// The same, where `out` may keep the front of the line when memory is short.
    #[tactic(auto, unfolding(crate::specs::Replies::reply_line), using(audit_records::proofs::Keeping::keeps_on))]
    fn write_numbered(&self, number: u64, out: &mut Vec<u8>) -> Result<(), AllocError>
        ensures line { OnOk result (out.new.items ≡ out.old.items ++ reply_line number self.now) }
        ensures succeeds { is_refused self.now ≡ false → vec_len out.old + longest_line ≤ vec_capacity out.old → IsOk result }
        ensures front { Keeps out.old.items out.new.items }
    {
        let mut digits = Buffer::new();
        out.extend_from_slice(digits.format(number).as_bytes())?;
        out.extend_from_slice(b" ")?;
        self.write(out)?;
        out.extend_from_slice(b"\n")
    }

    /// Writes the words at the end of `out`.
    #[tactic(auto, using(audit_records::proofs::Keeping::keeps_on))]
    fn write(&self, out: &mut Vec<u8>) -> Result<(), AllocError>
        ensures words { OnOk result (out.new.items ≡ out.old.items ++ reply_words self.now) }
        ensures succeeds { is_refused self.now ≡ false → vec_len out.old + longest_words ≤ vec_capacity out.old → IsOk result }
        ensures grows { is_refused self.now ≡ false → vec_len out.new ≤ vec_len out.old + longest_words }
        ensures capacity { is_refused self.now ≡ false → vec_capacity out.old ≤ vec_capacity out.new }
        ensures front { Keeps out.old.items out.new.items }
    {
        match self {
            Reply::Accepted => out.extend_from_slice(b"ACCEPTED"),
            Reply::DiskFault => out.extend_from_slice(b"DISKFAULT"),
            Reply::Halted => out.extend_from_slice(b"HALTED"),
            Reply::Refused(refusal) => {
                out.extend_from_slice(b"REFUSED ")?;
                refusal.write(out)
            }
        }
    }
}
