//! The replies that are gathered before they are written.

ghost use Rattle.std.specs.Prelude.{◌≡◌, ◌⊎◌, [], IsTrue, OnOk, OnErr, IfOk};
ghost use Rattle.std.specs.Borrow.{sem};
ghost use Rattle.std.specs.Io.KnownBytes.{append_known};
ghost use Rattle.racf_outside.specs.Causes.{HasCause};
ghost use Rattle.racf_outside.specs.Reader.{has_feed};
ghost use Rattle.statements.specs.Gathering.{IsCutShort, Settles};

use racf_outside::{Failed, Lines, Sink, Source};
use std::alloc::{AllocError, Global};
use std::marker::Model;

/// Replies that wait to be written. They are those to the lines that end in one block of the input, at most one for two
/// of its bytes.
#[derive(Drop)]
pub struct Replies {
    /// The text that waits, but for the newest reply.
    text: Vec<u8>,
    /// The newest reply. It has room of its own, so that nothing is wanted behind a command that stands on the disks.
    newest: Vec<u8>,
}

impl Model for Replies {
    ghost use Rattle.std.specs.Prelude.{ℕ, List, ◌++◌};

    ghost Value = { List ℕ };

    ghost view = { λ a. a.text.items ++ a.newest.items };
}

impl Replies {
    ghost use Rattle.statements.specs.Lending.{LendsRoom};

    /// None.
    pub fn new(alloc: Global) -> Replies
        ensures { result ≡ [] }
    {
        Replies {
            text: Vec::new(alloc),
            newest: Vec::new(alloc),
        }
    }

    /// Whether nothing is gathered, so that the end of the next line needn't be looked for.
    #[inline(always)]
    fn has_none(&self) -> bool
        ensures { IsTrue result → self.now ≡ [] }
    {
        self.text.is_empty() && self.newest.is_empty()
    }

    /// Room for one more reply, behind those that are gathered: what stands there when it is given back is the newest
    /// reply.
    ///
    /// # Errors
    ///
    /// Memory is short, and what is gathered stays.
    pub fn room(&mut self) -> Result<&mut Vec<u8>, AllocError>
        ensures* lends { sem 𝓛 (LendsRoom self.entry result) }
        ensures empty { IfOk result (λ room. room.now.items ≡ []) }
    {
        self.text.extend_from_slice(self.newest.as_slice())?;
        self.newest.clear();
        Ok(&mut self.newest)
    }

    /// Writes what is gathered. Where that fails, it stays.
    pub fn write_out<O: Sink>(&mut self, sink: &mut O) -> Result<(), Failed>
        ensures none { OnOk result (self.new ≡ []) }
        ensures all { OnOk result (O.taken sink.new ≡ append_known (O.taken sink.old) self.old) }
        ensures kept { OnErr result (self.new ≡ self.old) }
        ensures front { OnErr result (IsCutShort self.old (O.taken sink.old) (O.taken sink.new)) }
        ensures cause { HasCause (O.faults sink.old) (O.faults sink.new) result }
    {
        write_all(sink, self.text.as_slice())?;
        write_all(sink, self.newest.as_slice())?;
        self.text.clear();
        self.newest.clear();
        Ok(())
    }
}

/// Writes what is gathered where the source will be read for the next line. Where that fails, it stays.
#[inline(always)]
pub fn write_before_read<S: Source, O: Sink>(
    lines: &Lines<S>,
    replies: &mut Replies,
    sink: &mut O,
) -> Result<(), Failed>
    ensures settled { OnOk result (Settles replies.old replies.new (O.taken sink.old) (O.taken sink.new)) }
    ensures prompt { OnOk result ((replies.new ≡ []) ⊎ IsTrue (has_feed lines.now.held)) }
    ensures kept { OnErr result (replies.new ≡ replies.old) }
    ensures front { OnErr result (IsCutShort replies.old (O.taken sink.old) (O.taken sink.new)) }
    ensures cause { HasCause (O.faults sink.old) (O.faults sink.new) result }
{
    if replies.has_none() || lines.holds_line() {
        return Ok(());
    }
    replies.write_out(sink)
}

/// Writes all of the bytes, in as many calls as the sink needs.
pub fn write_all<O: Sink>(sink: &mut O, bytes: &[u8]) -> Result<(), Failed>
    ensures all { OnOk result (O.taken sink.new ≡ append_known (O.taken sink.old) bytes.now) }
    ensures front { OnErr result (IsCutShort bytes.now (O.taken sink.old) (O.taken sink.new)) }
    ensures cause { HasCause (O.faults sink.old) (O.faults sink.new) result }
{
    let mut at = 0;
    while at < bytes.len() {
        at += sink.write(&bytes[at..])?;
    }
    Ok(())
}
