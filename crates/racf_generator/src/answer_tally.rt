//! The sink that counts what it is told.

ghost use Rattle.std.specs.Prelude.{ℕ, ◌≡◌, ◌≤◌, List, [], ◌∷◌, ◌++◌, Some, length, take, IfOk, OnOk, OnErr};
ghost use Rattle.std.specs.Io.KnownBytes.{append_known};
ghost use Rattle.racf_outside.specs.Causes.{HasCause};
ghost use Rattle.racf_outside.specs.Lines.{NoFeed};
ghost use Rattle.racf_generator.specs.Tally.{ended_lines, summary, tally};

use crate::counts::{Counts, write_count};
use crate::faults::count_fault;
use crate::line_words::first_word;
use memchr::memchr;
use racf_outside::{Failed, Sink};
use std::alloc::{AllocError, Global};
use std::marker::Model;
use std::mem;
use std::snapshot::Snapshot;

/// A sink that counts what the lines written to it say. It keeps the line under way and the last one before it. A write
/// for which memory is refused fails, and takes nothing.
#[derive(Drop)]
pub struct AnswerTally {
    /// The lines that ended, as contracts see them: here they have no bytes.
    ended: Vec<Snapshot<Vec<u8>>>,
    /// What they said.
    counts: Counts,
    /// The last of them.
    last: Vec<u8>,
    /// The line under way.
    line: Vec<u8>,
    /// How many faults were counted.
    faults: u64,
}

impl Model for AnswerTally {
    ghost use Rattle.racf_generator.specs.Counting.{TalliedOutput};

    ghost Value = { TalliedOutput };

    ghost use Rattle.racf_generator.specs.Kept.{contents_of, IsKept};

    ghost view = { contents_of };

    ghost invariant = { IsKept };
}

impl AnswerTally {
    /// A sink that has taken nothing.
    pub fn new(alloc: Global) -> AnswerTally
        ensures taken { result.taken ≡ [] }
        ensures faults { result.faults ≡ 0 }
    {
        AnswerTally {
            ended: Vec::new(alloc),
            counts: Counts::new(),
            last: Vec::new(alloc),
            line: Vec::new(alloc),
            faults: 0,
        }
    }

    /// Writes the line that tells the counts at the end of `out`; `lines` is how many lines were asked. Where memory is
    /// short, `out` stays as it was.
    pub fn write_summary(&self, lines: u64, out: &mut Vec<u8>) -> Result<(), AllocError>
        ensures text { OnOk result (out.new.items ≡ out.old.items ++ summary lines (tally (ended_lines self.now.taken))) }
        ensures kept { OnErr result (out.new.items ≡ out.old.items) }
    {
        let mut text = Vec::new(*out.allocator());
        write_count(b"/* LINES ", lines, &mut text)?;
        self.counts.write(&mut text)?;
        text.extend_from_slice(b" NUMBER ")?;
        text.extend_from_slice(self.number())?;
        text.extend_from_slice(b"\n")?;
        out.extend_from_slice(text.as_slice())
    }

    /// The number that the last line has.
    fn number(&self) -> &[u8]
        ensures { result.now ≡ (tally (ended_lines self.now.taken)).number }
    {
        if self.ended.is_empty() {
            return b"0".as_slice();
        }
        first_word(&self.last)
    }

    /// Takes the next bytes of the line under way.
    fn go_on(&mut self, piece: &[u8]) -> Result<(), Failed>
        requires { NoFeed piece.now }
        ensures taken { OnOk result (self.new.taken ≡ self.old.taken ++ piece.now) }
        ensures kept { OnErr result (self.new.taken ≡ self.old.taken) }
        ensures cause { HasCause self.old.faults self.new.faults result }
    {
        match self.line.extend_from_slice(piece) {
            Ok(()) => Ok(()),
            Err(AllocError) => Err(count_fault(&mut self.faults)),
        }
    }

    /// Takes the last bytes of the line under way, and its line feed.
    fn end_line(&mut self, piece: &[u8]) -> Result<(), Failed>
        requires { NoFeed piece.now }
        ensures taken { OnOk result (self.new.taken ≡ self.old.taken ++ (piece.now ++ 10 ∷ [])) }
        ensures kept { OnErr result (self.new.taken ≡ self.old.taken) }
        ensures cause { HasCause self.old.faults self.new.faults result }
    {
        if self.counts.lines() == u64::MAX {
            return Err(count_fault(&mut self.faults));
        }
        let begun = self.line.len();
        match self.line.extend_from_slice(piece) {
            Ok(()) => {}
            Err(AllocError) => return Err(count_fault(&mut self.faults)),
        }
        match self.ended.push(Snapshot::of(&self.line)) {
            Ok(()) => {}
            Err(_) => {
                self.line.truncate(begun);
                return Err(count_fault(&mut self.faults));
            }
        }
        self.counts.count(&self.line);
        mem::swap(&mut self.line, &mut self.last);
        self.line.clear();
        Ok(())
    }
}

impl Sink for AnswerTally {
    ghost taken = { λ sink. Some sink.taken };

    ghost faults = { λ sink. sink.faults };

    fn write(&mut self, bytes: &[u8]) -> Result<usize, Failed> {
        match memchr(b'\n', bytes) {
            None => {
                self.go_on(bytes)?;
                Ok(bytes.len())
            }
            Some(at) => {
                self.end_line(&bytes[..at])?;
                Ok(at + 1)
            }
        }
    }
}
