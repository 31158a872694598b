//! The lines of an input.

ghost use Rattle.std.specs.Prelude.{◌≡◌, ◌≤◌, ◌^◌, IfOk, IfErr, IsTrue};
ghost use Rattle.std.specs.Borrow.{sem};
ghost use Rattle.std.specs.Io.BufRead.{Rests, strip_last};
ghost use Rattle.racf_outside.specs.Reader.{at_start, has_feed};

use crate::line_buffer::LineBuffer;
use crate::scanner::{Found, Scanner};
use crate::streams::Source;
use std::alloc::Global;
use std::marker::Model;
use thiserror::Error;

/// What comes next in an input.
#[derive(Clone, Copy, Debug, PartialEq, Eq)]
pub enum Line<'a> {
    /// A line's bytes, at most 4,096, without its line feed and without one carriage return before that.
    Text(&'a [u8]),
    /// A line of more than 4,096 bytes, which were skipped.
    TooLong,
    /// The input has ended.
    End,
}

/// Why no line comes.
#[derive(Clone, Copy, Debug, PartialEq, Eq, Error)]
pub enum LineFault {
    /// The source failed.
    #[error("the input can't be read")]
    ReadFault,
    /// The line's end doesn't lie in the first 2^28 bytes of the input.
    #[error("the input is too long")]
    InputTooLong,
}

/// A reader of the lines of a source. A line that lies whole in its block is given where it lies; only the others are
/// copied.
pub struct Lines<S: Source> {
    /// The input.
    scanner: Scanner<S>,
    /// The newest of the lines that didn't lie whole in one block.
    line: LineBuffer,
}

impl<S: Source> Model for Lines<S> {
    ghost use Rattle.racf_outside.specs.Reader.{Reader};

    ghost Value = { Reader };

    ghost view = { λ a. a.scanner };
}

impl<S: Source> Lines<S> {
    ghost use Rattle.racf_outside.specs.Next.{Nexts};
    ghost use Rattle.racf_outside.specs.Reader.{KeepsSource};
    ghost use Rattle.racf_outside.specs.contracts.lines.Lines.{the_row};

    /// The lines of what a source has left. Takes the memory for a block and for a line; where it is short, the source
    /// is given back.
    pub fn new(alloc: Global, source: S) -> Result<Lines<S>, S>
        ensures start { IfOk result (λ lines. lines ≡ at_start (S.left source) (S.faults source)) }
        ensures back { IfErr result (λ back. back ≡ source) }
    {
        let Ok(line) = LineBuffer::new(alloc) else {
            return Err(source);
        };
        match Scanner::new(alloc, source) {
            Ok(scanner) => Ok(Lines { scanner, line }),
            Err(source) => Err(source),
        }
    }

    /// The next line, or the fault in its place. Takes no memory. Behind the end of the input each call answers `End`;
    /// behind a fault a call goes on after the bytes that were taken.
    #[inline(always)]
    pub fn next(&mut self) -> Result<Line<'_>, LineFault>
        ensures* after { sem 𝓛 (Rests (the_row S.row S.Source) self.entry
            (λ new. Nexts result self.old new × (self.old.faults ≤ new.faults) × (new.passed ≤ 2 ^ 28)
            × (IsTrue (has_feed self.old.held) → KeepsSource self.old new))) }
    {
        if let Some(size) = self.scanner.line_at_hand() {
            return Ok(Line::Text(without_return(self.scanner.take_line(size))));
        }
        match self.scanner.scan(&mut self.line) {
            Err(fault) => Err(fault),
            Ok(Found::End) => Ok(Line::End),
            Ok(Found::TooLong) => Ok(Line::TooLong),
            Ok(Found::Text) => Ok(Line::Text(without_return(self.line.text()))),
        }
    }

    /// Whether the end of the next line is at hand. Then the next call of `next` doesn't read the source.
    #[inline(always)]
    pub fn holds_line(&self) -> bool
        ensures { result ≡ has_feed self.now.held }
    {
        self.scanner.holds_line()
    }

    /// The source, with what it has left.
    pub fn into_source(self) -> S
        ensures left { S.left result ≡ self.left }
        ensures faults { S.faults result ≡ self.faults }
    {
        let Lines { scanner, line: _ } = self;
        scanner.into_source()
    }
}

/// The bytes without the one carriage return that may end them.
#[inline(always)]
fn without_return(bytes: &[u8]) -> &[u8]
    ensures { result.now ≡ strip_last 13 bytes.now }
{
    match bytes {
        [text @ .., b'\r'] => text,
        _ => bytes,
    }
}
