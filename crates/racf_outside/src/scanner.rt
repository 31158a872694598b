//! The search for the end of a line.

ghost use Rattle.std.specs.Borrow.{sem};
ghost use Rattle.std.specs.Prelude.{◌≡◌, ◌+◌, ◌^◌, ◌<◌, ◌≤◌, true, false, take, IfOk, IfErr, IfNone, IfSome, IsTrue, Ok, nat_lt, ◌==◌, if◌then◌else◌};
ghost use Rattle.std.specs.Io.BufRead.{Rests};
ghost use Rattle.racf_outside.specs.Lines.{NoFeed};
ghost use Rattle.racf_outside.specs.Reader.{at_start, has_feed};
ghost use Rattle.racf_outside.specs.Scan.{IsFirstFeed};

use crate::blocks::Blocks;
use crate::line_buffer::{LONGEST, LineBuffer, front};
use crate::lines::LineFault;
use crate::streams::Source;
use memchr::memchr;
use std::alloc::Global;
use std::marker::Model;

/// The bytes of an input in which lines may end.
const LIMIT: u64 = 1 << 28;

/// How a piece of a line ends.
#[derive(Clone, Copy, Debug, PartialEq, Eq)]
pub(crate) enum Piece {
    /// Anywhere: more of the line may come.
    More,
    /// At the line's line feed.
    Feed,
    /// At the end of the input.
    End,
}

/// What stands next in an input.
#[derive(Clone, Copy, Debug, PartialEq, Eq)]
pub(crate) enum Found {
    /// A line whose text the buffer has.
    Text,
    /// A line that is too long.
    TooLong,
    /// Nothing.
    End,
}

/// An input, how many of its bytes were taken, and whether it has ended.
pub(crate) struct Scanner<S: Source> {
    /// The bytes of the input.
    blocks: Blocks<S>,
    /// How many of them were taken.
    passed: u64,
    /// The input has ended.
    ended: bool,
}

impl<S: Source> Model for Scanner<S> {
    ghost use Rattle.std.specs.Prelude.{◌≡◌, ◌≤◌, ◌^◌, true};
    ghost use Rattle.std.specs.Io.KnownBytes.{IsAtEnd};
    ghost use Rattle.racf_outside.specs.Blocks.{unread_of};
    ghost use Rattle.racf_outside.specs.Reader.{Reader};

    ghost Value = { Reader };

    ghost view = { λ a. record {
      unread = unread_of a.blocks;
      left = a.blocks.left;
      held = a.blocks.ready;
      faults = a.blocks.faults;
      ended = a.ended;
      passed = a.passed;
    } };

    ghost invariant = { λ a. (a.passed ≤ 2 ^ 28) × (a.ended ≡ true → IsAtEnd (unread_of a.blocks)) };
}

impl<S: Source> Scanner<S> {
    ghost use Rattle.racf_outside.specs.Reader.{KeepsSource};
    ghost use Rattle.racf_outside.specs.Scan.{LiesAtHand, TakesHeld, Pieces, Finds};
    ghost use Rattle.racf_outside.specs.contracts.scanner.Scanner.{the_row};

    /// The input of a source; it is given back where memory is short.
    pub(crate) fn new(alloc: Global, source: S) -> Result<Scanner<S>, S>
        ensures start { IfOk result (λ scanner. scanner ≡ at_start (S.left source) (S.faults source)) }
        ensures back { IfErr result (λ back. back ≡ source) }
    {
        let blocks = Blocks::new(alloc, source)?;
        Ok(Scanner {
            blocks,
            passed: 0,
            ended: false,
        })
    }

    /// How many bytes the next line has, its line feed not counted, where it lies whole in the bytes at hand and isn't
    /// too long.
    #[inline(always)]
    pub(crate) fn line_at_hand(&self) -> Option<usize>
        ensures { IfSome result (LiesAtHand self.now) }
    {
        if self.ended {
            return None;
        }
        let most = (LIMIT - self.passed).min(LONGEST as u64 + 1);
        find_feed(front(self.blocks.ready(), most as usize))
    }

    /// Takes the next line, which lies whole in the bytes at hand, and gives its `size` bytes where they lie.
    #[inline(always)]
    pub(crate) fn take_line(&mut self, size: usize) -> &[u8]
        requires { LiesAtHand self.old size }
        ensures bytes { result.now ≡ take size self.old.held }
        ensures* after { sem 𝓛 (Rests (the_row S.row S.Source) self.entry
            (λ new. TakesHeld (take size self.old.held) self.old new)) }
    {
        self.passed += size as u64 + 1;
        self.blocks.take_line(size)
    }

    /// Takes the next line, or what comes in its place.
    pub(crate) fn scan(&mut self, line: &mut LineBuffer) -> Result<Found, LineFault>
        ensures found { Finds result self.old self.new line.new }
        ensures faults { self.old.faults ≤ self.new.faults }
        ensures within { self.new.passed ≤ 2 ^ 28 }
        ensures held { IsTrue (has_feed self.old.held) → KeepsSource self.old self.new }
    {
        line.clear();
        if self.ended {
            return Ok(Found::End);
        }
        'line: loop {
            match self.piece(line) {
                Err(fault) => return Err(fault),
                Ok(Piece::More) => {}
                Ok(Piece::Feed) => return Ok(line_found(line)),
                Ok(Piece::End) => return Ok(last_found(line)),
            }
        }
    }

    /// Takes the next bytes of a line.
    fn piece(&mut self, line: &mut LineBuffer) -> Result<Piece, LineFault>
        requires going { self.old.ended ≡ false }
        requires counted { line.old.size ≤ self.old.passed }
        ensures taken { Pieces result self.old self.new line.old line.new }
        ensures faults { self.old.faults ≤ self.new.faults }
        ensures within { self.new.passed ≤ 2 ^ 28 }
        ensures held { IsTrue (has_feed self.old.held) → KeepsSource self.old self.new }
        ensures holds { result ≡ Ok Piece.More → IsTrue (has_feed self.old.held) → IsTrue (has_feed self.new.held) }
    {
        match self.blocks.fill() {
            Err(_) => return Err(LineFault::ReadFault),
            Ok(()) => {}
        }
        let ready = self.blocks.ready();
        if ready.is_empty() {
            self.ended = true;
            return Ok(Piece::End);
        }
        if self.passed == LIMIT {
            self.blocks.pass(1);
            return Err(LineFault::InputTooLong);
        }
        let window = front(ready, (LIMIT - self.passed) as usize);
        match find_feed(window) {
            Some(at) => {
                line.append(front(window, at));
                self.blocks.pass(at + 1);
                self.passed += at as u64 + 1;
                Ok(Piece::Feed)
            }
            None => {
                let count = window.len();
                line.append(window);
                self.blocks.pass(count);
                self.passed += count as u64;
                Ok(Piece::More)
            }
        }
    }

    /// Whether a line ends in the bytes at hand.
    #[inline(always)]
    pub(crate) fn holds_line(&self) -> bool
        ensures { result ≡ has_feed self.now.held }
    {
        has_feed(self.blocks.ready())
    }

    /// The source itself.
    pub(crate) fn into_source(self) -> S
        ensures left { S.left result ≡ self.left }
        ensures faults { S.faults result ≡ self.faults }
    {
        let Scanner {
            blocks,
            passed: _,
            ended: _,
        } = self;
        blocks.into_source()
    }
}

/// The place of the first line feed.
#[inline(always)]
fn find_feed(bytes: &[u8]) -> Option<usize>
    ensures none { IfNone result (NoFeed bytes.now) }
    ensures some { IfSome result (IsFirstFeed bytes.now) }
{
    memchr(b'\n', bytes)
}

/// Whether a line feed stands among the bytes.
#[inline(always)]
fn has_feed(bytes: &[u8]) -> bool
    ensures { result ≡ has_feed bytes.now }
{
    find_feed(bytes).is_some()
}

/// What a line is that a line feed ended.
fn line_found(line: &LineBuffer) -> Found
    ensures { result ≡ (if nat_lt 4096 line.now.size then Found.TooLong else Found.Text) }
{
    if line.size() > LONGEST {
        Found::TooLong
    } else {
        Found::Text
    }
}

/// What a line is that the input's end ended.
fn last_found(line: &LineBuffer) -> Found
    ensures { result ≡ (if line.now.size == 0 then Found.End
        else (if nat_lt 4096 line.now.size then Found.TooLong else Found.Text)) }
{
    if line.size() == 0 {
        Found::End
    } else {
        line_found(line)
    }
}
