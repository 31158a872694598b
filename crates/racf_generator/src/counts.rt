//! The counts of what lines say.

ghost use Rattle.std.specs.Prelude.{◌≡◌, ◌+◌, ◌-◌, ◌^◌, ◌<◌, [], ◌++◌, decimal, OnOk};
ghost use Rattle.racf_generator.specs.Counting.{counted, counted_next, counts_text};

use crate::line_words::{says_accepted, says_answered, says_denied, says_refused};
use itoa::Buffer;
use std::alloc::AllocError;
use std::marker::Model;

/// How many lines there were, and how many said what.
#[derive(Drop)]
pub(crate) struct Counts {
    /// How many lines.
    lines: u64,
    /// How many said that a command is accepted.
    accepted: u64,
    /// How many said that something is refused.
    refused: u64,
    /// How many answered a request.
    answered: u64,
    /// How many of these said that access is denied.
    denied: u64,
}

impl Model for Counts {
    ghost use Rattle.std.specs.Prelude.{◌≤◌};
    ghost use Rattle.racf_generator.specs.Counting.{Counted};

    ghost Value = { Counted };

    ghost view = { λ a. record {
      lines = a.lines;
      accepted = a.accepted;
      refused = a.refused;
      answered = a.answered;
      denied = a.denied;
    } };

    ghost invariant = { λ a. (a.accepted ≤ a.lines) × (a.refused ≤ a.lines) × (a.answered ≤ a.lines) × (a.denied ≤ a.lines) };
}

impl Counts {
    /// No line.
    #[tactic(auto, unfolding(crate::specs::Counting::counted))]
    pub(crate) fn new() -> Counts
        ensures { result ≡ counted [] }
    {
        Counts {
            lines: 0,
            accepted: 0,
            refused: 0,
            answered: 0,
            denied: 0,
        }
    }

    /// How many lines.
    pub(crate) fn lines(&self) -> u64
        ensures { result ≡ self.now.lines }
    {
        self.lines
    }

    /// Counts a line.
    pub(crate) fn count(&mut self, line: &[u8])
        requires room { self.old.lines < 2 ^ 64 - 1 }
        ensures { self.new ≡ counted_next self.old line.now }
    {
        self.lines += 1;
        self.accepted += u64::from(says_accepted(line));
        self.refused += u64::from(says_refused(line));
        self.answered += u64::from(says_answered(line));
        self.denied += u64::from(says_denied(line));
    }

    /// Writes how many lines said what.
    pub(crate) fn write(&self, out: &mut Vec<u8>) -> Result<(), AllocError>
        ensures { OnOk result (out.new.items ≡ out.old.items ++ counts_text self.now) }
    {
        write_count(b" ACCEPTED ", self.accepted, out)?;
        write_count(b" REFUSED ", self.refused, out)?;
        write_count(b" ANSWERED ", self.answered, out)?;
        write_count(b" DENIED ", self.denied, out)
    }
}

/// Writes words and a number behind them.
pub(crate) fn write_count(words: &[u8], number: u64, out: &mut Vec<u8>) -> Result<(), AllocError>
    ensures { OnOk result (out.new.items ≡ out.old.items ++ (words.now ++ decimal number)) }
{
    let mut digits = Buffer::new();
    out.extend_from_slice(words)?;
    out.extend_from_slice(digits.format(number).as_bytes())
}
