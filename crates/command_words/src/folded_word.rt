//! A word of a bounded number of bytes, folded to upper case.

ghost use Rattle.std.specs.Prelude.{◌≡◌, ◌<◌, length, map, MatchOption};
ghost use Rattle.command_words.specs.Bytes.{upper};

use crate::bytes::folded;
use std::marker::Model;

/// A word of at most `MOST` bytes, seen by contracts as its bytes.
#[derive(Drop)]
pub struct FoldedWord<const MOST: usize> {
    /// The word's bytes, and zeros behind them.
    bytes: [u8; MOST],
    /// How many bytes the word has.
    len: usize,
}

/// A word of at most eight bytes, as the names of users, groups, classes and levels are.
pub type ShortWord = FoldedWord<8>;

impl<const MOST: usize> Model for FoldedWord<MOST> {
    ghost use Rattle.std.specs.Prelude.{List, ℕ, take, ◌≤◌};

    ghost Value = { List ℕ };

    ghost view = { λ w. take w.len w.bytes };

    ghost invariant = { λ w. w.len ≤ MOST };
}

impl<const MOST: usize> FoldedWord<MOST> {
    /// The word in upper case, unless it has more bytes than that.
    pub fn of(word: &[u8]) -> Option<FoldedWord<MOST>>
        ensures { MatchOption result (MOST < length word.now) (λ folded. folded ≡ map upper word.now) }
    {
        if word.len() > MOST {
            return None;
        }
        let mut bytes = [0; MOST];
        for (i, byte) in word.iter().enumerate() {
            bytes[i] = folded(*byte);
        }
        Some(FoldedWord {
            bytes,
            len: word.len(),
        })
    }

    /// Its bytes.
    pub fn as_slice(&self) -> &[u8]
        ensures { result.now ≡ self.now }
    {
        &self.bytes[..self.len]
    }
}
