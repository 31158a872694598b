//! The word that a text begins with.

ghost use Rattle.std.specs.Prelude.{◌≡◌, position};
ghost use Rattle.std.specs.List.{before_first};

use crate::bytes::{is_blank, is_gap, is_word};

/// What parts words, and what ends them.
#[derive(Clone, Copy, Debug)]
pub enum Parting {
    /// Blanks and tabs, as in a line of requests.
    Line,
    /// Blanks, tabs and commas, and a parenthesis ends a word too, as in the text of a command.
    Command,
}

impl Parting {
    ghost use Rattle.command_words.specs.FrontWords.{parts, ends, past, first_word};

    /// Whether the byte parts words.
    pub fn parts(self, byte: u8) -> bool
        ensures { result ≡ parts self byte }
    {
        match self {
            Parting::Line => is_blank(byte),
            Parting::Command => is_gap(byte),
        }
    }

    /// Whether the byte ends a word.
    pub fn ends(self, byte: u8) -> bool
        ensures { result ≡ ends self byte }
    {
        match self {
            Parting::Line => is_blank(byte),
            Parting::Command => !is_word(byte),
        }
    }

    /// The text without what parts words in front.
    #[inline(always)]
    pub fn past(self, text: &[u8]) -> &[u8]
        ensures { result.now ≡ past self text.now }
    {
        let mut rest = text;
        while let Some((byte, behind)) = rest.split_first() {
            if !self.parts(*byte) {
                return rest;
            }
            rest = behind;
        }
        rest
    }

    /// The index of the first byte that ends a word.
    #[inline(always)]
    fn first_end(self, text: &[u8]) -> Option<usize>
        ensures { result ≡ position (ends self) text.now }
    {
        text.iter().position(|byte| self.ends(*byte))
    }

    /// The text as far as its first word goes, where it begins with one.
    #[inline(always)]
    pub fn up_to_end(self, text: &[u8]) -> &[u8]
        ensures { result.now ≡ before_first (ends self) text.now }
    {
        match self.first_end(text) {
            Some(end) => &text[..end],
            None => text,
        }
    }

    /// The word that the text begins with.
    #[inline(always)]
    pub fn first_word(self, text: &[u8]) -> &[u8]
        ensures { result.now ≡ first_word self text.now }
    {
        self.up_to_end(self.past(text))
    }
}
