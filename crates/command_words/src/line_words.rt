//! The words of a line, which blanks and tabs part, one at a time from the left.

ghost use Rattle.std.specs.Prelude.{◌≡◌, ◌+◌, ◌<◌, ◌≤◌, ◌^◌, length, not};
ghost use Rattle.std.specs.List.{prefix_len};
ghost use Rattle.command_words.specs.Bytes.{is_blank_byte};
ghost use Rattle.command_words.specs.LineWords.{words_at, line_at};
ghost use Rattle.command_words.specs.TakingWords.{BeginsWithNoBlank, IsFirstWord};

use crate::bytes::is_blank;
use std::marker::Model;

/// A word of a line.
#[derive(Clone, Copy, Drop)]
pub struct LineWord<'a> {
    /// The place of its first byte in the line, counted from 1.
    pub place: u32,
    /// Its bytes, as they were written.
    pub text: &'a [u8],
}

/// The words that are left of a line. Contracts see them as their list, with the place behind the line's last byte.
#[derive(Drop)]
pub struct LineWords<'a> {
    /// Where `bytes` begin in the line, counted from 1.
    place: u32,
    /// What is left of the line.
    bytes: &'a [u8],
}

impl<'a> Model for LineWords<'a> {
    ghost use Rattle.std.specs.Prelude.{◌+◌, ◌<◌, ◌^◌, length};
    ghost use Rattle.command_words.specs.LineWords.{UnreadLine, line_at};

    ghost Value = { UnreadLine };

    ghost view = { λ words. line_at words.place words.bytes.now };

    ghost invariant = { λ words. words.place + length words.bytes.now < 2 ^ 30 };
}

impl<'a> LineWords<'a> {
    ghost use Rattle.command_words.specs.TakingWords.{SplitsFirst};

    /// The words of a line.
    pub fn of(line: &'a [u8]) -> LineWords<'a>
        requires { length line.now < 2 ^ 29 }
        ensures { result ≡ line_at 1 line.now }
    {
        LineWords {
            place: 1,
            bytes: line,
        }
    }

    /// The first word, and those behind it.
    #[inline(always)]
    pub fn split_first(&self) -> Option<(LineWord<'a>, LineWords<'a>)>
        ensures { SplitsFirst self.now result }
    {
        let (place, bytes) = past_blanks(self.place, self.bytes);
        first_word(place, bytes)
    }

    /// The place behind the last byte of the line.
    pub fn end(&self) -> u32
        ensures { result ≡ self.now.end }
    {
        self.place + self.bytes.len() as u32
    }
}

/// The bytes without the blanks and tabs in front, and their place.
fn past_blanks(mut place: u32, mut bytes: &[u8]) -> (u32, &[u8])
    requires { place + length bytes.now < 2 ^ 30 }
    ensures same { words_at result.0 result.1.now ≡ words_at place bytes.now }
    ensures end { result.0 + length result.1.now ≡ place + length bytes.now }
    ensures front { BeginsWithNoBlank result.1.now }
{
    while let Some((byte, rest)) = bytes.split_first() {
        if !is_blank(*byte) {
            return (place, bytes);
        }
        place += 1;
        bytes = rest;
    }
    (place, bytes)
}

/// How many bytes stand before the first blank or tab.
fn word_length(bytes: &[u8]) -> usize
    ensures value { result ≡ prefix_len (λ byte. not (is_blank_byte byte)) bytes.now }
    ensures within { result ≤ length bytes.now }
{
    let mut count = 0;
    let mut rest = bytes;
    while let Some((byte, behind)) = rest.split_first() {
        if is_blank(*byte) {
            return count;
        }
        count += 1;
        rest = behind;
    }
    count
}

/// The word that the bytes begin with, which is at that place, and what is behind it.
#[inline(always)]
fn first_word<'a>(place: u32, bytes: &'a [u8]) -> Option<(LineWord<'a>, LineWords<'a>)>
    requires reach { place + length bytes.now < 2 ^ 30 }
    requires front { BeginsWithNoBlank bytes.now }
    ensures { IsFirstWord place bytes.now result }
{
    if bytes.is_empty() {
        return None;
    }
    let length = word_length(bytes);
    let (text, rest) = bytes.split_at(length);
    let behind = LineWords {
        place: place + length as u32,
        bytes: rest,
    };
    Some((LineWord { place, text }, behind))
}
