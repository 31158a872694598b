//! Words and values in parentheses, one at a time from the left.

ghost use Rattle.std.specs.Prelude.{◌≡◌, ◌+◌, ◌<◌, ◌^◌, [], ◌∷◌, true, false, length, MatchOption};
ghost use Rattle.command_words.specs.Tokens.{tokens, tokens_from, word_then, Close, BeginsWithNoGap, IsInReach};
ghost use Rattle.command_words.specs.ValuedWords.{opens_value as value_opens, opens_at as opens_in_front};
ghost use Rattle.command_words.specs.Quotes.{next_word};
ghost use Rattle.command_words.specs.Pieces.{seen, PieceAt};

use crate::quoting::Quoting;
use crate::scan::{behind, front, group_end, past_gaps, word_len};
use std::marker::Model;

/// A text that is still to be read. Contracts see it as what it reads: how quotes count, whether it begins behind a
/// word, its place and its bytes.
#[derive(Drop)]
pub struct Tokens<'a> {
    /// How quotes count at the front of its words.
    quoting: Quoting,
    /// Whether nothing but blanks and tabs stands between the word before and this text.
    tied: bool,
    /// The place of its first byte in the command's text, counted from 1.
    place: u32,
    /// Its bytes.
    bytes: &'a [u8],
}

impl<'a> Model for Tokens<'a> {
    ghost use Rattle.std.specs.Prelude.{◌+◌, ◌<◌, ◌^◌, length};
    ghost use Rattle.command_words.specs.Tokens.{Unread};

    ghost Value = { Unread };

    ghost view = { λ t. record { quoting = t.quoting; tied = t.tied; place = t.place; bytes = t.bytes.now } };

    ghost invariant = { λ t. t.place + length t.bytes.now < 2 ^ 30 };
}

/// One piece of a text.
#[derive(Drop)]
pub enum Piece<'a> {
    /// A word: its place, and its bytes as they were written.
    Word(u32, &'a [u8]),
    /// A value in parentheses: whether it stands behind a word, the place of its parenthesis, and what stands inside.
    Group(bool, u32, Tokens<'a>),
    /// A value that nothing closes: the same, and the place of what isn't closed.
    Open(bool, u32, u32),
    /// A closing parenthesis that closes nothing.
    Close(u32),
}

impl<'a> Tokens<'a> {
    ghost use Rattle.command_words.specs.Tokens.{of_command, of_naming_command};

    /// The text of a command, whose first byte has the place 1.
    pub fn new(bytes: &'a [u8]) -> Tokens<'a>
        requires { length bytes.now < 2 ^ 29 }
        ensures { result ≡ of_command bytes.now }
    {
        Tokens::from_start(Quoting::Ignored, bytes)
    }

    /// The same, where the second word may be a name in quotes.
    pub fn naming(bytes: &'a [u8]) -> Tokens<'a>
        requires { length bytes.now < 2 ^ 29 }
        ensures { result ≡ of_naming_command bytes.now }
    {
        Tokens::from_start(Quoting::BeforeName, bytes)
    }

    /// All of the bytes, whose first place is 1.
    #[inline(always)]
    fn from_start(quoting: Quoting, bytes: &'a [u8]) -> Tokens<'a>
        requires { length bytes.now < 2 ^ 29 }
        ensures { result ≡ record { quoting = quoting; tied = false; place = 1; bytes = bytes.now } }
    {
        Tokens {
            quoting,
            tied: false,
            place: 1,
            bytes,
        }
    }

    /// The first piece, and the text behind it.
    #[inline(always)]
    #[tactic(auto, unfolding(crate::specs::Tokens::tokens))]
    pub fn split_first(&self) -> Option<(Piece<'a>, Tokens<'a>)>
        ensures { PieceAt result (tokens self.now) }
    {
        if self.bytes.is_empty() {
            return None;
        }
        let (tied, place, bytes) = past_gaps(self.quoting, self.tied, self.place, self.bytes);
        piece_at(self.quoting, tied, place, bytes)
    }

    /// Whether a value of the word in front comes next.
    #[inline(always)]
    #[tactic(auto, unfolding(crate::specs::Tokens::tokens))]
    pub fn opens_value(&self) -> bool
        ensures { result ≡ value_opens (tokens self.now) }
    {
        let (tied, _, bytes) = past_gaps(self.quoting, self.tied, self.place, self.bytes);
        opens_at(tied, bytes)
    }
}

/// Whether a value of the word in front begins at the first byte, which parts no words.
#[inline(always)]
fn opens_at(tied: bool, bytes: &[u8]) -> bool
    ensures { result ≡ opens_in_front tied bytes.now }
{
    match bytes.first() {
        Some(byte) => tied && *byte == b'(',
        None => false,
    }
}

/// The piece that begins at the first byte, which parts no words.
#[inline(always)]
fn piece_at<'a>(
    quoting: Quoting,
    tied: bool,
    place: u32,
    bytes: &'a [u8],
) -> Option<(Piece<'a>, Tokens<'a>)>
    requires reach { place + length bytes.now < 2 ^ 30 }
    requires begins { BeginsWithNoGap bytes.now }
    ensures { PieceAt result (tokens_from quoting tied 0 place bytes.now) }
{
    let (byte, rest) = bytes.split_first()?;
    Some(match *byte {
        b')' => closing(quoting, place, rest),
        b'(' => group(quoting, tied, place, rest),
        _ => word(quoting, place, *byte, rest, bytes),
    })
}

/// A closing parenthesis, behind which `rest` stands.
#[inline(always)]
#[tactic(auto, unfolding(crate::specs::Tokens::tokens))]
fn closing<'a>(quoting: Quoting, place: u32, rest: &'a [u8]) -> (Piece<'a>, Tokens<'a>)
    requires { place + length rest.now + 1 < 2 ^ 30 }
    ensures tokens { Close place ∷ tokens_from (next_word quoting) false 0 (place + 1) rest.now ≡ seen result.0 ∷ tokens result.1 }
    ensures reach { IsInReach (seen result.0) }
{
    (
        Piece::Close(place),
        Tokens {
            quoting: quoting.next_word(),
            tied: false,
            place: place + 1,
            bytes: rest,
        },
    )
}

/// A value in parentheses, behind whose opening one `rest` stands.
#[inline(always)]
#[tactic(auto, unfolding(crate::specs::Tokens::tokens))]
fn group<'a>(quoting: Quoting, tied: bool, place: u32, rest: &'a [u8]) -> (Piece<'a>, Tokens<'a>)
    requires { place + length rest.now + 1 < 2 ^ 30 }
    ensures tokens { tokens_from quoting tied 0 place (40 ∷ rest.now) ≡ seen result.0 ∷ tokens result.1 }
    ensures reach { IsInReach (seen result.0) }
{
    match group_end(place, rest) {
        Err(open) => (
            Piece::Open(tied, place, open),
            Tokens {
                quoting,
                tied: false,
                place,
                bytes: &[],
            },
        ),
        Ok(end) => {
            let inside = Tokens {
                quoting: Quoting::Outside,
                tied: false,
                place: place + 1,
                bytes: front(rest, (end - place - 1) as usize),
            };
            let behind = Tokens {
                quoting: quoting.next_word(),
                tied: false,
                place: end + 1,
                bytes: behind(rest, (end - place) as usize),
            };
            (Piece::Group(tied, place, inside), behind)
        }
    }
}

/// A word that begins with `byte`, behind which `rest` stands; both are `bytes`.
#[inline(always)]
#[tactic(auto, unfolding(crate::specs::Tokens::tokens))]
fn word<'a>(
    quoting: Quoting,
    place: u32,
    byte: u8,
    rest: &'a [u8],
    bytes: &'a [u8],
) -> (Piece<'a>, Tokens<'a>)
    requires reach { place + length rest.now + 1 < 2 ^ 30 }
    requires same { bytes.now ≡ byte ∷ rest.now }
    ensures tokens { word_then quoting byte place rest.now ≡ seen result.0 ∷ tokens result.1 }
    ensures reach { IsInReach (seen result.0) }
{
    let letters = word_len(quoting.after(place, byte), place + 1, rest);
    let behind = Tokens {
        quoting: quoting.next_word(),
        tied: true,
        place: place + 1 + letters as u32,
        bytes: behind(rest, letters),
    };
    (Piece::Word(place, front(bytes, letters + 1)), behind)
}
