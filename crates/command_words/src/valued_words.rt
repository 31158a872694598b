//! A word together with the value behind it, and the tests of single words.

ghost use Rattle.std.specs.Prelude.{◌≡◌, ◌+◌, ◌<◌, ◌^◌, [], ◌∷◌, length, map, MatchOption, IfSome, bytes_eq, is_some, nat_eq};
ghost use Rattle.std.specs.List.{starts_with};
ghost use Rattle.std.specs.Option.{option_copied};
ghost use Rattle.command_words.specs.declared.quoting.Quoting.TheVariants.{Ignored};
ghost use Rattle.command_words.specs.Bytes.{upper};
ghost use Rattle.command_words.specs.Tokens.{tokens, Word};
ghost use Rattle.command_words.specs.ValuedWords.{valued_words, faulty_at as first_faulty, is_nothing, IsValuedInReach};
ghost use Rattle.command_words.specs.Pieces.{seen_valued};

use crate::bytes::{folded, is_faulty};
use crate::quoting::Quoting;
use crate::tokens::{Piece, Tokens};

/// A word with the value behind it, or a parenthesis where a word should stand.
#[derive(Drop)]
pub enum ValuedWord<'a> {
    /// A word alone: its place, and its bytes as they were written.
    Alone(u32, &'a [u8]),
    /// A word and what its value holds.
    Valued(u32, &'a [u8], Tokens<'a>),
    /// A word whose value nothing closes, with the place of what isn't closed.
    Unclosed(u32, &'a [u8], u32),
    /// A parenthesis, at its place.
    Parenthesis(u32),
}

impl<'a> Tokens<'a> {
    /// The first word with its value, and the text behind it.
    #[inline(always)]
    pub fn split_valued(&self) -> Option<(ValuedWord<'a>, Tokens<'a>)>
        ensures valued_words { MatchOption result (valued_words (tokens self.now) ≡ []) (λ t. valued_words (tokens self.now) ≡ seen_valued t.0 ∷ valued_words (tokens t.1)) }
        ensures reach { IfSome result (λ t. IsValuedInReach (seen_valued t.0)) }
    {
        let (piece, rest) = self.split_first()?;
        match piece {
            Piece::Word(place, word) => Some(behind_word(place, word, rest)),
            Piece::Group(_, place, _) => Some((ValuedWord::Parenthesis(place), rest)),
            Piece::Open(_, place, _) => Some((ValuedWord::Parenthesis(place), rest)),
            Piece::Close(place) => Some((ValuedWord::Parenthesis(place), rest)),
        }
    }
}

/// The word with the value behind it, which `rest` may begin with. No word that stands there instead is scanned.
#[inline(always)]
#[tactic(auto, using(crate::proofs::Openings::alone_before))]
fn behind_word<'a>(place: u32, word: &'a [u8], rest: Tokens<'a>) -> (ValuedWord<'a>, Tokens<'a>)
    requires { place + length word.now < 2 ^ 30 }
    ensures valued_words { valued_words (Word place word.now ∷ tokens rest.entry) ≡ seen_valued result.0 ∷ valued_words (tokens result.1) }
    ensures reach { IsValuedInReach (seen_valued result.0) }
{
    if !rest.opens_value() {
        return (ValuedWord::Alone(place, word), rest);
    }
    let Some((piece, behind)) = rest.split_first() else {
        return (ValuedWord::Alone(place, word), rest);
    };
    match piece {
        Piece::Group(_, _, value) => (ValuedWord::Valued(place, word, value), behind),
        Piece::Open(_, _, open) => (ValuedWord::Unclosed(place, word, open), behind),
        _ => (ValuedWord::Alone(place, word), rest),
    }
}

/// The place of the first faulty byte of a word that begins at `place`. Where quotes count, those inside them are not
/// looked at.
#[inline(always)]
pub fn faulty_at(quoting: Quoting, place: u32, word: &[u8]) -> Option<u32>
    requires { place + length word.now < 2 ^ 30 }
    ensures { result ≡ first_faulty quoting place word.now }
{
    match quoting {
        Quoting::Ignored => plain_fault(place, word),
        _ => quoted_fault(quoting, place, word),
    }
}

/// The same where quotes are bytes like others, as they mostly are.
fn plain_fault(mut place: u32, word: &[u8]) -> Option<u32>
    requires { place + length word.now < 2 ^ 30 }
    ensures { result ≡ first_faulty Ignored place word.now }
{
    let mut rest = word;
    while let Some((byte, behind)) = rest.split_first() {
        if is_faulty(*byte) {
            return Some(place);
        }
        place += 1;
        rest = behind;
    }
    None
}

/// The same where quotes may count.
fn quoted_fault(mut quoting: Quoting, mut place: u32, word: &[u8]) -> Option<u32>
    requires { place + length word.now < 2 ^ 30 }
    ensures { result ≡ first_faulty quoting place word.now }
{
    let mut rest = word;
    while let Some((byte, behind)) = rest.split_first() {
        if !quoting.hides() && is_faulty(*byte) {
            return Some(place);
        }
        quoting = quoting.after(place, *byte);
        place += 1;
        rest = behind;
    }
    None
}

/// What is left of the spelling behind the word, where the word, folded to upper case, begins it.
#[inline(always)]
fn left_of<'a>(word: &[u8], spelling: &'a [u8]) -> Option<&'a [u8]>
    ensures begins { is_some result ≡ starts_with nat_eq spelling.now (map upper word.now) }
    ensures whole { is_nothing (option_copied result) ≡ bytes_eq (map upper word.now) spelling.now }
{
    let (mut word, mut left) = (word, spelling);
    while let Some((byte, more)) = word.split_first() {
        let (letter, behind) = left.split_first()?;
        if folded(*byte) != *letter {
            return None;
        }
        word = more;
        left = behind;
    }
    Some(left)
}

/// Whether the word, folded to upper case, is this spelling. Most spellings are told apart by their lengths.
#[tactic(auto, using(crate::proofs::Spellings::other_length))]
pub fn is_spelled(word: &[u8], spelling: &[u8]) -> bool
    ensures { result ≡ bytes_eq (map upper word.now) spelling.now }
{
    if word.len() != spelling.len() {
        return false;
    }
    match left_of(word, spelling) {
        Some(left) => left.is_empty(),
        None => false,
    }
}

/// Whether the word, folded to upper case, begins this spelling.
pub fn is_cut(word: &[u8], spelling: &[u8]) -> bool
    ensures { result ≡ starts_with nat_eq spelling.now (map upper word.now) }
{
    left_of(word, spelling).is_some()
}
