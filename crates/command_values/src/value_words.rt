//! The words of a value: each is refused at its first faulty byte before it is judged.

ghost use Rattle.std.specs.Prelude.{◌≡◌, ◌+◌, ◌<◌, ◌^◌, length};
ghost use Rattle.command_words.specs.Tokens.{tokens};
ghost use Rattle.command_words.specs.ValuedWords.{valued_words, IsValuedInReach};
ghost use Rattle.command_words.specs.Pieces.{seen_valued};
ghost use Rattle.command_values.specs.Results.{Finds};
ghost use Rattle.command_values.specs.WordsOfValues.{is_in_quotes, fault_in, clean, refused_at as refusal_of, word_of as word_in, stray as stray_in, held as held_in, unless_stray as unless_stray_in};

use crate::faults::Syntax;
use command_words::{Quoting, Tokens, ValuedWord, faulty_at};

/// A text in quotes, where quotes count. It is judged as a whole.
fn is_in_quotes(quoting: Quoting, word: &[u8]) -> bool
    ensures { result ≡ is_in_quotes quoting word.now }
{
    match quoting {
        Quoting::Outside => word.starts_with(b"'"),
        _ => false,
    }
}

/// The place of the first faulty byte of a word that isn't in quotes.
#[inline(always)]
fn fault_in(quoting: Quoting, place: u32, word: &[u8]) -> Option<u32>
    requires { place + length word.now < 2 ^ 30 }
    ensures { result ≡ fault_in quoting place word.now }
{
    if is_in_quotes(quoting, word) {
        return None;
    }
    faulty_at(quoting, place, word)
}

/// The word, unless it has a faulty byte: that is refused at its place.
#[inline(always)]
pub fn clean<'a>(quoting: Quoting, place: u32, word: &'a [u8]) -> Result<&'a [u8], Syntax>
    requires { place + length word.now < 2 ^ 30 }
    ensures { Finds (λ x. x.now) result (clean quoting place word.now) }
{
    match fault_in(quoting, place, word) {
        Some(fault) => Err(Syntax::BadValue(fault)),
        None => Ok(word),
    }
}

/// Where a word with its value is refused: at the word's first faulty byte, else where it begins.
pub fn refused_at(quoting: Quoting, item: ValuedWord<'_>) -> u32
    requires { IsValuedInReach (seen_valued item) }
    ensures { result ≡ refusal_of quoting (seen_valued item.entry) }
{
    match item {
        ValuedWord::Alone(place, word) => fault_in(quoting, place, word).unwrap_or(place),
        ValuedWord::Valued(place, word, _) => fault_in(quoting, place, word).unwrap_or(place),
        ValuedWord::Unclosed(place, word, _) => fault_in(quoting, place, word).unwrap_or(place),
        ValuedWord::Parenthesis(place) => place,
    }
}

/// A word that has no value, with its place.
#[inline(always)]
pub fn word_of<'a>(quoting: Quoting, item: ValuedWord<'a>) -> Result<(u32, &'a [u8]), Syntax>
    requires { IsValuedInReach (seen_valued item) }
    ensures { Finds (λ x. (x.0, x.1.now)) result (word_in quoting (seen_valued item.entry)) }
{
    match item {
        ValuedWord::Alone(place, word) => Ok((place, clean(quoting, place, word)?)),
        other => Err(Syntax::BadValue(refused_at(quoting, other))),
    }
}

/// The place of what stands behind a value of one word.
pub fn stray(quoting: Quoting, rest: &Tokens<'_>) -> Option<u32>
    ensures { result ≡ stray_in quoting (valued_words (tokens rest.now)) }
{
    let (item, _) = rest.split_valued()?;
    Some(refused_at(quoting, item))
}

/// The value, unless something stands behind its word: that is refused at its place.
#[inline(always)]
pub fn unless_stray<T: Drop>(stray: Option<u32>, value: T) -> Result<T, Syntax>
    ensures { Finds (λ x. x) result (unless_stray_in stray value) }
{
    match stray {
        Some(place) => Err(Syntax::BadValue(place)),
        None => Ok(value),
    }
}

/// The word of a value of one word: its place, its bytes, and the place of what stands behind it. Where there is no
/// word the value is refused at `place`.
#[inline(always)]
pub fn held<'a>(
    quoting: Quoting,
    place: u32,
    inner: Tokens<'a>,
) -> Result<(u32, &'a [u8], Option<u32>), Syntax>
    ensures { Finds (λ x. (x.0, x.1.now, x.2)) result (held_in quoting place (valued_words (tokens inner.entry))) }
{
    let Some((item, rest)) = inner.split_valued() else {
        return Err(Syntax::BadValue(place));
    };
    let (place, word) = word_of(quoting, item)?;
    Ok((place, word, stray(quoting, &rest)))
}
