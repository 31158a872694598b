//! The reading of operands: which row of the table a word names, and its value.

ghost use Rattle.std.specs.Prelude.{◌≡◌, ◌+◌, ◌<◌, ◌^◌, length, map, position, count_by, None, IfOk, IfSome};
ghost use Rattle.command_words.specs.Bytes.{upper};
ghost use Rattle.command_words.specs.Tokens.{tokens};
ghost use Rattle.command_words.specs.ValuedWords.{valued_words, IsValuedInReach};
ghost use Rattle.command_words.specs.Pieces.{seen_valued};
ghost use Rattle.command_values.specs.Results.{Gives, Finds};
ghost use Rattle.command_grammar.specs.Reading.{is_spelling, is_beginning, named as row_named, row_at, slot_of as fresh_row, operand_at, operands_at, no_slots as empty_slots};

use crate::table::Operand;
use command_values::{Content, ParseFault, Scope, Syntax, bare, clean, value};
use command_words::{Quoting, Tokens, ValuedWord, is_cut, is_spelled};
use std::alloc::{AllocError, Global};

/// The first operand that the word spells.
fn first_spelled(rows: &[Operand], word: &[u8]) -> Option<usize>
    ensures value { result ≡ position (is_spelling (map upper word.now)) rows.now }
    ensures within { IfSome result (λ k. k < length rows.now) }
{
    rows.iter()
        .position(|row| is_spelled(word, row.word.spelling()))
}

/// The first operand whose spelling the word begins.
fn first_begun(rows: &[Operand], word: &[u8]) -> Option<usize>
    ensures value { result ≡ position (is_beginning (map upper word.now)) rows.now }
    ensures within { IfSome result (λ k. k < length rows.now) }
{
    rows.iter()
        .position(|row| is_cut(word, row.word.spelling()))
}

/// How many operands have a spelling that the word begins.
fn count_begun(rows: &[Operand], word: &[u8]) -> usize
    ensures { result ≡ count_by (is_beginning (map upper word.now)) rows.now }
{
    rows.iter()
        .filter(|row| is_cut(word, row.word.spelling()))
        .count()
}

/// The row of the operand that the word at `place` names: the one that it spells, else the only one that it begins.
pub fn named(rows: &[Operand], place: u32, word: &[u8]) -> Result<usize, Syntax>
    ensures value { result ≡ row_named rows.now place (map upper word.now) }
    ensures within { IfOk result (λ k. k < length rows.now) }
{
    if let Some(k) = first_spelled(rows, word) {
        return Ok(k);
    }
    if count_begun(rows, word) > 1 {
        return Err(Syntax::AmbiguousOperand(place));
    }
    first_begun(rows, word).ok_or(Syntax::UnknownOperand(place))
}

/// The row at a place of the table.
#[inline(always)]
fn row(rows: &[Operand], k: usize) -> Operand
    requires { k < length rows.now }
    ensures { result ≡ row_at rows.now k }
{
    rows[k]
}

/// The row that the word at `place` names, if its operand wasn't given before.
#[inline(always)]
fn slot_of(
    rows: &[Operand],
    slots: &[Option<Content>],
    place: u32,
    word: &[u8],
) -> Result<usize, Syntax>
    requires reach { place + length word.now < 2 ^ 30 }
    requires same { length slots.now ≡ length rows.now }
    ensures value { Finds (λ k. k) result (fresh_row rows.now slots.now place word.now) }
    ensures within { IfOk result (λ k. k < length rows.now) }
{
    let word = clean(Quoting::Ignored, place, word)?;
    let k = named(rows, place, word)?;
    if slots[k].is_some() {
        return Err(Syntax::Repeated(row(rows, k).word));
    }
    Ok(k)
}

/// An operand: its row and its value.
#[inline(always)]
fn operand(
    alloc: Global,
    at: &Scope,
    rows: &[Operand],
    slots: &[Option<Content>],
    item: ValuedWord<'_>,
) -> Result<(usize, Content), ParseFault>
    requires reach { IsValuedInReach (seen_valued item) }
    requires same { length slots.now ≡ length rows.now }
    ensures value { Gives (λ x. (x.0, x.1)) result (operand_at at.now rows.now slots.now (seen_valued item.entry)) }
    ensures within { IfOk result (λ x. x.0 < length rows.now) }
{
    match item {
        ValuedWord::Alone(place, word) => {
            let k = slot_of(rows, slots, place, word)?;
            Ok((k, bare(at, row(rows, k).kind, place)?))
        }
        ValuedWord::Valued(place, word, inner) => {
            let k = slot_of(rows, slots, place, word)?;
            Ok((k, value(alloc, at, row(rows, k).kind, place, inner)?))
        }
        ValuedWord::Unclosed(place, word, open) => {
            slot_of(rows, slots, place, word)?;
            Err(ParseFault::Syntax(Syntax::Unclosed(open)))
        }
        ValuedWord::Parenthesis(place) => Err(ParseFault::Syntax(Syntax::UnknownOperand(place))),
    }
}

/// A slot for each row, all empty.
fn no_slots(alloc: Global, rows: &[Operand]) -> Result<Vec<Option<Content>>, AllocError>
    ensures { IfOk result (λ slots. slots.items ≡ empty_slots rows.now) }
{
    let mut slots = Vec::with_capacity(alloc, rows.len())?;
    for _row in rows {
        slots.push(None)?;
    }
    Ok(slots)
}

/// The operands from the left, each in the slot of its row.
pub fn operands(
    alloc: Global,
    at: &Scope,
    rows: &[Operand],
    text: Tokens<'_>,
) -> Result<Vec<Option<Content>>, ParseFault>
    ensures value { Gives (λ slots. slots.items) result (operands_at at.now rows.now (empty_slots rows.now) (valued_words (tokens text.entry))) }
    ensures length { IfOk result (λ slots. length slots.items ≡ length rows.now) }
{
    let mut slots = no_slots(alloc, rows)?;
    let mut left = text;
    while let Some((item, rest)) = left.split_valued() {
        let (k, content) = operand(alloc, at, rows, &slots, item)?;
        slots[k] = Some(content);
        left = rest;
    }
    Ok(slots)
}
