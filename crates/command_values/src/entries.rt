//! Whose entries PERMIT means, and at which port of entry.

ghost use Rattle.std.specs.Prelude.{◌≡◌, [], IfOk, Ok, map};
ghost use Rattle.std.specs.Str.{bytes_eq};
ghost use Rattle.std.specs.Prelude.{codes};
ghost use Rattle.access_levels.specs.declared.entries.Who.TheVariants.{Named};
ghost use Rattle.command_words.specs.Tokens.{tokens};
ghost use Rattle.command_words.specs.ValuedWords.{valued_words, IsValuedInReach};
ghost use Rattle.command_words.specs.Pieces.{seen_valued};
ghost use Rattle.command_values.specs.Results.{◌>>=◌ as and_then, Gives, Finds};
ghost use Rattle.command_values.specs.Entries.{star_alone, port_name as name_in, port_of as port_in_item, port as port_in};
ghost use Rattle.command_values.specs.Values.{names, whos as whos_in};
ghost use Rattle.command_values.specs.declared.value_kinds.ValueKind.TheVariants as kinds;

use crate::faults::{ParseFault, Syntax};
use crate::named_words::{id_named, port_class_named};
use crate::value_words::{clean, held, refused_at, stray, unless_stray, word_of};
use access_levels::{Condition, Id, Who};
use command_fields::Whos;
use command_words::{Quoting, Tokens, ValuedWord};
use std::alloc::{AllocError, Global};

/// The name of the port, in the parentheses behind its class at `place`.
fn port_name(place: u32, inner: Tokens<'_>) -> Result<Id, Syntax>
    ensures { Finds (λ x. x) result (name_in place (valued_words (tokens inner.entry))) }
{
    let (place, word, stray) = held(Quoting::Ignored, place, inner)?;
    let name = id_named(word).ok_or(Syntax::BadValue(place))?;
    unless_stray(stray, name)
}

/// The port of entry that an item names.
fn port_of(item: ValuedWord<'_>) -> Result<Condition, Syntax>
    requires { IsValuedInReach (seen_valued item) }
    ensures { Finds (λ c. c) result (port_in_item (seen_valued item.entry)) }
{
    match item {
        ValuedWord::Valued(place, word, inner) => {
            let word = clean(Quoting::Ignored, place, word)?;
            let class = port_class_named(word).ok_or(Syntax::BadValue(place))?;
            let name = port_name(place, inner)?;
            Ok(Condition { class, name })
        }
        other => Err(Syntax::BadValue(refused_at(Quoting::Ignored, other))),
    }
}

/// The port of entry in the parentheses of an operand at `place`.
pub fn port(place: u32, inner: Tokens<'_>) -> Result<Condition, Syntax>
    ensures { Finds (λ c. c) result (port_in place (valued_words (tokens inner.entry))) }
{
    let Some((item, rest)) = inner.split_valued() else {
        return Err(Syntax::BadValue(place));
    };
    let condition = port_of(item)?;
    unless_stray(stray(Quoting::Ignored, &rest), condition)
}

/// The users and groups of a list.
#[tactic(auto, using(crate::proofs::NamedWhos::named_whos))]
fn named(alloc: Global, inner: Tokens<'_>) -> Result<Whos, ParseFault>
    ensures { Gives (λ whos. whos) result (and_then (names kinds.Ids [] (valued_words (tokens inner.entry))) (λ ids. Ok (map Named ids))) }
{
    let mut items = Vec::new(alloc);
    let mut left = inner;
    while let Some((item, rest)) = left.split_valued() {
        let (place, word) = word_of(Quoting::Ignored, item)?;
        let id = id_named(word).ok_or(Syntax::BadValue(place))?;
        items.push(Who::Named(id))?;
        left = rest;
    }
    Ok(Whos { items })
}

/// Everyone, and nobody by name.
fn only_star(alloc: Global) -> Result<Whos, AllocError>
    ensures { IfOk result (λ whos. whos ≡ star_alone) }
{
    let mut items = Vec::with_capacity(alloc, 1)?;
    items.push(Who::Star)?;
    Ok(Whos { items })
}

/// Whether the word stands for everyone.
fn is_star(word: &[u8]) -> bool
    ensures { result ≡ bytes_eq word.now (codes "*") }
{
    word == b"*".as_slice()
}

/// Users and groups, or `*` alone, in the parentheses of an operand at `place`.
pub fn whos(alloc: Global, place: u32, inner: Tokens<'_>) -> Result<Whos, ParseFault>
    ensures { Gives (λ ws. ws) result (whos_in place (valued_words (tokens inner.entry))) }
{
    let Some((item, rest)) = inner.split_valued() else {
        return Err(ParseFault::Syntax(Syntax::BadValue(place)));
    };
    let (_, word) = word_of(Quoting::Ignored, item)?;
    if !is_star(word) {
        return named(alloc, inner);
    }
    match stray(Quoting::Ignored, &rest) {
        Some(place) => Err(ParseFault::Syntax(Syntax::BadValue(place))),
        None => Ok(only_star(alloc)?),
    }
}
