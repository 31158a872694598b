//! The reading of values: the word or words in an operand's parentheses, and of a positional word.

ghost use Rattle.std.specs.Prelude.{◌≡◌, [], false, map, IfOk};
ghost use Rattle.std.specs.List.{list_all};
ghost use Rattle.std.specs.Option.{option_map};
ghost use Rattle.command_words.specs.Bytes.{upper};
ghost use Rattle.command_words.specs.Tokens.{tokens};
ghost use Rattle.command_words.specs.ValuedWords.{valued_words};
ghost use Rattle.command_values.specs.Results.{Gives, Finds};
ghost use Rattle.command_values.specs.NamedWords.{id_named as id_in};
ghost use Rattle.command_values.specs.Values.{unless_dataset, name_of as name_in, name_text, unquoted as text_between, reset_of, failures_of, if_longest, truth_name as truth_in, truth_of, class_names_of, one as one_of, quotes_of as quoting_of, single as single_of, names as names_of, some_names as some_names_of, several as several_of, value as value_of, generic_at as generic_in, bare as bare_of};
ghost use Rattle.command_values.specs.Members.{number_of};
ghost use Rattle.command_fields.specs.UserNames.{is_name as names_user, is_printable};

use crate::audits::audit_rule;
use crate::entries::{port, whos};
use crate::faults::{ParseFault, Syntax};
use crate::log_options::log_clauses;
use crate::members::{added, dropped, member_form, number};
use crate::named_words::{authority_named, group_named, id_named, level_named};
use crate::profile_names::{class_profile, dataset_named};
use crate::value_kinds::ValueKind;
use crate::value_words::{held, unless_stray, word_of};
use crate::values::{CLASS_NAMES, Content, ProfileName, RESETS, Scope};
use access_levels::{Id, Text};
use command_fields::{ClassNames, Ids, Reset};
use command_words::{Quoting, Tokens, is_spelled};
use generic_names::Pattern;
use std::alloc::{AllocError, Global};

/// The class that a word names, other than DATASET.
fn class_named(word: &[u8]) -> Option<Id>
    ensures { result ≡ unless_dataset (id_in word.now) }
{
    let id = id_named(word)?;
    if id.text() == b"DATASET".as_slice() {
        None
    } else {
        Some(id)
    }
}

/// The name that a word spells where a name of this kind stands.
fn name_of(kind: ValueKind, word: &[u8]) -> Option<Id>
    ensures { result ≡ name_in kind word.now }
{
    match kind {
        ValueKind::Id => id_named(word),
        ValueKind::Ids => id_named(word),
        ValueKind::Group => group_named(word),
        ValueKind::Classes => class_named(word),
        ValueKind::Class => id_named(word),
        _ => None,
    }
}

/// How quotes count in a value of this kind.
fn quotes_of(kind: ValueKind) -> Quoting
    ensures { result ≡ quoting_of kind }
{
    match kind {
        ValueKind::Name => Quoting::Outside,
        _ => Quoting::Ignored,
    }
}

/// GENERIC at `place`, with a profile's name if that is known.
fn generic_at(profile: Option<Pattern>, place: u32) -> Result<Content, Syntax>
    ensures { Finds (λ v. v) result (generic_in profile place) }
{
    match profile {
        Some(name) if !name.is_generic() => Err(Syntax::BadValue(place)),
        _ => Ok(Content::Generic(place)),
    }
}

/// An operand alone, without a value.
pub fn bare(at: &Scope, kind: ValueKind, place: u32) -> Result<Content, Syntax>
    ensures { Finds (λ v. v) result (bare_of at.now kind place) }
{
    match kind {
        ValueKind::Flag => Ok(Content::Flag),
        ValueKind::Reset => Ok(Content::Reset(Reset::All)),
        ValueKind::Failures => Ok(Content::Failures),
        ValueKind::Generic => generic_at(at.known.profile, place),
        _ => Err(Syntax::BadValue(place)),
    }
}

/// The text between quotes, behind whose opening one `bytes` stands, where the word ends with the closing one.
fn unquoted(alloc: Global, bytes: &[u8]) -> Result<Option<Vec<u8>>, AllocError>
    ensures { IfOk result (λ text. option_map (λ t. t.items) text ≡ text_between false [] bytes.now) }
{
    let mut text = Vec::new(alloc);
    let mut met = false;
    let mut rest = bytes;
    while let Some((byte, behind)) = rest.split_first() {
        rest = behind;
        if *byte == b'\'' {
            if met {
                text.push(b'\'')?;
            }
            met = !met;
        } else if met {
            return Ok(None);
        } else {
            text.push(*byte)?;
        }
    }
    Ok(if met { Some(text) } else { None })
}

/// Whether a byte may stand in a user's name.
fn is_printable(byte: u8) -> bool
    ensures { result ≡ is_printable byte }
{
    byte >= 0x20 && byte <= 0x7e
}

/// Whether all bytes may stand in a user's name.
fn are_printable(text: &[u8]) -> bool
    ensures { result ≡ list_all is_printable text.now }
{
    text.iter().all(|byte| is_printable(*byte))
}

/// Whether a text may be a user's name.
fn is_name(text: &[u8]) -> bool
    ensures { result ≡ names_user text.now }
{
    text.len() >= 1 && text.len() <= 20 && are_printable(text)
}

/// The text of a user's name, which a word in quotes is.
fn name_named(alloc: Global, word: &[u8]) -> Result<Option<Text>, AllocError>
    ensures { IfOk result (λ text. text ≡ name_text word.now) }
{
    let Some((byte, rest)) = word.split_first() else {
        return Ok(None);
    };
    if *byte != b'\'' {
        return Ok(None);
    }
    let Some(text) = unquoted(alloc, rest)? else {
        return Ok(None);
    };
    if !is_name(text.as_slice()) {
        return Ok(None);
    }
    Ok(Some(Text::of(alloc, text.as_slice())?))
}

/// The value of RESET that a word spells.
fn reset_named(word: &[u8]) -> Option<Reset>
    ensures { result ≡ reset_of (map upper word.now) }
{
    RESETS
        .iter()
        .copied()
        .find(|reset| is_spelled(word, reset.name()))
}

/// FAILURES, where a word spells it.
fn failures_named(word: &[u8]) -> Option<Content>
    ensures { result ≡ failures_of (map upper word.now) }
{
    if is_spelled(word, b"FAILURES") {
        Some(Content::Failures)
    } else {
        None
    }
}

/// How long names may be, where a word is such a number.
fn length_named(word: &[u8]) -> Option<u8>
    ensures { result ≡ if_longest (number_of word.now) }
{
    let number = number(word)?;
    if number >= 1 && number <= 246 {
        Some(number)
    } else {
        None
    }
}

/// The word for a truth.
pub fn truth_name(truth: bool) -> &'static [u8]
    ensures { result.now ≡ truth_in truth }
{
    if truth {
        b"YES".as_slice()
    } else {
        b"NO".as_slice()
    }
}

/// YES or NO, where a word spells it.
fn truth_named(word: &[u8]) -> Option<bool>
    ensures { result ≡ truth_of (map upper word.now) }
{
    if is_spelled(word, truth_name(true)) {
        Some(true)
    } else if is_spelled(word, truth_name(false)) {
        Some(false)
    } else {
        None
    }
}

/// FULL or ID, where a word spells it.
fn class_names_named(word: &[u8]) -> Option<ClassNames>
    ensures { result ≡ class_names_of (map upper word.now) }
{
    CLASS_NAMES
        .iter()
        .copied()
        .find(|names| is_spelled(word, names.name()))
}

/// The value that a word is.
pub fn one(
    alloc: Global,
    at: &Scope,
    kind: ValueKind,
    place: u32,
    word: &[u8],
) -> Result<Content, ParseFault>
    ensures { Gives (λ v. v) result (one_of at.now kind place word.now) }
{
    let bad = Syntax::BadValue(place);
    match kind {
        ValueKind::Id => Ok(Content::Id(name_of(kind, word).ok_or(bad)?)),
        ValueKind::Group => Ok(Content::Id(name_of(kind, word).ok_or(bad)?)),
        ValueKind::Class => Ok(Content::Id(name_of(kind, word).ok_or(bad)?)),
        ValueKind::Authority => Ok(Content::Authority(authority_named(word).ok_or(bad)?)),
        ValueKind::Name => Ok(Content::Name(name_named(alloc, word)?.ok_or(bad)?)),
        ValueKind::Level => Ok(Content::Level(level_named(word).ok_or(bad)?)),
        ValueKind::DataSetProfile => {
            let name = dataset_named(alloc, at.issuer, word)?.ok_or(bad)?;
            Ok(Content::Profile(ProfileName::new(alloc, name)?))
        }
        ValueKind::ClassProfile => {
            let name = class_profile(alloc, at.known.class, word)?.ok_or(bad)?;
            Ok(Content::Profile(ProfileName::new(alloc, name)?))
        }
        ValueKind::Reset => Ok(Content::Reset(reset_named(word).ok_or(bad)?)),
        ValueKind::Failures => Ok(failures_named(word).ok_or(bad)?),
        ValueKind::Length => Ok(Content::Length(length_named(word).ok_or(bad)?)),
        ValueKind::Truth => Ok(Content::Truth(truth_named(word).ok_or(bad)?)),
        ValueKind::ClassNames => Ok(Content::ClassNames(class_names_named(word).ok_or(bad)?)),
        _ => Err(ParseFault::Syntax(bad)),
    }
}

/// A value of one word. Where there is no word it is refused at `place`.
pub fn single(
    alloc: Global,
    at: &Scope,
    kind: ValueKind,
    place: u32,
    inner: Tokens<'_>,
) -> Result<Content, ParseFault>
    ensures { Gives (λ v. v) result (single_of at.now kind place (valued_words (tokens inner.entry))) }
{
    let (place, word, stray) = held(quotes_of(kind), place, inner)?;
    let content = one(alloc, at, kind, place, word)?;
    Ok(unless_stray(stray, content)?)
}

/// The names of a list.
pub fn names(alloc: Global, kind: ValueKind, inner: Tokens<'_>) -> Result<Ids, ParseFault>
    ensures { Gives (λ xs. xs) result (names_of kind [] (valued_words (tokens inner.entry))) }
{
    let mut ids = Vec::new(alloc);
    let mut left = inner;
    while let Some((item, rest)) = left.split_valued() {
        let (place, word) = word_of(Quoting::Ignored, item)?;
        let id = name_of(kind, word).ok_or(Syntax::BadValue(place))?;
        ids.push(id)?;
        left = rest;
    }
    Ok(Ids { items: ids })
}

/// A list of one name or more. Where there is none it is refused at `place`.
pub fn some_names(
    alloc: Global,
    kind: ValueKind,
    place: u32,
    inner: Tokens<'_>,
) -> Result<Ids, ParseFault>
    ensures { Gives (λ xs. xs) result (some_names_of kind place (valued_words (tokens inner.entry))) }
{
    if inner.split_valued().is_none() {
        return Err(ParseFault::Syntax(Syntax::BadValue(place)));
    }
    names(alloc, kind, inner)
}

/// The same as a value.
fn several(
    alloc: Global,
    kind: ValueKind,
    place: u32,
    inner: Tokens<'_>,
) -> Result<Content, ParseFault>
    ensures { Gives (λ v. v) result (several_of kind place (valued_words (tokens inner.entry))) }
{
    Ok(Content::Ids(some_names(alloc, kind, place, inner)?))
}

/// The value in the parentheses behind an operand at `place`.
pub fn value(
    alloc: Global,
    at: &Scope,
    kind: ValueKind,
    place: u32,
    inner: Tokens<'_>,
) -> Result<Content, ParseFault>
    ensures { Gives (λ v. v) result (value_of at.now kind place (valued_words (tokens inner.entry))) }
{
    match kind {
        ValueKind::Ids => several(alloc, kind, place, inner),
        ValueKind::Classes => several(alloc, kind, place, inner),
        ValueKind::Id => single(alloc, at, kind, place, inner),
        ValueKind::Group => single(alloc, at, kind, place, inner),
        ValueKind::Class => single(alloc, at, kind, place, inner),
        ValueKind::Authority => single(alloc, at, kind, place, inner),
        ValueKind::Name => single(alloc, at, kind, place, inner),
        ValueKind::Level => single(alloc, at, kind, place, inner),
        ValueKind::Reset => single(alloc, at, kind, place, inner),
        ValueKind::Audit => Ok(Content::Audit(audit_rule(place, inner)?)),
        ValueKind::Whos => Ok(Content::Whos(whos(alloc, place, inner)?)),
        ValueKind::When => Ok(Content::When(port(place, inner)?)),
        ValueKind::AddedMembers => {
            let form = member_form(&at.known);
            Ok(Content::Members(added(alloc, form, place, inner)?))
        }
        ValueKind::DroppedMembers => {
            let form = member_form(&at.known);
            Ok(Content::MemberNames(dropped(alloc, form, place, inner)?))
        }
        ValueKind::Failures => single(alloc, at, kind, place, inner),
        ValueKind::LogOptions => Ok(Content::LogOptions(log_clauses(alloc, place, inner)?)),
        ValueKind::Length => single(alloc, at, kind, place, inner),
        ValueKind::Truth => single(alloc, at, kind, place, inner),
        ValueKind::ClassNames => single(alloc, at, kind, place, inner),
        _ => Err(ParseFault::Syntax(Syntax::BadValue(place))),
    }
}
