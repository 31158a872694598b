//! The reading of a whole text: the command's name, its positional words, its operands.

ghost use Rattle.std.specs.Prelude.{◌≡◌, ◌+◌, ◌<◌, ◌≤◌, ◌^◌, [], length, map, find, if◌then◌else◌};
ghost use Rattle.command_words.specs.Bytes.{upper};
ghost use Rattle.command_words.specs.Tokens.{tokens, of_naming_command};
ghost use Rattle.command_grammar.specs.CommandTable.{in_class as verb_in_class};
ghost use Rattle.command_grammar.specs.Table.{verb_named as verb_called, positions_of};
ghost use Rattle.command_values.specs.Results.{Gives, Finds};
ghost use Rattle.command_grammar.specs.Reading.{takes_quotes as may_be_quoted, bounded as bounded_in, placed as placed_in, position_at, behind as scope_behind, positions_at, late_word as late_word_in, late_name as late_name_in, plain_at, late_at, class_named as class_named_in, body_at, begins_with_name as may_begin_quoted, behind_first as rest_behind, begun as scope_begun, parsed};
ghost use Rattle.command_grammar.specs.Parts.{generic};

use crate::closing::{class_in, closed, is_late, late_closed};
use crate::operands::{named, operands};
use crate::profile_table::CLASS_POSITIONS;
use crate::table::{Operand, Position, VERBS, Verb};
use access_levels::Id;
use command_values::{
    Content, Context, Known, ParseFault, ProfileName, Scope, Syntax, ValueKind, Word, any_named,
    clean, held, id_named, is_unclosed, one, unless_stray,
};
use command_words::{Piece, Quoting, Tokens, is_spelled};
use generic_names::Pattern;
use std::alloc::Global;

/// The longest text of a command, and the longest canonical text, in bytes.
pub const LONGEST: usize = 30_000;

/// A command as the table sees it: its positional words, and for each row of its operands the value, if it was given.
#[derive(Drop)]
pub struct Parts {
    pub verb: Verb,
    /// One for each row of `verb.positions()`.
    pub positions: Vec<Content>,
    /// One for each row of `verb.operands()`, empty where the operand wasn't given and has no default.
    pub slots: Vec<Option<Content>>,
}

/// The command that a word names.
fn verb_named(word: &[u8]) -> Option<Verb>
    ensures { result ≡ verb_called (map upper word.now) }
{
    VERBS.iter().copied().find(|verb| is_spelled(word, verb.full_name())
        || is_spelled(word, verb.short_name()))
}

/// The word in a positional place, unless quotes open it that nothing closes.
#[inline(always)]
fn bounded<'a>(kind: ValueKind, place: u32, word: &'a [u8]) -> Result<&'a [u8], Syntax>
    requires { place + length word.now < 2 ^ 30 }
    ensures { Finds (λ x. x.now) result (bounded_in kind place word.now) }
{
    if takes_quotes(kind) && is_unclosed(word) {
        return Err(Syntax::Unclosed(place));
    }
    clean(Quoting::Ignored, place, word)
}

/// Whether a word of this kind may be a name in quotes.
fn takes_quotes(kind: ValueKind) -> bool
    ensures { result ≡ may_be_quoted kind }
{
    match kind {
        ValueKind::DataSetProfile => true,
        ValueKind::AnyProfile => true,
        _ => false,
    }
}

/// A word in a positional place: its place, its bytes, and the place of what stands behind it in its parentheses.
type Held<'a> = (u32, &'a [u8], Option<u32>);

/// The word in a positional place, and the text behind it.
#[inline(always)]
fn placed<'a>(
    rows: &[Operand],
    wanted: Position,
    text: &Tokens<'a>,
) -> Result<(Held<'a>, Tokens<'a>), Syntax>
    ensures { Finds (λ x. ((x.0.0, x.0.1.now, x.0.2), tokens x.1)) result (placed_in rows.now wanted (tokens text.now)) }
{
    let Some((piece, rest)) = text.split_first() else {
        return Err(Syntax::Missing(wanted.word));
    };
    match piece {
        Piece::Word(place, word) => {
            if rest.opens_value() && named(rows, place, word).is_ok() {
                return Err(Syntax::Missing(wanted.word));
            }
            let word = bounded(wanted.kind, place, word)?;
            Ok(((place, word, None), rest))
        }
        Piece::Group(_, place, inner) => Ok((held(Quoting::Ignored, place, inner)?, rest)),
        Piece::Open(_, _, open) => Err(Syntax::Unclosed(open)),
        Piece::Close(place) => Err(Syntax::BadValue(place)),
    }
}

/// A positional word's value, and the text behind it.
#[inline(always)]
fn position<'a>(
    alloc: Global,
    at: &Scope,
    rows: &[Operand],
    wanted: Position,
    text: &Tokens<'a>,
) -> Result<(Content, Tokens<'a>), ParseFault>
    ensures { Gives (λ x. (x.0, tokens x.1)) result (position_at at.now rows.now wanted (tokens text.now)) }
{
    let ((place, word, stray), rest) = placed(rows, wanted, text)?;
    let content = one(alloc, at, wanted.kind, place, word)?;
    Ok((unless_stray(stray, content)?, rest))
}

/// What is known behind a positional word.
#[inline(always)]
fn behind(at: &Scope, kind: ValueKind, content: &Content) -> Scope
    ensures { result ≡ scope_behind at.now kind content.now }
{
    let known = match (kind, content) {
        (ValueKind::Class, Content::Id(class)) => Known {
            class: Some(*class),
            profile: at.known.profile,
        },
        (ValueKind::DataSetProfile, Content::Profile(name)) => Known {
            class: at.known.class,
            profile: Some(*name.pattern()),
        },
        (ValueKind::ClassProfile, Content::Profile(name)) => Known {
            class: at.known.class,
            profile: Some(*name.pattern()),
        },
        _ => at.known,
    };
    Scope {
        issuer: at.issuer,
        known,
    }
}

/// All positional words, what they tell, and the text behind them.
#[inline(always)]
fn positions<'a>(
    alloc: Global,
    at: Scope,
    rows: &[Operand],
    wanted: &[Position],
    text: Tokens<'a>,
) -> Result<(Vec<Content>, Scope, Tokens<'a>), ParseFault>
    ensures { Gives (λ x. (x.0.items, x.1, tokens x.2)) result (positions_at at rows.now wanted.now [] (tokens text.entry)) }
{
    let mut found = Vec::new(alloc);
    let mut scope = at;
    let mut left = text;
    for position_wanted in wanted {
        let (content, rest) = position(alloc, &scope, rows, *position_wanted, &left)?;
        scope = behind(&scope, position_wanted.kind, &content);
        found.push(content)?;
        left = rest;
    }
    Ok((found, scope, left))
}

/// What follows the command's name, where the name is judged at once.
#[inline(always)]
fn plain(alloc: Global, at: Scope, verb: Verb, text: Tokens<'_>) -> Result<Parts, ParseFault>
    ensures { Gives generic result (plain_at at verb (tokens text.entry)) }
{
    let rows = verb.operands();
    let (positions, at, rest) = positions(alloc, at, rows, verb.positions(), text)?;
    let slots = operands(alloc, &at, rows, rest)?;
    let slots = closed(verb, slots)?;
    Ok(Parts {
        verb,
        positions,
        slots,
    })
}

/// The word of a profile's name that is judged later, with its place, and the text behind it.
#[inline(always)]
fn late_word<'a>(rows: &[Operand], text: &Tokens<'a>) -> Result<(u32, &'a [u8], Tokens<'a>), Syntax>
    ensures { Finds (λ x. (x.0, x.1.now, tokens x.2)) result (late_word_in rows.now (tokens text.now)) }
{
    let wanted = Position {
        word: Word::Profile,
        kind: ValueKind::AnyProfile,
    };
    let ((place, word, stray), rest) = placed(rows, wanted, text)?;
    unless_stray(stray, (place, word, rest))
}

/// The profile of the class that the operands name.
#[inline(always)]
fn late_name(
    alloc: Global,
    at: &Scope,
    slots: &[Option<Content>],
    place: u32,
    word: &[u8],
) -> Result<Pattern, ParseFault>
    ensures { Gives (λ n. n) result (late_name_in at.now slots.now place word.now) }
{
    let class = class_in(slots);
    let name = any_named(alloc, at.issuer, class, word)?;
    Ok(name.ok_or(Syntax::BadValue(place))?)
}

/// What follows the command's name, where the profile's name is judged when the whole text was read.
#[inline(always)]
fn late(alloc: Global, at: Scope, verb: Verb, text: Tokens<'_>) -> Result<Parts, ParseFault>
    ensures { Gives generic result (late_at at verb (tokens text.entry)) }
{
    let rows = verb.operands();
    let (place, word, rest) = late_word(rows, &text)?;
    let slots = operands(alloc, &at, rows, rest)?;
    let name = late_name(alloc, &at, &slots, place, word)?;
    let slots = late_closed(&name, verb, slots)?;
    let mut positions = Vec::with_capacity(alloc, 1)?;
    positions.push(Content::Profile(ProfileName::new(alloc, name)?))?;
    Ok(Parts {
        verb,
        positions,
        slots,
    })
}

/// The class that the first positional word names, if it names one.
#[inline(always)]
fn class_named(text: &Tokens<'_>) -> Option<Id>
    ensures { result ≡ class_named_in (tokens text.now) }
{
    match placed(&[], CLASS_POSITIONS[0], text) {
        Ok(((_, word, _), _)) => id_named(word),
        Err(_) => None,
    }
}

/// The command of this name, by the class that stands behind it where that counts.
#[inline(always)]
fn by_class(verb: Verb, text: &Tokens<'_>) -> Verb
    ensures { result ≡ verb_in_class verb (class_named_in (tokens text.now)) }
{
    match verb {
        Verb::RDefine => verb.in_class(class_named(text)),
        Verb::RAlter => verb.in_class(class_named(text)),
        other => other,
    }
}

/// What follows the command's name.
#[inline(always)]
fn body(alloc: Global, at: Scope, verb: Verb, text: Tokens<'_>) -> Result<Parts, ParseFault>
    ensures { Gives generic result (body_at at verb (tokens text.entry)) }
{
    if is_late(verb) {
        late(alloc, at, verb, text)
    } else {
        plain(alloc, at, by_class(verb, &text), text)
    }
}

/// Whether the first positional word of a command may be a name in quotes.
fn begins_with_name(verb: Verb) -> bool
    ensures { result ≡ may_begin_quoted (positions_of verb) }
{
    match verb.positions().first() {
        Some(position) => takes_quotes(position.kind),
        None => false,
    }
}

/// The text behind the first word, where the second may be a name in quotes.
#[inline(always)]
fn behind_first(text: &[u8]) -> Tokens<'_>
    requires { length text.now ≤ 30000 }
    ensures { tokens result ≡ rest_behind (tokens (of_naming_command text.now)) }
{
    let whole = Tokens::naming(text);
    match whole.split_first() {
        Some((_, rest)) => rest,
        None => whole,
    }
}

/// The text behind the command's name, which `rest` is where no word in quotes may follow.
#[inline(always)]
fn behind_verb<'a>(verb: Verb, text: &'a [u8], rest: Tokens<'a>) -> Tokens<'a>
    requires { length text.now ≤ 30000 }
    ensures { tokens result ≡ (if may_begin_quoted (positions_of verb) then rest_behind (tokens (of_naming_command text.now)) else tokens rest.entry) }
{
    if begins_with_name(verb) {
        behind_first(text)
    } else {
        rest
    }
}

/// At the beginning nothing but the issuer is known.
#[inline(always)]
fn begun(at: &Context) -> Scope
    ensures { result ≡ scope_begun at.now }
{
    Scope {
        issuer: at.issuer,
        known: Known {
            class: None,
            profile: None,
        },
    }
}

/// What the text spells, whatever the length of its canonical text.
///
/// # Errors
///
/// `Syntax`, with the first fault: of the length, then from word to word, and then what the whole text is needed for
/// (PERMIT's name, operands that lack, operands that exclude one another). `NoMemory` where there was no room for a
/// value.
#[tactic(auto, unfolding(crate::specs::Reading::parsed))]
pub fn read(alloc: Global, at: &Context, text: &[u8]) -> Result<Parts, ParseFault>
    ensures { Gives generic result (parsed at.now text.now) }
{
    if text.len() > LONGEST {
        return Err(ParseFault::Syntax(Syntax::TextTooLong));
    }
    match Tokens::new(text).split_first() {
        Some((Piece::Word(place, word), rest)) => {
            let word = clean(Quoting::Ignored, place, word)?;
            let verb = verb_named(word).ok_or(Syntax::UnknownCommand)?;
            body(alloc, begun(at), verb, behind_verb(verb, text, rest))
        }
        _ => Err(ParseFault::Syntax(Syntax::UnknownCommand)),
    }
}
