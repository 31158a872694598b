//! What LOGOPTIONS holds.

ghost use Rattle.std.specs.Prelude.{◌≡◌, ◌+◌, ◌<◌, ◌^◌, length, map, position, OnOk};
ghost use Rattle.command_words.specs.Bytes.{upper};
ghost use Rattle.command_words.specs.Tokens.{tokens};
ghost use Rattle.command_words.specs.ValuedWords.{valued_words, IsValuedInReach};
ghost use Rattle.command_words.specs.Pieces.{seen_valued};
ghost use Rattle.command_values.specs.Results.{Gives, Finds};
ghost use Rattle.command_values.specs.LogOptions.{log_option_name, log_option_rank, log_option_of, applies_before, applies_behind, is_given, put_clause as clauses_with};
ghost use Rattle.command_values.specs.Values.{log_option_at as option_at, clause_at as clause_in, log_clauses as clauses_in};

use crate::faults::{ParseFault, Syntax};
use crate::value_kinds::ValueKind;
use crate::value_reading::some_names;
use crate::value_words::{clean, refused_at};
use command_fields::{LogClause, LogClauses};
use command_words::{Quoting, Tokens, ValuedWord, is_spelled};
use racf_profiles::LogOption;
use std::alloc::{AllocError, Global};

/// The words of LOGOPTIONS (z/OS Security Server RACF Command Language Reference, SETROPTS), in the order in which they
/// apply. DEFAULT leaves it to each profile.
const LOG_OPTIONS: [LogOption; 5] = [
    LogOption::Always,
    LogOption::Never,
    LogOption::Successes,
    LogOption::Failures,
    LogOption::ByProfile,
];

/// The word of LOGOPTIONS.
pub(crate) fn log_option_name(option: LogOption) -> &'static [u8]
    ensures { result.now ≡ log_option_name option }
{
    match option {
        LogOption::Always => b"ALWAYS".as_slice(),
        LogOption::Never => b"NEVER".as_slice(),
        LogOption::Successes => b"SUCCESSES".as_slice(),
        LogOption::Failures => b"FAILURES".as_slice(),
        LogOption::ByProfile => b"DEFAULT".as_slice(),
    }
}

/// Its place in the order in which the words apply.
fn rank(option: LogOption) -> u8
    ensures { result ≡ log_option_rank option }
{
    match option {
        LogOption::Always => 0,
        LogOption::Never => 1,
        LogOption::Successes => 2,
        LogOption::Failures => 3,
        LogOption::ByProfile => 4,
    }
}

/// The option that a word spells.
fn log_option_named(word: &[u8]) -> Option<LogOption>
    ensures { result ≡ log_option_of (map upper word.now) }
{
    LOG_OPTIONS
        .iter()
        .copied()
        .find(|option| is_spelled(word, log_option_name(*option)))
}

/// Whether one word applies before another.
fn applies_before(one: LogOption, other: LogOption) -> bool
    ensures { result ≡ applies_before one other }
{
    rank(one) < rank(other)
}

/// Whether a word was given.
fn is_given(option: LogOption, clauses: &[LogClause]) -> bool
    ensures { result ≡ is_given option clauses.now }
{
    clauses
        .iter()
        .any(|clause| rank(clause.option) == rank(option))
}

/// The word at `place`, where it wasn't given before.
fn log_option_at(clauses: &[LogClause], place: u32, word: &[u8]) -> Result<LogOption, Syntax>
    requires { place + length word.now < 2 ^ 30 }
    ensures { Finds (λ option. option) result (option_at clauses.now place word.now) }
{
    let word = clean(Quoting::Ignored, place, word)?;
    match log_option_named(word) {
        Some(option) if !is_given(option, clauses) => Ok(option),
        _ => Err(Syntax::BadValue(place)),
    }
}

/// A word with its classes.
fn clause_at(
    alloc: Global,
    clauses: &[LogClause],
    item: ValuedWord<'_>,
) -> Result<LogClause, ParseFault>
    requires { IsValuedInReach (seen_valued item) }
    ensures { Gives (λ clause. clause) result (clause_in clauses.now (seen_valued item.entry)) }
{
    match item {
        ValuedWord::Valued(place, word, inner) => {
            let option = log_option_at(clauses, place, word)?;
            let classes = some_names(alloc, ValueKind::Ids, place, inner)?;
            Ok(LogClause { option, classes })
        }
        other => Err(ParseFault::Syntax(Syntax::BadValue(refused_at(Quoting::Ignored, other)))),
    }
}

/// The place of the first word that applies behind this one.
fn first_behind(option: LogOption, clauses: &[LogClause]) -> Option<usize>
    ensures { result ≡ position (applies_behind option) clauses.now }
{
    clauses
        .iter()
        .position(|other| applies_before(option, other.option))
}

/// Puts a word before those that apply behind it.
fn put_clause(clauses: &mut Vec<LogClause>, clause: LogClause) -> Result<(), AllocError>
    ensures { OnOk result (clauses.new.items ≡ clauses_with clause clauses.old.items) }
{
    let place = first_behind(clause.option, clauses).unwrap_or(clauses.len());
    clauses.insert(place, clause)?;
    Ok(())
}

/// The words in the parentheses of an operand at `place`, each with its classes.
pub fn log_clauses(alloc: Global, place: u32, inner: Tokens<'_>) -> Result<LogClauses, ParseFault>
    ensures { Gives (λ clauses. clauses) result (clauses_in place (valued_words (tokens inner.entry))) }
{
    if inner.split_valued().is_none() {
        return Err(ParseFault::Syntax(Syntax::BadValue(place)));
    }
    let mut clauses = Vec::new(alloc);
    let mut left = inner;
    while let Some((item, rest)) = left.split_valued() {
        let clause = clause_at(alloc, &clauses, item)?;
        put_clause(&mut clauses, clause)?;
        left = rest;
    }
    Ok(LogClauses { items: clauses })
}
