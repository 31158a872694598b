//! What AUDIT and GLOBALAUDIT hold.

ghost use Rattle.std.specs.Prelude.{◌≡◌, ◌+◌, ◌<◌, ◌^◌, length, map, None};
ghost use Rattle.command_words.specs.Bytes.{upper};
ghost use Rattle.command_words.specs.Tokens.{tokens};
ghost use Rattle.command_words.specs.ValuedWords.{valued_words, IsValuedInReach};
ghost use Rattle.command_words.specs.Pieces.{seen_valued};
ghost use Rattle.command_values.specs.Results.{Finds};
ghost use Rattle.command_values.specs.NamedWords.{level_named as level_in_word};
ghost use Rattle.command_values.specs.Audits.{audit_word_name, audit_word_of, may_follow as can_follow, so_far as rule_so_far, with_word as rule_with, if_audit_level, audit_level as level_in, with_level as rule_with_level, audit_word as word_at, audit_more as rule_with_more, audit_rule as rule_in};

use crate::faults::Syntax;
use crate::named_words::level_named;
use crate::value_words::{clean, held, refused_at, unless_stray};
use access_levels::Level;
use command_words::{Quoting, Tokens, ValuedWord, is_spelled};
use racf_profiles::AuditRule;

/// The words of AUDIT and GLOBALAUDIT (z/OS Security Server RACF Command Language Reference, ALTDSD).
#[derive(Clone, Copy, Debug, PartialEq, Eq)]
pub enum AuditWord {
    /// ALL, successes and failures.
    All,
    Success,
    Failures,
    /// NONE, which takes no level.
    Nothing,
}

/// All of them.
pub const AUDIT_WORDS: [AuditWord; 4] = [
    AuditWord::All,
    AuditWord::Success,
    AuditWord::Failures,
    AuditWord::Nothing,
];

impl AuditWord {
    /// The word as it is written.
    pub fn name(self) -> &'static [u8]
        ensures { result.now ≡ audit_word_name self }
    {
        match self {
            AuditWord::All => b"ALL".as_slice(),
            AuditWord::Success => b"SUCCESS".as_slice(),
            AuditWord::Failures => b"FAILURES".as_slice(),
            AuditWord::Nothing => b"NONE".as_slice(),
        }
    }
}

/// The audit word that a word spells.
fn audit_word_named(word: &[u8]) -> Option<AuditWord>
    ensures { result ≡ audit_word_of (map upper word.now) }
{
    AUDIT_WORDS
        .iter()
        .copied()
        .find(|audit| is_spelled(word, audit.name()))
}

/// Whether the word can stand behind what was read.
fn may_follow(rule: Option<AuditRule>, word: AuditWord) -> bool
    ensures { result ≡ can_follow rule word }
{
    let Some(rule) = rule else {
        return true;
    };
    match word {
        AuditWord::Success => rule.success.is_none() && rule.failures.is_some(),
        AuditWord::Failures => rule.success.is_some() && rule.failures.is_none(),
        _ => false,
    }
}

/// The rule that was read so far; nothing is logged before the first word.
fn so_far(rule: Option<AuditRule>) -> AuditRule
    ensures { result ≡ rule_so_far rule }
{
    match rule {
        Some(rule) => rule,
        None => logged(None, None),
    }
}

/// The rule that logs from these levels on.
fn logged(success: Option<Level>, failures: Option<Level>) -> AuditRule
    ensures { result ≡ record { success = success; failures = failures } }
{
    AuditRule { success, failures }
}

/// The rule with what a word says from that level on.
fn with_word(rule: AuditRule, word: AuditWord, level: Level) -> AuditRule
    ensures { result ≡ rule_with rule word level }
{
    match word {
        AuditWord::All => logged(Some(level), Some(level)),
        AuditWord::Success => logged(Some(level), rule.failures),
        AuditWord::Failures => logged(rule.success, Some(level)),
        AuditWord::Nothing => logged(None, None),
    }
}

/// The level of auditing that a word spells: READ, UPDATE, CONTROL or ALTER.
fn audit_level_named(word: &[u8]) -> Option<Level>
    ensures { result ≡ if_audit_level (level_in_word word.now) }
{
    let level = level_named(word)?;
    if level.rank() >= 2 { Some(level) } else { None }
}

/// The level in the parentheses behind the word at `place`.
fn audit_level(place: u32, inner: Tokens<'_>) -> Result<Level, Syntax>
    ensures { Finds (λ l. l) result (level_in place (valued_words (tokens inner.entry))) }
{
    let (place, word, stray) = held(Quoting::Ignored, place, inner)?;
    let level = audit_level_named(word).ok_or(Syntax::BadValue(place))?;
    unless_stray(stray, level)
}

/// The word at `place`, where it can stand behind what was read.
fn audit_word(rule: Option<AuditRule>, place: u32, word: &[u8]) -> Result<AuditWord, Syntax>
    requires { place + length word.now < 2 ^ 30 }
    ensures { Finds (λ a. a) result (word_at rule place word.now) }
{
    let word = clean(Quoting::Ignored, place, word)?;
    match audit_word_named(word) {
        Some(audit) if may_follow(rule, audit) => Ok(audit),
        _ => Err(Syntax::BadValue(place)),
    }
}

/// The rule with what a word says from the level in its parentheses on.
fn with_level(
    rule: AuditRule,
    word: AuditWord,
    place: u32,
    inner: Tokens<'_>,
) -> Result<AuditRule, Syntax>
    ensures { Finds (λ r. r) result (rule_with_level rule word place (valued_words (tokens inner.entry))) }
{
    if let AuditWord::Nothing = word {
        return Err(Syntax::BadValue(place));
    }
    Ok(with_word(rule, word, audit_level(place, inner)?))
}

/// What is logged with one word more.
fn audit_more(rule: Option<AuditRule>, item: ValuedWord<'_>) -> Result<AuditRule, Syntax>
    requires { IsValuedInReach (seen_valued item) }
    ensures { Finds (λ r. r) result (rule_with_more rule (seen_valued item.entry)) }
{
    match item {
        ValuedWord::Alone(place, word) => {
            let audit = audit_word(rule, place, word)?;
            Ok(with_word(so_far(rule), audit, Level::Read))
        }
        ValuedWord::Valued(place, word, inner) => {
            let audit = audit_word(rule, place, word)?;
            with_level(so_far(rule), audit, place, inner)
        }
        other => Err(Syntax::BadValue(refused_at(Quoting::Ignored, other))),
    }
}

/// The rule in the parentheses of an operand at `place`.
pub fn audit_rule(place: u32, inner: Tokens<'_>) -> Result<AuditRule, Syntax>
    ensures { Finds (λ r. r) result (rule_in place (valued_words (tokens inner.entry))) }
{
    let mut rule = None;
    let mut left = inner;
    while let Some((item, rest)) = left.split_valued() {
        rule = Some(audit_more(rule, item)?);
        left = rest;
    }
    rule.ok_or(Syntax::BadValue(place))
}
