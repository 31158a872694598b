//! The cases of the access lists and of the universal access.
ghost use Rattle.std.specs.Prelude.{◌≡◌, if◌then◌else◌, slice_get};
ghost use Rattle.access_levels.specs.Level.{suffices};
ghost use Rattle.access_lists.specs.Answers as lists;
ghost use Rattle.decision.specs.Table.{higher, considered, case, with};
ghost use Rattle.decision.specs.Steps.{is_open, uacc_case, entry_case, standing_with, conditional_case};

use crate::answer::Answer;
use crate::outcome::Rule;
use access_levels::{CondEntry, Entry, Level};
use access_lists::{Found, answer, answer_when};
use acee::Acee;
use racf_profiles::Options;

/// What a standard list gives to the user: by all his groups while GRPLIST is on, else by the current one alone.
#[inline(always)]
pub(crate) fn listed(options: &Options, acee: &Acee, list: &[Entry]) -> Found
    ensures { result ≡ lists.answered acee.now.user (considered options.now acee.now) acee.now.attributes.restricted list.now }
{
    let restricted = acee.attributes.restricted;
    if options.grplist {
        answer(list, acee.user, acee.groups.names(), restricted)
    } else {
        answer(list, acee.user, &[acee.current], restricted)
    }
}

/// Whether neither the user nor one of his groups has an entry.
#[inline(always)]
pub(crate) fn is_open(found: &Found) -> bool
    ensures { result ≡ is_open found.now }
{
    matches!(found, Found::Star(_) | Found::Nothing)
}

/// The answer of the standard list and of the universal access, where one of them suffices.
#[inline(always)]
pub(crate) fn entry_case(
    found: &Found,
    restricted: bool,
    uacc: Level,
    asked: Level,
) -> Option<Answer>
    ensures { result ≡ entry_case found.now restricted uacc asked }
{
    match found {
        Found::User(level) if level.suffices(asked) => Some(Answer::allowed(
            Rule::UserEntry,
            *level,
        )),
        Found::Group(group, level) if level.suffices(asked) => Some(Answer::allowed(
            Rule::GroupEntry(*group),
            *level,
        )),
        Found::Star(level) if level.suffices(asked) => Some(Answer::allowed(Rule::Star, *level)),
        Found::User(_) | Found::Group(_, _) => None,
        Found::Star(_) | Found::Nothing => uacc_case(restricted, uacc, asked),
    }
}

/// The answer of the universal access, where it suffices.
#[inline(always)]
fn uacc_case(restricted: bool, uacc: Level, asked: Level) -> Option<Answer>
    ensures { result ≡ uacc_case restricted uacc asked }
{
    if !restricted && uacc.suffices(asked) {
        Some(Answer::allowed(Rule::Uacc, uacc))
    } else {
        None
    }
}

/// The standing level: the entry's, and without one what everybody has.
#[inline(always)]
pub(crate) fn standing(found: &Found, restricted: bool, uacc: Level) -> Level
    ensures { result ≡ standing_with found.now restricted uacc }
{
    match found {
        Found::User(level) | Found::Group(_, level) => *level,
        Found::Star(level) => unless_restricted(restricted, higher(uacc, *level)),
        Found::Nothing => unless_restricted(restricted, uacc),
    }
}

/// The level, or NONE for a RESTRICTED user.
#[inline(always)]
fn unless_restricted(restricted: bool, level: Level) -> Level
    ensures { result ≡ (if restricted then Level.NoAccess else level) }
{
    if restricted { Level::NoAccess } else { level }
}

/// The higher of two levels.
#[inline(always)]
fn higher(level: Level, other: Level) -> Level
    ensures { result ≡ higher level other }
{
    if level.rank() < other.rank() {
        other
    } else {
        level
    }
}

/// The answer of the conditional list, where its entry suffices.
#[inline(always)]
pub(crate) fn conditional_case(
    options: &Options,
    acee: &Acee,
    list: &[CondEntry],
    asked: Level,
) -> Option<Answer>
    ensures { result ≡ conditional_case options.now acee.now list.now asked }
{
    match place_that_counts(options, acee, list) {
        Some(place) => entry_at(list, place, asked),
        None => None,
    }
}

/// The place of the conditional entry that counts for the user.
fn place_that_counts(options: &Options, acee: &Acee, list: &[CondEntry]) -> Option<usize>
    ensures { result ≡ lists.answered_when acee.now.port acee.now.user (considered options.now acee.now) acee.now.attributes.restricted list.now }
{
    let restricted = acee.attributes.restricted;
    if options.grplist {
        answer_when(list, acee.port, acee.user, acee.groups.names(), restricted)
    } else {
        answer_when(list, acee.port, acee.user, &[acee.current], restricted)
    }
}

/// The answer of the conditional entry at a place, where it suffices.
#[inline(always)]
fn entry_at(list: &[CondEntry], place: usize, asked: Level) -> Option<Answer>
    ensures { result ≡ with (slice_get list.now place) (λ entry. case (suffices entry.level asked) (Rule.Conditional entry.condition) 0 entry.level) }
{
    match list.get(place) {
        Some(entry) if entry.level.suffices(asked) => {
            let port = entry.condition;
            Some(Answer::allowed(Rule::Conditional(port), entry.level))
        }
        _ => None,
    }
}
