//! How many entries access lists have after PERMIT.
ghost use Rattle.std.specs.Prelude.{◌≡◌, ◌||◌, true, false, not, count_by, fold, length, if◌then◌else◌};
ghost use Rattle.std.specs.List.{list_any};
ghost use Rattle.access_lists.specs.Lists.{is_for, is_for_under};
ghost use Rattle.access_levels.specs.Entries.{is_same_who};
ghost use Rattle.command_rules.specs.PermitEffects.{standard_reset, conditional_reset, with_entry, with_conditional, standard_after, conditional_after};

use access_levels::{CondEntry, Condition, Entry, Who};
use access_lists::{is_for_under, is_same_who};
use command_fields::{Permit, Reset};

/// A standard list after RESET.
pub fn standard_reset(reset: Option<Reset>, list: &[Entry]) -> &[Entry]
    ensures { result.now ≡ standard_reset reset list.now }
{
    match reset {
        None | Some(Reset::When) => list,
        Some(Reset::All | Reset::Standard) => &[],
    }
}

/// A conditional list after RESET.
pub fn conditional_reset(reset: Option<Reset>, list: &[CondEntry]) -> &[CondEntry]
    ensures { result.now ≡ conditional_reset reset list.now }
{
    match reset {
        None | Some(Reset::Standard) => list,
        Some(Reset::All | Reset::When) => &[],
    }
}

/// How many entries a standard list has after PERMIT. Each ID is compared with those before it and with the list.
pub fn standard_count(command: &Permit, old: &[Entry]) -> usize
    ensures { result ≡ length (standard_after command.now old.now) }
{
    let list = standard_reset(command.reset, old);
    let whos = command.id.items.as_slice();
    match command.when {
        Some(_) => list.len(),
        None if command.delete => count_without(command, list, whos),
        None => count_with(command, list, whos),
    }
}

/// The same of a conditional list.
pub fn conditional_count(command: &Permit, old: &[CondEntry]) -> usize
    ensures { result ≡ length (conditional_after command.now old.now) }
{
    let list = conditional_reset(command.reset, old);
    let whos = command.id.items.as_slice();
    match command.when {
        Some(port) if command.delete => count_without_conditional(command, &port, list, whos),
        Some(port) => count_with_conditional(command, &port, list, whos),
        None => list.len(),
    }
}

/// How many entries are left once no ID has one.
fn count_without(command: &Permit, list: &[Entry], whos: &[Who]) -> usize
    requires { command.now.delete ≡ true }
    ensures { result ≡ length (fold (with_entry command.now) list.now whos.now) }
{
    count_left(list, whos)
}

/// The same of a conditional list.
fn count_without_conditional(
    command: &Permit,
    condition: &Condition,
    list: &[CondEntry],
    whos: &[Who],
) -> usize
    requires { command.now.delete ≡ true }
    ensures { result ≡ length (fold (with_conditional command.now condition.now) list.now whos.now) }
{
    count_left_under(condition, list, whos)
}

/// How many entries are for none of these.
fn count_left(list: &[Entry], whos: &[Who]) -> usize
    ensures { result ≡ count_by (λ entry. not (list_any (λ who. is_for who entry) whos.now)) list.now }
{
    list.iter()
        .filter(|entry| !has_any(&entry.who, whos))
        .count()
}

/// The same of a conditional list.
fn count_left_under(condition: &Condition, list: &[CondEntry], whos: &[Who]) -> usize
    ensures { result ≡ count_by (λ entry. not (list_any (λ who. is_for_under condition.now who entry) whos.now)) list.now }
{
    list.iter()
        .filter(|entry| !has_any_under(entry, condition, whos))
        .count()
}

/// Whether it is one of these.
fn has_any(who: &Who, whos: &[Who]) -> bool
    ensures { result ≡ list_any (λ other. is_same_who who.now other) whos.now }
{
    whos.iter().any(|other| is_same_who(who, other))
}

/// Whether a conditional entry is for one of these under a condition.
fn has_any_under(entry: &CondEntry, condition: &Condition, whos: &[Who]) -> bool
    ensures { result ≡ list_any (λ who. is_for_under condition.now who entry.now) whos.now }
{
    whos.iter().any(|who| is_for_under(entry, condition, who))
}

/// The command puts entries, which the definitions ask it. It does nothing: its contract is what it is for.
fn puts_entries(command: &Permit)
    requires { command.now.delete ≡ false }
    ensures { command.now.delete ≡ false }
{
    let _delete = command.delete;
}

/// How many entries there are once each ID has one.
fn count_with(command: &Permit, list: &[Entry], whos: &[Who]) -> usize
    requires { command.now.delete ≡ false }
    ensures { result ≡ length (fold (with_entry command.now) list.now whos.now) }
{
    puts_entries(command);
    let mut count = list.len() + whos.len();
    for (i, who) in whos.iter().enumerate() {
        count -= repeats(who, &whos[..i], list);
    }
    count
}

/// The same of a conditional list.
fn count_with_conditional(
    command: &Permit,
    condition: &Condition,
    list: &[CondEntry],
    whos: &[Who],
) -> usize
    requires { command.now.delete ≡ false }
    ensures { result ≡ length (fold (with_conditional command.now condition.now) list.now whos.now) }
{
    puts_entries(command);
    let mut count = list.len() + whos.len();
    for (i, who) in whos.iter().enumerate() {
        count -= repeats_under(who, &whos[..i], condition, list);
    }
    count
}

/// 1 for an ID that adds no entry, since it has one or was named before, else 0.
fn repeats(who: &Who, before: &[Who], list: &[Entry]) -> usize
    ensures { result ≡ (if list_any (is_for who.now) list.now || list_any (λ other. is_same_who other who.now) before.now then 1 else 0) }
{
    if is_listed(who, list) || is_among(who, before) {
        1
    } else {
        0
    }
}

/// The same under a condition.
fn repeats_under(who: &Who, before: &[Who], condition: &Condition, list: &[CondEntry]) -> usize
    ensures { result ≡ (if list_any (is_for_under condition.now who.now) list.now || list_any (λ other. is_same_who other who.now) before.now then 1 else 0) }
{
    if is_listed_under(who, condition, list) || is_among(who, before) {
        1
    } else {
        0
    }
}

/// Whether an ID has an entry.
fn is_listed(who: &Who, list: &[Entry]) -> bool
    ensures { result ≡ list_any (is_for who.now) list.now }
{
    list.iter().any(|entry| is_same_who(&entry.who, who))
}

/// Whether an ID has an entry under a condition.
fn is_listed_under(who: &Who, condition: &Condition, list: &[CondEntry]) -> bool
    ensures { result ≡ list_any (is_for_under condition.now who.now) list.now }
{
    list.iter().any(|entry| is_for_under(entry, condition, who))
}

/// Whether it is one of these.
fn is_among(who: &Who, whos: &[Who]) -> bool
    ensures { result ≡ list_any (λ other. is_same_who other who.now) whos.now }
{
    whos.iter().any(|other| is_same_who(other, who))
}
