//! Access lists as PERMIT makes them.
ghost use Rattle.std.specs.Prelude.{◌≡◌, ◌≤◌, false, fold, length, IfOk, OnOk};
ghost use Rattle.access_lists.specs.Lists.{most_entries};
ghost use Rattle.command_rules.specs.PermitEffects.{level_of, with_entry, with_conditional, standard_after, conditional_after, permitted_profile};

use access_levels::{CondEntry, Condition, Entry, Level, Who};
use access_lists::{ListFault, permit, permit_when, withdraw, withdraw_when};
use command_fields::Permit;
use command_rules::{conditional_reset, standard_reset};
use racf_profiles::{CondEntries, Entries, NoMemory, Profile};
use std::alloc::{AllocError, Global};

/// A profile after PERMIT.
#[inline(always)]
pub(crate) fn permitted_profile(
    alloc: Global,
    command: &Permit,
    old: &Profile,
) -> Result<Profile, NoMemory>
    requires standard_fits { command.now.delete ≡ false → length (standard_after command.now old.now.standard) ≤ most_entries }
    requires conditional_fits { command.now.delete ≡ false → length (conditional_after command.now old.now.conditional) ≤ most_entries }
    ensures { IfOk result (λ profile. profile ≡ permitted_profile command.now old.now) }
{
    let standard = standard_after(alloc, command, old.standard.items.as_slice())?;
    let conditional = conditional_after(alloc, command, old.conditional.items.as_slice())?;
    let members = old.members.copy(alloc)?;
    Ok(Profile {
        name: old.name,
        owner: old.owner,
        uacc: old.uacc,
        warning: old.warning,
        standard: Entries { items: standard },
        conditional: CondEntries { items: conditional },
        level: old.level,
        categories: old.categories,
        label: old.label,
        audit: old.audit,
        global_audit: old.global_audit,
        members,
    })
}

/// A standard list after PERMIT.
fn standard_after(alloc: Global, command: &Permit, old: &[Entry]) -> Result<Vec<Entry>, NoMemory>
    requires { command.now.delete ≡ false → length (standard_after command.now old.now) ≤ most_entries }
    ensures { IfOk result (λ list. list.items ≡ standard_after command.now old.now) }
{
    let kept = standard_reset(command.reset, old);
    let whos = command.id.items.as_slice();
    match command.when {
        Some(_) => Vec::from_slice(alloc, kept),
        None => with_entries(command, copy_with_room(alloc, kept, whos.len())?, whos),
    }
}

/// A conditional list after PERMIT.
fn conditional_after(
    alloc: Global,
    command: &Permit,
    old: &[CondEntry],
) -> Result<Vec<CondEntry>, NoMemory>
    requires { command.now.delete ≡ false → length (conditional_after command.now old.now) ≤ most_entries }
    ensures { IfOk result (λ list. list.items ≡ conditional_after command.now old.now) }
{
    let kept = conditional_reset(command.reset, old);
    let whos = command.id.items.as_slice();
    match command.when {
        Some(condition) => {
            let list = copy_with_room(alloc, kept, whos.len())?;
            with_conditionals(command, &condition, list, whos)
        }
        None => Vec::from_slice(alloc, kept),
    }
}

/// The list, copied, with room for this many entries more, so that it is copied once.
fn copy_with_room<T: Copy>(alloc: Global, list: &[T], more: usize) -> Result<Vec<T>, NoMemory>
    ensures { IfOk result (λ copy. copy.items ≡ list.now) }
{
    let mut copy = Vec::with_capacity(alloc, list.len().saturating_add(more))?;
    copy.extend_from_slice(list)?;
    Ok(copy)
}

/// The list with the entries of all IDs, or without them.
fn with_entries(command: &Permit, list: Vec<Entry>, whos: &[Who]) -> Result<Vec<Entry>, NoMemory>
    requires { command.now.delete ≡ false → length (fold (with_entry command.now) list.items whos.now) ≤ most_entries }
    ensures { IfOk result (λ after. after.items ≡ fold (with_entry command.now) list.items whos.now) }
{
    let mut list = list;
    for who in whos {
        put_entry(command, &mut list, *who)?;
    }
    Ok(list)
}

/// The same of a conditional list.
fn with_conditionals(
    command: &Permit,
    condition: &Condition,
    list: Vec<CondEntry>,
    whos: &[Who],
) -> Result<Vec<CondEntry>, NoMemory>
    requires { command.now.delete ≡ false → length (fold (with_conditional command.now condition.now) list.items whos.now) ≤ most_entries }
    ensures { IfOk result (λ after. after.items ≡ fold (with_conditional command.now condition.now) list.items whos.now) }
{
    let mut list = list;
    for who in whos {
        put_conditional(command, condition, &mut list, *who)?;
    }
    Ok(list)
}

/// Gives one ID its entry, or takes it away.
fn put_entry(command: &Permit, list: &mut Vec<Entry>, who: Who) -> Result<(), NoMemory>
    requires { command.now.delete ≡ false → length (with_entry command.now list.old.items who) ≤ most_entries }
    ensures { OnOk result (list.new.items ≡ with_entry command.now list.old.items who) }
{
    if command.delete {
        withdraw(list, who);
        return Ok(());
    }
    let level = level_of(command);
    match permit(list, Entry { who, level }) {
        Ok(()) => Ok(()),
        Err(ListFault::NoMemory) => Err(AllocError),
        Err(ListFault::Full) => unreachable!(),
    }
}

/// The same of a conditional list.
fn put_conditional(
    command: &Permit,
    condition: &Condition,
    list: &mut Vec<CondEntry>,
    who: Who,
) -> Result<(), NoMemory>
    requires { command.now.delete ≡ false → length (with_conditional command.now condition.now list.old.items who) ≤ most_entries }
    ensures { OnOk result (list.new.items ≡ with_conditional command.now condition.now list.old.items who) }
{
    if command.delete {
        withdraw_when(list, *condition, who);
        return Ok(());
    }
    let level = level_of(command);
    match permit_when(list, conditional_entry(condition, who, level)) {
        Ok(()) => Ok(()),
        Err(ListFault::NoMemory) => Err(AllocError),
        Err(ListFault::Full) => unreachable!(),
    }
}

/// An entry under a condition.
fn conditional_entry(condition: &Condition, who: Who, level: Level) -> CondEntry
    ensures { result ≡ record { condition = condition.now; who = who; level = level } }
{
    CondEntry {
        condition: *condition,
        who,
        level,
    }
}

/// The level that PERMIT gives.
fn level_of(command: &Permit) -> Level
    ensures { result ≡ level_of command.now }
{
    command.access.unwrap_or(Level::Read)
}
