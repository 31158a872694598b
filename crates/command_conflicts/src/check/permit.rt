//! Whom PERMIT names, and how many entries there may be after it.
ghost use Rattle.std.specs.Prelude.{◌≡◌, find, option_and_then};
ghost use Rattle.std.specs.Option.{option_copied};
ghost use Rattle.std.specs.Result.{result_err};
ghost use Rattle.racf_profiles.specs.Counts.{entries_in};
ghost use Rattle.racf_profiles.specs.Lookup.{profile_of};
ghost use Rattle.command_rules.specs.ProfileConflicts.{is_unknown, named_unknown, no_permitted, standard_full, conditional_full, entries_full};

use super::names::is_taken;
use crate::limits::{check_count, check_sum};
use access_levels::Who;
use access_lists::MOST_ENTRIES;
use class_profiles::MOST_ENTRIES_IN_ALL;
use command_fields::{Issuer, Permit};
use command_rules::{Conflict, Limit, conditional_count, standard_count};
use racf_profiles::Profile;
use row_tables::RowTables;

/// Each ID that gets access is `*`, a user or a group.
#[inline(always)]
#[tactic(auto, unfolding(command_rules::specs::ProfileConflicts::no_permitted))]
pub(super) fn check_permitted(tables: &RowTables, command: &Permit) -> Result<(), Conflict>
    ensures { result_err result ≡ no_permitted command.now.delete command.now.id tables.now.rows }
{
    if command.delete {
        return Ok(());
    }
    check_whos(tables, command.id.items.as_slice())
}

/// The same of each of them.
#[inline(always)]
fn check_whos(tables: &RowTables, whos: &[Who]) -> Result<(), Conflict>
    ensures { result_err result ≡ option_and_then named_unknown (find (is_unknown tables.now.rows) whos.now) }
{
    match first_unknown(tables, whos) {
        Some(who) => check_named(who),
        None => Ok(()),
    }
}

/// The first that is neither `*`, a user nor a group.
fn first_unknown(tables: &RowTables, whos: &[Who]) -> Option<Who>
    ensures { result ≡ find (is_unknown tables.now.rows) whos.now }
{
    whos.iter().copied().find(|who| is_unknown(tables, who))
}

/// Whether it is an ID that neither a user nor a group has.
fn is_unknown(tables: &RowTables, who: &Who) -> bool
    ensures { result ≡ is_unknown tables.now.rows who.now }
{
    match who {
        Who::Star => false,
        Who::Named(id) => !is_taken(tables, *id),
    }
}

/// The profile's standard list is within the limit after PERMIT. In this test and the two behind it the profile is the
/// one that was looked up for the command.
#[inline(always)]
pub(super) fn check_standard_fits(
    tables: &RowTables,
    issuer: &Issuer,
    command: &Permit,
    found: Option<&Profile>,
) -> Result<(), Conflict>
    requires { option_copied found ≡ profile_of command.now.class command.now.profile tables.now.rows }
    ensures { result_err result ≡ standard_full issuer.now command.now tables.now.rows }
{
    match found {
        None => Ok(()),
        Some(old) => check_count(
            Limit::Entries,
            MOST_ENTRIES,
            standard_count(command, old.standard.items.as_slice()),
        ),
    }
}

/// The profile's conditional list is within the limit after PERMIT.
#[inline(always)]
pub(super) fn check_conditional_fits(
    tables: &RowTables,
    issuer: &Issuer,
    command: &Permit,
    found: Option<&Profile>,
) -> Result<(), Conflict>
    requires { option_copied found ≡ profile_of command.now.class command.now.profile tables.now.rows }
    ensures { result_err result ≡ conditional_full issuer.now command.now tables.now.rows }
{
    match found {
        None => Ok(()),
        Some(old) => check_count(
            Limit::Entries,
            MOST_ENTRIES,
            conditional_count(command, old.conditional.items.as_slice()),
        ),
    }
}

/// The entries of all lists are within the limit after PERMIT.
#[inline(always)]
pub(super) fn check_entries_fit(
    tables: &RowTables,
    issuer: &Issuer,
    command: &Permit,
    found: Option<&Profile>,
) -> Result<(), Conflict>
    requires { option_copied found ≡ profile_of command.now.class command.now.profile tables.now.rows }
    ensures { result_err result ≡ entries_full issuer.now command.now tables.now.rows }
{
    tables.what_is_kept();
    class_profiles::laws::puts_are_counted();
    match found {
        None => Ok(()),
        Some(old) => check_sum(
            Limit::AllEntries,
            MOST_ENTRIES_IN_ALL,
            tables.classes().entries().saturating_sub(entries_in(old)),
            standard_count(command, old.standard.items.as_slice()),
            conditional_count(command, old.conditional.items.as_slice()),
        ),
    }
}

/// An ID that is refused.
#[inline(always)]
fn check_named(who: Who) -> Result<(), Conflict>
    ensures { result_err result ≡ named_unknown who }
{
    match who {
        Who::Star => Ok(()),
        Who::Named(id) => Err(Conflict::NoUser(id)),
    }
}

/// How many entries a profile has.
fn entries_in(profile: &Profile) -> usize
    ensures { result ≡ entries_in profile.now }
{
    profile.standard.items.len() + profile.conditional.items.len()
}
