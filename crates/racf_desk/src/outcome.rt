//! The outcome of a command: the tests in their order.
ghost use Rattle.std.specs.Prelude.{◌≡◌, ◌+◌, ◌≤◌, ◌^◌, ◌↔◌, None, IfOk, IsTrue, length};
ghost use Rattle.journal_records.specs.Spelling.{spelled};
ghost use Rattle.desk_rules.specs.Outcome.{command_of_text, outcome_in, refusal_of, rules_of};

use crate::issuers::issuer_of;
use access_levels::Id;
use command_authority::authorised;
use command_parser::laws::one_command_is_spelled;
use command_parser::{Command, ParseFault, parse};
use command_rules::Conflict;
use command_rules::laws::first_conflicts;
use desk_rules::{MOST_NUMBER, Refusal};
use journal_records::CommandRecord;
use journal_records::laws::{lengths_are_those_of_the_texts, written_is_read};
use racf_database::Database;
use racf_profiles::NoMemory;
use std::alloc::{AllocError, Global};

/// The most bytes that the file of a journal gets by a command (this product's own limit).
const MOST_BYTES: u64 = 1 << 28;

/// The outcome of a command over the rows, with this number of commands before it and the journal's last gate at this
/// place: the record of it where it is accepted.
#[inline(always)]
#[tactic(auto, unfolding(desk_rules::specs::Outcome::outcome_in))]
pub(crate) fn outcome_in(
    alloc: Global,
    gate: u64,
    number: u64,
    database: &Database,
    id: Id,
    group: Option<Id>,
    text: &[u8],
) -> Result<Result<CommandRecord, Refusal>, NoMemory>
    ensures outcome { IfOk result (λ outcome. outcome ≡ outcome_in gate number database.now.rows id group text.now) }
    ensures accepted { IfOk result (λ outcome. IfOk outcome (λ given. refusal_of gate number database.now.rows given ≡ None)) }
{
    let command = match command_of_text(alloc, id, text)? {
        Ok(command) => command,
        Err(why) => return Ok(Err(why)),
    };
    let issuer = match issuer_of(database, id, group) {
        Ok(issuer) => issuer,
        Err(why) => {
            drop(command);
            return Ok(Err(why));
        }
    };
    let given = CommandRecord { issuer, command };
    if let Some(why) = refusal_of(gate, number, database, &given) {
        drop(given);
        return Ok(Err(why));
    }
    Ok(Ok(given))
}

/// The command that the text spells where this issuer gives it, or its first fault.
#[inline(always)]
fn command_of_text(alloc: Global, id: Id, text: &[u8]) -> Result<Result<Command, Refusal>, NoMemory>
    ensures { IfOk result (λ read. read ≡ command_of_text id text.now) }
{
    // A text spells one command at most.
    one_command_is_spelled();
    match parse(alloc, id, text) {
        Ok(command) => Ok(Ok(command)),
        Err(ParseFault::Syntax(fault)) => Ok(Err(Refusal::Syntax(fault))),
        Err(ParseFault::NoMemory) => Err(AllocError),
    }
}

/// Why a command is refused where its issuer gives it, if it is.
#[inline(always)]
fn refusal_of(gate: u64, number: u64, database: &Database, given: &CommandRecord) -> Option<Refusal>
    ensures { result ≡ refusal_of gate number database.now.rows given.now }
{
    if let Some(why) = rules_of(database, given) {
        return Some(why);
    }
    if !has_room(gate, given) {
        return Some(Refusal::JournalFull);
    }
    if number >= MOST_NUMBER {
        return Some(Refusal::NumberSpent);
    }
    None
}

/// What the rules refuse a command for where its issuer gives it, if they do.
#[inline(always)]
pub(crate) fn rules_of(database: &Database, given: &CommandRecord) -> Option<Refusal>
    ensures { result ≡ rules_of database.now.rows given.now }
{
    // What is told before the authority is judged is the first conflict, where it comes early.
    first_conflicts();
    let CommandRecord { issuer, command } = given;
    let checked = database.check(issuer, command);
    match checked {
        Err(conflict) if conflict.is_early() => return Some(Refusal::Conflict(conflict)),
        _ => {}
    }
    if let Err(needs) = authorised(database, database.tree(), issuer, command) {
        return Some(Refusal::Need(needs));
    }
    match checked {
        Err(conflict) => Some(Refusal::Conflict(conflict)),
        Ok(()) => None,
    }
}

/// Whether a journal whose last gate is at this place has room for the record and one gate more.
fn has_room(gate: u64, given: &CommandRecord) -> bool
    ensures { IsTrue result ↔ ((gate + 1) + (length (spelled given.now) + 1) ≤ 2 ^ 28) }
{
    gate.saturating_add(2).saturating_add(record_length(given)) <= MOST_BYTES
}

/// How many bytes the record takes.
pub(crate) fn record_length(given: &CommandRecord) -> u64
    ensures { result ≡ length (spelled given.now) }
{
    written_is_read(given);
    lengths_are_those_of_the_texts();
    20 + given.command.text().len() as u64
}
