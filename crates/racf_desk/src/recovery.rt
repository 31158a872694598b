//! What the records of a journal lead to, from a checkpoint on.

ghost use Rattle.std.specs.Prelude.{ℕ, ◌≡◌, ◌+◌, ◌<◌, ◌≤◌, ◌⊎◌, ◌^◌, Some, Ok, Err, length, IfOk, IfErr, OnOk};
ghost use Rattle.std.specs.Result.{result_ok};
ghost use Rattle.std.specs.Arc.{arc_value};
ghost use Rattle.journal_records.specs.Reading.{record_of};
ghost use Rattle.racf_journal.specs.Reading.{spelled};
ghost use Rattle.racf_checkpoint.specs.declared.fault.StoreFault.TheVariants.{NoMemory};
ghost use Rattle.racf_profiles.specs.State.{restart};
ghost use Rattle.database_image.specs.Image.{IsStored as AreStored};
ghost use Rattle.desk_rules.specs.Images.{IsImageOf};
ghost use Rattle.desk_rules.specs.Outcome.{most_number, judged};
ghost use Rattle.desk_rules.specs.Position.{Position, at_checkpoint, first_position};
ghost use Rattle.desk_rules.specs.Recovery.{behind_record, behind_records, recovered_from, refusal_again};
ghost use Rattle.racf_desk.specs.Recovering.{IsAt};

use crate::issuers::issuer_of;
use crate::outcome::rules_of;
use access_levels::Text;
use desk_rules::MOST_NUMBER;
use journal_records::{CommandRecord, RecordFault, read};
use racf_checkpoint::{StoreFault, a_new_database_is_stored};
use racf_database::Database;
use racf_profiles::{NoMemory, Rows};
use raclist_image::Image;
use std::alloc::Global;
use std::sync::Arc;
use stored_database::of_stored_rows;

/// A position that records lead to.
#[derive(Drop)]
pub(crate) struct Recovered {
    /// The rows.
    pub(crate) database: Database,
    /// The image of the rows, with the number of commands that led to them.
    pub(crate) image: Arc<Image>,
    /// Where the journal's last gate is.
    pub(crate) gate: u64,
}

/// A new database that isn't on any disk yet.
pub(crate) fn new_database(alloc: Global) -> Result<Recovered, StoreFault>
    ensures position { IfOk result (λ found. arc_value found.image ≡ first_position.image) }
    ensures image { IfOk result (λ found. IsImageOf found.database.rows (arc_value found.image)) }
    ensures memory { IfErr result (λ why. why ≡ NoMemory) }
{
    a_new_database_is_stored();
    let rows = Rows::new_database(alloc)?;
    let found = recover(alloc, rows, 0, 0, &[])?;
    Ok(found)
}

/// Where these records lead from a checkpoint of these rows on, which so many commands led to, and whose journal has
/// its first gate there: each where the ones before it lead.
pub(crate) fn recover(
    alloc: Global,
    rows: Rows,
    number: u64,
    start: u64,
    records: &[Text],
) -> Result<Recovered, StoreFault>
    requires stored { AreStored rows }
    requires number { number ≤ most_number }
    requires room { start + length (spelled records.now) < 2 ^ 64 }
    ensures position { IfOk result (λ found. recovered_from (at_checkpoint rows number start) records.now ≡ Ok (record { image = arc_value found.image; gate = found.gate })) }
    ensures image { IfOk result (λ found. IsImageOf found.database.rows (arc_value found.image)) }
    ensures gate { IfOk result (λ found. found.gate ≡ start + length (spelled records.now)) }
    ensures fault { IfErr result (λ why. (recovered_from (at_checkpoint rows number start) records.now ≡ Err why) ⊎ (why ≡ NoMemory)) }
{
    let mut recovery = Recovery::at(alloc, rows, number, start)?;
    recovery.repeat_all(alloc, records)?;
    match recovery.imaged(alloc) {
        Ok(found) => Ok(found),
        Err(_) => Err(StoreFault::NoMemory),
    }
}

/// How far records were repeated: a position without its image.
#[derive(Drop)]
struct Recovery {
    /// The rows.
    database: Database,
    /// How many commands led to them.
    number: u64,
    /// Where the journal's last gate is.
    gate: u64,
}

impl Recovery {
    /// A checkpoint, whose rows are moved into the database.
    fn at(alloc: Global, rows: Rows, number: u64, start: u64) -> Result<Recovery, StoreFault>
        requires stored { AreStored rows }
        requires number { number ≤ most_number }
        ensures at { IfOk result (λ recovery. IsAt recovery (at_checkpoint rows number start)) }
        ensures gate { IfOk result (λ recovery. recovery.gate ≡ start) }
        ensures memory { IfErr result (λ why. why ≡ NoMemory) }
    {
        let database = of_stored_rows(alloc, rows)?;
        Ok(Recovery {
            database,
            number,
            gate: start,
        })
    }

    /// Gives the commands of these records again, each where the ones before it lead.
    fn repeat_all(&mut self, alloc: Global, records: &[Text]) -> Result<(), StoreFault>
        requires room { self.old.gate + length (spelled records.now) < 2 ^ 64 }
        ensures leads { OnOk result ((base : Position) → IsAt self.old base
            → (position : Position) × IsAt self.new position × (behind_records records.now base ≡ Ok position)) }
        ensures gate { OnOk result (self.new.gate ≡ self.old.gate + length (spelled records.now)) }
        ensures fault { IfErr result (λ why. (why ≡ NoMemory) ⊎ ((base : Position) → IsAt self.old base → behind_records records.now base ≡ Err why)) }
    {
        for record in records {
            self.repeat(alloc, record.bytes())?;
        }
        Ok(())
    }

    /// Gives the command of a record again.
    fn repeat(&mut self, alloc: Global, bytes: &[u8]) -> Result<(), StoreFault>
        requires room { self.old.gate + 1 + length bytes.now < 2 ^ 64 }
        ensures leads { OnOk result ((position : Position) → IsAt self.old position
            → (next : Position) × IsAt self.new next × (behind_record position (record_of bytes.now) ≡ Ok next)) }
        ensures gate { OnOk result (self.new.gate ≡ self.old.gate + 1 + length bytes.now) }
        ensures fault { IfErr result (λ why. (why ≡ NoMemory) ⊎ ((position : Position) → IsAt self.old position
            → behind_record position (record_of bytes.now) ≡ Err why)) }
    {
        let given = match read(alloc, bytes) {
            Ok(given) => given,
            Err(RecordFault::NoMemory) => return Err(StoreFault::NoMemory),
            Err(_) => return Err(StoreFault::Damaged(self.gate)),
        };
        let Some(issued) = accepted_again(self.number, &self.database, given) else {
            return Err(StoreFault::Damaged(self.gate));
        };
        let prepared = self
            .database
            .prepare(alloc, &issued.issuer, &issued.command);
        drop(issued);
        let Ok(change) = prepared else {
            return Err(StoreFault::NoMemory);
        };
        self.database.apply(change);
        self.number += 1;
        self.gate += 1 + bytes.len() as u64;
        Ok(())
    }

    /// What was recovered, with the image of the rows.
    fn imaged(self, alloc: Global) -> Result<Recovered, NoMemory>
        requires within { self.number ≤ most_number }
        ensures image { IfOk result (λ recovered. arc_value recovered.image ≡ record { state = restart self.database.rows; generation = self.number }) }
        ensures rows { IfOk result (λ recovered. IsImageOf recovered.database.rows (arc_value recovered.image)) }
        ensures gate { IfOk result (λ recovered. recovered.gate ≡ self.gate) }
    {
        let Recovery {
            database,
            number,
            gate,
        } = self;
        let rows = database.to_rows(alloc)?;
        let image = Image::of(alloc, &rows, number);
        drop(rows);
        Ok(Recovered {
            database,
            image: image?,
            gate,
        })
    }
}

/// The record, as it is accepted where so many commands led to the rows.
fn accepted_again(number: u64, database: &Database, given: CommandRecord) -> Option<CommandRecord>
    ensures { result ≡ result_ok (judged (refusal_again number database.now.rows) database.now.rows given.issuer.id (Some given.issuer.group) given.command) }
{
    let CommandRecord { issuer, command } = given;
    let Ok(issuer) = issuer_of(database, issuer.id, Some(issuer.group)) else {
        drop(command);
        return None;
    };
    let given = CommandRecord { issuer, command };
    if rules_of(database, &given).is_some() || number >= MOST_NUMBER {
        drop(given);
        return None;
    }
    Some(given)
}
