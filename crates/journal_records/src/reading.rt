//! Records, read from their bytes.
ghost use Rattle.std.specs.Prelude.{◌≡◌, List, ℕ, Ok, IfOk, IfErr};
ghost use Rattle.command_fields.specs.declared.fields.CommandFields.{CommandFields};
ghost use Rattle.journal_records.specs.declared.record.CommandRecord.{CommandRecord};
ghost use Rattle.journal_records.specs.declared.record.RecordFault.TheVariants.{BadText};
ghost use Rattle.journal_records.specs.Spelling.{spelled, IsLawful};
ghost use Rattle.journal_records.specs.Reading.{or_fault, issuer_in, canonical_command, item_from, record_of, Reads, IsFault, IsUnlessMemory};

use crate::fields::{FIELD, id_in};
use crate::laws;
use crate::record::{CommandRecord, RecordFault};
use access_levels::Id;
use byteorder::{BigEndian, ByteOrder};
use command_parser::{Command, Issuer, ParseFault, parse};
use std::alloc::Global;

/// The bytes of the length.
const LENGTH: usize = 4;

/// The fewest bytes behind the length: two identifiers, and one byte of text.
const SHORTEST: usize = 17;

/// The record that the bytes spell.
///
/// # Errors
///
/// The first fault that stands: `Short`, `BadLength`, `BadIssuer`, `BadGroup`, `BadText`; `NoMemory` where there was no
/// room for the command or its canonical text.
pub fn read(alloc: Global, bytes: &[u8]) -> Result<CommandRecord, RecordFault>
    // What is read is what the bytes spell.
    ensures same { IfOk result (λ item. record_of bytes.now ≡ Ok item) }

    // So it is written again as these bytes.
    ensures found { IfOk result (λ item. bytes.now ≡ spelled item) }

    // What is spelled so is read, unless memory runs out.
    ensures only { (item : CommandRecord) → IsLawful item → bytes.now ≡ spelled item → IsUnlessMemory result item }

    // Which fault it is.
    ensures fault { IfErr result (IsFault bytes.now) }
{
    laws::records_are_their_spelling();
    read_exact(alloc, bytes)
}

/// What the bytes spell.
#[tactic(auto, unfolding(crate::specs::Reading::record_of))]
fn read_exact(alloc: Global, bytes: &[u8]) -> Result<CommandRecord, RecordFault>
    ensures { Reads result (record_of bytes.now) }
{
    if bytes.len() < LENGTH {
        return Err(RecordFault::Short);
    }
    let length = BigEndian::read_u32(bytes) as usize;
    let content = bytes.split_at(LENGTH).1;
    if length != content.len() || content.len() < SHORTEST {
        return Err(RecordFault::BadLength);
    }
    let (id, rest) = content.split_at(FIELD);
    let (group, text) = rest.split_at(FIELD);
    item(alloc, id, group, text)
}

/// The item of the two fields and the text behind the length.
fn item(alloc: Global, id: &[u8], group: &[u8], text: &[u8]) -> Result<CommandRecord, RecordFault>
    ensures { Reads result (item_from id.now group.now text.now) }
{
    let issuer = issuer(id, group)?;
    let command = command(alloc, issuer.id, text)?;
    Ok(CommandRecord { issuer, command })
}

/// The issuer of these two fields.
fn issuer(id: &[u8], group: &[u8]) -> Result<Issuer, RecordFault>
    ensures { result ≡ issuer_in id.now group.now }
{
    let Some(id) = id_in(id) else {
        return Err(RecordFault::BadIssuer);
    };
    let Some(group) = id_in(group) else {
        return Err(RecordFault::BadGroup);
    };
    match Issuer::new(id, group) {
        Some(issuer) => Ok(issuer),
        None => Err(RecordFault::BadGroup),
    }
}

/// The command whose canonical text this is.
fn command(alloc: Global, issuer: Id, text: &[u8]) -> Result<Command, RecordFault>
    ensures { Reads result (or_fault (canonical_command issuer text.now) BadText) }
{
    command_parser::laws::one_command_is_spelled();
    match parse(alloc, issuer, text) {
        Ok(command) => {
            if command.text() == text {
                Ok(command)
            } else {
                Err(RecordFault::BadText)
            }
        }
        Err(ParseFault::Syntax(_)) => Err(RecordFault::BadText),
        Err(ParseFault::NoMemory) => Err(RecordFault::NoMemory),
    }
}
