//! How the records of a journal are found.

ghost use Rattle.std.specs.Prelude.{◌+◌, ◌<◌, ◌≡◌, ◌≢◌, ◌^◌, ◌⊎◌, Ok, Err, length, IfOk, IfErr};
ghost use Rattle.racf_journal.specs.declared.fault.JournalFault.TheVariants as fault;
ghost use Rattle.racf_journal.specs.Reading.{walk};
ghost use Rattle.racf_journal.specs.Repair.{IsScanned};

use crate::fault::JournalFault;
use crate::gates::{gate_is_open, record_behind};
use access_levels::Text;
use std::alloc::Global;

/// What is found in a journal.
#[derive(Drop)]
pub struct FoundRecords {
    /// The open records.
    pub records: Vec<Text>,
    /// The place of the closed gate behind them.
    pub gate: u64,
}

/// The whole open records in the bytes of a file from the place `start` on, where its journal begins.
///
/// # Errors
///
/// `Damaged` at the first open gate that has no whole record behind it; `NoMemory` where there was no room for the
/// records.
pub fn read_records(alloc: Global, bytes: &[u8], start: u64) -> Result<FoundRecords, JournalFault>
    requires { start + length bytes.now < 2 ^ 64 }
    ensures read { IfOk result (λ found. walk 0 start bytes.now ≡ Ok (record { records = found.records.items; gate = found.gate })) }
    ensures found { IfOk result (λ found. IsScanned start bytes.now found.records.items found.gate) }
    ensures fault { IfErr result (λ why. (walk 0 start bytes.now ≡ Err why) ⊎ (why ≡ fault.NoMemory)) }
    ensures no_other { IfErr result (λ why. (why ≢ fault.DiskFault) × (why ≢ fault.NotFormatted) × (why ≢ fault.Full)) }
{
    let mut records = Vec::new(alloc);
    let mut rest = bytes;
    let mut gate = start;
    while gate_is_open(rest) {
        let Some(next) = record_behind(rest) else {
            return Err(JournalFault::Damaged(gate));
        };
        records.push(Text::of(alloc, next)?)?;
        gate += 1 + next.len() as u64;
        rest = &rest[1 + next.len()..];
    }
    Ok(FoundRecords { records, gate })
}
