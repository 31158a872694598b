//! How a record comes onto the disk.

ghost use Rattle.std.specs.Prelude.{ℕ, ◌+◌, ◌<◌, ◌≤◌, ◌≡◌, ◌^◌, ◌∷◌, ◌++◌, ◌⊎◌, [], List, length, IfErr, OnOk};
ghost use Rattle.racf_outside.specs.Causes.{HasCause};
ghost use Rattle.racf_outside.specs.Disk.{Now};
ghost use Rattle.racf_journal.specs.declared.fault.JournalFault.TheVariants as fault;
ghost use Rattle.racf_journal.specs.Appending.{Acknowledges, LeavesEither};
ghost use Rattle.racf_journal.specs.Kept.{IsResting, Keeps};
ghost use Rattle.racf_journal.specs.Opening.{IsCaused};
ghost use Rattle.racf_journal.specs.Reading.{magic, IsRecord};

use crate::fault::JournalFault;
use crate::layout::{CLOSED, LONGEST_COMMAND, NEW, OPEN};
use racf_outside::{Disk, Failed};
use std::alloc::Global;

/// Room for the records of most commands, with a gate. Filling more for each would cost more than the record does.
const FEW: usize = 512;

/// Room for the record of any command, with a gate.
const MOST: usize = LONGEST_COMMAND + 1;

/// Makes the file that of a new journal.
pub(crate) fn write_new<D: Disk>(disk: &mut D) -> Result<(), Failed>
    ensures done { OnOk result (Keeps magic 8 8 [] (D.tells disk.new)) }
    ensures cause { HasCause (D.faults disk.old) (D.faults disk.new) result }
{
    disk.write_at(0, &NEW)?;
    disk.cut(NEW.len() as u64)?;
    disk.sync()?;
    Ok(())
}

/// Writes a record behind the last gate and opens that. Nothing is written where memory is short, which is needed only
/// for a record that is longer than a command's.
pub(crate) fn write_record<D: Disk>(
    alloc: Global,
    disk: &mut D,
    gate: u64,
    next: &[u8],
) -> Result<(), JournalFault>
    requires room { gate < 2 ^ 28 }
    requires rest { Now (D.tells disk.old) (λ m. (start : ℕ) × IsResting start gate m) }
    requires lawful { IsRecord next.now }

    ensures acknowledged { OnOk result ((start : ℕ) → Acknowledges start gate next.now (D.tells disk.old) (D.tells disk.new)) }
    ensures moments { (start : ℕ) → LeavesEither start gate next.now (D.tells disk.old) (D.tells disk.new) }
    ensures fault { IfErr result (λ why. (why ≡ fault.DiskFault) ⊎ ((why ≡ fault.NoMemory) × (30020 < length next.now) × (disk.new ≡ disk.old))) }
    ensures cause { IfErr result (IsCaused (D.faults disk.old) (D.faults disk.new)) }
    ensures no_fewer { D.faults disk.old ≤ D.faults disk.new }
{
    if next.len() < FEW {
        write_short::<D, FEW>(disk, gate, next)?;
        return Ok(());
    }
    if next.len() <= LONGEST_COMMAND {
        write_short::<D, MOST>(disk, gate, next)?;
        return Ok(());
    }
    let mut bytes = Vec::with_capacity(alloc, next.len() + 1)?;
    bytes.extend_from_slice(next)?;
    bytes.push(CLOSED)?;
    put_behind(disk, gate, &bytes)?;
    Ok(())
}

/// Writes a record behind the last gate and opens that. It is staged in so many bytes, with the gate behind it.
fn write_short<D: Disk, const ROOM: usize>(
    disk: &mut D,
    gate: u64,
    next: &[u8],
) -> Result<(), Failed>
    requires room { gate < 2 ^ 28 }
    requires rest { Now (D.tells disk.old) (λ m. (start : ℕ) × IsResting start gate m) }
    requires lawful { IsRecord next.now }
    requires short { length next.now < ROOM }
    requires longest { ROOM ≤ 30021 }
    ensures acknowledged { OnOk result ((start : ℕ) → Acknowledges start gate next.now (D.tells disk.old) (D.tells disk.new)) }
    ensures moments { (start : ℕ) → LeavesEither start gate next.now (D.tells disk.old) (D.tells disk.new) }
    ensures cause { HasCause (D.faults disk.old) (D.faults disk.new) result }
{
    let mut bytes = [0; ROOM];
    stage(next, &mut bytes[..=next.len()]);
    put_behind(disk, gate, &bytes[..=next.len()])
}

/// Fills bytes with a record and the closed gate behind it.
fn stage(next: &[u8], bytes: &mut [u8])
    requires { length bytes.old ≡ length next.now + 1 }
    ensures { bytes.new ≡ next.now ++ 0 ∷ [] }
{
    bytes[..next.len()].copy_from_slice(next);
    bytes[next.len()] = CLOSED;
}

/// Writes a record and a closed gate behind the last gate, and then opens that. Each write is on the disk before the
/// next step is taken.
fn put_behind<D: Disk>(disk: &mut D, gate: u64, bytes: &[u8]) -> Result<(), Failed>
    requires room { gate < 2 ^ 28 }
    requires rest { Now (D.tells disk.old) (λ m. (start : ℕ) × IsResting start gate m) }
    ensures acknowledged { OnOk result ((start : ℕ) (next : List ℕ) → IsRecord next → bytes.now ≡ next ++ 0 ∷ []
        → Acknowledges start gate next (D.tells disk.old) (D.tells disk.new)) }
    ensures moments { (start : ℕ) (next : List ℕ) → IsRecord next → bytes.now ≡ next ++ 0 ∷ []
        → LeavesEither start gate next (D.tells disk.old) (D.tells disk.new) }
    ensures cause { HasCause (D.faults disk.old) (D.faults disk.new) result }
{
    disk.write_at(gate + 1, bytes)?;
    disk.sync()?; // now the record is kept, and doesn't count
    disk.write_at(gate, &[OPEN])?;
    disk.sync()?; // now it counts for good
    Ok(())
}
