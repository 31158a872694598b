//! How a file is read.

ghost use Rattle.std.specs.Prelude.{◌+◌, ◌-◌, ◌<◌, ◌≤◌, ◌≡◌, ◌^◌, ◌⊎◌, min, length, take, drop, vec_len, IfOk, IfErr, bytes_eq};
ghost use Rattle.racf_outside.specs.Causes.{HasCause};
ghost use Rattle.racf_outside.specs.Disk.{Now};
ghost use Rattle.racf_journal.specs.declared.fault.JournalFault.TheVariants as fault;
ghost use Rattle.racf_journal.specs.Opening.{IsCaused};
ghost use Rattle.racf_journal.specs.Reading.{is_formatted};

use crate::fault::JournalFault;
use crate::layout::{FIRST_START, MAGIC};
use racf_outside::{Disk, Failed};
use std::alloc::{AllocError, Global};

/// How many bytes are read at once.
const BLOCK: usize = 65_536;

/// Whether the file may hold a journal that begins at `start`.
pub(crate) fn is_formatted<D: Disk>(disk: &mut D, start: u64) -> Result<bool, Failed>
    ensures value { IfOk result (λ formatted. Now (D.tells disk.old) (λ m. formatted ≡ is_formatted start m.bytes)) }
    ensures kept { D.tells disk.new ≡ D.tells disk.old }
    ensures cause { HasCause (D.faults disk.old) (D.faults disk.new) result }
{
    if start > FIRST_START {
        return Ok(true);
    }
    let mut bytes = [0; 8];
    let count = disk.read(0, &mut bytes)?;
    Ok(bytes[..count] == MAGIC[..])
}

/// The bytes of a file from a place on. It is only read.
///
/// # Errors
///
/// `DiskFault` where the disk failed, and `NoMemory` where there was no room for the bytes.
pub fn read_from<D: Disk>(alloc: Global, disk: &mut D, start: u64) -> Result<Vec<u8>, JournalFault>
    ensures bytes { IfOk result (λ bytes. Now (D.tells disk.old) (λ m. bytes.items ≡ drop start m.bytes)) }
    ensures room { IfOk result (λ bytes. start + length bytes.items < 2 ^ 64) }
    ensures kept { D.tells disk.new ≡ D.tells disk.old }
    ensures fault { IfErr result (λ why. (why ≡ fault.DiskFault) ⊎ (why ≡ fault.NoMemory)) }
    ensures cause { IfErr result (IsCaused (D.faults disk.old) (D.faults disk.new)) }
    ensures no_fewer { D.faults disk.old ≤ D.faults disk.new }
{
    let mut block = zeros(alloc, BLOCK)?;
    let mut bytes = Vec::new(alloc);
    'block: loop {
        let Some(place) = start.checked_add(bytes.len() as u64) else {
            return Err(JournalFault::NoMemory);
        };
        let count = disk.read(place, &mut block)?;
        if count == 0 {
            return Ok(bytes);
        }
        bytes.extend_from_slice(&block[..count])?;
    }
}

/// The first bytes of a file, at most so many. It is only read, and no byte behind them is.
///
/// # Errors
///
/// `DiskFault` where the disk failed, and `NoMemory` where there was no room for the bytes.
pub fn read_front<D: Disk>(
    alloc: Global,
    disk: &mut D,
    most: usize,
) -> Result<Vec<u8>, JournalFault>
    ensures bytes { IfOk result (λ bytes. Now (D.tells disk.old) (λ m. bytes.items ≡ take most m.bytes)) }
    ensures room { IfOk result (λ bytes. length bytes.items ≤ most) }
    ensures kept { D.tells disk.new ≡ D.tells disk.old }
    ensures fault { IfErr result (λ why. (why ≡ fault.DiskFault) ⊎ (why ≡ fault.NoMemory)) }
    ensures cause { IfErr result (IsCaused (D.faults disk.old) (D.faults disk.new)) }
    ensures no_fewer { D.faults disk.old ≤ D.faults disk.new }
{
    let mut block = zeros(alloc, BLOCK)?;
    let mut bytes = Vec::new(alloc);
    'block: loop {
        let count = read_part(disk, bytes.len() as u64, &mut block, most - bytes.len())?;
        if count == 0 {
            return Ok(bytes);
        }
        bytes.extend_from_slice(&block[..count])?;
    }
}

/// Fills `into` from a place on with at most so many bytes, and answers how many it found there.
fn read_part<D: Disk>(
    disk: &mut D,
    place: u64,
    into: &mut [u8],
    most: usize,
) -> Result<usize, Failed>
    ensures count { IfOk result (λ n. (n ≤ length into.new) × (n ≤ most)) }
    ensures found { IfOk result (λ n. Now (D.tells disk.old) (λ m. (n ≡ min (min most (length into.new)) (length m.bytes - place))
        × (take n into.new ≡ take n (drop place m.bytes)))) }
    ensures kept { D.tells disk.new ≡ D.tells disk.old }
    ensures cause { HasCause (D.faults disk.old) (D.faults disk.new) result }
{
    let room = most.min(into.len());
    disk.read(place, &mut into[..room])
}

/// A buffer of this many bytes.
fn zeros(alloc: Global, count: usize) -> Result<Vec<u8>, AllocError>
    ensures { IfOk result (λ buffer. vec_len buffer ≡ count) }
{
    vec![in alloc; 0; count]
}
