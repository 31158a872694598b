//! How two disks are read.

ghost use Rattle.std.specs.Prelude.{◌+◌, ◌≤◌, ◌≡◌, ◌≢◌, ◌⊎◌, ◌^◌, length, take, drop, Some, Err, IfOk, IfErr, OnOk, OnErr};
ghost use Rattle.racf_outside.specs.Causes.{Rose};
ghost use Rattle.racf_outside.specs.Disk.{Now};
ghost use Rattle.racf_outside.specs.Moments.{durable};
ghost use Rattle.racf_journal.specs.Opening.{OnlySynced};
ghost use Rattle.checkpoint_disks.specs.Counting.{which, as_read};
ghost use Rattle.racf_checkpoint.specs.Contents.{contents, Refuses, IsCaused, IsCausedByOne};
ghost use Rattle.racf_checkpoint.specs.Stored.{NowRead, StaysPossible, pick};
ghost use Rattle.racf_checkpoint.specs.Finding.{IsSaid, IsSeen};
ghost use Rattle.racf_checkpoint.specs.declared.fault.StoreFault.TheVariants as fault;

use crate::fault::StoreFault;
use access_levels::Text;
use checkpoint_disks::{Checkpoint, Side, TELLING, file_on, read_pair, side_that_counts};
use racf_journal::{MOST_BYTES, read_front};
use racf_outside::{Disk, Failed};
use std::alloc::{AllocError, Global};

/// How many bytes are read of the file that counts: one more than it may have.
const MOST_READ: usize = MOST_BYTES as usize + 1;

/// What is seen on two disks.
#[derive(Drop)]
pub(crate) struct Seen {
    /// Which of them counts.
    pub(crate) side: Side,
    /// Its checkpoint, and the records behind that.
    pub(crate) checkpoint: Checkpoint,
    /// The bytes of its file from the last gate on.
    pub(crate) end: Text,
}

/// Syncs both disks and reads them.
pub(crate) fn read_disks<D: Disk>(
    alloc: Global,
    first: &mut D,
    second: &mut D,
) -> Result<Seen, StoreFault>
    ensures seen { IfOk result (λ seen. IsSeen (D.tells first.new) (D.tells second.new) seen.side (as_read seen.checkpoint) seen.end) }
    ensures synced { OnOk result (OnlySynced (D.tells first.old) (D.tells first.new) × OnlySynced (D.tells second.old) (D.tells second.new)) }
    ensures moments { StaysPossible (D.tells first.old) (D.tells first.new) × StaysPossible (D.tells second.old) (D.tells second.new) }
    ensures fault { IfErr result (λ why. NowRead (D.tells first.old) (D.tells second.old) (Refuses why)) }
    ensures no_other { IfErr result (λ why. why ≢ fault.Full) }
    ensures untouched { IfErr result (λ why. why ≢ fault.DiskFault → OnlySynced (D.tells first.old) (D.tells first.new) × OnlySynced (D.tells second.old) (D.tells second.new)) }
    ensures cause { IfErr result (IsCausedByOne (D.faults first.old) (D.faults first.new) (D.faults second.old) (D.faults second.new)) }
    ensures first_no_fewer { D.faults first.old ≤ D.faults first.new }
    ensures second_no_fewer { D.faults second.old ≤ D.faults second.new }
{
    sync_both(first, second)?;
    let seen = look(alloc, first, second)?;
    Ok(seen)
}

/// Syncs both disks, the first one first.
pub(crate) fn sync_both<D: Disk>(first: &mut D, second: &mut D) -> Result<(), Failed>
    ensures synced { OnOk result (OnlySynced (D.tells first.old) (D.tells first.new) × OnlySynced (D.tells second.old) (D.tells second.new)) }
    ensures moments { StaysPossible (D.tells first.old) (D.tells first.new) × StaysPossible (D.tells second.old) (D.tells second.new) }
    ensures cause { OnErr result (Rose (D.faults first.old) (D.faults first.new) ⊎ Rose (D.faults second.old) (D.faults second.new)) }
    ensures first_no_fewer { D.faults first.old ≤ D.faults first.new }
    ensures second_no_fewer { D.faults second.old ≤ D.faults second.new }
{
    first.sync()?;
    second.sync()?;
    Ok(())
}

/// Reads both disks, on which nothing is in doubt.
fn look<D: Disk>(alloc: Global, first: &mut D, second: &mut D) -> Result<Seen, StoreFault>
    requires first { Now (D.tells first.old) (λ m. m ≡ durable m.bytes) }
    requires second { Now (D.tells second.old) (λ m. m ≡ durable m.bytes) }
    ensures seen { IfOk result (λ seen. IsSeen (D.tells first.new) (D.tells second.new) seen.side (as_read seen.checkpoint) seen.end) }
    ensures kept { (D.tells first.new ≡ D.tells first.old) × (D.tells second.new ≡ D.tells second.old) }
    ensures fault { IfErr result (λ why. NowRead (D.tells first.old) (D.tells second.old) (Refuses why)) }
    ensures no_other { IfErr result (λ why. why ≢ fault.Full) }
    ensures cause { IfErr result (IsCausedByOne (D.faults first.old) (D.faults first.new) (D.faults second.old) (D.faults second.new)) }
    ensures first_no_fewer { D.faults first.old ≤ D.faults first.new }
    ensures second_no_fewer { D.faults second.old ≤ D.faults second.new }
{
    let parts = read_parts(alloc, first, second)?;
    let seen = see(alloc, &parts.one, &parts.two)?;
    Ok(seen)
}

/// What was read of two files.
#[derive(Drop)]
struct Parts {
    /// Which of them counts.
    side: Side,
    /// The first one's bytes: where it counts up to one more than a file may have, else those that tell that.
    one: Vec<u8>,
    /// The second one's.
    two: Vec<u8>,
}

/// Reads of both disks what tells which counts, and the file that does.
fn read_parts<D: Disk>(alloc: Global, first: &mut D, second: &mut D) -> Result<Parts, StoreFault>
    ensures first_part { IfOk result (λ parts. Now (D.tells first.old) (λ m. parts.one.items ≡ take (pick parts.side (2 ^ 28 + 1) 17) m.bytes)) }
    ensures second_part { IfOk result (λ parts. Now (D.tells second.old) (λ m. parts.two.items ≡ take (pick parts.side 17 (2 ^ 28 + 1)) m.bytes)) }
    ensures counts { IfOk result (λ parts. NowRead (D.tells first.old) (D.tells second.old) (λ one two. which one two ≡ Some parts.side)) }
    ensures short { IfOk result (λ parts. length (pick parts.side parts.two.items parts.one.items) ≤ 17) }
    ensures kept { (D.tells first.new ≡ D.tells first.old) × (D.tells second.new ≡ D.tells second.old) }
    ensures fault { IfErr result (λ why. NowRead (D.tells first.old) (D.tells second.old) (Refuses why)) }
    ensures no_other { IfErr result (λ why. why ≢ fault.Full) }
    ensures cause { IfErr result (IsCausedByOne (D.faults first.old) (D.faults first.new) (D.faults second.old) (D.faults second.new)) }
    ensures first_no_fewer { D.faults first.old ≤ D.faults first.new }
    ensures second_no_fewer { D.faults second.old ≤ D.faults second.new }
{
    let one = read_telling(alloc, first)?;
    let two = read_telling(alloc, second)?;
    let side = side_that_counts(&one, &two)?;
    match side {
        Side::First => {
            let one = read_front(alloc, first, MOST_READ)?;
            Ok(Parts { side, one, two })
        }
        Side::Second => {
            let two = read_front(alloc, second, MOST_READ)?;
            Ok(Parts { side, one, two })
        }
    }
}

/// The bytes of a file that tell which of two counts, in one read.
fn read_telling<D: Disk>(alloc: Global, disk: &mut D) -> Result<Vec<u8>, StoreFault>
    ensures bytes { IfOk result (λ bytes. Now (D.tells disk.old) (λ m. bytes.items ≡ take 17 m.bytes)) }
    ensures room { IfOk result (λ bytes. length bytes.items ≤ 17) }
    ensures kept { D.tells disk.new ≡ D.tells disk.old }
    ensures fault { IfErr result (λ why. (why ≡ fault.DiskFault) ⊎ (why ≡ fault.NoMemory)) }
    ensures cause { IfErr result (IsCaused (D.faults disk.old) (D.faults disk.new)) }
    ensures no_fewer { D.faults disk.old ≤ D.faults disk.new }
{
    let mut bytes = [0; TELLING];
    let count = disk.read(0, &mut bytes)?;
    let mut front = Vec::new(alloc);
    front.extend_from_slice(&bytes[..count])?;
    Ok(front)
}

/// What the bytes of two files say.
fn see(alloc: Global, first: &[u8], second: &[u8]) -> Result<Seen, StoreFault>
    ensures said { IfOk result (λ seen. IsSaid first.now second.now seen.side (as_read seen.checkpoint) seen.end) }
    ensures fault { IfErr result (λ why. (contents first.now second.now ≡ Err why) ⊎ (why ≡ fault.NoMemory)) }
    ensures no_other { IfErr result (λ why. (why ≢ fault.DiskFault) × (why ≢ fault.Full)) }
{
    let (side, checkpoint) = read_pair(alloc, first, second)?;
    let file = file_on(side, first, second);
    let end = end_of(alloc, file, checkpoint.gate)?;
    Ok(Seen {
        side,
        checkpoint,
        end,
    })
}

/// The bytes of a file from its last gate on.
fn end_of(alloc: Global, file: &[u8], gate: u64) -> Result<Text, AllocError>
    requires { gate ≤ length file.now }
    ensures { IfOk result (λ end. end ≡ drop gate file.now) }
{
    Text::of(alloc, &file[gate as usize..])
}
