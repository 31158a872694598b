//! A new checkpoint, on the disk that doesn't count.

ghost use Rattle.std.specs.Prelude.{ℕ, ◌+◌, ◌-◌, ◌<◌, ◌≤◌, ◌≡◌, ◌≢◌, ◌^◌, ◌⊎◌, ◌++◌, ◌∷◌, [], true, false, List, Ok, length, IfOk, IfErr, OnOk};
ghost use Rattle.byteorder.specs.Endian.{big_bytes};
ghost use Rattle.racf_outside.specs.Causes.{HasCause, Rose};
ghost use Rattle.racf_outside.specs.Crashes.{Leaves, StaysIn};
ghost use Rattle.racf_outside.specs.Disk.{Now};
ghost use Rattle.racf_outside.specs.Moments.{durable};
ghost use Rattle.racf_profiles.specs.declared.rows.Rows.{Rows};
ghost use Rattle.racf_profiles.specs.Lawful.{AreLawful};
ghost use Rattle.database_image.specs.Image.{image_of, IsStored};
ghost use Rattle.database_image.specs.Spelled.{AreSpelled};
ghost use Rattle.checkpoint_disks.specs.Compacting.{IsIdle, IsOneOf, CountsBeside, SaysEither, said_beside, fields, new_file, new_checkpoint};
ghost use Rattle.checkpoint_disks.specs.Files.{head_is_open};
ghost use Rattle.checkpoint_disks.specs.Made.{IsMade};
ghost use Rattle.checkpoint_disks.specs.declared.counting.Side.{Side};
ghost use Rattle.checkpoint_disks.specs.declared.fault.CheckpointFault.TheVariants as fault;

use crate::fault::CheckpointFault;
use crate::laws::{a_new_file_says_its_checkpoint, an_open_head_has_its_body};
use crate::layout::{CLOSED, IMAGE};
use crate::writing::write_behind;
use database_image::laws::lawful_rows_are_stored;
use racf_journal::MOST_BYTES;
use racf_outside::{Disk, Failed};
use racf_profiles::{NoMemory, Rows};
use std::alloc::{AllocError, Global};

/// A checkpoint as it will be written.
#[derive(Drop)]
pub struct NewCheckpoint {
    /// The fields in front of the image.
    pub fields: Vec<u8>,
    /// The image of the rows, and the closed gate of a journal behind it.
    pub image: Vec<u8>,
}

/// Writes a checkpoint of rows on the disk whose file doesn't count: with an epoch above that of the other file it
/// counts from then on. At every moment a crash leaves the file as it was, one whose head gate is closed, or the new
/// one; so that beside the other file it says what that says, or the new checkpoint. Where its head gate was closed, it
/// is open in the new file alone: the gate is written only once all behind it is kept. After `Ok` a crash leaves the new
/// one. The place of its journal's one gate is answered.
///
/// # Errors
///
/// `NoMemory` before anything was written; `DiskFault` where the disk failed.
pub fn compact<D: Disk>(
    alloc: Global,
    idle: &mut D,
    epoch: u64,
    number: u64,
    rows: &Rows,
) -> Result<u64, CheckpointFault>
    requires idle { Now (D.tells idle.old) IsIdle }
    requires lawful { AreLawful rows.now }
    requires number { number ≤ 2 ^ 62 }

    ensures start { IfOk result (λ start. start ≡ 33 + length (image_of rows.now)) }
    ensures stored { OnOk result (IsStored rows.now) }
    ensures fits { OnOk result (34 + length (image_of rows.now) ≤ 2 ^ 28) }
    ensures done { OnOk result (Now (D.tells idle.new) (λ m. m ≡ durable (new_file epoch number rows.now))) }
    ensures counts { OnOk result ((side : Side) (live before : List ℕ) → CountsBeside side before live epoch
        → Now (D.tells idle.new) (Leaves (λ file. said_beside side file live ≡ Ok (new_checkpoint epoch number rows.now)))) }
    ensures files { (before : List ℕ) → Now (D.tells idle.old) (λ m. m.bytes ≡ before)
        → StaysIn (IsOneOf before (new_file epoch number rows.now)) (D.tells idle.old) (D.tells idle.new) }
    ensures moments { (side : Side) (live before : List ℕ) → CountsBeside side before live epoch → Now (D.tells idle.old) (λ m. m.bytes ≡ before)
        → StaysIn (SaysEither side live (new_checkpoint epoch number rows.now)) (D.tells idle.old) (D.tells idle.new) }
    ensures body { (before : List ℕ) → Now (D.tells idle.old) (λ m. m.bytes ≡ before) → 9 ≤ length before → head_is_open before ≡ false
        → StaysIn (λ file. head_is_open file ≡ true → file ≡ new_file epoch number rows.now) (D.tells idle.old) (D.tells idle.new) }

    ensures fault { IfErr result (λ why. (why ≡ fault.DiskFault) ⊎ ((why ≡ fault.NoMemory) × (idle.new ≡ idle.old))) }
    ensures cause { IfErr result (λ why. why ≡ fault.DiskFault → Rose (D.faults idle.old) (D.faults idle.new)) }
    ensures no_fewer { D.faults idle.old ≤ D.faults idle.new }
{
    a_new_file_says_its_checkpoint();
    an_open_head_has_its_body();
    let new = prepare(alloc, epoch, number, rows)?;
    write(idle, &new)?;
    Ok(new.start())
}

/// A checkpoint of rows, as it will be written. This takes all the memory that writing it takes. Rows are never so many
/// that a file has no room for their image: that would be want of memory too.
pub fn prepare(
    alloc: Global,
    epoch: u64,
    number: u64,
    rows: &Rows,
) -> Result<NewCheckpoint, NoMemory>
    requires lawful { AreLawful rows.now }
    ensures { IfOk result (IsMade epoch number rows.now) }
{
    lawful_rows_are_stored();
    let image = image_and_gate(alloc, rows)?;
    if image.len() as u64 > MOST_BYTES - IMAGE as u64 {
        return Err(AllocError);
    }
    let fields = fields_of(alloc, epoch, number, image.len() as u64 - 1)?;
    Ok(NewCheckpoint { fields, image })
}

/// Writes a checkpoint that was prepared on the disk whose file doesn't count. At every moment a crash leaves the file
/// as it was, one whose head gate is closed, or the new one.
pub fn write<D: Disk>(idle: &mut D, new: &NewCheckpoint) -> Result<(), Failed>
    requires idle { Now (D.tells idle.old) IsIdle }
    requires fields { length new.now.fields.items ≡ 24 }
    ensures done { OnOk result ((epoch number : ℕ) (rows : Rows) → IsMade epoch number rows new.now
        → Now (D.tells idle.new) (λ m. m ≡ durable (new_file epoch number rows))) }
    ensures files { (epoch number : ℕ) (rows : Rows) (before : List ℕ) → IsMade epoch number rows new.now → Now (D.tells idle.old) (λ m. m.bytes ≡ before)
        → StaysIn (IsOneOf before (new_file epoch number rows)) (D.tells idle.old) (D.tells idle.new) }
    ensures cause { HasCause (D.faults idle.old) (D.faults idle.new) result }
{
    write_behind(idle, &new.fields, &new.image)
}

impl NewCheckpoint {
    /// The place of its journal's one gate.
    pub fn start(&self) -> u64
        requires { (0 < length self.now.image.items) }
        ensures { result + 1 ≡ 33 + length self.now.image.items }
    {
        IMAGE as u64 + (self.image.len() as u64 - 1)
    }
}

/// The image of rows, and the closed gate of a journal behind it.
fn image_and_gate(alloc: Global, rows: &Rows) -> Result<Vec<u8>, NoMemory>
    ensures image { IfOk result (λ bytes. bytes.items ≡ image_of rows.now ++ 0 ∷ []) }
    ensures spelled { IfOk result (λ bytes. AreSpelled rows.now) }
{
    let mut bytes = database_image::write(alloc, rows)?;
    bytes.push(CLOSED)?;
    Ok(bytes)
}

/// The fields in front of an image of that size.
#[tactic(auto, unfolding(crate::specs::Compacting::fields))]
fn fields_of(alloc: Global, epoch: u64, number: u64, size: u64) -> Result<Vec<u8>, NoMemory>
    ensures bytes { IfOk result (λ bytes. bytes.items ≡ fields epoch number size) }
    ensures size { IfOk result (λ bytes. length bytes.items ≡ 24) }
{
    let mut bytes = Vec::new(alloc);
    put_number(&mut bytes, epoch)?;
    put_number(&mut bytes, number)?;
    put_number(&mut bytes, size)?;
    Ok(bytes)
}

/// A number of eight bytes.
fn put_number(bytes: &mut Vec<u8>, number: u64) -> Result<(), NoMemory>
    ensures { OnOk result (bytes.new.items ≡ bytes.old.items ++ big_bytes 8 number) }
{
    bytes.extend_from_slice(&number.to_be_bytes())
}
