//! A checkpoint, read from the bytes of a file.

ghost use Rattle.std.specs.Prelude.{◌≡◌, ◌+◌, ◌<◌, ◌≤◌, ◌^◌, ◌⊎◌, true, Ok, length, IfOk, IfErr};
ghost use Rattle.database_image.specs.Image.{AreImageOf, rows_of, IsStored};
ghost use Rattle.racf_journal.specs.Reading.{walk};
ghost use Rattle.checkpoint_disks.specs.Files.{is_formatted, head_is_open, contents, rows_read, records_read, Answers};
ghost use Rattle.checkpoint_disks.specs.Counting.{as_read};
ghost use Rattle.checkpoint_disks.specs.Compacting.{IsHeld};

use crate::fault::CheckpointFault;
use crate::heads::read_head;
use crate::layout::IMAGE;
use access_levels::Text;
use database_image::ImageFault;
use racf_journal::{FoundRecords, JournalFault, MOST_BYTES, read_records};
use racf_profiles::Rows;
use std::alloc::Global;

/// A checkpoint that was read.
#[derive(Drop)]
pub struct Checkpoint {
    /// Which of two files counts is told by this.
    pub epoch: u64,
    /// How many commands led to the rows.
    pub number: u64,
    /// The rows.
    pub rows: Rows,
    /// The place of the journal's first gate.
    pub start: u64,
    /// The records since, in their order.
    pub records: Vec<Text>,
    /// The place of the closed gate behind them.
    pub gate: u64,
}

/// The checkpoint that the bytes of a file say.
///
/// # Errors
///
/// `Damaged` at 2^28 where the file has more bytes; else at the first field that has no lawful value: a field in front
/// of the image, then one within it, then an open gate without a whole record; and at 2^28 where the last gate has no
/// room before it. `NoMemory` where there was no room for the rows and the records.
pub fn read_file(alloc: Global, bytes: &[u8]) -> Result<Checkpoint, CheckpointFault>
    ensures contents { Answers as_read result (contents bytes.now) }
    ensures held { is_formatted bytes.now ≡ true → head_is_open bytes.now ≡ true → IfOk result (λ read. IsHeld (as_read read) bytes.now) }
{
    let head = read_head(bytes)?;
    let rows = read_rows(alloc, &bytes[IMAGE..head.start as usize])?;
    let found = read_journal(alloc, &bytes[head.start as usize..], head.start)?;
    Ok(Checkpoint {
        epoch: head.epoch,
        number: head.number,
        rows,
        start: head.start,
        records: found.records,
        gate: found.gate,
    })
}

/// The rows of an image.
fn read_rows(alloc: Global, image: &[u8]) -> Result<Rows, CheckpointFault>
    ensures read { Answers (λ rows. rows) result (rows_read (rows_of image.now)) }
    ensures found { IfOk result (λ rows. IsStored rows × AreImageOf image.now rows) }
{
    match database_image::read(alloc, image) {
        Ok(rows) => Ok(rows),
        Err(ImageFault::BadField(place)) => Err(damage(place)),
        Err(ImageFault::NoMemory) => Err(CheckpointFault::NoMemory),
    }
}

/// The records behind an image.
fn read_journal(alloc: Global, bytes: &[u8], start: u64) -> Result<FoundRecords, CheckpointFault>
    requires { start + length bytes.now < 2 ^ 64 }
    ensures read { Answers (λ found. record { records = found.records.items; gate = found.gate }) result (records_read (walk 0 start bytes.now)) }
    ensures room { IfOk result (λ found. found.gate < 2 ^ 28) }
    ensures walked { IfOk result (λ found. walk 0 start bytes.now ≡ Ok (record { records = found.records.items; gate = found.gate })) }
{
    match read_records(alloc, bytes, start) {
        Ok(found) => with_room(found),
        Err(JournalFault::Damaged(place)) => Err(CheckpointFault::Damaged(place)),
        Err(_) => Err(CheckpointFault::NoMemory),
    }
}

/// The records, where the gate behind them is one of the bytes that a file may have.
fn with_room(found: FoundRecords) -> Result<FoundRecords, CheckpointFault>
    ensures kept { IfOk result (λ kept. kept ≡ found) }
    ensures room { IfOk result (λ kept. kept.gate < 2 ^ 28) }
    ensures full { IfErr result (λ why. (why ≡ CheckpointFault.Damaged (2 ^ 28)) × (2 ^ 28 ≤ found.gate)) }
{
    if found.gate >= MOST_BYTES {
        return Err(CheckpointFault::Damaged(MOST_BYTES));
    }
    Ok(found)
}

/// The fault at a place of the image. No image is so long that its place wouldn't fit.
fn damage(place: u64) -> CheckpointFault
    ensures { (result ≡ CheckpointFault.NoMemory) ⊎ (result ≡ CheckpointFault.Damaged (33 + place)) }
{
    match place.checked_add(IMAGE as u64) {
        Some(place) => CheckpointFault::Damaged(place),
        None => CheckpointFault::NoMemory,
    }
}
