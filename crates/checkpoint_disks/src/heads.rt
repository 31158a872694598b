//! The fields in front of an image.

ghost use Rattle.std.specs.Prelude.{◌≡◌, ◌+◌, ◌<◌, ◌≤◌, ◌^◌, length, IfOk};
ghost use Rattle.checkpoint_disks.specs.Files.{is_formatted, head_is_open, epoch_of, number_at, head_of};

use crate::fault::CheckpointFault;
use crate::layout::{EPOCH, HEAD, IMAGE, LENGTH, MAGIC, MOST_NUMBER, NUMBER, OPEN};
use byteorder::{BigEndian, ByteOrder};
use racf_journal::MOST_BYTES;

/// What stands in front of an image.
#[derive(Drop)]
pub(crate) struct Head {
    /// Which of two files counts is told by this.
    pub(crate) epoch: u64,
    /// How many commands led to the rows.
    pub(crate) number: u64,
    /// The place behind the image, where the journal begins.
    pub(crate) start: u64,
}

/// Whether a file begins as it has to.
pub(crate) fn is_formatted(bytes: &[u8]) -> bool
    ensures { result ≡ is_formatted bytes.now }
{
    bytes[..bytes.len().min(8)] == MAGIC[..]
}

/// Whether the head gate is open: any byte but X'01' is a closed gate, and so is none.
pub(crate) fn head_is_open(bytes: &[u8]) -> bool
    ensures { result ≡ head_is_open bytes.now }
{
    bytes.len() > HEAD as usize && bytes[HEAD as usize] == OPEN
}

/// The epoch, 0 where the file ends within it.
#[tactic(auto, unfolding(crate::specs::Files::epoch_of))]
pub(crate) fn epoch_of(bytes: &[u8]) -> u64
    ensures { result ≡ epoch_of bytes.now }
{
    if bytes.len() < NUMBER {
        return 0;
    }
    number_at(bytes, EPOCH)
}

/// The number in the eight bytes at a place.
#[tactic(auto, unfolding(crate::specs::Files::number_at))]
fn number_at(bytes: &[u8], place: usize) -> u64
    requires { place + 8 ≤ length bytes.now }
    ensures { result ≡ number_at place bytes.now }
{
    BigEndian::read_u64(&bytes[place..])
}

/// The fields in front of the image, or the first of them that has no lawful value.
#[tactic(auto, unfolding(crate::specs::Files::head_of))]
pub(crate) fn read_head(bytes: &[u8]) -> Result<Head, CheckpointFault>
    ensures value { result ≡ head_of bytes.now }
    ensures some { IfOk result (λ head. 0 < head.epoch) }
    ensures epoch { IfOk result (λ head. head.epoch ≡ epoch_of bytes.now) }
    ensures number { IfOk result (λ head. (head.number ≤ 2 ^ 62) × (head.number ≡ number_at 17 bytes.now)) }
    ensures size { IfOk result (λ head. head.start ≡ 33 + number_at 25 bytes.now) }
    ensures behind { IfOk result (λ head. 33 ≤ head.start) }
    ensures within { IfOk result (λ head. head.start ≤ length bytes.now) }
    ensures short { IfOk result (λ head. length bytes.now ≤ 2 ^ 28) }
{
    if bytes.len() as u64 > MOST_BYTES {
        return Err(CheckpointFault::Damaged(MOST_BYTES));
    }
    let epoch = epoch_of(bytes);
    if epoch == 0 {
        return Err(CheckpointFault::Damaged(EPOCH as u64));
    }
    if bytes.len() < LENGTH {
        return Err(CheckpointFault::Damaged(NUMBER as u64));
    }
    let number = number_at(bytes, NUMBER);
    if number > MOST_NUMBER {
        return Err(CheckpointFault::Damaged(NUMBER as u64));
    }
    if bytes.len() < IMAGE {
        return Err(CheckpointFault::Damaged(LENGTH as u64));
    }
    let length = number_at(bytes, LENGTH);
    if length > (bytes.len() - IMAGE) as u64 {
        return Err(CheckpointFault::Damaged(LENGTH as u64));
    }
    let start = IMAGE as u64 + length;
    Ok(Head {
        epoch,
        number,
        start,
    })
}
