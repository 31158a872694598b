//! Which of two files counts.

ghost use Rattle.std.specs.Prelude.{◌≡◌, ◌⊎◌, ◌&&◌, nat_lt, true, false, Some, None, Err, IfOk, IfErr, OnOk};
ghost use Rattle.checkpoint_disks.specs.Files.{is_formatted, epoch_of, Answers};
ghost use Rattle.checkpoint_disks.specs.Counting.{which, file_on, said, as_read};
ghost use Rattle.checkpoint_disks.specs.Compacting.{IsHeld};

use crate::fault::CheckpointFault;
use crate::heads::{epoch_of, head_is_open, is_formatted};
use crate::reading::{Checkpoint, read_file};
use std::alloc::Global;

/// One of two disks.
#[derive(Clone, Copy, Debug, PartialEq, Eq)]
pub enum Side {
    /// The first.
    First,
    /// The second.
    Second,
}

/// How many bytes of a file tell which of two counts.
pub const TELLING: usize = 17;

/// Which of two files counts, by their first 17 bytes at least, if one does: of those with an open head gate the one of
/// the greater epoch, on equal epochs the first.
pub fn which(first: &[u8], second: &[u8]) -> Option<Side>
    ensures { result ≡ which first.now second.now }
{
    if head_is_open(first) {
        if head_is_open(second) && is_below(first, second) {
            return Some(Side::Second);
        }
        return Some(Side::First);
    }
    if head_is_open(second) {
        return Some(Side::Second);
    }
    None
}

/// Whether the first file's epoch is below the second's.
fn is_below(first: &[u8], second: &[u8]) -> bool
    ensures { result ≡ nat_lt (epoch_of first.now) (epoch_of second.now) }
{
    epoch_of(first) < epoch_of(second)
}

/// The side of the file that counts, by the first 17 bytes of two files at least.
///
/// # Errors
///
/// `NotFormatted` where a file doesn't begin as it has to, or none counts.
pub fn side_that_counts(first: &[u8], second: &[u8]) -> Result<Side, CheckpointFault>
    ensures counts { IfOk result (λ side. which first.now second.now ≡ Some side) }
    ensures formatted { OnOk result ((is_formatted first.now ≡ true) × (is_formatted second.now ≡ true)) }
    ensures nothing { IfErr result (λ why. ((is_formatted first.now && is_formatted second.now) ≡ false) ⊎ (which first.now second.now ≡ None)) }
    ensures says_nothing { IfErr result (λ why. said first.now second.now ≡ Err why) }
    ensures fault { IfErr result (λ why. why ≡ CheckpointFault.NotFormatted) }
{
    if !is_formatted(first) || !is_formatted(second) {
        return Err(CheckpointFault::NotFormatted);
    }
    which(first, second).ok_or(CheckpointFault::NotFormatted)
}

/// The checkpoint that two files say, and on which side it stands. Of the one that doesn't count the first 17 bytes are
/// enough.
///
/// # Errors
///
/// `NotFormatted` where a file doesn't begin as it has to, or none counts; else what [`read_file`] answers.
pub fn read_pair(
    alloc: Global,
    first: &[u8],
    second: &[u8],
) -> Result<(Side, Checkpoint), CheckpointFault>
    ensures said { Answers (λ read. as_read read.1) result (said first.now second.now) }
    ensures side { IfOk result (λ read. which first.now second.now ≡ Some read.0) }
    ensures formatted { OnOk result ((is_formatted first.now ≡ true) × (is_formatted second.now ≡ true)) }
    ensures held { IfOk result (λ read. IsHeld (as_read read.1) (file_on read.0 first.now second.now)) }
{
    let side = side_that_counts(first, second)?;
    let file = file_on(side, first, second);
    Ok((side, read_file(alloc, file)?))
}

/// The file on a side.
pub fn file_on<'a>(side: Side, first: &'a [u8], second: &'a [u8]) -> &'a [u8]
    ensures { result.now ≡ file_on side first.now second.now }
{
    match side {
        Side::First => first,
        Side::Second => second,
    }
}
