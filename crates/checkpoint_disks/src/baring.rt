//! How a file is made one without a checkpoint.

ghost use Rattle.std.specs.Prelude.{◌≡◌, ◌⊎◌, ◌==◌, ◌&&◌, nat_lt, false, [], List, ℕ, length, slice_index, IfOk, OnOk};
ghost use Rattle.racf_outside.specs.Causes.{HasCause};
ghost use Rattle.racf_outside.specs.Crashes.{StaysIn};
ghost use Rattle.racf_outside.specs.Disk.{Now};
ghost use Rattle.racf_outside.specs.Moments.{durable};
ghost use Rattle.checkpoint_disks.specs.Baring.{SaysNothing, IsBaring, first_to_go};
ghost use Rattle.checkpoint_disks.specs.Compacting.{with_head};
ghost use Rattle.checkpoint_disks.specs.Files.{head_is_open};

use crate::counting::{Side, which};
use crate::heads::is_formatted;
use crate::layout::{BARE, CLOSED, HEAD, OPEN};
use racf_outside::{Disk, Failed};

/// Of two files, by their first 17 bytes at least, the one that is made bare first: the one that doesn't count. Where
/// one doesn't begin as it has to, the two say nothing, and the other is first, so that it doesn't come to be said.
pub fn first_to_go(first: &[u8], second: &[u8]) -> Side
    ensures { result ≡ first_to_go first.now second.now }
{
    let begins = is_formatted(first);
    if begins && is_formatted(second) {
        return match which(first, second) {
            Some(Side::First) => Side::Second,
            Some(Side::Second) | None => Side::First,
        };
    }
    if begins { Side::First } else { Side::Second }
}

/// Makes the file of a disk one without a checkpoint, whatever it was: its first eight bytes, and a closed head gate.
/// At every moment a crash leaves the file as it was, or one that says nothing: an open head gate is closed before
/// anything behind it is cut off.
pub fn make_bare<D: Disk>(disk: &mut D) -> Result<(), Failed>
    requires still { Now (D.tells disk.old) (λ m. m ≡ durable m.bytes) }
    ensures done { OnOk result (Now (D.tells disk.new) (λ m. m ≡ durable (with_head 0 []))) }
    ensures moments { (before : List ℕ) → Now (D.tells disk.old) (λ m. m.bytes ≡ before) → StaysIn (IsBaring before) (D.tells disk.old) (D.tells disk.new) }
    ensures cause { HasCause (D.faults disk.old) (D.faults disk.new) result }
{
    close_open(disk)?;
    write_bare(disk)
}

/// Closes the head gate, where it is open.
fn close_open<D: Disk>(disk: &mut D) -> Result<(), Failed>
    requires still { Now (D.tells disk.old) (λ m. m ≡ durable m.bytes) }
    ensures done { OnOk result (Now (D.tells disk.new) (λ m. (m ≡ durable m.bytes) × (head_is_open m.bytes ≡ false))) }
    ensures moments { (before : List ℕ) → Now (D.tells disk.old) (λ m. m.bytes ≡ before) → StaysIn (IsBaring before) (D.tells disk.old) (D.tells disk.new) }
    ensures cause { HasCause (D.faults disk.old) (D.faults disk.new) result }
{
    let opened = reads_open(disk)?;
    if !opened {
        return Ok(());
    }
    disk.write_at(HEAD, &[CLOSED])?;
    disk.sync()?;
    Ok(())
}

/// Whether a head gate is read, and is open.
fn reads_open<D: Disk>(disk: &mut D) -> Result<bool, Failed>
    ensures value { IfOk result (λ opened. Now (D.tells disk.old) (λ m. opened ≡ head_is_open m.bytes)) }
    ensures kept { D.tells disk.new ≡ D.tells disk.old }
    ensures cause { HasCause (D.faults disk.old) (D.faults disk.new) result }
{
    let mut gate = [CLOSED];
    let count = disk.read(HEAD, &mut gate)?;
    Ok(is_open(&gate[..count]))
}

/// Whether a gate was read, and is open.
fn is_open(gate: &[u8]) -> bool
    ensures { result ≡ (nat_lt 0 (length gate.now) && (slice_index gate.now 0 == 1)) }
{
    !gate.is_empty() && gate[0] == OPEN
}

/// Cuts off all behind a head gate that isn't open, and writes what a bare file begins with.
fn write_bare<D: Disk>(disk: &mut D) -> Result<(), Failed>
    requires closed { Now (D.tells disk.old) (λ m. (m ≡ durable m.bytes) × (head_is_open m.bytes ≡ false)) }
    ensures done { OnOk result (Now (D.tells disk.new) (λ m. m ≡ durable (with_head 0 []))) }
    ensures moments { StaysIn SaysNothing (D.tells disk.old) (D.tells disk.new) }
    ensures cause { HasCause (D.faults disk.old) (D.faults disk.new) result }
{
    disk.cut(BARE.len() as u64)?;
    disk.sync()?;
    disk.write_at(0, &BARE)?;
    disk.sync()?;
    Ok(())
}
