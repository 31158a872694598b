//! How a checkpoint comes onto a disk.

ghost use Rattle.std.specs.Prelude.{ℕ, ◌+◌, ◌<◌, ◌≡◌, ◌^◌, ◌++◌, ◌==◌, ◌&&◌, not, nat_lt, List, length, slice_index, IfOk, OnOk};
ghost use Rattle.racf_outside.specs.Causes.{HasCause};
ghost use Rattle.racf_outside.specs.Crashes.{StaysIn};
ghost use Rattle.racf_outside.specs.Disk.{Now};
ghost use Rattle.racf_outside.specs.Moments.{durable};
ghost use Rattle.checkpoint_disks.specs.Files.{head_is_open};
ghost use Rattle.checkpoint_disks.specs.Compacting.{IsIdle, IsClosed, HoldsClosed, HoldsBody, IsClosing, IsOpening, IsOneOf, with_head};

use crate::layout::{CLOSED, EPOCH, HEAD, IMAGE, OPEN};
use racf_outside::{Disk, Failed};

/// Makes these bytes all that stands behind the head gate, and opens that. The gate is closed before anything behind it
/// changes, and opened only once all behind it is kept. What stood behind it is cut off first, so that a disk that has
/// no room for both has room for what is written.
pub(crate) fn write_behind<D: Disk>(disk: &mut D, fields: &[u8], rest: &[u8]) -> Result<(), Failed>
    requires idle { Now (D.tells disk.old) IsIdle }
    requires fields { length fields.now ≡ 24 }
    requires room { length rest.now < 2 ^ 63 }
    ensures done { OnOk result (Now (D.tells disk.new) (λ m. m ≡ durable (with_head 1 (fields.now ++ rest.now)))) }
    ensures files { (before : List ℕ) → Now (D.tells disk.old) (λ m. m.bytes ≡ before)
        → StaysIn (IsOneOf before (with_head 1 (fields.now ++ rest.now))) (D.tells disk.old) (D.tells disk.new) }
    ensures cause { HasCause (D.faults disk.old) (D.faults disk.new) result }
{
    close_head(disk)?;
    write_body(disk, fields, rest)?;
    open_head(disk)?;
    Ok(())
}

/// Closes the head gate, where it is open or isn't there: a crash within the write of a gate that is closed could open
/// it, whatever stands behind it.
fn close_head<D: Disk>(disk: &mut D) -> Result<(), Failed>
    requires idle { Now (D.tells disk.old) IsIdle }
    ensures done { OnOk result (Now (D.tells disk.new) HoldsClosed) }
    ensures moments { (before : List ℕ) → Now (D.tells disk.old) (λ m. m.bytes ≡ before) → StaysIn (IsClosing before) (D.tells disk.old) (D.tells disk.new) }
    ensures cause { HasCause (D.faults disk.old) (D.faults disk.new) result }
{
    let closed = reads_closed(disk)?;
    if closed {
        return Ok(());
    }
    disk.write_at(HEAD, &[CLOSED])?;
    disk.sync()?;
    Ok(())
}

/// Whether a head gate is read, and is closed.
fn reads_closed<D: Disk>(disk: &mut D) -> Result<bool, Failed>
    ensures value { IfOk result (λ closed. Now (D.tells disk.old) (λ m. closed ≡ (nat_lt 8 (length m.bytes) && not (head_is_open m.bytes)))) }
    ensures kept { D.tells disk.new ≡ D.tells disk.old }
    ensures cause { HasCause (D.faults disk.old) (D.faults disk.new) result }
{
    let mut gate = [CLOSED];
    let count = disk.read(HEAD, &mut gate)?;
    Ok(is_closed(&gate[..count]))
}

/// Whether a gate was read, and is closed.
fn is_closed(gate: &[u8]) -> bool
    ensures { result ≡ (nat_lt 0 (length gate.now) && not (slice_index gate.now 0 == 1)) }
{
    !gate.is_empty() && gate[0] != OPEN
}

/// Cuts off all from place 9 on, behind a head gate that is closed, and writes it anew.
fn write_body<D: Disk>(disk: &mut D, fields: &[u8], rest: &[u8]) -> Result<(), Failed>
    requires closed { Now (D.tells disk.old) HoldsClosed }
    requires fields { length fields.now ≡ 24 }
    requires room { length rest.now < 2 ^ 63 }
    ensures done { OnOk result (Now (D.tells disk.new) (HoldsBody (fields.now ++ rest.now))) }
    ensures moments { StaysIn IsClosed (D.tells disk.old) (D.tells disk.new) }
    ensures cause { HasCause (D.faults disk.old) (D.faults disk.new) result }
{
    disk.cut(EPOCH as u64)?;
    disk.write_at(EPOCH as u64, fields)?;
    disk.write_at(IMAGE as u64, rest)?;
    disk.sync()?; // now the checkpoint is kept, and doesn't count
    Ok(())
}

/// Opens the head gate.
fn open_head<D: Disk>(disk: &mut D) -> Result<(), Failed>
    requires closed { Now (D.tells disk.old) HoldsClosed }
    ensures done { OnOk result ((body : List ℕ) → Now (D.tells disk.old) (HoldsBody body) → Now (D.tells disk.new) (λ m. m ≡ durable (with_head 1 body))) }
    ensures moments { (body : List ℕ) → Now (D.tells disk.old) (HoldsBody body) → StaysIn (IsOpening body) (D.tells disk.old) (D.tells disk.new) }
    ensures cause { HasCause (D.faults disk.old) (D.faults disk.new) result }
{
    disk.write_at(HEAD, &[OPEN])?;
    disk.sync()?; // now it counts for good
    Ok(())
}
