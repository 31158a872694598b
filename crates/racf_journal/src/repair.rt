//! How the end of a journal is made a closed gate and nothing behind it.

ghost use Rattle.std.specs.Prelude.{ℕ, ◌+◌, ◌<◌, ◌≡◌, ◌^◌, ◌∷◌, ◌++◌, [], max, List, length, take, OnOk};
ghost use Rattle.racf_outside.specs.Causes.{HasCause};
ghost use Rattle.racf_outside.specs.Crashes.{StaysIn};
ghost use Rattle.racf_journal.specs.Reading.{IsEnd};
ghost use Rattle.racf_journal.specs.Repair.{Holds, HoldsEnd, EndsWithin};

use crate::layout::CLOSED;
use racf_outside::{Disk, Failed};

/// Makes the bytes from the gate on, `end`, a closed gate. What lies behind the gate is gone from the disk before the
/// gate is written: behind a gate that a crash leaves open it would count.
pub(crate) fn repair<D: Disk>(disk: &mut D, gate: u64, end: &[u8]) -> Result<(), Failed>
    requires room { gate + length end.now < 2 ^ 64 }
    requires held { HoldsEnd gate end.now (D.tells disk.old) }
    requires ends { IsEnd end.now }
    ensures done { OnOk result ((base : List ℕ) → length base ≡ gate → Holds (base ++ end.now) (D.tells disk.old) → Holds (base ++ 0 ∷ []) (D.tells disk.new)) }
    ensures moments { (base : List ℕ) → length base ≡ gate → Holds (base ++ end.now) (D.tells disk.old) → StaysIn (EndsWithin (gate + max (length end.now) 1) base) (D.tells disk.old) (D.tells disk.new) }
    ensures cause { HasCause (D.faults disk.old) (D.faults disk.new) result }
{
    cut_behind(disk, gate, end)?;
    close_gate(disk, gate, end)?;
    Ok(())
}

/// Cuts off the bytes behind the closed gate, where there are any.
fn cut_behind<D: Disk>(disk: &mut D, gate: u64, end: &[u8]) -> Result<(), Failed>
    requires room { gate + length end.now < 2 ^ 64 }
    requires ends { IsEnd end.now }
    ensures done { OnOk result ((base : List ℕ) → length base ≡ gate → Holds (base ++ end.now) (D.tells disk.old) → Holds (base ++ take 1 end.now) (D.tells disk.new)) }
    ensures moments { (base : List ℕ) → length base ≡ gate → Holds (base ++ end.now) (D.tells disk.old) → StaysIn (EndsWithin (gate + max (length end.now) 1) base) (D.tells disk.old) (D.tells disk.new) }
    ensures cause { HasCause (D.faults disk.old) (D.faults disk.new) result }
{
    if end.len() <= 1 {
        return Ok(());
    }
    disk.cut(gate + 1)?;
    disk.sync()?;
    Ok(())
}

/// Writes the closed gate, where it isn't there.
fn close_gate<D: Disk>(disk: &mut D, gate: u64, end: &[u8]) -> Result<(), Failed>
    requires held { HoldsEnd gate (take 1 end.now) (D.tells disk.old) }
    ensures done { OnOk result ((base : List ℕ) → length base ≡ gate → Holds (base ++ take 1 end.now) (D.tells disk.old) → Holds (base ++ 0 ∷ []) (D.tells disk.new)) }
    ensures moments { (base : List ℕ) → length base ≡ gate → Holds (base ++ take 1 end.now) (D.tells disk.old) → StaysIn (EndsWithin (gate + max (length end.now) 1) base) (D.tells disk.old) (D.tells disk.new) }
    ensures cause { HasCause (D.faults disk.old) (D.faults disk.new) result }
{
    if matches!(end, [CLOSED, ..]) {
        return Ok(());
    }
    disk.write_at(gate, &[CLOSED])?;
    disk.sync()?;
    Ok(())
}
