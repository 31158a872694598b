//! The word `compact`: a checkpoint of the database on the disks.

ghost use Rattle.std.specs.Prelude.{◌≡◌, ◌≢◌, ◌⊎◌, ◌+◌, ◌-◌, ◌^◌, ◌<◌, ◌≤◌, false, map, string_bytes};
ghost use Rattle.racf_outside.specs.Causes.{Rose};
ghost use Rattle.racf_outside.specs.Crashes.{StaysIn};
ghost use Rattle.racf_journal.specs.Opening.{OnlySynced};
ghost use Rattle.racf_checkpoint.specs.Stored.{Beside, other, pick};
ghost use Rattle.desk_rules.specs.Durable.{LeavesBoth, SaysCheckpoint};
ghost use Rattle.desk_rules.specs.Position.{compacted};
ghost use Rattle.desk_rules.specs.Recovery.{StandsFor, StandsForEither};
ghost use Rattle.racf_run.specs.Compacting.{is_compact, EndsCompact, MovesToCompact};
ghost use Rattle.racf_run.specs.Racf.{IsUnsound, StaysUnopened, OpensDatabase, RoseEither};

use crate::top::opening_status;
use racf_desk::Desk;
use racf_outside::{Disk, Two};
use statements::Status;
use std::alloc::Global;

/// Whether the words are `compact`.
pub(crate) fn is_compact(words: &[String]) -> bool
    ensures { result ≡ is_compact (map string_bytes words.now) }
{
    let [verb] = words else {
        return false;
    };
    verb.as_str() == "compact"
}

/// Opens the database on the disks, and writes a checkpoint of it.
pub(crate) fn compact_on<D: Disk>(alloc: Global, disks: Two<D>) -> (Status, Two<D>)
    ensures compacts { StaysUnopened (D.tells disks.first) (D.tells disks.second) (D.tells result.1.first) (D.tells result.1.second) result.0
        ⊎ OpensDatabase (D.tells disks.first) (D.tells disks.second)
        (EndsCompact (D.tells disks.first) (D.tells disks.second) (D.tells result.1.first) (D.tells result.1.second) result.0) }
    ensures moments { MovesToCompact (D.tells disks.first) (D.tells disks.second) (D.tells result.1.first) (D.tells result.1.second) }
    ensures only_synced { IsUnsound result.0 → OnlySynced (D.tells disks.first) (D.tells result.1.first) × OnlySynced (D.tells disks.second) (D.tells result.1.second) }
    ensures no_other { (result.0 ≢ Status.Usage) × (result.0 ≢ Status.ReadFault) × (result.0 ≢ Status.WriteFault) × (result.0 ≢ Status.InputTooLong) }
    ensures disk_fault { result.0 ≡ Status.DiskFault → RoseEither (D.faults disks.first) (D.faults result.1.first) (D.faults disks.second) (D.faults result.1.second) }
    ensures first_faults { D.faults disks.first ≤ D.faults result.1.first }
    ensures second_faults { D.faults disks.second ≤ D.faults result.1.second }
{
    match Desk::open(alloc, disks) {
        Ok(desk) => compact(alloc, desk),
        Err((disks, why)) => (opening_status(why), disks),
    }
}

/// Writes a checkpoint of the database at a desk that was opened.
fn compact<D: Disk>(alloc: Global, desk: Desk<D>) -> (Status, Two<D>)
    requires running { desk.halted ≡ false }
    requires settled { desk.committed ≡ false }
    ensures ends { (result.0 ≡ Status.Done) ⊎ ((result.0 ≡ Status.DiskFault) ⊎ (result.0 ≡ Status.NoMemory)) }

    // Where it is done a crash leaves the new checkpoint, which stands for the position; at the last epoch none is
    // written.
    ensures done { result.0 ≡ Status.Done → desk.store.epoch < 2 ^ 64 - 1 → LeavesBoth (D.tells result.1.first) (D.tells result.1.second) (SaysCheckpoint (desk.store.epoch + 1) desk.position) }
    ensures stands { result.0 ≡ Status.Done → desk.store.epoch < 2 ^ 64 - 1 → LeavesBoth (D.tells result.1.first) (D.tells result.1.second) (StandsFor (compacted desk.position)) }
    ensures last { result.0 ≡ Status.Done → desk.store.epoch ≡ 2 ^ 64 - 1 → LeavesBoth (D.tells result.1.first) (D.tells result.1.second) (StandsFor desk.position) }
    ensures memory { result.0 ≡ Status.NoMemory → LeavesBoth (D.tells result.1.first) (D.tells result.1.second) (StandsFor desk.position) }

    // The disk that doesn't count is written, and the other one stays as it is.
    ensures moments { StaysIn (Beside (other desk.store.side) (D.tells desk.store.journal.disk) (StandsForEither desk.position (compacted desk.position)))
        (D.tells desk.store.idle) (D.tells (pick desk.store.side result.1.second result.1.first)) }
    ensures live { pick desk.store.side result.1.first result.1.second ≡ desk.store.journal.disk }
    ensures disk_fault { result.0 ≡ Status.DiskFault → Rose (D.faults desk.store.idle) (D.faults (pick desk.store.side result.1.second result.1.first)) }
    ensures no_fewer { D.faults desk.store.idle ≤ D.faults (pick desk.store.side result.1.second result.1.first) }
{
    let mut desk = desk;
    desk.is_at_rest();
    match desk.compact(alloc) {
        Ok(()) => (Status::Done, desk.into_disks()),
        Err(why) => (opening_status(why), desk.into_disks()),
    }
}
