//! The words `check IN OUT`: a stream is tried at the database on the disks, and nothing of it is kept.

ghost use Rattle.std.specs.Prelude.{◌≡◌, ◌≢◌, ◌≤◌};
ghost use Rattle.racf_outside.specs.Causes.{Rose};
ghost use Rattle.racf_outside.specs.Shelf.{SameBytes};
ghost use Rattle.racf_journal.specs.Opening.{OnlySynced};
ghost use Rattle.racf_run.specs.Checking.{Checks};
ghost use Rattle.racf_run.specs.Racf.{IsUnsound, OpensNone, RoseEither};

use crate::top::{Files, opening_status, script_between};
use racf_desk::Desk;
use racf_outside::{Disk, Shelf, Two};
use statements::Status;
use std::alloc::Global;

/// Looks at the database on the disks, and works a stream from an input of a shelf to an output, at a desk whose disks
/// keep nothing and never fail.
pub(crate) fn check_on<F: Shelf, D: Disk>(
    alloc: Global,
    files: Files<'_>,
    shelf: &mut F,
    disks: Two<D>,
) -> (Status, Two<D>)
    ensures checks { Checks F.source_gives F.sink_gives F.take_back_gives F.give_back_gives F.tells F.output
        (Rose (F.source_faults shelf.old) (F.source_faults shelf.new)) (Rose (F.sink_faults shelf.old) (F.sink_faults shelf.new))
        (D.tells disks.first) (D.tells disks.second) (D.tells result.1.first) (D.tells result.1.second) result.0
        (F.input shelf.old files.entry.input.now) (record { issuing = files.entry.issuing; input = files.entry.input.now; output = files.entry.output.now }) shelf.old shelf.new }
    ensures usage { result.0 ≢ Status.Usage }
    ensures only_synced { IsUnsound result.0 → OnlySynced (D.tells disks.first) (D.tells result.1.first) × OnlySynced (D.tells disks.second) (D.tells result.1.second) }
    ensures read_fault { result.0 ≡ Status.ReadFault → Rose (F.source_faults shelf.old) (F.source_faults shelf.new) }
    ensures write_fault { result.0 ≡ Status.WriteFault → Rose (F.sink_faults shelf.old) (F.sink_faults shelf.new) }
    ensures disk_fault { result.0 ≡ Status.DiskFault → RoseEither (D.faults disks.first) (D.faults result.1.first) (D.faults disks.second) (D.faults result.1.second) }
    ensures inputs { SameBytes (F.input shelf.old) (F.input shelf.new) }
    ensures handed_back { OpensNone (F.is_open shelf.old) (F.is_open shelf.new) }
    ensures source_faults { F.source_faults shelf.old ≤ F.source_faults shelf.new }
    ensures sink_faults { F.sink_faults shelf.old ≤ F.sink_faults shelf.new }
    ensures first_faults { D.faults disks.first ≤ D.faults result.1.first }
    ensures second_faults { D.faults disks.second ≤ D.faults result.1.second }
{
    let Files {
        issuing,
        input,
        output,
    } = files;
    let (disks, looked) = Desk::look(alloc, disks);
    match looked {
        Ok(desk) => {
            let (status, desk) = script_between(alloc, issuing, input, output, shelf, desk);
            let _ = desk.into_disks();
            (status, disks)
        }
        Err(why) => (opening_status(why), disks),
    }
}
