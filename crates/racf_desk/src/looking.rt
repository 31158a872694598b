//! Looking at the database that two disks stand for, and changing nothing of it.
ghost use Rattle.std.specs.Prelude.{◌≡◌, ◌≢◌, ◌≤◌, Ok, IfOk, IfErr, MatchResult};
ghost use Rattle.racf_journal.specs.Opening.{OnlySynced};
ghost use Rattle.racf_checkpoint.specs.Contents.{IsCausedByOne};
ghost use Rattle.racf_checkpoint.specs.Stored.{NowRead, StaysPossible};
ghost use Rattle.desk_rules.specs.Made.{is_fresh};
ghost use Rattle.desk_rules.specs.Recovery.{standing, Refuses};
ghost use Rattle.desk_rules.specs.Durable.{SaysEpoch};
ghost use Rattle.desk_rules.specs.Executing.{SayWhatWasPossible};
ghost use Rattle.desk_rules.specs.Reopening.{LeadOn};

use crate::desk::Desk;
use crate::recovery::recover;
use desk_rules::laws::{records_lead_along_a_history, recovery_agrees_with_the_running_desk};
use racf_checkpoint::{Store, StoreFault, what_was_possible_is_said};
use racf_outside::{Disk, NeverDisk, Two};
use std::alloc::Global;

impl<D: Disk> Desk<D> {
    /// Looks at the database that the disks stand for: a desk at that position, over disks that keep nothing and never
    /// fail, and beside it the disks. Both are synced and read, and that is all: nothing of them is written, cut or
    /// repaired, so that at every moment a crash leaves what it might have left before. What is given to that desk is
    /// judged and answered as by the one that [`Desk::open`] gives, and ends with it.
    pub fn look(alloc: Global, disks: Two<D>) -> (Two<D>, Result<Desk<NeverDisk>, StoreFault>)
        ensures stands { IfOk result.1 (λ desk. NowRead (D.tells disks.first) (D.tells disks.second) (λ first second. standing first second ≡ Ok desk.position)) }
        ensures history { IfOk result.1 (λ desk. NowRead (D.tells disks.first) (D.tells disks.second) (LeadOn desk.position)) }
        ensures desk { IfOk result.1 (λ desk. desk ≡ is_fresh desk.position desk.store) }
        ensures epoch { IfOk result.1 (λ desk. NowRead (D.tells disks.first) (D.tells disks.second) (SaysEpoch desk.store.epoch)) }

        // Both were synced, and hold the same bytes.
        ensures untouched { MatchResult result.1 (λ desk. OnlySynced (D.tells disks.first) (D.tells result.0.first) × OnlySynced (D.tells disks.second) (D.tells result.0.second))
            (λ why. why ≢ StoreFault.DiskFault → OnlySynced (D.tells disks.first) (D.tells result.0.first) × OnlySynced (D.tells disks.second) (D.tells result.0.second)) }
        ensures first_moments { StaysPossible (D.tells disks.first) (D.tells result.0.first) }
        ensures second_moments { StaysPossible (D.tells disks.second) (D.tells result.0.second) }
        ensures joint { SayWhatWasPossible (D.tells disks.first) (D.tells disks.second) (D.tells result.0.first) (D.tells result.0.second) }

        ensures fault { IfErr result.1 (λ why. NowRead (D.tells disks.first) (D.tells disks.second) (Refuses why)) }
        ensures no_other { IfErr result.1 (λ why. why ≢ StoreFault.Full) }
        ensures cause { IfErr result.1 (IsCausedByOne (D.faults disks.first) (D.faults result.0.first) (D.faults disks.second) (D.faults result.0.second)) }
        ensures first_no_fewer { D.faults disks.first ≤ D.faults result.0.first }
        ensures second_no_fewer { D.faults disks.second ≤ D.faults result.0.second }
    {
        // What was possible of each disk is possible of both.
        what_was_possible_is_said();
        // What the records lead to goes on as the desk that wrote them.
        records_lead_along_a_history();
        recovery_agrees_with_the_running_desk();
        let (found, rows) = match Store::find(alloc, disks) {
            Ok((found, rows)) => (found, rows),
            Err((disks, fault)) => return (disks, Err(fault)),
        };
        let recovered = match recover(alloc, rows, found.number(), found.start(), found.records()) {
            Ok(recovered) => recovered,
            Err(fault) => return (found.into_disks(), Err(fault)),
        };
        let (found, disks) = found.apart();
        match found.open() {
            Ok((store, _records)) => (disks, Ok(Desk::fresh(alloc, recovered, store))),
            // A disk that never fails doesn't fail here either.
            Err(_) => (disks, Err(StoreFault::DiskFault)),
        }
    }
}
