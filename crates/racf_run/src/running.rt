//! The words `run K NAME..`: decks and request files of a shelf, worked side by side.

ghost use Rattle.std.specs.Prelude.{ℕ, ◌≡◌, ◌≢◌, ◌⊎◌, ◌≤◌, true, false, List, Option, map, string_bytes};
ghost use Rattle.racf_outside.specs.Causes.{Rose};
ghost use Rattle.racf_outside.specs.Shelf.{SameBytes};
ghost use Rattle.checkpoint_disks.specs.declared.counting.Side.{Side};
ghost use Rattle.racf_journal.specs.Opening.{OnlySynced};
ghost use Rattle.racf_checkpoint.specs.Stored.{disk_on};
ghost use Rattle.racf_run.specs.Opening.{output_name, AreNew, AreOpen, OthersStay, ClosesAll, ReturnsSome, reads_of, writes_of};
ghost use Rattle.racf_run.specs.Racf.{IsUnsound, OpensNoDatabase, OpensDatabase, OpenedDisks, OpensOn, StandsStill, OpensNone, RoseEither, FaultCounts, AreNoMore, fault_counts, opened_on};
ghost use Rattle.racf_run.specs.Running.{are_run_words, unopened_status, NamedRan, RunsFiles};

use crate::names::RunWords;
use crate::opening::{Unopened, open_all, return_files, room_for};
use crate::top::opening_status;
use racf_desk::Desk;
use racf_outside::{Disk, Shelf, Two};
use racf_threads::{Ran, run_files};
use racf_workers::Gate;
use statements::{Issuing, Status};
use std::alloc::Global;
use std::sync::Wait;
use std::thread::Threads;

/// Opens the database on the disks, and works the files that the words name.
pub(crate) fn run_on<F: Shelf, D: Disk + Send, G: Gate + Sync, R: Wait + Threads + Sync>(
    rt: &R,
    alloc: Global,
    asked: RunWords<'_>,
    shelf: &mut F,
    disks: Two<D>,
    gate: &G,
) -> (Status, Two<D>)
where
    F::In: Drop + Send,
    F::Out: Drop + Send,
    requires form { are_run_words asked.decks (map string_bytes asked.names.now) ≡ true }
    ensures runs { OpensNoDatabase (D.tells disks.first) (D.tells disks.second) (D.tells result.1.first) (D.tells result.1.second) result.0 shelf.old shelf.new
        ⊎ OpensDatabase (D.tells disks.first) (D.tells disks.second) (λ base. (opened : OpenedDisks) × OpensOn (D.tells disks.first) (D.tells disks.second) opened × RunsFiles F.source_gives F.sink_gives F.take_back_gives F.give_back_gives F.tells F.output
        (λ outs. NamedRan opened (D.tells result.1.first) (D.tells result.1.second)
        (fault_counts (F.source_faults shelf.old) (F.sink_faults shelf.old) (D.faults disks.first) (D.faults disks.second))
        (fault_counts (F.source_faults shelf.new) (F.sink_faults shelf.new) (D.faults result.1.first) (D.faults result.1.second)) base F.tells result.0 (record { issuing = asked.entry.issuing; decks = asked.entry.decks; names = map string_bytes asked.entry.names.now })
        (reads_of F.In.faults outs) (writes_of F.Out.faults outs) (F.input shelf.old) (F.output shelf.old) (F.output shelf.new))
        (StandsStill opened (D.tells result.1.first) (D.tells result.1.second) base)
        result.0 (map string_bytes asked.entry.names.now) shelf.old shelf.new) }
    ensures usage { result.0 ≢ Status.Usage }
    ensures only_synced { IsUnsound result.0 → OnlySynced (D.tells disks.first) (D.tells result.1.first) × OnlySynced (D.tells disks.second) (D.tells result.1.second) }
    ensures read_fault { result.0 ≡ Status.ReadFault → Rose (F.source_faults shelf.old) (F.source_faults shelf.new) }
    ensures write_fault { result.0 ≡ Status.WriteFault → Rose (F.sink_faults shelf.old) (F.sink_faults shelf.new) }
    ensures disk_fault { result.0 ≡ Status.DiskFault → RoseEither (D.faults disks.first) (D.faults result.1.first) (D.faults disks.second) (D.faults result.1.second) }
    ensures inputs { SameBytes (F.input shelf.old) (F.input shelf.new) }
    ensures handed_back { OpensNone (F.is_open shelf.old) (F.is_open shelf.new) }
    ensures source_faults { F.source_faults shelf.old ≤ F.source_faults shelf.new }
    ensures sink_faults { F.sink_faults shelf.old ≤ F.sink_faults shelf.new }
    ensures first_faults { D.faults disks.first ≤ D.faults result.1.first }
    ensures second_faults { D.faults disks.second ≤ D.faults result.1.second }
{
    let RunWords {
        issuing,
        decks,
        names,
    } = asked;
    match Desk::open(alloc, disks) {
        Ok(desk) => run_between(rt, alloc, issuing, decks, names, shelf, desk, gate),
        Err((disks, why)) => (opening_status(why), disks),
    }
}

/// Works the files that the words name at a desk that was opened.
fn run_between<F: Shelf, D: Disk + Send, G: Gate + Sync, R: Wait + Threads + Sync>(
    rt: &R,
    alloc: Global,
    issuing: Issuing,
    decks: u32,
    names: &[String],
    shelf: &mut F,
    desk: Desk<D>,
    gate: &G,
) -> (Status, Two<D>)
where
    F::In: Drop + Send,
    F::Out: Drop + Send,
    requires form { are_run_words decks (map string_bytes names.now) ≡ true }
    requires running { desk.halted ≡ false }
    requires settled { desk.committed ≡ false }
    ensures runs { (before : FaultCounts)
        → AreNoMore before (fault_counts (F.source_faults shelf.old) (F.sink_faults shelf.old) (D.faults (disk_on Side.First desk.store)) (D.faults (disk_on Side.Second desk.store)))
        → RunsFiles F.source_gives F.sink_gives F.take_back_gives F.give_back_gives F.tells F.output
        (λ outs. NamedRan (opened_on D.tells desk.store) (D.tells result.1.first) (D.tells result.1.second)
        before (fault_counts (F.source_faults shelf.new) (F.sink_faults shelf.new) (D.faults result.1.first) (D.faults result.1.second)) desk.position F.tells result.0 (record { issuing = issuing; decks = decks; names = map string_bytes names.now })
        (reads_of F.In.faults outs) (writes_of F.Out.faults outs) (F.input shelf.old) (F.output shelf.old) (F.output shelf.new))
        (StandsStill (opened_on D.tells desk.store) (D.tells result.1.first) (D.tells result.1.second) desk.position)
        result.0 (map string_bytes names.now) shelf.old shelf.new }
    ensures usage { result.0 ≢ Status.Usage }
    ensures sound { IsUnsound result.0 → ⊥ }
    ensures read_fault { result.0 ≡ Status.ReadFault → Rose (F.source_faults shelf.old) (F.source_faults shelf.new) }
    ensures write_fault { result.0 ≡ Status.WriteFault → Rose (F.sink_faults shelf.old) (F.sink_faults shelf.new) }
    ensures disk_fault { result.0 ≡ Status.DiskFault → RoseEither (D.faults (disk_on Side.First desk.store)) (D.faults result.1.first) (D.faults (disk_on Side.Second desk.store)) (D.faults result.1.second) }
    ensures inputs { SameBytes (F.input shelf.old) (F.input shelf.new) }
    ensures handed_back { OpensNone (F.is_open shelf.old) (F.is_open shelf.new) }
    ensures source_faults { F.source_faults shelf.old ≤ F.source_faults shelf.new }
    ensures sink_faults { F.sink_faults shelf.old ≤ F.sink_faults shelf.new }
    ensures first_faults { D.faults (disk_on Side.First desk.store) ≤ D.faults result.1.first }
    ensures second_faults { D.faults (disk_on Side.Second desk.store) ≤ D.faults result.1.second }
{
    desk.is_at_rest();
    let Ok((outputs, files)) = room_for(alloc, names) else {
        return (Status::NoMemory, desk.into_disks());
    };
    let outputs = outputs.as_slice();
    match open_all(shelf, names, outputs, files) {
        Ok(files) => work_files(
            rt, alloc, issuing, decks, names, outputs, shelf, desk, files, gate,
        ),
        Err(why) => (unopened_status(why), desk.into_disks()),
    }
}

/// Works files that were opened at a desk, and hands them back.
fn work_files<F: Shelf, D: Disk + Send, G: Gate + Sync, R: Wait + Threads + Sync>(
    rt: &R,
    alloc: Global,
    issuing: Issuing,
    decks: u32,
    names: &[String],
    outputs: &[String],
    shelf: &mut F,
    desk: Desk<D>,
    files: Vec<(F::In, F::Out)>,
    gate: &G,
) -> (Status, Two<D>)
where
    F::In: Drop + Send,
    F::Out: Drop + Send,
    requires form { are_run_words decks (map string_bytes names.now) ≡ true }
    requires outputs { map string_bytes outputs.now ≡ map output_name (map string_bytes names.now) }
    requires running { desk.halted ≡ false }
    requires settled { desk.committed ≡ false }
    requires new { AreNew F.In.left F.In.faults F.Out.taken F.Out.faults F.tells (F.input shelf.old) (map string_bytes names.now) files.items }
    requires open { AreOpen (F.is_open shelf.old) (map string_bytes names.now) }

    // The files were handed back. The inputs had told the same before they were opened, and the outputs of other names
    // too; and no more faults had been counted.
    ensures ran { ReturnsSome F.source_gives F.sink_gives F.take_back_gives F.give_back_gives (map string_bytes names.now) shelf.old shelf.new
        (λ outs. (input before : List ℕ → Option (List ℕ)) (counts : FaultCounts)
        → AreNoMore counts (fault_counts (F.source_faults shelf.old) (F.sink_faults shelf.old) (D.faults (disk_on Side.First desk.store)) (D.faults (disk_on Side.Second desk.store)))
        → AreNew F.In.left F.In.faults F.Out.taken F.Out.faults F.tells input (map string_bytes names.now) files.items
        → OthersStay (map string_bytes names.now) before (F.output shelf.old)
        → NamedRan (opened_on D.tells desk.store) (D.tells result.1.first) (D.tells result.1.second)
        counts (fault_counts (F.source_faults shelf.new) (F.sink_faults shelf.new) (D.faults result.1.first) (D.faults result.1.second)) desk.position F.tells result.0 (record { issuing = issuing; decks = decks; names = map string_bytes names.now })
        (reads_of F.In.faults outs) (writes_of F.Out.faults outs) input before (F.output shelf.new)) }
    ensures usage { result.0 ≢ Status.Usage }
    ensures sound { IsUnsound result.0 → ⊥ }
    ensures read_fault { result.0 ≡ Status.ReadFault → Rose (F.source_faults shelf.old) (F.source_faults shelf.new) }
    ensures write_fault { result.0 ≡ Status.WriteFault → Rose (F.sink_faults shelf.old) (F.sink_faults shelf.new) }
    ensures disk_fault { result.0 ≡ Status.DiskFault → RoseEither (D.faults (disk_on Side.First desk.store)) (D.faults result.1.first) (D.faults (disk_on Side.Second desk.store)) (D.faults result.1.second) }
    ensures inputs { SameBytes (F.input shelf.old) (F.input shelf.new) }
    ensures closed { ClosesAll (map string_bytes names.now) (F.is_open shelf.old) (F.is_open shelf.new) }
    ensures source_faults { F.source_faults shelf.old ≤ F.source_faults shelf.new }
    ensures sink_faults { F.sink_faults shelf.old ≤ F.sink_faults shelf.new }
    ensures first_faults { D.faults (disk_on Side.First desk.store) ≤ D.faults result.1.first }
    ensures second_faults { D.faults (disk_on Side.Second desk.store) ≤ D.faults result.1.second }
{
    let Ran {
        status,
        outs,
        disks,
        first: _,
        accepted: _,
        doubt: _,
    } = run_files(rt, alloc, desk, files, decks, issuing, gate);
    return_files(shelf, names, outputs, outs);
    (status, disks)
}

/// The status where a file couldn't be opened.
fn unopened_status(why: Unopened) -> Status
    ensures { result ≡ unopened_status why }
{
    match why {
        Unopened::Input => Status::ReadFault,
        Unopened::Output => Status::WriteFault,
    }
}
