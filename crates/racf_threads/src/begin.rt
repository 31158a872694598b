//! A run over one history, from its beginning to its end.

ghost use Rattle.std.specs.Prelude.{◌≡◌, ◌≤◌, ◌<◌, ◌+◌, ℕ, IfOk, IfErr, [], true, false, is_some, None, take, drop, length, vec_len, vec_capacity};
ghost use Rattle.std.specs.Arc.{arc_value};
ghost use Rattle.std.specs.List.{All, AllZip, sum_by};
ghost use Rattle.racf_outside.specs.Causes.{Rose};
ghost use Rattle.racf_checkpoint.specs.Stored.{pick};
ghost use Rattle.desk_rules.specs.Durable.{idle_of};
ghost use Rattle.desk_rules.specs.Made.{number_at};
ghost use Rattle.command_history.specs.Events.{all_of, Extends};
ghost use Rattle.command_history.specs.Reached.{reached, AreLegal};
ghost use Rattle.racroute.specs.Core.{new_passes};
ghost use Rattle.racroute.specs.Disks.{StandAt, StaysAlong};
ghost use Rattle.racroute.specs.Kept.{fault_count};
ghost use Rattle.statements.specs.declared.issuer.Issuing.{Issuing};
ghost use Rattle.racf_threads.specs.Together.{RunsTogether};
ghost use Rattle.racf_threads.specs.Working.{HasWorked};

use crate::room::{Left, Room, gather};
use crate::seating::seat;
use crate::together::Ran;
use crate::worker::Worker;
use command_history::{Naming, Opened};
use left_right::Absorb;
use racf_desk::Desk;
use racf_outside::{Disk, Sink, Source};
use racf_workers::Gate;
use raclist_image::Image;
use raclist_snapshots::{Caller, Note, Opens, snapshots};
use racroute::{Closed, DeckEnd, DeckPass, Racf};
use statements::{Issuing, Status};
use std::alloc::Global;
use std::sync::ledger::{Blank, Ledger};
use std::sync::{Arc, Wait};
use std::thread::{Threads, for_each_mut};

/// Works decks and request files over one history and its ledgers: the first of the files are decks, so many. All
/// memory is taken before a line is read; where it is wanting, the desk and the files are handed back.
pub(crate) fn begun<
    J: Naming + Send + Sync,
    S: Ledger + Send,
    F: Ledger + Send,
    P: Ledger + Send,
    I: Source + Send,
    K: Sink + Send,
    D: Disk + Send,
    G: Gate + Sync,
    R: Wait + Threads + Sync,
>(
    rt: &R,
    alloc: Global,
    opened: (Opened, Arc<Image, Global>),
    blanks: (Blank, Blank, Blank),
    desk: Desk<D>,
    decks: u32,
    files: Vec<(I, K)>,
    issuing: Issuing,
    gate: &G,
) -> Result<Ran<I, K, D>, (Desk<D>, Vec<(I, K)>)>
    requires book { opened.0 ≡ J.book }
    requires image { arc_value opened.1 ≡ J.base.image }
    requires base { desk.position ≡ J.base }
    requires faults { J.faults ≡ D.faults desk.store.journal.disk }
    requires idle_faults { J.idle_faults ≡ D.faults desk.store.idle }
    requires before { (J.live_disk ≡ D.tells desk.store.journal.disk) × (J.idle_disk ≡ idle_of D.tells desk.store) }
    requires running { desk.halted ≡ false }
    requires settled { desk.committed ≡ false }
    requires some { 0 < vec_len files }
    requires few { (decks ≤ vec_len files) × (vec_len files ≤ 20) }
    requires commands { (blanks.0.name ≡ S.name) × (blanks.0.parts ≡ S.parts) × (S.parts ≡ decks + 1) }
    requires failed { (blanks.1.name ≡ F.name) × (blanks.1.parts ≡ F.parts) × (F.parts ≡ decks + 1) }
    requires out { (blanks.2.name ≡ P.name) × (blanks.2.parts ≡ P.parts) × (P.parts ≡ decks + 1) }
    ensures together { IfOk result (λ ran. RunsTogether I.left I.faults K.taken K.faults J.base issuing ran.accepted.items ran.doubt ran.status (take decks files.items) (drop decks files.items) ran.outs.items) }
    ensures legal { IfOk result (λ ran. AreLegal J.base ran.accepted.items) }
    ensures first { IfOk result (λ ran. ran.first ≡ number_at J.base) }
    ensures disks { IfOk result (λ ran. StandAt ran.doubt (D.tells ran.disks.first) (D.tells ran.disks.second) (reached J.base (all_of ran.accepted.items ran.doubt))) }
    ensures moments { IfOk result (λ ran. StaysAlong J.base (all_of ran.accepted.items ran.doubt) J.idle_disk J.live_disk (D.tells (pick J.idle_disk.side ran.disks.first ran.disks.second))) }
    ensures idle { IfOk result (λ ran. D.tells (pick J.idle_disk.side ran.disks.second ran.disks.first) ≡ J.idle_disk.told) }
    ensures idle_faults { IfOk result (λ ran. D.faults (pick J.idle_disk.side ran.disks.second ran.disks.first) ≡ J.idle_faults) }
    ensures rose { IfOk result (λ ran. is_some ran.doubt ≡ true → Rose J.faults (D.faults (pick J.idle_disk.side ran.disks.first ran.disks.second))) }
    ensures disk_fault { IfOk result (λ ran. ran.status ≡ Status.DiskFault → is_some ran.doubt ≡ true) }
    ensures no_fewer { IfOk result (λ ran. J.faults ≤ D.faults (pick J.idle_disk.side ran.disks.first ran.disks.second)) }
    ensures desk { IfErr result (λ back. back.0 ≡ desk) }
    ensures files { IfErr result (λ back. back.1 ≡ files) }
{
    let count = files.len() as u32;
    let (opened, image) = opened;
    let (publisher, callers) = match snapshots::<J, R>(rt, alloc, opened, image, count) {
        Ok(made) => made,
        Err(_) => return Err((desk, files)),
    };
    let room = match Room::new(alloc, files.len()) {
        Ok(room) => room,
        Err(_) => return Err((desk, files)),
    };
    match Racf::<J, _, _, _, S, F, P, D>::start(alloc, publisher, blanks, desk, decks) {
        Ok((racf, passes)) => Ok(ran(
            rt, alloc, racf, callers, passes, decks, files, room, issuing, gate,
        )),
        Err(desk) => {
            room.give_back();
            Err((desk, files))
        }
    }
}

/// What is left of a run for which there was no memory: nothing was read, written or accepted.
pub(crate) fn unbegun<I: Source, K: Sink, D: Disk>(
    alloc: Global,
    desk: Desk<D>,
    outs: Vec<(I, K)>,
) -> Ran<I, K, D>
    requires running { desk.halted ≡ false }
    requires settled { desk.committed ≡ false }
    ensures together { (decks : ℕ) (issuing : Issuing) → 0 < vec_len outs → RunsTogether I.left I.faults K.taken K.faults desk.position issuing result.accepted.items result.doubt result.status (take decks outs.items) (drop decks outs.items) result.outs.items }
    ensures outs { result.outs.items ≡ outs.items }
    ensures status { result.status ≡ Status.NoMemory }
    ensures none { result.accepted.items ≡ [] }
    ensures runs_on { result.doubt ≡ None }
    ensures legal { AreLegal desk.position result.accepted.items }
    ensures first { result.first ≡ number_at desk.position }
    ensures disks { StandAt result.doubt (D.tells result.disks.first) (D.tells result.disks.second) (reached desk.position (all_of result.accepted.items result.doubt)) }
    ensures moments { StaysAlong desk.position (all_of result.accepted.items result.doubt) (idle_of D.tells desk.store) (D.tells desk.store.journal.disk) (D.tells (pick desk.store.side result.disks.first result.disks.second)) }
    ensures idle { D.tells (pick desk.store.side result.disks.second result.disks.first) ≡ D.tells desk.store.idle }
    ensures faults { D.faults (pick desk.store.side result.disks.first result.disks.second) ≡ D.faults desk.store.journal.disk }
    ensures idle_faults { D.faults (pick desk.store.side result.disks.second result.disks.first) ≡ D.faults desk.store.idle }
{
    desk.is_at_rest();
    let first = desk.number();
    let disks = desk.into_disks();
    let accepted = Vec::new(alloc);
    Ran {
        status: Status::NoMemory,
        outs,
        disks,
        first,
        accepted,
        doubt: None,
    }
}

/// Works all to their ends, and closes.
fn ran<
    J: Naming + Send + Sync,
    T: Absorb<O> + Drop + Send + Sync,
    O: Opens<Note<J>> + Send,
    Q: Wait + Drop + Send,
    S: Ledger + Send,
    F: Ledger + Send,
    P: Ledger + Send,
    I: Source + Send,
    K: Sink + Send,
    D: Disk + Send,
    G: Gate + Sync,
    R: Wait + Threads + Sync,
>(
    rt: &R,
    alloc: Global,
    racf: Racf<J, T, O, Q, S, F, P, D>,
    callers: Vec<Caller<J>>,
    passes: Vec<DeckPass<S, F, P>>,
    decks: u32,
    files: Vec<(I, K)>,
    room: Room<J, S, F, P, I, K>,
    issuing: Issuing,
    gate: &G,
) -> Ran<I, K, D>
    requires new { All (λ caller. caller ≡ record { events = []; learned = 0 }) callers.items }
    requires callers { vec_len callers ≡ vec_len files }
    requires some { 0 < vec_len files }
    requires few { (decks ≤ vec_len files) × (vec_len files ≤ 20) }
    requires passes { passes.items ≡ new_passes decks }
    requires parts { S.parts ≡ decks + 1 }
    requires workers { (room.workers.items ≡ []) × (vec_len files ≤ vec_capacity room.workers) }
    requires left { (room.left.callers.items ≡ []) × (vec_len files ≤ vec_capacity room.left.callers) }
    requires ends { (room.left.ends.items ≡ []) × (vec_len files ≤ vec_capacity room.left.ends) }
    requires outs { (room.left.outs.items ≡ []) × (vec_len files ≤ vec_capacity room.left.outs) }
    ensures together { RunsTogether I.left I.faults K.taken K.faults J.base issuing result.accepted.items result.doubt result.status (take decks files.items) (drop decks files.items) result.outs.items }
    ensures legal { AreLegal J.base result.accepted.items }
    ensures first { result.first ≡ number_at J.base }
    ensures disks { StandAt result.doubt (D.tells result.disks.first) (D.tells result.disks.second) (reached J.base (all_of result.accepted.items result.doubt)) }
    ensures moments { StaysAlong J.base (all_of result.accepted.items result.doubt) J.idle_disk J.live_disk (D.tells (pick J.idle_disk.side result.disks.first result.disks.second)) }
    ensures idle { D.tells (pick J.idle_disk.side result.disks.second result.disks.first) ≡ J.idle_disk.told }
    ensures idle_faults { D.faults (pick J.idle_disk.side result.disks.second result.disks.first) ≡ J.idle_faults }
    ensures rose { is_some result.doubt ≡ true → Rose J.faults (D.faults (pick J.idle_disk.side result.disks.first result.disks.second)) }
    ensures disk_fault { result.status ≡ Status.DiskFault → is_some result.doubt ≡ true }
    ensures no_fewer { J.faults ≤ D.faults (pick J.idle_disk.side result.disks.first result.disks.second) }
{
    let Room { workers, left } = room;
    let mut workers = seat(callers, passes, files, workers);
    side_by_side(rt, alloc, &racf, workers.as_mut_slice(), issuing, gate);
    let (left, status) = gather(workers, left);
    let Left {
        callers,
        ends,
        outs,
    } = left;
    let Closed {
        disks,
        first,
        accepted,
        doubt,
    } = closed(racf, callers, ends);
    Ran {
        status,
        outs,
        disks,
        first,
        accepted,
        doubt,
    }
}

/// Each worker works in a thread of its own where one can be made; else behind others, in a thread that is there. A
/// thread works the later ones of its workers first, and request files may wait for decks, which wait for nobody: so
/// the list is turned round meanwhile, and each request file is worked behind the decks of its thread.
fn side_by_side<
    J: Naming + Send + Sync,
    T: Absorb<O> + Drop + Send + Sync,
    O: Opens<Note<J>> + Send,
    Q: Wait + Drop + Send,
    S: Ledger + Send,
    F: Ledger + Send,
    P: Ledger + Send,
    I: Source + Send,
    K: Sink + Send,
    D: Disk + Send,
    G: Gate + Sync,
    R: Wait + Threads + Sync,
>(
    rt: &R,
    alloc: Global,
    racf: &Racf<J, T, O, Q, S, F, P, D>,
    workers: &mut [Worker<J, S, F, P, I, K>],
    issuing: Issuing,
    gate: &G,
)
    requires { 0 < length workers.old }
    ensures { AllZip (HasWorked I.left I.faults K.taken K.faults J.base issuing) workers.old workers.new }
{
    workers.reverse();
    in_threads(rt, alloc, racf, workers, issuing, gate);
    workers.reverse();
}

/// Each worker works in a thread of its own where one can be made; else in one that is there, behind the later ones
/// that are worked in it.
fn in_threads<
    J: Naming + Send + Sync,
    T: Absorb<O> + Drop + Send + Sync,
    O: Opens<Note<J>> + Send,
    Q: Wait + Drop + Send,
    S: Ledger + Send,
    F: Ledger + Send,
    P: Ledger + Send,
    I: Source + Send,
    K: Sink + Send,
    D: Disk + Send,
    G: Gate + Sync,
    R: Wait + Threads + Sync,
>(
    rt: &R,
    alloc: Global,
    racf: &Racf<J, T, O, Q, S, F, P, D>,
    workers: &mut [Worker<J, S, F, P, I, K>],
    issuing: Issuing,
    gate: &G,
)
    requires { 0 < length workers.old }
    ensures { AllZip (HasWorked I.left I.faults K.taken K.faults J.base issuing) workers.old workers.new }
{
    let threads = workers.len();
    for_each_mut(
        rt,
        workers,
        threads,
        &|_, worker: &mut Worker<J, S, F, P, I, K>|
            ensures { HasWorked I.left I.faults K.taken K.faults J.base issuing worker.entry.now worker.exit.now }
        { worker.work(rt, alloc, racf, issuing, gate) },
    );
}

/// Closes the office, when each deck's end is there.
fn closed<
    J: Naming,
    T: Absorb<O> + Drop,
    O: Opens<Note<J>>,
    Q: Wait + Drop,
    S: Ledger,
    F: Ledger,
    P: Ledger,
    D: Disk,
>(
    racf: Racf<J, T, O, Q, S, F, P, D>,
    callers: Vec<Caller<J>>,
    ends: Vec<DeckEnd<S, F>>,
) -> Closed<D>
    requires { vec_len ends + 1 ≡ S.parts }
    ensures callers { All (λ caller. Extends caller.events (all_of result.accepted.items result.doubt)) callers.items }
    ensures legal { AreLegal J.base result.accepted.items }
    ensures commands { sum_by (λ e. e.commands) ends.items ≡ length result.accepted.items }
    ensures faults { sum_by (λ e. e.faults) ends.items ≡ fault_count result.doubt }
    ensures first { result.first ≡ number_at J.base }
    ensures disks { StandAt result.doubt (D.tells result.disks.first) (D.tells result.disks.second) (reached J.base (all_of result.accepted.items result.doubt)) }
    ensures moments { StaysAlong J.base (all_of result.accepted.items result.doubt) J.idle_disk J.live_disk (D.tells (pick J.idle_disk.side result.disks.first result.disks.second)) }
    ensures idle { D.tells (pick J.idle_disk.side result.disks.second result.disks.first) ≡ J.idle_disk.told }
    ensures idle_faults { D.faults (pick J.idle_disk.side result.disks.second result.disks.first) ≡ J.idle_faults }
    ensures no_fewer { J.faults ≤ D.faults (pick J.idle_disk.side result.disks.first result.disks.second) }
    ensures rose { is_some result.doubt ≡ true → Rose J.faults (D.faults (pick J.idle_disk.side result.disks.first result.disks.second)) }
{
    match racf.close(callers, ends) {
        Ok(closed) => closed,
        Err(_back) => unreachable!(),
    }
}
