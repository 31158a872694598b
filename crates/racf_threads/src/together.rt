//! A run, from its desk to its disks.

ghost use Rattle.std.specs.Prelude.{◌≡◌, ◌≤◌, ◌<◌, ◌+◌, ◌⊎◌, true, false, is_some, vec_len, take, drop};
ghost use Rattle.racf_outside.specs.Causes.{Rose};
ghost use Rattle.racf_checkpoint.specs.Stored.{pick};
ghost use Rattle.desk_rules.specs.Durable.{idle_of};
ghost use Rattle.desk_rules.specs.Made.{number_at};
ghost use Rattle.command_history.specs.Events.{all_of};
ghost use Rattle.command_history.specs.Reached.{reached, AreLegal};
ghost use Rattle.racroute.specs.Disks.{StandAt, StaysAlong};
ghost use Rattle.racf_threads.specs.Together.{RunsTogether, HasNoRoom};

use crate::begin::{begun, unbegun};
use command_history::{Accepted, Opened};
use racf_desk::Desk;
use racf_outside::{Disk, Sink, Source, Two};
use racf_workers::Gate;
use statements::{Issuing, Status};
use std::alloc::Global;
use std::marker::Brand;
use std::sync::ledger::Blank;
use std::sync::{Arc, Wait};
use std::thread::Threads;

/// What is left of a run.
pub struct Ran<I, K, D> {
    /// The status of the worker that ended with the greatest code.
    pub status: Status,
    /// The sources, each with its sink: decks, then request files.
    pub outs: Vec<(I, K)>,
    /// The disks.
    pub disks: Two<D>,
    /// How many commands had been accepted before the run.
    pub first: u64,
    /// Those that were accepted in it, in their order.
    pub accepted: Vec<Accepted>,
    /// The entry of the command that a disk failed, where one did.
    pub doubt: Option<Accepted>,
}

/// Works decks and request files, each in a thread of its own where one can be made: at most 4 decks and 16 request
/// files, which are given as sources with their sinks, and are given back so. `issuing` says who gives the commands of
/// the decks, and whether their lines may name others. The gate is asked before each line and
/// behind it; the workers number from 0 on, decks before request files. Where there is no memory for the list of
/// outputs, nothing is read or written, and none is given back.
pub fn run<
    I: Source + Drop + Send,
    K: Sink + Drop + Send,
    D: Disk + Send,
    G: Gate + Sync,
    R: Wait + Threads + Sync,
>(
    rt: &R,
    alloc: Global,
    desk: Desk<D>,
    decks: Vec<(I, K)>,
    requests: Vec<(I, K)>,
    issuing: Issuing,
    gate: &G,
) -> Ran<I, K, D>
    requires running { desk.halted ≡ false }
    requires settled { desk.committed ≡ false }
    requires few_decks { vec_len decks ≤ 4 }
    requires few_requests { vec_len requests ≤ 16 }
    requires some { 0 < vec_len decks + vec_len requests }

    // One history, of which each output tells a part.
    ensures together { RunsTogether I.left I.faults K.taken K.faults desk.position issuing result.accepted.items result.doubt result.status decks.items requests.items result.outs.items
        ⊎ HasNoRoom result.accepted.items result.doubt result.status result.outs.items }
    ensures legal { AreLegal desk.position result.accepted.items }
    ensures first { result.first ≡ number_at desk.position }

    // What every crash leaves of the disks: at every moment of it, and behind it.
    ensures moments { StaysAlong desk.position (all_of result.accepted.items result.doubt) (idle_of D.tells desk.store) (D.tells desk.store.journal.disk) (D.tells (pick desk.store.side result.disks.first result.disks.second)) }
    ensures disks { StandAt result.doubt (D.tells result.disks.first) (D.tells result.disks.second) (reached desk.position (all_of result.accepted.items result.doubt)) }
    ensures idle { D.tells (pick desk.store.side result.disks.second result.disks.first) ≡ D.tells desk.store.idle }
    ensures idle_faults { D.faults (pick desk.store.side result.disks.second result.disks.first) ≡ D.faults desk.store.idle }
    ensures rose { is_some result.doubt ≡ true → Rose (D.faults desk.store.journal.disk) (D.faults (pick desk.store.side result.disks.first result.disks.second)) }
    ensures disk_fault { result.status ≡ Status.DiskFault → is_some result.doubt ≡ true }
    ensures no_fewer { D.faults desk.store.journal.disk ≤ D.faults (pick desk.store.side result.disks.first result.disks.second) }
{
    let count = decks.len() as u32;
    let mut files = decks;
    let mut requests = requests;
    match files.append(&mut requests) {
        Ok(()) => run_files(rt, alloc, desk, files, count, issuing, gate),
        Err(_) => unbegun(alloc, desk, Vec::new(alloc)),
    }
}

/// The same over one list, in which the decks stand before the request files: sources with their sinks, which are given
/// back in it, whatever comes.
pub fn run_files<
    I: Source + Send,
    K: Sink + Send,
    D: Disk + Send,
    G: Gate + Sync,
    R: Wait + Threads + Sync,
>(
    rt: &R,
    alloc: Global,
    desk: Desk<D>,
    files: Vec<(I, K)>,
    decks: u32,
    issuing: Issuing,
    gate: &G,
) -> Ran<I, K, D>
    requires running { desk.halted ≡ false }
    requires settled { desk.committed ≡ false }
    requires few_decks { decks ≤ 4 }
    requires are_there { decks ≤ vec_len files }
    requires few_requests { vec_len files ≤ decks + 16 }
    requires some { 0 < vec_len files }

    // One history, of which each output tells a part.
    ensures together { RunsTogether I.left I.faults K.taken K.faults desk.position issuing result.accepted.items result.doubt result.status (take decks files.items) (drop decks files.items) result.outs.items }
    ensures legal { AreLegal desk.position result.accepted.items }
    ensures first { result.first ≡ number_at desk.position }

    // What every crash leaves of the disks: at every moment of it, and behind it.
    ensures moments { StaysAlong desk.position (all_of result.accepted.items result.doubt) (idle_of D.tells desk.store) (D.tells desk.store.journal.disk) (D.tells (pick desk.store.side result.disks.first result.disks.second)) }
    ensures disks { StandAt result.doubt (D.tells result.disks.first) (D.tells result.disks.second) (reached desk.position (all_of result.accepted.items result.doubt)) }
    ensures idle { D.tells (pick desk.store.side result.disks.second result.disks.first) ≡ D.tells desk.store.idle }
    ensures idle_faults { D.faults (pick desk.store.side result.disks.second result.disks.first) ≡ D.faults desk.store.idle }
    ensures rose { is_some result.doubt ≡ true → Rose (D.faults desk.store.journal.disk) (D.faults (pick desk.store.side result.disks.first result.disks.second)) }
    ensures disk_fault { result.status ≡ Status.DiskFault → is_some result.doubt ≡ true }
    ensures no_fewer { D.faults desk.store.journal.disk ≤ D.faults (pick desk.store.side result.disks.first result.disks.second) }
{
    let image = match Arc::try_clone(desk.image()) {
        Ok(image) => image,
        Err(_) => return unbegun(alloc, desk, files),
    };
    let parts = u64::from(decks) + 1;
    let blanks = (Blank::new(parts), Blank::new(parts), Blank::new(parts));
    match begun::<Brand, Brand, Brand, Brand, I, K, D, G, R>(
        rt,
        alloc,
        (Opened::new(), image),
        blanks,
        desk,
        decks,
        files,
        issuing,
        gate,
    ) {
        Ok(ran) => ran,
        Err((desk, files)) => unbegun(alloc, desk, files),
    }
}
