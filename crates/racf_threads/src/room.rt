//! The memory of a run, which is taken before it begins, so that nothing that was done is lost for want of it.

ghost use Rattle.std.specs.Prelude.{◌≡◌, ◌≤◌, ◌<◌, ◌+◌, ◌++◌, [], map, IfOk, vec_len, vec_capacity};
ghost use Rattle.std.specs.List.{filter_map};
ghost use Rattle.std.specs.Option.{option_to_list};
ghost use Rattle.racf_threads.specs.Together.{greater, greatest};

use crate::worker::Worker;
use command_history::Naming;
use racf_profiles::NoMemory;
use raclist_snapshots::Caller;
use racroute::DeckEnd;
use statements::Status;
use std::alloc::Global;
use std::sync::ledger::Ledger;

/// Room for the workers of a run, and for what they leave.
pub(crate) struct Room<J: Naming, S: Ledger, F: Ledger, P: Ledger, I, K> {
    /// For the workers.
    pub(crate) workers: Vec<Worker<J, S, F, P, I, K>>,
    /// For what they leave.
    pub(crate) left: Left<J, S, F, I, K>,
}

/// What workers leave, in their order.
pub(crate) struct Left<J: Naming, S: Ledger, F: Ledger, I, K> {
    /// What each saw the history with.
    pub(crate) callers: Vec<Caller<J>>,
    /// What is left of each pass.
    pub(crate) ends: Vec<DeckEnd<S, F>>,
    /// The sources, each with its sink.
    pub(crate) outs: Vec<(I, K)>,
}

impl<J: Naming, S: Ledger, F: Ledger, P: Ledger, I, K> Room<J, S, F, P, I, K> {
    /// Room for so many workers.
    pub(crate) fn new(alloc: Global, count: usize) -> Result<Room<J, S, F, P, I, K>, NoMemory>
        ensures workers { IfOk result (λ room. (room.workers.items ≡ []) × (count ≤ vec_capacity room.workers)) }
        ensures callers { IfOk result (λ room. (room.left.callers.items ≡ []) × (count ≤ vec_capacity room.left.callers)) }
        ensures ends { IfOk result (λ room. (room.left.ends.items ≡ []) × (count ≤ vec_capacity room.left.ends)) }
        ensures outs { IfOk result (λ room. (room.left.outs.items ≡ []) × (count ≤ vec_capacity room.left.outs)) }
    {
        let callers = Vec::with_capacity(alloc, count)?;
        let ends = Vec::with_capacity(alloc, count)?;
        let outs = Vec::with_capacity(alloc, count)?;
        match Vec::with_capacity(alloc, count) {
            Ok(workers) => Ok(Room {
                workers,
                left: Left {
                    callers,
                    ends,
                    outs,
                },
            }),
            Err(why) => {
                outs.destroy_empty();
                Err(why)
            }
        }
    }

    /// Gives the memory back.
    pub(crate) fn give_back(self)
        requires workers { self.workers.items ≡ [] }
        requires outs { self.left.outs.items ≡ [] }
    {
        let Room { workers, left } = self;
        let Left {
            callers: _,
            ends: _,
            outs,
        } = left;
        workers.destroy_empty();
        outs.destroy_empty();
    }
}

/// What the workers leave, with the status of the one that ended with the greatest code.
pub(crate) fn gather<J: Naming, S: Ledger, F: Ledger, P: Ledger, I, K>(
    workers: Vec<Worker<J, S, F, P, I, K>>,
    left: Left<J, S, F, I, K>,
) -> (Left<J, S, F, I, K>, Status)
    requires callers { (left.callers.items ≡ []) × (vec_len workers ≤ vec_capacity left.callers) }
    requires ends { (left.ends.items ≡ []) × (vec_len workers ≤ vec_capacity left.ends) }
    requires outs { (left.outs.items ≡ []) × (vec_len workers ≤ vec_capacity left.outs) }
    ensures callers { result.0.callers.items ≡ map (λ w. w.caller) workers.items }
    ensures ends { result.0.ends.items ≡ filter_map (λ w. w.end) workers.items }
    ensures outs { result.0.outs.items ≡ filter_map (λ w. w.files) workers.items }
    ensures status { result.1 ≡ greatest (map (λ w. w.status) workers.items) }
{
    let Left {
        mut callers,
        mut ends,
        mut outs,
    } = left;
    let mut status = Status::Done;
    let mut workers = workers.into_iter();
    while let Some(worker) = workers.next() {
        let Worker {
            number: _,
            caller,
            pass: _,
            end,
            files,
            status: last,
        } = worker;
        callers.push_reserved(caller);
        push_some(&mut ends, end);
        push_some(&mut outs, files);
        status = greater(status, last);
    }
    workers.destroy_empty();
    let left = Left {
        callers,
        ends,
        outs,
    };
    (left, status)
}

/// Puts an item into a list that has room for it, where there is one.
fn push_some<X>(to: &mut Vec<X>, item: Option<X>)
    requires { vec_len to.old < vec_capacity to.old }
    ensures items { to.new.items ≡ to.old.items ++ option_to_list item }
    ensures count { vec_len to.new ≤ vec_len to.old + 1 }
    ensures room { vec_capacity to.new ≡ vec_capacity to.old }
{
    if let Some(item) = item {
        to.push_reserved(item);
    }
}

/// Of two statuses that with the greater code, and of equal codes the first.
fn greater(one: Status, other: Status) -> Status
    ensures { result ≡ greater one other }
{
    if one.code() < other.code() {
        other
    } else {
        one
    }
}
