//! The workers of a run, as they begin.

ghost use Rattle.std.specs.Prelude.{◌≡◌, ◌≤◌, ◌^◌, ◌<◌, [], vec_len, vec_capacity};
ghost use Rattle.std.specs.List.{All};
ghost use Rattle.racf_threads.specs.Working.{new_workers};

use crate::worker::Worker;
use command_history::Naming;
use raclist_snapshots::Caller;
use racroute::DeckPass;
use statements::Status;
use std::sync::ledger::Ledger;

/// The workers of these sources with their sinks: decks as long as there are passes, then request files.
pub(crate) fn seat<J: Naming, S: Ledger, F: Ledger, P: Ledger, I, K>(
    callers: Vec<Caller<J>>,
    passes: Vec<DeckPass<S, F, P>>,
    files: Vec<(I, K)>,
    workers: Vec<Worker<J, S, F, P, I, K>>,
) -> Vec<Worker<J, S, F, P, I, K>>
    requires new { All (λ caller. caller ≡ record { events = []; learned = 0 }) callers.items }
    requires count { (vec_len callers ≡ vec_len files) × (vec_len callers < 2 ^ 32) }
    requires room { (workers.items ≡ []) × (vec_len callers ≤ vec_capacity workers) }
    ensures { result.items ≡ new_workers passes.items files.items }
{
    let mut workers = workers;
    let mut passes = passes.into_iter();
    let mut files = files.into_iter();
    let mut number = 0;
    let mut callers = callers.into_iter();
    while let Some(caller) = callers.next() {
        workers.push_reserved(Worker {
            number,
            caller,
            pass: passes.next(),
            end: None,
            files: files.next(),
            status: Status::NoMemory,
        });
        number += 1;
    }
    files.destroy_empty();
    workers
}
