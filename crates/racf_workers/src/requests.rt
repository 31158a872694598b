//! A request file, from its first line to its last.

ghost use Rattle.std.specs.Prelude.{ℕ, ◌≡◌, ◌≢◌, ◌≤◌, ◌<◌, [], false, IfSome, length};
ghost use Rattle.racf_outside.specs.Causes.{Rose};
ghost use Rattle.racf_outside.specs.Reader.{at_start};
ghost use Rattle.command_history.specs.Events.{Extends};
ghost use Rattle.statements.specs.Runs.{longest_input};
ghost use Rattle.racf_workers.specs.RequestFile.{Answers};

use crate::answering::{Unanswered, answer_line};
use crate::between::Between;
use crate::gate::Gate;
use crate::reading::next_request;
use command_history::Naming;
use left_right::Absorb;
use racf_outside::{Disk, Failed, Lines, Sink, Source};
use raclist_snapshots::{Caller, Note, Opens};
use racroute::Racf;
use statements::{Replies, Status, Stop, end_run, write_before_read};
use std::alloc::Global;
use std::sync::Wait;
use std::sync::ledger::Ledger;

/// Answers the lines of a request file, and writes the answers to the sink. The status tells how it ended; the source
/// is given back with what it has left. Each line is a request by itself; blank lines and comments are skipped, and a
/// line whose first word is no request's is refused. A line that reaches a decision is answered on the newest image
/// that the caller knows of then, with that image's number; one that decides nothing prints the number that was seen
/// last. `*AFTER` waits, and prints where its number is never reached. The answers are gathered, and written before a
/// wait, before the source is read again and before the end. The gate is asked as worker `worker`.
pub fn answer_requests<
    J: Naming,
    T: Absorb<O> + Drop,
    O: Opens<Note<J>>,
    R: Wait + Drop,
    S: Ledger,
    F: Ledger,
    P: Ledger,
    D: Disk,
    Q: Wait,
    I: Source,
    K: Sink,
    G: Gate,
>(
    rt: &Q,
    alloc: Global,
    racf: &Racf<J, T, O, R, S, F, P, D>,
    caller: &mut Caller<J>,
    source: I,
    sink: &mut K,
    gate: &G,
    worker: u32,
) -> (Status, I)
    // Which bytes were read, and what was written for them, wherever it stopped.
    ensures answers { Answers J.base caller.old.events caller.new.events
        (Rose (I.faults source) (I.faults result.1)) (Rose (K.faults sink.old) (K.faults sink.new))
        result.0 (I.left source) (I.left result.1) (K.taken sink.old) (K.taken sink.new) }
    ensures later { Extends caller.old.events caller.new.events }

    // Why it stopped.
    ensures no_other { (result.0 ≢ Status.Usage) × (result.0 ≢ Status.NotFormatted) × (result.0 ≢ Status.DiskFault) }
    ensures undamaged { (place : ℕ) → result.0 ≢ Status.Damaged place }
    ensures read_fault { result.0 ≡ Status.ReadFault → Rose (I.faults source) (I.faults result.1) }
    ensures write_fault { result.0 ≡ Status.WriteFault → Rose (K.faults sink.old) (K.faults sink.new) }
    ensures too_long { result.0 ≡ Status.InputTooLong → IfSome (I.left source) (λ bytes. longest_input < length bytes) }

    ensures source_faults { I.faults source ≤ I.faults result.1 }
    ensures sink_faults { K.faults sink.old ≤ K.faults sink.new }
{
    let mut lines = match Lines::new(alloc, source) {
        Err(source) => return (Status::NoMemory, source),
        Ok(lines) => lines,
    };
    match Between::new(alloc) {
        Err(_) => (Status::NoMemory, lines.into_source()),
        Ok(mut state) => {
            let status = run(
                rt, alloc, racf, caller, &mut lines, &mut state, sink, gate, worker,
            );
            (status, lines.into_source())
        }
    }
}

/// Answers the lines of a reader that has read nothing yet.
fn run<
    J: Naming,
    T: Absorb<O> + Drop,
    O: Opens<Note<J>>,
    R: Wait + Drop,
    S: Ledger,
    F: Ledger,
    P: Ledger,
    D: Disk,
    Q: Wait,
    I: Source,
    K: Sink,
    G: Gate,
>(
    rt: &Q,
    alloc: Global,
    racf: &Racf<J, T, O, R, S, F, P, D>,
    caller: &mut Caller<J>,
    lines: &mut Lines<I>,
    state: &mut Between,
    sink: &mut K,
    gate: &G,
    worker: u32,
) -> Status
    requires begins { lines.old ≡ at_start lines.old.left lines.old.faults }
    requires new { state.old ≡ record { acees = []; has_refused = false } }
    ensures answers { Answers J.base caller.old.events caller.new.events
        (Rose lines.old.faults lines.new.faults) (Rose (K.faults sink.old) (K.faults sink.new))
        result lines.old.left lines.new.left (K.taken sink.old) (K.taken sink.new) }
    ensures later { Extends caller.old.events caller.new.events }
    ensures disk_fault { result ≢ Status.DiskFault }
    ensures read_fault { result ≡ Status.ReadFault → Rose lines.old.faults lines.new.faults }
    ensures write_fault { result ≡ Status.WriteFault → Rose (K.faults sink.old) (K.faults sink.new) }
    ensures source_faults { lines.old.faults ≤ lines.new.faults }
    ensures sink_faults { K.faults sink.old ≤ K.faults sink.new }
{
    let mut replies = Replies::new(alloc);
    let mut number = 0;
    'line: loop {
        match write_before_read(lines, &mut replies, sink) {
            Ok(()) => {}
            Err(Failed) => return Status::WriteFault,
        }
        let told = match next_request(lines) {
            Ok(told) => told,
            Err(stop) => return end_run(stop, false, state.has_refused(), &mut replies, sink),
        };
        number += 1;
        gate.before(worker, number);
        match answer_line(rt, alloc, racf, caller, &told, state, &mut replies, sink) {
            Ok(()) => {}
            Err(Unanswered::WriteFault) => return Status::WriteFault,
            Err(Unanswered::NoMemory) => {
                return end_run(
                    Stop::NoMemory,
                    false,
                    state.has_refused(),
                    &mut replies,
                    sink,
                );
            }
        }
        gate.answered(worker, number);
    }
}
