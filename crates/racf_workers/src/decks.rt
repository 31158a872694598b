//! A deck, from its first line to its last.

ghost use Rattle.std.specs.Prelude.{ℕ, ◌≡◌, ◌≢◌, ◌≤◌, ◌<◌, true, is_some, IfOk, IfSome, OnOk, OnErr, false, length};
ghost use Rattle.racf_outside.specs.Causes.{HasCause, Rose};
ghost use Rattle.racf_outside.specs.Reader.{at_start};
ghost use Rattle.command_history.specs.Events.{Extends, failed_of};
ghost use Rattle.statements.specs.Gathering.{Acknowledges, IsCutShort};
ghost use Rattle.statements.specs.Stopping.{Ends};
ghost use Rattle.statements.specs.Runs.{longest_input};
ghost use Rattle.statements.specs.Status.{code_of};
ghost use Rattle.racf_workers.specs.Deck.{Gives};
ghost use Rattle.racf_workers.specs.Giving.{Keeps, WorksItem, WorksNext};

use crate::gate::Gate;
use crate::giving::Giving;
use command_history::Naming;
use left_right::Absorb;
use racf_outside::{Disk, Failed, Lines, Sink, Source};
use raclist_snapshots::{Caller, Note, Opens};
use racroute::{DeckPass, Racf};
use statements::{
    Issuing, Kind, Replies, Statement, Status, Stop, end_run, next_statement, unless_failed,
};
use std::alloc::{AllocError, Global};
use std::sync::Wait;
use std::sync::ledger::Ledger;

/// Gives the commands of a deck, and writes what each is told to the sink. The status tells how it ended; the source
/// is given back with what it has left. A line that names an issuer stands alone; blank lines and comments are
/// skipped; every other line begins a command, whose lines are joined. A command's reply has the number that
/// `Racf::submit` answered; a refused line that gives no command prints the number that was told last. The replies
/// are gathered, and written behind each command that is accepted, before the source is read again and before the
/// end; the room of each is there before its command is given. Where a disk fails, every further command is told so.
/// Where the issuer is fixed, every line that would name one is refused.
/// The gate is asked as worker `worker`, and counts the lines of one command as one.
pub fn give_commands<
    J: Naming,
    T: Absorb<O> + Drop,
    O: Opens<Note<J>>,
    R: Wait + Drop,
    S: Ledger,
    F: Ledger,
    P: Ledger,
    D: Disk,
    Q: Wait,
    I: Source,
    K: Sink,
    G: Gate,
>(
    rt: &Q,
    alloc: Global,
    racf: &Racf<J, T, O, R, S, F, P, D>,
    caller: &mut Caller<J>,
    pass: &mut DeckPass<S, F, P>,
    source: I,
    sink: &mut K,
    issuing: Issuing,
    gate: &G,
    worker: u32,
) -> (Status, I)
    // Which bytes were read, what the commands met, and what was written, wherever it stopped.
    ensures gives { Gives J.base issuing caller.old.events caller.new.events pass.old pass.new
        (Rose (I.faults source) (I.faults result.1)) (Rose (K.faults sink.old) (K.faults sink.new))
        result.0 (I.left source) (I.left result.1) (K.taken sink.old) (K.taken sink.new) }
    ensures later { Extends caller.old.events caller.new.events }

    // Why it stopped.
    ensures no_other { (result.0 ≢ Status.Usage) × (result.0 ≢ Status.NotFormatted) }
    ensures undamaged { (place : ℕ) → result.0 ≢ Status.Damaged place }
    ensures read_fault { result.0 ≡ Status.ReadFault → Rose (I.faults source) (I.faults result.1) }
    ensures write_fault { result.0 ≡ Status.WriteFault → Rose (K.faults sink.old) (K.faults sink.new) }
    ensures disk_fault { result.0 ≡ Status.DiskFault → is_some (failed_of caller.new.events) ≡ true }
    ensures halted_status { pass.old.faults < pass.new.faults → 20 ≤ code_of result.0 }
    ensures too_long { result.0 ≡ Status.InputTooLong → IfSome (I.left source) (λ bytes. longest_input < length bytes) }

    ensures source_faults { I.faults source ≤ I.faults result.1 }
    ensures sink_faults { K.faults sink.old ≤ K.faults sink.new }
{
    let mut lines = match Lines::new(alloc, source) {
        Err(source) => return (Status::NoMemory, source),
        Ok(lines) => lines,
    };
    let status = run(
        rt, alloc, racf, caller, pass, &mut lines, sink, issuing, gate, worker,
    );
    (status, lines.into_source())
}

/// Works the statements of a reader that has read nothing yet.
fn run<
    J: Naming,
    T: Absorb<O> + Drop,
    O: Opens<Note<J>>,
    R: Wait + Drop,
    S: Ledger,
    F: Ledger,
    P: Ledger,
    D: Disk,
    Q: Wait,
    I: Source,
    K: Sink,
    G: Gate,
>(
    rt: &Q,
    alloc: Global,
    racf: &Racf<J, T, O, R, S, F, P, D>,
    caller: &mut Caller<J>,
    pass: &mut DeckPass<S, F, P>,
    lines: &mut Lines<I>,
    sink: &mut K,
    issuing: Issuing,
    gate: &G,
    worker: u32,
) -> Status
    requires begins { lines.old ≡ at_start lines.old.left lines.old.faults }
    ensures gives { Gives J.base issuing caller.old.events caller.new.events pass.old pass.new
        (Rose lines.old.faults lines.new.faults) (Rose (K.faults sink.old) (K.faults sink.new))
        result lines.old.left lines.new.left (K.taken sink.old) (K.taken sink.new) }
    ensures later { Extends caller.old.events caller.new.events }
    ensures read_fault { result ≡ Status.ReadFault → Rose lines.old.faults lines.new.faults }
    ensures write_fault { result ≡ Status.WriteFault → Rose (K.faults sink.old) (K.faults sink.new) }
    ensures disk_fault { result ≡ Status.DiskFault → is_some (failed_of caller.new.events) ≡ true }
    ensures source_faults { lines.old.faults ≤ lines.new.faults }
    ensures sink_faults { K.faults sink.old ≤ K.faults sink.new }
{
    let mut state = Giving::new(issuing);
    let mut replies = Replies::new(alloc);
    let mut room = Vec::new(alloc);
    let mut number = 0;
    'item: loop {
        let item = match next_statement(Kind::Deck, alloc, lines, &mut replies, sink, &mut room) {
            Ok(Ok(item)) => item,
            Ok(Err(stop)) => return end(stop, &state, &mut replies, sink),
            Err(Failed) => return unless_failed(state.has_failed(), Status::WriteFault),
        };
        number += 1;
        gate.before(worker, number);
        let accepted = match work(
            rt,
            alloc,
            racf,
            caller,
            pass,
            item,
            &mut state,
            &mut replies,
        ) {
            Ok(accepted) => accepted,
            Err(_) => return end(Stop::NoMemory, &state, &mut replies, sink),
        };
        match acknowledge(accepted, &mut replies, sink) {
            Ok(()) => {}
            Err(Failed) => return unless_failed(state.has_failed(), Status::WriteFault),
        }
        gate.answered(worker, number);
    }
}

/// Works a statement, where there is one, and gathers its text; it tells whether a command was accepted. Where memory
/// is short, nothing was accepted, and nothing more is gathered.
fn work<
    J: Naming,
    T: Absorb<O> + Drop,
    O: Opens<Note<J>>,
    R: Wait + Drop,
    S: Ledger,
    F: Ledger,
    P: Ledger,
    D: Disk,
    Q: Wait,
>(
    rt: &Q,
    alloc: Global,
    racf: &Racf<J, T, O, R, S, F, P, D>,
    caller: &mut Caller<J>,
    pass: &mut DeckPass<S, F, P>,
    item: Option<Statement>,
    state: &mut Giving,
    replies: &mut Replies,
) -> Result<bool, AllocError>
    ensures works { OnOk result (WorksNext J.base item caller.old.events caller.new.events pass.old pass.new state.old state.new replies.old replies.new) }
    ensures accepted { IfOk result (λ accepted. accepted ≡ false → pass.new.commands ≡ pass.old.commands) }
    ensures kept { OnErr result (Keeps pass.old pass.new state.old state.new replies.old replies.new) }
    ensures later { Extends caller.old.events caller.new.events }
{
    let Some(item) = item else {
        return Ok(false);
    };
    gather(rt, alloc, racf, caller, pass, &item, state, replies)
}

/// Works a statement, and gathers its text.
fn gather<
    J: Naming,
    T: Absorb<O> + Drop,
    O: Opens<Note<J>>,
    R: Wait + Drop,
    S: Ledger,
    F: Ledger,
    P: Ledger,
    D: Disk,
    Q: Wait,
>(
    rt: &Q,
    alloc: Global,
    racf: &Racf<J, T, O, R, S, F, P, D>,
    caller: &mut Caller<J>,
    pass: &mut DeckPass<S, F, P>,
    item: &Statement,
    state: &mut Giving,
    replies: &mut Replies,
) -> Result<bool, AllocError>
    ensures works { OnOk result (WorksItem J.base item.now caller.old.events caller.new.events pass.old pass.new state.old state.new replies.old replies.new) }
    ensures accepted { IfOk result (λ accepted. accepted ≡ false → pass.new.commands ≡ pass.old.commands) }
    ensures kept { OnErr result (Keeps pass.old pass.new state.old state.new replies.old replies.new) }
    ensures later { Extends caller.old.events caller.new.events }
{
    let room = replies.room()?;
    let done = state.work(rt, alloc, racf, caller, pass, item, room);
    if done.is_err() {
        room.clear();
    }
    done
}

/// Writes what is gathered where a command was accepted, so that its reply doesn't wait.
fn acknowledge<K: Sink>(accepted: bool, replies: &mut Replies, sink: &mut K) -> Result<(), Failed>
    ensures settled { OnOk result (Acknowledges (accepted ≡ false) replies.old replies.new (K.taken sink.old) (K.taken sink.new)) }
    ensures front { OnErr result (IsCutShort replies.old (K.taken sink.old) (K.taken sink.new)) }
    ensures cause { HasCause (K.faults sink.old) (K.faults sink.new) result }
{
    if !accepted {
        return Ok(());
    }
    replies.write_out(sink)
}

/// Ends a run that stops so: writes what is gathered, and tells the status.
fn end<K: Sink>(stop: Stop, state: &Giving, replies: &mut Replies, sink: &mut K) -> Status
    ensures ended { Ends (Rose (K.faults sink.old) (K.faults sink.new)) stop state.now.has_failed state.now.has_refused result replies.old (K.taken sink.old) (K.taken sink.new) }
    ensures read_fault { result ≡ Status.ReadFault → stop ≡ Stop.ReadFault }
    ensures write_fault { result ≡ Status.WriteFault → Rose (K.faults sink.old) (K.faults sink.new) }
    ensures disk_fault { result ≡ Status.DiskFault → state.now.has_failed ≡ true }
    ensures sink_faults { K.faults sink.old ≤ K.faults sink.new }
{
    let (failed, refused) = (state.has_failed(), state.has_refused());
    end_run(stop, failed, refused, replies, sink)
}
