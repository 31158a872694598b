//! One line of a request file.

ghost use Rattle.std.specs.Prelude.{◌≡◌, ◌≤◌, OnOk, OnErr, IfErr};
ghost use Rattle.racf_outside.specs.Causes.{HasCause};
ghost use Rattle.command_history.specs.Events.{Extends};
ghost use Rattle.request_files.specs.Seen.{line_read};
ghost use Rattle.statements.specs.Gathering.{IsCutShort, Settles};
ghost use Rattle.racf_workers.specs.RequestFile.{decides, IsAwaited, Moves};
ghost use Rattle.racf_workers.specs.Answering.{AnswersNext, LeavesUnanswered, IsWriteFault};

use crate::between::Between;
use command_history::Naming;
use left_right::Absorb;
use racf_outside::{Disk, Failed, Sink};
use raclist_snapshots::{Caller, Note, Opens};
use racroute::{AfterFault, Racf};
use request_files::{AceeTable, LineRefusal, RequestLine};
use statements::Replies;
use std::alloc::{AllocError, Global};
use std::sync::Wait;
use std::sync::ledger::Ledger;

/// Why a line wasn't answered.
#[derive(Clone, Copy)]
pub(crate) enum Unanswered {
    /// Memory ran out.
    NoMemory,
    /// What was gathered couldn't be written before a wait.
    WriteFault,
}

/// Answers a line, where there is one. It goes to the front at which the line is answered: a wait writes out what is
/// gathered first, since others may wait to see it.
pub(crate) fn answer_line<
    J: Naming,
    T: Absorb<O> + Drop,
    O: Opens<Note<J>>,
    R: Wait + Drop,
    S: Ledger,
    F: Ledger,
    P: Ledger,
    D: Disk,
    Q: Wait,
    K: Sink,
>(
    rt: &Q,
    alloc: Global,
    racf: &Racf<J, T, O, R, S, F, P, D>,
    caller: &mut Caller<J>,
    told: &Option<Result<RequestLine, LineRefusal>>,
    state: &mut Between,
    replies: &mut Replies,
    sink: &mut K,
) -> Result<(), Unanswered>
    ensures answers { OnOk result (AnswersNext J.base told.now caller.old.events caller.new.events state.old state.new replies.old replies.new (K.taken sink.old) (K.taken sink.new)) }
    ensures leaves { IfErr result (λ why. LeavesUnanswered why caller.old.events caller.new.events state.old state.new replies.old replies.new (K.taken sink.old) (K.taken sink.new)) }
    ensures cause { IfErr result (λ why. IsWriteFault why (K.faults sink.old) (K.faults sink.new)) }
    ensures no_fewer { K.faults sink.old ≤ K.faults sink.new }
    ensures later { Extends caller.old.events caller.new.events }
{
    let Some(told) = told else {
        return Ok(());
    };
    match write_before_wait(told, replies, sink) {
        Ok(()) => {}
        Err(Failed) => return Err(Unanswered::WriteFault),
    }
    match go_to_front(rt, racf, caller, told, state.acees()) {
        Ok(()) => {}
        Err(_) => return Err(Unanswered::NoMemory),
    }
    match state.gather(alloc, told, caller, replies) {
        Ok(()) => Ok(()),
        Err(_) => Err(Unanswered::NoMemory),
    }
}

/// Writes what is gathered, where the line is a wait.
fn write_before_wait<K: Sink>(
    told: &Result<RequestLine, LineRefusal>,
    replies: &mut Replies,
    sink: &mut K,
) -> Result<(), Failed>
    ensures settled { OnOk result (Settles replies.old replies.new (K.taken sink.old) (K.taken sink.new)) }
    ensures front { OnErr result (IsCutShort replies.old (K.taken sink.old) (K.taken sink.new)) }
    ensures cause { HasCause (K.faults sink.old) (K.faults sink.new) result }
    ensures kept { OnErr result (replies.new ≡ replies.old) }
{
    match told {
        Ok(RequestLine::After(_)) => replies.write_out(sink),
        _ => Ok(()),
    }
}

/// Brings the caller to the front at which the line is answered: a wait to that of so many commands, or to the end; a
/// line that reaches a decision to the newest that the caller knows of; any other leaves it where it is.
fn go_to_front<
    J: Naming,
    T: Absorb<O> + Drop,
    O: Opens<Note<J>>,
    R: Wait + Drop,
    S: Ledger,
    F: Ledger,
    P: Ledger,
    D: Disk,
    Q: Wait,
>(
    rt: &Q,
    racf: &Racf<J, T, O, R, S, F, P, D>,
    caller: &mut Caller<J>,
    told: &Result<RequestLine, LineRefusal>,
    acees: &AceeTable,
) -> Result<(), AllocError>
    ensures moved { OnOk result (Moves J.base acees.now (line_read told.now) caller.old.events caller.new.events) }
    ensures later { Extends caller.old.events caller.new.events }
{
    if let Ok(RequestLine::After(number)) = told {
        return wait(rt, racf, caller, *number);
    }
    if decides(told, acees) {
        caller.enter();
    }
    Ok(())
}

/// Waits until so many commands are accepted, or nothing more will be.
fn wait<
    J: Naming,
    T: Absorb<O> + Drop,
    O: Opens<Note<J>>,
    R: Wait + Drop,
    S: Ledger,
    F: Ledger,
    P: Ledger,
    D: Disk,
    Q: Wait,
>(
    rt: &Q,
    racf: &Racf<J, T, O, R, S, F, P, D>,
    caller: &mut Caller<J>,
    number: u64,
) -> Result<(), AllocError>
    ensures awaited { OnOk result (IsAwaited J.base number caller.new.events) }
    ensures later { Extends caller.old.events caller.new.events }
{
    match racf.after(rt, caller, number) {
        Ok(()) | Err(AfterFault::Final(_)) => Ok(()),
        Err(AfterFault::NoMemory) => Err(AllocError),
    }
}

/// Whether a line reaches a decision.
fn decides(told: &Result<RequestLine, LineRefusal>, acees: &AceeTable) -> bool
    ensures { result ≡ decides acees.now (line_read told.now) }
{
    match told {
        Ok(RequestLine::Verify(name, _)) => acees.refusal(*name).is_none(),
        Ok(RequestLine::Auth(name, _) | RequestLine::Fastauth(name, _)) => acees
            .get(*name)
            .is_some(),
        Ok(RequestLine::Delete(_) | RequestLine::After(_) | RequestLine::Skip) | Err(_) => false,
    }
}
