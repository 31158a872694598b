//! A stream from a source to a sink.

ghost use Rattle.std.specs.Prelude.{ℕ, ◌≡◌, ◌≢◌, ◌<◌, ◌≤◌, true, false, None, Some, IsTrue, IfSome, OnOk, OnErr, length};
ghost use Rattle.std.specs.Io.KnownBytes.{append_known};
ghost use Rattle.racf_outside.specs.Causes.{HasCause, Rose};
ghost use Rattle.racf_outside.specs.Reader.{at_start};
ghost use Rattle.desk_rules.specs.Durable.{LeavesIt, SameIdle};
ghost use Rattle.desk_rules.specs.Made.{number_at};
ghost use Rattle.desk_rules.specs.Position.{Position};
ghost use Rattle.racf_stream.specs.Durable.{DoesOn, Fails, LeavesInDoubt, Moves, StaysAlong, fault_in, most_left, most_left_of};
ghost use Rattle.statements.specs.Gathering.{Acknowledges, IsCutShort};
ghost use Rattle.statements.specs.Runs.{Ran, longest_input};
ghost use Rattle.racf_stream.specs.Script.{stream, stream as machine, fault_of, script_output, script_status, StandsAt};
ghost use Rattle.statements.specs.Status.{is_whole};
ghost use Rattle.racf_stream.specs.Processing.{Processes};
ghost use Rattle.statements.specs.Stopping.{Ends};
ghost use Rattle.statements.specs.Status.{code_of};
ghost use Rattle.racf_stream.specs.Stream.{answer, new_stream, number_of};
ghost use Rattle.statements.specs.declared.issuer.Issuing.{Issuing};

use crate::stream::Stream;
use racf_desk::Desk;
use racf_outside::{Disk, Failed, Lines, Sink, Source};
use statements::{
    Issuing, Kind, Replies, Statement, Status, Stop, end_run, next_statement, unless_failed,
};
use std::alloc::{AllocError, Global};

/// Works the lines of a source at a desk, and writes the text of each to the sink; skipped lines have none. The status
/// tells how it ended; the source is given back with what it has left, and the desk as the commands left it. The texts
/// are gathered, and written behind each command that is accepted, before the source is read again, and before the end:
/// a source that gives line after line has the reply to each before it is asked for the next one. At most those of the
/// lines of one block of the input wait, and each stands whole in memory before a part of it is written, and before a
/// disk is asked. Where a disk fails a command, the requests behind it are answered on, and every further command is
/// told so. Where the issuer is fixed, every line that would name one is refused. Time grows with the input's length, and
/// for each line with what the database takes to work its command.
pub fn script<S: Source, O: Sink, D: Disk>(
    alloc: Global,
    source: S,
    sink: &mut O,
    desk: Desk<D>,
    issuing: Issuing,
) -> (Status, S, Desk<D>)
    requires running { desk.halted ≡ false }
    requires settled { desk.committed ≡ false }

    // Which bytes were read, what was written for them, and where the desk stands, wherever it stopped.
    ensures ran { Ran (stream (fault_of result.2) issuing desk.position) (StandsAt result.2)
        (Rose (S.faults source) (S.faults result.1)) (Rose (O.faults sink.old) (O.faults sink.new))
        result.0 (S.left source) (S.left result.1) (O.taken sink.old) (O.taken sink.new) }

    // Where the input was read to its end and no disk failed, all of its output was written, and nothing else.
    ensures whole { IsTrue (is_whole result.0) → IfSome (S.left source) (λ bytes.
        (O.taken sink.new ≡ append_known (O.taken sink.old) (script_output None issuing desk.position bytes)) × (result.0 ≡ script_status None issuing desk.position bytes)) }

    // What every crash leaves: meanwhile what stands for the position behind some front of the accepted commands, or of
    // these and the one that a disk failed; and then for that of the desk, or, where a disk failed, for this one or the
    // one behind the command that was told so.
    ensures moments { StaysAlong D.tells issuing desk.position (S.left source) (most_left result.2.halted (number_at result.2.position)) desk.store result.2.store }
    ensures leaves { result.2.halted ≡ false → LeavesIt D.tells result.2.store result.2.position }
    ensures in_doubt { result.2.halted ≡ true → LeavesInDoubt D.tells issuing desk.position (S.left source) result.2.store result.2.position }
    ensures idle { SameIdle desk.store result.2.store }

    // Why it stopped.
    ensures no_other { (result.0 ≢ Status.Usage) × (result.0 ≢ Status.NotFormatted) }
    ensures undamaged { (place : ℕ) → result.0 ≢ Status.Damaged place }
    ensures read_fault { result.0 ≡ Status.ReadFault → Rose (S.faults source) (S.faults result.1) }
    ensures write_fault { result.0 ≡ Status.WriteFault → Rose (O.faults sink.old) (O.faults sink.new) }
    ensures disk_fault { result.0 ≡ Status.DiskFault → result.2.halted ≡ true }
    ensures halted { result.2.halted ≡ true → Rose (D.faults desk.store.journal.disk) (D.faults result.2.store.journal.disk) }
    ensures halted_status { result.2.halted ≡ true → 20 ≤ code_of result.0 }
    ensures too_long { result.0 ≡ Status.InputTooLong → IfSome (S.left source) (λ bytes. longest_input < length bytes) }
    ensures not_too_long { IsTrue (is_whole result.0) → IfSome (S.left source) (λ bytes. length bytes ≤ longest_input) }

    ensures source_faults { S.faults source ≤ S.faults result.1 }
    ensures sink_faults { O.faults sink.old ≤ O.faults sink.new }
    ensures disk_faults { D.faults desk.store.journal.disk ≤ D.faults result.2.store.journal.disk }
{
    desk.is_at_rest();
    let mut lines = match Lines::new(alloc, source) {
        Err(source) => return (Status::NoMemory, source, desk),
        Ok(lines) => lines,
    };
    match Stream::new(alloc, desk, issuing) {
        Err(desk) => (Status::NoMemory, lines.into_source(), desk),
        Ok(mut stream) => {
            let status = run(alloc, &mut lines, &mut stream, sink);
            (status, lines.into_source(), stream.into_desk())
        }
    }
}

/// Works the lines of a reader that has read nothing yet, from the state before the first line on.
fn run<S: Source, O: Sink, D: Disk>(
    alloc: Global,
    lines: &mut Lines<S>,
    stream: &mut Stream<D>,
    sink: &mut O,
) -> Status
    requires begins { lines.old ≡ at_start lines.old.left lines.old.faults }
    requires new { stream.old.state ≡ new_stream stream.old.state.issuing stream.old.state.position }
    ensures ran { Ran (machine (fault_in stream.new) stream.old.state.issuing stream.old.state.position) (λ s. stream.new.state ≡ s)
        (Rose lines.old.faults lines.new.faults) (Rose (O.faults sink.old) (O.faults sink.new))
        result lines.old.left lines.new.left (O.taken sink.old) (O.taken sink.new) }
    ensures moments { StaysAlong D.tells stream.old.state.issuing stream.old.state.position lines.old.left (most_left_of stream.new.state) stream.old.store stream.new.store }
    ensures in_doubt { stream.new.state.halted ≡ true →
        LeavesInDoubt D.tells stream.old.state.issuing stream.old.state.position lines.old.left stream.new.store stream.new.state.position }
    ensures idle { SameIdle stream.old.store stream.new.store }
    ensures read_fault { result ≡ Status.ReadFault → Rose lines.old.faults lines.new.faults }
    ensures write_fault { result ≡ Status.WriteFault → Rose (O.faults sink.old) (O.faults sink.new) }
    ensures disk_fault { result ≡ Status.DiskFault → stream.new.state.halted ≡ true }
    ensures halted { stream.new.state.halted ≡ true → Rose (D.faults stream.old.store.journal.disk) (D.faults stream.new.store.journal.disk) }
    ensures source_faults { lines.old.faults ≤ lines.new.faults }
    ensures sink_faults { O.faults sink.old ≤ O.faults sink.new }
    ensures disk_faults { D.faults stream.old.store.journal.disk ≤ D.faults stream.new.store.journal.disk }
{
    stream.is_at_rest();
    let mut replies = Replies::new(alloc);
    let mut room = Vec::new(alloc);
    'item: loop {
        let read = match next_statement(Kind::Stream, alloc, lines, &mut replies, sink, &mut room) {
            Ok(Ok(read)) => read,
            Ok(Err(stop)) => return end(stop, stream, &mut replies, sink),
            Err(Failed) => return unless_failed(stream.has_failed(), Status::WriteFault),
        };
        let Some(item) = read else {
            continue 'item;
        };
        let number = stream.number();
        match process_statement(alloc, stream, item, &mut replies, &mut room) {
            Ok(()) => {}
            Err(_) => return end(Stop::NoMemory, stream, &mut replies, sink),
        }
        match acknowledge(number, stream, &mut replies, sink) {
            Ok(()) => {}
            Err(Failed) => return unless_failed(stream.has_failed(), Status::WriteFault),
        }
    }
}

/// Processes a statement, and gathers its text. The memory of the statement's own text is left in `room`, for that of
/// the next one.
#[inline(always)]
fn process_statement<D: Disk>(
    alloc: Global,
    stream: &mut Stream<D>,
    item: Statement,
    replies: &mut Replies,
    room: &mut Vec<u8>,
) -> Result<(), AllocError>
    ensures processes { (issuing : Issuing) (base : Position) → Processes issuing base result (Some item) stream.old stream.new replies.old replies.new }
    ensures moves { Moves D.tells D.faults item stream.old stream.new }
    ensures fails { stream.old.state.halted ≡ false → stream.new.state.halted ≡ true → Fails D.tells item stream.old stream.new }
{
    let done = gather(alloc, stream, &item, replies);
    *room = item.into_room(alloc);
    done
}

/// Processes a statement, and gathers its text. Where memory is short, nothing more is gathered, and nothing else has
/// changed.
#[inline(always)]
fn gather<D: Disk>(
    alloc: Global,
    stream: &mut Stream<D>,
    item: &Statement,
    replies: &mut Replies,
) -> Result<(), AllocError>
    ensures ok { OnOk result (DoesOn (answer (fault_in stream.new) item.now) stream.old stream.new replies.old replies.new) }
    ensures err { OnErr result ((replies.new ≡ replies.old) × (stream.new ≡ stream.old)) }
    ensures moves { Moves D.tells D.faults item.now stream.old stream.new }
    ensures fails { stream.old.state.halted ≡ false → stream.new.state.halted ≡ true → Fails D.tells item.now stream.old stream.new }
{
    let room = replies.room()?;
    let done = stream.process(alloc, item, room);
    if done.is_err() {
        room.clear();
    }
    done
}

/// Writes what is gathered where a command was accepted, so that its reply doesn't wait.
#[inline(always)]
fn acknowledge<O: Sink, D: Disk>(
    number: u64,
    stream: &Stream<D>,
    replies: &mut Replies,
    sink: &mut O,
) -> Result<(), Failed>
    ensures settled { OnOk result (Acknowledges (number_of stream.now.state ≡ number) replies.old replies.new (O.taken sink.old) (O.taken sink.new)) }
    ensures front { OnErr result (IsCutShort replies.old (O.taken sink.old) (O.taken sink.new)) }
    ensures cause { HasCause (O.faults sink.old) (O.faults sink.new) result }
{
    if stream.number() == number {
        return Ok(());
    }
    replies.write_out(sink)
}

/// Ends a run that stops so: writes what is gathered, and tells the status.
fn end<O: Sink, D: Disk>(
    stop: Stop,
    stream: &Stream<D>,
    replies: &mut Replies,
    sink: &mut O,
) -> Status
    ensures ended { Ends (Rose (O.faults sink.old) (O.faults sink.new)) stop stream.now.state.halted stream.now.state.has_refused result replies.old (O.taken sink.old) (O.taken sink.new) }
    ensures read_fault { result ≡ Status.ReadFault → stop ≡ Stop.ReadFault }
    ensures write_fault { result ≡ Status.WriteFault → Rose (O.faults sink.old) (O.faults sink.new) }
    ensures disk_fault { result ≡ Status.DiskFault → stream.now.state.halted ≡ true }
    ensures sink_faults { O.faults sink.old ≤ O.faults sink.new }
{
    let (failed, refused) = (stream.has_failed(), stream.has_refused());
    end_run(stop, failed, refused, replies, sink)
}
