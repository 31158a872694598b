//! Questions, from the first line to the last.

ghost use Rattle.std.specs.Prelude.{ℕ, ◌≡◌, ◌≢◌, ◌≤◌, ◌<◌, [], false, IfSome, IsTrue, length};
ghost use Rattle.std.specs.Io.KnownBytes.{append_known};
ghost use Rattle.racf_outside.specs.Causes.{Rose};
ghost use Rattle.racf_outside.specs.Reader.{at_start};
ghost use Rattle.desk_rules.specs.Position.{Position};
ghost use Rattle.statements.specs.Runs.{Ran, longest_input};
ghost use Rattle.statements.specs.Status.{is_whole};
ghost use Rattle.racf_ask.specs.Asking.{AskState, asking, ask_output, ask_status};

use crate::between::Between;
use crate::reading::next_line;
use racf_outside::{Failed, Lines, Sink, Source};
use raclist_image::Image;
use statements::{Replies, Status, Stop, end_run, write_before_read};
use std::alloc::Global;

/// Answers the lines of a source on an image, and writes the answers to the sink. The status tells how it ended; the
/// source is given back with what it has left. Each line is a request by itself; blank lines and comments are skipped,
/// and a line whose first word is no request's is refused. `*AFTER` prints nothing where the image's number is at least
/// that of the line, and else that it is never reached. Where lines are numbered, in front of each line that is printed
/// stand the number of the input's line, which counts all of them from 1 on, and a blank: so what has one number is the
/// answer to one line. The answers are gathered, and written before the source is read again and before the end: a
/// source that gives line after line has each answer before it is asked for the next one. Time grows with the input's
/// length, and for each line with what its request takes.
pub fn ask<S: Source, O: Sink>(
    alloc: Global,
    image: &Image,
    numbered: bool,
    source: S,
    sink: &mut O,
) -> (Status, S)
    // Which bytes were read, and what was written for them, wherever it stopped, at each position with this image.
    ensures ran { (base : Position) → base.image ≡ image.now → Ran (asking numbered base) (λ (s : AskState). Unit {0})
        (Rose (S.faults source) (S.faults result.1)) (Rose (O.faults sink.old) (O.faults sink.new))
        result.0 (S.left source) (S.left result.1) (O.taken sink.old) (O.taken sink.new) }

    // Where the input was read to its end, all of its output was written, and nothing else.
    ensures whole { (base : Position) → base.image ≡ image.now → IsTrue (is_whole result.0) → IfSome (S.left source) (λ bytes.
        (O.taken sink.new ≡ append_known (O.taken sink.old) (ask_output numbered base bytes)) × (result.0 ≡ ask_status numbered base bytes)) }

    // Why it stopped.
    ensures no_other { (result.0 ≢ Status.Usage) × (result.0 ≢ Status.NotFormatted) × (result.0 ≢ Status.DiskFault) }
    ensures undamaged { (place : ℕ) → result.0 ≢ Status.Damaged place }
    ensures read_fault { result.0 ≡ Status.ReadFault → Rose (S.faults source) (S.faults result.1) }
    ensures write_fault { result.0 ≡ Status.WriteFault → Rose (O.faults sink.old) (O.faults sink.new) }
    ensures too_long { result.0 ≡ Status.InputTooLong → IfSome (S.left source) (λ bytes. longest_input < length bytes) }
    ensures not_too_long { IsTrue (is_whole result.0) → IfSome (S.left source) (λ bytes. length bytes ≤ longest_input) }

    ensures source_faults { S.faults source ≤ S.faults result.1 }
    ensures sink_faults { O.faults sink.old ≤ O.faults sink.new }
{
    let mut lines = match Lines::new(alloc, source) {
        Err(source) => return (Status::NoMemory, source),
        Ok(lines) => lines,
    };
    match Between::new(alloc) {
        Err(_) => (Status::NoMemory, lines.into_source()),
        Ok(mut state) => {
            let status = run(alloc, image, numbered, &mut lines, &mut state, sink);
            (status, lines.into_source())
        }
    }
}

/// Answers the lines of a reader that has read nothing yet.
fn run<S: Source, O: Sink>(
    alloc: Global,
    image: &Image,
    numbered: bool,
    lines: &mut Lines<S>,
    state: &mut Between,
    sink: &mut O,
) -> Status
    requires begins { lines.old ≡ at_start lines.old.left lines.old.faults }
    requires new { state.old ≡ record { acees = []; has_refused = false; lines = 0 } }
    ensures ran { (base : Position) → base.image ≡ image.now → Ran (asking numbered base) (λ (s : AskState). Unit {0})
        (Rose lines.old.faults lines.new.faults) (Rose (O.faults sink.old) (O.faults sink.new))
        result lines.old.left lines.new.left (O.taken sink.old) (O.taken sink.new) }
    ensures disk_fault { result ≢ Status.DiskFault }
    ensures read_fault { result ≡ Status.ReadFault → Rose lines.old.faults lines.new.faults }
    ensures write_fault { result ≡ Status.WriteFault → Rose (O.faults sink.old) (O.faults sink.new) }
    ensures source_faults { lines.old.faults ≤ lines.new.faults }
    ensures sink_faults { O.faults sink.old ≤ O.faults sink.new }
{
    let mut replies = Replies::new(alloc);
    'line: loop {
        match write_before_read(lines, &mut replies, sink) {
            Ok(()) => {}
            Err(Failed) => return Status::WriteFault,
        }
        let told = match next_line(lines) {
            Ok(told) => told,
            Err(stop) => return end_run(stop, false, state.has_refused(), &mut replies, sink),
        };
        match state.answer(alloc, image, numbered, &told, &mut replies) {
            Ok(()) => {}
            Err(_) => {
                return end_run(
                    Stop::NoMemory,
                    false,
                    state.has_refused(),
                    &mut replies,
                    sink,
                );
            }
        }
    }
}
