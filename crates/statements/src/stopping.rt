//! How a run ends.

ghost use Rattle.std.specs.Prelude.{◌≡◌, ◌≤◌, true};
ghost use Rattle.racf_outside.specs.Causes.{Rose};
ghost use Rattle.statements.specs.Stopping.{Ends, stop_status, unless_failed};

use crate::replies::Replies;
use crate::status::Status;
use racf_outside::{Failed, Sink};

/// Why no item comes.
#[derive(Clone, Copy)]
pub enum Stop {
    /// The input has ended.
    End,
    /// Reading the input failed.
    ReadFault,
    /// A line doesn't end within the longest input.
    InputTooLong,
    /// Memory ran out.
    NoMemory,
}

/// Ends a run that stops so, where a disk failed or not, and some line was refused or none: writes what is gathered,
/// and tells the status.
pub fn end_run<O: Sink>(
    stop: Stop,
    failed: bool,
    refused: bool,
    replies: &mut Replies,
    sink: &mut O,
) -> Status
    ensures ended { Ends (Rose (O.faults sink.old) (O.faults sink.new)) stop failed refused result replies.old (O.taken sink.old) (O.taken sink.new) }
    ensures read_fault { result ≡ Status.ReadFault → stop ≡ Stop.ReadFault }
    ensures write_fault { result ≡ Status.WriteFault → Rose (O.faults sink.old) (O.faults sink.new) }
    ensures disk_fault { result ≡ Status.DiskFault → failed ≡ true }
    ensures sink_faults { O.faults sink.old ≤ O.faults sink.new }
{
    match replies.write_out(sink) {
        Ok(()) => stop_status(stop, failed, refused),
        Err(Failed) => unless_failed(failed, Status::WriteFault),
    }
}

/// The status of a run that stops so, where all that was gathered is written.
fn stop_status(stop: Stop, failed: bool, refused: bool) -> Status
    ensures { result ≡ stop_status stop failed refused }
{
    match stop {
        Stop::End if refused => unless_failed(failed, Status::Refusals),
        Stop::End => unless_failed(failed, Status::Done),
        Stop::ReadFault => unless_failed(failed, Status::ReadFault),
        Stop::InputTooLong => Status::InputTooLong,
        Stop::NoMemory => Status::NoMemory,
    }
}

/// This status, unless a disk failed, which counts for more.
pub fn unless_failed(failed: bool, status: Status) -> Status
    ensures { result ≡ unless_failed failed status }
{
    if failed { Status::DiskFault } else { status }
}
