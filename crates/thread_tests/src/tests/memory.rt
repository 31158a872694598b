//! A run over sources, sinks and disks in memory, where memory may be wanting. Run alone, the test has ample memory; the
//! script `tests/refusals` runs it with allocations refused behind the line that it prints first.
ghost use Rattle.std.specs.Prelude.{◌≡◌, false, IfOk, vec_len};

use super::runs::files;
use racf_desk::Desk;
use racf_outside::{MemoryDisk, MemorySink, MemorySource, Two};
use racf_threads::{Ran, run};
use racf_workers::Idle;
use statements::{Issuing, Status};
use std::alloc::Global;
use std::process::Abort;
use std::sync::Wait;
use std::test::*;
use std::thread::Threads;

/// The deck of the run.
const DECK: &[u8] = b"AU A\nAU B\n";

/// Its request file, which waits for both commands, or until no more can come.
const REQUESTS: &[u8] = b"*AFTER 2\nVERIFY A IBMUSER\n";

/// What is left of the run.
type InMemory = Ran<MemorySource, MemorySink, MemoryDisk>;

/// What the deck and the request file print.
#[derive(Clone, Copy)]
struct Printed {
    /// The deck.
    deck: &'static [u8],
    /// The request file.
    file: &'static [u8],
}

/// What they print where so many commands are accepted, and a disk fails the next one or none.
fn printed_for(accepted: usize, failed: bool) -> Option<Printed> {
    let both = match (accepted, failed) {
        (2, false) => Printed {
            deck: b"1 ACCEPTED\n2 ACCEPTED\n",
            file: b"2 0 VERIFIED\n",
        },
        (1, false) => Printed {
            deck: b"1 ACCEPTED\n",
            file: b"NEVER 1\n1 0 VERIFIED\n",
        },
        (0, false) => Printed {
            deck: b"",
            file: b"NEVER 0\n0 0 VERIFIED\n",
        },
        (1, true) => Printed {
            deck: b"1 ACCEPTED\n1 DISKFAULT\n",
            file: b"NEVER 1\n1 0 VERIFIED\n",
        },
        (0, true) => Printed {
            deck: b"0 DISKFAULT\n0 HALTED\n",
            file: b"NEVER 0\n0 0 VERIFIED\n",
        },
        _ => return None,
    };
    Some(both)
}

/// Whether a sink has what its worker prints: a front in whole lines of it, and all of it unless memory ran out or a call
/// of the worker's own source or sink failed.
fn has_printed(out: &(MemorySource, MemorySink), status: Status, whole: &[u8]) -> bool {
    let (source, sink) = out;
    let written = sink.bytes();
    let is_cut = status == Status::NoMemory || source.faults() > 0 || sink.faults() > 0;
    whole.starts_with(written)
        && (written.len() == whole.len()
            || is_cut && (written.is_empty() || written.ends_with(b"\n")))
}

/// Whether both sources and both sinks are handed back, with what is printed in such a run. There are none where there
/// was no room for the list of both; then nothing was done.
fn have_printed(ran: &InMemory) -> bool {
    let accepted = ran.accepted.len();
    let failed = ran.doubt.is_some();
    let Some(whole) = printed_for(accepted, failed) else {
        return false;
    };
    match ran.outs.as_slice() {
        [deck, file] => {
            has_printed(deck, ran.status, whole.deck) && has_printed(file, ran.status, whole.file)
        }
        [] => ran.status == Status::NoMemory && accepted == 0 && !failed,
        _ => false,
    }
}

/// Whether a call of a source failed.
fn read_failed(ran: &InMemory) -> bool {
    match ran.outs.as_slice() {
        [(deck, _), (file, _)] => deck.faults() > 0 || file.faults() > 0,
        _ => false,
    }
}

/// Whether a call of a sink failed.
fn write_failed(ran: &InMemory) -> bool {
    match ran.outs.as_slice() {
        [(_, deck), (_, file)] => deck.faults() > 0 || file.faults() > 0,
        _ => false,
    }
}

/// Whether the status has its cause.
fn has_cause(ran: &InMemory) -> bool {
    match ran.status {
        Status::Done => ran.accepted.len() == 2,
        Status::ReadFault => read_failed(ran),
        Status::WriteFault => write_failed(ran),
        Status::DiskFault => ran.doubt.is_some(),
        Status::NoMemory => true,
        _ => false,
    }
}

/// Whether no fault has a greater code than the status.
fn has_the_greatest(ran: &InMemory) -> bool {
    let code = ran.status.code();
    (code >= 12 || !read_failed(ran))
        && (code >= 16 || !write_failed(ran))
        && (code >= 20 || !ran.doubt.is_some())
}

/// Whether the first disk is handed back with a record of each command that was accepted, and with none of another but
/// that which it failed, and the second as it was; the files of a new database have 361 and 9 bytes, and each of these
/// records 30.
fn has_records(ran: &InMemory) -> bool {
    let accepted = ran.accepted.len();
    let failed = ran.doubt.is_some();
    let records = match ran.disks.first.bytes().len() {
        361 => 0,
        391 => 1,
        421 => 2,
        _ => return false,
    };
    ran.disks.second.bytes().len() == 9
        && failed == (ran.disks.first.faults() > 0)
        && (accepted == records || failed && accepted + 1 == records)
}

/// Whether the run ended as it may, wherever memory was wanting.
fn is_lawful(ran: &InMemory) -> bool {
    have_printed(ran) && has_cause(ran) && has_the_greatest(ran) && has_records(ran)
}

/// Works the decks and the request files, and answers how that ended.
fn worked<R: Abort + Wait + Threads + Sync>(
    rt: &R,
    alloc: Global,
    desk: Desk<MemoryDisk>,
    decks: Vec<(MemorySource, MemorySink)>,
    requests: Vec<(MemorySource, MemorySink)>,
) -> Status
    requires running { desk.halted ≡ false }
    requires settled { desk.committed ≡ false }
    requires one { (vec_len decks ≡ 1) × (vec_len requests ≡ 1) }
{
    let ran = run(rt, alloc, desk, decks, requests, Issuing::Free, &Idle);
    assert!(rt; is_lawful(&ran));
    let Ran {
        status,
        outs: _,
        disks: _,
        first: _,
        accepted: _,
        doubt: _,
    } = ran;
    status
}

/// A desk over a new database.
fn new_desk(alloc: Global) -> Result<Desk<MemoryDisk>, Fail>
    ensures running { IfOk result (λ desk. desk.halted ≡ false) }
    ensures settled { IfOk result (λ desk. desk.committed ≡ false) }
{
    let disks = Two {
        first: MemoryDisk::new(alloc, Vec::new(alloc), Vec::new(alloc))?,
        second: MemoryDisk::new(alloc, Vec::new(alloc), Vec::new(alloc))?,
    };
    match Desk::format(alloc, disks) {
        Ok(desk) => Ok(desk),
        Err(_) => Err("a new database".into()),
    }
}

/// A run is whole, or memory is wanting.
#[test]
fn run_in_memory(rt: HostRuntime) -> Result<(), Fail> {
    let decks = files(rt.alloc(), &[DECK])?;
    let requests = files(rt.alloc(), &[REQUESTS])?;
    let desk = new_desk(rt.alloc())?;
    assert!(rt; println!(rt; "FROM HERE").is_ok());
    match worked(&rt, rt.alloc(), desk, decks, requests) {
        Status::Done => println!(rt; "MADE")?,
        _ => println!(rt; "NO MEMORY")?,
    }
    Ok(())
}
