//! Runs of the top call over a shelf and disks in memory, one of whose calls fails: how each ends, what it prints, and
//! what both disks read as then.

use crate::files::{Pair, disks_of, read_as};
use crate::openings::{OPENINGS, REFUSED};
use crate::run_rows::{ISSUED, LATER_FAULTS, OPENED, WORKED};
use racf_outside::{Failing, MemoryDisk, MemoryShelf, Two};
use racf_run::{Idle, Status, racf};
use std::process::Abort;
use std::sync::Wait;
use std::thread::Threads;

/// The words that work a stream from standard input to standard output.
pub(crate) const SCRIPT: &[&str] = &["script", "-", "-"];

/// Who are users: JOE, BOB, JIM?
pub(crate) const QUESTIONS: &str = "VERIFY A JOE\nVERIFY B BOB\nVERIFY C JIM\n";

/// The words; what the disks hold, and which call of each fails, or 0 where none does; standard input; the status and
/// its code; standard output, where it was opened; and what the disks read as then.
pub(crate) type Run = (
    &'static [&'static str],
    Pair,
    (u64, u64),
    &'static str,
    (Status, u8),
    Option<&'static str>,
    Pair,
);

/// How a run ended.
#[derive(Drop)]
pub(crate) struct Ended {
    /// Its status.
    pub(crate) status: Status,
    /// The shelf behind it.
    pub(crate) shelf: MemoryShelf,
    /// The disks behind it.
    pub(crate) disks: Two<MemoryDisk>,
}

/// These words.
fn words_of(rt: &(impl AllocGlobal + Abort), words: &[&str]) -> Vec<String> {
    let mut owned = Vec::new(rt.alloc());
    for word in words {
        let word = String::from_str(rt.alloc(), word).expect(rt, "memory");
        assert!(rt; owned.push(word).is_ok());
    }
    owned
}

/// A shelf whose standard input is this text. Of its calls those of these numbers fail, none where they are 0: an
/// opening of an input, a read, and a write.
fn shelf_of(
    rt: &(impl AllocGlobal + Abort),
    input: &str,
    [opening, read, write]: [u64; 3],
) -> MemoryShelf {
    let bytes = Vec::from_slice(rt.alloc(), input.as_bytes()).expect(rt, "memory");
    let failing = Failing {
        sources: Vec::from_slice(rt.alloc(), &[opening]).expect(rt, "memory"),
        sinks: Vec::new(rt.alloc()),
        writes: Vec::from_slice(rt.alloc(), &[write]).expect(rt, "memory"),
    };
    let reads = Vec::from_slice(rt.alloc(), &[read]).expect(rt, "memory");
    let mut shelf = MemoryShelf::new(rt.alloc(), failing);
    assert!(rt; shelf.put("-", bytes, reads).is_ok());
    shelf
}

/// Whether standard output was written so, or was never opened.
pub(crate) fn has_printed(shelf: &MemoryShelf, wanted: Option<&str>) -> bool {
    match (shelf.output("-"), wanted) {
        (Some(bytes), Some(text)) => bytes == text.as_bytes(),
        (None, None) => true,
        _ => false,
    }
}

/// Works the words over the disks, with this standard input, and calls of the shelf that fail.
pub(crate) fn run(
    rt: &(impl AllocGlobal + Abort + Wait + Threads + Sync),
    (words, input): (&[&str], &str),
    failing: [u64; 3],
    disks: Two<MemoryDisk>,
) -> Ended {
    let words = words_of(rt, words);
    let mut shelf = shelf_of(rt, input, failing);
    let (status, disks) = racf(rt, rt.alloc(), words.as_slice(), &mut shelf, disks, &Idle);
    Ended {
        status,
        shelf,
        disks,
    }
}

/// Whether a run ended as the row says, and a disk failed exactly where the status tells of it.
fn is_as_asked(ended: &Ended, asked: &Run) -> bool {
    let (_, _, _, _, (wanted, code), printed, left) = asked;
    let disks = &ended.disks;
    let faults = disks.first.faults().saturating_add(disks.second.faults());
    ended.status == *wanted
        && ended.status.code() == *code
        && has_printed(&ended.shelf, *printed)
        && read_as(disks, left)
        && faults == u64::from(*wanted == Status::DiskFault)
}

/// Whether a run ends as the row says, over a shelf of which these calls fail.
fn ends(
    rt: &(impl AllocGlobal + Abort + Wait + Threads + Sync),
    asked: &Run,
    failing_shelf: [u64; 3],
) -> bool {
    let (words, held, failing, input, ..) = asked;
    let disks = disks_of(rt, held, *failing, false);
    let ended = run(rt, (words, input), failing_shelf, disks);
    is_as_asked(&ended, asked)
}

/// Asserts how a run ends, over a shelf of which these calls fail.
fn assert_ends(
    rt: &(impl AllocGlobal + Abort + Wait + Threads + Sync),
    asked: &Run,
    failing_shelf: [u64; 3],
) {
    assert!(rt; ends(rt, asked, failing_shelf), "{}", asked.3);
}

/// Asserts how each of the runs ends. Where it is to open no output, the first opening of an input is to fail: only who
/// has opened the database meets that.
fn assert_all(rt: &(impl AllocGlobal + Abort + Wait + Threads + Sync), runs: &[Run]) {
    for asked in runs {
        let (_, _, _, _, _, printed, _) = asked;
        assert_ends(rt, asked, [u64::from(printed.is_none()), 0, 0]);
    }
}

/// Runs that open no database, or make one, end so.
#[test]
fn databases_are_made(rt: HostRuntime) {
    assert_all(&rt, OPENED);
}

/// Runs at a database end so.
#[test]
fn databases_are_worked(rt: HostRuntime) {
    assert_all(&rt, WORKED);
}

/// Who gives the commands is told by the words.
#[test]
fn issuers_are_fixed(rt: HostRuntime) {
    assert_all(&rt, ISSUED);
}

/// Two files stand for a position.
#[test]
fn files_are_opened(rt: HostRuntime) {
    for (held, answers, left) in OPENINGS {
        let opened = (Status::Done, 0);
        let asked = (
            SCRIPT,
            *held,
            (0, 0),
            QUESTIONS,
            opened,
            Some(*answers),
            *left,
        );
        assert_ends(&rt, &asked, [0; 3]);
    }
}

/// Or they are refused. The first opening of an input is to fail: only who has opened the database meets that.
#[test]
fn files_are_refused(rt: HostRuntime) {
    for (held, fault) in REFUSED {
        let asked = (SCRIPT, *held, (0, 0), QUESTIONS, (*fault, 24), None, *held);
        assert_ends(&rt, &asked, [1, 0, 0]);
    }
}

/// Behind a fault of the disk a read or a write fails too: the status tells of the disk.
#[test]
fn a_fault_of_the_disk_counts_for_more(rt: HostRuntime) {
    for ((opening, read, write), asked) in LATER_FAULTS {
        assert_ends(&rt, asked, [*opening, *read, *write]);
    }
}
