//! A table of all calls of both disks that `init`, `script` and `compact` make: each of them fails in turn, once doing
//! nothing and once done by half, and the run stops at each in turn. What is there then is opened again, and worked on.

use crate::files::{NEW, Pair, disk_of, disks_of, read_as};
use crate::moments::assert_moment;
use crate::opening_rows::{NEW_DATABASES, OTHER_NEW_DATABASES, REPAIRS};
use crate::runs::{Ended, QUESTIONS, SCRIPT, has_printed, run};
use crate::stream_rows::STREAMS;
use crate::writing_rows::{COMMANDS, COMPACTIONS, LAST_EPOCHS};
use racf_outside::{MemoryDisk, Two};
use racf_run::Status;
use std::process::Abort;
use std::sync::Wait;
use std::thread::Threads;

/// A call of a disk.
#[derive(Clone, Copy)]
pub(crate) enum Call {
    /// A read.
    Read,
    /// A sync.
    Sync,
    /// A write from this place on up to that one.
    Write(usize, usize),
    /// A cut to this length.
    Cut(usize),
}

/// What is done with two disks.
#[derive(Clone, Copy)]
pub(crate) struct Deed {
    /// The words, and standard input.
    pub(crate) asked: (&'static [&'static str], &'static str),
    /// What the disks hold before.
    pub(crate) held: Pair,
    /// The words that what was stopped is gone on with; where there are none, the questions are enough.
    pub(crate) again: Option<&'static [&'static str]>,
    /// Whether there may be no database where it was stopped, or still the one from before.
    pub(crate) makes: bool,
}

/// Where a database stands: what is answered to the three questions, and what the disks read as where it was gone on.
pub(crate) type Stand = (&'static str, Pair);

/// A part of the calls, which begins with this one, counted from 0; what is printed where one of them fails, and behind
/// the last call, where none does; from which call on, and at which place of the file, the byte stands that says
/// whether the database stands where the next part has it; and where it stands.
pub(crate) type Part = (usize, Option<&'static str>, (usize, usize), Stand);

/// No byte says that.
pub(crate) const NO_GATE: (usize, usize) = (usize::MAX, 0);

/// The calls that a deed makes of one of the disks, the second or not, in their parts, of which the last is behind all.
#[derive(Clone, Copy)]
pub(crate) struct Row {
    pub(crate) deed: Deed,
    pub(crate) second: bool,
    pub(crate) calls: &'static [Call],
    pub(crate) parts: &'static [Part],
}

/// A row, stopped at this call, counted from 0; behind the last call it isn't stopped.
#[derive(Clone, Copy)]
pub(crate) struct Stop<'a> {
    pub(crate) row: &'a Row,
    pub(crate) place: usize,
}

/// The byte at a place, or 0 behind the end.
pub(crate) fn byte_at(bytes: &[u8], place: usize) -> u8 {
    match bytes.get(place) {
        Some(byte) => *byte,
        None => 0,
    }
}

/// No part.
const NO_PART: Part = (0, None, NO_GATE, ("", NEW));

impl Stop<'_> {
    /// Whether a call fails: its place is below the number of calls.
    fn fails(&self) -> bool {
        self.place < self.row.calls.len()
    }

    /// The part of the calls that it stops in, and the next.
    fn parts(&self) -> [Part; 2] {
        let mut now = NO_PART;
        for part in self.row.parts {
            if self.place < part.0 {
                return [now, *part];
            }
            now = *part;
        }
        [now, now]
    }

    /// Where a database stands of which the disk reads as this image: whether by the byte that says whether the next
    /// part is done, and where.
    fn stand(&self, image: &[u8]) -> (bool, Stand) {
        let [(_, _, (call, gate), here), (_, _, _, next)] = self.parts();
        if call <= self.place && byte_at(image, gate) == 1 {
            (true, next)
        } else {
            (false, here)
        }
    }

    /// Does the deed where that call fails, and does nothing or half.
    pub(crate) fn run(
        &self,
        rt: &(impl AllocGlobal + Abort + Wait + Threads + Sync),
        half: bool,
    ) -> Ended {
        let failing = (self.place as u64).saturating_add(1);
        let failing = if self.row.second {
            (0, failing)
        } else {
            (failing, 0)
        };
        let disks = disks_of(rt, &self.row.deed.held, failing, half);
        run(rt, self.row.deed.asked, [0; 3], disks)
    }

    /// Whether the deed ended as its part says: with the fault of the disk exactly where the call fails, which that disk
    /// counts and the other one doesn't.
    fn is_end(&self, ended: &Ended) -> bool {
        let Two { first, second } = &ended.disks;
        let faults = if self.row.second {
            (second.faults(), first.faults())
        } else {
            (first.faults(), second.faults())
        };
        let fails = self.fails();
        let [(_, printed, _, _), _] = self.parts();
        (ended.status == Status::DiskFault) == fails
            && has_printed(&ended.shelf, printed)
            && (fails || printed.is_some() || ended.status == Status::Done)
            && faults == (u64::from(fails), 0)
    }

    /// Whether the three questions were answered so where the disk reads as this image.
    fn is_answered(&self, image: &[u8], ended: &Ended) -> bool {
        let (is_next, (answers, _)) = self.stand(image);
        let [_, (_, _, _, (next, _))] = self.parts();
        let makes = self.row.deed.makes && self.fails() && !is_next;
        has_printed(&ended.shelf, Some(answers))
            || makes && (has_printed(&ended.shelf, Some(next)) || is_refused(ended))
    }

    /// The disk that fails, and the other one.
    pub(crate) fn by_role(&self, disks: Two<MemoryDisk>) -> (MemoryDisk, MemoryDisk) {
        let Two { first, second } = disks;
        if self.row.second {
            (second, first)
        } else {
            (first, second)
        }
    }

    /// Disks of which that one holds these bytes, and the other one those.
    fn disks(
        &self,
        rt: &(impl AllocGlobal + Abort),
        image: &[u8],
        other: &[u8],
    ) -> Two<MemoryDisk> {
        let (first, second) = if self.row.second {
            (other, image)
        } else {
            (image, other)
        };
        Two {
            first: disk_of(rt, first, 0, false),
            second: disk_of(rt, second, 0, false),
        }
    }
}

/// Whether a run says that there is no database.
fn is_refused(ended: &Ended) -> bool {
    matches!(ended.status, Status::NotFormatted | Status::Damaged(_))
        && has_printed(&ended.shelf, None)
}

/// Asserts what the three questions are answered where the disk reads as this image, and gives the disks behind them.
pub(crate) fn assert_answers(
    rt: &(impl AllocGlobal + Abort + Wait + Threads + Sync),
    stop: &Stop<'_>,
    image: &[u8],
    other: &[u8],
) -> Two<MemoryDisk> {
    let disks = stop.disks(rt, image, other);
    let ended = run(rt, (SCRIPT, QUESTIONS), [0; 3], disks);
    assert!(rt;
        stop.is_answered(image, &ended),
        "call {} fails: {image:?}",
        stop.place
    );
    ended.disks
}

/// The disks behind the questions, and behind the deed where it is gone on with.
fn gone_on(
    rt: &(impl AllocGlobal + Abort + Wait + Threads + Sync),
    stop: &Stop<'_>,
    image: &[u8],
    other: &[u8],
) -> Two<MemoryDisk> {
    let disks = assert_answers(rt, stop, image, other);
    let Some(words) = stop.row.deed.again else {
        return disks;
    };
    run(rt, (words, ""), [0; 3], stop.disks(rt, image, other)).disks
}

/// Asserts that the disk that reads as this image stands for the database, and what is left where the deed is gone on
/// with.
pub(crate) fn assert_stands(
    rt: &(impl AllocGlobal + Abort + Wait + Threads + Sync),
    stop: &Stop<'_>,
    image: &[u8],
    other: &[u8],
) {
    let (_, (_, left)) = stop.stand(image);
    assert!(rt;
        read_as(&gone_on(rt, stop, image, other), &left),
        "call {} fails: {image:?} isn't gone on with",
        stop.place
    );
}

/// Lets the call fail, asserts how the deed ends, and opens what is left.
fn assert_stop(
    rt: &(impl AllocGlobal + Abort + Wait + Threads + Sync),
    stop: &Stop<'_>,
    half: bool,
) {
    let ended = stop.run(rt, half);
    assert!(rt; stop.is_end(&ended), "call {} fails", stop.place);
    let (disk, other) = stop.by_role(ended.disks);
    assert_stands(rt, stop, disk.bytes(), other.bytes());
}

/// Each call of the row fails in turn, and then none.
fn assert_row(rt: &(impl AllocGlobal + Abort + Wait + Threads + Sync), row: &Row) {
    for place in 0..=row.calls.len() {
        let stop = Stop { row, place };
        assert_stop(rt, &stop, false);
        assert_stop(rt, &stop, true);
        assert_moment(rt, &stop);
    }
}

/// Each call of each of the rows fails in turn.
fn assert_rows(rt: &(impl AllocGlobal + Abort + Wait + Threads + Sync), rows: &[Row]) {
    for row in rows {
        assert_row(rt, row);
    }
}

/// A new database is broken off: there is the old one, the new one or none.
#[test]
fn new_databases_stop(rt: HostRuntime) {
    assert_rows(&rt, NEW_DATABASES);
}

/// The same where the first of the two checkpoints is the newer one, and where the last epoch is reached.
#[test]
fn other_new_databases_stop(rt: HostRuntime) {
    assert_rows(&rt, OTHER_NEW_DATABASES);
}

/// An opening that repairs the end of a journal is broken off: the database is as it was.
#[test]
fn repairs_stop(rt: HostRuntime) {
    assert_rows(&rt, REPAIRS);
}

/// A command is broken off: the database is as before it, or as behind it where its gate is open.
#[test]
fn commands_stop(rt: HostRuntime) {
    assert_rows(&rt, COMMANDS);
}

/// A compaction is broken off: the database is as it was, and is compacted then.
#[test]
fn compactions_stop(rt: HostRuntime) {
    assert_rows(&rt, COMPACTIONS);
}

/// The same in the last epochs.
#[test]
fn last_epochs_stop(rt: HostRuntime) {
    assert_rows(&rt, LAST_EPOCHS);
}

/// Each accepted command of a stream fails in turn: it is told so, each further command is told that the desk is
/// halted, and requests are answered on.
#[test]
fn streams_stop(rt: HostRuntime) {
    assert_rows(&rt, STREAMS);
}
