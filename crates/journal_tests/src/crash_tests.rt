//! Runs that stop: at a call of the disk that fails, and by a crash before that call or within the one before it.

use crate::layout_tests::{Opened, answer_at, disk_of, gave, open_disk};
use racf_journal::{Journal, JournalFault};
use racf_outside::MemoryDisk;
use std::process::Abort;

/// The record that the file holds.
const FIRST: &[u8] = &[0, 0, 0, 1, 0xFF];

/// The record that is appended.
const SECOND: &[u8] = &[0, 0, 0, 1, 2];

/// The file at rest with the first record.
const ONE: &[u8] = b"RACFJNL1\x01\0\0\0\x01\xFF\0";

/// The file at rest with both.
const BOTH: &[u8] = b"RACFJNL1\x01\0\0\0\x01\xFF\x01\0\0\0\x01\x02\0";

/// The file while the second doesn't count yet.
const BEHIND: &[u8] = b"RACFJNL1\x01\0\0\0\x01\xFF\0\0\0\0\x01\x02\0";

/// The same with another byte in the place of the closed gate.
const UNTIDY: &[u8] = b"RACFJNL1\x01\0\0\0\x01\xFF\x02\0\0\0\x01\x02\0";

/// The first part of it, up to that byte.
const UNCLOSED: &[u8] = b"RACFJNL1\x01\0\0\0\x01\xFF\x02";

/// What a run left of a file of which some bytes are in doubt.
#[derive(Clone, Copy)]
struct Moment<'a> {
    /// The file before the run.
    file: &'a [u8],
    /// What a read gives.
    bytes: &'a [u8],
    /// The first place that was written since the last sync, and the place behind the last.
    written: (usize, usize),
    /// The shortest end that the file had since that sync, and the longest.
    ends: (usize, usize),
}

/// How many images of a moment open as a journal of the first record, as one of both, and otherwise.
#[derive(Clone, Copy, PartialEq, Eq)]
struct Counts {
    /// Those of the first record.
    first: u64,
    /// Those of both.
    both: u64,
    /// All others.
    other: u64,
}

impl Moment<'_> {
    /// Whether a crash may leave any byte in this place.
    fn is_in_doubt(&self, place: usize) -> bool {
        self.written.0 <= place && place < self.written.1 || self.ends.0 <= place
    }

    /// How many choices there are of bytes in doubt before this end.
    fn choices(&self, end: usize) -> u64 {
        let mut count: u64 = 1;
        for place in 0..end {
            if self.is_in_doubt(place) {
                count = count.saturating_mul(2);
            }
        }
        count
    }

    /// The byte that a read gives, or the one that was cut off there.
    fn byte(&self, place: usize) -> u8 {
        match (self.bytes.get(place), self.file.get(place)) {
            (Some(byte), _) | (None, Some(byte)) => *byte,
            (None, None) => 0,
        }
    }

    /// An image that ends here: the bytes as they are, but for those in doubt that the choice picks.
    fn image(
        &self,
        rt: &(impl AllocGlobal + Abort),
        end: usize,
        choice: u64,
        other: u8,
    ) -> Vec<u8> {
        let mut image = Vec::new(rt.alloc());
        let mut choices = choice;
        for place in 0..end {
            let mut byte = self.byte(place);
            if self.is_in_doubt(place) {
                if choices % 2 == 1 {
                    byte = other;
                }
                choices /= 2;
            }
            image.push(byte).expect(rt, "memory");
        }
        image
    }

    /// Opens that image.
    fn opened(
        &self,
        rt: &(impl AllocGlobal + Abort),
        end: usize,
        choice: u64,
        other: u8,
    ) -> Opened {
        let image = self.image(rt, end, choice, other);
        open_disk(rt, disk_of(rt, &image, &[]))
    }

    /// Counts that image once it is opened.
    fn counted(
        &self,
        rt: &(impl AllocGlobal + Abort),
        counts: Counts,
        (end, choice, other): (usize, u64, u8),
    ) -> Counts {
        let opened = self.opened(rt, end, choice, other);
        counts.with(&opened)
    }

    /// Opens images of one length: that of the bytes as they are, and for each choice of bytes in doubt those with
    /// X'00', X'01', X'02' and X'FF' in their places.
    fn counted_to(&self, rt: &(impl AllocGlobal + Abort), counts: Counts, end: usize) -> Counts {
        let mut counts = self.counted(rt, counts, (end, 0, 0));
        for choice in 1..self.choices(end) {
            for other in [0, 1, 2, 0xFF] {
                counts = self.counted(rt, counts, (end, choice, other));
            }
        }
        counts
    }

    /// Opens images of each length.
    fn counts(&self, rt: &(impl AllocGlobal + Abort)) -> Counts {
        let mut counts = Counts {
            first: 0,
            both: 0,
            other: 0,
        };
        for end in self.ends.0..=self.ends.1 {
            counts = self.counted_to(rt, counts, end);
        }
        counts
    }
}

impl Counts {
    /// Counts an opening.
    fn with(self, opened: &Opened) -> Counts {
        let mut counts = self;
        if holds(opened, &[FIRST], ONE) {
            counts.first = counts.first.saturating_add(1);
        } else if holds(opened, &[FIRST, SECOND], BOTH) {
            counts.both = counts.both.saturating_add(1);
        } else {
            counts.other = counts.other.saturating_add(1);
        }
        counts
    }
}

/// Whether an opening gave these records, and left these bytes.
fn holds(opened: &Opened, records: &[&[u8]], bytes: &[u8]) -> bool {
    gave(opened, records) && opened.disk.bytes() == bytes
}

/// Opens a journal, and appends the second record where it is to. The disk, and the answer.
fn run(
    rt: &impl AllocGlobal,
    disk: MemoryDisk,
    appends: bool,
) -> (MemoryDisk, Result<(), JournalFault>) {
    match Journal::open(rt.alloc(), disk, 8) {
        Ok((mut journal, _)) => {
            let answer = if appends {
                journal.append(rt.alloc(), SECOND)
            } else {
                Ok(())
            };
            (journal.into_disk(), answer)
        }
        Err((disk, fault)) => (disk, Err(fault)),
    }
}

/// The number of the call that fails, or 0 where none does; what a read gives behind the run; the first place that was
/// written since the last sync, and the place behind the last; the shortest and the longest end since; the records that
/// opening the same disk again gives; how many images open as a journal of the first record, and how many as one of
/// both. None opens as anything else.
type Stop = (
    u64,
    &'static [u8],
    (usize, usize),
    (usize, usize),
    &'static [&'static [u8]],
    (u64, u64),
);

/// Runs that open the file with the first record (a sync and three reads) and append the second (a write and a sync of
/// the record, a write and a sync of the gate). No run has a ninth call.
const APPENDS: &[Stop] = &[
    (1, ONE, (0, 0), (15, 15), &[FIRST], (1, 0)),
    (2, ONE, (0, 0), (15, 15), &[FIRST], (1, 0)),
    (3, ONE, (0, 0), (15, 15), &[FIRST], (1, 0)),
    (4, ONE, (0, 0), (15, 15), &[FIRST], (1, 0)),
    (5, ONE, (0, 0), (15, 15), &[FIRST], (1, 0)),
    (6, BEHIND, (15, 21), (15, 21), &[FIRST], (487, 0)),
    (7, BEHIND, (0, 0), (21, 21), &[FIRST], (1, 0)),
    (8, BOTH, (14, 15), (21, 21), &[FIRST, SECOND], (3, 2)),
    (0, BOTH, (0, 0), (21, 21), &[FIRST, SECOND], (0, 1)),
];

/// Runs that open a file whose closed gate is X'02' and has a record behind it (a sync, three reads, a cut and its
/// sync, a write of the gate and its sync).
const OPENINGS: &[Stop] = &[
    (1, UNTIDY, (0, 0), (21, 21), &[FIRST], (1, 0)),
    (2, UNTIDY, (0, 0), (21, 21), &[FIRST], (1, 0)),
    (3, UNTIDY, (0, 0), (21, 21), &[FIRST], (1, 0)),
    (4, UNTIDY, (0, 0), (21, 21), &[FIRST], (1, 0)),
    (5, UNTIDY, (0, 0), (21, 21), &[FIRST], (1, 0)),
    (6, UNCLOSED, (0, 0), (15, 21), &[FIRST], (487, 0)),
    (7, UNCLOSED, (0, 0), (15, 15), &[FIRST], (1, 0)),
    (8, ONE, (14, 15), (15, 15), &[FIRST], (5, 0)),
    (0, ONE, (0, 0), (15, 15), &[FIRST], (1, 0)),
];

/// Whether the images of the moment that a run left open as told.
fn opens_as_told(
    rt: &(impl AllocGlobal + Abort),
    file: &[u8],
    (_, bytes, written, ends, _, (first, both)): &Stop,
) -> bool {
    let moment = Moment {
        file,
        bytes,
        written: *written,
        ends: *ends,
    };
    let counts = Counts {
        first: *first,
        both: *both,
        other: 0,
    };
    moment.counts(rt) == counts
}

/// Whether the run of a row answers as told and leaves its bytes, and its disk, opened again, gives its records.
fn stops_as_told(
    rt: &(impl AllocGlobal + Abort),
    file: &[u8],
    appends: bool,
    (failing, bytes, _, _, records, _): &Stop,
) -> bool {
    let (disk, answer) = run(rt, disk_of(rt, file, &[*failing]), appends);
    let told = answer == answer_at(*failing)
        && disk.faults() == u64::from(*failing != 0)
        && disk.bytes() == *bytes;
    let opened = open_disk(rt, disk);
    told && gave(&opened, records)
}

/// Makes the run of each row, opens the images of the moment that it left, and then its disk again.
fn stop(rt: &(impl AllocGlobal + Abort), file: &[u8], appends: bool, stops: &[Stop]) {
    for stop in stops {
        assert!(rt;
            stops_as_told(rt, file, appends, stop) && opens_as_told(rt, file, stop),
            "at call {}",
            stop.0
        );
    }
}

/// An append that stops before the write of the gate leaves the first record, one that stops behind it either the first
/// or both, and behind the sync of the gate both stay.
#[test]
fn runs_stop_within_an_append(rt: HostRuntime) {
    stop(&rt, ONE, true, APPENDS);
}

/// An opening that stops leaves the record from before, though a whole one stands behind the closed gate.
#[test]
fn runs_stop_within_an_opening(rt: HostRuntime) {
    stop(&rt, UNTIDY, false, OPENINGS);
}
