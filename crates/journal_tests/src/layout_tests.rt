//! What lies on the disk of a journal: behind `format`, behind `append`, and before and behind `open`.

use access_levels::Text;
use racf_journal::{Journal, JournalFault};
use racf_outside::MemoryDisk;
use std::process::Abort;

/// A disk behind an opening, and what that gave.
#[derive(Drop)]
pub(crate) struct Opened {
    /// The disk.
    pub(crate) disk: MemoryDisk,
    /// The records, or why there are none.
    pub(crate) found: Result<Vec<Text>, JournalFault>,
}

/// A disk in memory that holds these bytes, and of whose calls these are to fail.
pub(crate) fn disk_of(
    rt: &(impl AllocGlobal + Abort),
    bytes: &[u8],
    failing: &[u64],
) -> MemoryDisk {
    let bytes = Vec::from_slice(rt.alloc(), bytes).expect(rt, "memory");
    let failing = Vec::from_slice(rt.alloc(), failing).expect(rt, "memory");
    MemoryDisk::new(rt.alloc(), bytes, failing).expect(rt, "memory")
}

/// What an opening gave, and its disk.
fn behind(answer: Result<(Journal<MemoryDisk>, Vec<Text>), (MemoryDisk, JournalFault)>) -> Opened {
    match answer {
        Ok((journal, records)) => Opened {
            disk: journal.into_disk(),
            found: Ok(records),
        },
        Err((disk, fault)) => Opened {
            disk,
            found: Err(fault),
        },
    }
}

/// Opens the journal that begins at place 8.
pub(crate) fn open_disk(rt: &impl AllocGlobal, disk: MemoryDisk) -> Opened {
    behind(Journal::open(rt.alloc(), disk, 8))
}

/// Opens the journal that begins at a place behind 8 within the file, and without such a place at 8.
fn opened_at(rt: &impl AllocGlobal, disk: MemoryDisk, start: u64) -> Opened {
    if start <= 8 || start > disk.bytes().len() as u64 {
        return open_disk(rt, disk);
    }
    behind(Journal::open(rt.alloc(), disk, start))
}

/// Whether an opening gave just these records.
pub(crate) fn gave(opened: &Opened, records: &[&[u8]]) -> bool {
    match &opened.found {
        Ok(found) => are(found, records),
        Err(_) => false,
    }
}

/// Whether an opening gave this fault.
fn refused(opened: &Opened, fault: JournalFault) -> bool {
    match &opened.found {
        Ok(_) => false,
        Err(other) => *other == fault,
    }
}

/// Whether these texts are just these records.
fn are(found: &[Text], records: &[&[u8]]) -> bool {
    for (place, text) in found.iter().enumerate() {
        if place >= records.len() || text.bytes() != records[place] {
            return false;
        }
    }
    found.len() == records.len()
}

/// What a run answers whose call of this number fails, or none where it is 0.
pub(crate) fn answer_at(failing: u64) -> Result<(), JournalFault> {
    if failing == 0 {
        Ok(())
    } else {
        Err(JournalFault::DiskFault)
    }
}

/// What the disk holds, which call of `format` is to fail, and what a read gives behind it.
type Formatting = (&'static [u8], &'static [u64], &'static [u8]);

/// The calls are a write, a cut and a sync.
const FORMATS: &[Formatting] = &[
    (b"", &[], b"RACFJNL1\0"),
    (b"ABC", &[], b"RACFJNL1\0"),
    (b"RACFJNL1\x01\0\0\0\x01A\0", &[], b"RACFJNL1\0"),
    (b"ABCDEFGHIJKL", &[1], b"ABCDEFGHIJKL"),
    (b"ABCDEFGHIJKL", &[2], b"RACFJNL1\0JKL"),
    (b"ABCDEFGHIJKL", &[3], b"RACFJNL1\0"),
];

/// Whether a disk is formatted, or fails, as told: then it is handed back, and has counted that.
fn formats_as_told(rt: &(impl AllocGlobal + Abort), (held, failing, left): &Formatting) -> bool {
    match Journal::format(disk_of(rt, held, failing)) {
        Ok(journal) => journal.into_disk().bytes() == *left && failing.is_empty(),
        Err((disk, fault)) => {
            failing.len() == 1
                && fault == JournalFault::DiskFault
                && disk.faults() == 1
                && disk.bytes() == *left
        }
    }
}

/// A disk is formatted whatever it held; one that fails is handed back, and has counted that.
#[test]
fn disks_are_formatted(rt: HostRuntime) {
    for formatting in FORMATS {
        assert!(rt; formats_as_told(&rt, formatting));
    }
}

/// The file, where the journal begins, what opening it gives, and what it leaves.
type Opening = (
    &'static [u8],
    u64,
    Result<&'static [&'static [u8]], JournalFault>,
    &'static [u8],
);

/// Files that are opened, or not.
const OPENINGS: &[Opening] = &[
    // another first byte, another last one, and a file that is too short
    (
        b"XACFJNL1\0",
        8,
        Err(JournalFault::NotFormatted),
        b"XACFJNL1\0",
    ),
    (
        b"RACFJNL2\0",
        8,
        Err(JournalFault::NotFormatted),
        b"RACFJNL2\0",
    ),
    (b"RACFJNL", 8, Err(JournalFault::NotFormatted), b"RACFJNL"),
    (b"", 8, Err(JournalFault::NotFormatted), b""),
    // an open gate without a whole record: its length, or its rest, is cut short
    (
        b"RACFJNL1\x01\0",
        8,
        Err(JournalFault::Damaged(8)),
        b"RACFJNL1\x01\0",
    ),
    (
        b"RACFJNL1\x01\0\0\0\x02A",
        8,
        Err(JournalFault::Damaged(8)),
        b"RACFJNL1\x01\0\0\0\x02A",
    ),
    (
        b"RACFJNL1\x01\0\0\0\x01A\x01\0\0",
        8,
        Err(JournalFault::Damaged(14)),
        b"RACFJNL1\x01\0\0\0\x01A\x01\0\0",
    ),
    // no gate; a closed one; one with bytes behind it; the last byte, which is a closed gate whatever it is
    (b"RACFJNL1", 8, Ok(&[]), b"RACFJNL1\0"),
    (b"RACFJNL1\0", 8, Ok(&[]), b"RACFJNL1\0"),
    (b"RACFJNL1\0\x01\0\0\0\x01A\0", 8, Ok(&[]), b"RACFJNL1\0"),
    (b"RACFJNL1\x02", 8, Ok(&[]), b"RACFJNL1\0"),
    (b"RACFJNL1\x01", 8, Ok(&[]), b"RACFJNL1\0"),
    (
        b"RACFJNL1\x01\0\0\0\0\x01\0\0\0\x01A\x02",
        8,
        Ok(&[b"\0\0\0\0", b"\0\0\0\x01A"]),
        b"RACFJNL1\x01\0\0\0\0\x01\0\0\0\x01A\0",
    ),
    // a journal that is the last part of a file, whose front isn't asked
    (
        b"ABCDEFGHIJKL\x01\0\0\0\x01A\xFF\x01",
        12,
        Ok(&[b"\0\0\0\x01A"]),
        b"ABCDEFGHIJKL\x01\0\0\0\x01A\0",
    ),
    (b"ABCDEFGHIJKL", 12, Ok(&[]), b"ABCDEFGHIJKL\0"),
    (
        b"ABCDEFGHIJKL\x01\0\0\0\x01",
        12,
        Err(JournalFault::Damaged(12)),
        b"ABCDEFGHIJKL\x01\0\0\0\x01",
    ),
];

/// Whether an opening gave the records or the fault.
fn is_as_told(opened: &Opened, wanted: &Result<&[&[u8]], JournalFault>) -> bool {
    match wanted {
        Ok(records) => gave(opened, records),
        Err(fault) => refused(opened, *fault),
    }
}

/// Whether a file is opened, or refused, as told.
fn opens_as_told(rt: &(impl AllocGlobal + Abort), (file, start, wanted, left): &Opening) -> bool {
    let opened = opened_at(rt, disk_of(rt, file, &[]), *start);
    is_as_told(&opened, wanted) && opened.disk.bytes() == *left && opened.disk.faults() == 0
}

/// A file is opened, or refused and left as it is.
#[test]
fn files_are_opened(rt: HostRuntime) {
    for opening in OPENINGS {
        assert!(rt; opens_as_told(&rt, opening), "at {:?}", opening.0);
    }
}
