//! Disks: a table of calls that are to fail, and each form once.

use racf_files::{FileDisk, LOST, ReadAlone, RealClock, open_both, read_both};
use racf_outside::{Clock, Disk, Failed, MemoryDisk, NeverDisk, Two};
use std::fs;
use std::process::Abort;

/// An empty disk in memory of whose calls these are to fail.
fn empty_disk(rt: &(impl AllocGlobal + Abort), failing: &[u64]) -> MemoryDisk {
    let failing = Vec::from_slice(rt.alloc(), failing).expect(rt, "memory");
    MemoryDisk::new(rt.alloc(), Vec::new(rt.alloc()), failing).expect(rt, "memory")
}

/// Writes from a place on, where the disk has that place. Whether it did.
fn put(disk: &mut MemoryDisk, at: u64, bytes: &[u8]) -> bool {
    at <= disk.bytes().len() as u64 && disk.write_at(at, bytes).is_ok()
}

/// Makes five calls: two writes, a cut, a sync and a read of what is there. How many of them succeeded.
fn five_calls(disk: &mut MemoryDisk) -> u64 {
    let mut into = [0u8; 8];
    let first = put(disk, 0, b"ABCD");
    let second = put(disk, 2, b"XYZ");
    let cut = disk.cut(4).is_ok();
    let synced = disk.sync().is_ok();
    let read = disk.read(1, &mut into).is_ok();
    u64::from(first) + u64::from(second) + u64::from(cut) + u64::from(synced) + u64::from(read)
}

/// Whether a read from a place on gives just these bytes: all that are there, or as many as have room.
fn gives<D: Disk>(disk: &mut D, at: u64, into: &mut [u8], wanted: &[u8]) -> bool {
    match disk.read(at, into) {
        Ok(count) if count <= into.len() => &into[..count] == wanted,
        _ => false,
    }
}

/// Which calls are to fail, how many then succeed, how many faults are counted, and what a read gives.
type Failure = (&'static [u64], u64, u64, &'static [u8]);

/// Calls that are to fail. A write behind the end isn't made.
const FAILURES: &[Failure] = &[
    (&[], 5, 0, b"ABXY"),
    (&[1], 3, 1, b""),
    (&[2], 4, 1, b"ABCD"),
    (&[3], 4, 1, b"ABXYZ"),
    (&[4], 4, 1, b"ABXY"),
    (&[5], 4, 1, b"ABXY"),
    (&[2, 3, 4], 2, 3, b"ABCD"),
    (&[6], 5, 0, b"ABXY"),
];

/// Whether as many of five calls succeed as this, with as many faults, and leave these bytes.
fn leaves(disk: &mut MemoryDisk, succeeded: u64, faults: u64, bytes: &[u8]) -> bool {
    five_calls(disk) == succeeded && disk.faults() == faults && disk.bytes() == bytes
}

/// Whether an empty disk fails as a row says, and hands out the bytes that a read gives.
fn fails_as_told(
    rt: &(impl AllocGlobal + Abort),
    (failing, succeeded, faults, bytes): &Failure,
) -> bool {
    let mut disk = empty_disk(rt, failing);
    let told = leaves(&mut disk, *succeeded, *faults, bytes);
    let left = disk.into_bytes();
    told && left.as_slice() == *bytes
}

#[test]
fn disks_fail_as_told(rt: HostRuntime) {
    for row in FAILURES {
        assert!(rt; fails_as_told(&rt, row));
    }
}

/// Whether reads from several places of what is written give what is there, but for the one that is to fail, the third
/// of them and the fourth call.
fn is_read_by_places(disk: &mut MemoryDisk) -> bool {
    let mut into = [0u8; 3];
    put(disk, 0, b"ABCD")
        && gives(disk, 2, &mut into, b"CD")
        && gives(disk, 4, &mut into, b"")
        && disk.read(0, &mut into) == Err(Failed)
        && gives(disk, 0, &mut into, b"ABC")
}

/// Whether a disk without a byte is read and synced.
fn never_gives() -> bool {
    gives(&mut NeverDisk, 0, &mut [0u8; 3], b"") && NeverDisk.sync().is_ok()
}

/// What is read from a place on is what is there.
#[test]
fn disks_are_read_by_places(rt: HostRuntime) {
    assert!(rt; never_gives());
    assert!(rt; is_read_by_places(&mut empty_disk(&rt, &[4])));
}

/// Opens the file as a disk.
fn opened(rt: &HostRuntime, name: &str) -> Option<FileDisk<HostRuntime>> {
    let Ok(runtime) = rt.clone() else {
        return None;
    };
    match FileDisk::open(rt.alloc(), runtime, name) {
        Ok(disk) => Some(disk),
        Err(_) => None,
    }
}

/// Whether the file can be opened as a disk. It is closed again.
fn opens(rt: &HostRuntime, name: &str) -> bool {
    opened(rt, name).is_some()
}

/// Whether there is a file of this name.
fn is_there(rt: &HostRuntime, name: &str) -> bool {
    fs::metadata(rt, name).is_ok()
}

/// Whether two writes, cuts and a sync succeed, and a read gives what they leave.
fn is_written(disk: &mut FileDisk<HostRuntime>) -> bool {
    disk.write_at(0, b"ABCD").is_ok()
        && disk.write_at(2, b"XYZ").is_ok()
        && disk.cut(4).is_ok()
        && disk.cut(9).is_ok()
        && disk.sync().is_ok()
        && gives(disk, 1, &mut [0u8; 8], b"BXY")
}

/// Whether the file, of which there is none yet, is made at the first write, and locked while it is a disk.
fn is_made(rt: &HostRuntime, disk: &mut FileDisk<HostRuntime>) -> bool {
    gives(disk, 0, &mut [0u8; 8], b"")
        && disk.sync().is_ok()
        && !is_there(rt, "file.disk")
        && is_written(disk)
        && !opens(rt, "file.disk")
        && !opens(rt, ".")
        && disk.faults() == 0
}

/// Whether the file is opened, made and closed again.
fn is_opened(rt: &HostRuntime) -> bool {
    match opened(rt, "file.disk") {
        Some(mut disk) => is_made(rt, &mut disk),
        None => false,
    }
}

/// Takes the file away. Whether it could.
fn is_removed(rt: &HostRuntime, name: &str) -> bool {
    fs::remove_file(rt, name).is_ok()
}

/// A file is made at the first write, cut only where it is longer, and locked while it is a disk.
#[test]
fn files_are_disks(rt: HostRuntime) {
    assert!(rt; is_opened(&rt));
    assert!(rt; opens(&rt, "file.disk") && is_removed(&rt, "file.disk"));
}

/// Two files.
const NAMES: [&str; 2] = ["both.one", "both.two"];

/// Whether both files can be opened together. They are closed again.
fn opens_both(rt: &HostRuntime) -> bool {
    open_both(rt.alloc(), rt, NAMES).is_ok()
}

/// Whether both files can be read.
fn reads_both(rt: &HostRuntime) -> bool {
    read_both(rt.alloc(), rt, NAMES).is_ok()
}

/// Whether each of two disks is written, and is a file of its own.
fn are_two(disks: &mut Two<FileDisk<HostRuntime>>) -> bool {
    disks.first.write_at(0, b"ONE").is_ok()
        && disks.second.write_at(0, b"TWO").is_ok()
        && disks.first.identity().is_some()
        && disks.first.identity() != disks.second.identity()
}

/// Opens both files and writes them. Whether they are open for nobody else meanwhile.
fn are_opened(rt: &HostRuntime) -> bool {
    match open_both(rt.alloc(), rt, NAMES) {
        Ok(mut disks) => are_two(&mut disks) && !opens_both(rt) && !reads_both(rt),
        Err(_) => false,
    }
}

/// Whether two files give what was written to them, take no write, and are let go.
fn are_left(rt: &HostRuntime, read: &mut Two<ReadAlone>) -> bool {
    gives(&mut read.first.disk, 0, &mut [0u8; 8], b"ONE")
        && gives(&mut read.second.disk, 1, &mut [0u8; 8], b"WO")
        && read.first.disk.write_at(0, b"X").is_err()
        && read.second.disk.sync().is_ok()
        && read.first.identity.is_some()
        && opens(rt, "both.two")
}

/// Whether both files are read as they were written.
fn are_read(rt: &HostRuntime) -> bool {
    match read_both(rt.alloc(), rt, NAMES) {
        Ok(mut read) => are_left(rt, &mut read),
        Err(_) => false,
    }
}

/// Lays the mark beside the files. Whether one alone isn't opened then, and both are, and take the mark away.
fn are_made_good(rt: &HostRuntime) -> bool {
    fs::write(rt, LOST, "").is_ok()
        && !opens(rt, "both.one")
        && opens_both(rt)
        && !is_there(rt, LOST)
        && opens(rt, "both.one")
}

/// Both files are opened together, and made good where the mark lies there; one alone isn't opened then.
#[test]
fn two_files_are_opened(rt: HostRuntime) {
    assert!(rt; are_opened(&rt));
    assert!(rt; are_made_good(&rt));
    assert!(rt; are_read(&rt));
    assert!(rt; is_removed(&rt, "both.one") && is_removed(&rt, "both.two"));
    assert!(rt; reads_both(&rt));
}

/// The real clock gives a moment between the years 2020 and 2200.
#[test]
fn the_clock_gives_seconds(rt: HostRuntime) {
    let clock = RealClock::new(rt.clone().expect(&rt, "a runtime"));
    let now = clock.now();
    assert!(rt; 1_577_836_800 < now && now < 7_258_118_400);
    assert!(rt; now <= clock.now());
}
