//! The record of one command in a journal of its own: nine bytes become 41, and what stops on the way leaves nine or
//! 41.

use crate::layout_tests::{Opened, answer_at, disk_of, gave, open_disk};
use racf_journal::{Journal, JournalFault};
use racf_outside::MemoryDisk;
use std::process::Abort;

/// The record of `AU JOE` by IBMUSER.
const RECORD: &[u8] = b"\0\0\0\x1bIBMUSER SYS1    ADDUSER JOE";

/// A new journal.
const NEW: &[u8] = b"RACFJNL1\0";

/// The journal with the record.
const ONE: &[u8] = b"RACFJNL1\x01\0\0\0\x1bIBMUSER SYS1    ADDUSER JOE\0";

/// The journal while the record doesn't count yet.
const CLOSED: &[u8] = b"RACFJNL1\0\0\0\0\x1bIBMUSER SYS1    ADDUSER JOE\0";

/// Makes a new journal of the disk, and appends the record: the answer, and the disk.
fn appended(rt: &impl AllocGlobal, disk: MemoryDisk) -> (Result<(), JournalFault>, MemoryDisk) {
    match Journal::format(disk) {
        Ok(mut journal) => {
            let answer = journal.append(rt.alloc(), RECORD);
            (answer, journal.into_disk())
        }
        Err((disk, fault)) => (Err(fault), disk),
    }
}

/// Whether an opening gave the record, or none, and left the journal with it, or a new one.
fn has(opened: &Opened, has_record: bool) -> bool {
    if has_record {
        gave(opened, &[RECORD]) && opened.disk.bytes() == ONE
    } else {
        gave(opened, &[]) && opened.disk.bytes() == NEW
    }
}

/// Whether these bytes are opened with the record or without, as told, and what that leaves of them.
fn opens(rt: &(impl AllocGlobal + Abort), bytes: &[u8], has_record: bool) -> bool {
    let opened = open_disk(rt, disk_of(rt, bytes, &[]));
    has(&opened, has_record)
}

/// The call that fails, or 0 where none does; what a read gives then; and whether the record is there when that is
/// opened.
type Stop = (u64, &'static [u8], bool);

/// A new journal takes three calls: a write, a cut and a sync. The append takes four: a write of the record and a sync,
/// and a write of its gate and a sync.
const STOPS: &[Stop] = &[
    (4, NEW, false),
    (5, CLOSED, false),
    (6, CLOSED, false),
    (7, ONE, true),
    (0, ONE, true),
];

/// Whether an append that stops as told answers so, and leaves what it should.
fn stops_as_told(rt: &(impl AllocGlobal + Abort), (failing, left, has_record): &Stop) -> bool {
    let (answer, disk) = appended(rt, disk_of(rt, b"ABC", &[*failing]));
    answer == answer_at(*failing) && disk.bytes() == *left && opens(rt, disk.bytes(), *has_record)
}

/// An append stops at each of its calls: until the gate is written the record isn't there.
#[test]
fn the_append_of_a_command_stops(rt: HostRuntime) {
    for stop in STOPS {
        assert!(rt; stops_as_told(&rt, stop), "at call {}", stop.0);
    }
    assert!(rt; NEW.len() == 9 && ONE.len() == 41);
}

/// Another byte in each place behind the new journal.
fn write_behind(bytes: &mut [u8], other: u8) {
    for (place, byte) in bytes.iter_mut().enumerate() {
        if place >= NEW.len() {
            *byte = other;
        }
    }
}

/// The journal while the record doesn't count yet, up to an end.
fn cut_off(rt: &(impl AllocGlobal + Abort), end: usize) -> Vec<u8> {
    let mut bytes = Vec::from_slice(rt.alloc(), CLOSED).expect(rt, "memory");
    bytes.truncate(end);
    bytes
}

/// Whether there is no record in what a crash leaves up to an end, as it was written or with another byte in each place
/// of it.
fn is_torn(rt: &(impl AllocGlobal + Abort), end: usize, other: u8) -> bool {
    let mut bytes = cut_off(rt, end);
    let written = opens(rt, &bytes, false);
    write_behind(&mut bytes, other);
    written && opens(rt, &bytes, false)
}

/// A crash while the record is written may leave any end and any bytes behind the closed gate.
#[test]
fn the_record_of_a_command_is_torn(rt: HostRuntime) {
    for end in NEW.len()..=CLOSED.len() {
        for other in [0, 1, 0x37, 0xFF] {
            assert!(rt; is_torn(&rt, end, other), "{other} up to {end}");
        }
    }
}

/// Whether the record is there behind X'01' as the gate alone.
fn counts_behind(rt: &(impl AllocGlobal + Abort), gate: u8) -> bool {
    let mut bytes = cut_off(rt, CLOSED.len());
    if let Some(byte) = bytes.get_mut(8) {
        *byte = gate;
    }
    opens(rt, &bytes, gate == 1)
}

/// A crash while the gate is written may leave any byte there: the record is there behind X'01' alone.
#[test]
fn the_gate_of_a_command_is_torn(rt: HostRuntime) {
    for gate in [0, 1, 2, 0x37, 0x81, 0xFF] {
        assert!(rt; counts_behind(&rt, gate), "{gate}");
    }
}
