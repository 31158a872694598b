//! Records of the journal: those of stored journals, and bytes with each fault.
use journal_records::{RecordFault, read, write};
use std::process::Abort;

/// Records of journals that another program wrote, each with its issuer, his group, and the text.
const RECORDS: [(&[u8], &[u8], &[u8], &[u8]); 4] = [
    (
        b"\x00\x00\x00\x1bIBMUSER SYS1    ADDUSER JOE",
        b"IBMUSER",
        b"SYS1",
        b"ADDUSER JOE",
    ),
    (
        b"\x00\x00\x00\x18IBMUSER SYS1    SETROPTS",
        b"IBMUSER",
        b"SYS1",
        b"SETROPTS",
    ),
    (
        b"\x00\x00\x00\x26IBMUSER SYS1    DELDSD 'IBMUSER.X1.A%'",
        b"IBMUSER",
        b"SYS1",
        b"DELDSD 'IBMUSER.X1.A%'",
    ),
    (
        b"\x00\x00\x00\x8aIBMUSER SYS1    SETROPTS CLASSACT(APPL OPERCMDS) NOGRPLIST PROTECTALL(FAILURES) LOGOPTIONS(SUCCESSES(FACILITY) FAILURES(DASDVOL APPCPORT))",
        b"IBMUSER",
        b"SYS1",
        b"SETROPTS CLASSACT(APPL OPERCMDS) NOGRPLIST PROTECTALL(FAILURES) LOGOPTIONS(SUCCESSES(FACILITY) FAILURES(DASDVOL APPCPORT))",
    ),
];

/// Whether the bytes are read as a record of that issuer, group and text, which is written as them behind what stood.
fn is_record(
    rt: &(impl AllocGlobal + Abort),
    bytes: &[u8],
    id: &[u8],
    group: &[u8],
    text: &[u8],
) -> bool {
    let item = read(rt.alloc(), bytes).expect(rt, "a record");
    let mut out = Vec::new(rt.alloc());
    out.push(1).expect(rt, "memory");
    write(&item, &mut out).is_ok()
        && out[0] == 1
        && out.as_slice().split_at(1).1 == bytes
        && item.issuer.id.text() == id
        && item.issuer.group.text() == group
        && item.command.text() == text
}

#[test]
fn reads_and_writes_records(rt: HostRuntime) {
    for (bytes, id, group, text) in &RECORDS {
        assert!(rt; is_record(&rt, bytes, id, group, text));
    }
}

/// Bytes with their first faults.
const FAULTS: [(&[u8], RecordFault); 14] = [
    (b"", RecordFault::Short),
    (b"\x00\x00\x1b", RecordFault::Short),
    (
        b"\x00\x00\x00\x1cIBMUSER SYS1    ADDUSER JOE",
        RecordFault::BadLength,
    ),
    (
        b"\x1b\x00\x00\x00IBMUSER SYS1    ADDUSER JOE",
        RecordFault::BadLength,
    ),
    (b"\x00\x00\x00\x10ibmuser sys1    ", RecordFault::BadLength),
    (
        b"\x00\x00\x00\x1bibmuser sys1    au joe     ",
        RecordFault::BadIssuer,
    ),
    (
        b"\x00\x00\x00\x1b        SYS1    ADDUSER JOE",
        RecordFault::BadIssuer,
    ),
    (
        b"\x00\x00\x00\x1bIBM USERSYS1    ADDUSER JOE",
        RecordFault::BadIssuer,
    ),
    (
        b"\x00\x00\x00\x1bIBMUSER\x00SYS1    ADDUSER JOE",
        RecordFault::BadIssuer,
    ),
    (
        b"\x00\x00\x00\x1bIBMUSER 1SYS    adduser joe",
        RecordFault::BadGroup,
    ),
    (
        b"\x00\x00\x00\x1bIBMUSER  SYS1   ADDUSER JOE",
        RecordFault::BadGroup,
    ),
    (
        b"\x00\x00\x00\x1bIBMUSER SYS1    adduser joe",
        RecordFault::BadText,
    ),
    (
        b"\x00\x00\x00\x16IBMUSER SYS1    AU JOE",
        RecordFault::BadText,
    ),
    (
        b"\x00\x00\x00\x1cIBMUSER SYS1    ADDUSER JOE ",
        RecordFault::BadText,
    ),
];

#[test]
fn finds_the_first_fault(rt: HostRuntime) {
    for (bytes, fault) in &FAULTS {
        match read(rt.alloc(), bytes) {
            Ok(_) => assert!(rt; false),
            Err(found) => assert!(rt; found == *fault),
        }
    }
}
