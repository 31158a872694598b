//! A disk that an independent program wrote.

ghost use Rattle.racf_journal.specs.Reading.{IsRecord};

use crate::layout_tests::{disk_of, gave, open_disk};
use racf_journal::Journal;
use racf_outside::MemoryDisk;
use std::process::Abort;

/// The first record of a stored disk.
const FIRST: &[u8] = b"\0\0\0'IBMUSER SYS1    ADDGROUP G1 OWNER(SYS1)";

/// The second.
const SECOND: &[u8] = b"\0\0\0*IBMUSER SYS1    ADDGROUP G3 SUPGROUP(SYS1)";

/// The records of a stored disk, which an independent program wrote: commands behind their issuers and groups.
const STORED_RECORDS: &[&[u8]] = &[
    FIRST,
    SECOND,
    b"\0\0\0%IBMUSER SYS1    ADDUSER U3 RESTRICTED",
    b"\0\0\0)IBMUSER SYS1    ADDSD 'SYS1.A' UACC(READ)",
    b"\0\0\0\x1dIBMUSER SYS1    ADDSD 'G1.**'",
    b"\0\0\00IBMUSER SYS1    RDEFINE FACILITY A.** UACC(READ)",
    b"\0\0\0\"IBMUSER SYS1    RDEFINE TAPEVOL A*",
    b"\0\0\0IIBMUSER SYS1    SETROPTS CLASSACT(FACILITY TAPEVOL TERMINAL CONSOLE APPL)",
    b"\0\0\0(IBMUSER SYS1    SETROPTS GLOBAL(DATASET)",
    b"\0\0\0-IBMUSER SYS1    ALTUSER U3 SPECIAL RESTRICTED",
    b"\0\0\0(IBMUSER SYS1    ADDGROUP G4 SUPGROUP(G1)",
    b"\0\0\0&IBMUSER SYS1    ADDUSER U2 DFLTGRP(G4)",
    b"\0\0\0$IBMUSER SYS1    CONNECT U2 GROUP(G3)",
    b"\0\0\0#IBMUSER SYS1    REMOVE U2 GROUP(G3)",
    b"\0\0\0\x1cIBMUSER SYS1    ADDSD 'U2.X'",
    b"\0\0\0)IBMUSER SYS1    ALTUSER IBMUSER NOSPECIAL",
    b"\0\0\0\x1aU3      SYS1    CONNECT U3",
    b"\0\0\0MU3      SYS1    PERMIT A.** CLASS(FACILITY) RESET(ALL) ID(G3) ACCESS(CONTROL)",
    b"\0\0\0(U2      G4      ALTDSD 'U2.X' NOSECLABEL",
];

/// That disk.
const STORED: &[u8] = b"RACFJNL1\
    \x01\0\0\0'IBMUSER SYS1    ADDGROUP G1 OWNER(SYS1)\
    \x01\0\0\0*IBMUSER SYS1    ADDGROUP G3 SUPGROUP(SYS1)\
    \x01\0\0\0%IBMUSER SYS1    ADDUSER U3 RESTRICTED\
    \x01\0\0\0)IBMUSER SYS1    ADDSD 'SYS1.A' UACC(READ)\
    \x01\0\0\0\x1dIBMUSER SYS1    ADDSD 'G1.**'\
    \x01\0\0\00IBMUSER SYS1    RDEFINE FACILITY A.** UACC(READ)\
    \x01\0\0\0\"IBMUSER SYS1    RDEFINE TAPEVOL A*\
    \x01\0\0\0IIBMUSER SYS1    SETROPTS CLASSACT(FACILITY TAPEVOL TERMINAL CONSOLE APPL)\
    \x01\0\0\0(IBMUSER SYS1    SETROPTS GLOBAL(DATASET)\
    \x01\0\0\0-IBMUSER SYS1    ALTUSER U3 SPECIAL RESTRICTED\
    \x01\0\0\0(IBMUSER SYS1    ADDGROUP G4 SUPGROUP(G1)\
    \x01\0\0\0&IBMUSER SYS1    ADDUSER U2 DFLTGRP(G4)\
    \x01\0\0\0$IBMUSER SYS1    CONNECT U2 GROUP(G3)\
    \x01\0\0\0#IBMUSER SYS1    REMOVE U2 GROUP(G3)\
    \x01\0\0\0\x1cIBMUSER SYS1    ADDSD 'U2.X'\
    \x01\0\0\0)IBMUSER SYS1    ALTUSER IBMUSER NOSPECIAL\
    \x01\0\0\0\x1aU3      SYS1    CONNECT U3\
    \x01\0\0\0MU3      SYS1    PERMIT A.** CLASS(FACILITY) RESET(ALL) ID(G3) ACCESS(CONTROL)\
    \x01\0\0\0(U2      G4      ALTDSD 'U2.X' NOSECLABEL\
    \0";

/// What a new journal is with the first two of these records.
const FIRST_TWO: &[u8] = b"RACFJNL1\
    \x01\0\0\0'IBMUSER SYS1    ADDGROUP G1 OWNER(SYS1)\
    \x01\0\0\0*IBMUSER SYS1    ADDGROUP G3 SUPGROUP(SYS1)\
    \0";

/// Whether the stored disk is opened as it is, and gives its records.
fn is_opened(rt: &(impl AllocGlobal + Abort)) -> bool {
    let opened = open_disk(rt, disk_of(rt, STORED, &[]));
    gave(&opened, STORED_RECORDS) && opened.disk.bytes() == STORED
}

/// The stored disk is opened as it is, and gives its records.
#[test]
fn a_stored_disk_is_opened(rt: HostRuntime) {
    assert!(rt; is_opened(&rt));
}

/// Makes a new journal of the disk, and appends the first two records. Whether it did, and the disk.
fn two_appended(rt: &impl AllocGlobal, disk: MemoryDisk) -> (bool, MemoryDisk) {
    let mut journal = match Journal::format(disk) {
        Ok(journal) => journal,
        Err((disk, _)) => return (false, disk),
    };
    if journal.append(rt.alloc(), FIRST).is_err() {
        return (false, journal.into_disk());
    }
    let appended = journal.append(rt.alloc(), SECOND).is_ok();
    (appended, journal.into_disk())
}

/// Whether two records that are appended stand behind gates, and opening gives them back.
fn are_laid_out(rt: &(impl AllocGlobal + Abort)) -> bool {
    let (appended, disk) = two_appended(rt, disk_of(rt, b"ABC", &[]));
    let told = appended && disk.bytes() == FIRST_TWO;
    let opened = open_disk(rt, disk);
    told && gave(&opened, &[FIRST, SECOND])
}

/// Two records that are appended stand behind gates, and opening gives them back.
#[test]
fn records_are_laid_out(rt: HostRuntime) {
    assert!(rt; are_laid_out(&rt));
}

/// A record of 32,772 bytes, which is longer than any of a command.
fn long_record(rt: &(impl AllocGlobal + Abort)) -> Vec<u8>
    ensures { IsRecord result.items }
{
    let mut bytes = Vec::from_slice(rt.alloc(), &[0, 0, 0x80, 0]).expect(rt, "memory");
    bytes.extend_from_slice(&[7; 0x8000]).expect(rt, "memory");
    bytes
}

/// Whether a record is appended to a new journal of the disk, and is given back once that is opened.
fn is_given_back(rt: &impl AllocGlobal, disk: MemoryDisk, record: &[u8]) -> bool
    requires { IsRecord record.now }
{
    match Journal::format(disk) {
        Ok(mut journal) => {
            let appended = journal.append(rt.alloc(), record).is_ok();
            let opened = open_disk(rt, journal.into_disk());
            appended && gave(&opened, &[record])
        }
        Err(_) => false,
    }
}

/// A record that is longer than any of a command takes memory to append, and is given back.
#[test]
fn a_long_record_is_appended(rt: HostRuntime) {
    let record = long_record(&rt);
    assert!(rt; is_given_back(&rt, disk_of(&rt, b"", &[]), &record));
}
