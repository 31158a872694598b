//! The files of databases, written out by hand, and disks in memory that hold them.

use racf_outside::{MemoryDisk, Two};
use std::process::Abort;

/// The checkpoint of a file.
#[derive(Clone, Copy)]
pub(crate) enum Checkpoint {
    /// There is none.
    Nothing,
    /// The checkpoint of a new database: the epoch 1, behind no command.
    First,
    /// That of the database with JOE: the epoch 2, behind one command.
    Second,
    /// The same once more: the epoch 3, behind one command.
    SecondAgain,
    /// That of the database with JOE and BOB: the epoch 3, behind two commands.
    Third,
    /// The same once more: the epoch 4, behind two commands.
    ThirdAgain,
    /// That of a new database in the epoch before the last one, 2^64 - 2.
    LastButOne,
    /// That of the database with JOE in the last epoch, 2^64 - 1, behind one command.
    Last,
    /// That of a new database whose head gate is closed, and which has other numbers.
    Closed,
    /// That of a new database whose head gate is closed, the epoch 1.
    ClosedFirst,
    /// One whose head gate is neither open nor closed.
    Torn,
    /// One with the epoch 0, which none has.
    NoEpoch,
    /// One behind 2^62 + 1 commands, more than there may be.
    TooMany,
}

/// What a disk holds: a checkpoint, and what stands behind it.
pub(crate) type Held = (Checkpoint, &'static [u8]);

/// What two disks hold.
pub(crate) type Pair = (Held, Held);

/// The length of the image of a new database, its options and its groups (no flag, no category; SYS1, which has no
/// superior, of IBMUSER), and how many users it has: one.
const ONE_USER: &[u8] = b"\0\0\0\0\0\0\x01\x47\0\0\0\0\0\0\x01SYS1            IBMUSER \0\0\0\x01";

/// The same of a database with two users.
const TWO_USERS: &[u8] = b"\0\0\0\0\0\0\x01\x97\0\0\0\0\0\0\x01SYS1            IBMUSER \0\0\0\x02";

/// The same of a database with three users.
const THREE_USERS: &[u8] =
    b"\0\0\0\0\0\0\x01\xE7\0\0\0\0\0\0\x01SYS1            IBMUSER \0\0\0\x03";

/// IBMUSER, of SYS1, with SPECIAL, OPERATIONS and AUDITOR, and with JOIN in SYS1.
const IBMUSER: &[u8] = b"IBMUSER SYS1    SYS1    \0\x07\0\
    \0\0\0\0\0\0\0\0\0\0\0\0\0\0\0\0\0\0\0\0\0\0\0\0\0\0\0\0\0\0\0\0        \0\0\x01SYS1    \x03\0";

/// JOE, whom IBMUSER defined: his default group SYS1, his owner, and his connection.
const HAS_JOE: &[u8] = b"JOE     SYS1    IBMUSER \0\0\0\
    \0\0\0\0\0\0\0\0\0\0\0\0\0\0\0\0\0\0\0\0\0\0\0\0\0\0\0\0\0\0\0\0        \0\0\x01SYS1    \0\0";

/// BOB, whom he defined too.
const HAS_BOB: &[u8] = b"BOB     SYS1    IBMUSER \0\0\0\
    \0\0\0\0\0\0\0\0\0\0\0\0\0\0\0\0\0\0\0\0\0\0\0\0\0\0\0\0\0\0\0\0        \0\0\x01SYS1    \0\0";

/// The classes, of which DATASET alone is active; none has a profile.
const CLASSES: &[u8] =
    b"\0\x0fDATASET \x01\0\0\0\0\0FACILITY\0\0\0\0\0\0TERMINAL\0\0\0\0\0\0CONSOLE \0\0\0\0\0\0\
    JESINPUT\0\0\0\0\0\0APPCPORT\0\0\0\0\0\0APPL    \0\0\0\0\0\0OPERCMDS\0\0\0\0\0\0SURROGAT\0\0\0\0\0\0\
    TAPEVOL \0\0\0\0\0\0DASDVOL \0\0\0\0\0\0SECDATA \0\0\0\0\0\0SECLABEL\0\0\0\0\0\0GLOBAL  \0\0\0\0\0\0\
    CDT     \0\0\0\0\0\0";

/// A journal without records.
pub(crate) const EMPTY: &[u8] = b"\0";

/// The journal of `AU JOE` by IBMUSER.
pub(crate) const JOE: &[u8] = b"\x01\0\0\0\x1bIBMUSER SYS1    ADDUSER JOE\0";

/// That of `AU BOB`.
pub(crate) const BOB: &[u8] = b"\x01\0\0\0\x1bIBMUSER SYS1    ADDUSER BOB\0";

/// That of `AU JIM`.
pub(crate) const JIM: &[u8] = b"\x01\0\0\0\x1bIBMUSER SYS1    ADDUSER JIM\0";

/// That of a record that deletes a user who isn't there.
pub(crate) const NOBODY: &[u8] = b"\x01\0\0\0\x1bIBMUSER SYS1    DELUSER JOE\0";

/// A file of nothing.
pub(crate) const NOTHING: Held = (Checkpoint::Nothing, b"");

/// A file without a checkpoint.
pub(crate) const BARE: Held = (Checkpoint::Nothing, b"RACFDB01\0");

/// A new database.
pub(crate) const NEW: Pair = ((Checkpoint::First, EMPTY), BARE);

/// One with JOE.
pub(crate) const WITH_JOE: Pair = ((Checkpoint::First, JOE), BARE);

/// The parts of `First`.
const FIRST: &[&[u8]] = &[
    b"RACFDB01\x01\0\0\0\0\0\0\0\x01\0\0\0\0\0\0\0\0",
    ONE_USER,
    IBMUSER,
    CLASSES,
];

/// The parts of `Second`.
const SECOND: &[&[u8]] = &[
    b"RACFDB01\x01\0\0\0\0\0\0\0\x02\0\0\0\0\0\0\0\x01",
    TWO_USERS,
    IBMUSER,
    HAS_JOE,
    CLASSES,
];

/// The parts of `SecondAgain`.
const SECOND_AGAIN: &[&[u8]] = &[
    b"RACFDB01\x01\0\0\0\0\0\0\0\x03\0\0\0\0\0\0\0\x01",
    TWO_USERS,
    IBMUSER,
    HAS_JOE,
    CLASSES,
];

/// The parts of `Third`.
const THIRD: &[&[u8]] = &[
    b"RACFDB01\x01\0\0\0\0\0\0\0\x03\0\0\0\0\0\0\0\x02",
    THREE_USERS,
    IBMUSER,
    HAS_JOE,
    HAS_BOB,
    CLASSES,
];

/// The parts of `ThirdAgain`.
const THIRD_AGAIN: &[&[u8]] = &[
    b"RACFDB01\x01\0\0\0\0\0\0\0\x04\0\0\0\0\0\0\0\x02",
    THREE_USERS,
    IBMUSER,
    HAS_JOE,
    HAS_BOB,
    CLASSES,
];

/// The parts of `LastButOne`.
const LAST_BUT_ONE: &[&[u8]] = &[
    b"RACFDB01\x01\xFF\xFF\xFF\xFF\xFF\xFF\xFF\xFE\0\0\0\0\0\0\0\0",
    ONE_USER,
    IBMUSER,
    CLASSES,
];

/// The parts of `Last`.
const LAST: &[&[u8]] = &[
    b"RACFDB01\x01\xFF\xFF\xFF\xFF\xFF\xFF\xFF\xFF\0\0\0\0\0\0\0\x01",
    TWO_USERS,
    IBMUSER,
    HAS_JOE,
    CLASSES,
];

/// The parts of `Closed`.
const CLOSED: &[&[u8]] = &[
    b"RACFDB01\0\0\0\0\0\0\0\0\x02\0\0\0\0\0\0\0\x07",
    ONE_USER,
    IBMUSER,
    CLASSES,
];

/// The parts of `ClosedFirst`.
const CLOSED_FIRST: &[&[u8]] = &[
    b"RACFDB01\0\0\0\0\0\0\0\0\x01\0\0\0\0\0\0\0\0",
    ONE_USER,
    IBMUSER,
    CLASSES,
];

/// The parts of `Torn`.
const TORN: &[&[u8]] = &[
    b"RACFDB01\x02\0\0\0\0\0\0\0\x01\0\0\0\0\0\0\0\0",
    ONE_USER,
    IBMUSER,
    CLASSES,
];

/// The parts of `NoEpoch`.
const NO_EPOCH: &[&[u8]] = &[
    b"RACFDB01\x01\0\0\0\0\0\0\0\0\0\0\0\0\0\0\0\0",
    ONE_USER,
    IBMUSER,
    CLASSES,
];

/// The parts of `TooMany`.
const TOO_MANY: &[&[u8]] = &[
    b"RACFDB01\x01\0\0\0\0\0\0\0\x01\x40\0\0\0\0\0\0\x01",
    ONE_USER,
    IBMUSER,
    CLASSES,
];

/// The parts of a checkpoint.
fn parts_of(checkpoint: Checkpoint) -> &'static [&'static [u8]] {
    match checkpoint {
        Checkpoint::Nothing => &[],
        Checkpoint::First => FIRST,
        Checkpoint::Second => SECOND,
        Checkpoint::SecondAgain => SECOND_AGAIN,
        Checkpoint::Third => THIRD,
        Checkpoint::ThirdAgain => THIRD_AGAIN,
        Checkpoint::LastButOne => LAST_BUT_ONE,
        Checkpoint::Last => LAST,
        Checkpoint::Closed => CLOSED,
        Checkpoint::ClosedFirst => CLOSED_FIRST,
        Checkpoint::Torn => TORN,
        Checkpoint::NoEpoch => NO_EPOCH,
        Checkpoint::TooMany => TOO_MANY,
    }
}

/// The bytes that a disk holds.
fn bytes_of(rt: &(impl AllocGlobal + Abort), held: &Held) -> Vec<u8> {
    let (checkpoint, behind) = held;
    let mut bytes = Vec::new(rt.alloc());
    for part in parts_of(*checkpoint) {
        assert!(rt; bytes.extend_from_slice(part).is_ok());
    }
    assert!(rt; bytes.extend_from_slice(behind).is_ok());
    bytes
}

/// How many bytes a disk holds.
pub(crate) fn length_of(held: &Held) -> usize {
    let (checkpoint, behind) = held;
    let mut length = behind.len();
    for part in parts_of(*checkpoint) {
        length = length.saturating_add(part.len());
    }
    length
}

/// Whether these bytes are what a disk holds.
pub(crate) fn is_held(bytes: &[u8], held: &Held) -> bool {
    let (checkpoint, behind) = held;
    let mut rest = bytes;
    for part in parts_of(*checkpoint) {
        match rest.strip_prefix(*part) {
            Some(more) => rest = more,
            None => return false,
        }
    }
    rest == *behind
}

/// Whether two disks read so.
pub(crate) fn read_as(disks: &Two<MemoryDisk>, left: &Pair) -> bool {
    let (first, second) = left;
    is_held(disks.first.bytes(), first) && is_held(disks.second.bytes(), second)
}

/// A disk in memory with these bytes, and of whose calls the one of this number is to fail, none where it is 0. It does
/// nothing, or where it is to be done by half, what `MemoryDisk::doubting` says.
pub(crate) fn disk_of(
    rt: &(impl AllocGlobal + Abort),
    bytes: &[u8],
    failing: u64,
    half: bool,
) -> MemoryDisk {
    let bytes = Vec::from_slice(rt.alloc(), bytes).expect(rt, "memory");
    let failing = Vec::from_slice(rt.alloc(), &[failing]).expect(rt, "memory");
    let made = if half {
        MemoryDisk::doubting(rt.alloc(), bytes, failing)
    } else {
        MemoryDisk::new(rt.alloc(), bytes, failing)
    };
    made.expect(rt, "memory")
}

/// Two disks that hold this, and fail at those calls.
pub(crate) fn disks_of(
    rt: &(impl AllocGlobal + Abort),
    held: &Pair,
    (failing, other): (u64, u64),
    half: bool,
) -> Two<MemoryDisk> {
    let (first, second) = held;
    Two {
        first: disk_of(rt, &bytes_of(rt, first), failing, half),
        second: disk_of(rt, &bytes_of(rt, second), other, half),
    }
}
