//! Pairs of files that are opened, and what that leaves of them, and pairs that are refused.

use crate::files::Checkpoint::{
    Closed, ClosedFirst, First, NoEpoch, Nothing, Second, Third, TooMany, Torn,
};
use crate::files::{BARE, BOB, EMPTY, JOE, NOBODY, NOTHING, Pair};
use racf_run::Status;

/// What is answered to the questions for JOE, BOB and JIM at a new database.
pub(crate) const AT_NONE: &str = "0 4 NOTDEFINED\n0 4 NOTDEFINED\n0 4 NOTDEFINED\n";

/// At one with JOE.
pub(crate) const AT_JOE: &str = "1 0 VERIFIED\n1 4 NOTDEFINED\n1 4 NOTDEFINED\n";

/// At one with JOE and BOB.
pub(crate) const AT_BOTH: &str = "2 0 VERIFIED\n2 0 VERIFIED\n2 4 NOTDEFINED\n";

/// At one with all three.
pub(crate) const AT_THREE: &str = "3 0 VERIFIED\n3 0 VERIFIED\n3 0 VERIFIED\n";

/// What the disks hold; what is answered to the questions; and what that leaves of the disks.
pub(crate) type Opening = (Pair, &'static str, Pair);

/// Files that are opened: a new database; one with JOE's record; the same with a last gate that isn't written yet, and
/// with one in front of the record that isn't open, so that the record doesn't count; one whose last gate isn't there;
/// and pairs of checkpoints, of which the one of the greater epoch counts, on equal epochs the first, and none whose
/// head gate is closed.
pub(crate) const OPENINGS: &[Opening] = &[
    (((First, EMPTY), BARE), AT_NONE, ((First, EMPTY), BARE)),
    (((First, JOE), BARE), AT_JOE, ((First, JOE), BARE)),
    (
        (
            (First, b"\x01\0\0\0\x1bIBMUSER SYS1    ADDUSER JOE\x37"),
            BARE,
        ),
        AT_JOE,
        ((First, JOE), BARE),
    ),
    (
        (
            (First, b"\x37\0\0\0\x1bIBMUSER SYS1    ADDUSER JOE\0"),
            BARE,
        ),
        AT_NONE,
        ((First, EMPTY), BARE),
    ),
    (((First, b""), BARE), AT_NONE, ((First, EMPTY), BARE)),
    (
        ((First, JOE), (Second, BOB)),
        AT_BOTH,
        ((First, JOE), (Second, BOB)),
    ),
    (
        ((Third, EMPTY), (Second, BOB)),
        AT_BOTH,
        ((Third, EMPTY), (Second, BOB)),
    ),
    (
        ((First, JOE), (First, EMPTY)),
        AT_JOE,
        ((First, JOE), (First, EMPTY)),
    ),
    (
        ((First, JOE), (Closed, EMPTY)),
        AT_JOE,
        ((First, JOE), (Closed, EMPTY)),
    ),
];

/// Disks that are refused, and left as they are: one that isn't known by its first bytes, or isn't there, or has the
/// layout of a journal alone; no head gate that is open; an epoch that there isn't, a number past the last, a file that
/// ends within its fields; a record that isn't whole; records at whose place no such command is accepted, since the
/// user isn't there, or is there already, or the issuer isn't there or may not give it; and one whose text isn't the
/// canonical one. Beside a checkpoint of a lesser epoch it is the same: what counts is damaged.
pub(crate) const REFUSED: &[(Pair, Status)] = &[
    ((NOTHING, BARE), Status::NotFormatted),
    (((First, EMPTY), NOTHING), Status::NotFormatted),
    (
        ((First, EMPTY), (Nothing, b"\0ACFDB01\0")),
        Status::NotFormatted,
    ),
    (
        (
            (
                Nothing,
                b"RACFJNL1\x01\0\0\0\x1bIBMUSER SYS1    ADDUSER JOE\0",
            ),
            BARE,
        ),
        Status::NotFormatted,
    ),
    ((BARE, BARE), Status::NotFormatted),
    (((ClosedFirst, EMPTY), BARE), Status::NotFormatted),
    (((Torn, EMPTY), BARE), Status::NotFormatted),
    (((NoEpoch, EMPTY), BARE), Status::Damaged(9)),
    (((Nothing, b"RACFDB01\x01\0\0\0"), BARE), Status::Damaged(9)),
    (((TooMany, EMPTY), BARE), Status::Damaged(17)),
    (
        (
            (
                Nothing,
                b"RACFDB01\x01\0\0\0\0\0\0\0\x01\0\0\0\0\0\0\0\0\0\0\0\0\0\0\0\x05ABCD",
            ),
            BARE,
        ),
        Status::Damaged(25),
    ),
    (
        (
            (
                First,
                b"\x01\0\0\0\x1bIBMUSER SYS1    ADDUSER JOE\x01\0\0\0\x1bIBM",
            ),
            BARE,
        ),
        Status::Damaged(392),
    ),
    (((First, NOBODY), BARE), Status::Damaged(360)),
    (
        (
            (
                First,
                b"\x01\0\0\0\x1bIBMUSER SYS1    ADDUSER JOE\x01\0\0\0\x1bIBMUSER SYS1    ADDUSER JOE\0",
            ),
            BARE,
        ),
        Status::Damaged(392),
    ),
    (
        (
            (
                First,
                b"\x01\0\0\0\x1bIBMUSER SYS1    ADDUSER JOE\x01\0\0\0\x1bJOE     SYS1    ADDUSER BOB\0",
            ),
            BARE,
        ),
        Status::Damaged(392),
    ),
    (
        ((First, b"\x01\0\0\0\x16IBMUSER SYS1    AU JOE\0"), BARE),
        Status::Damaged(360),
    ),
    (
        (
            (First, JOE),
            (Second, b"\x01\0\0\0\x1bIBMUSER SYS1    ADDUSER JOE\0"),
        ),
        Status::Damaged(440),
    ),
];
