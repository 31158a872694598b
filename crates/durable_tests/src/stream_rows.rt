//! A stream of commands and requests, of which each command that is accepted is broken off in turn.

use crate::files::Checkpoint::First;
use crate::files::{BARE, NEW};
use crate::runs::SCRIPT;
use crate::stops::{Call, Deed, NO_GATE, Row, Stand};

/// The stream: ten commands, seven of which are accepted, and six requests.
const STREAM: Deed = Deed {
    asked: (
        SCRIPT,
        "AU JOE\n\
        VERIFY A JOE\n\
        AU JOE\n\
        AU BOB\n\
        AX\n\
        DU JOE\n\
        VERIFY B JOE\n\
        AU JIM\n\
        VERIFY C IBMUSER\n\
        DU JOE\n\
        AU JOE\n\
        DU BOB\n\
        DU JOE\n\
        VERIFY D JOE\n\
        VERIFY E BOB\n\
        VERIFY F JIM\n",
    ),
    held: NEW,
    again: None,
    makes: false,
};

/// No command is accepted.
const BEHIND_0: Stand = ("0 4 NOTDEFINED\n0 4 NOTDEFINED\n0 4 NOTDEFINED\n", NEW);

/// The first command is accepted.
const BEHIND_1: Stand = (
    "1 0 VERIFIED\n1 4 NOTDEFINED\n1 4 NOTDEFINED\n",
    (
        (First, b"\x01\0\0\0\x1bIBMUSER SYS1    ADDUSER JOE\0"),
        BARE,
    ),
);

/// The first two are accepted.
const BEHIND_2: Stand = (
    "2 0 VERIFIED\n2 0 VERIFIED\n2 4 NOTDEFINED\n",
    (
        (
            First,
            b"\x01\0\0\0\x1bIBMUSER SYS1    ADDUSER JOE\
        \x01\0\0\0\x1bIBMUSER SYS1    ADDUSER BOB\0",
        ),
        BARE,
    ),
);

/// The first three are accepted.
const BEHIND_3: Stand = (
    "3 4 NOTDEFINED\n3 0 VERIFIED\n3 4 NOTDEFINED\n",
    (
        (
            First,
            b"\x01\0\0\0\x1bIBMUSER SYS1    ADDUSER JOE\
        \x01\0\0\0\x1bIBMUSER SYS1    ADDUSER BOB\
        \x01\0\0\0\x1bIBMUSER SYS1    DELUSER JOE\0",
        ),
        BARE,
    ),
);

/// The first four are accepted.
const BEHIND_4: Stand = (
    "4 4 NOTDEFINED\n4 0 VERIFIED\n4 0 VERIFIED\n",
    (
        (
            First,
            b"\x01\0\0\0\x1bIBMUSER SYS1    ADDUSER JOE\
        \x01\0\0\0\x1bIBMUSER SYS1    ADDUSER BOB\
        \x01\0\0\0\x1bIBMUSER SYS1    DELUSER JOE\
        \x01\0\0\0\x1bIBMUSER SYS1    ADDUSER JIM\0",
        ),
        BARE,
    ),
);

/// The first five are accepted.
const BEHIND_5: Stand = (
    "5 0 VERIFIED\n5 0 VERIFIED\n5 0 VERIFIED\n",
    (
        (
            First,
            b"\x01\0\0\0\x1bIBMUSER SYS1    ADDUSER JOE\
        \x01\0\0\0\x1bIBMUSER SYS1    ADDUSER BOB\
        \x01\0\0\0\x1bIBMUSER SYS1    DELUSER JOE\
        \x01\0\0\0\x1bIBMUSER SYS1    ADDUSER JIM\
        \x01\0\0\0\x1bIBMUSER SYS1    ADDUSER JOE\0",
        ),
        BARE,
    ),
);

/// The first six are accepted.
const BEHIND_6: Stand = (
    "6 0 VERIFIED\n6 4 NOTDEFINED\n6 0 VERIFIED\n",
    (
        (
            First,
            b"\x01\0\0\0\x1bIBMUSER SYS1    ADDUSER JOE\
        \x01\0\0\0\x1bIBMUSER SYS1    ADDUSER BOB\
        \x01\0\0\0\x1bIBMUSER SYS1    DELUSER JOE\
        \x01\0\0\0\x1bIBMUSER SYS1    ADDUSER JIM\
        \x01\0\0\0\x1bIBMUSER SYS1    ADDUSER JOE\
        \x01\0\0\0\x1bIBMUSER SYS1    DELUSER BOB\0",
        ),
        BARE,
    ),
);

/// All seven are accepted.
const BEHIND_7: Stand = (
    "7 4 NOTDEFINED\n7 4 NOTDEFINED\n7 0 VERIFIED\n",
    (
        (
            First,
            b"\x01\0\0\0\x1bIBMUSER SYS1    ADDUSER JOE\
        \x01\0\0\0\x1bIBMUSER SYS1    ADDUSER BOB\
        \x01\0\0\0\x1bIBMUSER SYS1    DELUSER JOE\
        \x01\0\0\0\x1bIBMUSER SYS1    ADDUSER JIM\
        \x01\0\0\0\x1bIBMUSER SYS1    ADDUSER JOE\
        \x01\0\0\0\x1bIBMUSER SYS1    DELUSER BOB\
        \x01\0\0\0\x1bIBMUSER SYS1    DELUSER JOE\0",
        ),
        BARE,
    ),
);

/// What is printed where the first fails.
const FAILS_0: &str = "0 DISKFAULT\n\
    0 4 NOTDEFINED\n\
    0 HALTED\n\
    0 HALTED\n\
    0 HALTED\n\
    0 HALTED\n\
    0 4 NOTDEFINED\n\
    0 HALTED\n\
    0 0 VERIFIED\n\
    0 HALTED\n\
    0 HALTED\n\
    0 HALTED\n\
    0 HALTED\n\
    0 4 NOTDEFINED\n\
    0 4 NOTDEFINED\n\
    0 4 NOTDEFINED\n";

/// What is printed where the second fails.
const FAILS_1: &str = "1 ACCEPTED\n\
    1 0 VERIFIED\n\
    1 REFUSED EXISTS JOE\n\
    1 DISKFAULT\n\
    1 HALTED\n\
    1 HALTED\n\
    1 0 VERIFIED\n\
    1 HALTED\n\
    1 0 VERIFIED\n\
    1 HALTED\n\
    1 HALTED\n\
    1 HALTED\n\
    1 HALTED\n\
    1 0 VERIFIED\n\
    1 4 NOTDEFINED\n\
    1 4 NOTDEFINED\n";

/// What is printed where the third fails.
const FAILS_2: &str = "1 ACCEPTED\n\
    1 0 VERIFIED\n\
    1 REFUSED EXISTS JOE\n\
    2 ACCEPTED\n\
    2 REFUSED SYNTAX UNKNOWNCOMMAND\n\
    2 DISKFAULT\n\
    2 0 VERIFIED\n\
    2 HALTED\n\
    2 0 VERIFIED\n\
    2 HALTED\n\
    2 HALTED\n\
    2 HALTED\n\
    2 HALTED\n\
    2 0 VERIFIED\n\
    2 0 VERIFIED\n\
    2 4 NOTDEFINED\n";

/// What is printed where the fourth fails.
const FAILS_3: &str = "1 ACCEPTED\n\
    1 0 VERIFIED\n\
    1 REFUSED EXISTS JOE\n\
    2 ACCEPTED\n\
    2 REFUSED SYNTAX UNKNOWNCOMMAND\n\
    3 ACCEPTED\n\
    3 4 NOTDEFINED\n\
    3 DISKFAULT\n\
    3 0 VERIFIED\n\
    3 HALTED\n\
    3 HALTED\n\
    3 HALTED\n\
    3 HALTED\n\
    3 4 NOTDEFINED\n\
    3 0 VERIFIED\n\
    3 4 NOTDEFINED\n";

/// What is printed where the fifth fails.
const FAILS_4: &str = "1 ACCEPTED\n\
    1 0 VERIFIED\n\
    1 REFUSED EXISTS JOE\n\
    2 ACCEPTED\n\
    2 REFUSED SYNTAX UNKNOWNCOMMAND\n\
    3 ACCEPTED\n\
    3 4 NOTDEFINED\n\
    4 ACCEPTED\n\
    4 0 VERIFIED\n\
    4 REFUSED NOUSER JOE\n\
    4 DISKFAULT\n\
    4 HALTED\n\
    4 HALTED\n\
    4 4 NOTDEFINED\n\
    4 0 VERIFIED\n\
    4 0 VERIFIED\n";

/// What is printed where the sixth fails.
const FAILS_5: &str = "1 ACCEPTED\n\
    1 0 VERIFIED\n\
    1 REFUSED EXISTS JOE\n\
    2 ACCEPTED\n\
    2 REFUSED SYNTAX UNKNOWNCOMMAND\n\
    3 ACCEPTED\n\
    3 4 NOTDEFINED\n\
    4 ACCEPTED\n\
    4 0 VERIFIED\n\
    4 REFUSED NOUSER JOE\n\
    5 ACCEPTED\n\
    5 DISKFAULT\n\
    5 HALTED\n\
    5 0 VERIFIED\n\
    5 0 VERIFIED\n\
    5 0 VERIFIED\n";

/// What is printed where the seventh fails.
const FAILS_6: &str = "1 ACCEPTED\n\
    1 0 VERIFIED\n\
    1 REFUSED EXISTS JOE\n\
    2 ACCEPTED\n\
    2 REFUSED SYNTAX UNKNOWNCOMMAND\n\
    3 ACCEPTED\n\
    3 4 NOTDEFINED\n\
    4 ACCEPTED\n\
    4 0 VERIFIED\n\
    4 REFUSED NOUSER JOE\n\
    5 ACCEPTED\n\
    6 ACCEPTED\n\
    6 DISKFAULT\n\
    6 0 VERIFIED\n\
    6 4 NOTDEFINED\n\
    6 0 VERIFIED\n";

/// What is printed where none fails.
const ENDS: &str = "1 ACCEPTED\n\
    1 0 VERIFIED\n\
    1 REFUSED EXISTS JOE\n\
    2 ACCEPTED\n\
    2 REFUSED SYNTAX UNKNOWNCOMMAND\n\
    3 ACCEPTED\n\
    3 4 NOTDEFINED\n\
    4 ACCEPTED\n\
    4 0 VERIFIED\n\
    4 REFUSED NOUSER JOE\n\
    5 ACCEPTED\n\
    6 ACCEPTED\n\
    7 ACCEPTED\n\
    7 4 NOTDEFINED\n\
    7 4 NOTDEFINED\n\
    7 0 VERIFIED\n";

/// The calls of either disk: those of an opening, and four for each accepted command, a write and a sync of its record, and
/// of its gate.
pub(crate) const STREAMS: &[Row] = &[
    Row {
        deed: STREAM,
        second: false,
        calls: &[
            Call::Sync,
            Call::Read,
            Call::Read,
            Call::Read,
            Call::Write(361, 393),
            Call::Sync,
            Call::Write(360, 361),
            Call::Sync,
            Call::Write(393, 425),
            Call::Sync,
            Call::Write(392, 393),
            Call::Sync,
            Call::Write(425, 457),
            Call::Sync,
            Call::Write(424, 425),
            Call::Sync,
            Call::Write(457, 489),
            Call::Sync,
            Call::Write(456, 457),
            Call::Sync,
            Call::Write(489, 521),
            Call::Sync,
            Call::Write(488, 489),
            Call::Sync,
            Call::Write(521, 553),
            Call::Sync,
            Call::Write(520, 521),
            Call::Sync,
            Call::Write(553, 585),
            Call::Sync,
            Call::Write(552, 553),
            Call::Sync,
        ],
        parts: &[
            (0, None, NO_GATE, BEHIND_0),
            (4, Some(FAILS_0), (6, 360), BEHIND_0),
            (8, Some(FAILS_1), (10, 392), BEHIND_1),
            (12, Some(FAILS_2), (14, 424), BEHIND_2),
            (16, Some(FAILS_3), (18, 456), BEHIND_3),
            (20, Some(FAILS_4), (22, 488), BEHIND_4),
            (24, Some(FAILS_5), (26, 520), BEHIND_5),
            (28, Some(FAILS_6), (30, 552), BEHIND_6),
            (32, Some(ENDS), NO_GATE, BEHIND_7),
        ],
    },
    Row {
        deed: STREAM,
        second: true,
        calls: &[Call::Sync, Call::Read],
        parts: &[
            (0, None, NO_GATE, BEHIND_0),
            (2, Some(ENDS), NO_GATE, BEHIND_7),
        ],
    },
];
