//! The calls that new databases and openings make of each disk, in their order, and what is there where they stop.

use crate::files::Checkpoint::{First, Last, Second, Third};
use crate::files::{BARE, BOB, EMPTY, JIM, JOE, NEW, Pair, WITH_JOE};
use crate::openings::{AT_BOTH, AT_JOE, AT_NONE, AT_THREE};
use crate::runs::SCRIPT;
use crate::stops::{Call, Deed, NO_GATE, Row};

/// The words that make a new database.
const INIT: (&[&str], &str) = (&["init"], "");

/// A stream without lines.
const NO_LINES: (&[&str], &str) = (SCRIPT, "");

/// The calls that an opening makes of a disk that counts and is at rest: a sync, a read of what tells that it counts, and
/// reads up to one that gives nothing.
pub(crate) const OPEN: &[Call] = &[Call::Sync, Call::Read, Call::Read, Call::Read];

/// Those that it makes of the other disk.
pub(crate) const IDLE: &[Call] = &[Call::Sync, Call::Read];

/// The calls by which a file whose head gate is open is made one without a checkpoint, and a first one is written.
const MADE: &[Call] = &[
    Call::Sync,
    Call::Read,
    Call::Read,
    Call::Write(8, 9),
    Call::Sync,
    Call::Cut(9),
    Call::Sync,
    Call::Write(0, 9),
    Call::Sync,
    Call::Read,
    Call::Cut(9),
    Call::Write(9, 33),
    Call::Write(33, 361),
    Call::Sync,
    Call::Write(8, 9),
    Call::Sync,
];

/// The same without the first one.
const BARED: &[Call] = &[
    Call::Sync,
    Call::Read,
    Call::Read,
    Call::Write(8, 9),
    Call::Sync,
    Call::Cut(9),
    Call::Sync,
    Call::Write(0, 9),
    Call::Sync,
];

/// A new database over one with JOE, and over a checkpoint of the same epoch.
const OVER_ONE: Deed = Deed {
    asked: INIT,
    held: ((First, JOE), (First, EMPTY)),
    again: Some(&["init"]),
    makes: true,
};

/// Over two checkpoints, the second of the greater epoch. Of these the older one, without BOB, goes first.
const OVER_OLDER: Deed = Deed {
    asked: INIT,
    held: ((First, JOE), (Second, BOB)),
    again: Some(&["init"]),
    makes: true,
};

/// Over two, the first of the greater epoch.
const OVER_NEWER: Deed = Deed {
    asked: INIT,
    held: ((Third, JIM), (Second, EMPTY)),
    again: Some(&["init"]),
    makes: true,
};

/// Over two, the second of the last epoch.
const OVER_LAST: Deed = Deed {
    asked: INIT,
    held: ((First, JOE), (Last, BOB)),
    again: Some(&["init"]),
    makes: true,
};

/// New databases.
pub(crate) const NEW_DATABASES: &[Row] = &[
    Row {
        deed: OVER_ONE,
        second: false,
        calls: MADE,
        parts: &[
            (0, None, (14, 8), (AT_JOE, NEW)),
            (16, None, NO_GATE, (AT_NONE, NEW)),
        ],
    },
    Row {
        deed: OVER_ONE,
        second: true,
        calls: BARED,
        parts: &[
            (0, None, NO_GATE, (AT_JOE, NEW)),
            (9, None, NO_GATE, (AT_NONE, NEW)),
        ],
    },
    Row {
        deed: OVER_OLDER,
        second: false,
        calls: MADE,
        parts: &[
            (0, None, (14, 8), (AT_BOTH, NEW)),
            (16, None, NO_GATE, (AT_NONE, NEW)),
        ],
    },
    Row {
        deed: OVER_OLDER,
        second: true,
        calls: BARED,
        parts: &[
            (0, None, NO_GATE, (AT_BOTH, NEW)),
            (9, None, NO_GATE, (AT_NONE, NEW)),
        ],
    },
];

/// Further ones.
pub(crate) const OTHER_NEW_DATABASES: &[Row] = &[
    Row {
        deed: OVER_NEWER,
        second: false,
        calls: MADE,
        parts: &[
            (0, None, (14, 8), (AT_THREE, NEW)),
            (16, None, NO_GATE, (AT_NONE, NEW)),
        ],
    },
    Row {
        deed: OVER_NEWER,
        second: true,
        calls: BARED,
        parts: &[
            (0, None, NO_GATE, (AT_THREE, NEW)),
            (9, None, NO_GATE, (AT_NONE, NEW)),
        ],
    },
    Row {
        deed: OVER_LAST,
        second: false,
        calls: MADE,
        parts: &[
            (0, None, (14, 8), (AT_BOTH, NEW)),
            (16, None, NO_GATE, (AT_NONE, NEW)),
        ],
    },
    Row {
        deed: OVER_LAST,
        second: true,
        calls: BARED,
        parts: &[
            (0, None, NO_GATE, (AT_BOTH, NEW)),
            (9, None, NO_GATE, (AT_NONE, NEW)),
        ],
    },
];

/// Two checkpoints, each with a record behind it.
pub(crate) const TWO: Pair = ((First, JOE), (Second, BOB));

/// Bytes behind a gate that is neither open nor closed: they are cut off, and the gate is written.
const REPAIRED: Deed = Deed {
    asked: NO_LINES,
    held: (
        (First, b"\x01\0\0\0\x1bIBMUSER SYS1    ADDUSER JOE\x37ABC"),
        BARE,
    ),
    again: None,
    makes: false,
};

/// The same on the second disk, which counts.
const REPAIRED_SECOND: Deed = Deed {
    asked: NO_LINES,
    held: (
        (First, JOE),
        (Second, b"\x01\0\0\0\x1bIBMUSER SYS1    ADDUSER BOB\x37ABC"),
    ),
    again: None,
    makes: false,
};

/// Nothing stands behind such a gate: it alone is written.
const GATE_ALONE: Deed = Deed {
    asked: NO_LINES,
    held: (
        (First, b"\x01\0\0\0\x1bIBMUSER SYS1    ADDUSER JOE\x37"),
        BARE,
    ),
    again: None,
    makes: false,
};

/// The same on the second disk.
const GATE_ALONE_SECOND: Deed = Deed {
    asked: NO_LINES,
    held: (
        (First, JOE),
        (Second, b"\x01\0\0\0\x1bIBMUSER SYS1    ADDUSER BOB\x02"),
    ),
    again: None,
    makes: false,
};

/// The gate of an empty journal lacks: it alone is written.
const NO_GATE_THERE: Deed = Deed {
    asked: NO_LINES,
    held: ((First, b""), BARE),
    again: None,
    makes: false,
};

/// Bytes behind a closed gate: they alone are cut off.
const CUT_ALONE: Deed = Deed {
    asked: NO_LINES,
    held: (
        (First, b"\x01\0\0\0\x1bIBMUSER SYS1    ADDUSER JOE\0ABC"),
        BARE,
    ),
    again: None,
    makes: false,
};

/// The same on the second disk; an open gate is among them.
const CUT_ALONE_SECOND: Deed = Deed {
    asked: NO_LINES,
    held: (
        (First, JOE),
        (Second, b"\x01\0\0\0\x1bIBMUSER SYS1    ADDUSER BOB\0\x01BC"),
    ),
    again: None,
    makes: false,
};

/// Openings that repair the end of a journal.
pub(crate) const REPAIRS: &[Row] = &[
    Row {
        deed: REPAIRED,
        second: false,
        calls: &[
            Call::Sync,
            Call::Read,
            Call::Read,
            Call::Read,
            Call::Cut(393),
            Call::Sync,
            Call::Write(392, 393),
            Call::Sync,
        ],
        parts: &[
            (0, None, NO_GATE, (AT_JOE, WITH_JOE)),
            (8, Some(""), NO_GATE, (AT_JOE, WITH_JOE)),
        ],
    },
    Row {
        deed: REPAIRED,
        second: true,
        calls: IDLE,
        parts: &[
            (0, None, NO_GATE, (AT_JOE, WITH_JOE)),
            (2, Some(""), NO_GATE, (AT_JOE, WITH_JOE)),
        ],
    },
    Row {
        deed: REPAIRED_SECOND,
        second: true,
        calls: &[
            Call::Sync,
            Call::Read,
            Call::Read,
            Call::Read,
            Call::Cut(473),
            Call::Sync,
            Call::Write(472, 473),
            Call::Sync,
        ],
        parts: &[
            (0, None, NO_GATE, (AT_BOTH, TWO)),
            (8, Some(""), NO_GATE, (AT_BOTH, TWO)),
        ],
    },
    Row {
        deed: REPAIRED_SECOND,
        second: false,
        calls: IDLE,
        parts: &[
            (0, None, NO_GATE, (AT_BOTH, TWO)),
            (2, Some(""), NO_GATE, (AT_BOTH, TWO)),
        ],
    },
    Row {
        deed: GATE_ALONE,
        second: false,
        calls: &[
            Call::Sync,
            Call::Read,
            Call::Read,
            Call::Read,
            Call::Write(392, 393),
            Call::Sync,
        ],
        parts: &[
            (0, None, NO_GATE, (AT_JOE, WITH_JOE)),
            (6, Some(""), NO_GATE, (AT_JOE, WITH_JOE)),
        ],
    },
    Row {
        deed: GATE_ALONE,
        second: true,
        calls: IDLE,
        parts: &[
            (0, None, NO_GATE, (AT_JOE, WITH_JOE)),
            (2, Some(""), NO_GATE, (AT_JOE, WITH_JOE)),
        ],
    },
    Row {
        deed: GATE_ALONE_SECOND,
        second: true,
        calls: &[
            Call::Sync,
            Call::Read,
            Call::Read,
            Call::Read,
            Call::Write(472, 473),
            Call::Sync,
        ],
        parts: &[
            (0, None, NO_GATE, (AT_BOTH, TWO)),
            (6, Some(""), NO_GATE, (AT_BOTH, TWO)),
        ],
    },
    Row {
        deed: GATE_ALONE_SECOND,
        second: false,
        calls: IDLE,
        parts: &[
            (0, None, NO_GATE, (AT_BOTH, TWO)),
            (2, Some(""), NO_GATE, (AT_BOTH, TWO)),
        ],
    },
    Row {
        deed: NO_GATE_THERE,
        second: false,
        calls: &[
            Call::Sync,
            Call::Read,
            Call::Read,
            Call::Read,
            Call::Write(360, 361),
            Call::Sync,
        ],
        parts: &[
            (0, None, NO_GATE, (AT_NONE, NEW)),
            (6, Some(""), NO_GATE, (AT_NONE, NEW)),
        ],
    },
    Row {
        deed: NO_GATE_THERE,
        second: true,
        calls: IDLE,
        parts: &[
            (0, None, NO_GATE, (AT_NONE, NEW)),
            (2, Some(""), NO_GATE, (AT_NONE, NEW)),
        ],
    },
    Row {
        deed: CUT_ALONE,
        second: false,
        calls: &[
            Call::Sync,
            Call::Read,
            Call::Read,
            Call::Read,
            Call::Cut(393),
            Call::Sync,
        ],
        parts: &[
            (0, None, NO_GATE, (AT_JOE, WITH_JOE)),
            (6, Some(""), NO_GATE, (AT_JOE, WITH_JOE)),
        ],
    },
    Row {
        deed: CUT_ALONE,
        second: true,
        calls: IDLE,
        parts: &[
            (0, None, NO_GATE, (AT_JOE, WITH_JOE)),
            (2, Some(""), NO_GATE, (AT_JOE, WITH_JOE)),
        ],
    },
    Row {
        deed: CUT_ALONE_SECOND,
        second: true,
        calls: &[
            Call::Sync,
            Call::Read,
            Call::Read,
            Call::Read,
            Call::Cut(473),
            Call::Sync,
        ],
        parts: &[
            (0, None, NO_GATE, (AT_BOTH, TWO)),
            (6, Some(""), NO_GATE, (AT_BOTH, TWO)),
        ],
    },
    Row {
        deed: CUT_ALONE_SECOND,
        second: false,
        calls: IDLE,
        parts: &[
            (0, None, NO_GATE, (AT_BOTH, TWO)),
            (2, Some(""), NO_GATE, (AT_BOTH, TWO)),
        ],
    },
];
