//! The calls that commands and compactions make of each disk, in their order, and what is there where they stop.

use crate::files::Checkpoint::{First, Last, LastButOne, Second, SecondAgain, Third, ThirdAgain};
use crate::files::{BARE, BOB, EMPTY, JIM, JOE, NEW, WITH_JOE};
use crate::opening_rows::{IDLE, OPEN, TWO};
use crate::openings::{AT_BOTH, AT_JOE, AT_NONE, AT_THREE};
use crate::runs::SCRIPT;
use crate::stops::{Call, Deed, NO_GATE, Row};

/// The words that write a checkpoint.
const COMPACT: (&[&str], &str) = (&["compact"], "");

/// The first command of a new database.
const FIRST_COMMAND: Deed = Deed {
    asked: (SCRIPT, "AU JOE\nVERIFY A JOE\nVERIFY B JIM"),
    held: NEW,
    again: None,
    makes: false,
};

/// A command behind the checkpoint on the second disk.
const SECOND_COMMAND: Deed = Deed {
    asked: (SCRIPT, "AU BOB\nVERIFY A BOB\nVERIFY B JOE"),
    held: ((First, JOE), (Second, EMPTY)),
    again: None,
    makes: false,
};

/// A command behind one that was written over an older one, on the first.
const THIRD_COMMAND: Deed = Deed {
    asked: (SCRIPT, "AU JIM\nVERIFY A JIM\nVERIFY B JOE"),
    held: ((Third, EMPTY), (Second, BOB)),
    again: None,
    makes: false,
};

/// A command in the last epoch.
const LAST_COMMAND: Deed = Deed {
    asked: (SCRIPT, "AU BOB\nVERIFY A BOB\nVERIFY B JOE"),
    held: ((LastButOne, JOE), (Last, EMPTY)),
    again: None,
    makes: false,
};

/// Commands.
pub(crate) const COMMANDS: &[Row] = &[
    Row {
        deed: FIRST_COMMAND,
        second: false,
        calls: &[
            Call::Sync,
            Call::Read,
            Call::Read,
            Call::Read,
            Call::Write(361, 393),
            Call::Sync,
            Call::Write(360, 361),
            Call::Sync,
        ],
        parts: &[
            (0, None, NO_GATE, (AT_NONE, NEW)),
            (
                4,
                Some("0 DISKFAULT\n0 4 NOTDEFINED\n0 4 NOTDEFINED\n"),
                (6, 360),
                (AT_NONE, NEW),
            ),
            (
                8,
                Some("1 ACCEPTED\n1 0 VERIFIED\n1 4 NOTDEFINED\n"),
                NO_GATE,
                (AT_JOE, WITH_JOE),
            ),
        ],
    },
    Row {
        deed: FIRST_COMMAND,
        second: true,
        calls: IDLE,
        parts: &[
            (0, None, NO_GATE, (AT_NONE, NEW)),
            (
                2,
                Some("1 ACCEPTED\n1 0 VERIFIED\n1 4 NOTDEFINED\n"),
                NO_GATE,
                (AT_JOE, WITH_JOE),
            ),
        ],
    },
    Row {
        deed: SECOND_COMMAND,
        second: true,
        calls: &[
            Call::Sync,
            Call::Read,
            Call::Read,
            Call::Read,
            Call::Write(441, 473),
            Call::Sync,
            Call::Write(440, 441),
            Call::Sync,
        ],
        parts: &[
            (0, None, NO_GATE, (AT_JOE, ((First, JOE), (Second, EMPTY)))),
            (
                4,
                Some("1 DISKFAULT\n1 4 NOTDEFINED\n1 0 VERIFIED\n"),
                (6, 440),
                (AT_JOE, ((First, JOE), (Second, EMPTY))),
            ),
            (
                8,
                Some("2 ACCEPTED\n2 0 VERIFIED\n2 0 VERIFIED\n"),
                NO_GATE,
                (AT_BOTH, TWO),
            ),
        ],
    },
    Row {
        deed: SECOND_COMMAND,
        second: false,
        calls: IDLE,
        parts: &[
            (0, None, NO_GATE, (AT_JOE, ((First, JOE), (Second, EMPTY)))),
            (
                2,
                Some("2 ACCEPTED\n2 0 VERIFIED\n2 0 VERIFIED\n"),
                NO_GATE,
                (AT_BOTH, TWO),
            ),
        ],
    },
    Row {
        deed: THIRD_COMMAND,
        second: false,
        calls: &[
            Call::Sync,
            Call::Read,
            Call::Read,
            Call::Read,
            Call::Write(521, 553),
            Call::Sync,
            Call::Write(520, 521),
            Call::Sync,
        ],
        parts: &[
            (0, None, NO_GATE, (AT_BOTH, ((Third, EMPTY), (Second, BOB)))),
            (
                4,
                Some("2 DISKFAULT\n2 4 NOTDEFINED\n2 0 VERIFIED\n"),
                (6, 520),
                (AT_BOTH, ((Third, EMPTY), (Second, BOB))),
            ),
            (
                8,
                Some("3 ACCEPTED\n3 0 VERIFIED\n3 0 VERIFIED\n"),
                NO_GATE,
                (AT_THREE, ((Third, JIM), (Second, BOB))),
            ),
        ],
    },
    Row {
        deed: THIRD_COMMAND,
        second: true,
        calls: IDLE,
        parts: &[
            (0, None, NO_GATE, (AT_BOTH, ((Third, EMPTY), (Second, BOB)))),
            (
                2,
                Some("3 ACCEPTED\n3 0 VERIFIED\n3 0 VERIFIED\n"),
                NO_GATE,
                (AT_THREE, ((Third, JIM), (Second, BOB))),
            ),
        ],
    },
    Row {
        deed: LAST_COMMAND,
        second: true,
        calls: &[
            Call::Sync,
            Call::Read,
            Call::Read,
            Call::Read,
            Call::Write(441, 473),
            Call::Sync,
            Call::Write(440, 441),
            Call::Sync,
        ],
        parts: &[
            (
                0,
                None,
                NO_GATE,
                (AT_JOE, ((LastButOne, JOE), (Last, EMPTY))),
            ),
            (
                4,
                Some("1 DISKFAULT\n1 4 NOTDEFINED\n1 0 VERIFIED\n"),
                (6, 440),
                (AT_JOE, ((LastButOne, JOE), (Last, EMPTY))),
            ),
            (
                8,
                Some("2 ACCEPTED\n2 0 VERIFIED\n2 0 VERIFIED\n"),
                NO_GATE,
                (AT_BOTH, ((LastButOne, JOE), (Last, BOB))),
            ),
        ],
    },
    Row {
        deed: LAST_COMMAND,
        second: false,
        calls: IDLE,
        parts: &[
            (
                0,
                None,
                NO_GATE,
                (AT_JOE, ((LastButOne, JOE), (Last, EMPTY))),
            ),
            (
                2,
                Some("2 ACCEPTED\n2 0 VERIFIED\n2 0 VERIFIED\n"),
                NO_GATE,
                (AT_BOTH, ((LastButOne, JOE), (Last, BOB))),
            ),
        ],
    },
];

/// The other file has no checkpoint: its head gate is closed already. Gone on with behind the new checkpoint, another
/// one is written over the first.
const FIRST_COMPACTION: Deed = Deed {
    asked: COMPACT,
    held: WITH_JOE,
    again: Some(&["compact"]),
    makes: false,
};

/// The other file has an older checkpoint, whose head gate is closed first.
const SECOND_COMPACTION: Deed = Deed {
    asked: COMPACT,
    held: TWO,
    again: Some(&["compact"]),
    makes: false,
};

/// Compactions.
pub(crate) const COMPACTIONS: &[Row] = &[
    Row {
        deed: FIRST_COMPACTION,
        second: true,
        calls: &[
            Call::Sync,
            Call::Read,
            Call::Read,
            Call::Cut(9),
            Call::Write(9, 33),
            Call::Write(33, 441),
            Call::Sync,
            Call::Write(8, 9),
            Call::Sync,
        ],
        parts: &[
            (0, None, (7, 8), (AT_JOE, ((First, JOE), (Second, EMPTY)))),
            (
                9,
                None,
                NO_GATE,
                (AT_JOE, ((SecondAgain, EMPTY), (Second, EMPTY))),
            ),
        ],
    },
    Row {
        deed: FIRST_COMPACTION,
        second: false,
        calls: OPEN,
        parts: &[
            (0, None, NO_GATE, (AT_JOE, ((First, JOE), (Second, EMPTY)))),
            (
                4,
                None,
                NO_GATE,
                (AT_JOE, ((SecondAgain, EMPTY), (Second, EMPTY))),
            ),
        ],
    },
    Row {
        deed: SECOND_COMPACTION,
        second: false,
        calls: &[
            Call::Sync,
            Call::Read,
            Call::Read,
            Call::Write(8, 9),
            Call::Sync,
            Call::Cut(9),
            Call::Write(9, 33),
            Call::Write(33, 521),
            Call::Sync,
            Call::Write(8, 9),
            Call::Sync,
        ],
        parts: &[
            (0, None, (9, 8), (AT_BOTH, ((Third, EMPTY), (Second, BOB)))),
            (
                11,
                None,
                NO_GATE,
                (AT_BOTH, ((Third, EMPTY), (ThirdAgain, EMPTY))),
            ),
        ],
    },
    Row {
        deed: SECOND_COMPACTION,
        second: true,
        calls: OPEN,
        parts: &[
            (0, None, NO_GATE, (AT_BOTH, ((Third, EMPTY), (Second, BOB)))),
            (
                4,
                None,
                NO_GATE,
                (AT_BOTH, ((Third, EMPTY), (ThirdAgain, EMPTY))),
            ),
        ],
    },
];

/// The new checkpoint is of the last epoch: gone on with behind it, nothing is written.
const LAST_COMPACTION: Deed = Deed {
    asked: COMPACT,
    held: ((LastButOne, JOE), BARE),
    again: Some(&["compact"]),
    makes: false,
};

/// In the last epoch nothing is written.
const NO_COMPACTION: Deed = Deed {
    asked: COMPACT,
    held: ((LastButOne, JOE), (Last, BOB)),
    again: Some(&["compact"]),
    makes: false,
};

/// Compactions in the last epochs.
pub(crate) const LAST_EPOCHS: &[Row] = &[
    Row {
        deed: LAST_COMPACTION,
        second: true,
        calls: &[
            Call::Sync,
            Call::Read,
            Call::Read,
            Call::Cut(9),
            Call::Write(9, 33),
            Call::Write(33, 441),
            Call::Sync,
            Call::Write(8, 9),
            Call::Sync,
        ],
        parts: &[
            (
                0,
                None,
                (7, 8),
                (AT_JOE, ((LastButOne, JOE), (Last, EMPTY))),
            ),
            (
                9,
                None,
                NO_GATE,
                (AT_JOE, ((LastButOne, JOE), (Last, EMPTY))),
            ),
        ],
    },
    Row {
        deed: LAST_COMPACTION,
        second: false,
        calls: OPEN,
        parts: &[
            (
                0,
                None,
                NO_GATE,
                (AT_JOE, ((LastButOne, JOE), (Last, EMPTY))),
            ),
            (
                4,
                None,
                NO_GATE,
                (AT_JOE, ((LastButOne, JOE), (Last, EMPTY))),
            ),
        ],
    },
    Row {
        deed: NO_COMPACTION,
        second: true,
        calls: OPEN,
        parts: &[
            (
                0,
                None,
                NO_GATE,
                (AT_BOTH, ((LastButOne, JOE), (Last, BOB))),
            ),
            (
                4,
                None,
                NO_GATE,
                (AT_BOTH, ((LastButOne, JOE), (Last, BOB))),
            ),
        ],
    },
    Row {
        deed: NO_COMPACTION,
        second: false,
        calls: IDLE,
        parts: &[
            (
                0,
                None,
                NO_GATE,
                (AT_BOTH, ((LastButOne, JOE), (Last, BOB))),
            ),
            (
                2,
                None,
                NO_GATE,
                (AT_BOTH, ((LastButOne, JOE), (Last, BOB))),
            ),
        ],
    },
];
