//! The runs of the top call, row by row.

use crate::files::Checkpoint::{First, Nothing, Second, Third};
use crate::files::{BARE, BOB, EMPTY, JOE, NEW, NOBODY, NOTHING, Pair, WITH_JOE};
use crate::runs::{Run, SCRIPT};
use racf_run::Status;

/// The words that work standard input as the one deck of a run.
const RUN: &[&str] = &["run", "1", "-"];

/// The words that make a new database.
const INIT: &[&str] = &["init"];

/// The words that write a checkpoint.
const COMPACT: &[&str] = &["compact"];

/// A database with a record that no command left.
const WITH_NOBODY: Pair = ((First, NOBODY), BARE);

/// Two disks that hold nothing.
const NO_FILES: Pair = (NOTHING, NOTHING);

/// Two that hold other bytes.
const LETTERS: Pair = ((Nothing, b"ABCDEFGHIJKL"), (Nothing, b"XYZ"));

/// Databases that aren't opened, and new ones.
pub(crate) const OPENED: &[Run] = &[
    // no database, and one that is damaged: nothing is opened
    (
        SCRIPT,
        NO_FILES,
        (0, 0),
        "AU JOE",
        (Status::NotFormatted, 24),
        None,
        NO_FILES,
    ),
    (
        COMPACT,
        NO_FILES,
        (0, 0),
        "",
        (Status::NotFormatted, 24),
        None,
        NO_FILES,
    ),
    (
        SCRIPT,
        WITH_NOBODY,
        (0, 0),
        "AU JOE",
        (Status::Damaged(360), 24),
        None,
        WITH_NOBODY,
    ),
    (
        COMPACT,
        WITH_NOBODY,
        (0, 0),
        "",
        (Status::Damaged(360), 24),
        None,
        WITH_NOBODY,
    ),
    (
        RUN,
        NO_FILES,
        (0, 0),
        "AU JOE",
        (Status::NotFormatted, 24),
        None,
        NO_FILES,
    ),
    (
        RUN,
        WITH_NOBODY,
        (0, 0),
        "AU JOE",
        (Status::Damaged(360), 24),
        None,
        WITH_NOBODY,
    ),
    // a new database, whatever was there
    (INIT, NO_FILES, (0, 0), "", (Status::Done, 0), None, NEW),
    (INIT, LETTERS, (0, 0), "", (Status::Done, 0), None, NEW),
    (INIT, WITH_JOE, (0, 0), "", (Status::Done, 0), None, NEW),
    (INIT, WITH_NOBODY, (0, 0), "", (Status::Done, 0), None, NEW),
    (
        INIT,
        ((First, JOE), (Second, EMPTY)),
        (0, 0),
        "",
        (Status::Done, 0),
        None,
        NEW,
    ),
    // a disk that fails at a write, a cut or a sync
    (
        INIT,
        LETTERS,
        (1, 0),
        "",
        (Status::DiskFault, 20),
        None,
        LETTERS,
    ),
    (
        INIT,
        LETTERS,
        (4, 0),
        "",
        (Status::DiskFault, 20),
        None,
        ((Nothing, b"ABCDEFGHIJKL"), BARE),
    ),
    (
        INIT,
        LETTERS,
        (5, 0),
        "",
        (Status::DiskFault, 20),
        None,
        ((Nothing, b"ABCDEFGHI"), BARE),
    ),
    (
        INIT,
        LETTERS,
        (0, 1),
        "",
        (Status::DiskFault, 20),
        None,
        LETTERS,
    ),
    (
        INIT,
        LETTERS,
        (14, 0),
        "",
        (Status::DiskFault, 20),
        None,
        NEW,
    ),
];

/// Streams, checkpoints, and disks that fail under them.
pub(crate) const WORKED: &[Run] = &[
    // an input that isn't opened
    (
        SCRIPT,
        NEW,
        (0, 0),
        "AU JOE",
        (Status::ReadFault, 12),
        None,
        NEW,
    ),
    // streams: nothing, a command, one that is there already
    (SCRIPT, NEW, (0, 0), "", (Status::Done, 0), Some(""), NEW),
    (
        SCRIPT,
        NEW,
        (0, 0),
        "AU JOE",
        (Status::Done, 0),
        Some("1 ACCEPTED\n"),
        WITH_JOE,
    ),
    (
        SCRIPT,
        WITH_JOE,
        (0, 0),
        "VERIFY A JOE\nAU JOE\n",
        (Status::Refusals, 4),
        Some("1 0 VERIFIED\n1 REFUSED EXISTS JOE\n"),
        WITH_JOE,
    ),
    // a checkpoint, behind which the number and JOE are as before; and a second one
    (
        COMPACT,
        WITH_JOE,
        (0, 0),
        "",
        (Status::Done, 0),
        None,
        ((First, JOE), (Second, EMPTY)),
    ),
    (
        SCRIPT,
        ((First, JOE), (Second, EMPTY)),
        (0, 0),
        "AU JOE\nAU BOB",
        (Status::Refusals, 4),
        Some("1 REFUSED EXISTS JOE\n2 ACCEPTED\n"),
        ((First, JOE), (Second, BOB)),
    ),
    (
        COMPACT,
        ((First, JOE), (Second, BOB)),
        (0, 0),
        "",
        (Status::Done, 0),
        None,
        ((Third, EMPTY), (Second, BOB)),
    ),
    // a disk that fails as the database is opened, and behind that
    (
        SCRIPT,
        NEW,
        (4, 0),
        "AU JOE",
        (Status::DiskFault, 20),
        None,
        NEW,
    ),
    (
        SCRIPT,
        NEW,
        (0, 2),
        "AU JOE",
        (Status::DiskFault, 20),
        None,
        NEW,
    ),
    (
        SCRIPT,
        NEW,
        (5, 0),
        "AU JOE\nVERIFY A IBMUSER\nAX",
        (Status::DiskFault, 20),
        Some("0 DISKFAULT\n0 0 VERIFIED\n0 HALTED\n"),
        NEW,
    ),
    (
        COMPACT,
        WITH_JOE,
        (0, 2),
        "",
        (Status::DiskFault, 20),
        None,
        WITH_JOE,
    ),
    (
        COMPACT,
        WITH_JOE,
        (0, 9),
        "",
        (Status::DiskFault, 20),
        None,
        ((First, JOE), (Second, EMPTY)),
    ),
    // other words leave the disks as they are
    (
        &["init", "-"],
        WITH_JOE,
        (1, 1),
        "",
        (Status::Usage, 8),
        None,
        WITH_JOE,
    ),
    (
        &["compact", "-"],
        WITH_JOE,
        (1, 1),
        "",
        (Status::Usage, 8),
        None,
        WITH_JOE,
    ),
    (
        &["script", "-"],
        WITH_JOE,
        (1, 1),
        "",
        (Status::Usage, 8),
        None,
        WITH_JOE,
    ),
];

/// An issuer who is fixed: no line names another. His ID is read in letters of either case, and must be one.
pub(crate) const ISSUED: &[Run] = &[
    (
        &["script", "--issuer", "ibmuser", "-", "-"],
        NEW,
        (0, 0),
        "*ISSUER JOE\nAU JOE",
        (Status::Refusals, 4),
        Some("0 REFUSED ISSUERFIXED\n1 ACCEPTED\n"),
        WITH_JOE,
    ),
    (
        &["script", "--issuer", "JOE.SMITH", "-", "-"],
        WITH_JOE,
        (1, 1),
        "AU BOB",
        (Status::Usage, 8),
        None,
        WITH_JOE,
    ),
    (
        &["script", "--issue", "IBMUSER", "-", "-"],
        WITH_JOE,
        (1, 1),
        "AU BOB",
        (Status::Usage, 8),
        None,
        WITH_JOE,
    ),
    (
        &["run", "--issuer", "IBMUSER", "0", "-"],
        WITH_JOE,
        (1, 1),
        "AU BOB",
        (Status::Usage, 8),
        None,
        WITH_JOE,
    ),
];

/// The opening, the read and the write of the shelf that fail behind a fault of the disk, and what is printed then.
pub(crate) const LATER_FAULTS: &[((u64, u64, u64), Run)] = &[
    (
        (0, 0, 0),
        (
            SCRIPT,
            NEW,
            (5, 0),
            "AU JOE\nAU BOB",
            (Status::DiskFault, 20),
            Some("0 DISKFAULT\n0 HALTED\n"),
            NEW,
        ),
    ),
    (
        (0, 2, 0),
        (
            SCRIPT,
            NEW,
            (5, 0),
            "AU JOE\nAU BOB",
            (Status::DiskFault, 20),
            Some("0 DISKFAULT\n"),
            NEW,
        ),
    ),
    (
        (0, 0, 1),
        (
            SCRIPT,
            NEW,
            (5, 0),
            "AU JOE\nAU BOB",
            (Status::DiskFault, 20),
            Some(""),
            NEW,
        ),
    ),
];
