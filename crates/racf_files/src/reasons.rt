//! Why a file can't be used.

use std::alloc::AllocError;
use std::io::ErrorKind;
use std::{fmt, io};

/// The system's number of the error that a descriptor isn't open for what is asked.
const NOT_OPEN: i32 = 9;

/// Why a file can't be opened, read or written.
#[derive(Clone, Copy, Debug)]
pub enum Reason {
    /// It isn't there, or no folder is where its path has one.
    NoSuchFile,
    /// The system doesn't permit it.
    PermissionDenied,
    /// It is a folder.
    Folder,
    /// It is no regular file, which a disk has to be.
    NoRegularFile,
    /// It is a symbolic link, through which no disk is opened.
    Link,
    /// It is an output whose name is that of a link that leads to no file.
    LeadsNowhere,
    /// Another file came in its place while it was opened.
    Replaced,
    /// It is a disk that another run has open.
    InUse,
    /// It is an output that another program holds locked.
    Locked,
    /// The device has no room, or none is left for this user.
    NoRoom,
    /// It would be longer than the system lets a file be.
    TooLarge,
    /// Nobody reads what is written to it.
    NobodyReads,
    /// It is a standard stream that is closed, or isn't open for this.
    Closed,
    /// It is a file of the database.
    OfDatabase,
    /// It begins as a file of a database does.
    LikeDatabase,
    /// It is an output, and an input too.
    Input,
    /// It is another output too.
    Output,
    /// A sync of it failed before.
    SyncFailed,
    /// A sync of it failed, and the mark of that couldn't be left.
    Unmarked,
    /// It goes on where the longest input ends.
    TooLong,
    /// There isn't enough memory.
    NoMemory,
    /// What the system says of it.
    System(io::Error),
}

impl From<io::Error> for Reason {
    fn from(error: io::Error) -> Reason {
        match error.kind() {
            ErrorKind::NotFound | ErrorKind::NotADirectory => Reason::NoSuchFile,
            ErrorKind::PermissionDenied => Reason::PermissionDenied,
            ErrorKind::IsADirectory => Reason::Folder,
            ErrorKind::StorageFull | ErrorKind::QuotaExceeded => Reason::NoRoom,
            ErrorKind::FileTooLarge => Reason::TooLarge,
            ErrorKind::BrokenPipe => Reason::NobodyReads,
            ErrorKind::OutOfMemory => Reason::NoMemory,
            _ if error.raw_os_error() == Some(NOT_OPEN) => Reason::Closed,
            _ => Reason::System(error),
        }
    }
}

impl From<AllocError> for Reason {
    fn from(_error: AllocError) -> Reason {
        Reason::NoMemory
    }
}

impl fmt::Display for Reason {
    fn fmt<W: fmt::Write>(&self, f: &mut fmt::Formatter<W>) -> fmt::Result {
        if let Reason::System(error) = self {
            return write!(f, "{error}");
        }
        f.write_str(self.words())
    }
}

impl Reason {
    /// What it says, where the system says nothing.
    fn words(&self) -> &'static str {
        match self {
            Reason::NoSuchFile => "no such file",
            Reason::PermissionDenied => "permission denied",
            Reason::Folder => "a folder",
            Reason::NoRegularFile => "no regular file",
            Reason::Link => "a symbolic link",
            Reason::LeadsNowhere => "a link that leads to no file",
            Reason::Replaced => "another file came in its place",
            Reason::InUse => "in use by another run",
            Reason::Locked => "locked by another program",
            Reason::NoRoom => "no room",
            Reason::TooLarge => "longer than the system lets a file be",
            Reason::NobodyReads => "nobody reads it",
            Reason::Closed => "closed",
            Reason::OfDatabase => "a file of the database",
            Reason::LikeDatabase => "a file of a database",
            Reason::Input => "an input too",
            Reason::Output => "another output too",
            Reason::SyncFailed => "a sync failed before",
            Reason::Unmarked => "a sync failed, and racf.lost can't be made",
            Reason::TooLong => "longer than 2^28 bytes",
            Reason::NoMemory => "no memory",
            Reason::System(_) => "",
        }
    }
}

/// A file of a database, or the mark beside it.
#[derive(Clone, Copy, Debug)]
pub enum DatabaseFile {
    /// The first one.
    First,
    /// The second one.
    Second,
    /// The mark of a sync that failed.
    Mark,
}

/// Which file of a database can't be used, and why.
#[derive(Clone, Copy, Debug)]
pub struct DiskTrouble {
    /// Which one.
    pub file: DatabaseFile,
    /// Why.
    pub reason: Reason,
}

/// What failed of a file of a database.
pub(crate) fn of_file<T>(done: Result<T, Reason>, file: DatabaseFile) -> Result<T, DiskTrouble> {
    match done {
        Ok(value) => Ok(value),
        Err(reason) => Err(DiskTrouble { file, reason }),
    }
}
