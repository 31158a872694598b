//! The mark that a sync failed.
//!
//! Behind a sync that failed the system may drop what it couldn't write, keep it in memory, and tell the next sync
//! nothing of it. So a disk whose sync fails leaves a file beside the database, which needs no sync itself: as long as
//! the power stays the file is there, and once it is gone so is what was in memory alone. Who opens the database to
//! write finds it, writes every byte of both files anew, syncs them and takes the mark away.

use crate::paths::beside;
use crate::reasons::Reason;
use std::alloc::Global;
use std::fs;
use std::fs::{File, OpenOptions};
use std::io::ErrorKind;
use std::os::unix::fs::OpenOptionsExt;
use std::rt::Files;

/// The name of the mark, in the folder of the database.
pub const LOST: &str = "racf.lost";

/// Leaves the mark beside a file whose sync failed, and answers what is told of that: why it failed, or, where nothing
/// of the mark's name is there and it can't be made, `Unmarked`.
pub(crate) fn leave_mark<R: Files<File = File>>(
    alloc: Global,
    files: &R,
    path: &str,
    why: Reason,
) -> Reason {
    let Ok(mark) = beside(alloc, path, LOST) else {
        return Reason::Unmarked;
    };
    let made = OpenOptions::new()
        .write(true)
        .create_new(true)
        .mode(0o600)
        .open(files, mark.as_str());
    match made {
        Ok(_) => why,
        Err(error) if error.kind() == ErrorKind::AlreadyExists => why,
        Err(_) => Reason::Unmarked,
    }
}

/// Whether the mark lies beside a file. Whatever has its name is the mark.
pub(crate) fn has_mark<R: Files<File = File>>(
    alloc: Global,
    files: &R,
    path: &str,
) -> Result<bool, Reason> {
    let mark = beside(alloc, path, LOST)?;
    match fs::symlink_metadata(files, mark.as_str()) {
        Ok(_) => Ok(true),
        Err(error) if error.kind() == ErrorKind::NotFound => Ok(false),
        Err(error) => Err(Reason::from(error)),
    }
}

/// Takes the mark away. A folder of its name stays, and is an error.
pub(crate) fn take_mark<R: Files<File = File>>(
    alloc: Global,
    files: &R,
    path: &str,
) -> Result<(), Reason> {
    let mark = beside(alloc, path, LOST)?;
    fs::remove_file(files, mark.as_str())?;
    Ok(())
}
