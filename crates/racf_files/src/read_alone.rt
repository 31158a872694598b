//! The files of a database, read alone.

use crate::file_at::{MOST_BYTES, is_named, is_there, read_all};
use crate::file_identity::{FileIdentity, identity_of};
use crate::lost_mark::leave_mark;
use crate::paths::behind_standard;
use crate::reasons::{DatabaseFile, DiskTrouble, Reason, of_file};
use racf_outside::{ReadOnlyDisk, Two};
use std::alloc::Global;
use std::fs::{File, TryLockError};
use std::rt::Files;

/// A file of a database that was read, and which file it is.
#[derive(Drop)]
pub struct ReadAlone {
    /// The disk of its bytes, at most 2^28 + 1.
    pub disk: ReadOnlyDisk,
    /// Which file it is; `None` where none is there.
    pub identity: Option<FileIdentity>,
}

/// Reads the two files of a database into memory, of a longer one the first 2^28 + 1 bytes. Each is opened for reading
/// alone, through no symbolic link, and synced, so that what is read stays. Both are locked meanwhile together with
/// others who read: no run that writes them is beside. Then they are let go. A file that isn't there is empty.
pub fn read_both<R: Files<File = File>>(
    alloc: Global,
    files: &R,
    paths: [&str; 2],
) -> Result<Two<ReadAlone>, DiskTrouble> {
    let first = of_file(existing(files, paths[0]), DatabaseFile::First)?;
    let second = of_file(existing(files, paths[1]), DatabaseFile::Second)?;
    Ok(Two {
        first: of_file(
            read_file(alloc, files, paths[0], &first),
            DatabaseFile::First,
        )?,
        second: of_file(
            read_file(alloc, files, paths[1], &second),
            DatabaseFile::Second,
        )?,
    })
}

/// Reads a file that is open. A sync that fails leaves the mark of it.
fn read_file<R: Files<File = File>>(
    alloc: Global,
    files: &R,
    path: &str,
    file: &Option<File>,
) -> Result<ReadAlone, Reason> {
    let Some(file) = file else {
        return Ok(ReadAlone {
            disk: ReadOnlyDisk::new(Vec::new(alloc)),
            identity: None,
        });
    };
    if let Err(error) = file.sync_all() {
        return Err(leave_mark(alloc, files, path, Reason::from(error)));
    }
    let metadata = file.metadata()?;
    let length = metadata.len().min(MOST_BYTES) as usize;
    let mut bytes = vec![in alloc; 0; length]?;
    let count = read_all(file, 0, &mut bytes)?;
    bytes.truncate(count);
    Ok(ReadAlone {
        disk: ReadOnlyDisk::new(bytes),
        identity: identity_of(&metadata),
    })
}

/// Opens the regular file of this name for reading, where there is one, and locks it together with others who read.
fn existing<R: Files<File = File>>(files: &R, path: &str) -> Result<Option<File>, Reason> {
    if !is_there(files, path)? {
        return Ok(None);
    }
    let file = behind_standard(File::open(files, path)?)?;
    match file.try_lock_shared() {
        Ok(()) => {}
        Err(TryLockError::WouldBlock) => return Err(Reason::InUse),
        Err(TryLockError::Error(error)) => return Err(Reason::from(error)),
    }
    is_named(files, path, &file)?;
    Ok(Some(file))
}
