//! A file of a database, that is there or is made at the first write.

ghost use Rattle.std.specs.Prelude.{◌≤◌, length, IfOk};

use crate::file_identity::{FileIdentity, identity_of};
use crate::lost_mark::{has_mark, leave_mark, take_mark};
use crate::paths::{behind_standard, sync_folder};
use crate::reasons::Reason;
use crate::size_bound::{fits, size_bound};
use std::alloc::Global;
use std::fs::{File, OpenOptions, TryLockError};
use std::io::ErrorKind;
use std::os::unix::fs::{FileExt, OpenOptionsExt};
use std::rt::Files;
use std::{fs, io};

/// Of a file no more is read than the longest database has, and one byte, which shows that it is too long.
pub(crate) const MOST_BYTES: u64 = (1 << 28) + 1;

/// How many bytes are written anew at once.
const BLOCK: usize = 65_536;

/// A file that is there, or is made at the first write.
#[derive(Drop)]
pub(crate) struct FileAt<R: Files<File = File> + Drop> {
    /// Where the memory for paths is from.
    alloc: Global,
    /// Where the file is made.
    runtime: R,
    /// Its path.
    path: String,
    /// The file, once it is there.
    file: Option<File>,
    /// This run made it.
    is_made: bool,
    /// How long the system lets it be.
    bound: u64,
    /// A sync failed. The system may have dropped what it couldn't write, and tell the next sync nothing of it.
    lost: bool,
    /// Why a call failed for the first time.
    reason: Option<Reason>,
}

impl<R: Files<File = File> + Drop> FileAt<R> {
    /// Opens and locks the file where it is there, and syncs its folder.
    pub(crate) fn open(alloc: Global, runtime: R, path: &str) -> Result<FileAt<R>, Reason> {
        let path = String::from_str(alloc, path)?;
        let file = existing(&runtime, path.as_str())?;
        let bound = size_bound(alloc, &runtime);
        let place = FileAt {
            alloc,
            runtime,
            path,
            file,
            is_made: false,
            bound,
            lost: false,
            reason: None,
        };
        if place.file.is_some() {
            place.sync_folder()?;
        }
        Ok(place)
    }

    /// Whether the mark of a sync that failed lies beside it.
    pub(crate) fn has_mark(&self) -> Result<bool, Reason> {
        has_mark(self.alloc, &self.runtime, self.path.as_str())
    }

    /// Takes that mark away.
    pub(crate) fn take_mark(&self) -> Result<(), Reason> {
        take_mark(self.alloc, &self.runtime, self.path.as_str())
    }

    /// Which file it is, once it is there.
    pub(crate) fn identity(&self) -> Option<FileIdentity> {
        match &self.file {
            Some(file) => match file.metadata() {
                Ok(metadata) => identity_of(&metadata),
                Err(_) => None,
            },
            None => None,
        }
    }

    /// Keeps why a call failed, where it is the first one that does. That no mark is left of a sync that failed counts
    /// for more.
    pub(crate) fn note(&mut self, reason: Reason) {
        if self.reason.is_none() || matches!(reason, Reason::Unmarked) {
            self.reason = Some(reason);
        }
    }

    /// Why a call failed for the first time.
    pub(crate) fn reason(&self) -> Option<Reason> {
        self.reason
    }

    /// Makes the file where it isn't there, and syncs its folder, so that the file is there after a power failure. Where
    /// that fails it is taken away. One that another run has made or opened in between, and holds locked or has written,
    /// is that run's, and stays.
    fn make(&mut self) -> Result<(), Reason> {
        if self.file.is_some() {
            return Ok(());
        }
        match alone(made(&self.runtime, self.path.as_str())?) {
            Ok(file) => self.file = Some(file),
            Err(why) => {
                self.is_made = self.is_left(why);
                self.take_away();
                return Err(why);
            }
        }
        self.is_made = true;
        let synced = self.sync_folder();
        if synced.is_err() {
            self.take_away();
        }
        synced
    }

    /// Whether the file that was made, and can't be used, is left to nobody: no other run holds it, and nothing was
    /// written to it.
    fn is_left(&self, why: Reason) -> bool {
        if matches!(why, Reason::InUse) {
            return false;
        }
        match fs::symlink_metadata(&self.runtime, self.path.as_str()) {
            Ok(metadata) => metadata.is_file() && metadata.len() == 0,
            Err(_) => false,
        }
    }

    /// Takes the file away where this run made it, so that nothing is left of what can't be finished. It is locked until
    /// its name is gone, so that no other run that opened it works at what is taken away.
    pub(crate) fn take_away(&mut self) {
        if !self.is_made {
            return;
        }
        self.is_made = false;
        let _ = fs::remove_file(&self.runtime, self.path.as_str());
        let _ = sync_folder(&self.runtime, self.path.as_str());
        self.file = None;
    }

    /// Syncs the folder. Where that fails the mark says so.
    fn sync_folder(&self) -> Result<(), Reason> {
        match sync_folder(&self.runtime, self.path.as_str()) {
            Ok(()) => Ok(()),
            Err(why) => Err(leave_mark(self.alloc, &self.runtime, self.path.as_str(), why)),
        }
    }

    /// Reads what is there from a place on.
    pub(crate) fn read(&self, at: u64, into: &mut [u8]) -> Result<usize, Reason>
        ensures { IfOk result (λ n. n ≤ length into.new) }
    {
        match &self.file {
            Some(file) => match read_all(file, at, into) {
                Ok(count) => Ok(count),
                Err(error) => Err(Reason::from(error)),
            },
            None => Ok(0),
        }
    }

    /// Writes all bytes from a place on. What would pass the system's bound isn't tried.
    pub(crate) fn write(&mut self, at: u64, bytes: &[u8]) -> Result<(), Reason> {
        if !fits(at, bytes.len(), self.bound) {
            return Err(Reason::TooLarge);
        }
        self.make()?;
        if let Some(file) = &self.file {
            file.write_all_at(bytes, at)?;
        }
        Ok(())
    }

    /// Cuts the file where it is longer.
    pub(crate) fn cut(&self, length: u64) -> Result<(), Reason> {
        if let Some(file) = &self.file {
            if length < file.metadata()?.len() {
                file.set_len(length)?;
            }
        }
        Ok(())
    }

    /// Waits until the bytes and the length are on the device. Behind a sync that failed each later one fails, and a
    /// mark says so to who opens the file next.
    pub(crate) fn sync(&mut self) -> Result<(), Reason> {
        if self.lost {
            return Err(Reason::SyncFailed);
        }
        let Some(file) = &self.file else {
            return Ok(());
        };
        match file.sync_all() {
            Ok(()) => Ok(()),
            Err(error) => {
                self.lost = true;
                Err(leave_mark(
                    self.alloc,
                    &self.runtime,
                    self.path.as_str(),
                    Reason::from(error),
                ))
            }
        }
    }

    /// Writes every byte of the file anew that is ever read, and syncs it.
    pub(crate) fn write_anew(&mut self) -> Result<(), Reason> {
        if let Some(file) = &self.file {
            let mut block = vec![in self.alloc; 0; BLOCK]?;
            rewrite(file, &mut block)?;
        }
        self.sync()
    }
}

/// Makes a file that isn't there. One that is there by now was made by another run.
fn made<R: Files<File = File>>(files: &R, path: &str) -> Result<File, Reason> {
    let made = OpenOptions::new()
        .read(true)
        .write(true)
        .create_new(true)
        .mode(0o600)
        .open(files, path);
    match made {
        Ok(file) => Ok(file),
        Err(error) if error.kind() == ErrorKind::AlreadyExists => Err(Reason::InUse),
        Err(error) => Err(Reason::from(error)),
    }
}

/// The file that was made, locked by this run alone, and empty as yet.
fn alone(file: File) -> Result<File, Reason> {
    let file = locked(behind_standard(file)?)?;
    if file.metadata()?.len() > 0 {
        return Err(Reason::InUse);
    }
    Ok(file)
}

/// Opens and locks the regular file of this name, where there is one.
fn existing<R: Files<File = File>>(files: &R, path: &str) -> Result<Option<File>, Reason> {
    if !is_there(files, path)? {
        return Ok(None);
    }
    let file = OpenOptions::new().read(true).write(true).open(files, path)?;
    let file = locked(behind_standard(file)?)?;
    is_named(files, path, &file)?;
    Ok(Some(file))
}

/// Whether there is a file of this name; it has to be a regular one, and no link to one.
pub(crate) fn is_there<R: Files<File = File>>(files: &R, path: &str) -> Result<bool, Reason> {
    match fs::symlink_metadata(files, path) {
        Ok(metadata) if metadata.is_symlink() => Err(Reason::Link),
        Ok(metadata) if metadata.is_dir() => Err(Reason::Folder),
        Ok(metadata) if !metadata.is_file() => Err(Reason::NoRegularFile),
        Ok(_) => Ok(true),
        Err(error) if error.kind() == ErrorKind::NotFound => Ok(false),
        Err(error) => Err(Reason::from(error)),
    }
}

/// An error unless the name, and no link of this name, leads to the file that was opened under it.
pub(crate) fn is_named<R: Files<File = File>>(
    files: &R,
    path: &str,
    file: &File,
) -> Result<(), Reason> {
    let opened = identity_of(&file.metadata()?);
    let named = identity_of(&fs::symlink_metadata(files, path)?);
    if opened.is_some() && opened == named {
        Ok(())
    } else {
        Err(Reason::Replaced)
    }
}

/// The file, locked by this run alone.
fn locked(file: File) -> Result<File, Reason> {
    match file.try_lock() {
        Ok(()) => Ok(file),
        Err(TryLockError::WouldBlock) => Err(Reason::InUse),
        Err(TryLockError::Error(error)) => Err(Reason::from(error)),
    }
}

/// Reads block by block, and writes each where it was read.
fn rewrite(file: &File, block: &mut [u8]) -> Result<(), Reason> {
    let length = file.metadata()?.len().min(MOST_BYTES);
    let mut at = 0u64;
    for _ in 0..MOST_BYTES {
        if at >= length {
            return Ok(());
        }
        let count = read_all(file, at, block)?;
        if count == 0 {
            return Err(Reason::Replaced);
        }
        file.write_all_at(&block[..count], at)?;
        at = at.saturating_add(count as u64);
    }
    Ok(())
}

/// Reads from a place on until `into` is full or the file ends, and answers how many bytes came.
pub(crate) fn read_all(file: &File, at: u64, into: &mut [u8]) -> io::Result<usize>
    ensures { IfOk result (λ n. n ≤ length into.new) }
{
    let mut count = 0;
    for _ in 0..u64::MAX {
        if count >= into.len() {
            break;
        }
        match file.read_at(&mut into[count..], at.wrapping_add(count as u64)) {
            Ok(0) => break,
            Ok(more) => count += more,
            Err(error) if error.kind() == ErrorKind::Interrupted => {}
            Err(error) => return Err(error),
        }
    }
    Ok(count)
}
