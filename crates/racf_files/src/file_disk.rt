//! The adapter that makes a disk of a real file. It tells no content.

ghost use Rattle.std.specs.Prelude.{◌≡◌, ◌≤◌, length, None, IfOk};
ghost use Rattle.racf_outside.specs.DiskLaws.{untold_reads_an_image};

use crate::file_at::FileAt;
use crate::file_identity::FileIdentity;
use crate::progress::{Phase, Progress};
use crate::reasons::{DatabaseFile, DiskTrouble, Reason, of_file};
use racf_outside::{Disk, Failed, Faults, Two};
use std::alloc::Global;
use std::fs::File;
use std::marker::Model;
use std::rt::Files;

/// A regular file as a disk. It is locked as long as it is open: one that is locked already, by another process or
/// another disk of this one, isn't opened, and none is opened through a symbolic link. A sync waits for the device;
/// behind one that failed none succeeds, until the file is opened again.
///
/// A file that isn't there is an empty disk. It is made at the first write, for its owner alone, and its folder is
/// synced then.
///
/// Nothing is claimed of what the system, the file system and the device do: that they keep to what a disk promises is
/// trusted.
#[derive(Drop)]
pub struct FileDisk<R: Files<File = File> + Drop> {
    /// The file.
    place: FileAt<R>,
    /// Who is told where it is written.
    progress: Option<Progress>,
    /// The calls that failed.
    faults: Faults,
}

impl<R: Files<File = File> + Drop> Model for FileDisk<R> {
    ghost use Rattle.std.specs.Prelude.{ℕ};

    ghost Value = { ℕ };

    ghost view = { λ a. a.faults };
}

impl<R: Files<File = File> + Drop> FileDisk<R> {
    /// Opens the file at this path, a relative one from the folder that the program runs in, and syncs it. It is an
    /// error where the file is locked, or is no regular file, and where the mark of a sync that failed lies beside it:
    /// `open_both` opens the two files of a database then too.
    pub fn open(alloc: Global, runtime: R, path: &str) -> Result<FileDisk<R>, Reason>
        ensures { IfOk result (λ disk. disk ≡ 0) }
    {
        let mut place = FileAt::open(alloc, runtime, path)?;
        if place.has_mark()? {
            return Err(Reason::SyncFailed);
        }
        place.sync()?;
        Ok(FileDisk {
            place,
            progress: None,
            faults: Faults::new(),
        })
    }

    /// Which file it is, once it is there.
    pub fn identity(&self) -> Option<FileIdentity> {
        self.place.identity()
    }

    /// Why a call failed for the first time.
    pub fn reason(&self) -> Option<Reason> {
        self.place.reason()
    }

    /// Tells from now on where it is written.
    pub fn tell(&mut self, progress: Progress) {
        self.progress = Some(progress);
    }

    /// Takes the file away where this run made it: nothing is left of a database that couldn't be made.
    pub fn take_away(&mut self) {
        self.place.take_away();
    }

    /// How many faults it has counted.
    pub fn faults(&self) -> u64
        ensures { result ≡ self.now }
    {
        self.faults.number()
    }
}

impl<R: Files<File = File> + Drop> Disk for FileDisk<R> {
    ghost tells = { λ _. None };

    ghost faults = { λ faults. faults };

    ghost reads_an_image = { λ _. untold_reads_an_image };

    fn read(&mut self, at: u64, into: &mut [u8]) -> Result<usize, Failed> {
        match self.place.read(at, into) {
            Ok(count) => Ok(count),
            Err(reason) => {
                self.place.note(reason);
                Err(self.faults.count())
            }
        }
    }

    fn write_at(&mut self, at: u64, bytes: &[u8]) -> Result<(), Failed> {
        if let Some(progress) = &self.progress {
            progress.begin(Phase::Writing);
        }
        match self.place.write(at, bytes) {
            Ok(()) => Ok(()),
            Err(reason) => {
                self.place.note(reason);
                Err(self.faults.count())
            }
        }
    }

    fn cut(&mut self, length: u64) -> Result<(), Failed> {
        match self.place.cut(length) {
            Ok(()) => Ok(()),
            Err(reason) => {
                self.place.note(reason);
                Err(self.faults.count())
            }
        }
    }

    fn sync(&mut self) -> Result<(), Failed> {
        match self.place.sync() {
            Ok(()) => Ok(()),
            Err(reason) => {
                self.place.note(reason);
                Err(self.faults.count())
            }
        }
    }
}

/// Opens the two files of a database, which lie in one folder, both locked before anything of them is synced. Where a
/// sync of an earlier run failed, every byte of both is written anew. What that run couldn't put on the device isn't
/// known to the system any more, though a read may give it. Then both are synced.
pub fn open_both<R: Files<File = File> + Clone + Drop>(
    alloc: Global,
    runtime: &R,
    paths: [&str; 2],
) -> Result<Two<FileDisk<R>>, DiskTrouble> {
    let mut first = place(alloc, runtime, paths[0], DatabaseFile::First)?;
    let mut second = place(alloc, runtime, paths[1], DatabaseFile::Second)?;
    let was_lost = of_file(first.has_mark(), DatabaseFile::Mark)?;
    of_file(settle(&mut first, was_lost), DatabaseFile::First)?;
    of_file(settle(&mut second, was_lost), DatabaseFile::Second)?;
    if was_lost {
        of_file(first.take_mark(), DatabaseFile::Mark)?;
    }
    Ok(Two {
        first: disk(first),
        second: disk(second),
    })
}

/// Opens and locks the file of a disk.
fn place<R: Files<File = File> + Clone + Drop>(
    alloc: Global,
    runtime: &R,
    path: &str,
    file: DatabaseFile,
) -> Result<FileAt<R>, DiskTrouble> {
    match runtime.clone() {
        Ok(runtime) => of_file(FileAt::open(alloc, runtime, path), file),
        Err(_) => of_file(Err(Reason::NoMemory), file),
    }
}

/// The disk of a file that is synced.
fn disk<R: Files<File = File> + Drop>(place: FileAt<R>) -> FileDisk<R> {
    FileDisk {
        place,
        progress: None,
        faults: Faults::new(),
    }
}

/// Syncs a file, and writes it anew before where something of it was lost.
fn settle<R: Files<File = File> + Drop>(
    place: &mut FileAt<R>,
    was_lost: bool,
) -> Result<(), Reason> {
    if was_lost {
        place.write_anew()
    } else {
        place.sync()
    }
}
