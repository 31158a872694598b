//! The disks of the folder that the program runs in.

use racf_files::{
    DiskTrouble, FileDisk, FileIdentity, FileShelf, LOST, Progress, ReadAlone, Reason, open_both,
    read_both,
};
use racf_outside::Two;
use std::alloc::AllocError;
use std::fs;
use std::fs::File;
use std::io::ErrorKind;
use std::rt::Files;

/// The files of the database, in the folder that the program runs in.
pub(crate) const DISKS: [&str; 2] = ["racf.db1", "racf.db2"];

/// The two disks of the folder.
pub(crate) fn open_disks<R>(rt: &R) -> Result<Two<FileDisk<R>>, DiskTrouble>
where
    R: AllocGlobal + Files<File = File> + Clone + Drop,
{
    open_both(rt.alloc(), rt, DISKS)
}

/// What both disks of the folder hold, read alone.
pub(crate) fn read_disks<R>(rt: &R) -> Result<Two<ReadAlone>, DiskTrouble>
where
    R: AllocGlobal + Files<File = File>,
{
    read_both(rt.alloc(), rt, DISKS)
}

/// The first of the disks that may hold a database: a regular file that isn't empty.
pub(crate) fn first_that_holds<R: Files>(rt: &R) -> Option<&'static str> {
    DISKS.iter().find(|name| holds_anything(rt, name)).copied()
}

/// The first of the disks that isn't there.
pub(crate) fn first_missing<R: Files>(rt: &R) -> Option<&'static str> {
    DISKS.iter().find(|name| is_missing(rt, name)).copied()
}

/// Whether there is nothing of this name.
fn is_missing<R: Files>(rt: &R, name: &str) -> bool {
    match fs::symlink_metadata(rt, name) {
        Ok(_) => false,
        Err(error) => error.kind() == ErrorKind::NotFound,
    }
}

/// Whether a name is that of a regular file that isn't empty.
fn holds_anything<R: Files>(rt: &R, name: &str) -> bool {
    match fs::symlink_metadata(rt, name) {
        Ok(metadata) => metadata.is_file() && metadata.len() > 0,
        Err(_) => false,
    }
}

/// Tells from now on where a disk is written.
pub(crate) fn tell_disks<R>(
    disks: &mut Two<FileDisk<R>>,
    progress: &Progress,
) -> Result<(), AllocError>
where
    R: Files<File = File> + Drop,
{
    disks.first.tell(progress.share()?);
    disks.second.tell(progress.share()?);
    Ok(())
}

/// Takes away what this run made of a database that couldn't be made.
pub(crate) fn take_away<R: Files<File = File> + Drop>(disks: &mut Two<FileDisk<R>>) {
    disks.first.take_away();
    disks.second.take_away();
}

/// Why a call of each disk failed.
pub(crate) fn reasons<R: Files<File = File> + Drop>(
    disks: &Two<FileDisk<R>>,
) -> [Option<Reason>; 2] {
    [disks.first.reason(), disks.second.reason()]
}

/// Which files the disks are.
pub(crate) fn identities<R: Files<File = File> + Drop>(
    disks: &Two<FileDisk<R>>,
) -> [Option<FileIdentity>; 2] {
    [disks.first.identity(), disks.second.identity()]
}

/// Keeps a shelf from the files of the database: those that are open or were read, and what their names lead to.
pub(crate) fn guard<R>(
    shelf: &mut FileShelf<R>,
    disks: [Option<FileIdentity>; 2],
) -> Result<(), AllocError>
where
    R: Files<File = File> + Input + Print + Eprint + Clone + Drop,
{
    let [first, second] = disks;
    shelf.guard_disk(DISKS[0], first)?;
    shelf.guard_disk(DISKS[1], second)?;
    shelf.guard_mark(LOST)
}
