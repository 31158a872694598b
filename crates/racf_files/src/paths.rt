//! Folders of files, and descriptors behind those of the standard streams.

use crate::reasons::Reason;
use std::alloc::{AllocError, Global};
use std::fs::File;
use std::io;
use std::os::fd::AsRawFd;
use std::path::Path;
use std::rt::Files;

/// The descriptors up to this one are the standard streams.
const STANDARD_ERROR: i32 = 2;

/// The file, at a descriptor behind those of the standard streams: what is meant for one that is closed must not land
/// in it.
pub(crate) fn behind_standard(file: File) -> io::Result<File> {
    if file.as_raw_fd() <= STANDARD_ERROR {
        file.try_clone()
    } else {
        Ok(file)
    }
}

/// The folder that a file lies in.
pub(crate) fn folder_of(path: &str) -> &str {
    match Path::new(path).parent() {
        Some(folder) if !folder.as_str().is_empty() => folder.as_str(),
        _ => ".",
    }
}

/// The path of a file beside another one.
pub(crate) fn beside(alloc: Global, path: &str, name: &str) -> Result<String, AllocError> {
    let mut made = String::new(alloc);
    made.push_str(folder_of(path))?;
    made.push_str("/")?;
    made.push_str(name)?;
    Ok(made)
}

/// Syncs the folder that a file lies in, so that the file is there after a power failure.
pub(crate) fn sync_folder<R: Files<File = File>>(files: &R, path: &str) -> Result<(), Reason> {
    let folder = behind_standard(File::open(files, folder_of(path))?)?;
    folder.sync_all()?;
    Ok(())
}
