//! Which file a name leads to, whatever other names it has.

use std::fs;
use std::fs::Metadata;
use std::os::unix::fs::MetadataExt;
use std::rt::Files;

/// A regular file, whatever names it has: one is the same as another exactly where both numbers are.
#[derive(Clone, Copy, Debug, PartialEq, Eq)]
pub struct FileIdentity {
    /// The device that the file lies on.
    device: u64,
    /// The file's number there.
    inode: u64,
}

/// The identity of a regular file. Others, as terminals and pipes, keep nothing that could be lost. The number 0 is
/// none.
pub(crate) fn identity_of(metadata: &Metadata) -> Option<FileIdentity> {
    if metadata.is_file() && metadata.ino() != 0 {
        return Some(FileIdentity {
            device: metadata.dev(),
            inode: metadata.ino(),
        });
    }
    None
}

/// The regular file that a path leads to, where there is one.
pub fn identity_at<R: Files>(files: &R, path: &str) -> Option<FileIdentity> {
    match fs::metadata(files, path) {
        Ok(metadata) => identity_of(&metadata),
        Err(_) => None,
    }
}
