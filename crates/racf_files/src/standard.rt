//! The standard streams at the start of the program.

use std::fs::{File, OpenOptions};
use std::io;
use std::io::{ErrorKind, Stderr, Stdin, Stdout};
use std::os::fd::{AsFd, AsRawFd, IntoRawFd};
use std::rt::Files;

/// What a closed stream is opened on.
const NOTHING: &str = "/dev/null";

/// Occupies the descriptors of the standard streams that are closed, so that no file that is opened later takes their
/// numbers and is read or written in their place. Each is opened on `/dev/null` for what it isn't used for, standard
/// input for writing and the others for reading, so that its use fails. It is an error where that can't be.
///
/// It is called before any other file is opened and any thread is started. The descriptors stay open until the program
/// ends.
pub fn occupy_standard_streams<R: Files<File = File>>(
    files: &R,
    input: Stdin,
    output: Stdout,
    error: Stderr,
) -> io::Result<()> {
    if is_closed(&input) {
        occupy(files, OpenOptions::new().write(true), input.as_raw_fd())?;
    }
    if is_closed(&output) {
        occupy(files, OpenOptions::new().read(true), output.as_raw_fd())?;
    }
    if is_closed(&error) {
        occupy(files, OpenOptions::new().read(true), error.as_raw_fd())?;
    }
    Ok(())
}

/// Whether a stream's descriptor is closed: another one of the same open file can't be had.
fn is_closed<S: AsFd>(stream: &S) -> bool {
    stream.as_fd().try_clone_to_owned().is_err()
}

/// Opens `/dev/null`, which takes the lowest free descriptor: it has to be this one. It isn't closed again.
fn occupy<R: Files<File = File>>(files: &R, how: &OpenOptions, wanted: i32) -> io::Result<()> {
    let file = how.open(files, NOTHING)?;
    if file.as_raw_fd() != wanted {
        return Err(io::Error::from(ErrorKind::ResourceBusy));
    }
    let _occupied = file.into_raw_fd();
    Ok(())
}
