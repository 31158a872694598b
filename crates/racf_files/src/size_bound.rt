//! The bound that the system sets to the size of a file, and the room for a message within it.

use std::alloc::Global;
use std::fs::File;
use std::io::Read;
use std::rt::Files;
use std::{fs, io};

/// Where the system tells the limits of this process.
const LIMITS: &str = "/proc/self/limits";

/// How the line of the bound begins.
const BOUND: &str = "Max file size";

/// The path of the file that standard error is, where the system has such a path.
const STANDARD_ERROR: &str = "/dev/stderr";

/// No message is longer, beside a name that it tells.
const MESSAGE: usize = 4_096;

/// How long the system lets this process make a file: a write past it would be answered by a signal that ends the
/// process, unless that is ignored. Where it isn't told there is none.
pub(crate) fn size_bound<R: Files<File = File>>(alloc: Global, files: &R) -> u64 {
    match limits(alloc, files) {
        Ok(bytes) => bound_in(&bytes),
        Err(_) => u64::MAX,
    }
}

/// The text of the limits.
fn limits<R: Files<File = File>>(alloc: Global, files: &R) -> io::Result<Vec<u8>> {
    let mut file = File::open(files, LIMITS)?;
    let mut bytes = Vec::new(alloc);
    file.read_to_end(&mut bytes)?;
    Ok(bytes)
}

/// The bound in this text: the first number in its line.
fn bound_in(text: &[u8]) -> u64 {
    let Ok(text) = str::from_utf8(text) else {
        return u64::MAX;
    };
    let Some(rest) = text.lines().find_map(|line| line.strip_prefix(BOUND)) else {
        return u64::MAX;
    };
    let Some(word) = rest.split_whitespace().next() else {
        return u64::MAX;
    };
    word.parse::<u64>().unwrap_or(u64::MAX)
}

/// Whether so many bytes from a place on stay within a bound.
pub(crate) fn fits(at: u64, count: usize, bound: u64) -> bool {
    at.saturating_add(count as u64) <= bound
}

/// Whether standard error has room for a message that tells this name. Where it is a regular file that would pass the
/// bound, the signal of that would end the program in place of its status.
pub fn has_room_for_message<R: Files<File = File>>(alloc: Global, files: &R, name: &str) -> bool {
    match fs::metadata(files, STANDARD_ERROR) {
        Ok(metadata) if metadata.is_file() => fits(
            metadata.len(),
            MESSAGE.saturating_add(name.len()),
            size_bound(alloc, files),
        ),
        _ => true,
    }
}
