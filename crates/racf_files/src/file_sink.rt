//! A file or standard output, open for writing.

ghost use Rattle.std.specs.Prelude.{◌≡◌, ◌≤◌, length, None, IfOk};

use crate::dialogue::Printed;
use crate::file_identity::FileIdentity;
use crate::reasons::Reason;
use crate::size_bound::fits;
use racf_outside::{Failed, Faults, Sink};
use std::fs::File;
use std::io;
use std::io::{ErrorKind, Write};
use std::marker::Model;
use std::rt::Files;

/// Standard output in a dialogue at a terminal.
#[derive(Drop)]
pub(crate) struct Shown<R: Print + Drop> {
    /// Where it is printed.
    pub(crate) runtime: R,
    /// What was.
    pub(crate) printed: Printed,
}

impl<R: Print + Drop> Shown<R> {
    /// Prints, and looks for the number in front of the line.
    fn write(&mut self, bytes: &[u8]) -> io::Result<usize>
        ensures { IfOk result (λ n. n ≤ length bytes.now) }
    {
        self.printed.take(bytes);
        self.runtime.write_some(bytes)
    }
}

/// Where bytes go.
#[derive(Drop)]
pub(crate) enum Target<R: Files<File = File> + Print + Drop> {
    /// A file.
    File(File),
    /// Standard output.
    Standard(R),
    /// Standard output, in a dialogue at a terminal.
    Dialogue(Shown<R>),
    /// What isn't open: each write fails.
    Nothing,
}

impl<R: Files<File = File> + Print + Drop> Target<R> {
    /// Writes to the file.
    fn write(&mut self, bytes: &[u8]) -> io::Result<usize>
        ensures { IfOk result (λ n. n ≤ length bytes.now) }
    {
        match self {
            Target::File(file) => file.write(bytes),
            Target::Standard(runtime) => runtime.write_some(bytes),
            Target::Dialogue(shown) => shown.write(bytes),
            Target::Nothing => Err(io::Error::from(ErrorKind::Unsupported)),
        }
    }
}

/// How far a regular file was written, and how long it may become.
#[derive(Clone, Copy, Debug)]
pub(crate) struct Room {
    /// Where the next byte goes.
    pub(crate) at: u64,
    /// How long the system lets the file be.
    pub(crate) bound: u64,
}

impl Room {
    /// Bytes that are no part of a regular file have room.
    pub(crate) fn endless() -> Room {
        Room {
            at: 0,
            bound: u64::MAX,
        }
    }
}

/// A file or standard output, open for writing. Each write is one call of the system, and nothing is held back. A write
/// that would pass the system's bound for a file's size fails untried.
#[derive(Drop)]
pub struct FileSink<R: Files<File = File> + Print + Drop> {
    /// What is written to.
    target: Target<R>,
    /// Which file that is, where it is one that could be lost.
    identity: Option<FileIdentity>,
    /// The room that is left.
    room: Room,
    /// Why a write failed for the first time.
    reason: Option<Reason>,
    /// The writes that failed.
    faults: Faults,
}

impl<R: Files<File = File> + Print + Drop> Model for FileSink<R> {
    ghost use Rattle.std.specs.Prelude.{ℕ};

    ghost Value = { ℕ };

    ghost view = { λ a. a.faults };
}

impl<R: Files<File = File> + Print + Drop> FileSink<R> {
    /// Nothing was written yet.
    pub(crate) fn new(target: Target<R>, identity: Option<FileIdentity>, room: Room) -> FileSink<R>
        ensures { result ≡ 0 }
    {
        FileSink {
            target,
            identity,
            room,
            reason: None,
            faults: Faults::new(),
        }
    }

    /// How many faults it has counted.
    pub fn faults(&self) -> u64
        ensures { result ≡ self.now }
    {
        self.faults.number()
    }

    /// Why a write failed for the first time.
    pub fn reason(&self) -> Option<Reason> {
        self.reason
    }

    /// Which file it is, where it is one that could be lost.
    pub(crate) fn identity(&self) -> Option<FileIdentity> {
        self.identity
    }
}

impl<R: Files<File = File> + Print + Drop> Sink for FileSink<R> {
    ghost taken = { λ _. None };

    ghost faults = { λ faults. faults };

    fn write(&mut self, bytes: &[u8]) -> Result<usize, Failed> {
        match write_within(&mut self.target, &mut self.room, bytes) {
            Ok(count) if count > 0 || bytes.is_empty() => Ok(count),
            Ok(_) => {
                self.reason.get_or_insert(Reason::NoRoom);
                Err(self.faults.count())
            }
            Err(reason) => {
                self.reason.get_or_insert(reason);
                Err(self.faults.count())
            }
        }
    }
}

/// Writes where there is room.
fn write_within<R: Files<File = File> + Print + Drop>(
    target: &mut Target<R>,
    room: &mut Room,
    bytes: &[u8],
) -> Result<usize, Reason>
    ensures { IfOk result (λ n. n ≤ length bytes.now) }
{
    if !fits(room.at, bytes.len(), room.bound) {
        return Err(Reason::TooLarge);
    }
    match target.write(bytes) {
        Ok(count) => {
            room.at = room.at.saturating_add(count as u64);
            Ok(count)
        }
        Err(error) => Err(Reason::from(error)),
    }
}
