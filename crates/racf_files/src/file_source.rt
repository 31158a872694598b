//! A file or standard input, open for reading.

ghost use Rattle.std.specs.Prelude.{◌≡◌, ◌≤◌, length, None, IfOk};

use crate::dialogue::Asking;
use crate::file_identity::FileIdentity;
use crate::progress::{Phase, Progress};
use crate::reasons::Reason;
use racf_outside::{Failed, Faults, Source};
use std::fs::File;
use std::io;
use std::io::Read;
use std::marker::Model;
use std::rt::Files;

/// The longest input.
const LONGEST: u64 = 1 << 28;

/// Standard input in a dialogue at a terminal.
#[derive(Drop)]
pub(crate) struct Typed<R: Files<File = File> + Input + Drop> {
    /// What is typed.
    pub(crate) reader: R::Reader,
    /// Where it is asked for.
    pub(crate) terminal: R,
    /// What is asked.
    pub(crate) asking: Asking,
}

impl<R: Files<File = File> + Input + Eprint + Drop> Typed<R> {
    /// Reads what is typed next that isn't answered at the terminal itself.
    fn read(&mut self, into: &mut [u8]) -> io::Result<usize>
        ensures { IfOk result (λ n. n ≤ length into.new) }
    {
        for _ in 0..u64::MAX {
            self.asking.prompt(&self.terminal);
            let count = self.reader.read(into)?;
            if !self.asking.is_answered(&self.terminal, &into[..count]) {
                return Ok(count);
            }
        }
        Ok(0)
    }
}

/// Where bytes come from.
#[derive(Drop)]
pub(crate) enum Origin<R: Files<File = File> + Input + Drop> {
    /// A file.
    File(File),
    /// Standard input.
    Standard(R::Reader),
    /// Standard input, in a dialogue at a terminal.
    Dialogue(Typed<R>),
}

impl<R: Files<File = File> + Input + Eprint + Drop> Origin<R> {
    /// Reads from the file into the buffer.
    fn read(&mut self, into: &mut [u8]) -> io::Result<usize>
        ensures { IfOk result (λ n. n ≤ length into.new) }
    {
        match self {
            Origin::File(file) => file.read(into),
            Origin::Standard(reader) => reader.read(into),
            Origin::Dialogue(typed) => typed.read(into),
        }
    }
}

/// What is known of what was read.
#[derive(Drop)]
pub(crate) struct Heard {
    /// How many bytes were read.
    count: u64,
    /// Why a read failed for the first time.
    reason: Option<Reason>,
    /// Who is told how many were read.
    progress: Option<Progress>,
}

impl Heard {
    /// Nothing was read yet.
    pub(crate) fn new(progress: Option<Progress>) -> Heard {
        Heard {
            count: 0,
            reason: None,
            progress,
        }
    }

    /// So many bytes were read.
    fn take(&mut self, count: usize) {
        self.count = self.count.saturating_add(count as u64);
        if let Some(progress) = &self.progress {
            progress.begin(Phase::Reading);
            progress.advance(count);
        }
    }

    /// A read failed.
    fn fail(&mut self, error: io::Error) {
        if self.reason.is_none() {
            self.reason = Some(Reason::from(error));
        }
    }

    /// Why the input couldn't be worked to its end, as far as that shows here.
    fn reason(&self) -> Option<Reason> {
        match self.reason {
            Some(reason) => Some(reason),
            None if self.count > LONGEST => Some(Reason::TooLong),
            None => None,
        }
    }
}

/// A file or standard input, open for reading. Each read is one call of the system.
#[derive(Drop)]
pub struct FileSource<R: Files<File = File> + Input + Drop> {
    /// What is read.
    origin: Origin<R>,
    /// Which file that is, where it is one that could be lost.
    identity: Option<FileIdentity>,
    /// What is known of what was read.
    heard: Heard,
    /// The reads that failed.
    faults: Faults,
}

impl<R: Files<File = File> + Input + Drop> Model for FileSource<R> {
    ghost use Rattle.std.specs.Prelude.{ℕ};

    ghost Value = { ℕ };

    ghost view = { λ a. a.faults };
}

impl<R: Files<File = File> + Input + Drop> FileSource<R> {
    /// Nothing was read yet.
    pub(crate) fn new(
        origin: Origin<R>,
        identity: Option<FileIdentity>,
        progress: Option<Progress>,
    ) -> FileSource<R>
        ensures { result ≡ 0 }
    {
        FileSource {
            origin,
            identity,
            heard: Heard::new(progress),
            faults: Faults::new(),
        }
    }

    /// How many faults it has counted.
    pub fn faults(&self) -> u64
        ensures { result ≡ self.now }
    {
        self.faults.number()
    }

    /// Why it couldn't be worked to its end, as far as that shows here.
    pub fn reason(&self) -> Option<Reason> {
        self.heard.reason()
    }

    /// Which file it is, where it is one that could be lost.
    pub(crate) fn identity(&self) -> Option<FileIdentity> {
        self.identity
    }
}

impl<R: Files<File = File> + Input + Eprint + Drop> Source for FileSource<R> {
    ghost left = { λ _. None };

    ghost faults = { λ faults. faults };

    fn read(&mut self, into: &mut [u8]) -> Result<usize, Failed> {
        match self.origin.read(into) {
            Ok(count) => {
                self.heard.take(count);
                Ok(count)
            }
            Err(error) => {
                self.heard.fail(error);
                Err(self.faults.count())
            }
        }
    }
}
