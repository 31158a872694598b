//! How far long work has come, for who watches it.

use std::alloc::{AllocError, Global};
use std::sync::Arc;
use std::sync::atomic::{AtomicU64, Ordering};

/// What goes on.
#[derive(Clone, Copy, Debug, PartialEq, Eq)]
pub enum Phase {
    /// Nothing that is to be watched.
    Quiet,
    /// The database is opened.
    Opening,
    /// Inputs are worked.
    Reading,
    /// A checkpoint is written.
    Writing,
}

/// The numbers that who works and who watches share.
#[derive(Drop)]
struct Work {
    /// The phase: 0, 1, 2, 3 in the order of its forms.
    phase: AtomicU64,
    /// How many bytes of the inputs were read.
    read: AtomicU64,
    /// How many bytes the inputs have, as far as that is told.
    whole: AtomicU64,
}

/// How far long work has come: what goes on, and how much of the inputs was read. It is told by who works, and asked by
/// who watches. Nothing is proved of its numbers.
#[derive(Drop)]
pub struct Progress {
    /// The numbers.
    work: Arc<Work, Global>,
}

impl Progress {
    /// Nothing goes on yet.
    pub fn new(alloc: Global) -> Result<Progress, AllocError> {
        let work = Work {
            phase: AtomicU64::new(0),
            read: AtomicU64::new(0),
            whole: AtomicU64::new(0),
        };
        Ok(Progress {
            work: Arc::new(alloc, work)?,
        })
    }

    /// The same numbers, for another one who works or watches.
    pub fn share(&self) -> Result<Progress, AllocError> {
        Ok(Progress {
            work: Arc::try_clone(&self.work)?,
        })
    }

    /// What goes on from now on.
    pub fn begin(&self, phase: Phase) {
        let number = match phase {
            Phase::Quiet => 0,
            Phase::Opening => 1,
            Phase::Reading => 2,
            Phase::Writing => 3,
        };
        self.work.phase.store(number, Ordering::SeqCst);
    }

    /// What goes on.
    pub fn phase(&self) -> Phase {
        match self.work.phase.load(Ordering::SeqCst) {
            1 => Phase::Opening,
            2 => Phase::Reading,
            3 => Phase::Writing,
            _ => Phase::Quiet,
        }
    }

    /// An input of so many bytes was opened.
    pub(crate) fn expect(&self, bytes: u64) {
        self.work.whole.fetch_add(bytes, Ordering::SeqCst);
    }

    /// So many bytes of an input were read.
    pub(crate) fn advance(&self, bytes: usize) {
        self.work.read.fetch_add(bytes as u64, Ordering::SeqCst);
    }

    /// How many bytes of the inputs were read, and how many they have as far as that is told.
    pub fn bytes(&self) -> (u64, u64) {
        let read = self.work.read.load(Ordering::SeqCst);
        let whole = self.work.whole.load(Ordering::SeqCst);
        (read, whole)
    }
}
