//! A gate that holds workers before lines.

use racf_workers::Gate;
use std::sync::{Condvar, Mutex, Wait};

/// A worker is held before a line until a line of another worker was answered.
#[derive(Clone, Copy)]
pub(super) struct Hold {
    /// Who is held.
    worker: u32,
    /// Before which line.
    line: u64,
    /// The other worker.
    other: u32,
    /// His line.
    awaited: u64,
}

impl Hold {
    /// Holds a worker before a line, until another has answered a line of his.
    pub(super) fn new(worker: u32, line: u64, other: u32, awaited: u64) -> Hold {
        Hold {
            worker,
            line,
            other,
            awaited,
        }
    }
}

/// The numbers of the lines that each of four workers answered last.
#[derive(Drop)]
struct Answered {
    /// By the workers' numbers.
    lines: [u64; 4],
}

impl Answered {
    /// Whether a worker has answered a line.
    fn has(&self, worker: u32, line: u64) -> bool {
        match self.lines.get(worker as usize) {
            Some(last) => line <= *last,
            None => true,
        }
    }
}

/// The gate.
#[derive(Drop)]
pub(super) struct Holding<'a, R: Wait> {
    /// By what it waits.
    rt: &'a R,
    /// Whom it holds.
    holds: &'a [Hold],
    /// What was answered so far.
    answered: Mutex<Answered>,
    /// Where those wait whom it holds.
    moved: Condvar,
}

impl<'a, R: Wait> Holding<'a, R> {
    /// A gate with these holds.
    pub(super) fn new(rt: &'a R, holds: &'a [Hold]) -> Holding<'a, R> {
        Holding {
            rt,
            holds,
            answered: Mutex::new(Answered { lines: [0; 4] }),
            moved: Condvar::new(),
        }
    }
}

impl<R: Wait> Gate for Holding<'_, R> {
    fn before(&self, worker: u32, line: u64) {
        let found = self
            .holds
            .iter()
            .find(|hold| hold.worker == worker && hold.line == line);
        let Some(hold) = found else {
            return;
        };
        let (other, awaited) = (hold.other, hold.awaited);
        let answered = self.answered.lock(self.rt);
        let _answered = self.moved.wait_while(
            self.rt,
            answered,
            |answered| !answered.has(other, awaited),
        );
    }

    fn answered(&self, worker: u32, line: u64) {
        let mut answered = self.answered.lock(self.rt);
        if let Some(last) = answered.lines.get_mut(worker as usize) {
            *last = line;
        }
        self.moved.notify_all();
    }
}
