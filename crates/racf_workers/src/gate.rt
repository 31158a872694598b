//! What a worker asks before and behind each line.

/// Who is asked before each line of a worker and behind it, and may let it wait. Its calls promise nothing.
pub trait Gate {
    /// A worker is about to work a line, the first of which is 1. Skipped lines count too.
    fn before(&self, worker: u32, line: u64);

    /// A worker has worked a line, and its output was written or gathered.
    fn answered(&self, worker: u32, line: u64);
}

/// A gate that lets everything pass.
pub struct Idle;

impl Gate for Idle {
    fn before(&self, _worker: u32, _line: u64) {}

    fn answered(&self, _worker: u32, _line: u64) {}
}
