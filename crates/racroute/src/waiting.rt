//! Why somebody who waits for a number doesn't get it.

/// Why so many commands aren't there.
#[derive(Clone, Copy, PartialEq, Eq)]
pub enum AfterFault {
    /// No more than this many are ever accepted: no pass is out, or a disk failed a command.
    Final(u64),
    /// Memory was wanting for a note, and nothing has changed.
    NoMemory,
}
