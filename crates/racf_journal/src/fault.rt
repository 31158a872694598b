//! Why a journal isn't opened, or a record not taken.

ghost use Rattle.std.specs.Prelude.{◌≡◌};
ghost use Rattle.racf_journal.specs.declared.fault.JournalFault.TheVariants as fault;

use racf_outside::Failed;
use std::alloc::{AllocError, AllocFailed};
use thiserror::Error;

/// Why a journal isn't opened, or a record not taken.
#[derive(Clone, Copy, Debug, PartialEq, Eq, Error)]
pub enum JournalFault {
    /// The disk failed, and counted the fault. Then the journal is to be opened again.
    #[error("the disk failed")]
    DiskFault,
    /// The file doesn't begin as a journal does.
    #[error("the disk isn't formatted")]
    NotFormatted,
    /// The open gate at this place has no whole record behind it.
    #[error("the journal is damaged at {0}")]
    Damaged(u64),
    /// The file would grow beyond 2^28 bytes.
    #[error("the journal is full")]
    Full,
    /// Memory is short.
    #[error("memory is short")]
    NoMemory,
}

impl From<Failed> for JournalFault {
    ghost from_gives = { λ _ given. given ≡ fault.DiskFault };

    fn from(_: Failed) -> JournalFault {
        JournalFault::DiskFault
    }
}

impl From<AllocError> for JournalFault {
    ghost from_gives = { λ _ given. given ≡ fault.NoMemory };

    fn from(_: AllocError) -> JournalFault {
        JournalFault::NoMemory
    }
}

impl<T: Drop> From<AllocFailed<T>> for JournalFault {
    ghost from_gives = { λ _ given. given ≡ fault.NoMemory };

    fn from(_: AllocFailed<T>) -> JournalFault {
        JournalFault::NoMemory
    }
}
