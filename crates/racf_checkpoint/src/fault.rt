//! Why a store isn't loaded, a record not taken, or a checkpoint not written.

ghost use Rattle.std.specs.Prelude.{◌≡◌};
ghost use Rattle.racf_checkpoint.specs.Contents.{checkpoint_fault, journal_fault};
ghost use Rattle.racf_checkpoint.specs.declared.fault.StoreFault.TheVariants as fault;

use checkpoint_disks::CheckpointFault;
use racf_journal::JournalFault;
use racf_outside::Failed;
use std::alloc::AllocError;
use thiserror::Error;

/// Why a store isn't loaded, a record not taken, or a checkpoint not written.
#[derive(Clone, Copy, Debug, PartialEq, Eq, Error)]
pub enum StoreFault {
    /// A disk failed, and counted the fault. Then the store is to be loaded again.
    #[error("a disk failed")]
    DiskFault,
    /// A file doesn't begin as it has to, or none counts.
    #[error("the disks aren't formatted")]
    NotFormatted,
    /// What the file that counts has at this place can't be read.
    #[error("the store is damaged at {0}")]
    Damaged(u64),
    /// The file would grow beyond 2^28 bytes.
    #[error("the store is full")]
    Full,
    /// Memory is short.
    #[error("memory is short")]
    NoMemory,
}

impl From<CheckpointFault> for StoreFault {
    ghost from_gives = { λ fault given. given ≡ checkpoint_fault fault };

    fn from(fault: CheckpointFault) -> StoreFault {
        match fault {
            CheckpointFault::DiskFault => StoreFault::DiskFault,
            CheckpointFault::NotFormatted => StoreFault::NotFormatted,
            CheckpointFault::Damaged(place) => StoreFault::Damaged(place),
            CheckpointFault::NoMemory => StoreFault::NoMemory,
        }
    }
}

impl From<JournalFault> for StoreFault {
    ghost from_gives = { λ fault given. given ≡ journal_fault fault };

    fn from(fault: JournalFault) -> StoreFault {
        match fault {
            JournalFault::DiskFault => StoreFault::DiskFault,
            JournalFault::NotFormatted => StoreFault::NotFormatted,
            JournalFault::Damaged(place) => StoreFault::Damaged(place),
            JournalFault::Full => StoreFault::Full,
            JournalFault::NoMemory => StoreFault::NoMemory,
        }
    }
}

impl From<Failed> for StoreFault {
    ghost from_gives = { λ _ given. given ≡ fault.DiskFault };

    fn from(_: Failed) -> StoreFault {
        StoreFault::DiskFault
    }
}

impl From<AllocError> for StoreFault {
    ghost from_gives = { λ _ given. given ≡ fault.NoMemory };

    fn from(_: AllocError) -> StoreFault {
        StoreFault::NoMemory
    }
}
