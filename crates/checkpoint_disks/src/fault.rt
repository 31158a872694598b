//! Why a checkpoint isn't read or written.

ghost use Rattle.std.specs.Prelude.{◌≡◌};
ghost use Rattle.checkpoint_disks.specs.declared.fault.CheckpointFault.TheVariants as fault;

use racf_outside::Failed;
use std::alloc::{AllocError, AllocFailed};
use thiserror::Error;

/// Why a checkpoint isn't read or written.
#[derive(Clone, Copy, Debug, PartialEq, Eq, Error)]
pub enum CheckpointFault {
    /// The disk failed, and counted the fault. Then the disks are to be read again.
    #[error("the disk failed")]
    DiskFault,
    /// A file doesn't begin as it has to, or none counts.
    #[error("the disks aren't formatted")]
    NotFormatted,
    /// What the file that counts has at this place can't be read.
    #[error("the checkpoint is damaged at {0}")]
    Damaged(u64),
    /// Memory is short.
    #[error("memory is short")]
    NoMemory,
}

impl From<Failed> for CheckpointFault {
    ghost from_gives = { λ _ given. given ≡ fault.DiskFault };

    fn from(_: Failed) -> CheckpointFault {
        CheckpointFault::DiskFault
    }
}

impl From<AllocError> for CheckpointFault {
    ghost from_gives = { λ _ given. given ≡ fault.NoMemory };

    fn from(_: AllocError) -> CheckpointFault {
        CheckpointFault::NoMemory
    }
}

impl<T: Drop> From<AllocFailed<T>> for CheckpointFault {
    ghost from_gives = { λ _ given. given ≡ fault.NoMemory };

    fn from(_: AllocFailed<T>) -> CheckpointFault {
        CheckpointFault::NoMemory
    }
}
