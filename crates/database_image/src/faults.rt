//! Why an image wasn't read.
ghost use Rattle.std.specs.Prelude.{◌≡◌};
ghost use Rattle.database_image.specs.declared.faults.ReadFault.TheVariants.{NoMemory};

use std::alloc::{AllocError, AllocFailed};
use thiserror::Error;

/// Why bytes were not read.
#[derive(Clone, Copy, Debug, PartialEq, Eq, Error)]
pub enum ImageFault {
    /// The place, from 0, of the first field that has no lawful value.
    #[error("the field at {0} has no lawful value")]
    BadField(u64),
    #[error("there was no memory for the rows")]
    NoMemory,
}

/// Why a field was not read.
#[derive(Clone, Copy, Debug, PartialEq, Eq)]
pub enum ReadFault {
    /// So many bytes were left at the first field without a lawful value.
    At(usize),
    NoMemory,
}

impl From<AllocError> for ReadFault {
    ghost from_gives = { λ _ fault. fault ≡ NoMemory };

    fn from(_fault: AllocError) -> ReadFault {
        ReadFault::NoMemory
    }
}

impl<T: Drop> From<AllocFailed<T>> for ReadFault {
    ghost from_gives = { λ _ fault. fault ≡ NoMemory };

    fn from(_fault: AllocFailed<T>) -> ReadFault {
        ReadFault::NoMemory
    }
}
