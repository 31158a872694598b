//! Why no database was made.

ghost use Rattle.std.specs.Prelude.{◌≡◌};
ghost use Rattle.stored_database.specs.declared.faults.RowsFault.TheVariants.{NoMemory};

use std::alloc::AllocError;
use thiserror::Error;

/// Why no database was made.
#[derive(Clone, Copy, Debug, PartialEq, Eq, Error)]
pub enum RowsFault {
    /// The byte of the image, from 0, at which the first unlawful field stands.
    #[error("the field at {0} has no lawful value")]
    BadRow(u64),
    #[error("there was no memory for the database")]
    NoMemory,
}

impl From<AllocError> for RowsFault {
    ghost from_gives = { λ _ fault. fault ≡ NoMemory };

    fn from(_fault: AllocError) -> RowsFault {
        RowsFault::NoMemory
    }
}
