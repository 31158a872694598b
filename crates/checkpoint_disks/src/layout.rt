//! The layout of a file.

/// What each file begins with.
pub(crate) const MAGIC: [u8; 8] = *b"RACFDB01";

/// The file of a disk that has no checkpoint: its first eight bytes, and a closed head gate.
pub(crate) const BARE: [u8; 9] = *b"RACFDB01\0";

/// The place of the head gate.
pub(crate) const HEAD: u64 = 8;

/// The place of the epoch.
pub(crate) const EPOCH: usize = 9;

/// The place of the number.
pub(crate) const NUMBER: usize = 17;

/// The place of the image's length.
pub(crate) const LENGTH: usize = 25;

/// The place of the image.
pub(crate) const IMAGE: usize = 33;

/// The greatest number.
pub(crate) const MOST_NUMBER: u64 = 1 << 62;

/// A gate that is open.
pub(crate) const OPEN: u8 = 1;

/// A gate that is closed.
pub(crate) const CLOSED: u8 = 0;
