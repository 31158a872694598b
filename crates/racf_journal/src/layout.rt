//! The layout of a file.

/// What the file of a journal begins with that stands alone.
pub(crate) const MAGIC: [u8; 8] = *b"RACFJNL1";

/// Where such a journal begins.
pub(crate) const FIRST_START: u64 = 8;

/// The file of such a journal that is new: a closed gate behind the beginning.
pub(crate) const NEW: [u8; 9] = *b"RACFJNL1\0";

/// The gate of a record that counts.
pub(crate) const OPEN: u8 = 1;

/// The gate that ends the journal.
pub(crate) const CLOSED: u8 = 0;

/// How many bytes a file may have.
pub const MOST_BYTES: u64 = 1 << 28;

/// The longest record of a command: its length, its issuer and group, and a text of 30,000 bytes.
pub(crate) const LONGEST_COMMAND: usize = 30_020;
