//! What a record is, and why bytes are none.
use command_parser::{Command, Issuer};
use thiserror::Error;

/// A command, with the issuer who gave it and the group that was current for him.
#[derive(Drop)]
pub struct CommandRecord {
    /// Who gave it.
    pub issuer: Issuer,
    /// What he gave.
    pub command: Command,
}

/// Why bytes are no record, in the order of the tests, or couldn't be read.
#[derive(Clone, Copy, Debug, PartialEq, Eq, Error)]
pub enum RecordFault {
    #[error("the record has fewer than 4 bytes")]
    Short,
    #[error("the record's length isn't that of what follows it, or too small")]
    BadLength,
    #[error("the issuer has no user ID's spelling")]
    BadIssuer,
    #[error("the group has no group name's spelling")]
    BadGroup,
    #[error("the text isn't the canonical text of a command")]
    BadText,
    #[error("there was no memory for the record")]
    NoMemory,
}
