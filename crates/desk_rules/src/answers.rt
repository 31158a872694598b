//! What a desk answers, and the last number that it gives.

use crate::refusal::Refusal;
use access_levels::Text;
use command_parser::Issuer;
use racf_profiles::Change;
use raclist_image::Image;
use std::sync::Arc;

/// The last number that a command gets (this product's own limit). A desk that stands there refuses every further
/// command.
pub const MOST_NUMBER: u64 = 1 << 62;

/// What is made of a command that is accepted, with all memory that it takes.
#[derive(Drop)]
pub struct Ready {
    /// The command's number: how many commands will have been accepted with it.
    pub number: u64,
    /// Who gave it, with the group that was current for him.
    pub issuer: Issuer,
    /// Its canonical text.
    pub text: Text,
    /// Its record, as the journal keeps it.
    pub entry: Text,
    /// Its edits of the rows.
    pub change: Change,
    /// The state behind it, with the number.
    pub image: Arc<Image>,
}

/// The answer to a command. Each number is that of the commands that were accepted so far.
#[derive(Drop)]
pub enum Reply {
    /// The command was accepted, stands on the disks, and counts in the number.
    Accepted(u64),
    /// The command was refused, and changed nothing.
    Refused(u64, Refusal),
    /// A disk failed an earlier command, and the desk takes no more.
    Halted(u64),
    /// A disk failed this command, which may stand there or not. The desk takes no more.
    DiskFault(u64),
    /// Memory was wanting, and nothing has changed.
    NoMemory,
}
