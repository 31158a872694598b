//! The command on options, with a field for each of its operands.

use crate::lists::Ids;
use crate::log_clauses::LogClauses;

/// SETROPTS sets the options of the whole system and of its classes (z/OS Security Server RACF Command Language
/// Reference, SETROPTS).
#[derive(Drop)]
pub struct SetRopts {
    pub classact: Ids,
    pub noclassact: Ids,
    pub grplist: bool,
    pub nogrplist: bool,
    /// With FAILURES, which is meant always.
    pub protectall: bool,
    pub noprotectall: bool,
    /// With FAILURES, which is meant always.
    pub mls: bool,
    pub nomls: bool,
    pub raclist: Ids,
    pub noraclist: Ids,
    pub global: Ids,
    pub noglobal: Ids,
    pub generic: Ids,
    pub refresh: bool,
    /// In the order in which its words apply.
    pub logoptions: LogClauses,
}
