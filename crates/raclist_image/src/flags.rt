//! What is set for a class.
use racf_profiles::LogOption;

/// What SETROPTS sets for a class: what its row says beside its profiles.
#[derive(Clone, Copy, Debug, PartialEq, Eq)]
pub struct ClassOptions {
    /// The class is used in decisions.
    pub active: bool,
    /// It is RACLISTed.
    pub listed: bool,
    /// The global access table is used for it.
    pub global: bool,
    pub log: LogOption,
}

/// The options of a class, and what it allows.
#[derive(Clone, Copy, Debug, PartialEq, Eq)]
pub struct ClassFlags {
    /// The class is used in decisions.
    pub active: bool,
    /// It is RACLISTed.
    pub listed: bool,
    /// The global access table is used for it.
    pub global: bool,
    /// The attribute OPERATIONS gives access: a fact of the class table or, of a dynamic class, of its profile in CDT.
    pub operations: bool,
    pub log: LogOption,
}
