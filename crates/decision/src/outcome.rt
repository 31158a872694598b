//! What is decided, and by which rule.
use access_levels::{Condition, Id, Level};
use generic_names::Pattern;
use racf_profiles::AuditRule;
use seclabels::Classified;

/// The rule that decided on a request.
#[derive(Clone, Copy, Debug, PartialEq, Eq)]
pub enum Rule {
    /// The class isn't in the class table.
    NoClass,
    /// The class isn't active.
    ClassOff,
    /// The class isn't RACLISTed.
    NotListed,
    /// The member at that place of the class's global table.
    Global(usize),
    /// No profile covers the name.
    NoProfile,
    /// No profile covers the data set, and such data sets are protected.
    ProtectAll,
    /// Levels, categories or labels forbid it.
    Classified(Classified),
    /// The data set has the user's ID as its first qualifier.
    OwnData,
    /// The user's entry in the access list.
    UserEntry,
    /// The entry of that group.
    GroupEntry(Id),
    /// The entry of `*`.
    Star,
    /// The universal access.
    Uacc,
    /// An entry of the conditional access list, under that port.
    Conditional(Condition),
    /// The user's attribute OPERATIONS.
    Operations,
    /// The user's attribute OPERATIONS in that group, in whose scope the profile is.
    GroupOperations(Id),
    /// The profile only warns.
    Warning,
    /// None of the others gives access.
    Insufficient,
}

/// What a profile asks to be logged.
#[derive(Clone, Copy, Debug, PartialEq, Eq)]
pub struct Audits {
    /// Its AUDIT, which who may change the profile sets.
    pub audit: AuditRule,
    /// Its GLOBALAUDIT, which auditors set.
    pub global_audit: AuditRule,
}

/// The answer to a request.
#[derive(Clone, Copy)]
pub struct Decision {
    /// The RACF return code: 0 allowed, 4 not decided, 8 refused.
    pub rc: u8,
    pub rule: Rule,
    /// The profile that protects the resource, where the decision got so far.
    pub profile: Option<Pattern>,
    /// What that profile asks to be logged, where there is one.
    pub audits: Option<Audits>,
    /// The level that the rule found: the entry's, the universal access, or the standing level.
    pub found: Level,
    /// Access is given although it would be refused.
    pub warned: bool,
    /// The number of the state that decided.
    pub generation: u64,
}
