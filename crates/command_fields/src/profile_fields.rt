//! The commands on profiles, each with a field for each of its positional words and one for each of its operands, as
//! the commands on users and groups have them. GENERIC of a data set profile's command says nothing that its name
//! doesn't, so it has no field.

use crate::lists::{Ids, MemberNames, Whos};
use crate::resets::Reset;
use access_levels::{Condition, Id, Level};
use generic_names::Pattern;
use racf_profiles::{AuditRule, Members};

/// ADDSD defines a data set profile (z/OS Security Server RACF Command Language Reference, ADDSD).
#[derive(Drop)]
pub struct AddSd {
    pub profile: Pattern,
    pub owner: Option<Id>,
    pub uacc: Option<Level>,
    pub warning: bool,
    pub nowarning: bool,
    pub audit: Option<AuditRule>,
    pub seclevel: Option<Id>,
    pub addcategory: Ids,
    pub seclabel: Option<Id>,
}

/// ALTDSD changes a data set profile (z/OS Security Server RACF Command Language Reference, ALTDSD).
#[derive(Drop)]
pub struct AltSd {
    pub profile: Pattern,
    pub owner: Option<Id>,
    pub uacc: Option<Level>,
    pub warning: bool,
    pub nowarning: bool,
    pub audit: Option<AuditRule>,
    pub globalaudit: Option<AuditRule>,
    pub seclevel: Option<Id>,
    pub noseclevel: bool,
    pub addcategory: Ids,
    pub delcategory: Ids,
    pub seclabel: Option<Id>,
    pub noseclabel: bool,
}

/// DELDSD removes a data set profile (z/OS Security Server RACF Command Language Reference, DELDSD).
#[derive(Drop)]
pub struct DelSd {
    pub profile: Pattern,
}

/// RDEFINE defines a general resource profile (z/OS Security Server RACF Command Language Reference, RDEFINE).
#[derive(Drop)]
pub struct RDefine {
    pub class: Id,
    pub profile: Pattern,
    pub owner: Option<Id>,
    pub uacc: Option<Level>,
    pub warning: bool,
    pub nowarning: bool,
    pub audit: Option<AuditRule>,
    pub seclevel: Option<Id>,
    pub addcategory: Ids,
    pub seclabel: Option<Id>,
    pub addmem: Members,
}

/// RALTER changes a general resource profile (z/OS Security Server RACF Command Language Reference, RALTER).
#[derive(Drop)]
pub struct RAlter {
    pub class: Id,
    pub profile: Pattern,
    pub owner: Option<Id>,
    pub uacc: Option<Level>,
    pub warning: bool,
    pub nowarning: bool,
    pub audit: Option<AuditRule>,
    pub globalaudit: Option<AuditRule>,
    pub seclevel: Option<Id>,
    pub noseclevel: bool,
    pub addcategory: Ids,
    pub delcategory: Ids,
    pub seclabel: Option<Id>,
    pub noseclabel: bool,
    pub addmem: Members,
    pub delmem: MemberNames,
}

/// RDELETE removes a general resource profile (z/OS Security Server RACF Command Language Reference, RDELETE).
#[derive(Drop)]
pub struct RDelete {
    pub class: Id,
    pub profile: Pattern,
}

/// PERMIT changes a profile's access lists (z/OS Security Server RACF Command Language Reference, PERMIT).
#[derive(Drop)]
pub struct Permit {
    pub profile: Pattern,
    /// DATASET, unless CLASS names another.
    pub class: Id,
    pub reset: Option<Reset>,
    /// Whose entries are meant: users and groups, or `*` alone; empty without ID.
    pub id: Whos,
    /// Given with every ID that has no DELETE: READ, unless ACCESS names another.
    pub access: Option<Level>,
    pub delete: bool,
    pub when: Option<Condition>,
}
