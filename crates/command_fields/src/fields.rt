//! The commands, each with a field for its positional word and one for each of its operands.
//!
//! An operand that takes no value is a `bool`, a list of names is empty where it wasn't given, and every other operand
//! is an `Option` of its value. An operand and the one that takes it back, as SPECIAL and NOSPECIAL, are two fields.

use crate::class_fields::{AlterClass, DefineClass};
use crate::lists::Ids;
use crate::option_fields::SetRopts;
use crate::profile_fields::{AddSd, AltSd, DelSd, Permit, RAlter, RDefine, RDelete};
use access_levels::{GroupAuthority, Id, Text};

/// A command.
#[derive(Drop)]
pub enum CommandFields {
    AddUser(AddUser),
    AltUser(AltUser),
    DelUser(DelUser),
    AddGroup(AddGroup),
    AltGroup(AltGroup),
    DelGroup(DelGroup),
    Connect(Connect),
    Remove(Remove),
    AddSd(AddSd),
    AltSd(AltSd),
    DelSd(DelSd),
    RDefine(RDefine),
    /// RDEFINE in class CDT.
    DefineClass(DefineClass),
    RAlter(RAlter),
    /// RALTER in class CDT.
    AlterClass(AlterClass),
    RDelete(RDelete),
    Permit(Permit),
    SetRopts(SetRopts),
}

/// ADDUSER defines a user (z/OS Security Server RACF Command Language Reference, ADDUSER).
#[derive(Debug, Drop)]
pub struct AddUser {
    pub user: Id,
    pub name: Option<Text>,
    pub dfltgrp: Option<Id>,
    pub owner: Option<Id>,
    pub authority: Option<GroupAuthority>,
    pub special: bool,
    pub nospecial: bool,
    pub operations: bool,
    pub nooperations: bool,
    pub auditor: bool,
    pub noauditor: bool,
    pub restricted: bool,
    pub norestricted: bool,
    pub clauth: Ids,
    pub seclevel: Option<Id>,
    pub addcategory: Ids,
    pub seclabel: Option<Id>,
}

/// ALTUSER changes a user (z/OS Security Server RACF Command Language Reference, ALTUSER).
#[derive(Debug, Drop)]
pub struct AltUser {
    pub user: Id,
    pub name: Option<Text>,
    pub dfltgrp: Option<Id>,
    pub owner: Option<Id>,
    pub special: bool,
    pub nospecial: bool,
    pub operations: bool,
    pub nooperations: bool,
    pub auditor: bool,
    pub noauditor: bool,
    pub restricted: bool,
    pub norestricted: bool,
    pub uaudit: bool,
    pub nouaudit: bool,
    pub revoke: bool,
    pub resume: bool,
    pub clauth: Ids,
    pub noclauth: Ids,
    pub seclevel: Option<Id>,
    pub noseclevel: bool,
    pub addcategory: Ids,
    pub delcategory: Ids,
    pub seclabel: Option<Id>,
    pub noseclabel: bool,
}

/// DELUSER removes a user (z/OS Security Server RACF Command Language Reference, DELUSER).
#[derive(Debug, Drop)]
pub struct DelUser {
    pub user: Id,
}

/// ADDGROUP defines a group (z/OS Security Server RACF Command Language Reference, ADDGROUP).
#[derive(Debug, Drop)]
pub struct AddGroup {
    pub group: Id,
    pub supgroup: Option<Id>,
    pub owner: Option<Id>,
}

/// ALTGROUP changes a group (z/OS Security Server RACF Command Language Reference, ALTGROUP).
#[derive(Debug, Drop)]
pub struct AltGroup {
    pub group: Id,
    pub supgroup: Option<Id>,
    pub owner: Option<Id>,
}

/// DELGROUP removes a group (z/OS Security Server RACF Command Language Reference, DELGROUP).
#[derive(Debug, Drop)]
pub struct DelGroup {
    pub group: Id,
}

/// CONNECT connects a user to a group, or changes the connection (z/OS Security Server RACF Command Language Reference,
/// CONNECT).
#[derive(Debug, Drop)]
pub struct Connect {
    pub user: Id,
    pub group: Option<Id>,
    pub authority: Option<GroupAuthority>,
    pub special: bool,
    pub nospecial: bool,
    pub operations: bool,
    pub nooperations: bool,
    pub auditor: bool,
    pub noauditor: bool,
    pub revoke: bool,
    pub resume: bool,
}

/// REMOVE removes a user's connection to a group (z/OS Security Server RACF Command Language Reference, REMOVE).
#[derive(Debug, Drop)]
pub struct Remove {
    pub user: Id,
    pub group: Option<Id>,
}
