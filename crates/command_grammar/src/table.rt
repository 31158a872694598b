//! The table of commands: how each is called, its positional words, its operands in the order in which they are
//! written, and which of them exclude one another or are needed (z/OS Security Server RACF Command Language Reference;
//! the order is this product's own).
//!
//! The reader, the printer and the laws about them all go by this table. A further command is a variant of `Verb`, its
//! names and its rows.

ghost use Rattle.std.specs.Prelude.{◌≡◌, map};
ghost use Rattle.command_grammar.specs.Parts.{needed as needed_row};

use crate::operand_rows::{
    ADDCATEGORY, AUDITOR, AUTHORITY, CLAUTH, DELCATEGORY, DFLTGRP, GROUP, NAME, NOAUDITOR,
    NOCLAUTH, NOOPERATIONS, NORESTRICTED, NOSECLABEL, NOSECLEVEL, NOSPECIAL, NOUAUDIT, OPERATIONS,
    OWNER, RESTRICTED, RESUME, REVOKE, SECLABEL, SECLEVEL, SPECIAL, SUPGROUP, UAUDIT,
};
use crate::profile_table::{
    ADDSD_EXCLUDED, ADDSD_OPERANDS, ALTDSD_EXCLUDED, ALTDSD_OPERANDS, ALTER_CLASS_OPERANDS,
    CLASS_POSITIONS, DATASET_POSITION, DEFINE_CLASS_OPERANDS, DELDSD_OPERANDS, PERMIT_EXCLUDED,
    PERMIT_NEEDED, PERMIT_OPERANDS, PERMIT_POSITION, RALTER_EXCLUDED, RALTER_OPERANDS,
    RDEFINE_EXCLUDED, RDEFINE_OPERANDS,
};
use crate::setropts_table::{SETROPTS_EXCLUDED, SETROPTS_NEEDED, SETROPTS_OPERANDS};
use access_levels::Id;
use command_fields::is_cdt;
use command_values::{ValueKind, Word};

/// The commands.
#[derive(Clone, Copy, Debug, PartialEq, Eq)]
pub enum Verb {
    AddUser,
    AltUser,
    DelUser,
    AddGroup,
    AltGroup,
    DelGroup,
    Connect,
    Remove,
    AddSd,
    AltSd,
    DelSd,
    RDefine,
    /// RDEFINE in class CDT.
    DefineClass,
    RAlter,
    /// RALTER in class CDT.
    AlterClass,
    RDelete,
    Permit,
    SetRopts,
}

/// The commands that a word names, in the order of the table.
pub const VERBS: [Verb; 16] = [
    Verb::AddUser,
    Verb::AltUser,
    Verb::DelUser,
    Verb::AddGroup,
    Verb::AltGroup,
    Verb::DelGroup,
    Verb::Connect,
    Verb::Remove,
    Verb::AddSd,
    Verb::AltSd,
    Verb::DelSd,
    Verb::RDefine,
    Verb::RAlter,
    Verb::RDelete,
    Verb::Permit,
    Verb::SetRopts,
];

/// A positional word: the word that a refusal names it by, and what it is.
#[derive(Clone, Copy, Debug, PartialEq, Eq)]
pub struct Position {
    pub word: Word,
    pub kind: ValueKind,
}

/// An operand: its word, and the kind of its value.
#[derive(Clone, Copy, Debug, PartialEq, Eq)]
pub struct Operand {
    pub word: Word,
    pub kind: ValueKind,
}

/// Operands of which a command needs one: always, or where an operand that asks for it stands.
#[derive(Clone, Copy, Debug, PartialEq, Eq)]
pub struct Needed {
    /// The operands that ask for it; `None` is always.
    pub asked_by: Option<&'static [Word]>,
    pub one_of: &'static [Word],
    /// The word that a refusal names.
    pub missing: Word,
}

/// The positional word of a command that names a user.
pub const USER_POSITION: [Position; 1] = [Position {
    word: Word::User,
    kind: ValueKind::Id,
}];

/// The positional word of a command that names a group.
pub const GROUP_POSITION: [Position; 1] = [Position {
    word: Word::Group,
    kind: ValueKind::Group,
}];

/// The operands of ADDUSER.
pub const ADDUSER_OPERANDS: [Operand; 16] = [
    NAME,
    DFLTGRP,
    OWNER,
    AUTHORITY,
    SPECIAL,
    NOSPECIAL,
    OPERATIONS,
    NOOPERATIONS,
    AUDITOR,
    NOAUDITOR,
    RESTRICTED,
    NORESTRICTED,
    CLAUTH,
    SECLEVEL,
    ADDCATEGORY,
    SECLABEL,
];

/// The operands of ADDUSER that exclude one another.
pub const ADDUSER_EXCLUDED: [(Word, Word); 4] = [
    (Word::Special, Word::Nospecial),
    (Word::Operations, Word::Nooperations),
    (Word::Auditor, Word::Noauditor),
    (Word::Restricted, Word::Norestricted),
];

/// The operands of ALTUSER.
pub const ALTUSER_OPERANDS: [Operand; 23] = [
    NAME,
    DFLTGRP,
    OWNER,
    SPECIAL,
    NOSPECIAL,
    OPERATIONS,
    NOOPERATIONS,
    AUDITOR,
    NOAUDITOR,
    RESTRICTED,
    NORESTRICTED,
    UAUDIT,
    NOUAUDIT,
    REVOKE,
    RESUME,
    CLAUTH,
    NOCLAUTH,
    SECLEVEL,
    NOSECLEVEL,
    ADDCATEGORY,
    DELCATEGORY,
    SECLABEL,
    NOSECLABEL,
];

/// The operands of ALTUSER that exclude one another.
pub const ALTUSER_EXCLUDED: [(Word, Word); 8] = [
    (Word::Special, Word::Nospecial),
    (Word::Operations, Word::Nooperations),
    (Word::Auditor, Word::Noauditor),
    (Word::Restricted, Word::Norestricted),
    (Word::Uaudit, Word::Nouaudit),
    (Word::Revoke, Word::Resume),
    (Word::Seclevel, Word::Noseclevel),
    (Word::Seclabel, Word::Noseclabel),
];

/// The operands of ADDGROUP.
pub const ADDGROUP_OPERANDS: [Operand; 2] = [SUPGROUP, OWNER];

/// The operands of ALTGROUP.
pub const ALTGROUP_OPERANDS: [Operand; 2] = [SUPGROUP, OWNER];

/// The operands of CONNECT.
pub const CONNECT_OPERANDS: [Operand; 10] = [
    GROUP,
    AUTHORITY,
    SPECIAL,
    NOSPECIAL,
    OPERATIONS,
    NOOPERATIONS,
    AUDITOR,
    NOAUDITOR,
    REVOKE,
    RESUME,
];

/// The operands of CONNECT that exclude one another.
pub const CONNECT_EXCLUDED: [(Word, Word); 4] = [
    (Word::Special, Word::Nospecial),
    (Word::Operations, Word::Nooperations),
    (Word::Auditor, Word::Noauditor),
    (Word::Revoke, Word::Resume),
];

/// The operands of REMOVE.
pub const REMOVE_OPERANDS: [Operand; 1] = [GROUP];

impl Verb {
    ghost use Rattle.std.specs.Prelude.{List, ℕ, Option};
    ghost use Rattle.command_grammar.specs.CommandTable.{in_class};
    ghost use Rattle.command_grammar.specs.Table.{full_name, short_name, positions_of, operands_of, excluded_of, needed_of};

    /// The command of this name in that class: RDEFINE and RALTER have operands of their own in CDT.
    pub fn in_class(self, class: Option<Id>) -> Verb
        ensures { result ≡ in_class self class }
    {
        match (self, class) {
            (Verb::RDefine, Some(class)) if is_cdt(class) => Verb::DefineClass,
            (Verb::RAlter, Some(class)) if is_cdt(class) => Verb::AlterClass,
            (verb, _) => verb,
        }
    }

    /// The command's full name.
    pub fn full_name(self) -> &'static [u8]
        ensures { result.now ≡ full_name self }
    {
        match self {
            Verb::AddUser => b"ADDUSER".as_slice(),
            Verb::AltUser => b"ALTUSER".as_slice(),
            Verb::DelUser => b"DELUSER".as_slice(),
            Verb::AddGroup => b"ADDGROUP".as_slice(),
            Verb::AltGroup => b"ALTGROUP".as_slice(),
            Verb::DelGroup => b"DELGROUP".as_slice(),
            Verb::Connect => b"CONNECT".as_slice(),
            Verb::Remove => b"REMOVE".as_slice(),
            Verb::AddSd => b"ADDSD".as_slice(),
            Verb::AltSd => b"ALTDSD".as_slice(),
            Verb::DelSd => b"DELDSD".as_slice(),
            Verb::RDefine => b"RDEFINE".as_slice(),
            Verb::DefineClass => b"RDEFINE".as_slice(),
            Verb::RAlter => b"RALTER".as_slice(),
            Verb::AlterClass => b"RALTER".as_slice(),
            Verb::RDelete => b"RDELETE".as_slice(),
            Verb::Permit => b"PERMIT".as_slice(),
            Verb::SetRopts => b"SETROPTS".as_slice(),
        }
    }

    /// The command's abbreviation.
    pub fn short_name(self) -> &'static [u8]
        ensures { result.now ≡ short_name self }
    {
        match self {
            Verb::AddUser => b"AU".as_slice(),
            Verb::AltUser => b"ALU".as_slice(),
            Verb::DelUser => b"DU".as_slice(),
            Verb::AddGroup => b"AG".as_slice(),
            Verb::AltGroup => b"ALG".as_slice(),
            Verb::DelGroup => b"DG".as_slice(),
            Verb::Connect => b"CO".as_slice(),
            Verb::Remove => b"RE".as_slice(),
            Verb::AddSd => b"AD".as_slice(),
            Verb::AltSd => b"ALD".as_slice(),
            Verb::DelSd => b"DD".as_slice(),
            Verb::RDefine => b"RDEF".as_slice(),
            Verb::DefineClass => b"RDEF".as_slice(),
            Verb::RAlter => b"RALT".as_slice(),
            Verb::AlterClass => b"RALT".as_slice(),
            Verb::RDelete => b"RDEL".as_slice(),
            Verb::Permit => b"PE".as_slice(),
            Verb::SetRopts => b"SETR".as_slice(),
        }
    }

    /// The command's positional words.
    pub fn positions(self) -> &'static [Position]
        ensures { result.now ≡ positions_of self }
    {
        match self {
            Verb::AddUser => &USER_POSITION,
            Verb::AltUser => &USER_POSITION,
            Verb::DelUser => &USER_POSITION,
            Verb::AddGroup => &GROUP_POSITION,
            Verb::AltGroup => &GROUP_POSITION,
            Verb::DelGroup => &GROUP_POSITION,
            Verb::Connect => &USER_POSITION,
            Verb::Remove => &USER_POSITION,
            Verb::AddSd => &DATASET_POSITION,
            Verb::AltSd => &DATASET_POSITION,
            Verb::DelSd => &DATASET_POSITION,
            Verb::RDefine => &CLASS_POSITIONS,
            Verb::DefineClass => &CLASS_POSITIONS,
            Verb::RAlter => &CLASS_POSITIONS,
            Verb::AlterClass => &CLASS_POSITIONS,
            Verb::RDelete => &CLASS_POSITIONS,
            Verb::Permit => &PERMIT_POSITION,
            Verb::SetRopts => &[],
        }
    }

    /// The command's operands.
    pub fn operands(self) -> &'static [Operand]
        ensures { result.now ≡ operands_of self }
    {
        match self {
            Verb::AddUser => &ADDUSER_OPERANDS,
            Verb::AltUser => &ALTUSER_OPERANDS,
            Verb::DelUser => &[],
            Verb::AddGroup => &ADDGROUP_OPERANDS,
            Verb::AltGroup => &ALTGROUP_OPERANDS,
            Verb::DelGroup => &[],
            Verb::Connect => &CONNECT_OPERANDS,
            Verb::Remove => &REMOVE_OPERANDS,
            Verb::AddSd => &ADDSD_OPERANDS,
            Verb::AltSd => &ALTDSD_OPERANDS,
            Verb::DelSd => &DELDSD_OPERANDS,
            Verb::RDefine => &RDEFINE_OPERANDS,
            Verb::DefineClass => &DEFINE_CLASS_OPERANDS,
            Verb::RAlter => &RALTER_OPERANDS,
            Verb::AlterClass => &ALTER_CLASS_OPERANDS,
            Verb::RDelete => &[],
            Verb::Permit => &PERMIT_OPERANDS,
            Verb::SetRopts => &SETROPTS_OPERANDS,
        }
    }

    /// The pairs of the command's operands that exclude one another, in the order in which they are judged.
    pub fn excluded(self) -> &'static [(Word, Word)]
        ensures { result.now ≡ excluded_of self }
    {
        match self {
            Verb::AddUser => &ADDUSER_EXCLUDED,
            Verb::AltUser => &ALTUSER_EXCLUDED,
            Verb::DelUser => &[],
            Verb::AddGroup => &[],
            Verb::AltGroup => &[],
            Verb::DelGroup => &[],
            Verb::Connect => &CONNECT_EXCLUDED,
            Verb::Remove => &[],
            Verb::AddSd => &ADDSD_EXCLUDED,
            Verb::AltSd => &ALTDSD_EXCLUDED,
            Verb::DelSd => &[],
            Verb::RDefine => &RDEFINE_EXCLUDED,
            Verb::DefineClass => &[],
            Verb::RAlter => &RALTER_EXCLUDED,
            Verb::AlterClass => &[],
            Verb::RDelete => &[],
            Verb::Permit => &PERMIT_EXCLUDED,
            Verb::SetRopts => &SETROPTS_EXCLUDED,
        }
    }

    /// The operands that the command needs, in the order in which they are judged.
    pub fn needed(self) -> &'static [Needed]
        ensures { map needed_row result.now ≡ needed_of self }
    {
        match self {
            Verb::Permit => &PERMIT_NEEDED,
            Verb::SetRopts => &SETROPTS_NEEDED,
            _ => &[],
        }
    }
}
