//! The operands, each with its word and the kind of its value: the same in every command that has it, but for
//! OPERATIONS of a class.

use crate::table::Operand;
use command_values::{ValueKind, Word};

pub const GROUP: Operand = Operand {
    word: Word::Group,
    kind: ValueKind::Group,
};

pub const NAME: Operand = Operand {
    word: Word::Name,
    kind: ValueKind::Name,
};

pub const DFLTGRP: Operand = Operand {
    word: Word::Dfltgrp,
    kind: ValueKind::Group,
};

pub const OWNER: Operand = Operand {
    word: Word::Owner,
    kind: ValueKind::Id,
};

pub const AUTHORITY: Operand = Operand {
    word: Word::Authority,
    kind: ValueKind::Authority,
};

pub const SPECIAL: Operand = Operand {
    word: Word::Special,
    kind: ValueKind::Flag,
};

pub const NOSPECIAL: Operand = Operand {
    word: Word::Nospecial,
    kind: ValueKind::Flag,
};

pub const OPERATIONS: Operand = Operand {
    word: Word::Operations,
    kind: ValueKind::Flag,
};

pub const NOOPERATIONS: Operand = Operand {
    word: Word::Nooperations,
    kind: ValueKind::Flag,
};

pub const AUDITOR: Operand = Operand {
    word: Word::Auditor,
    kind: ValueKind::Flag,
};

pub const NOAUDITOR: Operand = Operand {
    word: Word::Noauditor,
    kind: ValueKind::Flag,
};

pub const RESTRICTED: Operand = Operand {
    word: Word::Restricted,
    kind: ValueKind::Flag,
};

pub const NORESTRICTED: Operand = Operand {
    word: Word::Norestricted,
    kind: ValueKind::Flag,
};

pub const UAUDIT: Operand = Operand {
    word: Word::Uaudit,
    kind: ValueKind::Flag,
};

pub const NOUAUDIT: Operand = Operand {
    word: Word::Nouaudit,
    kind: ValueKind::Flag,
};

pub const REVOKE: Operand = Operand {
    word: Word::Revoke,
    kind: ValueKind::Flag,
};

pub const RESUME: Operand = Operand {
    word: Word::Resume,
    kind: ValueKind::Flag,
};

pub const CLAUTH: Operand = Operand {
    word: Word::Clauth,
    kind: ValueKind::Classes,
};

pub const NOCLAUTH: Operand = Operand {
    word: Word::Noclauth,
    kind: ValueKind::Classes,
};

pub const SECLEVEL: Operand = Operand {
    word: Word::Seclevel,
    kind: ValueKind::Id,
};

pub const NOSECLEVEL: Operand = Operand {
    word: Word::Noseclevel,
    kind: ValueKind::Flag,
};

pub const ADDCATEGORY: Operand = Operand {
    word: Word::Addcategory,
    kind: ValueKind::Ids,
};

pub const DELCATEGORY: Operand = Operand {
    word: Word::Delcategory,
    kind: ValueKind::Ids,
};

pub const SECLABEL: Operand = Operand {
    word: Word::Seclabel,
    kind: ValueKind::Id,
};

pub const NOSECLABEL: Operand = Operand {
    word: Word::Noseclabel,
    kind: ValueKind::Flag,
};

pub const SUPGROUP: Operand = Operand {
    word: Word::Supgroup,
    kind: ValueKind::Group,
};

pub const CLASS: Operand = Operand {
    word: Word::Class,
    kind: ValueKind::Class,
};

pub const UACC: Operand = Operand {
    word: Word::Uacc,
    kind: ValueKind::Level,
};

pub const WARNING: Operand = Operand {
    word: Word::Warning,
    kind: ValueKind::Flag,
};

pub const NOWARNING: Operand = Operand {
    word: Word::Nowarning,
    kind: ValueKind::Flag,
};

pub const AUDIT: Operand = Operand {
    word: Word::Audit,
    kind: ValueKind::Audit,
};

pub const GLOBALAUDIT: Operand = Operand {
    word: Word::Globalaudit,
    kind: ValueKind::Audit,
};

pub const GENERIC: Operand = Operand {
    word: Word::Generic,
    kind: ValueKind::Generic,
};

pub const ADDMEM: Operand = Operand {
    word: Word::Addmem,
    kind: ValueKind::AddedMembers,
};

pub const DELMEM: Operand = Operand {
    word: Word::Delmem,
    kind: ValueKind::DroppedMembers,
};

pub const RESET: Operand = Operand {
    word: Word::Reset,
    kind: ValueKind::Reset,
};

pub const ID: Operand = Operand {
    word: Word::Id,
    kind: ValueKind::Whos,
};

pub const ACCESS: Operand = Operand {
    word: Word::Access,
    kind: ValueKind::Level,
};

pub const DELETE: Operand = Operand {
    word: Word::Delete,
    kind: ValueKind::Flag,
};

pub const WHEN: Operand = Operand {
    word: Word::When,
    kind: ValueKind::When,
};

pub const MAXLENGTH: Operand = Operand {
    word: Word::Maxlength,
    kind: ValueKind::Length,
};

/// OPERATIONS of a class that is defined.
pub const CLASS_OPERATIONS: Operand = Operand {
    word: Word::Operations,
    kind: ValueKind::Truth,
};

pub const NAMES: Operand = Operand {
    word: Word::Names,
    kind: ValueKind::ClassNames,
};
