//! The rows of the commands on profiles (z/OS Security Server RACF Command Language Reference; the order is this
//! product's own).

use crate::operand_rows::{
    ACCESS, ADDCATEGORY, ADDMEM, AUDIT, CLASS, CLASS_OPERATIONS, DELCATEGORY, DELETE, DELMEM,
    GENERIC, GLOBALAUDIT, ID, MAXLENGTH, NAMES, NOSECLABEL, NOSECLEVEL, NOWARNING, OWNER, RESET,
    SECLABEL, SECLEVEL, UACC, WARNING, WHEN,
};
use crate::table::{Needed, Operand, Position};
use command_values::{ValueKind, Word};

/// The positional word of a command that names a data set profile.
pub const DATASET_POSITION: [Position; 1] = [Position {
    word: Word::Profile,
    kind: ValueKind::DataSetProfile,
}];

/// The positional words of a command that names a class and a profile of it.
pub const CLASS_POSITIONS: [Position; 2] = [
    Position {
        word: Word::Class,
        kind: ValueKind::Class,
    },
    Position {
        word: Word::Profile,
        kind: ValueKind::ClassProfile,
    },
];

/// The positional word of PERMIT, which is judged by the class that its operand names.
pub const PERMIT_POSITION: [Position; 1] = [Position {
    word: Word::Profile,
    kind: ValueKind::AnyProfile,
}];

/// The operands of ADDSD.
pub const ADDSD_OPERANDS: [Operand; 9] = [
    OWNER,
    UACC,
    WARNING,
    NOWARNING,
    AUDIT,
    SECLEVEL,
    ADDCATEGORY,
    SECLABEL,
    GENERIC,
];

/// The operands of ADDSD that exclude one another.
pub const ADDSD_EXCLUDED: [(Word, Word); 1] = [(Word::Warning, Word::Nowarning)];

/// The operands of ALTDSD.
pub const ALTDSD_OPERANDS: [Operand; 13] = [
    OWNER,
    UACC,
    WARNING,
    NOWARNING,
    AUDIT,
    GLOBALAUDIT,
    SECLEVEL,
    NOSECLEVEL,
    ADDCATEGORY,
    DELCATEGORY,
    SECLABEL,
    NOSECLABEL,
    GENERIC,
];

/// The operands of ALTDSD that exclude one another.
pub const ALTDSD_EXCLUDED: [(Word, Word); 3] = [
    (Word::Warning, Word::Nowarning),
    (Word::Seclevel, Word::Noseclevel),
    (Word::Seclabel, Word::Noseclabel),
];

/// The operands of DELDSD.
pub const DELDSD_OPERANDS: [Operand; 1] = [GENERIC];

/// The operands of RDEFINE.
pub const RDEFINE_OPERANDS: [Operand; 9] = [
    OWNER,
    UACC,
    WARNING,
    NOWARNING,
    AUDIT,
    SECLEVEL,
    ADDCATEGORY,
    SECLABEL,
    ADDMEM,
];

/// The operands of RDEFINE that exclude one another.
pub const RDEFINE_EXCLUDED: [(Word, Word); 1] = [(Word::Warning, Word::Nowarning)];

/// The operands of RDEFINE in class CDT.
pub const DEFINE_CLASS_OPERANDS: [Operand; 4] = [OWNER, MAXLENGTH, CLASS_OPERATIONS, NAMES];

/// The operands of RALTER in class CDT.
pub const ALTER_CLASS_OPERANDS: [Operand; 1] = [OWNER];

/// The operands of RALTER.
pub const RALTER_OPERANDS: [Operand; 14] = [
    OWNER,
    UACC,
    WARNING,
    NOWARNING,
    AUDIT,
    GLOBALAUDIT,
    SECLEVEL,
    NOSECLEVEL,
    ADDCATEGORY,
    DELCATEGORY,
    SECLABEL,
    NOSECLABEL,
    ADDMEM,
    DELMEM,
];

/// The operands of RALTER that exclude one another.
pub const RALTER_EXCLUDED: [(Word, Word); 3] = [
    (Word::Warning, Word::Nowarning),
    (Word::Seclevel, Word::Noseclevel),
    (Word::Seclabel, Word::Noseclabel),
];

/// The operands of PERMIT.
pub const PERMIT_OPERANDS: [Operand; 7] = [CLASS, RESET, ID, ACCESS, DELETE, WHEN, GENERIC];

/// The operands of PERMIT that exclude one another.
pub const PERMIT_EXCLUDED: [(Word, Word); 1] = [(Word::Access, Word::Delete)];

/// The operands that PERMIT needs (a static, since its rows hold references).
pub static PERMIT_NEEDED: [Needed; 2] = [
    Needed {
        asked_by: None,
        one_of: &[Word::Id, Word::Reset],
        missing: Word::Id,
    },
    Needed {
        asked_by: Some(&[Word::Access, Word::Delete, Word::When]),
        one_of: &[Word::Id],
        missing: Word::Id,
    },
];
