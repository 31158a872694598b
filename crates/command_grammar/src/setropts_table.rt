//! The rows of SETROPTS (z/OS Security Server RACF Command Language Reference; the order is this product's own).

use crate::table::{Needed, Operand};
use command_values::{ValueKind, Word};

/// The operands of SETROPTS, whose GENERIC names classes.
pub const SETROPTS_OPERANDS: [Operand; 15] = [
    Operand {
        word: Word::Classact,
        kind: ValueKind::Ids,
    },
    Operand {
        word: Word::Noclassact,
        kind: ValueKind::Ids,
    },
    Operand {
        word: Word::Grplist,
        kind: ValueKind::Flag,
    },
    Operand {
        word: Word::Nogrplist,
        kind: ValueKind::Flag,
    },
    Operand {
        word: Word::Protectall,
        kind: ValueKind::Failures,
    },
    Operand {
        word: Word::Noprotectall,
        kind: ValueKind::Flag,
    },
    Operand {
        word: Word::Mls,
        kind: ValueKind::Failures,
    },
    Operand {
        word: Word::Nomls,
        kind: ValueKind::Flag,
    },
    Operand {
        word: Word::Raclist,
        kind: ValueKind::Ids,
    },
    Operand {
        word: Word::Noraclist,
        kind: ValueKind::Ids,
    },
    Operand {
        word: Word::Global,
        kind: ValueKind::Ids,
    },
    Operand {
        word: Word::Noglobal,
        kind: ValueKind::Ids,
    },
    Operand {
        word: Word::Generic,
        kind: ValueKind::Ids,
    },
    Operand {
        word: Word::Refresh,
        kind: ValueKind::Flag,
    },
    Operand {
        word: Word::Logoptions,
        kind: ValueKind::LogOptions,
    },
];

/// The operands of SETROPTS that exclude one another: REFRESH all but RACLIST, GENERIC and GLOBAL.
pub const SETROPTS_EXCLUDED: [(Word, Word); 14] = [
    (Word::Grplist, Word::Nogrplist),
    (Word::Protectall, Word::Noprotectall),
    (Word::Mls, Word::Nomls),
    (Word::Refresh, Word::Classact),
    (Word::Refresh, Word::Noclassact),
    (Word::Refresh, Word::Grplist),
    (Word::Refresh, Word::Nogrplist),
    (Word::Refresh, Word::Protectall),
    (Word::Refresh, Word::Noprotectall),
    (Word::Refresh, Word::Mls),
    (Word::Refresh, Word::Nomls),
    (Word::Refresh, Word::Noraclist),
    (Word::Refresh, Word::Noglobal),
    (Word::Refresh, Word::Logoptions),
];

/// The operands that SETROPTS needs (a static, since its row holds references).
pub static SETROPTS_NEEDED: [Needed; 1] = [Needed {
    asked_by: Some(&[Word::Refresh]),
    one_of: &[Word::Raclist, Word::Generic, Word::Global],
    missing: Word::Raclist,
}];
