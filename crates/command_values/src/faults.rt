//! What is wrong with a text that spells no command.

use crate::operand_words::Word;
use std::alloc::{AllocError, AllocFailed};

/// The first fault of a text. Places count its bytes from 1.
#[derive(Clone, Copy, Debug, PartialEq, Eq)]
pub enum Syntax {
    /// The first word is the name of no command.
    UnknownCommand,
    /// The word at this place is no operand of the command.
    UnknownOperand(u32),
    /// The word at this place is the beginning of several operands.
    AmbiguousOperand(u32),
    /// This word lacks.
    Missing(Word),
    /// This operand stands twice.
    Repeated(Word),
    /// These two operands exclude one another.
    Excluded(Word, Word),
    /// What stands at this place doesn't fit.
    BadValue(u32),
    /// The parenthesis or quote at this place isn't closed.
    Unclosed(u32),
    /// The text, or the canonical text of its command, has more than 30,000 bytes.
    TextTooLong,
}

/// Why a text was not read as a command.
#[derive(Clone, Copy, Debug, PartialEq, Eq)]
pub enum ParseFault {
    /// It spells none.
    Syntax(Syntax),
    /// There was no memory for what it spells.
    NoMemory,
}

impl From<Syntax> for ParseFault {
    ghost use Rattle.std.specs.Prelude.{◌≡◌};
    ghost use Rattle.command_values.specs.declared.faults.ParseFault.TheVariants as reasons;

    ghost from_gives = { λ f e. e ≡ reasons.Syntax f };

    fn from(fault: Syntax) -> ParseFault {
        ParseFault::Syntax(fault)
    }
}

impl From<AllocError> for ParseFault {
    ghost use Rattle.std.specs.Prelude.{◌≡◌};
    ghost use Rattle.command_values.specs.declared.faults.ParseFault.TheVariants as reasons;

    ghost from_gives = { λ _ e. e ≡ reasons.NoMemory };

    fn from(_error: AllocError) -> ParseFault {
        ParseFault::NoMemory
    }
}

impl<T: Drop> From<AllocFailed<T>> for ParseFault {
    ghost use Rattle.std.specs.Prelude.{◌≡◌};
    ghost use Rattle.command_values.specs.declared.faults.ParseFault.TheVariants as reasons;

    ghost from_gives = { λ _ e. e ≡ reasons.NoMemory };

    fn from(_error: AllocFailed<T>) -> ParseFault {
        ParseFault::NoMemory
    }
}
