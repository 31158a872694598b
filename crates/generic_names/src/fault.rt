use thiserror::Error;

/// What is wrong with the text of a name. Qualifiers and places are counted from 1.
#[derive(Clone, Copy, Debug, PartialEq, Eq, Error)]
pub enum NameFault {
    #[error("the name is empty")]
    Empty,
    #[error("the name is too long")]
    TooLong,
    #[error("qualifier {0} is empty")]
    EmptyQualifier(u32),
    #[error("qualifier {0} is too long")]
    QualifierTooLong(u32),
    #[error("the byte at {0} can't stand in a name")]
    BadByte(u32),
    #[error("the * at {0} stands inside a qualifier")]
    StarInside(u32),
    #[error("the first qualifier is generic")]
    GenericFirst,
}
