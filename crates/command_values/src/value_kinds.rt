//! The kinds of values.

/// What a positional word or an operand's value is.
#[derive(Clone, Copy, Debug, PartialEq, Eq)]
pub enum ValueKind {
    /// No value.
    Flag,
    /// One name with an ID's spelling.
    Id,
    /// One name with a group name's spelling.
    Group,
    /// A group authority.
    Authority,
    /// The text of a user's name, in quotes: 1 to 20 bytes from X'20' to X'7E', in which a quote is written twice.
    Name,
    /// One or more names with an ID's spelling.
    Ids,
    /// One or more classes other than DATASET, or the word USER.
    Classes,
    /// An access level.
    Level,
    /// What is logged: ALL, SUCCESS, FAILURES or NONE, with levels.
    Audit,
    /// The name of a class, whether or not the table has it.
    Class,
    /// The name of a data set profile.
    DataSetProfile,
    /// The name of a profile of the class in front.
    ClassProfile,
    /// The name of a profile, judged by its class when the whole text was read.
    AnyProfile,
    /// Which access lists are emptied: ALL, STANDARD or WHEN; ALL where none is given.
    Reset,
    /// Users and groups, or `*` alone.
    Whos,
    /// A port of entry.
    When,
    /// Members to be added to a profile of GLOBAL or SECDATA.
    AddedMembers,
    /// Names of members to be taken away.
    DroppedMembers,
    /// No value, and a generic name as the profile's. It leaves no trace in the command.
    Generic,
    /// FAILURES, which is meant too where no value is given.
    Failures,
    /// Words of LOGOPTIONS, each with one class or more, whether or not the table has it.
    LogOptions,
    /// A number from 1 to 246, without a zero in front.
    Length,
    /// YES or NO.
    Truth,
    /// FULL or ID.
    ClassNames,
}
