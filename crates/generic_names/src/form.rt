/// What a text is read as, which decides on the characters that it may have.
#[derive(Clone, Copy, Debug, PartialEq, Eq)]
pub(crate) enum Form {
    /// The name of a resource: ordinary characters alone.
    Discrete,
    /// The name of a profile: generic characters too.
    Generic,
    /// The name of a member of the global table: symbols too.
    Symbolic,
}
