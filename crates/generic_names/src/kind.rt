/// Whose name it is: a data set's or that of a resource of a general class.
#[derive(Clone, Copy, Debug, PartialEq, Eq)]
pub enum NameKind {
    /// A data set: at most 44 bytes, in qualifiers of at most 8.
    DataSet,
    /// A resource of any other class: at most 246 bytes.
    General,
}
