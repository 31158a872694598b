//! Why a call on a tree is refused.
use access_levels::Id;

/// Why a call on a tree is refused. Where several causes stand together, the one that comes first here is answered.
#[derive(Clone, Copy, Debug, PartialEq, Eq)]
pub enum TreeFault {
    /// No group has this name, and one has to: the first such parameter of the call.
    NoGroup(Id),
    /// A group has this name already.
    Exists(Id),
    /// The group of this name would be below itself.
    Cycle(Id),
    /// The group of this name, the first in order of definition, has the group as its superior group.
    HasSubgroup(Id),
    /// The tree has 8,000 groups.
    Full,
    /// Memory is wanting.
    NoMemory,
}
