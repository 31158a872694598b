//! Groups.
use access_levels::Id;
use std::marker::Model;

/// A group.
#[derive(Clone, Copy, Debug, PartialEq, Eq)]
pub struct Group {
    pub id: Id,
    /// The group that it lies below. SYS1 alone has none.
    pub superior: Option<Id>,
    /// A user, or the superior group.
    pub owner: Id,
}

/// A list of groups.
#[derive(Debug, Drop)]
pub struct Groups {
    pub items: Vec<Group>,
}

impl Model for Groups {
    ghost use Rattle.std.specs.Prelude.{List};
    ghost use Rattle.racf_profiles.specs.declared.groups.Group.{Group};

    ghost Value = { List Group };

    ghost view = { λ list. list.items.items };
}
