//! A requirement of a command, and what it is about.
ghost use Rattle.std.specs.Prelude.{◌≡◌};
ghost use Rattle.command_authority.specs.Requirements.{over, over_where};

use crate::needs::Needs;
use access_levels::Id;
use generic_names::Pattern;

/// What a requirement is about.
#[derive(Clone, Copy)]
pub enum Target {
    /// Nothing that an issuer could have authority over.
    Nothing,
    User(Id),
    Group(Id),
    /// The profile of this name in a class.
    Profile(Id, Pattern),
    /// The data sets whose first qualifier is this ID, that of a user or a group.
    DataSets(Id),
}

/// A requirement of a command: that one of the needs holds over the target.
#[derive(Drop)]
pub struct Requirement {
    /// The command has the requirement. One that it doesn't have is met.
    pub stands: bool,
    pub target: Target,
    pub needs: Needs,
}

/// A requirement that a command has.
pub(crate) fn over(target: Target, needs: Needs) -> Requirement
    ensures { result ≡ over target needs }
{
    over_where(true, target, needs)
}

/// A requirement that a command has where an operand stands.
pub(crate) fn over_where(stands: bool, target: Target, needs: Needs) -> Requirement
    ensures { result ≡ over_where stands target needs }
{
    Requirement {
        stands,
        target,
        needs,
    }
}
