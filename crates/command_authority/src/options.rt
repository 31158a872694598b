//! What the command on options requires.
ghost use Rattle.std.specs.Prelude.{◌≡◌};
ghost use Rattle.command_authority.specs.Requirements.{refreshing, setting};

use crate::needs::{Need, Needs};
use crate::operands::logs_alone;
use crate::profiles::auditing;
use crate::requirement::{Requirement, Target, over, over_where};
use access_levels::Id;
use command_fields::SetRopts;

/// What SETROPTS requires without REFRESH.
pub(crate) fn setting(command: &SetRopts) -> [Requirement; 2]
    ensures { result ≡ setting command.now }
{
    [
        over_where(
            !logs_alone(command),
            Target::Nothing,
            Needs::of(&[Need::Special]),
        ),
        auditing(!command.logoptions.items.is_empty()),
    ]
}

/// What REFRESH requires of a class.
pub(crate) fn refreshing(class: Id) -> Requirement
    ensures { result ≡ refreshing class }
{
    let needs = Needs::of(&[Need::Special, Need::ClassAuthority(class), Need::Auditor]);
    over(Target::Nothing, needs)
}
