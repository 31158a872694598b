//! Walks up through the groups.
ghost use Rattle.std.specs.Prelude.{◌≡◌, ◌↔◌, List, IsTrue};
ghost use Rattle.std.specs.Option.{option_copied};
ghost use Rattle.racf_profiles.specs.declared.groups.Group.{Group};
ghost use Rattle.racf_profiles.specs.Lookup.{find_group};
ghost use Rattle.racf_profiles.specs.Tree.{IsTree};
ghost use Rattle.group_tree.specs.Climb.{above, LeadsUp};

use crate::tree::MOST_GROUPS;
use access_levels::Id;
use racf_profiles::Group;

/// What finds a group by its name, however it keeps the groups.
pub trait GroupList {
    /// The groups that are seen.
    ghost groups: { Self → List Group };

    /// The group of that name.
    fn find_group(&self, id: Id) -> Option<&Group>
        ensures { option_copied result ≡ find_group (groups self.now) id };
}

/// By what a walk goes up from a group.
#[derive(Clone, Copy)]
pub(crate) enum Climb {
    /// To its superior group.
    BySuperiors,
    /// To its superior group, where that one owns it.
    ByOwners,
}

impl Climb {
    /// The next group up.
    fn above(self, group: &Group) -> Option<Id>
        ensures { result ≡ above self group.now }
    {
        match self {
            Climb::BySuperiors => group.superior,
            Climb::ByOwners => {
                if group.superior == Some(group.owner) {
                    group.superior
                } else {
                    None
                }
            }
        }
    }
}

/// Whether a walk up from one group meets another. No way up has more groups than a tree may have.
pub(crate) fn leads_up<G: GroupList>(groups: &G, climb: Climb, from: Id, to: Id) -> bool
    requires { IsTree (G.groups groups.now) }
    ensures { IsTrue result ↔ LeadsUp climb (G.groups groups.now) from to }
{
    let mut current = from;
    for _step in 0..MOST_GROUPS {
        let Some(group) = groups.find_group(current) else {
            return false;
        };
        if current == to {
            return true;
        }
        let Some(next) = climb.above(group) else {
            return false;
        };
        current = next;
    }
    false
}
