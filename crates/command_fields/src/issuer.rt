//! Who gives a command.

ghost use Rattle.std.specs.Prelude.{◌≡◌, IsErr, IsTrue, MatchOption, is_ok};
ghost use Rattle.access_levels.specs.Spelling.{group_of};

use access_levels::Id;

/// Who gives a command, and the group that is current for him.
#[derive(Clone, Copy, Debug)]
pub struct Issuer {
    pub id: Id,
    pub group: Id,
    pub ghost group_spelled: { IsTrue (is_ok (group_of group)) },
}

impl Issuer {
    ghost use Rattle.command_fields.specs.Issuers.{group_or_current};

    /// The issuer, unless the group has no group name's spelling.
    pub fn new(id: Id, group: Id) -> Option<Issuer>
        ensures { MatchOption result (IsErr (group_of group)) (λ issuer. (issuer.id ≡ id) × (issuer.group ≡ group)) }
    {
        match Id::read_group(group.text()) {
            Ok(_) => Some(Issuer { id, group }),
            Err(_) => None,
        }
    }

    /// The group that a command names, or else the issuer's current one.
    pub fn group_or_current(&self, given: Option<Id>) -> Id
        ensures { result ≡ group_or_current self.now given }
    {
        given.unwrap_or(self.group)
    }
}
