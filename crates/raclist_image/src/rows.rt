//! Users and groups as an image keeps them: each by its ID.
use defined_rows::Keyed;
use racf_profiles::{Group, User};
use std::marker::Model;

/// A user by his ID.
#[derive(Drop)]
pub(crate) struct UserRow {
    /// The user.
    pub(crate) user: User,
}

impl Model for UserRow {
    ghost use Rattle.racf_profiles.specs.declared.users.User.{User};

    ghost Value = { User };

    ghost view = { λ row. row.user };
}

impl Keyed for UserRow {
    ghost key = { λ user. user.id };

    fn key(&self) -> &[u8] {
        self.user.id.text()
    }
}

/// A group by its name.
#[derive(Drop)]
pub(crate) struct GroupRow {
    /// The group.
    pub(crate) group: Group,
}

impl Model for GroupRow {
    ghost use Rattle.racf_profiles.specs.declared.groups.Group.{Group};

    ghost Value = { Group };

    ghost view = { λ row. row.group };
}

impl Keyed for GroupRow {
    ghost key = { λ group. group.id };

    fn key(&self) -> &[u8] {
        self.group.id.text()
    }
}
