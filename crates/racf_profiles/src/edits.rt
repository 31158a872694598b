//! Edits of rows.
use crate::class_rows::LogOption;
use crate::groups::Group;
use crate::options::Options;
use crate::profiles::Profile;
use crate::users::User;
use access_levels::Id;
use generic_names::Pattern;
use std::marker::Model;

/// One edit of the rows. An edit that names an absent class, or drops an absent row, changes nothing.
#[derive(Drop)]
pub enum Edit {
    /// Replaces the user of that ID in its place, else adds it last.
    PutUser(User),
    DropUser(Id),
    /// Replaces the group of that name in its place, else adds it last.
    PutGroup(Group),
    DropGroup(Id),
    /// In a class, replaces the profile of that name, else adds it at its place in the order.
    PutProfile(Id, Profile),
    DropProfile(Id, Pattern),
    PutOptions(Options),
    /// Sets whether a class is active, whether the global access table is used for it, and its log option.
    PutClass(Id, bool, bool, LogOption),
    /// Makes a class's listed copy equal to its live profiles.
    List(Id),
    /// Drops a class's listed copy.
    Unlist(Id),
    /// Adds a class last: inactive, without profiles, logged by its profiles.
    AddClass(Id),
    /// Drops a class, with its profiles and its listed copy.
    DropClass(Id),
}

/// Edits in their order.
#[derive(Drop)]
pub struct Change {
    pub edits: Edits,
}

/// A list of edits.
#[derive(Drop)]
pub struct Edits {
    pub items: Vec<Edit>,
}

impl Model for Edits {
    ghost use Rattle.std.specs.Prelude.{List};
    ghost use Rattle.racf_profiles.specs.declared.edits.Edit.{Edit};

    ghost Value = { List Edit };

    ghost view = { λ list. list.items.items };
}
