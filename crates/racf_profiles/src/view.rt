//! Reading rows by name.
ghost use Rattle.std.specs.Prelude.{◌≡◌, option_copied};
ghost use Rattle.std.specs.List.{find};
ghost use Rattle.racf_profiles.specs.Lookup.{user_of, group_of, class_of, profile_of, is_profile};
ghost use Rattle.racf_profiles.specs.declared.rows.Rows.{Rows};

use crate::class_rows::ClassRow;
use crate::groups::Group;
use crate::profiles::Profile;
use crate::rows::Rows;
use crate::users::User;
use access_levels::Id;
use generic_names::Pattern;

/// What answers questions of single rows, however it keeps them.
pub trait View {
    /// The rows that are seen.
    ghost rows: { Self → Rows };

    /// The user of that ID.
    fn user(&self, id: Id) -> Option<&User>
        ensures { option_copied result ≡ user_of id (rows self.now) };

    /// The group of that name.
    fn group(&self, id: Id) -> Option<&Group>
        ensures { option_copied result ≡ group_of id (rows self.now) };

    /// The live profile of that very name in a class.
    fn profile(&self, class: Id, name: &Pattern) -> Option<&Profile>
        ensures { option_copied result ≡ profile_of class name.now (rows self.now) };
}

/// Plain rows answer by going through their lists, so each question takes time in the number of rows.
impl View for Rows {
    ghost rows = { λ rows. rows };

    fn user(&self, id: Id) -> Option<&User> {
        self.users.items.iter().find(|user| user.id == id)
    }

    fn group(&self, id: Id) -> Option<&Group> {
        self.groups.items.iter().find(|group| group.id == id)
    }

    fn profile(&self, class: Id, name: &Pattern) -> Option<&Profile> {
        match self.class(class) {
            Some(row) => row.profile(name),
            None => None,
        }
    }
}

impl Rows {
    /// The class of that name, found by going through the classes.
    pub fn class(&self, name: Id) -> Option<&ClassRow>
        ensures { option_copied result ≡ class_of name self.now }
    {
        self.classes.items.iter().find(|row| row.name == name)
    }
}

impl ClassRow {
    /// The live profile of that very name, found by going through the profiles.
    pub fn profile(&self, name: &Pattern) -> Option<&Profile>
        ensures { option_copied result ≡ find (is_profile name.now) self.now.profiles }
    {
        self.profiles
            .items
            .iter()
            .find(|profile| profile.name.text() == name.text())
    }
}
