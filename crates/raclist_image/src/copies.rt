//! The listed copies of an image.
ghost use Rattle.std.specs.Prelude.{◌≡◌, ◌++◌, ◌∷◌, [], map, option_map, position, IfOk, IfSome, OnOk, if◌then◌else◌};
ghost use Rattle.std.specs.List.{find, filter};
ghost use Rattle.std.specs.Arc.{arc_value};
ghost use Rattle.racf_profiles.specs.declared.class_rows.ClassRow.{ClassRow};
ghost use Rattle.racf_profiles.specs.Edits.{put_row, drop_row};
ghost use Rattle.racf_profiles.specs.State.{ListedCopy, is_copy_of, copy_of_class};
ghost use Rattle.racf_profiles.specs.LawfulProfiles.{kind_in};

use crate::class_image::ClassImage;
use crate::classes::{ClassEntry, ClassList};
use access_levels::Id;
use racf_profiles::NoMemory;
use std::alloc::Global;
use std::marker::Model;
use std::sync::Arc;

/// The profiles of a RACLISTed class as they were when it was listed.
#[derive(Drop)]
pub(crate) struct ListedProfiles {
    /// The class.
    class: Id,
    /// Its profiles then.
    profiles: Arc<ClassImage>,
}

impl Model for ListedProfiles {
    ghost use Rattle.std.specs.Prelude.{◌≡◌};
    ghost use Rattle.std.specs.Arc.{arc_value};
    ghost use Rattle.racf_profiles.specs.State.{ListedCopy};
    ghost use Rattle.racf_profiles.specs.LawfulProfiles.{kind_in};

    ghost Value = { ListedCopy };

    ghost view = { λ copy. record { class = copy.class; profiles = (arc_value copy.profiles).profiles } };

    ghost invariant = { λ copy. (arc_value copy.profiles).kind ≡ kind_in copy.class };
}

impl ListedProfiles {
    /// The live profiles of a class, copied by sharing them.
    fn of(class: &ClassEntry) -> Result<ListedProfiles, NoMemory>
        ensures { IfOk result (λ copy. copy ≡ copy_of_class class.now) }
    {
        Ok(ListedProfiles {
            class: class.name(),
            profiles: class.shared_profiles()?,
        })
    }

    /// The same copy once more.
    fn share(&self) -> Result<ListedProfiles, NoMemory>
        ensures { IfOk result (λ copy. copy ≡ self.now) }
    {
        Ok(ListedProfiles {
            class: self.class,
            profiles: Arc::try_clone(&self.profiles)?,
        })
    }

    /// The profiles.
    fn profiles(&self) -> &ClassImage
        ensures profiles { result.now.profiles ≡ self.now.profiles }
        ensures kind { result.now.kind ≡ kind_in self.now.class }
    {
        &self.profiles
    }
}

/// The listed copies, in the order in which they came. There are at most as many as there are classes.
#[derive(Drop)]
pub(crate) struct CopyList {
    /// The copies.
    copies: Vec<ListedProfiles>,
}

impl Model for CopyList {
    ghost use Rattle.std.specs.Prelude.{List};
    ghost use Rattle.racf_profiles.specs.State.{ListedCopy};

    ghost Value = { List ListedCopy };

    ghost view = { λ list. list.copies.items };
}

impl CopyList {
    /// The copies of the classes that are RACLISTed, equal to their live profiles.
    pub(crate) fn of(alloc: Global, classes: &ClassList) -> Result<CopyList, NoMemory>
        ensures { IfOk result (λ list. list ≡ map copy_of_class (filter (λ (class : ClassRow). class.listed) classes.now)) }
    {
        let mut copies = Vec::new(alloc);
        for place in 0..classes.len() {
            push_if_listed(classes.at(place), &mut copies)?;
        }
        Ok(CopyList { copies })
    }

    /// The same copies once more.
    pub(crate) fn share(&self, alloc: Global) -> Result<CopyList, NoMemory>
        ensures { IfOk result (λ list. list ≡ self.now) }
    {
        let mut copies = Vec::with_capacity(alloc, self.copies.len())?;
        for copy in &self.copies {
            copies.push(copy.share()?)?;
        }
        Ok(CopyList { copies })
    }

    /// The profiles of the copy of that class.
    pub(crate) fn get(&self, class: Id) -> Option<&ClassImage>
        ensures profiles { option_map (λ image. image.now.profiles) result ≡ option_map (λ (copy : ListedCopy). copy.profiles) (find (is_copy_of class) self.now) }
        ensures kind { IfSome result (λ image. image.now.kind ≡ kind_in class) }
    {
        match self.copies.iter().find(|copy| copy.class == class) {
            Some(copy) => Some(copy.profiles()),
            None => None,
        }
    }

    /// Puts the copy of a class, equal to its live profiles, in the place of the one that it had, or else last.
    pub(crate) fn put(&mut self, class: &ClassEntry) -> Result<(), NoMemory>
        ensures { OnOk result (self.new ≡ put_row (is_copy_of class.now.name) (copy_of_class class.now) self.old) }
    {
        let copy = ListedProfiles::of(class)?;
        match self.place(class.name()) {
            Some(place) => self.copies[place] = copy,
            None => self.copies.push(copy)?,
        }
        Ok(())
    }

    /// Takes the copy of a class away, if there is one.
    pub(crate) fn remove(&mut self, class: Id)
        ensures { self.new ≡ drop_row (is_copy_of class) self.old }
    {
        if let Some(place) = self.place(class) {
            self.copies.remove(place);
        }
    }

    /// The place of the copy of that class.
    fn place(&self, class: Id) -> Option<usize>
        ensures { result ≡ position (is_copy_of class) self.now }
    {
        self.copies.iter().position(|copy| copy.class == class)
    }
}

/// Adds the copy of a class, if it is RACLISTed.
fn push_if_listed(class: &ClassEntry, copies: &mut Vec<ListedProfiles>) -> Result<(), NoMemory>
    ensures { OnOk result (copies.new.items ≡ copies.old.items ++ (if class.now.listed then copy_of_class class.now ∷ [] else [])) }
{
    if class.options().listed {
        copies.push(ListedProfiles::of(class)?)?;
    }
    Ok(())
}
