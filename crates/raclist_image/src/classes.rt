//! The classes of an image.
ghost use Rattle.std.specs.Prelude.{◌≡◌, ◌<◌, ◌≤◌, ◌++◌, ◌∷◌, [], length, position, find, slice_get, slice_set, option_map, Some, IfOk, IfSome, OnOk};
ghost use Rattle.std.specs.Arc.{arc_value};
ghost use Rattle.std.specs.Option.{option_copied};
ghost use Rattle.racf_profiles.specs.declared.class_rows.ClassRow.{ClassRow};
ghost use Rattle.racf_profiles.specs.Lookup.{is_class};
ghost use Rattle.racf_profiles.specs.Edits.{put_profile, at_class, with_profile, without_profile, with_flags, with_listed, added_class, without_class};
ghost use Rattle.racf_profiles.specs.LawfulProfiles.{AreProfiles, AreClasses, kind_in};
ghost use Rattle.profile_index.specs.Buckets.{most_placed};
ghost use Rattle.raclist_image.specs.Flags.{options_of_row};

use crate::class_image::ClassImage;
use crate::flags::ClassOptions;
use crate::index::places_of;
use access_levels::Id;
use class_profiles::Made;
use generic_names::Pattern;
use indexmap::IndexMap;
use racf_profiles::{ClassRow, LogOption, NoMemory, Profile, kind_in};
use std::alloc::Global;
use std::marker::Model;
use std::sync::Arc;

/// A class with its profiles.
#[derive(Drop)]
pub(crate) struct ClassEntry {
    /// Its name.
    name: Id,
    /// What is set for it.
    options: ClassOptions,
    /// Its live profiles, by name and by what they cover.
    profiles: Arc<ClassImage>,
}

impl Model for ClassEntry {
    ghost use Rattle.racf_profiles.specs.declared.class_rows.ClassRow.{ClassRow};

    ghost Value = { ClassRow };

    ghost use Rattle.raclist_image.specs.KeptClasses.{row_of, IsKept};

    ghost view = { row_of };

    ghost invariant = { IsKept };
}

impl ClassEntry {
    /// This class, copied.
    fn of(alloc: Global, row: &ClassRow) -> Result<ClassEntry, NoMemory>
        requires { AreProfiles (kind_in row.now.name) row.now.profiles }
        ensures { IfOk result (λ class. class ≡ row.now) }
    {
        let kind = kind_in(row.name);
        let profiles = ClassImage::of(alloc, row.profiles.items.as_slice(), kind)?;
        Ok(ClassEntry {
            name: row.name,
            options: options_of_row(row),
            profiles: Arc::new(alloc, profiles)?,
        })
    }

    /// A class that is added: inactive, without profiles, logged by its profiles.
    fn added(alloc: Global, name: Id) -> Result<ClassEntry, NoMemory>
        ensures { IfOk result (λ class. class ≡ added_class name) }
    {
        let profiles = ClassImage::of(alloc, &[], kind_in(name))?;
        Ok(ClassEntry {
            name,
            options: ClassOptions {
                active: false,
                listed: false,
                global: false,
                log: LogOption::ByProfile,
            },
            profiles: Arc::new(alloc, profiles)?,
        })
    }

    /// Its name.
    pub(crate) fn name(&self) -> Id
        ensures { result ≡ self.now.name }
    {
        self.name
    }

    /// What is set for it.
    pub(crate) fn options(&self) -> ClassOptions
        ensures { result ≡ options_of_row self.now }
    {
        self.options
    }

    /// Its live profiles.
    pub(crate) fn profiles(&self) -> &ClassImage
        ensures profiles { result.now.profiles ≡ self.now.profiles }
        ensures kind { result.now.kind ≡ kind_in self.now.name }
    {
        &self.profiles
    }

    /// One more owner of its live profiles.
    pub(crate) fn shared_profiles(&self) -> Result<Arc<ClassImage>, NoMemory>
        ensures profiles { IfOk result (λ image. (arc_value image).profiles ≡ self.now.profiles) }
        ensures kind { IfOk result (λ image. (arc_value image).kind ≡ kind_in self.now.name) }
    {
        Arc::try_clone(&self.profiles)
    }

    /// The same class once more.
    fn share(&self) -> Result<ClassEntry, NoMemory>
        ensures { IfOk result (λ class. class ≡ self.now) }
    {
        Ok(ClassEntry {
            name: self.name,
            options: self.options,
            profiles: Arc::try_clone(&self.profiles)?,
        })
    }

    /// The class with a profile put, and the lengths of the names in the buckets that were made anew for it.
    fn with_profile(&self, alloc: Global, profile: &Profile) -> Result<Made<ClassEntry>, NoMemory>
        requires { AreProfiles (kind_in self.now.name) (put_profile profile.now self.now.profiles) }
        ensures class { IfOk result (λ made. made.what ≡ with_profile profile.now self.now) }
        ensures placed { IfOk result (λ made. made.placed ≤ most_placed) }
    {
        let made = self.profiles.with_profile(alloc, profile)?;
        let what = ClassEntry {
            name: self.name,
            options: self.options,
            profiles: Arc::new(alloc, made.what)?,
        };
        Ok(Made {
            what,
            placed: made.placed,
        })
    }

    /// The class without the profile of that name, and the lengths of the names in the bucket that was made anew for
    /// it.
    fn without_profile(&self, alloc: Global, name: &Pattern) -> Result<Made<ClassEntry>, NoMemory>
        ensures class { IfOk result (λ made. made.what ≡ without_profile name.now self.now) }
        ensures placed { IfOk result (λ made. made.placed ≤ most_placed) }
    {
        let made = self.profiles.without_profile(alloc, name)?;
        let what = ClassEntry {
            name: self.name,
            options: self.options,
            profiles: Arc::new(alloc, made.what)?,
        };
        Ok(Made {
            what,
            placed: made.placed,
        })
    }

    /// The class, active or not, with the global access table used for it or not, and with that log option.
    fn with_flags(&self, active: bool, global: bool, log: LogOption) -> Result<ClassEntry, NoMemory>
        ensures { IfOk result (λ class. class ≡ with_flags active global log self.now) }
    {
        Ok(ClassEntry {
            name: self.name,
            options: ClassOptions {
                active,
                listed: self.options.listed,
                global,
                log,
            },
            profiles: Arc::try_clone(&self.profiles)?,
        })
    }

    /// The class, RACLISTed or not.
    fn with_listed(&self, listed: bool) -> Result<ClassEntry, NoMemory>
        ensures { IfOk result (λ class. class ≡ with_listed listed self.now) }
    {
        Ok(ClassEntry {
            name: self.name,
            options: ClassOptions {
                active: self.options.active,
                listed,
                global: self.options.global,
                log: self.options.log,
            },
            profiles: Arc::try_clone(&self.profiles)?,
        })
    }
}

/// What is set for this class.
fn options_of_row(row: &ClassRow) -> ClassOptions
    ensures { result ≡ options_of_row row.now }
{
    ClassOptions {
        active: row.active,
        listed: row.listed,
        global: row.global,
        log: row.log,
    }
}

/// The classes in their order. A version that was changed shares with the one before the profiles of all classes but
/// the changed ones, and the index of names too unless a class was added or dropped.
#[derive(Drop)]
pub(crate) struct ClassList {
    /// The fixed classes, and behind them the dynamic ones.
    classes: Vec<ClassEntry>,
    /// The place of each class by its name.
    places: Arc<IndexMap<Id, usize>>,
}

impl Model for ClassList {
    ghost use Rattle.std.specs.Prelude.{List};
    ghost use Rattle.std.specs.Arc.{arc_value};
    ghost use Rattle.racf_profiles.specs.declared.class_rows.ClassRow.{ClassRow};
    ghost use Rattle.raclist_image.specs.KeptClasses.{ArePlacesOf};

    ghost Value = { List ClassRow };

    ghost view = { λ list. list.classes.items };

    ghost invariant = { λ list. ArePlacesOf list.classes.items (arc_value list.places) };
}

impl ClassList {
    /// These classes, copied.
    pub(crate) fn of(alloc: Global, rows: &[ClassRow]) -> Result<ClassList, NoMemory>
        requires { AreClasses rows.now }
        ensures { IfOk result (λ list. list ≡ rows.now) }
    {
        let mut classes = Vec::new(alloc);
        for row in rows {
            classes.push(ClassEntry::of(alloc, row)?)?;
        }
        ClassList::placed(alloc, classes)
    }

    /// These classes, with an index of their names that is made anew.
    fn placed(alloc: Global, classes: Vec<ClassEntry>) -> Result<ClassList, NoMemory>
        ensures { IfOk result (λ list. list ≡ classes.items) }
    {
        let places = places_of(alloc, classes.as_slice())?;
        Ok(ClassList {
            classes,
            places: Arc::new(alloc, places)?,
        })
    }

    /// The same classes once more.
    pub(crate) fn share(&self, alloc: Global) -> Result<ClassList, NoMemory>
        ensures { IfOk result (λ list. list ≡ self.now) }
    {
        Ok(ClassList {
            classes: shared(alloc, self.classes.as_slice())?,
            places: Arc::try_clone(&self.places)?,
        })
    }

    /// How many classes there are.
    pub(crate) fn len(&self) -> usize
        ensures { result ≡ length self.now }
    {
        self.classes.len()
    }

    /// The class at a place.
    pub(crate) fn at(&self, place: usize) -> &ClassEntry
        requires { place < length self.now }
        ensures { slice_get self.now place ≡ Some result.now }
    {
        &self.classes[place]
    }

    /// The class of that name, found in the index.
    pub(crate) fn get(&self, name: Id) -> Option<&ClassEntry>
        ensures class { option_copied result ≡ find (is_class name) self.now }
        ensures named { IfSome result (λ class. class.now.name ≡ name) }
    {
        match self.place(name) {
            Some(place) => Some(self.at(place)),
            None => None,
        }
    }

    /// Puts a profile into a class, and answers the lengths of the names in the buckets that were made anew for it.
    pub(crate) fn put_profile(
        &mut self,
        alloc: Global,
        class: Id,
        profile: &Profile,
    ) -> Result<usize, NoMemory>
        requires { AreClasses (at_class class (with_profile profile.now) self.old) }
        ensures classes { OnOk result (self.new ≡ at_class class (with_profile profile.now) self.old) }
        ensures placed { IfOk result (λ placed. placed ≤ most_placed) }
    {
        let Some(place) = self.place(class) else {
            return Ok(0);
        };
        let made = self.at(place).with_profile(alloc, profile)?;
        self.replace(place, made.what);
        Ok(made.placed)
    }

    /// Takes the profile of that very name out of a class, if there is one, and answers the lengths of the names in the
    /// bucket that was made anew for it.
    pub(crate) fn remove_profile(
        &mut self,
        alloc: Global,
        class: Id,
        name: &Pattern,
    ) -> Result<usize, NoMemory>
        ensures classes { OnOk result (self.new ≡ at_class class (without_profile name.now) self.old) }
        ensures placed { IfOk result (λ placed. placed ≤ most_placed) }
    {
        let Some(place) = self.place(class) else {
            return Ok(0);
        };
        let made = self.at(place).without_profile(alloc, name)?;
        self.replace(place, made.what);
        Ok(made.placed)
    }

    /// Sets whether a class is active, whether the global access table is used for it, and its log option.
    pub(crate) fn set_flags(
        &mut self,
        class: Id,
        active: bool,
        global: bool,
        log: LogOption,
    ) -> Result<(), NoMemory>
        ensures { OnOk result (self.new ≡ at_class class (with_flags active global log) self.old) }
    {
        let Some(place) = self.place(class) else {
            return Ok(());
        };
        let entry = self.at(place).with_flags(active, global, log)?;
        self.replace(place, entry);
        Ok(())
    }

    /// Sets whether a class is RACLISTed.
    pub(crate) fn set_listed(&mut self, class: Id, listed: bool) -> Result<(), NoMemory>
        ensures { OnOk result (self.new ≡ at_class class (with_listed listed) self.old) }
    {
        let Some(place) = self.place(class) else {
            return Ok(());
        };
        let entry = self.at(place).with_listed(listed)?;
        self.replace(place, entry);
        Ok(())
    }

    /// Adds a class last, if there is memory: inactive, without profiles, logged by its profiles.
    pub(crate) fn add(&mut self, alloc: Global, class: Id) -> Result<(), NoMemory>
        ensures { OnOk result (self.new ≡ self.old ++ added_class class ∷ []) }
    {
        let mut classes = shared(alloc, self.classes.as_slice())?;
        classes.push(ClassEntry::added(alloc, class)?)?;
        *self = ClassList::placed(alloc, classes)?;
        Ok(())
    }

    /// Drops the class of that name, with its profiles.
    pub(crate) fn drop_class(&mut self, alloc: Global, class: Id) -> Result<(), NoMemory>
        ensures { OnOk result (self.new ≡ without_class class self.old) }
    {
        let classes = others(alloc, self.classes.as_slice(), class)?;
        *self = ClassList::placed(alloc, classes)?;
        Ok(())
    }

    /// Puts a class in the place of one of its name.
    fn replace(&mut self, place: usize, entry: ClassEntry)
        requires { option_map (λ (class : ClassRow). class.name) (slice_get self.old place) ≡ Some entry.name }
        ensures { self.new ≡ slice_set self.old place entry }
    {
        self.classes[place] = entry;
    }

    /// The place of the class of that name.
    fn place(&self, name: Id) -> Option<usize>
        ensures { result ≡ position (is_class name) self.now }
    {
        match self.places.get(&name) {
            Some(place) => Some(*place),
            None => None,
        }
    }
}

/// These classes once more.
fn shared(alloc: Global, entries: &[ClassEntry]) -> Result<Vec<ClassEntry>, NoMemory>
    ensures { IfOk result (λ classes. classes.items ≡ entries.now) }
{
    let mut classes = Vec::with_capacity(alloc, entries.len())?;
    for entry in entries {
        classes.push(entry.share()?)?;
    }
    Ok(classes)
}

/// These classes without those of that name.
fn others(alloc: Global, entries: &[ClassEntry], class: Id) -> Result<Vec<ClassEntry>, NoMemory>
    ensures { IfOk result (λ classes. classes.items ≡ without_class class entries.now) }
{
    let mut classes = Vec::with_capacity(alloc, entries.len())?;
    for entry in entries {
        if entry.name != class {
            classes.push(entry.share()?)?;
        }
    }
    Ok(classes)
}
