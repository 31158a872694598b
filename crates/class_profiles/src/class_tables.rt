//! All classes with their profiles.
ghost use Rattle.std.specs.Prelude.{◌≡◌, ℕ, ◌+◌, ◌<◌, ◌≤◌, false, List, [], ◌∷◌, ◌++◌, position, Some, IsSome, OnOk, IfOk};
ghost use Rattle.std.specs.List.{find};
ghost use Rattle.std.specs.Option.{option_copied, option_map, option_map_or};
ghost use Rattle.std.specs.Str.{bytes_eq};
ghost use Rattle.racf_profiles.specs.ClassTable.{is_dataset};
ghost use Rattle.racf_profiles.specs.NewDatabase.{new_classes};
ghost use Rattle.racf_profiles.specs.Lookup.{is_class};
ghost use Rattle.racf_profiles.specs.Edits.{at_class, with_profile, without_profile, with_flags, with_listed, added_class, without_class};
ghost use Rattle.racf_profiles.specs.LawfulProfiles.{AreClasses};
ghost use Rattle.racf_profiles.specs.Limits.{most_profiles, most_entries_in_all};
ghost use Rattle.class_profiles.specs.Summed.{rows_in};
ghost use Rattle.class_profiles.specs.Classes.{room_in, profile_in, first_under, CanPutIn, CanAddClass, CanDropClass};
ghost use Rattle.racf_profiles.specs.Counts.{entries_in, profile_count, entry_count};

use crate::class_table::ClassTable;
use access_levels::Id;
use generic_names::Pattern;
use racf_profiles::{ClassRows, FixedClass, LogOption, NoMemory, Profile};
use std::alloc::Global;
use std::marker::Model;

/// The fixed classes in their order and behind them the dynamic ones in order of definition, each with its flags and
/// its profiles. How many profiles there are in all, and how many entries their access lists have, is kept beside them,
/// so that neither is counted anew for a command.
#[derive(Drop)]
pub struct ClassTables {
    /// The fixed classes in their order, and behind them the dynamic ones.
    classes: Vec<ClassTable>,
    /// How many profiles they have in all.
    count: usize,
    /// How many entries the access lists of these profiles have.
    entries: usize,
    /// Where the memory of a class that is added comes from.
    alloc: Global,
}

impl Model for ClassTables {
    ghost use Rattle.class_profiles.specs.Summed.{rows_in, class_list, AreSummed};
    ghost use Rattle.class_profiles.specs.Classes.{ClassList};

    ghost Value = { ClassList };

    ghost view = { class_list };

    ghost invariant = { AreSummed };
}

impl ClassTables {
    /// The classes of a new database: no profile, DATASET alone active.
    pub fn new(alloc: Global) -> Result<ClassTables, NoMemory>
        ensures { IfOk result (λ tables. tables.classes ≡ new_classes is_dataset) }
    {
        let mut classes = Vec::new(alloc);
        for class in &FixedClass::ALL {
            let active = matches!(class, FixedClass::Dataset);
            classes.push(ClassTable::new(alloc, *class, active)?)?;
        }
        Ok(ClassTables {
            classes,
            count: 0,
            entries: 0,
            alloc,
        })
    }

    /// How many profiles there are in all classes, at most 100,000.
    pub fn count(&self) -> usize
        ensures count { result ≡ profile_count self.now.classes }
        ensures few { result ≤ most_profiles }
        ensures lawful { AreClasses self.now.classes }
    {
        self.count
    }

    /// How many entries the access lists of all profiles have, at most 1,000,000.
    pub fn entries(&self) -> usize
        ensures count { result ≡ entry_count self.now.classes }
        ensures few { result ≤ most_entries_in_all }
    {
        self.entries
    }

    /// All classes, in the order of the class table.
    pub fn as_slice(&self) -> &[ClassTable]
        ensures { rows_in result.now ≡ self.now.classes }
    {
        &self.classes
    }

    /// The class of that name, found by comparing names.
    pub fn class(&self, name: Id) -> Option<&ClassTable>
        ensures { option_map (λ class. class.row) (option_copied result) ≡ find (is_class name) self.now.classes }
    {
        match place_of(&self.classes, name) {
            Some(place) => Some(&self.classes[place]),
            None => None,
        }
    }

    /// The profile of that very name in a class.
    pub fn profile(&self, class: Id, name: &Pattern) -> Option<&Profile>
        ensures { option_copied result ≡ profile_in class name.now self.now.classes }
    {
        match self.class(class) {
            Some(class) => class.profiles().get(name),
            None => None,
        }
    }

    /// Makes room in a class for this many profiles more. An unknown class changes nothing.
    pub fn reserve(&mut self, class: Id, more: usize) -> Result<(), NoMemory>
        ensures classes { self.new.classes ≡ self.old.classes }
        ensures room { OnOk result (IsSome (find (is_class class) self.old.classes) → more ≤ room_in class self.new) }
        ensures kept { (name : List ℕ) → room_in name self.old ≤ room_in name self.new }
        ensures more_classes { self.new.more_classes ≡ self.old.more_classes }
    {
        match place_of(&self.classes, class) {
            Some(place) => self.classes[place].reserve(more),
            None => Ok(()),
        }
    }

    /// Puts a profile into a class, in the place of the one of its name, or else at its place in the order. It takes
    /// no memory.
    pub fn put(&mut self, class: Id, profile: Profile)
        requires { CanPutIn self.old class profile }
        ensures classes { self.new.classes ≡ at_class class (with_profile profile) self.old.classes }
        ensures own { room_in class self.old ≤ room_in class self.new + 1 }
        ensures others { (name : List ℕ) → bytes_eq class name ≡ false → room_in name self.new ≡ room_in name self.old }
        ensures more_classes { self.new.more_classes ≡ self.old.more_classes }
    {
        generic_names::laws::order_is_total();
        let Some(place) = place_of(&self.classes, class) else {
            return;
        };
        let after = share_of(&profile);
        let replaced = self.classes[place].put(profile);
        let before = share_of_any(replaced.as_ref());
        self.count = self.count - before.profiles + after.profiles;
        self.entries = self.entries - before.entries + after.entries;
    }

    /// Takes the profile of that very name out of a class, if there is one. It takes no memory.
    pub fn remove(&mut self, class: Id, name: &Pattern)
        ensures classes { self.new.classes ≡ at_class class (without_profile name.now) self.old.classes }
        ensures kept { (name : List ℕ) → room_in name self.old ≤ room_in name self.new }
        ensures more_classes { self.new.more_classes ≡ self.old.more_classes }
    {
        let Some(place) = place_of(&self.classes, class) else {
            return;
        };
        let gone = self.share_in(class, name);
        self.count -= gone.profiles;
        self.entries -= gone.entries;
        self.classes[place].remove(name);
    }

    /// Makes room for one class more.
    pub fn reserve_class(&mut self) -> Result<(), NoMemory>
        ensures classes { self.new.classes ≡ self.old.classes }
        ensures spare { self.new.spare ≡ self.old.spare }
        ensures room { OnOk result (0 < self.new.more_classes) }
        ensures kept { self.old.more_classes ≤ self.new.more_classes }
    {
        self.classes.reserve(1)
    }

    /// Adds a class behind the others, which has no profiles and room for none. It takes no memory.
    pub fn add(&mut self, class: Id)
        requires { CanAddClass self.old class }
        ensures classes { self.new.classes ≡ self.old.classes ++ added_class class ∷ [] }
        ensures room { (name : List ℕ) → room_in name self.new ≡ room_in name self.old }
        ensures more_classes { self.new.more_classes + 1 ≡ self.old.more_classes }
    {
        let Ok(table) = ClassTable::added(self.alloc, class) else {
            unreachable!()
        };
        self.classes.push_reserved(table);
    }

    /// Takes a class away that has no profiles and isn't fixed. An unknown class changes nothing.
    pub fn drop_class(&mut self, class: Id)
        requires { CanDropClass self.old class }
        ensures classes { self.new.classes ≡ without_class class self.old.classes }
        ensures others { (name : List ℕ) → bytes_eq class name ≡ false → room_in name self.new ≡ room_in name self.old }
        ensures more_classes { self.old.more_classes ≤ self.new.more_classes }
    {
        let Some(place) = place_of(&self.classes, class) else {
            return;
        };
        let _gone = self.classes.remove(place);
    }

    /// Sets whether a class is active, whether the global access table is used for it, and its log option. An unknown
    /// class changes nothing.
    pub fn set_flags(&mut self, class: Id, active: bool, global: bool, log: LogOption)
        ensures classes { self.new.classes ≡ at_class class (with_flags active global log) self.old.classes }
        ensures kept { (name : List ℕ) → room_in name self.old ≤ room_in name self.new }
        ensures more_classes { self.new.more_classes ≡ self.old.more_classes }
    {
        let Some(place) = place_of(&self.classes, class) else {
            return;
        };
        self.classes[place].set_flags(active, global, log);
    }

    /// Sets whether a class is RACLISTed. An unknown class changes nothing.
    pub fn set_listed(&mut self, class: Id, listed: bool)
        ensures classes { self.new.classes ≡ at_class class (with_listed listed) self.old.classes }
        ensures kept { (name : List ℕ) → room_in name self.old ≤ room_in name self.new }
        ensures more_classes { self.new.more_classes ≡ self.old.more_classes }
    {
        let Some(place) = place_of(&self.classes, class) else {
            return;
        };
        self.classes[place].set_listed(listed);
    }

    /// The name of the first profile of DATASET, in order of specificity, that has that first qualifier. It is
    /// found by a search in the order.
    pub fn first_under(&self, qualifier: Id) -> Option<&Pattern>
        ensures { option_copied result ≡ first_under qualifier self.now.classes }
    {
        match self.class(FixedClass::Dataset.id()) {
            Some(class) => class.first_under(qualifier),
            None => None,
        }
    }

    /// The rows of the classes, with copies of their profiles.
    pub fn rows(&self, alloc: Global) -> Result<ClassRows, NoMemory>
        ensures rows { IfOk result (λ rows. rows ≡ self.now.classes) }
        ensures lawful { AreClasses self.now.classes }
    {
        self.what_is_kept();
        rows_of(alloc, &self.classes)
    }

    /// What the type keeps. It does nothing: its contract is what it is for.
    fn what_is_kept(&self)
        ensures classes { AreClasses self.now.classes }
        ensures profiles { profile_count self.now.classes ≤ most_profiles }
        ensures entries { entry_count self.now.classes ≤ most_entries_in_all }
    {
        let _count = self.count();
        let _entries = self.entries();
    }

    /// What the profile of that name in a class adds to the counts.
    fn share_in(&self, class: Id, name: &Pattern) -> Share
        ensures profiles { result.profiles ≡ option_map_or (λ _. 1) (profile_in class name.now self.now.classes) 0 }
        ensures entries { result.entries ≡ option_map_or entries_in (profile_in class name.now self.now.classes) 0 }
        ensures few { result.profiles ≤ profile_count self.now.classes }
        ensures few_entries { result.entries ≤ entry_count self.now.classes }
    {
        self.what_is_kept();
        share_of_any(self.profile(class, name))
    }
}

/// The place of the class of that name.
fn place_of(classes: &[ClassTable], name: Id) -> Option<usize>
    ensures { result ≡ position (λ class. is_class name class.row) classes.now }
{
    classes.iter().position(|class| class.name() == name)
}

/// Copies of the rows.
fn rows_of(alloc: Global, classes: &[ClassTable]) -> Result<ClassRows, NoMemory>
    ensures { IfOk result (λ rows. rows ≡ rows_in classes.now) }
{
    let mut items = Vec::new(alloc);
    for class in classes {
        items.push(class.row(alloc)?)?;
    }
    Ok(ClassRows { items })
}

/// What a profile adds to the counts.
#[derive(Clone, Copy)]
struct Share {
    /// 1 for a profile that is there, else 0.
    profiles: usize,
    /// The entries of its access lists.
    entries: usize,
}

/// What this profile adds to the counts, if there is one.
fn share_of_any(profile: Option<&Profile>) -> Share
    requires { option_map_or entries_in (option_copied profile) 0 ≤ most_entries_in_all }
    ensures profiles { result.profiles ≡ option_map_or (λ _. 1) (option_copied profile.entry) 0 }
    ensures entries { result.entries ≡ option_map_or entries_in (option_copied profile.entry) 0 }
{
    match profile {
        None => Share {
            profiles: 0,
            entries: 0,
        },
        Some(profile) => share_of(profile),
    }
}

/// What this profile adds to the counts.
fn share_of(profile: &Profile) -> Share
    requires { entries_in profile.now ≤ most_entries_in_all }
    ensures profiles { result.profiles ≡ 1 }
    ensures entries { result.entries ≡ entries_in profile.now }
{
    Share {
        profiles: 1,
        entries: profile.standard.items.len() + profile.conditional.items.len(),
    }
}
