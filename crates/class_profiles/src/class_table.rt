//! A class with its profiles.
ghost use Rattle.std.specs.Prelude.{◌≡◌, ◌+◌, ◌<◌, ◌≤◌, is_some, IsOk, OnOk, IfOk, if◌then◌else◌};
ghost use Rattle.std.specs.List.{find};
ghost use Rattle.racf_profiles.specs.NewDatabase.{empty_class};
ghost use Rattle.racf_profiles.specs.Lookup.{is_profile};
ghost use Rattle.racf_profiles.specs.Edits.{with_profile, without_profile, with_flags, with_listed, added_class};
ghost use Rattle.racf_profiles.specs.LawfulProfiles.{AreProfiles, kind_in};
ghost use Rattle.class_profiles.specs.Table.{CanPut};
ghost use Rattle.class_profiles.specs.Classes.{is_under};
ghost use Rattle.std.specs.Option.{option_copied, option_map};

use crate::table::ProfileTable;
use access_levels::Id;
use generic_names::Pattern;
use racf_profiles::{ClassRow, FixedClass, LogOption, NoMemory, Profile, kind_in};
use std::alloc::Global;
use std::marker::Model;

/// A class: its flags and its profiles, whose names are of the kind that the class has.
#[derive(Drop)]
pub struct ClassTable {
    /// Its name, which no other class has.
    name: Id,
    /// Whether it is active.
    active: bool,
    /// Whether it is RACLISTed.
    listed: bool,
    /// Whether the global access table counts for it.
    global: bool,
    /// Whether its accesses are logged as the profiles say, or by this option.
    log: LogOption,
    /// Its profiles.
    profiles: ProfileTable,
}

impl Model for ClassTable {
    ghost use Rattle.class_profiles.specs.Classes.{ClassWithRoom};

    ghost Value = { ClassWithRoom };

    ghost use Rattle.class_profiles.specs.Counted.{class_with_room, HasItsKind};

    ghost view = { class_with_room };

    ghost invariant = { HasItsKind };
}

impl ClassTable {
    /// A fixed class without profiles.
    pub(crate) fn new(
        alloc: Global,
        class: FixedClass,
        active: bool,
    ) -> Result<ClassTable, NoMemory>
        ensures { IfOk result (λ table. table ≡ record { row = empty_class active class; spare = 0 }) }
    {
        Ok(ClassTable {
            name: class.id(),
            active,
            listed: false,
            global: false,
            log: LogOption::ByProfile,
            profiles: ProfileTable::new(alloc, kind_in(class.id()))?,
        })
    }

    /// A class that is added: not active, without profiles. It takes no memory yet.
    pub(crate) fn added(alloc: Global, name: Id) -> Result<ClassTable, NoMemory>
        ensures ok { IsOk result }
        ensures empty { IfOk result (λ table. table ≡ record { row = added_class name; spare = 0 }) }
    {
        Ok(ClassTable {
            name,
            active: false,
            listed: false,
            global: false,
            log: LogOption::ByProfile,
            profiles: ProfileTable::new(alloc, kind_in(name))?,
        })
    }

    /// Its name.
    pub fn name(&self) -> Id
        ensures { result ≡ self.now.row.name }
    {
        self.name
    }

    /// Whether the class is used in decisions.
    pub fn is_active(&self) -> bool
        ensures { result ≡ self.now.row.active }
    {
        self.active
    }

    /// Whether it is RACLISTed.
    pub fn is_listed(&self) -> bool
        ensures { result ≡ self.now.row.listed }
    {
        self.listed
    }

    /// Whether the global access table is used for it.
    pub fn is_global(&self) -> bool
        ensures { result ≡ self.now.row.global }
    {
        self.global
    }

    /// Whether its accesses are logged as the profiles say, or by this option.
    pub fn log(&self) -> LogOption
        ensures { result ≡ self.now.row.log }
    {
        self.log
    }

    /// Its profiles.
    pub fn profiles(&self) -> &ProfileTable
        ensures kind { result.now.kind ≡ kind_in self.now.row.name }
        ensures profiles { result.now.profiles ≡ self.now.row.profiles }
        ensures spare { result.now.spare ≡ self.now.spare }
    {
        &self.profiles
    }

    /// The name of the first profile with that first qualifier.
    pub(crate) fn first_under(&self, qualifier: Id) -> Option<&Pattern>
        ensures { option_copied result ≡ option_map (λ profile. profile.name) (find (is_under qualifier) self.now.row.profiles) }
    {
        match self.profiles.first_under(qualifier) {
            Some(profile) => Some(&profile.name),
            None => None,
        }
    }

    /// Makes room for this many profiles more.
    pub(crate) fn reserve(&mut self, more: usize) -> Result<(), NoMemory>
        ensures row { self.new.row ≡ self.old.row }
        ensures spare { OnOk result (more ≤ self.new.spare) }
        ensures kept { self.old.spare ≤ self.new.spare }
    {
        self.profiles.reserve(more)
    }

    /// Puts a profile in the place of the one of its name, which is answered, or else at its place in the order.
    pub(crate) fn put(&mut self, profile: Profile) -> Option<Profile>
        requires { CanPut (record { kind = kind_in self.old.row.name; profiles = self.old.row.profiles; spare = self.old.spare }) profile }
        ensures replaced { result ≡ find (is_profile profile.name) self.old.row.profiles }
        ensures row { self.new.row ≡ with_profile profile self.old.row }
        ensures spare { self.new.spare + (if is_some result then 0 else 1) ≡ self.old.spare }
        ensures lawful { AreProfiles (kind_in self.old.row.name) self.new.row.profiles }
    {
        self.profiles.put(profile)
    }

    /// Takes the profile of that name away.
    pub(crate) fn remove(&mut self, name: &Pattern)
        ensures row { self.new.row ≡ without_profile name.now self.old.row }
        ensures spare { self.old.spare ≤ self.new.spare }
        ensures lawful { AreProfiles (kind_in self.old.row.name) self.new.row.profiles }
    {
        self.profiles.remove(name);
    }

    /// Sets whether the class is active, whether the global access table is used for it, and its log option.
    pub(crate) fn set_flags(&mut self, active: bool, global: bool, log: LogOption)
        ensures row { self.new.row ≡ with_flags active global log self.old.row }
        ensures spare { self.new.spare ≡ self.old.spare }
    {
        self.active = active;
        self.global = global;
        self.log = log;
    }

    /// Sets whether it is RACLISTed.
    pub(crate) fn set_listed(&mut self, listed: bool)
        ensures row { self.new.row ≡ with_listed listed self.old.row }
        ensures spare { self.new.spare ≡ self.old.spare }
    {
        self.listed = listed;
    }

    /// The row of the class, with copies of its profiles.
    pub(crate) fn row(&self, alloc: Global) -> Result<ClassRow, NoMemory>
        ensures { IfOk result (λ row. row ≡ self.now.row) }
    {
        Ok(ClassRow {
            name: self.name,
            active: self.active,
            listed: self.listed,
            global: self.global,
            log: self.log,
            profiles: self.profiles.rows(alloc)?,
        })
    }
}
