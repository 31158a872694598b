//! The profiles of one class.
ghost use Rattle.std.specs.Prelude.{◌≡◌, ◌+◌, ◌<◌, [], length, max, Some, None, is_some, IsOk, OnOk, OnErr, IfOk, if◌then◌else◌};
ghost use Rattle.std.specs.List.{find, slice_get};
ghost use Rattle.std.specs.Option.{option_copied};
ghost use Rattle.std.specs.Result.{result_ok};
ghost use Rattle.generic_names.specs.Faults.{pattern_of};
ghost use Rattle.generic_names.specs.Laws.{IsPattern};
ghost use Rattle.racf_profiles.specs.Lookup.{is_profile};
ghost use Rattle.racf_profiles.specs.Edits.{put_profile, drop_row};
ghost use Rattle.racf_profiles.specs.LawfulProfiles.{AreProfiles};
ghost use Rattle.class_profiles.specs.Table.{best_profile, IsPlaceOf, CanPut};
ghost use Rattle.class_profiles.specs.Classes.{is_under};

use access_levels::Id;
use generic_names::{NameKind, Pattern, Resource};
use profile_index::Index;
use racf_profiles::{NoMemory, Profile, Profiles};
use std::alloc::Global;
use std::marker::Model;

/// The profiles of one class in the order of specificity, each name but once, all names of one kind.
#[derive(Drop)]
pub struct ProfileTable {
    /// The kind of all the names.
    kind: NameKind,
    /// The profiles by their names.
    profiles: Index<Profile>,
}

impl Model for ProfileTable {
    ghost use Rattle.class_profiles.specs.Table.{ProfileList};

    ghost Value = { ProfileList };

    ghost use Rattle.class_profiles.specs.Paired.{list_of, IsPaired};

    ghost view = { list_of };

    ghost invariant = { λ table. IsPaired table.kind table.profiles.entries };
}

impl ProfileTable {
    /// No profile. It takes no memory yet.
    pub fn new(alloc: Global, kind: NameKind) -> Result<ProfileTable, NoMemory>
        ensures ok { IsOk result }
        ensures empty { IfOk result (λ table. table ≡ record { kind = kind; profiles = []; spare = 0 }) }
    {
        Ok(ProfileTable {
            kind,
            profiles: Index::new(alloc)?,
        })
    }

    /// The profiles in their order, copied.
    pub fn rows(&self, alloc: Global) -> Result<Profiles, NoMemory>
        ensures { IfOk result (λ rows. rows ≡ self.now.profiles) }
    {
        let mut items = Vec::new(alloc);
        for place in 0..self.len() {
            items.push(self.at(place).copy(alloc)?)?;
        }
        Ok(Profiles { items })
    }

    /// The kind of the names.
    pub fn kind(&self) -> NameKind
        ensures { result ≡ self.now.kind }
    {
        self.kind
    }

    /// How many profiles there are, at most 50,000.
    pub fn len(&self) -> usize
        ensures count { result ≡ length self.now.profiles }
        ensures lawful { AreProfiles self.now.kind self.now.profiles }
    {
        self.profiles.len()
    }

    /// The profile at that place, from 0, in order of specificity.
    pub fn at(&self, place: usize) -> &Profile
        requires { place < length self.now.profiles }
        ensures { slice_get self.now.profiles place ≡ Some result.now }
    {
        self.profiles.at(place).1
    }

    /// The profile of that very name, generic or not. It is found by a search in the order.
    pub fn get(&self, name: &Pattern) -> Option<&Profile>
        ensures { option_copied result ≡ find (is_profile name.now) self.now.profiles }
    {
        match self.place(name) {
            Some(place) => Some(self.at(place)),
            None => None,
        }
    }

    /// The first profile, in order of specificity, whose name has that first qualifier. It is found by a search in the
    /// order.
    pub fn first_under(&self, qualifier: Id) -> Option<&Profile>
        ensures { option_copied result ≡ find (is_under qualifier) self.now.profiles }
    {
        match self.place_under(qualifier) {
            Some(place) => Some(self.at(place)),
            None => None,
        }
    }

    /// The place of the most specific profile that covers the name. Whole runs of profiles that can't cover it
    /// are passed over; those that differ behind a `*` or `**` alone are looked at one by one.
    pub fn find(&self, name: &Resource) -> Option<usize>
        requires { name.now.kind ≡ self.now.kind }
        ensures { IsPlaceOf self.now.profiles (best_profile self.now.profiles name.now) result }
    {
        self.profiles.find(name)
    }

    /// Makes room for this many profiles more.
    pub fn reserve(&mut self, more: usize) -> Result<(), NoMemory>
        ensures ok { OnOk result (self.new ≡ record self.old { spare = max self.old.spare more }) }
        ensures err { OnErr result (self.new ≡ self.old) }
    {
        self.profiles.reserve(more)
    }

    /// Puts a profile in the place of the one of its name, which is answered, or else at its place in the order. It
    /// takes no memory.
    pub fn put(&mut self, profile: Profile) -> Option<Profile>
        requires { CanPut self.old profile }
        ensures replaced { result ≡ find (is_profile profile.name) self.old.profiles }
        ensures kind { self.new.kind ≡ self.old.kind }
        ensures profiles { self.new.profiles ≡ put_profile profile self.old.profiles }
        ensures spare { self.new.spare + (if is_some result then 0 else 1) ≡ self.old.spare }
        ensures lawful { AreProfiles self.new.kind self.new.profiles }
    {
        racf_profiles::laws::puts_keep_the_order();
        let name = profile.name;
        is_spelled(&name);
        self.profiles.put(name, profile)
    }

    /// Takes the profile of that very name away, if there is one. It takes no memory.
    pub fn remove(&mut self, name: &Pattern)
        ensures kind { self.new.kind ≡ self.old.kind }
        ensures profiles { self.new.profiles ≡ drop_row (is_profile name.now) self.old.profiles }
        ensures spare { self.new.spare ≡ self.old.spare + (if is_some (find (is_profile name.now) self.old.profiles) then 1 else 0) }
        ensures lawful { AreProfiles self.new.kind self.new.profiles }
    {
        generic_names::laws::text_reads_back();
        if let Some(name) = of_kind(self.kind, name) {
            self.take(&name);
        }
    }

    /// Takes the profile of a name of the kind away, if there is one.
    fn take(&mut self, name: &Pattern)
        requires { name.now.kind ≡ self.old.kind }
        ensures kind { self.new.kind ≡ self.old.kind }
        ensures profiles { self.new.profiles ≡ drop_row (is_profile name.now) self.old.profiles }
        ensures spare { self.new.spare ≡ self.old.spare + (if is_some (find (is_profile name.now) self.old.profiles) then 1 else 0) }
        ensures lawful { AreProfiles self.new.kind self.new.profiles }
    {
        generic_names::laws::order_is_total();
        self.profiles.remove(name);
    }

    /// The place of the profile of that very name.
    fn place(&self, name: &Pattern) -> Option<usize>
        ensures { IsPlaceOf self.now.profiles (find (is_profile name.now) self.now.profiles) result }
    {
        generic_names::laws::text_reads_back();
        match of_kind(self.kind, name) {
            Some(name) => self.profiles.find_named(&name),
            None => None,
        }
    }

    /// The place of the first profile whose name has that first qualifier.
    fn place_under(&self, qualifier: Id) -> Option<usize>
        ensures { IsPlaceOf self.now.profiles (find (is_under qualifier) self.now.profiles) result }
    {
        self.profiles.first_under(qualifier.text())
    }
}

/// That its text spells it is what the laws of the order rest on. It does nothing: its contract is what it is for.
pub(crate) fn is_spelled(name: &Pattern)
    ensures { IsPattern name.now }
{
    let _text = name.text();
}

/// The name of that kind with the same text, if there is one.
pub(crate) fn of_kind(kind: NameKind, name: &Pattern) -> Option<Pattern>
    ensures { result ≡ result_ok (pattern_of kind name.now.text) }
{
    let text = name.text();
    if name.kind() == kind {
        return Some(*name);
    }
    Pattern::read(kind, text).ok()
}
