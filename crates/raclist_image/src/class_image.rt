//! The profiles of one class in an image.
ghost use Rattle.std.specs.Prelude.{◌≡◌, ◌<◌, ◌≤◌, [], length, Some, IfOk, IsSomeAnd, option_map};
ghost use Rattle.std.specs.List.{find, slice_get};
ghost use Rattle.std.specs.Option.{option_copied, option_map_or};
ghost use Rattle.racf_profiles.specs.declared.profiles.Profile.{Profile};
ghost use Rattle.racf_profiles.specs.Lookup.{is_profile};
ghost use Rattle.racf_profiles.specs.Edits.{put_profile, drop_row};
ghost use Rattle.racf_profiles.specs.LawfulProfiles.{AreProfiles};
ghost use Rattle.class_profiles.specs.Table.{best_profile};
ghost use Rattle.profile_index.specs.Buckets.{most_placed, IsRegionAt};
ghost use Rattle.dataspace.specs.Rooms.{none, room_for};
ghost use Rattle.racf_profiles.specs.Limits.{most_class_profiles};
ghost use Rattle.raclist_image.specs.Facts.{AreFacts, AreFactsOf};
ghost use Rattle.raclist_image.specs.PlacedNames.{keys_of, room_taken};

use crate::facts::Facts;
use class_profiles::{Made, SharedProfiles};
use dataspace::{Region, Room};
use generic_names::{NameKind, Pattern, Resource};
use profile_index::key_length;
use racf_profiles::{Member, NoMemory, Profile};
use std::alloc::Global;
use std::marker::Model;

/// The effective profiles of one class, in order of specificity.
#[derive(Drop)]
pub struct ClassImage {
    /// The profiles by their names.
    profiles: SharedProfiles,
}

impl Model for ClassImage {
    ghost use Rattle.class_profiles.specs.Table.{ProfilesOfKind};

    ghost Value = { ProfilesOfKind };

    ghost view = { λ image. image.profiles };
}

impl ClassImage {
    /// The image of these profiles, copied, in time that grows with their number. The room that it takes for keys is
    /// that which `room` answers.
    pub fn of(alloc: Global, profiles: &[Profile], kind: NameKind) -> Result<ClassImage, NoMemory>
        requires { AreProfiles kind profiles.now }
        ensures image { IfOk result (λ image. image ≡ record { kind = kind; profiles = profiles.now }) }
        ensures taken { IfOk result (λ image. room_taken image ≡ room_for (keys_of profiles.now)) }
    {
        Ok(ClassImage {
            profiles: SharedProfiles::of(alloc, kind, profiles)?,
        })
    }

    /// The room that the image of these profiles takes for names: a sum over the profiles, of the lengths of their
    /// names' order keys, which it keeps and goes by, and a row for each. It takes no memory.
    pub fn room(profiles: &[Profile]) -> Room
        requires few { length profiles.now ≤ most_class_profiles }
        ensures { result ≡ room_for (keys_of profiles.now) }
    {
        let mut room = Room::none();
        for profile in profiles {
            room = room.plus(key_length(&profile.name));
        }
        room
    }

    /// The room that was taken for keys, free or not, summed over the regions of the image: just that of the keys,
    /// which `room` answers of the same profiles. It takes no memory.
    pub fn taken(&self) -> Room
        ensures { result ≡ room_taken self.now }
    {
        self.profiles.taken()
    }

    /// The region in which the key of the name at that place lies, and the row of the key in it. The keys of all names
    /// lie in such regions in their order, one region behind another, and each region has just the room of its keys.
    pub fn keys_at(&self, place: usize) -> (&Region, usize)
        requires { place < length self.now.profiles }
        ensures { IsRegionAt (keys_of self.now.profiles) place result.0.now result.1 }
    {
        self.profiles.keys_at(place)
    }

    /// What is free in the regions of the image: nothing, since each has just the room of the keys that lie in it. It
    /// takes no memory.
    pub fn spare(&self) -> Room
        ensures { result ≡ none }
    {
        self.profiles.spare()
    }

    /// How many profiles there are, at most 50,000.
    pub fn len(&self) -> usize
        ensures count { result ≡ length self.now.profiles }
        ensures lawful { AreProfiles self.now.kind self.now.profiles }
    {
        self.profiles.len()
    }

    /// What a decision reads of the most specific profile that covers the name. It is found by a search in the order,
    /// in which only profiles that differ behind a `*` or `**` alone are looked at one by one.
    pub fn find(&self, name: &Resource) -> Option<Facts<'_>>
        requires { name.now.kind ≡ self.now.kind }
        ensures { AreFactsOf (best_profile self.now.profiles name.now) result }
    {
        let entry = self.profiles.find(name)?;
        Some(facts_of(&entry.name, &entry.item))
    }

    /// The name of the profile at that place.
    pub fn name(&self, place: usize) -> Pattern
        requires { place < length self.now.profiles }
        ensures { option_map (λ (profile : Profile). profile.name) (slice_get self.now.profiles place) ≡ Some result }
    {
        self.profiles.at(place).name
    }

    /// What a decision reads of the profile at that place, from 0.
    pub fn facts(&self, place: usize) -> Facts<'_>
        requires { place < length self.now.profiles }
        ensures { IsSomeAnd (slice_get self.now.profiles place) (λ profile. AreFacts profile result) }
    {
        let (name, profile) = self.profiles.named_at(place);
        facts_of(name, profile)
    }

    /// The profile of that very name.
    pub(crate) fn get(&self, name: &Pattern) -> Option<&Profile>
        ensures { option_copied result ≡ find (is_profile name.now) self.now.profiles }
    {
        self.profiles.get(name)
    }

    /// The members of the profile of that very name; none where there is no such profile.
    pub(crate) fn members(&self, name: &Pattern) -> &[Member]
        ensures { result.now ≡ option_map_or (λ (profile : Profile). profile.members) (find (is_profile name.now) self.now.profiles) [] }
    {
        match self.profiles.get(name) {
            Some(profile) => profile.members.items.as_slice(),
            None => &[],
        }
    }

    /// The image with the profile, copied, in the place of the one of its name, or else at its place in the order; and
    /// the lengths of the names in the buckets that were made anew for it.
    pub(crate) fn with_profile(
        &self,
        alloc: Global,
        profile: &Profile,
    ) -> Result<Made<ClassImage>, NoMemory>
        requires { AreProfiles self.now.kind (put_profile profile.now self.now.profiles) }
        ensures image { IfOk result (λ made. made.what ≡ record { kind = self.now.kind; profiles = put_profile profile.now self.now.profiles }) }
        ensures placed { IfOk result (λ made. made.placed ≤ most_placed) }
    {
        let copy = profile.copy(alloc)?;
        let made = self.profiles.with_profile(alloc, copy)?;
        let what = ClassImage {
            profiles: made.what,
        };
        Ok(Made {
            what,
            placed: made.placed,
        })
    }

    /// The image without the profile of that very name, and the lengths of the names in the bucket that was made anew
    /// for it.
    pub(crate) fn without_profile(
        &self,
        alloc: Global,
        name: &Pattern,
    ) -> Result<Made<ClassImage>, NoMemory>
        ensures image { IfOk result (λ made. made.what ≡ record { kind = self.now.kind; profiles = drop_row (is_profile name.now) self.now.profiles }) }
        ensures placed { IfOk result (λ made. made.placed ≤ most_placed) }
    {
        let made = self.profiles.without_profile(alloc, name)?;
        let what = ClassImage {
            profiles: made.what,
        };
        Ok(Made {
            what,
            placed: made.placed,
        })
    }
}

/// What a decision reads of this profile, whose name this is.
fn facts_of<'a>(name: &'a Pattern, profile: &'a Profile) -> Facts<'a>
    requires { name.now ≡ profile.now.name }
    ensures { AreFacts profile.now result }
{
    Facts {
        name,
        owner: profile.owner,
        uacc: profile.uacc,
        warning: profile.warning,
        standard: profile.standard.items.as_slice(),
        conditional: profile.conditional.items.as_slice(),
        level: profile.level,
        categories: profile.categories,
        label: profile.label,
        audit: profile.audit,
        global_audit: profile.global_audit,
    }
}
