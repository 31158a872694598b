//! The profiles of one class in a table that doesn't change.
ghost use Rattle.std.specs.Prelude.{◌≡◌, ◌<◌, ◌≤◌, length, map, Some, IfOk};
ghost use Rattle.std.specs.List.{find, slice_get};
ghost use Rattle.std.specs.Option.{option_copied, option_map};
ghost use Rattle.racf_profiles.specs.Lookup.{is_profile};
ghost use Rattle.racf_profiles.specs.Edits.{put_profile, drop_row};
ghost use Rattle.racf_profiles.specs.LawfulProfiles.{AreProfiles};
ghost use Rattle.racf_profiles.specs.Limits.{most_class_profiles};
ghost use Rattle.class_profiles.specs.Table.{best_profile, IsPlaceOf};
ghost use Rattle.class_profiles.specs.Paired.{entry_of};
ghost use Rattle.profile_index.specs.Buckets.{key_of, keys_room, most_placed, IsRegionAt};
ghost use Rattle.dataspace.specs.Rooms.{none};

use crate::table::{is_spelled, of_kind};
use dataspace::{Region, Room};
use generic_names::{NameKind, Pattern, Resource};
use profile_index::{Entry, Made, SharedIndex};
use racf_profiles::{NoMemory, Profile};
use std::alloc::Global;
use std::marker::Model;

/// The profiles of one class in the order of specificity, each name but once, all names of one kind. A table doesn't
/// change: a changed version is one of its own, and shares with this one all but what leads to the change.
#[derive(Drop)]
pub struct SharedProfiles {
    /// The kind of all the names.
    kind: NameKind,
    /// The profiles by their names.
    profiles: SharedIndex<Profile>,
}

impl Model for SharedProfiles {
    ghost use Rattle.class_profiles.specs.Table.{ProfilesOfKind};
    ghost use Rattle.class_profiles.specs.Paired.{items_of, IsPaired};

    ghost Value = { ProfilesOfKind };

    ghost view = { λ table. record { kind = table.kind; profiles = items_of table.profiles } };

    ghost invariant = { λ table. IsPaired table.kind table.profiles };
}

impl SharedProfiles {
    /// The same profiles, copied.
    pub fn of(
        alloc: Global,
        kind: NameKind,
        profiles: &[Profile],
    ) -> Result<SharedProfiles, NoMemory>
        requires { AreProfiles kind profiles.now }
        ensures kind { IfOk result (λ table. table.kind ≡ kind) }
        ensures profiles { IfOk result (λ table. table.profiles ≡ profiles.now) }
    {
        generic_names::laws::order_is_total();
        let entries = entries_of(alloc, profiles)?;
        Ok(SharedProfiles {
            kind,
            profiles: SharedIndex::of(alloc, entries)?,
        })
    }

    /// The same table once more.
    pub fn share(&self, alloc: Global) -> Result<SharedProfiles, NoMemory>
        ensures { IfOk result (λ table. table ≡ self.now) }
    {
        Ok(SharedProfiles {
            kind: self.kind,
            profiles: self.profiles.share(alloc)?,
        })
    }

    /// The kind of the names.
    pub fn kind(&self) -> NameKind
        ensures { result ≡ self.now.kind }
    {
        self.kind
    }

    /// How many profiles there are, at most 50,000.
    pub fn len(&self) -> usize
        ensures count { result ≡ length self.now.profiles }
        ensures lawful { AreProfiles self.now.kind self.now.profiles }
    {
        self.profiles.len()
    }

    /// The region in which the key of the name at that place lies, and the row of the key in it. The keys of all names
    /// lie in such regions in their order, one region behind another, and each region has just the room of its keys.
    pub fn keys_at(&self, place: usize) -> (&Region, usize)
        requires { place < length self.now.profiles }
        ensures { IsRegionAt (map key_of (map entry_of self.now.profiles)) place result.0.now result.1 }
    {
        self.profiles.keys_at(place)
    }

    /// The room that was taken for the names' keys, free or not, summed over the regions: just that of the keys.
    pub fn taken(&self) -> Room
        ensures { result ≡ keys_room (map entry_of self.now.profiles) }
    {
        self.profiles.taken()
    }

    /// What is free in the regions of the names' keys: nothing, since each has just the room of its keys.
    pub fn spare(&self) -> Room
        ensures { result ≡ none }
    {
        self.profiles.spare()
    }

    /// The profile at that place, from 0, in order of specificity.
    pub fn at(&self, place: usize) -> &Profile
        requires { place < length self.now.profiles }
        ensures { slice_get self.now.profiles place ≡ Some result.now }
    {
        self.profiles.at(place).1
    }

    /// The profile at that place, with its name as it stands beside the profile in the index.
    pub fn named_at(&self, place: usize) -> (&Pattern, &Profile)
        requires { place < length self.now.profiles }
        ensures profile { slice_get self.now.profiles place ≡ Some result.1.now }
        ensures name { result.0.now ≡ result.1.now.name }
    {
        self.profiles.at(place)
    }

    /// The profile of that very name, generic or not. It is found by a search in the order.
    pub fn get(&self, name: &Pattern) -> Option<&Profile>
        ensures { option_copied result ≡ find (is_profile name.now) self.now.profiles }
    {
        match self.place(name) {
            Some(place) => Some(self.at(place)),
            None => None,
        }
    }

    /// The most specific profile that covers the name, under its own name, which the search has read there. It is
    /// found as `ProfileTable::find` finds its place.
    pub fn find(&self, name: &Resource) -> Option<&Entry<Profile>>
        requires { name.now.kind ≡ self.now.kind }
        ensures { option_copied result ≡ option_map entry_of (best_profile self.now.profiles name.now) }
    {
        self.profiles.find(name)
    }

    /// The table with a profile in the place of the one of its name, or else at its place in the order; and the lengths
    /// of the names in the buckets that were made anew for it.
    pub fn with_profile(
        &self,
        alloc: Global,
        profile: Profile,
    ) -> Result<Made<SharedProfiles>, NoMemory>
        requires kind { profile.name.kind ≡ self.now.kind }
        requires few { length (put_profile profile self.now.profiles) ≤ most_class_profiles }
        ensures kind { IfOk result (λ made. made.what.kind ≡ self.now.kind) }
        ensures profiles { IfOk result (λ made. made.what.profiles ≡ put_profile profile self.now.profiles) }
        ensures placed { IfOk result (λ made. made.placed ≤ most_placed) }
    {
        racf_profiles::laws::puts_keep_the_order();
        let name = profile.name;
        is_spelled(&name);
        let made = self.profiles.put(alloc, name, profile)?;
        let what = SharedProfiles {
            kind: self.kind,
            profiles: made.what,
        };
        Ok(Made {
            what,
            placed: made.placed,
        })
    }

    /// The table without the profile of that very name, or the same where there is none; and the lengths of the names
    /// in the bucket that was made anew for it.
    pub fn without_profile(
        &self,
        alloc: Global,
        name: &Pattern,
    ) -> Result<Made<SharedProfiles>, NoMemory>
        ensures kind { IfOk result (λ made. made.what.kind ≡ self.now.kind) }
        ensures profiles { IfOk result (λ made. made.what.profiles ≡ drop_row (is_profile name.now) self.now.profiles) }
        ensures placed { IfOk result (λ made. made.placed ≤ most_placed) }
    {
        generic_names::laws::order_is_total();
        generic_names::laws::text_reads_back();
        let Some(name) = of_kind(self.kind, name) else {
            return Ok(Made {
                what: self.share(alloc)?,
                placed: 0,
            });
        };
        let made = self.profiles.remove(alloc, &name)?;
        let what = SharedProfiles {
            kind: self.kind,
            profiles: made.what,
        };
        Ok(Made {
            what,
            placed: made.placed,
        })
    }

    /// The place of the profile of that very name.
    fn place(&self, name: &Pattern) -> Option<usize>
        ensures { IsPlaceOf self.now.profiles (find (is_profile name.now) self.now.profiles) result }
    {
        generic_names::laws::text_reads_back();
        match of_kind(self.kind, name) {
            Some(name) => self.profiles.find_named(&name),
            None => None,
        }
    }
}

/// Copies of profiles, each under its own name.
fn entries_of(alloc: Global, profiles: &[Profile]) -> Result<Vec<Entry<Profile>>, NoMemory>
    ensures { IfOk result (λ entries. entries.items ≡ map entry_of profiles.now) }
{
    let mut entries = Vec::with_capacity(alloc, profiles.len())?;
    for profile in profiles {
        let item = profile.copy(alloc)?;
        entries.push(Entry {
            name: item.name,
            item,
        })?;
    }
    Ok(entries)
}
