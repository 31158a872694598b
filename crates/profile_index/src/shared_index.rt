ghost use Rattle.std.specs.Prelude.{◌≡◌, ◌+◌, ◌^◌, ◌<◌, ◌≤◌, [], length, map, find, IfOk, Some, slice_get};
ghost use Rattle.std.specs.Option.{option_copied};
ghost use Rattle.generic_names.specs.Best.{best, IsInOrder, AreNamed};
ghost use Rattle.dataspace.specs.Rooms.{none};
ghost use Rattle.pages.specs.PartAt.{IsPartAt};
ghost use Rattle.profile_index.specs.Buckets.{key_of, keys_room, both, most_placed, IsRegionAt};
ghost use Rattle.profile_index.specs.Indexed.{name_of, AreOf};

use crate::bucket::Bucket;
use crate::entry::Entry;
use crate::entry_list::SharedEntries;
use crate::index::NoMemory;
use crate::search::{is_pattern, most_specific, place_for};
use dataspace::{Region, Room};
use generic_names::{Pattern, Resource};
use pages::{Made, Pages, Part};
use std::alloc::Global;
use std::marker::Model;
use std::sync::Arc;

/// Entries in the order of specificity of their names, which are of one kind. An index doesn't change: a changed
/// version is one of its own, and shares with this one all but what leads to the change. Entries stand in buckets by
/// the first qualifiers of their names, with the keys of a bucket's names in one region, by which searches go. A call
/// that answers [`NoMemory`] leaves nothing behind.
#[derive(Drop)]
pub struct SharedIndex<T: Drop> {
    /// The entries in the order.
    entries: SharedEntries<T>,
}

impl<T: Drop> Model for SharedIndex<T> {
    ghost use Rattle.std.specs.Prelude.{List};
    ghost use Rattle.generic_names.specs.Best.{IsInOrder, AreNamed};
    ghost use Rattle.profile_index.specs.declared.entry.Entry.{Entry};
    ghost use Rattle.profile_index.specs.Indexed.{name_of};

    ghost Value = { List (Entry T) };

    ghost view = { λ x. x.entries };

    ghost invariant = { λ x. IsInOrder name_of x.entries × AreNamed name_of x.entries };
}

impl<T: Drop> SharedIndex<T> {
    ghost use Rattle.profile_index.specs.Indexed.{has_name, IsPlaceOf, put_entry, without};

    /// An index without entries. It takes no memory.
    pub fn new(alloc: Global) -> SharedIndex<T>
        ensures { result ≡ [] }
    {
        SharedIndex {
            entries: Pages::empty(alloc),
        }
    }

    /// An index of these entries, which stand in order.
    pub fn of(alloc: Global, entries: Vec<Entry<T>>) -> Result<SharedIndex<T>, NoMemory>
        requires ordered { IsInOrder name_of entries.items }
        requires named { AreNamed name_of entries.items }
        ensures { IfOk result (λ index. index ≡ entries.items) }
    {
        let mut shared = Vec::with_capacity(alloc, entries.len())?;
        for entry in entries {
            shared.push(Arc::new(alloc, entry)?)?;
        }
        Ok(SharedIndex {
            entries: Pages::packed(alloc, &shared)?,
        })
    }

    /// The same index once more.
    pub fn share(&self, alloc: Global) -> Result<SharedIndex<T>, NoMemory>
        ensures { IfOk result (λ index. index ≡ self.now) }
    {
        Ok(SharedIndex {
            entries: self.entries.share(alloc)?,
        })
    }

    /// How many entries there are. They stand in the order of specificity, so no name comes twice.
    pub fn len(&self) -> usize
        ensures len { result ≡ length self.now }
        ensures ordered { IsInOrder name_of self.now }
        ensures named { AreNamed name_of self.now }
    {
        self.entries.len()
    }

    /// The region in which the key of the entry at a place lies, and the row of the key in it. The keys of all entries
    /// lie in such regions in their order, one region behind another, and each region has just the room of its keys.
    pub fn keys_at(&self, place: usize) -> (&Region, usize)
        requires { place < length self.now }
        ensures { IsRegionAt (map key_of self.now) place result.0.now result.1 }
    {
        let (bucket, row) = self.bucket_at(place);
        (bucket.keys(), row)
    }

    /// The room that was taken for keys, free or not, summed over the regions of the index: just that of the keys.
    pub fn taken(&self) -> Room
        requires { length self.now < 2 ^ 31 }
        ensures { result ≡ keys_room self.now }
    {
        let mut sum = Room::none();
        let mut place = 0;
        while place < self.entries.len() {
            let (bucket, row) = self.bucket_at(place);
            sum = both(sum, bucket.taken_from(row));
            place += bucket.len() - row;
        }
        sum
    }

    /// What is free in the regions of the index: nothing, since each bucket's region has just the room of its keys.
    pub fn spare(&self) -> Room
        ensures { result ≡ none }
    {
        let mut sum = Room::none();
        let mut place = 0;
        while place < self.entries.len() {
            let (bucket, rest) = self.bucket_at(place);
            sum = both(sum, bucket.spare());
            place += bucket.len() - rest;
        }
        sum
    }

    /// The bucket in which the entry at a place stands, and the place in it.
    fn bucket_at(&self, place: usize) -> (&Bucket<T>, usize)
        requires { place < length self.now }
        ensures { IsPartAt self.now place result.0.now result.1 }
    {
        let (page, rest) = self.entries.leaf_at(place);
        page.part_at(rest)
    }

    /// The name and the item at a place.
    pub fn at(&self, place: usize) -> (&Pattern, &T)
        requires { place < length self.now }
        ensures { slice_get self.now place ≡ Some (record { name = result.0.now; item = result.1.now }) }
    {
        let entry = self.entries.at(place);
        (&entry.name, &entry.item)
    }

    /// The most specific entry that covers a name. An entry before the very name isn't looked at, and of
    /// those behind it whole runs are passed over that can't cover it, as `Index::find` does.
    pub fn find(&self, name: &Resource) -> Option<&Entry<T>>
        requires { AreOf name.now.kind self.now }
        ensures { option_copied result ≡ best name_of self.now name.now }
    {
        most_specific(&self.entries, name)
    }

    /// The entry of a pattern's name, generic or not.
    pub fn find_named(&self, name: &Pattern) -> Option<usize>
        requires { AreOf name.now.kind self.now }
        ensures { IsPlaceOf self.now (find (has_name name.now) self.now) result }
    {
        match place_for(&self.entries, name, &name.order_key()) {
            Ok(place) => Some(place),
            Err(_) => None,
        }
    }

    /// The index with an entry in the place of the one of its name, or else at its place in the order.
    pub fn with_entry(
        &self,
        alloc: Global,
        name: Pattern,
        item: T,
    ) -> Result<SharedIndex<T>, NoMemory>
        requires { AreOf name.kind self.now }
        ensures entries { IfOk result (λ index. index ≡ put_entry (record { name = name; item = item }) self.now) }
        ensures kinds { IfOk result (λ index. AreOf name.kind index) }
    {
        Ok(self.put(alloc, name, item)?.what)
    }

    /// The index without the entry of a name, or the same where there is none.
    pub fn without(&self, alloc: Global, name: &Pattern) -> Result<SharedIndex<T>, NoMemory>
        requires { AreOf name.now.kind self.now }
        ensures entries { IfOk result (λ index. index ≡ without name.now self.now) }
        ensures kinds { IfOk result (λ index. AreOf name.now.kind index) }
    {
        Ok(self.remove(alloc, name)?.what)
    }

    /// The index with an entry, as `with_entry` makes it, and the lengths of the names in the buckets that were made
    /// anew for it: they are those of one bucket, and of two where the entry split one.
    pub fn put(
        &self,
        alloc: Global,
        name: Pattern,
        item: T,
    ) -> Result<Made<SharedIndex<T>>, NoMemory>
        requires { AreOf name.kind self.now }
        ensures entries { IfOk result (λ made. made.what ≡ put_entry (record { name = name; item = item }) self.now) }
        ensures kinds { IfOk result (λ made. AreOf name.kind made.what) }
        ensures placed { IfOk result (λ made. made.placed ≤ most_placed) }
    {
        is_pattern(&name);
        let place = place_for(&self.entries, &name, &name.order_key());
        let shared = Arc::new(alloc, Entry { name, item })?;
        match place {
            Ok(place) => Ok(made_of(self.entries.replace(alloc, place, shared)?)),
            Err(place) => Ok(made_of(self.entries.insert(alloc, place, shared)?)),
        }
    }

    /// The index without an entry, as `without` makes it, and the lengths of the names in the bucket that was made anew
    /// for it.
    pub fn remove(&self, alloc: Global, name: &Pattern) -> Result<Made<SharedIndex<T>>, NoMemory>
        requires { AreOf name.now.kind self.now }
        ensures entries { IfOk result (λ made. made.what ≡ without name.now self.now) }
        ensures kinds { IfOk result (λ made. AreOf name.now.kind made.what) }
        ensures placed { IfOk result (λ made. made.placed ≤ most_placed) }
    {
        match place_for(&self.entries, name, &name.order_key()) {
            Ok(place) => Ok(made_of(self.entries.remove(alloc, place)?)),
            Err(_) => Ok(Made {
                what: self.share(alloc)?,
                placed: 0,
            }),
        }
    }
}

/// Both rooms together.
fn both(one: Room, other: Room) -> Room
    requires bytes { one.bytes + other.bytes < 2 ^ 64 }
    requires rows { one.rows + other.rows < 2 ^ 64 }
    ensures { result ≡ both one other }
{
    Room {
        bytes: one.bytes + other.bytes,
        rows: one.rows + other.rows,
    }
}

/// An index of these entries, and what was placed for them.
fn made_of<T: Drop>(made: Made<SharedEntries<T>>) -> Made<SharedIndex<T>>
    requires ordered { IsInOrder name_of made.what }
    requires named { AreNamed name_of made.what }
    ensures what { result.what ≡ made.what }
    ensures placed { result.placed ≡ made.placed }
{
    Made {
        what: SharedIndex { entries: made.what },
        placed: made.placed,
    }
}
