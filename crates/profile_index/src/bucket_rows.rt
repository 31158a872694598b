//! The entries of a bucket, and those with which one is filled.
ghost use Rattle.std.specs.Prelude.{◌≡◌, ◌+◌, ◌-◌, ◌*◌, ◌^◌, ◌<◌, ◌≤◌, [], ◌∷◌, ◌++◌, length, map, take, drop, slice_get, Some, IfOk, OnOk};
ghost use Rattle.std.specs.List.{remove};
ghost use Rattle.std.specs.Arc.{arc_value};
ghost use Rattle.generic_names.specs.OrderKey.{order_key};
ghost use Rattle.dataspace.specs.Rooms.{none};
ghost use Rattle.profile_index.specs.declared.entry.Entry.{Entry};
ghost use Rattle.profile_index.specs.Buckets.{key_of, keys_room, region_of, names_length, both, with_entries, HasRoom};

use crate::entry::Entry;
use crate::search::is_pattern;
use dataspace::{Region, Room};
use generic_names::{OrderKey, Pattern};
use std::alloc::{AllocError, Global};
use std::marker::Model;
use std::sync::Arc;

/// Entries in their order, with the keys of their names in one region. A key lies there and nowhere else. The region is
/// made once, with room for just these keys.
#[derive(Drop)]
pub(crate) struct BucketRows<T: Drop> {
    /// The keys of the entries' names, in the order of the entries.
    keys: Region,
    /// The entries.
    rows: Vec<Arc<Entry<T>>>,
}

impl<T: Drop> Model for BucketRows<T> {
    ghost use Rattle.std.specs.Prelude.{◌≡◌, List, map};
    ghost use Rattle.std.specs.Arc.{arc_value};
    ghost use Rattle.profile_index.specs.declared.entry.Entry.{Entry};
    ghost use Rattle.profile_index.specs.Buckets.{key_of, region_of};

    ghost Value = { List (Entry T) };

    ghost view = { λ b. map arc_value b.rows.items };

    ghost invariant = { λ b. b.keys ≡ region_of (map key_of (map arc_value b.rows.items)) };
}

impl<T: Drop> BucketRows<T> {
    /// One entry.
    pub(crate) fn one(alloc: Global, entry: Arc<Entry<T>>) -> Result<BucketRows<T>, AllocError>
        ensures { IfOk result (λ rows. rows ≡ arc_value entry ∷ []) }
    {
        let key = key_of(&entry);
        let room = Room::none().plus(key.as_bytes().len());
        let mut filling = Filling::new(alloc, room)?;
        filling.push(key.as_bytes(), entry);
        Ok(filling.finish())
    }

    /// These entries, whose keys are computed here.
    pub(crate) fn of(alloc: Global, entries: &[Arc<Entry<T>>]) -> Result<BucketRows<T>, AllocError>
        requires { length entries.now ≤ 16 }
        ensures { IfOk result (λ rows. rows ≡ map arc_value entries.now) }
    {
        let mut filling = Filling::new(alloc, keys_room(entries))?;
        for entry in entries {
            filling.push(key_of(entry).as_bytes(), Arc::try_clone(entry)?);
        }
        Ok(filling.finish())
    }

    /// The entries.
    pub(crate) fn entries(&self) -> &[Arc<Entry<T>>]
        ensures { map arc_value result.now ≡ self.now }
    {
        &self.rows
    }

    /// The entry at a place.
    pub(crate) fn at(&self, place: usize) -> &Arc<Entry<T>>
        requires { place < length self.now }
        ensures { slice_get self.now place ≡ Some (arc_value result.now) }
    {
        &self.rows[place]
    }

    /// The key of the entry at a place.
    pub(crate) fn key(&self, place: usize) -> &[u8]
        requires { place < length self.now }
        ensures { slice_get (map key_of self.now) place ≡ Some result.now }
    {
        self.keys.row(place)
    }

    /// The region of the keys: of just their room, in which they lie in the order of the entries.
    pub(crate) fn keys(&self) -> &Region
        ensures { result.now ≡ region_of (map key_of self.now) }
    {
        &self.keys
    }

    /// The room that was taken for the keys, free or not, but for what the keys of the entries before a place take.
    pub(crate) fn taken_from(&self, place: usize) -> Room
        requires place { place ≤ length self.now }
        requires few { length self.now ≤ 16 }
        ensures room { result ≡ keys_room (drop place self.now) }
        ensures bytes { result.bytes < 2 ^ 32 }
    {
        let front = self.room_with(Room::none(), 0, place);
        let spare = self.keys.spare();
        Room {
            bytes: self.keys.used() + spare.bytes - front.bytes,
            rows: self.rows.len() + spare.rows - front.rows,
        }
    }

    /// What is free in the region of the keys: nothing, since it has just the room of these.
    pub(crate) fn spare(&self) -> Room
        ensures { result ≡ none }
    {
        self.keys.spare()
    }

    /// This room, and that of the keys of the entries from one place up to another.
    fn room_with(&self, room: Room, start: usize, end: usize) -> Room
        requires order { start ≤ end }
        requires within { end ≤ length self.now }
        requires rows { room.rows + (end - start) ≤ 17 }
        requires bytes { room.bytes ≤ 248 * room.rows }
        ensures room { result ≡ both room (keys_room (drop start (take end self.now))) }
        ensures rows { result.rows ≡ room.rows + (end - start) }
        ensures bytes { result.bytes ≤ 248 * result.rows }
    {
        let mut sum = room;
        for place in start..end {
            is_pattern(&self.at(place).name);
            sum = sum.plus(self.key(place).len());
        }
        sum
    }

    /// The same with an entry behind those before a place, and those from another one on behind it.
    pub(crate) fn with_entry(
        &self,
        alloc: Global,
        place: usize,
        next: usize,
        entry: Arc<Entry<T>>,
    ) -> Result<BucketRows<T>, AllocError>
        requires place { place ≤ next }
        requires next { next ≤ length self.now }
        requires few { length self.now ≤ 16 }
        ensures { IfOk result (λ rows. rows ≡ take place self.now ++ arc_value entry ∷ drop next self.now) }
    {
        let key = key_of(&entry);
        let front = self.room_with(Room::none(), 0, place);
        let room = self.room_with(front.plus(key.as_bytes().len()), next, self.rows.len());
        let mut filling = Filling::new(alloc, room)?;
        filling.push_all(self, 0, place)?;
        filling.push(key.as_bytes(), entry);
        filling.push_all(self, next, self.rows.len())?;
        Ok(filling.finish())
    }

    /// The same without the entry at a place.
    pub(crate) fn without(&self, alloc: Global, place: usize) -> Result<BucketRows<T>, AllocError>
        requires place { place < length self.now }
        requires few { length self.now ≤ 16 }
        ensures { IfOk result (λ rows. rows ≡ remove self.now place) }
    {
        let front = self.room_with(Room::none(), 0, place);
        let room = self.room_with(front, place + 1, self.rows.len());
        let mut filling = Filling::new(alloc, room)?;
        filling.push_all(self, 0, place)?;
        filling.push_all(self, place + 1, self.rows.len())?;
        Ok(filling.finish())
    }

    /// The entries from one place up to another.
    pub(crate) fn part(
        &self,
        alloc: Global,
        start: usize,
        end: usize,
    ) -> Result<BucketRows<T>, AllocError>
        requires order { start ≤ end }
        requires within { end ≤ length self.now }
        requires few { length self.now ≤ 16 }
        ensures { IfOk result (λ rows. rows ≡ drop start (take end self.now)) }
    {
        let room = self.room_with(Room::none(), start, end);
        let mut filling = Filling::new(alloc, room)?;
        filling.push_all(self, start, end)?;
        Ok(filling.finish())
    }
}

/// Entries with which a bucket is filled: there is room for the keys of all that are to come, and for them.
#[derive(Drop)]
struct Filling<T: Drop> {
    /// The keys of the entries' names, in the order of the entries.
    keys: Region,
    /// The entries.
    rows: Vec<Arc<Entry<T>>>,
}

impl<T: Drop> Model for Filling<T> {
    ghost use Rattle.std.specs.Prelude.{map};
    ghost use Rattle.std.specs.Arc.{arc_value};
    ghost use Rattle.std.specs.Vec.{vec_capacity};
    ghost use Rattle.profile_index.specs.Buckets.{key_of, Filled, IsFilling};

    ghost Value = { Filled T };

    ghost view = { λ f. record { entries = map arc_value f.rows.items; room = record { bytes = f.keys.bytes; rows = f.keys.rows } } };

    ghost invariant = { λ f. IsFilling f.keys (map arc_value f.rows.items) (vec_capacity f.rows) };
}

impl<T: Drop> Filling<T> {
    /// No entries yet, in this room.
    fn new(alloc: Global, room: Room) -> Result<Filling<T>, AllocError>
        requires bytes { room.bytes < 2 ^ 32 }
        requires rows { room.rows < 2 ^ 32 }
        ensures { IfOk result (λ filling. filling ≡ record { entries = []; room = room }) }
    {
        Ok(Filling {
            keys: Region::for_room(alloc, room)?,
            rows: Vec::with_capacity(alloc, room.rows)?,
        })
    }

    /// Adds an entry of another bucket or a new one, of whose name this is the key. It takes no memory.
    fn push(&mut self, key: &[u8], entry: Arc<Entry<T>>)
        requires key { key.now ≡ key_of (arc_value entry) }
        requires room { HasRoom (with_entries self.old (arc_value entry ∷ [])) }
        ensures { self.new ≡ with_entries self.old (arc_value entry ∷ []) }
    {
        self.rows.push(entry).unwrap();
        self.keys.place(key);
    }

    /// Adds the entries of another bucket from one place up to another, with their keys as they lie there.
    fn push_all(&mut self, from: &BucketRows<T>, start: usize, end: usize) -> Result<(), AllocError>
        requires order { start ≤ end }
        requires within { end ≤ length from.now }
        requires room { HasRoom (with_entries self.old (drop start (take end from.now))) }
        ensures { OnOk result (self.new ≡ with_entries self.old (drop start (take end from.now))) }
    {
        for place in start..end {
            self.push(from.key(place), Arc::try_clone(from.at(place))?);
        }
        Ok(())
    }

    /// The entries of the bucket, whose keys take the whole room.
    fn finish(self) -> BucketRows<T>
        requires { self.room ≡ keys_room self.entries }
        ensures { result ≡ self.entries }
    {
        BucketRows {
            keys: self.keys,
            rows: self.rows,
        }
    }
}

/// The key of an entry's name.
fn key_of<T>(entry: &Entry<T>) -> OrderKey
    ensures key { result ≡ key_of entry.now }
    ensures short { length result ≤ 248 }
{
    is_pattern(&entry.name);
    entry.name.order_key()
}

/// How many bytes the key of a name takes in a bucket.
pub fn key_length(name: &Pattern) -> usize
    ensures length { result ≡ length (order_key name.now.text) }
    ensures most { result ≤ 248 }
{
    is_pattern(name);
    name.order_key().as_bytes().len()
}

/// The room that the keys of these entries take.
fn keys_room<T>(entries: &[Arc<Entry<T>>]) -> Room
    requires { length entries.now ≤ 16 }
    ensures room { result ≡ keys_room (map arc_value entries.now) }
    ensures rows { result.rows ≡ length entries.now }
    ensures bytes { result.bytes ≤ 248 * length entries.now }
{
    let mut room = Room::none();
    for entry in entries {
        room = room.plus(key_of(entry).as_bytes().len());
    }
    room
}

/// How many bytes the names of these entries have.
pub(crate) fn names_length<T>(entries: &[Arc<Entry<T>>]) -> usize
    requires { length entries.now ≤ 16 }
    ensures length { result ≡ names_length (map arc_value entries.now) }
    ensures most { result ≤ 246 * length entries.now }
{
    let mut total = 0;
    for entry in entries {
        total += entry.name.text().len();
    }
    total
}
