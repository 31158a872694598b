ghost use Rattle.std.specs.Prelude.{◌≡◌, ◌+◌, ◌-◌, ◌*◌, ◌^◌, ◌<◌, ◌≤◌, [], length, max, find, IsOk, IfOk, OnOk, OnErr, Some, is_some, if◌then◌else◌};
ghost use Rattle.std.specs.Option.{option_map};
ghost use Rattle.generic_names.specs.Best.{best, IsInOrder, AreNamed};
ghost use Rattle.std.specs.List.{slice_get};

use crate::entry::Entry;
use crate::entry_list::EntryList;
use crate::entry_slots::EntrySlots;
use crate::keyed_entry::KeyedEntry;
use crate::search::{first_that_covers, first_under, is_pattern, place_for, place_of};
use crate::steps::Steps;
use generic_names::{Pattern, Resource};
use std::alloc::{AllocError, Global};
use std::marker::Model;
use std::sync::ledger::Ledger;

/// Want of memory.
pub type NoMemory = AllocError;

/// Entries in the order of specificity of their names, which are of one kind.
#[derive(Drop)]
pub struct Index<T> {
    /// The entries by their places in the order.
    slots: EntrySlots<T>,
}

impl<T> Model for Index<T> {
    ghost use Rattle.generic_names.specs.Best.{IsInOrder, AreNamed};
    ghost use Rattle.profile_index.specs.Indexed.{Indexed, name_of};

    ghost Value = { Indexed T };

    ghost view = { λ x. x.slots };

    ghost invariant = { λ x. IsInOrder name_of x.slots.entries × AreNamed name_of x.slots.entries };
}

impl<T> Index<T> {
    ghost use Rattle.profile_index.specs.Indexed.{name_of, has_name, is_under, AreOf, IsAbsent, IsPlaceOf, with_entry, put_entry, without};

    /// An index without entries. It takes no memory yet.
    pub fn new(alloc: Global) -> Result<Index<T>, NoMemory>
        ensures ok { IsOk result }
        ensures empty { IfOk result (λ index. index.entries ≡ []) }
        ensures none_spare { IfOk result (λ index. index.spare ≡ 0) }
    {
        Ok(Index {
            slots: EntrySlots::new(alloc),
        })
    }

    /// Makes room for at least this many entries more.
    pub fn reserve(&mut self, n: usize) -> Result<(), NoMemory>
        ensures spare { OnOk result (self.new.spare ≡ max self.old.spare n) }
        ensures entries { self.new.entries ≡ self.old.entries }
        ensures err { OnErr result (self.new.spare ≡ self.old.spare) }
        ensures enough { n ≤ self.old.spare → IsOk result }
    {
        self.slots.reserve(n)
    }

    /// How many entries there are. They stand in the order of specificity, so no name comes twice.
    pub fn len(&self) -> usize
        ensures len { result ≡ length self.now.entries }
        ensures ordered { IsInOrder name_of self.now.entries }
        ensures named { AreNamed name_of self.now.entries }
    {
        self.slots.len()
    }

    /// How many entries can be inserted before the next `reserve`.
    pub fn spare(&self) -> usize
        ensures { result ≡ self.now.spare }
    {
        self.slots.spare()
    }

    /// The name and the item at a place.
    pub fn at(&self, place: usize) -> (&Pattern, &T)
        requires { place < length self.now.entries }
        ensures { slice_get self.now.entries place ≡ Some (record { name = result.0.now; item = result.1.now }) }
    {
        let entry = self.slots.entry(place);
        (&entry.name, &entry.item)
    }

    /// The most specific entry that covers a name. An entry before the very name isn't looked at, and of
    /// those behind it whole runs are passed over that can't cover it: those that differ from it by their
    /// first byte, or at any later one before the first `*`. Entries that differ behind a `*` or `**` alone
    /// are looked at one by one.
    pub fn find(&self, name: &Resource) -> Option<usize>
        requires { AreOf name.now.kind self.now.entries }
        ensures { IsPlaceOf self.now.entries (best name_of self.now.entries name.now) result }
    {
        first_that_covers(&self.slots, name)
    }

    /// The entry of the very name, in as many comparisons as the number of entries has binary digits.
    pub fn find_discrete<L: Ledger>(&self, name: &Resource, steps: &mut Steps<L>) -> Option<usize>
        requires { AreOf name.now.kind self.now.entries }
        ensures place { IsPlaceOf self.now.entries (find (has_name name.now) self.now.entries) result }
        ensures onward { steps.old ≤ steps.new }
        ensures cost { 2 ^ (steps.new - steps.old) ≤ 2 * length self.now.entries + 1 }
    {
        place_of(&self.slots, name, steps)
    }

    /// The entry of a pattern's name, generic or not.
    pub fn find_named(&self, name: &Pattern) -> Option<usize>
        requires { AreOf name.now.kind self.now.entries }
        ensures { IsPlaceOf self.now.entries (find (has_name name.now) self.now.entries) result }
    {
        match place_for(&self.slots, name, &name.order_key()) {
            Ok(place) => Some(place),
            Err(_) => None,
        }
    }

    /// The first entry whose name has that first qualifier. Those that have it stand together, so this is one search.
    pub fn first_under(&self, qualifier: &[u8]) -> Option<usize>
        requires { length qualifier.now ≤ 246 }
        ensures { IsPlaceOf self.now.entries (find (is_under qualifier.now) self.now.entries) result }
    {
        first_under(&self.slots, qualifier)
    }

    /// Adds an entry at its place in the order. It takes no memory. No other entry moves: of the numbers of the slots
    /// 256 move at most, and one of each 256 behind.
    pub fn insert(&mut self, name: Pattern, item: T)
        requires room { 0 < self.old.spare }
        requires kind { AreOf name.kind self.old.entries }
        requires absent { IsAbsent name self.old.entries }
        ensures entries { self.new.entries ≡ with_entry (record { name = name; item = item }) self.old.entries }
        ensures kinds { AreOf name.kind self.new.entries }
        ensures spare { self.new.spare + 1 ≡ self.old.spare }
    {
        is_pattern(&name);
        let key = name.order_key();
        let place = self.slots.end_below(&key);
        self.slots
            .insert(place, KeyedEntry::with_key(key, Entry { name, item }));
    }

    /// Puts an item in the place of the one of its name, which is answered, or else at its name's place in the order.
    /// It takes no memory, and nothing moves where the name is there.
    pub fn put(&mut self, name: Pattern, item: T) -> Option<T>
        requires room { IsAbsent name self.old.entries → 0 < self.old.spare }
        requires kind { AreOf name.kind self.old.entries }
        ensures item { result ≡ option_map (λ e. e.item) (find (has_name name) self.old.entries) }
        ensures entries { self.new.entries ≡ put_entry (record { name = name; item = item }) self.old.entries }
        ensures kinds { AreOf name.kind self.new.entries }
        ensures spare { self.new.spare + (if is_some result then 0 else 1) ≡ self.old.spare }
    {
        is_pattern(&name);
        let key = name.order_key();
        match place_for(&self.slots, &name, &key) {
            Ok(place) => Some(self.slots.replace(place, item)),
            Err(place) => {
                self.slots
                    .insert(place, KeyedEntry::with_key(key, Entry { name, item }));
                None
            }
        }
    }

    /// Takes the entry of a name out, if there is one.
    pub fn remove(&mut self, name: &Pattern) -> Option<T>
        requires { AreOf name.now.kind self.old.entries }
        ensures item { result ≡ option_map (λ e. e.item) (find (has_name name.now) self.old.entries) }
        ensures entries { self.new.entries ≡ without name.now self.old.entries }
        ensures kinds { AreOf name.now.kind self.new.entries }
        ensures spare { self.new.spare ≡ self.old.spare + (if is_some result then 1 else 0) }
    {
        match place_for(&self.slots, name, &name.order_key()) {
            Ok(place) => Some(self.slots.remove(place)),
            Err(_) => None,
        }
    }
}
