ghost use Rattle.std.specs.Prelude.{◌≡◌, ℕ, ◌+◌, ◌<◌, ◌≤◌, true, false, [], length, map, max, get_or, slice_set, IsOk, OnOk, OnErr, Some};
ghost use Rattle.std.specs.List.{AllByRecursion, AllWithin, slice_get, insert, remove};
ghost use Rattle.generic_names.specs.Best.{IsInOrder, AreNamed};
ghost use Rattle.generic_names.specs.OrderKey.{is_lower};
ghost use Rattle.generic_names.specs.Laws.{IsPattern};
ghost use Rattle.profile_index.specs.declared.entry.Entry.{Entry};
ghost use Rattle.profile_index.specs.Buckets.{key_of};
ghost use Rattle.profile_index.specs.EntrySlots.{in_slots, numbers, renamed_slot, HaveBegins};
ghost use Rattle.profile_index.specs.Indexed.{name_of};
ghost use Rattle.pages.specs.KeyBegin.{begin_of, AreBytes};

use crate::entry::Entry;
use crate::entry_list::EntryList;
use crate::keyed_entry::KeyedEntry;
use generic_names::OrderKey;
use pages::begin_of;
use std::alloc::{AllocError, Global};
use std::marker::Model;
use tiered_list::TieredList;

/// The most entries that there may be: the numbers of their slots have 32 bits.
const MOST: usize = 4_294_967_295;

/// A slot by its number, with the begin of its entry's key: where that decides, a step of a search reads nothing else.
#[derive(Clone, Copy)]
pub(crate) struct Slot {
    /// The first eight bytes of the key as a number.
    begin: u64,
    /// The number of the slot.
    number: u32,
}

/// Entries by their places. They stand in slots of no order, and the numbers of the slots in the order of
/// the entries, so that an entry goes in or out without moving the others.
#[derive(Drop)]
pub(crate) struct EntrySlots<T> {
    /// The entries with the keys of their names, in no order.
    slots: Vec<KeyedEntry<T>>,
    /// The slots by their numbers, in the order of the entries.
    order: TieredList<Slot>,
    /// How many entries can be put in without memory.
    spare: usize,
}

impl<T> Model for EntrySlots<T> {
    ghost use Rattle.std.specs.Prelude.{◌+◌, ◌≤◌, vec_len};
    ghost use Rattle.std.specs.Vec.{vec_capacity};
    ghost use Rattle.profile_index.specs.Indexed.{Indexed};
    ghost use Rattle.profile_index.specs.EntrySlots.{in_slots, numbers, IsKept, HaveBegins};

    ghost Value = { Indexed T };

    ghost view = { λ s. record { entries = in_slots s.slots.items (numbers s.order.items); spare = s.spare } };

    ghost invariant = { λ s. IsKept s.slots.items (numbers s.order.items) × HaveBegins s.slots.items s.order.items × (vec_len s.slots + s.spare ≤ vec_capacity s.slots) × (s.spare ≤ s.order.spare) × (vec_len s.slots + s.spare ≤ 4294967295) };
}

impl<T> EntrySlots<T> {
    /// Without entries. It takes no memory yet.
    pub(crate) fn new(alloc: Global) -> EntrySlots<T>
        ensures empty { result.entries ≡ [] }
        ensures none_spare { result.spare ≡ 0 }
    {
        EntrySlots {
            slots: Vec::new(alloc),
            order: TieredList::new(alloc),
            spare: 0,
        }
    }

    /// Makes room for at least this many entries more. There is none for more than `MOST` in all.
    pub(crate) fn reserve(&mut self, n: usize) -> Result<(), AllocError>
        ensures spare { OnOk result (self.new.spare ≡ max self.old.spare n) }
        ensures entries { self.new.entries ≡ self.old.entries }
        ensures err { OnErr result (self.new.spare ≡ self.old.spare) }
        ensures enough { n ≤ self.old.spare → IsOk result }
    {
        if self.spare < n {
            if n > MOST - self.slots.len() {
                return Err(AllocError);
            }
            self.slots.reserve(n)?;
            self.order.reserve(n)?;
            self.spare = n;
        }
        Ok(())
    }

    /// How many entries there are.
    pub(crate) fn len(&self) -> usize
        ensures { result ≡ length self.now.entries }
    {
        self.order.len()
    }

    /// How many entries can be put in without memory.
    pub(crate) fn spare(&self) -> usize
        ensures { result ≡ self.now.spare }
    {
        self.spare
    }

    /// The entry at a place.
    pub(crate) fn entry(&self, place: usize) -> &Entry<T>
        requires { place < length self.now.entries }
        ensures there { slice_get self.now.entries place ≡ Some result.now }
        ensures value { result.now ≡ get_or self.now.entries place result.now }
    {
        self.keyed(place).entry()
    }

    /// The same, with the key of its name.
    pub(crate) fn keyed(&self, place: usize) -> &KeyedEntry<T>
        requires { place < length self.now.entries }
        ensures there { slice_get self.now.entries place ≡ Some result.now }
        ensures value { result.now ≡ get_or self.now.entries place result.now }
    {
        &self.slots[self.order.at(place).number as usize]
    }

    /// Puts an entry in at a place.
    pub(crate) fn insert(&mut self, place: usize, entry: KeyedEntry<T>)
        requires room { 0 < self.old.spare }
        requires place { place ≤ length self.old.entries }
        ensures entries { self.new.entries ≡ insert self.old.entries place entry }
        ensures spare { self.new.spare + 1 ≡ self.old.spare }
    {
        let number = self.slots.len() as u32;
        let begin = begin_of(entry.key().as_bytes());
        self.slots.push(entry).unwrap();
        self.order.insert(place, Slot { begin, number });
        self.spare -= 1;
    }

    /// Puts an item in the place of another, which it gives back. Nothing moves.
    pub(crate) fn replace(&mut self, place: usize, item: T) -> T
        requires { place < length self.old.entries }
        ensures item { (d : Entry T) → result ≡ (get_or self.old.entries place d).item }
        ensures entries { (d : Entry T) → self.new.entries ≡ slice_set self.old.entries place (record { name = (get_or self.old.entries place d).name; item = item }) }
        ensures spare { self.new.spare ≡ self.old.spare }
    {
        let slot = self.order.at(place).number as usize;
        self.slots[slot].replace(item)
    }

    /// Takes the entry at a place out, and answers its item. The last slot's entry moves into the slot that becomes
    /// free, and its place is found by a search in the order.
    pub(crate) fn remove(&mut self, place: usize) -> T
        requires within { place < length self.old.entries }
        requires ordered { IsInOrder name_of self.old.entries }
        requires named { AreNamed name_of self.old.entries }
        ensures item { (d : Entry T) → result ≡ (get_or self.old.entries place d).item }
        ensures entries { self.new.entries ≡ remove self.old.entries place }
        ensures spare { self.new.spare ≡ self.old.spare + 1 }
    {
        let slot = self.order.remove(place);
        let last = self.slots.len() - 1;
        let moved = end_below(&self.slots, &self.order, self.slots[last].key());
        let entry = self.slots.swap_remove(slot.number as usize);
        rename(&mut self.order, moved, last as u32, slot.number);
        self.spare += 1;
        entry.into_item()
    }
}

impl<T> EntryList<T> for EntrySlots<T> {
    ghost entries = { λ slots. slots.entries };

    fn len(&self) -> usize {
        EntrySlots::len(self)
    }

    fn entry(&self, place: usize) -> &Entry<T> {
        EntrySlots::entry(self, place)
    }

    fn end_below(&self, key: &OrderKey) -> usize {
        end_below(&self.slots, &self.order, key)
    }
}

/// Where the entries in these slots end whose names have lower keys than this one.
fn end_below<T>(slots: &[KeyedEntry<T>], order: &TieredList<Slot>, key: &OrderKey) -> usize
    requires there { AllByRecursion (λ number. number < length slots.now) (numbers order.now.items) }
    requires begins { HaveBegins slots.now order.now.items }
    requires ordered { IsInOrder name_of (in_slots slots.now (numbers order.now.items)) }
    requires named { AreNamed name_of (in_slots slots.now (numbers order.now.items)) }
    ensures within { result ≤ length order.now.items }
    ensures below { AllWithin (λ e. is_lower e.name key.now ≡ true) (in_slots slots.now (numbers order.now.items)) 0 result }
    ensures above { AllWithin (λ e. is_lower e.name key.now ≡ false) (in_slots slots.now (numbers order.now.items)) result (length order.now.items) }
{
    let begin = begin_of(key.as_bytes());
    let mut low = 0;
    let mut high = order.len();
    while low < high {
        let middle = low + (high - low) / 2;
        if is_lower(slots, *order.at(middle), begin, key) {
            low = middle + 1;
        } else {
            high = middle;
        }
    }
    low
}

/// Whether the key of a slot's entry is lower than this one, which has that begin. Where the begins differ, the entry
/// isn't looked at.
fn is_lower<T>(slots: &[KeyedEntry<T>], slot: Slot, begin: u64, key: &OrderKey) -> bool
    requires there { slot.number < length slots.now }
    requires begin { begin ≡ begin_of key.now }
    requires bytes { AreBytes key.now }
    ensures { (e : Entry T) → slice_get slots.now slot.number ≡ Some e → slot.begin ≡ begin_of (key_of e) → IsPattern e.name → result ≡ is_lower e.name key.now }
{
    if slot.begin == begin {
        return slots[slot.number as usize].is_lower(key);
    }
    slot.begin < begin
}

/// Gives the slot of that number another one. If it is there at all, it is at that place.
fn rename(order: &mut TieredList<Slot>, place: usize, from: u32, to: u32)
    requires { (k : ℕ) → slice_get (numbers order.old.items) k ≡ Some from → k ≡ place }
    ensures items { order.new.items ≡ map (λ slot. renamed_slot from to slot) order.old.items }
    ensures spare { order.new.spare ≡ order.old.spare }
{
    if place < order.len() && order.at(place).number == from {
        let begin = order.at(place).begin;
        order.replace(place, Slot { begin, number: to });
    }
}
