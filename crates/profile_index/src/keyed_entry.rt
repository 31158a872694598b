ghost use Rattle.std.specs.Prelude.{◌≡◌};
ghost use Rattle.generic_names.specs.Laws.{IsPattern};
ghost use Rattle.generic_names.specs.OrderKey.{is_lower};

use crate::entry::Entry;
use crate::search::is_pattern;
use generic_names::OrderKey;
use std::cmp::Ordering;
use std::marker::Model;
use std::mem;

/// An entry with the key of its name. The key comes first, and a step of a search reads nothing else.
#[derive(Drop)]
pub(crate) struct KeyedEntry<T> {
    /// The key of the entry's name.
    key: OrderKey,
    /// The entry.
    entry: Entry<T>,
}

impl<T> Model for KeyedEntry<T> {
    ghost use Rattle.std.specs.Prelude.{◌≡◌};
    ghost use Rattle.generic_names.specs.Laws.{IsPattern};
    ghost use Rattle.generic_names.specs.OrderKey.{order_key};
    ghost use Rattle.profile_index.specs.declared.entry.Entry.{Entry};

    ghost Value = { Entry T };

    ghost view = { λ k. k.entry };

    ghost invariant = { λ k. (k.key ≡ order_key k.entry.name.text) × IsPattern k.entry.name };
}

impl<T> KeyedEntry<T> {
    ghost use Rattle.std.specs.Cmp.Lexicographic.{slice_cmp};
    ghost use Rattle.std.specs.Ordering.{nat_cmp};
    ghost use Rattle.generic_names.specs.OrderKey.{order_key};

    /// An entry, of whose name this is the key.
    pub(crate) fn with_key(key: OrderKey, entry: Entry<T>) -> KeyedEntry<T>
        requires { key ≡ order_key entry.name.text }
        ensures { result ≡ entry }
    {
        is_pattern(&entry.name);
        KeyedEntry { key, entry }
    }

    /// The entry.
    pub(crate) fn entry(&self) -> &Entry<T>
        ensures { result.now ≡ self.now }
    {
        &self.entry
    }

    /// The key of its name.
    pub(crate) fn key(&self) -> &OrderKey
        ensures key { result.now ≡ order_key self.now.name.text }
        ensures named { IsPattern self.now.name }
    {
        &self.key
    }

    /// Whether its key is lower than this one.
    pub(crate) fn is_lower(&self, key: &OrderKey) -> bool
        ensures { result ≡ is_lower self.now.name key.now }
    {
        self.key.is_before(key)
    }

    /// Which is lower, its key or this one.
    pub(crate) fn order(&self, key: &OrderKey) -> Ordering
        ensures { result ≡ slice_cmp nat_cmp (order_key self.now.name.text) key.now }
    {
        self.key.order(key)
    }

    /// Puts another item in the place of its own, which it gives back. The name and the key stay.
    pub(crate) fn replace(&mut self, item: T) -> T
        ensures item { result ≡ self.old.item }
        ensures entry { self.new ≡ record { name = self.old.name; item = item } }
    {
        mem::replace(&mut self.entry.item, item)
    }

    /// The item, without its name.
    pub(crate) fn into_item(self) -> T
        ensures { result ≡ self.item }
    {
        self.entry.item
    }
}
