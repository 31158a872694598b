ghost use Rattle.std.specs.Prelude.{◌≡◌, ◌+◌, ◌<◌, ◌≤◌, ◌↔◌, [], ◌++◌, length, map, drop, insert, remove, IfOk, IsTrue, Some, slice_set, slice_get};
ghost use Rattle.std.specs.List.{position_or_len};
ghost use Rattle.std.specs.Arc.{arc_value};
ghost use Rattle.std.specs.Option.{option_copied};
ghost use Rattle.pages.specs.Rising.{Rises, reaches};
ghost use Rattle.pages.specs.PartAt.{IsPartAt};

use crate::keyed_part::KeyedPart;
use crate::part::{Made, OpenPart, Part};
use crate::search::{ByTest, first_of, found_of, is_number};
use crate::search_key::SearchKey;
use crate::shared_page::SharedPage;
use crate::splice::{inserted, item_at, part_at, removed, replaced, share_all};
use crate::test::Test;
use crate::walk::Walk;
use std::alloc::{AllocError, Global};
use std::marker::Model;
use std::sync::Arc;

/// Want of memory.
pub type NoMemory = AllocError;

/// A list of items in order, which doesn't change. A changed version is a list of its own, and shares with this one all
/// pages but those that lead to the change. A call that answers [`NoMemory`] leaves nothing behind.
///
/// The leaves `L` say how a page keeps its items: a [`SharedPage`] of them, where nothing else is said, or a [`Part`]
/// of the caller's own.
///
/// Pages are not merged: after many removals a list has as many pages at the top as before, and [`Pages::packed`] makes
/// it dense again.
#[derive(Drop)]
pub struct Pages<T: Drop, L: Part<T> = SharedPage<T, Arc<T>>> {
    /// The pages of leaves, in order, any number of them.
    pages: Vec<SharedPage<T, L>>,
    /// How many items are in them.
    len: usize,
}

impl<T: Drop, L: Part<T>> Model for Pages<T, L> {
    ghost use Rattle.std.specs.Prelude.{◌≡◌, List, length};
    ghost use Rattle.std.specs.List.{flat_map};

    ghost Value = { List T };

    ghost view = { λ list. flat_map (λ page. page) list.pages.items };

    ghost invariant = { λ list. list.len ≡ length (flat_map (λ page. page) list.pages.items) };
}

impl<T: Drop, L: Part<T>> Pages<T, L> {
    /// A list without items, of any leaves. It takes no memory.
    pub fn empty(alloc: Global) -> Pages<T, L>
        ensures { result ≡ [] }
    {
        Pages {
            pages: Vec::new(alloc),
            len: 0,
        }
    }

    /// A list of these items, of which it becomes one more owner, in any leaves.
    pub fn packed(alloc: Global, items: &[Arc<T>]) -> Result<Pages<T, L>, NoMemory>
        ensures { IfOk result (λ list. list ≡ map arc_value items.now) }
    {
        let len = items.len();
        let pages = SharedPage::packed(alloc, items)?;
        Ok(Pages { pages, len })
    }

    /// The same list once more. Only the pages at the top are counted up.
    pub fn share(&self, alloc: Global) -> Result<Pages<T, L>, NoMemory>
        ensures { IfOk result (λ list. list ≡ self.now) }
    {
        let mut pages = Vec::with_capacity(alloc, self.pages.len())?;
        share_all(&self.pages, &mut pages)?;
        Ok(Pages {
            pages,
            len: self.len,
        })
    }

    /// How many items there are. It is kept.
    pub fn len(&self) -> usize
        ensures { result ≡ length self.now }
    {
        self.len
    }

    /// Whether there are no items.
    pub fn is_empty(&self) -> bool
        ensures { IsTrue result ↔ (self.now ≡ []) }
    {
        self.len == 0
    }

    /// The item at a place.
    pub fn at(&self, place: usize) -> &T
        requires { place < length self.now }
        ensures { slice_get self.now place ≡ Some result.now }
    {
        self.shared_at(place)
    }

    /// The owner of the item at a place, of which `Arc::try_clone` makes one more.
    pub fn shared_at(&self, place: usize) -> &Arc<T>
        requires { place < length self.now }
        ensures { slice_get self.now place ≡ Some (arc_value result.now) }
    {
        item_at(&self.pages, place)
    }

    /// The leaf in which the item at a place stands, and the place in it. Who goes on behind the leaf's last item comes
    /// to each leaf once.
    pub fn leaf_at(&self, place: usize) -> (&L, usize)
        requires { place < length self.now }
        ensures { IsPartAt self.now place (L.items result.0.now) result.1 }
    {
        let (page, rest) = part_at(&self.pages, place);
        page.part_at(rest)
    }

    /// The list with another item at a place.
    pub fn with_replaced(
        &self,
        alloc: Global,
        place: usize,
        item: Arc<T>,
    ) -> Result<Pages<T, L>, NoMemory>
        requires { place < length self.now }
        ensures { IfOk result (λ list. list ≡ slice_set self.now place (arc_value item)) }
    {
        Ok(self.replace(alloc, place, item)?.what)
    }

    /// The list with one more item at a place. A list of as many items as a `usize` can count has no room.
    pub fn with_inserted(
        &self,
        alloc: Global,
        place: usize,
        item: Arc<T>,
    ) -> Result<Pages<T, L>, NoMemory>
        requires { place ≤ length self.now }
        ensures { IfOk result (λ list. list ≡ insert self.now place (arc_value item)) }
    {
        Ok(self.insert(alloc, place, item)?.what)
    }

    /// The list without the item at a place. A page that becomes empty goes; pages are not merged.
    pub fn with_removed(&self, alloc: Global, place: usize) -> Result<Pages<T, L>, NoMemory>
        requires { place < length self.now }
        ensures { IfOk result (λ list. list ≡ remove self.now place) }
    {
        Ok(self.remove(alloc, place)?.what)
    }

    /// The list with another item at a place, and what the leaves placed for it.
    pub fn replace(
        &self,
        alloc: Global,
        place: usize,
        item: Arc<T>,
    ) -> Result<Made<Pages<T, L>>, NoMemory>
        requires { place < length self.now }
        ensures items { IfOk result (λ made. made.what ≡ slice_set self.now place (arc_value item)) }
        ensures placed { IfOk result (λ made. made.placed ≤ L.most_placed) }
    {
        let made = replaced(alloc, &self.pages, place, item)?;
        let what = Pages {
            pages: made.what,
            len: self.len,
        };
        Ok(Made {
            what,
            placed: made.placed,
        })
    }

    /// The list with one more item at a place, as `with_inserted` makes it, and what the leaves placed for it.
    pub fn insert(
        &self,
        alloc: Global,
        place: usize,
        item: Arc<T>,
    ) -> Result<Made<Pages<T, L>>, NoMemory>
        requires { place ≤ length self.now }
        ensures items { IfOk result (λ made. made.what ≡ insert self.now place (arc_value item)) }
        ensures placed { IfOk result (λ made. made.placed ≤ L.most_placed) }
    {
        if self.len == usize::MAX {
            return Err(AllocError);
        }
        let made = inserted(alloc, &self.pages, place, item)?;
        let what = Pages {
            pages: made.what,
            len: self.len + 1,
        };
        Ok(Made {
            what,
            placed: made.placed,
        })
    }

    /// The list without the item at a place, and what the leaves placed for it.
    pub fn remove(&self, alloc: Global, place: usize) -> Result<Made<Pages<T, L>>, NoMemory>
        requires { place < length self.now }
        ensures items { IfOk result (λ made. made.what ≡ remove self.now place) }
        ensures placed { IfOk result (λ made. made.placed ≤ L.most_placed) }
    {
        let made = removed(alloc, &self.pages, place)?;
        let what = Pages {
            pages: made.what,
            len: self.len - 1,
        };
        Ok(Made {
            what,
            placed: made.placed,
        })
    }
}

impl<T: Drop, L: KeyedPart<T>> Pages<T, L> {
    /// The first place whose key isn't lower than this one, or the number of items. It compares as many keys as the
    /// number of items has binary digits, and a few more.
    pub fn first_by_key(&self, key: &SearchKey<'_>) -> usize
        requires { Rises (reaches L.key_of key.now) self.now }
        ensures place { result ≡ position_or_len (reaches L.key_of key.now) self.now }
        ensures within { result ≤ length self.now }
    {
        is_number(self.len);
        first_of(&self.pages, key)
    }

    /// The item at that place, if there is one. It is cheaper than its place, for which items are counted.
    pub fn found_by_key(&self, key: &SearchKey<'_>) -> Option<&T>
        requires { Rises (reaches L.key_of key.now) self.now }
        ensures { option_copied result ≡ slice_get self.now (position_or_len (reaches L.key_of key.now) self.now) }
    {
        let item = found_of(&self.pages, key)?;
        Some(item)
    }
}

impl<T: Drop> Pages<T> {
    ghost use Rattle.pages.specs.Walk.{left};

    /// A list without items. It takes no memory.
    pub fn new(alloc: Global) -> Pages<T>
        ensures { result ≡ [] }
    {
        Pages::empty(alloc)
    }

    /// A list of these items, each of which takes a block of memory of its own.
    pub fn of(alloc: Global, items: Vec<T>) -> Result<Pages<T>, NoMemory>
        ensures { IfOk result (λ list. list ≡ items.items) }
    {
        let mut shared = Vec::with_capacity(alloc, items.len())?;
        for item in items {
            shared.push(Arc::new(alloc, item)?)?;
        }
        Pages::of_shared(alloc, &shared)
    }

    /// A list of these items, of which it becomes one more owner.
    pub fn of_shared(alloc: Global, items: &[Arc<T>]) -> Result<Pages<T>, NoMemory>
        ensures { IfOk result (λ list. list ≡ map arc_value items.now) }
    {
        Pages::packed(alloc, items)
    }

    /// The items in order.
    pub fn iter(&self) -> Walk<'_, T>
        ensures { left result ≡ self.now }
    {
        Walk::new(self)
    }

    /// The first place where a test holds, or the number of items. It makes as many tests as the number of
    /// items has binary digits, and a few more.
    pub fn first<Q: Test<T>>(&self, test: &Q) -> usize
        requires { Rises (Q.passes test.now) self.now }
        ensures place { result ≡ position_or_len (Q.passes test.now) self.now }
        ensures within { result ≤ length self.now }
    {
        is_number(self.len);
        first_of(&self.pages, &ByTest { test })
    }

    /// The items from a place to the end of their leaf.
    pub(crate) fn leaf_from(&self, place: usize) -> &[Arc<T>]
        requires { place < length self.now }
        ensures items { drop place self.now ≡ map arc_value result.now ++ drop (place + length result.now) self.now }
        ensures some { 0 < length result.now }
        ensures within { place + length result.now ≤ length self.now }
    {
        SharedPage::run(&self.pages, place)
    }
}
