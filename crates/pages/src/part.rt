ghost use Rattle.std.specs.Prelude.{◌≡◌, ℕ, ◌+◌, ◌-◌, ◌^◌, ◌<◌, ◌≤◌, List, [], ◌∷◌, length, ◌++◌, map, drop, take, insert, remove, IfOk, Some, slice_set, slice_get, slice_index_or};
ghost use Rattle.std.specs.List.{flat_map, position_or_len};
ghost use Rattle.pages.specs.Rising.{Rises};
ghost use Rattle.std.specs.Arc.{arc_value};
ghost use Rattle.pages.specs.Parts.{change_items};

use crate::test::Test;
use std::alloc::{AllocError, Global};
use std::sync::Arc;

/// What a page holds: an item, a leaf with items kept in a way of its own, or a page below it. A part doesn't change,
/// and what takes its place shares with it what it can.
pub trait Part<T: Drop>: Drop {
    ghost items: { Self → List T };

    ghost most_placed: { ℕ };

    /// A part of one item.
    fn of(alloc: Global, item: Arc<T>) -> Result<Made<Self>, AllocError>
        ensures items { IfOk result (λ made. items made.what ≡ arc_value item ∷ []) }
        ensures placed { IfOk result (λ made. made.placed ≤ most_placed) };

    /// Parts of these items, in order, as the part sees fit to cut them.
    fn packed(alloc: Global, all: &[Arc<T>]) -> Result<Vec<Self>, AllocError>
        ensures { IfOk result (λ parts. flat_map items parts.items ≡ map arc_value all.now) };

    /// How many items it has.
    fn len(&self) -> usize
        ensures len { result ≡ length (items self.now) }
        ensures some { 0 < result };

    /// How many items some parts have.
    fn total(parts: &[Self]) -> usize
        requires { length (flat_map items parts.now) < 2 ^ 64 }
        ensures { result ≡ length (flat_map items parts.now) };

    /// One more owner of the same.
    fn share(&self) -> Result<Self, AllocError>
        ensures { IfOk result (λ part. items part ≡ items self.now) };

    /// The item at a place.
    fn at(&self, place: usize) -> &Arc<T>
        requires { place < length (items self.now) }
        ensures { slice_get (items self.now) place ≡ Some (arc_value result.now) };

    /// The part that holds a place, and the place in it.
    fn locate(parts: &[Self], place: usize) -> (usize, usize)
        requires { place < length (flat_map items parts.now) }
        ensures part { result.0 < length parts.now }
        ensures start { length (flat_map items (take result.0 parts.now)) + result.1 ≡ place }
        ensures within { (d : Self) → result.1 < length (items (slice_index_or parts.now result.0 d)) };

    /// Whether an item that comes in behind the last one is to stand in this part, and not in the one behind it. It is
    /// a hint: where the item stands in the list doesn't depend on it.
    fn takes(&self, item: &T) -> bool;

    /// The same with another item at a place.
    fn with_replaced(
        &self,
        alloc: Global,
        place: usize,
        item: Arc<T>,
    ) -> Result<Made<Self>, AllocError>
        requires { place < length (items self.now) }
        ensures items { IfOk result (λ made. items made.what ≡ slice_set (items self.now) place (arc_value item)) }
        ensures placed { IfOk result (λ made. made.placed ≤ most_placed) };

    /// What takes its place where an item comes in.
    fn with_inserted(
        &self,
        alloc: Global,
        place: usize,
        item: Arc<T>,
    ) -> Result<Made<Change<Self>>, AllocError>
        requires place { place ≤ length (items self.now) }
        requires room { length (items self.now) + 1 < 2 ^ 64 }
        ensures items { IfOk result (λ made. change_items items made.what ≡ insert (items self.now) place (arc_value item)) }
        ensures placed { IfOk result (λ made. made.placed ≤ most_placed) };

    /// What takes its place where an item goes.
    fn with_removed(&self, alloc: Global, place: usize) -> Result<Made<Change<Self>>, AllocError>
        requires { place < length (items self.now) }
        ensures items { IfOk result (λ made. change_items items made.what ≡ remove (items self.now) place) }
        ensures placed { IfOk result (λ made. made.placed ≤ most_placed) };
}

/// A part that is searched by a test of its items, and walked.
pub(crate) trait OpenPart<T: Drop>: Part<T> {
    /// The last item.
    fn last(&self) -> &Arc<T>
        ensures { slice_get (Self.items self.now) (length (Self.items self.now) - 1) ≡ Some (arc_value result.now) };

    /// The first place where a test holds, or the number of items.
    fn first<Q: Test<T>>(&self, test: &Q) -> usize
        requires { Rises (Q.passes test.now) (Self.items self.now) }
        ensures { result ≡ position_or_len (Q.passes test.now) (Self.items self.now) };

    /// The items from a place to the end of their page.
    fn run(parts: &[Self], place: usize) -> &[Arc<T>]
        requires { place < length (flat_map Self.items parts.now) }
        ensures items { drop place (flat_map Self.items parts.now) ≡ map arc_value result.now ++ drop (place + length result.now) (flat_map Self.items parts.now) }
        ensures some { 0 < length result.now }
        ensures within { place + length result.now ≤ length (flat_map Self.items parts.now) };
}

/// What takes the place of a part.
#[derive(Drop)]
pub enum Change<P> {
    Gone,
    One(P),
    Two(P, P),
}

/// What was made, and what its leaves placed for it: the bytes, say, that those of them took which aren't shared. A
/// leaf says itself what it counts.
#[derive(Drop)]
pub struct Made<C> {
    pub what: C,
    pub placed: usize,
}

// An item is a part of its own. Clauses on an owned `Arc` have to be written again where the trait has them.
impl<T: Drop> Part<T> for Arc<T> {
    ghost items = { λ item. arc_value item ∷ [] };

    ghost most_placed = { 0 };

    fn of(_alloc: Global, item: Arc<T>) -> Result<Made<Arc<T>>, AllocError>
        ensures items { IfOk result (λ made. arc_value made.what ∷ [] ≡ arc_value item ∷ []) }
        ensures placed { IfOk result (λ made. made.placed ≤ 0) }
    {
        Ok(Made {
            what: item,
            placed: 0,
        })
    }

    fn packed(alloc: Global, all: &[Arc<T>]) -> Result<Vec<Arc<T>>, AllocError> {
        let mut parts = Vec::with_capacity(alloc, all.len())?;
        for item in all {
            parts.push(Arc::try_clone(item)?)?;
        }
        Ok(parts)
    }

    fn len(&self) -> usize {
        1
    }

    fn total(parts: &[Arc<T>]) -> usize {
        parts.len()
    }

    fn share(&self) -> Result<Arc<T>, AllocError> {
        Arc::try_clone(self)
    }

    fn at(&self, _place: usize) -> &Arc<T> {
        self
    }

    fn locate(_parts: &[Arc<T>], place: usize) -> (usize, usize) {
        (place, 0)
    }

    fn takes(&self, _item: &T) -> bool {
        true
    }

    fn with_replaced(
        &self,
        _alloc: Global,
        place: usize,
        item: Arc<T>,
    ) -> Result<Made<Arc<T>>, AllocError>
        requires { place < 1 }
        ensures items { IfOk result (λ made. arc_value made.what ∷ [] ≡ slice_set (arc_value self.now ∷ []) place (arc_value item)) }
        ensures placed { IfOk result (λ made. made.placed ≤ 0) }
    {
        Ok(Made {
            what: item,
            placed: 0,
        })
    }

    fn with_inserted(
        &self,
        _alloc: Global,
        place: usize,
        item: Arc<T>,
    ) -> Result<Made<Change<Arc<T>>>, AllocError>
        requires { place ≤ 1 }
        ensures items { IfOk result (λ made. change_items (λ part. arc_value part ∷ []) made.what ≡ insert (arc_value self.now ∷ []) place (arc_value item)) }
        ensures placed { IfOk result (λ made. made.placed ≤ 0) }
    {
        let own = Arc::try_clone(self)?;
        let what = if place == 0 {
            Change::Two(item, own)
        } else {
            Change::Two(own, item)
        };
        Ok(Made { what, placed: 0 })
    }

    fn with_removed(
        &self,
        _alloc: Global,
        _place: usize,
    ) -> Result<Made<Change<Arc<T>>>, AllocError> {
        Ok(Made {
            what: Change::Gone,
            placed: 0,
        })
    }
}

impl<T: Drop> OpenPart<T> for Arc<T> {
    fn last(&self) -> &Arc<T> {
        self
    }

    fn first<Q: Test<T>>(&self, test: &Q) -> usize {
        if test.passes(self) { 0 } else { 1 }
    }

    fn run(parts: &[Arc<T>], place: usize) -> &[Arc<T>] {
        let (_, run) = parts.split_at(place);
        run
    }
}
