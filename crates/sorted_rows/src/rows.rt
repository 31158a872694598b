ghost use Rattle.std.specs.Prelude.{◌≡◌, ◌<◌, ◌↔◌, List, [], length, IfOk, IfErr, IsTrue, Some, slice_get, find};
ghost use Rattle.std.specs.Option.{option_copied, option_map};
ghost use Rattle.std.specs.Arc.{arc_value};
ghost use Rattle.pages.specs.Walk.{left};
ghost use Rattle.sorted_rows.specs.Sorted.{IsInOrder, has_key, with_row, without_row};
ghost use Rattle.sorted_rows.specs.Found.{IsFoundAt, IsMissingAt};

use crate::keyed::{IsFrom, Keyed};
use pages::{NoMemory, Pages, Walk};
use std::alloc::Global;
use std::marker::Model;
use std::sync::Arc;

/// Rows in the order of their keys. A changed version shares with this one all but what leads to the change.
#[derive(Drop)]
pub struct SortedRows<R: Keyed> {
    /// The rows in order.
    rows: Pages<R>,
}

impl<R: Keyed> Model for SortedRows<R> {
    ghost use Rattle.std.specs.Prelude.{List};
    ghost use Rattle.sorted_rows.specs.Sorted.{IsInOrder};

    ghost Value = { List R };

    ghost view = { λ table. table.rows };

    ghost invariant = { λ table. IsInOrder R.key table.rows };
}

impl<R: Keyed> SortedRows<R> {
    /// A table without rows. It takes no memory.
    pub fn new(alloc: Global) -> SortedRows<R>
        ensures { result ≡ [] }
    {
        SortedRows {
            rows: Pages::new(alloc),
        }
    }

    /// A table of these rows.
    pub fn of(alloc: Global, rows: Vec<R>) -> Result<SortedRows<R>, NoMemory>
        requires { IsInOrder R.key rows.items }
        ensures { IfOk result (λ table. table ≡ rows.items) }
    {
        Ok(SortedRows {
            rows: Pages::of(alloc, rows)?,
        })
    }

    /// The same table once more.
    pub fn share(&self, alloc: Global) -> Result<SortedRows<R>, NoMemory>
        ensures { IfOk result (λ table. table ≡ self.now) }
    {
        Ok(SortedRows {
            rows: self.rows.share(alloc)?,
        })
    }

    /// How many rows there are.
    pub fn len(&self) -> usize
        ensures len { result ≡ length self.now }
        ensures ordered { IsInOrder R.key self.now }
    {
        self.rows.len()
    }

    /// Whether there are no rows.
    pub fn is_empty(&self) -> bool
        ensures { IsTrue result ↔ (self.now ≡ []) }
    {
        self.rows.is_empty()
    }

    /// The row at a place.
    pub fn at(&self, place: usize) -> &R
        requires { place < length self.now }
        ensures { slice_get self.now place ≡ Some result.now }
    {
        self.rows.at(place)
    }

    /// The rows in order.
    pub fn iter(&self) -> Walk<'_, R>
        ensures { left result ≡ self.now }
    {
        self.rows.iter()
    }

    /// The row of a key.
    pub fn find(&self, key: &[u8]) -> Option<&R>
        ensures { option_copied result ≡ find (has_key R.key key.now) self.now }
    {
        match self.place_of(key) {
            Ok(place) => Some(self.rows.at(place)),
            Err(_) => None,
        }
    }

    /// The owner of the row of a key, of which `Arc::try_clone` makes one more.
    pub fn find_shared(&self, key: &[u8]) -> Option<&Arc<R>>
        ensures { option_map (λ owner. arc_value owner.now) result ≡ find (has_key R.key key.now) self.now }
    {
        match self.place_of(key) {
            Ok(place) => Some(self.rows.shared_at(place)),
            Err(_) => None,
        }
    }

    /// The table with a row, in place of the one that had its key.
    pub fn with_row(&self, alloc: Global, row: Arc<R>) -> Result<SortedRows<R>, NoMemory>
        ensures { IfOk result (λ table. table ≡ with_row R.key (arc_value row) self.now) }
    {
        match self.place_of(row.key()) {
            Ok(place) => Ok(SortedRows {
                rows: self.rows.with_replaced(alloc, place, row)?,
            }),
            Err(place) => Ok(SortedRows {
                rows: self.rows.with_inserted(alloc, place, row)?,
            }),
        }
    }

    /// The table without the row of a key, or the same where there is none.
    pub fn without_row(&self, alloc: Global, key: &[u8]) -> Result<SortedRows<R>, NoMemory>
        ensures { IfOk result (λ table. table ≡ without_row R.key key.now self.now) }
    {
        match self.place_of(key) {
            Ok(place) => Ok(SortedRows {
                rows: self.rows.with_removed(alloc, place)?,
            }),
            Err(_) => self.share(alloc),
        }
    }

    /// The place of a key, or else the one that it would have.
    fn place_of(&self, key: &[u8]) -> Result<usize, usize>
        ensures found { IfOk result (λ place. IsFoundAt R.key key.now self.now place) }
        ensures missing { IfErr result (λ place. IsMissingAt R.key key.now self.now place) }
        ensures ordered { IsInOrder R.key self.now }
    {
        let place = self.rows.first(&IsFrom { key });
        if place == self.rows.len() {
            return Err(place);
        }
        if self.rows.at(place).key() == key {
            return Ok(place);
        }
        Err(place)
    }
}
