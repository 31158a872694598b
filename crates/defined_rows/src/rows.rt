ghost use Rattle.std.specs.Prelude.{◌≡◌, ◌<◌, ◌↔◌, List, [], length, map, IfOk, IsTrue, Some, slice_get, find};
ghost use Rattle.std.specs.List.{IsDistinct};
ghost use Rattle.std.specs.Str.{bytes_eq};
ghost use Rattle.std.specs.Option.{option_copied};
ghost use Rattle.sorted_rows.specs.Sorted.{has_key};
ghost use Rattle.racf_profiles.specs.Edits.{put_row, drop_row};

use crate::numbered::{Defined, IsFrom};
use pages::Pages;
use sorted_rows::laws::{what_goes_is_not_found, what_is_put_is_found};
use sorted_rows::{Keyed, NoMemory, SortedRows};
use std::alloc::{AllocError, Global};
use std::marker::Model;
use std::sync::Arc;

/// Rows in order of definition, each found by its key. A changed version shares with this one all but what leads to the
/// change. A call that answers [`NoMemory`] leaves nothing behind.
#[derive(Drop)]
pub struct DefinedRows<R: Keyed> {
    /// The rows in order of definition, each with a number; the numbers rise.
    order: Pages<Defined<R>>,
    /// The same rows by key.
    by_key: SortedRows<Defined<R>>,
    /// The number of the next row.
    next: u64,
}

impl<R: Keyed> Model for DefinedRows<R> {
    ghost use Rattle.std.specs.Prelude.{List, map};
    ghost use Rattle.defined_rows.specs.Kept.{IsKept};

    ghost Value = { List R };

    ghost view = { λ table. map (λ defined. defined.row) table.order };

    ghost invariant = { λ table. IsKept (λ defined. defined.number) (λ defined. R.key defined.row) table.order table.by_key table.next };
}

impl<R: Keyed> DefinedRows<R> {
    /// A table without rows. It takes no memory.
    pub fn new(alloc: Global) -> DefinedRows<R>
        ensures { result ≡ [] }
    {
        DefinedRows {
            order: Pages::new(alloc),
            by_key: SortedRows::new(alloc),
            next: 0,
        }
    }

    /// A table of these rows, in their order.
    pub fn of(alloc: Global, rows: Vec<R>) -> Result<DefinedRows<R>, NoMemory>
        requires { IsDistinct bytes_eq (map R.key rows.items) }
        ensures { IfOk result (λ table. table ≡ rows.items) }
    {
        let mut table = DefinedRows::new(alloc);
        for row in rows {
            table = table.with_row(alloc, row)?;
        }
        Ok(table)
    }

    /// The same table once more.
    pub fn share(&self, alloc: Global) -> Result<DefinedRows<R>, NoMemory>
        ensures { IfOk result (λ table. table ≡ self.now) }
    {
        Ok(DefinedRows {
            order: self.order.share(alloc)?,
            by_key: self.by_key.share(alloc)?,
            next: self.next,
        })
    }

    /// How many rows there are. No two of them have one key.
    pub fn len(&self) -> usize
        ensures count { result ≡ length self.now }
        ensures distinct { IsDistinct bytes_eq (map R.key self.now) }
    {
        self.order.len()
    }

    /// Whether there are no rows.
    pub fn is_empty(&self) -> bool
        ensures { IsTrue result ↔ (self.now ≡ []) }
    {
        self.len() == 0
    }

    /// The row at a place in the order of definition.
    pub fn at(&self, place: usize) -> &R
        requires { place < length self.now }
        ensures { slice_get self.now place ≡ Some result.now }
    {
        &self.order.at(place).row
    }

    /// The row of a key.
    pub fn get(&self, key: &[u8]) -> Option<&R>
        ensures { option_copied result ≡ find (has_key R.key key.now) self.now }
    {
        match self.by_key.find(key) {
            Some(defined) => Some(&defined.row),
            None => None,
        }
    }

    /// The table with a row in place of the one that had its key, or else last. The rows that a table has had in all
    /// are at most 2 to the 64th, less one.
    pub fn with_row(&self, alloc: Global, row: R) -> Result<DefinedRows<R>, NoMemory>
        ensures { IfOk result (λ table. table ≡ put_row (has_key R.key (R.key row)) row self.now) }
    {
        what_is_put_is_found::<Defined<R>>();
        match self.by_key.find(row.key()) {
            Some(found) => {
                let number = found.number;
                let place = self.order.first(&IsFrom { number });
                let row = Arc::new(alloc, Defined { number, row })?;
                Ok(DefinedRows {
                    by_key: self.by_key.with_row(alloc, Arc::try_clone(&row)?)?,
                    order: self.order.with_replaced(alloc, place, row)?,
                    next: self.next,
                })
            }
            None => {
                if self.next == u64::MAX {
                    return Err(AllocError);
                }
                let number = self.next;
                let row = Arc::new(alloc, Defined { number, row })?;
                Ok(DefinedRows {
                    by_key: self.by_key.with_row(alloc, Arc::try_clone(&row)?)?,
                    order: self.order.with_inserted(alloc, self.order.len(), row)?,
                    next: number + 1,
                })
            }
        }
    }

    /// The table without the row of a key, or the same where there is none.
    pub fn without_row(&self, alloc: Global, key: &[u8]) -> Result<DefinedRows<R>, NoMemory>
        ensures { IfOk result (λ table. table ≡ drop_row (has_key R.key key.now) self.now) }
    {
        what_goes_is_not_found::<Defined<R>>();
        match self.by_key.find(key) {
            Some(found) => {
                let place = self.order.first(&IsFrom {
                    number: found.number,
                });
                Ok(DefinedRows {
                    by_key: self.by_key.without_row(alloc, key)?,
                    order: self.order.with_removed(alloc, place)?,
                    next: self.next,
                })
            }
            None => self.share(alloc),
        }
    }
}
