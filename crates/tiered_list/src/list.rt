//! The list.
ghost use Rattle.std.specs.Prelude.{◌≡◌, ◌+◌, ◌-◌, ◌*◌, ◌^◌, ◌<◌, ◌≤◌, ◌↔◌, [], ◌++◌, length, get_or, min, slice_set, vec_len, IsOk, IsSome, OnOk, Some};
ghost use Rattle.std.specs.List.{slice_get, insert, remove};
ghost use Rattle.std.specs.Option.{option_to_list};
ghost use Rattle.std.specs.VecDeque.{deque_len, deque_capacity};
ghost use Rattle.tiered_list.specs.Rows.{row_items, AreTiered};

use std::alloc::{AllocError, Global};
use std::collections::VecDeque;
use std::marker::Model;
use std::mem;

/// How many items a full row has.
const ROW: usize = 256;

/// The most items of a list, of 2^24 rows.
const MOST: usize = 4_294_967_296;

/// A list in rows.
#[derive(Drop)]
pub struct TieredList<T> {
    /// The rows, each with room for 256 items. Before one that has an item all are full.
    rows: Vec<VecDeque<T>>,
    /// How many items there are.
    len: usize,
    /// Where memory comes from.
    alloc: Global,
}

impl<T> Model for TieredList<T> {
    ghost use Rattle.tiered_list.specs.Tiered.{Tiered};

    ghost Value = { Tiered T };

    ghost use Rattle.tiered_list.specs.Rows.{seen, IsKept};

    ghost view = { seen };

    ghost invariant = { IsKept };
}

impl<T: Drop> TieredList<T> {
    /// Without items. It takes no memory yet.
    pub fn new(alloc: Global) -> TieredList<T>
        ensures empty { result.items ≡ [] }
        ensures none_spare { result.spare ≡ 0 }
    {
        TieredList {
            rows: Vec::new(alloc),
            len: 0,
            alloc,
        }
    }

    /// Makes room for at least this many items more. There is none for more than 2^32 in all.
    pub fn reserve(&mut self, n: usize) -> Result<(), AllocError>
        ensures items { self.new.items ≡ self.old.items }
        ensures room { OnOk result (n ≤ self.new.spare) }
        ensures kept { self.old.spare ≤ self.new.spare }
        ensures enough { n ≤ self.old.spare → IsOk result }
    {
        if n > MOST - self.len {
            return Err(AllocError);
        }
        add_rows(&mut self.rows, self.alloc, self.len + n)
    }

    /// How many items there are.
    pub fn len(&self) -> usize
        ensures { result ≡ length self.now.items }
    {
        self.len
    }

    /// The item at a place.
    pub fn at(&self, place: usize) -> &T
        requires { place < length self.now.items }
        ensures there { slice_get self.now.items place ≡ Some result.now }
        ensures value { result.now ≡ get_or self.now.items place result.now }
    {
        &self.rows[place / ROW][place % ROW]
    }

    /// Puts an item in the place of another, which it gives back.
    pub fn replace(&mut self, place: usize, item: T) -> T
        requires { place < length self.old.items }
        ensures item { slice_get self.old.items place ≡ Some result }
        ensures items { self.new.items ≡ slice_set self.old.items place item }
        ensures spare { self.new.spare ≡ self.old.spare }
    {
        mem::replace(&mut self.rows[place / ROW][place % ROW], item)
    }

    /// Puts an item in at a place.
    pub fn insert(&mut self, place: usize, item: T)
        requires room { 0 < self.old.spare }
        requires place { place ≤ length self.old.items }
        ensures items { self.new.items ≡ insert self.old.items place item }
        ensures spare { self.new.spare + 1 ≡ self.old.spare }
    {
        put_in(&mut self.rows, place, item);
        self.len += 1;
    }

    /// Takes the item at a place out.
    pub fn remove(&mut self, place: usize) -> T
        requires { place < length self.old.items }
        ensures item { slice_get self.old.items place ≡ Some result }
        ensures items { self.new.items ≡ remove self.old.items place }
        ensures spare { self.new.spare ≡ self.old.spare + 1 }
    {
        let item = take_out(&mut self.rows, place);
        self.len -= 1;
        item
    }
}

/// Adds rows without items, until all have room for so many.
fn add_rows<T: Drop>(
    rows: &mut Vec<VecDeque<T>>,
    alloc: Global,
    room: usize,
) -> Result<(), AllocError>
    requires room { room ≤ 2 ^ 32 }
    requires few { vec_len rows.old ≤ 2 ^ 24 }
    requires tiered { AreTiered rows.old.items (length (row_items rows.old.items)) }
    requires within { length (row_items rows.old.items) ≤ 256 * vec_len rows.old }
    ensures room { OnOk result (room ≤ 256 * vec_len rows.new) }
    ensures few { vec_len rows.new ≤ 2 ^ 24 }
    ensures more { vec_len rows.old ≤ vec_len rows.new }
    ensures items { row_items rows.new.items ≡ row_items rows.old.items }
    ensures tiered { AreTiered rows.new.items (length (row_items rows.old.items)) }
    ensures enough { room ≤ 256 * vec_len rows.old → IsOk result }
{
    while rows.len() * ROW < room {
        let row = VecDeque::with_capacity(alloc, ROW)?;
        rows.push(row)?;
    }
    Ok(())
}

/// Puts an item in at a place. Each full row from there on gives its last item to the front of the next.
fn put_in<T: Drop>(rows: &mut [VecDeque<T>], place: usize, item: T)
    requires few { length rows.old ≤ 2 ^ 24 }
    requires tiered { AreTiered rows.old (length (row_items rows.old)) }
    requires room { length (row_items rows.old) < 256 * length rows.old }
    requires place { place ≤ length (row_items rows.old) }
    ensures items { row_items rows.new ≡ insert (row_items rows.old) place item }
    ensures tiered { AreTiered rows.new (length (row_items rows.old) + 1) }
{
    let mut row = place / ROW;
    let mut carried = put(&mut rows[row], place % ROW, item);
    while let Some(last) = carried {
        row += 1;
        carried = put(&mut rows[row], 0, last);
    }
}

/// Puts an item into a row. Where the row is full, its last item goes out.
fn put<T: Drop>(row: &mut VecDeque<T>, place: usize, item: T) -> Option<T>
    requires len { deque_len row.old ≤ 256 }
    requires room { 256 ≤ deque_capacity row.old }
    requires place { place ≤ deque_len row.old }
    requires below { place < 256 }
    ensures items { row.new.items ++ option_to_list result ≡ insert row.old.items place item }
    ensures len { deque_len row.new + length (option_to_list result) ≡ deque_len row.old + 1 }
    ensures last { IsSome result ↔ (deque_len row.old ≡ 256) }
    ensures room { 256 ≤ deque_capacity row.new }
{
    if row.len() < ROW {
        row.insert(place, item).unwrap();
        return None;
    }
    let last = row.pop_back();
    row.insert(place, item).unwrap();
    last
}

/// Takes the item at a place out. Each row from there on takes the first item of the next.
fn take_out<T: Drop>(rows: &mut [VecDeque<T>], place: usize) -> T
    requires few { length rows.old ≤ 2 ^ 24 }
    requires tiered { AreTiered rows.old (length (row_items rows.old)) }
    requires room { length (row_items rows.old) ≤ 256 * length rows.old }
    requires place { place < length (row_items rows.old) }
    ensures item { slice_get (row_items rows.old) place ≡ Some result }
    ensures items { row_items rows.new ≡ remove (row_items rows.old) place }
    ensures tiered { AreTiered rows.new (length (row_items rows.old) - 1) }
{
    let mut row = place / ROW;
    let item = rows[row].remove(place % ROW).unwrap();
    while row + 1 < rows.len() && !rows[row + 1].is_empty() {
        let next = rows[row + 1].pop_front().unwrap();
        rows[row].push_back_reserved(next);
        row += 1;
    }
    item
}
