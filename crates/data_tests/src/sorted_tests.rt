//! Edits of a table with the keys that are then there, and a table beside an array.

use sorted_rows::{Keyed, NoMemory, SortedRows};
use std::alloc::Global;
use std::process::Abort;
use std::sync::Arc;

/// A row of two bytes, the key, and a number.
#[derive(Drop)]
struct Item {
    name: [u8; 2],
    number: u32,
}

impl Keyed for Item {
    ghost key = { λ item. item.name };

    fn key(&self) -> &[u8] {
        &self.name
    }
}

/// The number of a key, or 0.
fn number_of(table: &SortedRows<Item>, name: &[u8]) -> u32 {
    match table.find(name) {
        Some(item) => item.number,
        None => 0,
    }
}

/// The table with a row of this number put.
fn with_row(
    alloc: Global,
    table: &SortedRows<Item>,
    name: [u8; 2],
    number: u32,
) -> Result<SortedRows<Item>, NoMemory> {
    let row = Arc::new(alloc, Item { name, number })?;
    table.with_row(alloc, row)
}

/// The table with a row of this number put, or without the row of the name where the number is 0.
fn changed_by(
    rt: &(impl AllocGlobal + Abort),
    table: &SortedRows<Item>,
    name: [u8; 2],
    number: u32,
) -> SortedRows<Item> {
    if number == 0 {
        return table.without_row(rt.alloc(), &name).expect(rt, "memory");
    }
    with_row(rt.alloc(), table, name, number).expect(rt, "memory")
}

/// Whether a table has just these keys in order, one behind another.
fn has_keys(rt: &(impl AllocGlobal + Abort), table: &SortedRows<Item>, keys: &str) -> bool {
    let mut found = Vec::new(rt.alloc());
    for item in table.iter() {
        assert!(rt; found.extend_from_slice(&item.name).is_ok());
    }
    found.as_slice() == keys.as_bytes()
}

/// The name of a row, its number, 0 where the row goes, and the keys that are then there.
type Change = ([u8; 2], u32, &'static str);

/// Rows that come, are replaced and go.
const CHANGES: &[Change] = &[
    (*b"PA", 1, "PA"),
    (*b"BO", 2, "BOPA"),
    (*b"ZZ", 3, "BOPAZZ"),
    (*b"BO", 4, "BOPAZZ"),
    (*b"PA", 0, "BOZZ"),
    (*b"AN", 5, "ANBOZZ"),
    (*b"XX", 0, "ANBOZZ"),
];

/// The changed table. The one before it is let go.
fn later(
    rt: &(impl AllocGlobal + Abort),
    table: SortedRows<Item>,
    name: [u8; 2],
    number: u32,
) -> SortedRows<Item> {
    let later = changed_by(rt, &table, name, number);
    drop(table);
    later
}

/// Whether a table has these keys, and this number under the name.
fn is_as_told(
    rt: &(impl AllocGlobal + Abort),
    table: &SortedRows<Item>,
    (name, number, keys): &Change,
) -> bool {
    has_keys(rt, table, keys) && number_of(table, name) == *number
}

/// Rows that come, are replaced and go, each with the keys that are then there, and the number of one of them.
#[test]
fn worked_rows(rt: HostRuntime) {
    let mut table = SortedRows::new(rt.alloc());
    for row in CHANGES {
        table = later(&rt, table, row.0, row.1);
        assert!(rt; is_as_told(&rt, &table, row));
    }
    drop(table);
}

/// The key of one of 200 places.
fn key_at(place: usize) -> [u8; 2] {
    let place = place % 200;
    [(place / 100) as u8, (place % 100) as u8]
}

/// Whether a table has just the numbers of an array, each under the key of its place, and none for 0.
fn is_same(table: &SortedRows<Item>, numbers: &[u32]) -> bool {
    for (place, number) in numbers.iter().enumerate() {
        if number_of(table, &key_at(place)) != *number {
            return false;
        }
    }
    table.len() == numbers.iter().filter(|number| **number != 0).count()
}

/// A table of some of 200 keys, changed 300 times, has just those of an array.
#[test]
fn changes_like_an_array(rt: HostRuntime) {
    let mut table = SortedRows::new(rt.alloc());
    let mut numbers = [0u32; 200];
    let mut random = 7u32;
    for change in 1..301u32 {
        random = random.wrapping_mul(1_664_525).wrapping_add(1_013_904_223);
        let place = (random >> 8) as usize % 200;
        let number = if change % 4 == 0 { 0 } else { change };
        table = later(&rt, table, key_at(place), number);
        numbers[place] = number;
    }
    assert!(rt; is_same(&table, &numbers));
    drop(table);
}
