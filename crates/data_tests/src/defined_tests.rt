//! Edits of a table with the keys that are then there, in order of definition, and a table beside a plain list.

use defined_rows::{DefinedRows, Keyed, NoMemory};
use std::alloc::Global;
use std::process::Abort;

/// A row of two bytes, the key, and a number.
#[derive(Drop)]
struct Item {
    name: [u8; 2],
    number: u32,
}

impl Keyed for Item {
    ghost key = { λ item. item.name };

    fn key(&self) -> &[u8] {
        &self.name
    }
}

/// The number of a key, or 0.
fn number_of(table: &DefinedRows<Item>, name: &[u8]) -> u32 {
    match table.get(name) {
        Some(item) => item.number,
        None => 0,
    }
}

/// Whether a table has just these keys in order, one behind another.
fn has_keys(rt: &(impl AllocGlobal + Abort), table: &DefinedRows<Item>, keys: &str) -> bool {
    let mut found = Vec::new(rt.alloc());
    for place in 0..table.len() {
        assert!(rt; found.extend_from_slice(&table.at(place).name).is_ok());
    }
    found.as_slice() == keys.as_bytes()
}

/// The table with a row of this number put, or without the row of the name where the number is 0.
fn changed_by(
    alloc: Global,
    table: &DefinedRows<Item>,
    name: [u8; 2],
    number: u32,
) -> Result<DefinedRows<Item>, NoMemory> {
    if number == 0 {
        return table.without_row(alloc, &name);
    }
    table.with_row(alloc, Item { name, number })
}

/// The name of a row, its number, 0 where the row goes, and the keys that are then there.
type Change = ([u8; 2], u32, &'static str);

/// Rows that come, are replaced and go.
const CHANGES: &[Change] = &[
    (*b"PA", 1, "PA"),
    (*b"BO", 2, "PABO"),
    (*b"ZZ", 3, "PABOZZ"),
    (*b"BO", 4, "PABOZZ"),
    (*b"PA", 0, "BOZZ"),
    (*b"AN", 5, "BOZZAN"),
    (*b"XX", 0, "BOZZAN"),
    (*b"PA", 6, "BOZZANPA"),
];

/// The changed table, shared.
fn changed_and_shared(
    rt: &(impl AllocGlobal + Abort),
    table: &DefinedRows<Item>,
    name: [u8; 2],
    number: u32,
) -> DefinedRows<Item> {
    let changed = changed_by(rt.alloc(), table, name, number).expect(rt, "memory");
    let shared = changed.share(rt.alloc()).expect(rt, "memory");
    drop(changed);
    shared
}

/// Whether a table has these keys, and this number under the name.
fn is_as_told(
    rt: &(impl AllocGlobal + Abort),
    table: &DefinedRows<Item>,
    (name, number, keys): Change,
) -> bool {
    has_keys(rt, table, keys) && number_of(table, &name) == number
}

/// The changed table, which has what the row says. The table before it, which is let go, stays as it was until then.
fn later(
    rt: &(impl AllocGlobal + Abort),
    table: DefinedRows<Item>,
    before: &str,
    row: Change,
) -> DefinedRows<Item> {
    let later = changed_and_shared(rt, &table, row.0, row.1);
    assert!(rt; has_keys(rt, &table, before) && is_as_told(rt, &later, row));
    drop(table);
    later
}

/// Rows that come, are replaced and go, each with the keys that are then there, and the number of one of them. The
/// table before each change stays as it was.
#[test]
fn worked_rows(rt: HostRuntime) {
    let mut table = DefinedRows::new(rt.alloc());
    let mut before = "";
    for row in CHANGES {
        table = later(&rt, table, before, *row);
        before = row.2;
    }
    assert!(rt; !table.is_empty());
    drop(table);
}

/// A row of a plain list.
type Plain = ([u8; 2], u32);

/// Puts a row into a plain list, in place of the one of its key or last, and answers whether it could.
fn put(plain: &mut Vec<Plain>, name: [u8; 2], number: u32) -> bool {
    for item in plain.iter_mut() {
        if item.0 == name {
            item.1 = number;
            return true;
        }
    }
    plain.push((name, number)).is_ok()
}

/// Whether a table has just these rows, in their order and by their keys.
fn is_same(table: &DefinedRows<Item>, plain: &[Plain]) -> bool {
    for (place, row) in plain.iter().enumerate() {
        if place >= table.len() || table.at(place).name != row.0 {
            return false;
        }
        if number_of(table, &row.0) != row.1 {
            return false;
        }
    }
    table.len() == plain.len()
}

/// Puts a row into a plain list, or takes it out at each third number. The number that the row then has, 0 where it
/// went.
fn change(rt: &impl Abort, plain: &mut Vec<Plain>, name: [u8; 2], number: u32) -> u32 {
    if number % 3 == 0 {
        plain.retain(|item| item.0 != name);
        return 0;
    }
    assert!(rt; put(plain, name, number));
    number
}

/// The table, which is let go, with the same change made of it and of a plain list.
fn changed_beside(
    rt: &(impl AllocGlobal + Abort),
    table: DefinedRows<Item>,
    plain: &mut Vec<Plain>,
    name: [u8; 2],
    number: u32,
) -> DefinedRows<Item> {
    let number = change(rt, plain, name, number);
    let changed = changed_by(rt.alloc(), &table, name, number).expect(rt, "memory");
    drop(table);
    changed
}

/// A table of some of 200 keys, changed 400 times, has just the rows of a plain list.
#[test]
fn changes_like_a_plain_list(rt: HostRuntime) {
    let mut table = DefinedRows::new(rt.alloc());
    let mut plain = Vec::new(rt.alloc());
    let mut random = 7u32;
    for number in 1..401u32 {
        random = random.wrapping_mul(1_664_525).wrapping_add(1_013_904_223);
        let place = (random >> 8) % 200;
        let name = [(place / 100) as u8, (place % 100) as u8];
        table = changed_beside(&rt, table, &mut plain, name, number);
    }
    assert!(rt; is_same(&table, &plain));
    drop(table);
}
