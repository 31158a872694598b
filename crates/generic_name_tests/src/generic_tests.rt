//! Rows that an independent program computed: faults, covers, before and resolve; and order keys.

mod rows;

use generic_names::{MemberName, NameFault, NameKind, Pattern, Resource};
use rows::{BEFORE, COVERS, FAULTS, IN_ORDER, RESOLVE};
use std::test::Fail;

/// How many rows of a table are right.
fn count_right<F: Fn(&[u8]) -> Option<bool>>(table: &[u8], is_right: F) -> u32
    requires { F.IsAlwaysCallable is_right }
{
    let mut count = 0u32;
    for row in table.split(|byte| *byte == b'\n') {
        if is_right(row) == Some(true) {
            count = count.wrapping_add(1);
        }
    }
    count
}

/// The kind that a field stands for.
fn kind_of(field: &[u8]) -> NameKind {
    if field == b"D".as_slice() {
        NameKind::DataSet
    } else {
        NameKind::General
    }
}

fn is_yes(field: &[u8]) -> bool {
    field == b"yes".as_slice()
}

fn number_of(digits: &[u8]) -> u32 {
    let mut number = 0u32;
    for digit in digits {
        number = number
            .wrapping_mul(10)
            .wrapping_add(u32::from(digit.wrapping_sub(b'0')));
    }
    number
}

/// The fault that a field names, if it isn't `OK`.
fn fault_of(field: &[u8]) -> Option<NameFault> {
    let mut words = field.split(|byte| *byte == b' ');
    let word = words.next()?;
    let number = number_of(words.next().unwrap_or(b""));
    if word == b"EMPTY".as_slice() {
        return Some(NameFault::Empty);
    }
    if word == b"TOOLONG".as_slice() {
        return Some(NameFault::TooLong);
    }
    if word == b"EMPTYQUALIFIER".as_slice() {
        return Some(NameFault::EmptyQualifier(number));
    }
    if word == b"QUALIFIERTOOLONG".as_slice() {
        return Some(NameFault::QualifierTooLong(number));
    }
    if word == b"BADBYTE".as_slice() {
        return Some(NameFault::BadByte(number));
    }
    if word == b"STARINSIDE".as_slice() {
        return Some(NameFault::StarInside(number));
    }
    if word == b"GENERICFIRST".as_slice() {
        return Some(NameFault::GenericFirst);
    }
    None
}

fn covers_row(row: &[u8]) -> Option<bool> {
    let mut fields = row.split(|byte| *byte == b'|');
    let kind = kind_of(fields.next()?);
    let pattern = Pattern::read(kind, fields.next()?).ok()?;
    let name = Resource::read(kind, fields.next()?).ok()?;
    Some(pattern.covers(&name) == is_yes(fields.next()?))
}

fn before_row(row: &[u8]) -> Option<bool> {
    let mut fields = row.split(|byte| *byte == b'|');
    let kind = kind_of(fields.next()?);
    let first = Pattern::read(kind, fields.next()?).ok()?;
    let second = Pattern::read(kind, fields.next()?).ok()?;
    let is_first = is_yes(fields.next()?);
    let is_lower = first.order_key().is_before(&second.order_key());
    Some(first.before(&second) == is_first && is_lower == is_first)
}

/// How many names have a higher key than the one before them in the table.
fn count_rises(table: &[u8]) -> Option<u32> {
    let mut count = 0u32;
    let mut last = Pattern::read(NameKind::General, b"A").ok()?.order_key();
    for row in table.split(|byte| *byte == b'\n') {
        let key = Pattern::read(NameKind::General, row).ok()?.order_key();
        if last.is_before(&key) {
            count = count.wrapping_add(1);
        }
        last = key;
    }
    Some(count)
}

/// Whether the key of the gap behind a pattern lies above that of the pattern, and not above that of the name.
fn gap_ends_between(pattern: &[u8], name: &[u8]) -> Option<bool> {
    let pattern = Pattern::read(NameKind::DataSet, pattern).ok()?;
    let name = Resource::read(NameKind::DataSet, name).ok()?;
    let end = pattern.gap(&name)?.order_key();
    Some(pattern.order_key().is_before(&end) && !name.order_key().is_before(&end))
}

/// Whether a data set's pattern has a key of these bytes.
fn has_key(pattern: &[u8], bytes: &[u8]) -> Option<bool> {
    let pattern = Pattern::read(NameKind::DataSet, pattern).ok()?;
    Some(pattern.order_key().as_bytes() == bytes)
}

fn resolve_row(row: &[u8]) -> Option<bool> {
    let mut fields = row.split(|byte| *byte == b'|');
    let kind = kind_of(fields.next()?);
    let member = MemberName::read(kind, fields.next()?).ok()?;
    let pattern = member.resolve(fields.next()?, fields.next()?);
    let answer = fields.next()?;
    match pattern {
        Some(pattern) => Some(pattern.text() == answer),
        None => Some(answer == b"none".as_slice()),
    }
}

fn faults_row(row: &[u8]) -> Option<bool> {
    let mut fields = row.split(|byte| *byte == b'|');
    let text = fields.next()?;
    for kind in [NameKind::DataSet, NameKind::General] {
        if Pattern::read(kind, text).err() != fault_of(fields.next()?)
            || Resource::read(kind, text).err() != fault_of(fields.next()?)
            || MemberName::read(kind, text).err() != fault_of(fields.next()?)
        {
            return Some(false);
        }
    }
    Some(true)
}

#[test]
fn rows_are_right(rt: HostRuntime) {
    assert_eq!(rt; count_right(COVERS, covers_row), 300);
    assert_eq!(rt; count_right(BEFORE, before_row), 250);
    assert_eq!(rt; count_right(RESOLVE, resolve_row), 36);
    assert_eq!(rt; count_right(FAULTS, faults_row), 189);
}

#[test]
fn keys_rise(rt: HostRuntime) {
    assert_eq!(rt; count_rises(IN_ORDER), Some(14));
    assert!(rt; has_key(b"SYS1.*", b"SYS1\xfc\xfd\xfc\xfe") == Some(true));
    assert!(rt; gap_ends_between(b"SYS1.AAA", b"SYS1.PROC") == Some(true));
}
