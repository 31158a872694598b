//! Single fields, written.
ghost use Rattle.std.specs.Prelude.{◌≡◌, ◌≤◌, ◌<◌, ◌+◌, ◌*◌, ◌^◌, ◌/◌, ◌%◌, ◌++◌, ◌∷◌, [], OnOk};
ghost use Rattle.std.specs.Int.{bit_at};
ghost use Rattle.byteorder.specs.Endian.{big_bytes, little_bytes};
ghost use Rattle.access_levels.specs.Level.{level_rank};
ghost use Rattle.database_image.specs.Fields.{filled, bit, text_or_none, who_text};
ghost use Rattle.database_image.specs.Spelled.{IsId, IsIdOrNone, IsWho};
ghost use Rattle.database_image.specs.Description.{audit_rank, flag_rank, log_rank};

use crate::fields;
use access_levels::{Categories, Id, Level, Who};
use racf_profiles::LogOption;
use std::alloc::AllocError;

/// A number of one byte.
pub fn put_byte(out: &mut Vec<u8>, n: usize) -> Result<(), AllocError>
    ensures { OnOk result (out.new.items ≡ out.old.items ++ big_bytes 1 n) }
{
    let bytes = (n as u64).to_be_bytes();
    out.extend_from_slice(&bytes[7..])
}

/// A number of two bytes.
pub fn put_short(out: &mut Vec<u8>, n: usize) -> Result<(), AllocError>
    ensures { OnOk result (out.new.items ≡ out.old.items ++ big_bytes 2 n) }
{
    let bytes = (n as u64).to_be_bytes();
    out.extend_from_slice(&bytes[6..])
}

/// A number of four bytes.
pub fn put_word(out: &mut Vec<u8>, n: usize) -> Result<(), AllocError>
    ensures { OnOk result (out.new.items ≡ out.old.items ++ big_bytes 4 n) }
{
    let bytes = (n as u64).to_be_bytes();
    out.extend_from_slice(&bytes[4..])
}

/// An identifier.
pub fn put_id(out: &mut Vec<u8>, id: &Id) -> Result<(), AllocError>
    ensures bytes { OnOk result (out.new.items ≡ out.old.items ++ filled id.now) }
    ensures spelled { OnOk result (IsId id.now) }
{
    out.extend_from_slice(&fields::filled(id.text()))
}

/// An identifier, or blanks.
pub fn put_id_or_none(out: &mut Vec<u8>, id: &Option<Id>) -> Result<(), AllocError>
    ensures bytes { OnOk result (out.new.items ≡ out.old.items ++ filled (text_or_none id.now)) }
    ensures spelled { OnOk result (IsIdOrNone id.now) }
{
    match id {
        Some(id) => put_id(out, id),
        None => out.extend_from_slice(&fields::filled(b"")),
    }
}

/// Whom an entry speaks of.
pub fn put_who(out: &mut Vec<u8>, who: &Who) -> Result<(), AllocError>
    ensures bytes { OnOk result (out.new.items ≡ out.old.items ++ filled (who_text who.now)) }
    ensures spelled { OnOk result (IsWho who.now) }
{
    match who {
        Who::Star => out.extend_from_slice(&fields::filled(b"*")),
        Who::Named(id) => put_id(out, id),
    }
}

/// The value of a flag where it is set.
pub fn bit(value: u8, set: bool) -> u8
    ensures value { result ≡ bit value set }
    ensures most { result ≤ value }
{
    if set { value } else { 0 }
}

/// The rank of a level from which on accesses are logged, 0 where none are.
fn audit_rank(level: Option<Level>) -> u8
    ensures { result ≡ audit_rank level }
{
    match level {
        Some(level) => level.rank(),
        None => 0,
    }
}

/// The number of a log option.
pub fn log_rank(log: LogOption) -> u8
    ensures { result ≡ log_rank log }
{
    match log {
        LogOption::ByProfile => 0,
        LogOption::Always => 1,
        LogOption::Never => 2,
        LogOption::Successes => 3,
        LogOption::Failures => 4,
    }
}

/// 1 for yes, 0 for no.
fn flag_rank(flag: bool) -> u8
    ensures { result ≡ flag_rank flag }
{
    if flag { 1 } else { 0 }
}

/// A set of categories.
pub fn put_set(out: &mut Vec<u8>, set: &Categories) -> Result<(), AllocError>
    ensures { OnOk result (out.new.items ≡ out.old.items ++ little_bytes 32 set.now) }
{
    for place in 0..32 {
        out.push(set_byte(set, place))?;
    }
    Ok(())
}

/// The byte at that place of a set's bytes, the lowest numbers first.
fn set_byte(set: &Categories, place: u8) -> u8
    requires { place < 32 }
    ensures { result ≡ set.now / 256 ^ place % 256 }
{
    let mut byte = 0;
    for n in 0..8u8 {
        byte += bit_of(set, 8 * place + n, n);
    }
    byte
}

/// The value that a number of the set has at that place of a byte.
fn bit_of(set: &Categories, number: u8, place: u8) -> u8
    requires { place < 8 }
    ensures { result ≡ bit_at set.now number * 2 ^ place }
{
    if set.has(number) { 1 << place } else { 0 }
}

/// A security level, which may be any byte.
pub fn put_level(out: &mut Vec<u8>, level: u8) -> Result<(), AllocError>
    ensures bytes { OnOk result (out.new.items ≡ out.old.items ++ big_bytes 1 level) }
    ensures small { OnOk result (level < 256) }
{
    put_byte(out, usize::from(level))
}

/// An access level.
pub fn put_rank(out: &mut Vec<u8>, level: Level) -> Result<(), AllocError>
    ensures { OnOk result (out.new.items ≡ out.old.items ++ level_rank level ∷ []) }
{
    out.push(level.rank())?;
    Ok(())
}

/// Yes or no.
pub fn put_flag(out: &mut Vec<u8>, flag: bool) -> Result<(), AllocError>
    ensures { OnOk result (out.new.items ≡ out.old.items ++ flag_rank flag ∷ []) }
{
    out.push(flag_rank(flag))?;
    Ok(())
}

/// From which level on accesses are logged, if any are.
pub fn put_audit(out: &mut Vec<u8>, level: Option<Level>) -> Result<(), AllocError>
    ensures { OnOk result (out.new.items ≡ out.old.items ++ audit_rank level ∷ []) }
{
    out.push(audit_rank(level))?;
    Ok(())
}
