//! Sets of categories, read.
ghost use Rattle.std.specs.Prelude.{◌≡◌, ◌≤◌, ◌<◌, ◌^◌, ◌==◌, ◌&&◌, ◌||◌, ℕ, length, IfOk};
ghost use Rattle.byteorder.specs.Endian.{little_number};
ghost use Rattle.access_levels.specs.Category.{is_member};
ghost use Rattle.database_image.specs.Reading.{Gives};
ghost use Rattle.database_image.specs.Forms.{spelled_at};
ghost use Rattle.database_image.specs.Fields.{below, set_spelling};
ghost use Rattle.database_image.specs.Description.{defined};

use crate::faults::ReadFault;
use crate::left::{Left, require};
use access_levels::Categories;

/// The bytes of a set.
const SET: usize = 32;

/// The numbers that a set may have are below this one.
const NUMBERS: usize = 256;

/// A set of categories that are all among the first so many.
pub fn defined_at(count: usize, left: &mut Left<'_>) -> Result<Categories, ReadFault>
    requires { count ≤ 256 }
    ensures { Gives (λ x. (x, left.new)) result ((defined count).reading left.old) }
{
    let begin = left.len();
    let set = set_at(left)?;
    require(is_below(&set, count), begin)?;
    Ok(set)
}

/// A set of categories.
#[tactic(auto, unfolding(crate::specs::Forms::spelled_at))]
fn set_at(left: &mut Left<'_>) -> Result<Categories, ReadFault>
    ensures reads { Gives (λ x. (x, left.new)) result (spelled_at set_spelling left.old) }
    ensures bounded { IfOk result (λ set. set < 2 ^ 256) }
{
    let field = left.part(SET)?;
    Ok(set_in(field))
}

/// The set whose bytes these are, the lowest numbers first.
fn set_in(field: &[u8]) -> Categories
    requires { length field.now ≡ 32 }
    ensures value { result ≡ little_number 32 field.now }
    ensures bounded { result < 2 ^ 256 }
{
    let mut set = Categories::none();
    for n in 0..NUMBERS {
        set = with_bit(set, field, n as u8);
    }
    set
}

/// The set, with the number where it is in the set whose bytes these are.
fn with_bit(set: Categories, field: &[u8], n: u8) -> Categories
    requires { length field.now ≡ 32 }
    ensures { (m : ℕ) → is_member result m ≡ ((m == n && is_member (little_number 32 field.now) n) || is_member set m) }
{
    if has(field, n) { set.with(n) } else { set }
}

/// Whether the number is in the set whose bytes these are.
fn has(field: &[u8], n: u8) -> bool
    requires { length field.now ≡ 32 }
    ensures { result ≡ is_member (little_number 32 field.now) n }
{
    let byte = field[usize::from(n / 8)];
    (byte >> (n % 8)) & 1 == 1
}

/// Whether the set has only numbers below that one.
fn is_below(set: &Categories, count: usize) -> bool
    requires few { count ≤ 256 }
    requires bounded { set.now < 2 ^ 256 }
    ensures { result ≡ below (2 ^ count) set.now }
{
    for n in count..NUMBERS {
        if set.has(n as u8) {
            return false;
        }
    }
    true
}
