//! Identifiers: the names of users, groups, classes, ports, applications, labels, levels and categories.
ghost use Rattle.std.specs.Prelude.{◌≡◌, ℕ, ◌≤◌, length, Some, Ok, refl, bytes_eq};
ghost use Rattle.std.specs.Hash as fed;
ghost use Rattle.std.specs.Ordering.{nat_cmp};
ghost use Rattle.std.specs.Cmp.{partial_equiv_from_equiv};
ghost use Rattle.std.specs.Cmp.Lexicographic.{slice_cmp, nat_list_eq_equiv, nat_list_cmp_total, texts_ties, texts_po};
ghost use Rattle.access_levels.specs.Number.{as_number, same_hash};
ghost use Rattle.access_levels.specs.Spelling.{is_id_byte, bad_byte, begins_with_digit, id_of, group_of};

use std::cmp::Ordering;
use std::hash::{Hash, Hasher};
use std::marker::Model;

/// The most bytes that an identifier has.
const MOST: usize = 8;

/// Why a text is no identifier.
#[derive(Clone, Copy, Debug, PartialEq, Eq)]
pub enum IdFault {
    /// It has no byte.
    Empty,
    /// It has more than eight bytes.
    TooLong,
    /// The place, from 1, of its first byte that can't stand there.
    BadByte(u32),
}

/// An identifier: one to eight of the letters A to Z, the digits, and `#`, `$`, `@`. In contracts it is
/// its spelling. Two identifiers are compared as texts. Lower case is folded by those who read it.
#[derive(Clone, Copy, Debug)]
pub struct Id {
    /// Its bytes, and zeros behind them.
    bytes: [u8; 8],
    /// How many bytes it has, 1 to 8.
    len: u8,
}

impl Model for Id {
    ghost use Rattle.std.specs.Prelude.{List, ℕ};

    ghost Value = { List ℕ };

    ghost use Rattle.access_levels.specs.Padding.{spelling, IsPadded, padded, padded-spelling};

    ghost view = { spelling };

    ghost invariant = { IsPadded };

    ghost inverse = { padded };

    ghost inverse_ok = { padded-spelling };
}

impl Id {
    /// The identifier that the bytes spell.
    ///
    /// # Errors
    ///
    /// The first that fits of: no byte, more than eight bytes, a byte that no identifier has.
    pub fn read(bytes: &[u8]) -> Result<Id, IdFault>
        ensures { result ≡ id_of bytes.now }
    {
        if bytes.is_empty() {
            return Err(IdFault::Empty);
        }
        if bytes.len() > MOST {
            return Err(IdFault::TooLong);
        }
        match first_bad_byte(bytes) {
            Some(place) => Err(IdFault::BadByte(place)),
            None => Ok(Id::spelled_by(bytes)),
        }
    }

    /// The group name that the bytes spell. It doesn't begin with a digit (this product's own rule).
    ///
    /// # Errors
    ///
    /// As for `read`, where a leading digit is a bad byte.
    pub fn read_group(bytes: &[u8]) -> Result<Id, IdFault>
        ensures { result ≡ group_of bytes.now }
    {
        if bytes.len() <= MOST && begins_with_digit(bytes) {
            return Err(IdFault::BadByte(1));
        }
        Id::read(bytes)
    }

    /// The identifier of a text that is known to spell one: its bytes aren't looked at again.
    pub fn known(text: &[u8]) -> Id
        requires { id_of text.now ≡ Ok text.now }
        ensures { result ≡ text.now }
    {
        Id::spelled_by(text)
    }

    /// Its spelling.
    pub fn text(&self) -> &[u8]
        ensures spelling { result.now ≡ self.now }
        ensures spelled { id_of self.now ≡ Ok self.now }
    {
        let len = usize::from(self.len);
        &self.bytes[..len]
    }

    /// The eight bytes as one number.
    fn as_number(&self) -> u64
        ensures { result ≡ as_number self.now }
    {
        u64::from_be_bytes(self.bytes)
    }

    /// The identifier of a text that is known to spell one.
    fn spelled_by(text: &[u8]) -> Id
        requires short { length text.now ≤ 8 }
        requires spelled { id_of text.now ≡ Ok text.now }
        ensures { result ≡ text.now }
    {
        let count = text.len();
        let mut bytes = [0; 8];
        let front = &mut bytes[..count];
        front.copy_from_slice(text);
        Id {
            bytes,
            len: count as u8,
        }
    }
}

/// Whether a byte may stand in an identifier.
fn is_id_byte(byte: u8) -> bool
    ensures { result ≡ is_id_byte byte }
{
    byte.is_ascii_uppercase()
        || byte.is_ascii_digit()
        || byte == b'#'
        || byte == b'$'
        || byte == b'@'
}

/// The place, from 1, of the first byte that no identifier has.
fn first_bad_byte(bytes: &[u8]) -> Option<u32>
    requires { length bytes.now ≤ 8 }
    ensures { result ≡ bad_byte bytes.now }
{
    let mut place = 1;
    for byte in bytes {
        if !is_id_byte(*byte) {
            return Some(place);
        }
        place += 1;
    }
    None
}

/// Whether the first byte is a digit.
fn begins_with_digit(bytes: &[u8]) -> bool
    ensures { result ≡ begins_with_digit bytes.now }
{
    match bytes {
        [first, ..] => first.is_ascii_digit(),
        [] => false,
    }
}

impl PartialEq for Id {
    ghost eq = { bytes_eq };

    ghost laws = { partial_equiv_from_equiv nat_list_eq_equiv };

    fn eq(&self, other: &Id) -> bool {
        self.as_number() == other.as_number() && self.len == other.len
    }
}

impl Eq for Id {
    ghost laws = { nat_list_eq_equiv };
}

impl PartialOrd for Id {
    ghost partial_cmp = { λ a b. Some (slice_cmp nat_cmp a b) };

    ghost laws = { texts_po };

    fn partial_cmp(&self, other: &Id) -> Option<Ordering> {
        Some(self.cmp(other))
    }
}

impl Ord for Id {
    ghost cmp = { slice_cmp nat_cmp };

    ghost total = { nat_list_cmp_total };

    ghost matches_partial_cmp = { λ a b. refl };

    ghost matches_eq = { texts_ties };

    fn cmp(&self, other: &Id) -> Ordering {
        self.text().cmp(other.text())
    }
}

impl Hash for Id {
    ghost hash_input = { λ id. fed.u64 (as_number id) };

    ghost respects_eq = { same_hash };

    fn hash<H: Hasher>(&self, state: &mut H) {
        state.write_u64(self.as_number());
    }
}
