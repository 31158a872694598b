ghost use Rattle.std.specs.Prelude.{◌≡◌, ℕ, ◌<◌, ◌≤◌, [], ◌∷◌, ◌++◌, length, map, take};
ghost use Rattle.std.specs.Ordering.{nat_cmp, is_lt};
ghost use Rattle.std.specs.Cmp.Lexicographic.{slice_cmp};
ghost use Rattle.generic_names.specs.Spelled.{qualifiers};
ghost use Rattle.generic_names.specs.Before.{ranks};
ghost use Rattle.generic_names.specs.OrderKey.{squeezed, discrete_byte, order_key, qualifier_key, AreDiscrete};

use crate::covering::is_double_asterisk;
use crate::order::{DOUBLE_ASTERISK, END_OF_NAME, END_OF_QUALIFIER, Ranks, rank_of};
use crate::reading::has_generic_byte;
use std::cmp::Ordering;
use std::marker::Model;

/// The most bytes that a key has: one for each byte of the longest name, and two for its end.
const LONGEST: usize = 248;

/// The end of a qualifier as one byte.
const QUALIFIER_ENDS: u8 = 252;

/// The end of a name as one byte.
const NAME_ENDS: u8 = 254;

/// The place of a name, or of a gap's end, in the order of specificity, as bytes: the lower key belongs to the
/// more specific name. So a search through names in order compares bytes only. It lies in an array of fixed size.
#[derive(Clone, Copy)]
pub struct OrderKey {
    /// How many bytes the key has.
    length: usize,
    /// The key, and zeros behind it.
    bytes: [u8; LONGEST],
}

impl Model for OrderKey {
    ghost use Rattle.std.specs.Prelude.{ℕ, List};

    ghost Value = { List ℕ };

    ghost use Rattle.generic_names.specs.KeyBytes.{key_bytes, IsPadded, padded, padded-key_bytes};

    ghost view = { key_bytes };

    ghost invariant = { IsPadded };

    ghost inverse = { padded };

    ghost inverse_ok = { padded-key_bytes };
}

impl OrderKey {
    /// The key of a name with this text. One that isn't generic is made in one pass.
    pub(crate) fn of(text: &[u8]) -> OrderKey
        requires { length text.now ≤ 246 }
        ensures { result ≡ order_key text.now }
    {
        if has_generic_byte(text) {
            return OrderKey::of_first(text, LONGEST);
        }
        OrderKey::of_discrete(text)
    }

    /// The key of a name without generic characters: its bytes, a period as the end of a qualifier.
    pub(crate) fn of_discrete(text: &[u8]) -> OrderKey
        requires fits { length text.now ≤ 246 }
        requires discrete { AreDiscrete text.now }
        ensures { result ≡ order_key text.now }
    {
        let mut bytes = [0; LONGEST];
        for (at, byte) in text.iter().enumerate() {
            bytes[at] = discrete_byte(*byte);
        }
        bytes[text.len()] = QUALIFIER_ENDS;
        bytes[text.len() + 1] = NAME_ENDS;
        OrderKey {
            length: text.len() + 2,
            bytes,
        }
    }

    /// The key of so many of the first ranks of a text, or of all where it has no more.
    pub(crate) fn of_first(text: &[u8], count: usize) -> OrderKey
        requires { count ≤ 248 }
        ensures { result ≡ map squeezed (take count (ranks (qualifiers text.now))) }
    {
        let mut key = OrderKey::empty();
        let mut these = Ranks::of(text);
        for _at in 0..count {
            let rank = these.next();
            key.push(rank);
            if rank == END_OF_NAME {
                return key;
            }
        }
        key
    }

    /// The key of a first qualifier: those of all names that have it begin with this one, and no others do.
    pub fn of_qualifier(qualifier: &[u8]) -> OrderKey
        requires { length qualifier.now ≤ 246 }
        ensures { result ≡ qualifier_key qualifier.now }
    {
        let mut key = OrderKey::empty();
        if is_double_asterisk(qualifier) {
            key.push(DOUBLE_ASTERISK);
            return key;
        }
        for byte in qualifier {
            key.push(rank_of(*byte));
        }
        key.push(END_OF_QUALIFIER);
        key
    }

    /// A key without bytes.
    fn empty() -> OrderKey
        ensures { result ≡ [] }
    {
        OrderKey {
            length: 0,
            bytes: [0; LONGEST],
        }
    }

    /// Adds a rank at the end.
    pub(crate) fn push(&mut self, rank: u16)
        requires room { length self.old < 248 }
        requires rank { rank ≤ 260 }
        ensures { self.new ≡ self.old ++ squeezed rank ∷ [] }
    {
        self.bytes[self.length] = squeezed(rank);
        self.length += 1;
    }

    /// The bytes of the key.
    pub fn as_bytes(&self) -> &[u8]
        ensures { result.now ≡ self.now }
    {
        &self.bytes[..self.length]
    }

    /// Which of two keys is lower. What the lower one belongs to comes first.
    pub fn order(&self, other: &OrderKey) -> Ordering
        ensures { result ≡ slice_cmp nat_cmp self.now other.now }
    {
        self.as_bytes().cmp(other.as_bytes())
    }

    /// Whether this key is lower than another.
    pub fn is_before(&self, other: &OrderKey) -> bool
        ensures { result ≡ is_lt (slice_cmp nat_cmp self.now other.now) }
    {
        self.order(other).is_lt()
    }
}

/// The byte in a key for one of a name without generic characters.
fn discrete_byte(byte: u8) -> u8
    ensures { result ≡ discrete_byte byte }
{
    if byte == b'.' { QUALIFIER_ENDS } else { byte }
}

/// A rank as one byte.
fn squeezed(rank: u16) -> u8
    requires { rank ≤ 260 }
    ensures { result ≡ squeezed rank }
{
    if rank < 256 {
        rank as u8
    } else {
        (rank - 5) as u8
    }
}
