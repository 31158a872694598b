//! The key of a search.
ghost use Rattle.std.specs.Prelude.{◌≡◌, get_or};
ghost use Rattle.pages.specs.KeyBegin.{begin_of, AreBytes};

use std::marker::Model;

/// A key that is searched for, with its begin. Where the begins of two keys differ, they compare as the keys do, so
/// that most steps of a search compare two numbers.
#[derive(Drop)]
pub struct SearchKey<'a> {
    /// The key.
    bytes: &'a [u8],
    /// Its begin.
    begin: u64,
}

impl<'a> Model for SearchKey<'a> {
    ghost use Rattle.std.specs.Prelude.{◌≡◌, ℕ, List};
    ghost use Rattle.pages.specs.KeyBegin.{begin_of, AreBytes};

    ghost Value = { List ℕ };

    ghost view = { λ key. key.bytes.now };

    ghost invariant = { λ key. (key.begin ≡ begin_of key.bytes.now) × AreBytes key.bytes.now };
}

impl<'a> SearchKey<'a> {
    /// The search for this key.
    pub fn of(bytes: &'a [u8]) -> SearchKey<'a>
        ensures { result ≡ bytes.now }
    {
        SearchKey {
            bytes,
            begin: begin_of(bytes),
        }
    }

    /// The key.
    pub fn bytes(&self) -> &'a [u8]
        ensures { result.now ≡ self.now }
    {
        self.bytes
    }

    /// Its begin.
    pub fn begin(&self) -> u64
        ensures begin { result ≡ begin_of self.now }
        ensures bytes { AreBytes self.now }
    {
        self.begin
    }
}

/// The begin of a key: its first eight bytes as a number, with zeros behind a shorter one.
pub fn begin_of(key: &[u8]) -> u64
    ensures begin { result ≡ begin_of key.now }
    ensures bytes { AreBytes key.now }
{
    let mut begin = 0;
    for place in 0..8 {
        begin = begin * 256 + byte_at(key, place);
    }
    begin
}

/// The byte at a place, or zero behind the last.
fn byte_at(bytes: &[u8], place: usize) -> u64
    ensures { result ≡ get_or bytes.now place 0 }
{
    if place < bytes.len() {
        return bytes[place] as u64;
    }
    0
}
