ghost use Rattle.std.specs.Prelude.{◌≡◌, ◌≢◌, ◌+◌, ◌≤◌, ◌&&◌, IsTrue, [], ◌∷◌, length};
ghost use Rattle.std.specs.Ordering.{nat_cmp};
ghost use Rattle.std.specs.Cmp.Lexicographic.{slice_cmp};
ghost use Rattle.generic_names.specs.Spelled.{qualifiers};
ghost use Rattle.generic_names.specs.Before.{rank, ranks};
ghost use Rattle.generic_names.specs.Reading.{rest_at};
ghost use Rattle.generic_names.specs.Ranked.{first_is_double, ranks_at};

use crate::covering::is_double_asterisk;
use crate::qualifiers::qualifier_end;
use std::cmp::Ordering;
use std::marker::Model;

/// The rank at the end of a qualifier.
pub(crate) const END_OF_QUALIFIER: u16 = 257;

/// The rank at the end of a name, which is its last.
pub(crate) const END_OF_NAME: u16 = 259;

/// The rank of a whole `**`.
pub(crate) const DOUBLE_ASTERISK: u16 = 260;

/// The ranks of a name from some place on.
#[derive(Drop)]
pub(crate) struct Ranks<'a> {
    /// The text of the name.
    text: &'a [u8],
    /// The place from which ranks are left.
    at: usize,
    /// Whether a qualifier begins at that place.
    begins: bool,
}

impl<'a> Model for Ranks<'a> {
    ghost use Rattle.std.specs.Prelude.{ℕ, ◌+◌, ◌≤◌, List, length};
    ghost use Rattle.generic_names.specs.Ranked.{ranks_at};

    ghost Value = { List ℕ };

    ghost view = { λ r. ranks_at r.text.now r.begins r.at };

    ghost invariant = { λ r. r.at ≤ length r.text.now + 1 };
}

impl<'a> Ranks<'a> {
    /// All ranks of a name.
    pub(crate) fn of(text: &'a [u8]) -> Ranks<'a>
        ensures { result ≡ ranks (qualifiers text.now) }
    {
        Ranks {
            text,
            at: 0,
            begins: true,
        }
    }

    /// The next rank. The last one is that of the name's end.
    pub(crate) fn next(&mut self) -> u16
        ensures next { result ≢ 259 → self.old ≡ result ∷ self.new }
        ensures end { result ≡ 259 → self.old ≡ 259 ∷ [] }
        ensures highest { result ≤ 260 }
    {
        let step = step_at(self.text, self.begins, self.at);
        self.begins = step.begins;
        self.at = step.at;
        step.rank
    }
}

/// A rank, and the place behind it, which may be where a qualifier begins.
#[derive(Clone, Copy)]
struct Step {
    /// The rank.
    rank: u16,
    /// Whether a qualifier begins behind it.
    begins: bool,
    /// The place behind it.
    at: usize,
}

/// The rank at a place, which may be where a qualifier begins.
fn step_at(text: &[u8], begins: bool, at: usize) -> Step
    requires { at ≤ length text.now + 1 }
    ensures next { result.rank ≢ 259 → ranks_at text.now begins at ≡ result.rank ∷ ranks_at text.now result.begins result.at }
    ensures end { result.rank ≡ 259 → ranks_at text.now begins at ≡ 259 ∷ [] }
    ensures within { result.at ≤ length text.now + 1 }
    ensures highest { result.rank ≤ 260 }
{
    if at > text.len() {
        return Step {
            rank: END_OF_NAME,
            begins,
            at,
        };
    }
    if begins_double(text, begins, at) {
        return Step {
            rank: DOUBLE_ASTERISK,
            begins: true,
            at: at + 3,
        };
    }
    if at == text.len() || text[at] == b'.' {
        return Step {
            rank: END_OF_QUALIFIER,
            begins: true,
            at: at + 1,
        };
    }
    Step {
        rank: rank_of(text[at]),
        begins: false,
        at: at + 1,
    }
}

/// Whether a whole `**` begins at a place.
fn begins_double(text: &[u8], begins: bool, at: usize) -> bool
    requires { at ≤ length text.now }
    ensures test { result ≡ (begins && first_is_double (rest_at text.now at)) }
    ensures double { IsTrue result → rest_at text.now at ≡ (42 ∷ 42 ∷ []) ∷ rest_at text.now (at + 3) }
    ensures within { IsTrue result → at + 2 ≤ length text.now }
{
    begins && is_double_asterisk(&text[at..qualifier_end(text, at)])
}

/// The rank of a byte.
pub(crate) fn rank_of(byte: u8) -> u16
    ensures rank { result ≡ rank byte }
    ensures highest { result ≤ 258 }
{
    match byte {
        b'%' => 256,
        b'*' => 258,
        _ => u16::from(byte),
    }
}

/// Which of two names comes first in the order of specificity.
pub(crate) fn compare(first: &[u8], second: &[u8]) -> Ordering
    ensures { result ≡ slice_cmp nat_cmp (ranks (qualifiers first.now)) (ranks (qualifiers second.now)) }
{
    let mut these = Ranks::of(first);
    let mut those = Ranks::of(second);
    loop {
        let (this, that) = (these.next(), those.next());
        if this != that || this == END_OF_NAME {
            return this.cmp(&that);
        }
    }
}
