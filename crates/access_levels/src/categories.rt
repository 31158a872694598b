//! Sets of category numbers.
ghost use Rattle.std.specs.Prelude.{◌≡◌, ℕ, ◌-◌, ◌^◌, ◌==◌, ◌||◌, ◌&&◌, not, nat_eq};
ghost use Rattle.std.specs.Cmp.{partial_equiv_from_equiv, nat_eq_equiv};
ghost use Rattle.access_levels.specs.Category.{is_member, including, excluding, first_missing, IsFirstMissing};

use std::marker::Model;

/// The words of a set.
const WORDS: usize = 4;

/// A set of the category numbers 0 to 255.
#[derive(Clone, Copy, Debug)]
pub struct Categories {
    /// A bit for each of the numbers 0 to 255, 64 in a word.
    words: [u64; 4],
}

impl Model for Categories {
    ghost use Rattle.std.specs.Prelude.{ℕ};

    ghost Value = { ℕ };

    ghost use Rattle.access_levels.specs.Words.{AreWords, set_of, in_words, in_words-set_of};

    ghost view = { set_of };

    ghost invariant = { λ set. AreWords set.words };

    ghost inverse = { in_words };

    ghost inverse_ok = { in_words-set_of };
}

impl Categories {
    /// The set of no category.
    pub fn none() -> Categories
        ensures { result ≡ 0 }
    {
        Categories { words: [0; 4] }
    }

    /// The set of all categories.
    pub fn all() -> Categories
        ensures { result ≡ 2 ^ 256 - 1 }
    {
        Categories {
            words: [u64::MAX; 4],
        }
    }

    /// Whether a number is in the set.
    pub fn has(&self, n: u8) -> bool
        ensures { result ≡ is_member self.now n }
    {
        let word = self.words[usize::from(n / 64)];
        (word >> (n % 64)) & 1 == 1
    }

    /// The set with a number added.
    pub fn with(self, n: u8) -> Categories
        ensures value { result ≡ including self n }
        ensures members { (m : ℕ) → is_member result m ≡ (m == n || is_member self m) }
    {
        let mut words = self.words;
        words[usize::from(n / 64)] |= 1 << (n % 64);
        Categories { words }
    }

    /// The set with a number taken away.
    pub fn without(self, n: u8) -> Categories
        ensures value { result ≡ excluding self n }
        ensures members { (m : ℕ) → is_member result m ≡ (not (m == n) && is_member self m) }
    {
        let mut words = self.words;
        words[usize::from(n / 64)] &= !(1 << (n % 64));
        Categories { words }
    }

    /// The least number that `wanted` has and this set hasn't.
    pub fn first_missing(&self, wanted: &Categories) -> Option<u8>
        ensures value { result ≡ first_missing self.now wanted.now }
        ensures least { IsFirstMissing self.now wanted.now result }
    {
        for i in 0..WORDS {
            let missing = wanted.words[i] & !self.words[i];
            if missing != 0 {
                return Some((64 * i as u32 + missing.trailing_zeros()) as u8);
            }
        }
        None
    }
}

impl PartialEq for Categories {
    ghost eq = { nat_eq };

    ghost laws = { partial_equiv_from_equiv nat_eq_equiv };

    fn eq(&self, other: &Categories) -> bool {
        self.words == other.words
    }
}

impl Eq for Categories {
    ghost laws = { nat_eq_equiv };
}
