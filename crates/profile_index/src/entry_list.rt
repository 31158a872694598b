ghost use Rattle.std.specs.Prelude.{◌≡◌, ◌<◌, ◌≤◌, true, false, List, length, get_or};
ghost use Rattle.std.specs.List.{AllWithin};
ghost use Rattle.generic_names.specs.Best.{IsInOrder, AreNamed};
ghost use Rattle.generic_names.specs.OrderKey.{is_lower};
ghost use Rattle.profile_index.specs.Indexed.{name_of};
ghost use Rattle.profile_index.specs.declared.entry.Entry.{Entry};

use crate::bucket::Bucket;
use crate::entry::Entry;
use generic_names::OrderKey;
use pages::{Pages, SearchKey, SharedPage};

/// Entries by their places, and the search among them.
pub(crate) trait EntryList<T> {
    ghost entries: { Self → List (Entry T) };

    /// How many entries there are.
    fn len(&self) -> usize
        ensures { result ≡ length (entries self.now) };

    /// The entry at a place.
    fn entry(&self, place: usize) -> &Entry<T>
        requires { place < length (entries self.now) }
        ensures { result.now ≡ get_or (entries self.now) place result.now };

    /// Where the entries end whose names have lower keys than this one.
    fn end_below(&self, key: &OrderKey) -> usize
        requires ordered { IsInOrder name_of (entries self.now) }
        requires named { AreNamed name_of (entries self.now) }
        ensures within { result ≤ length (entries self.now) }
        ensures below { AllWithin (λ e. is_lower e.name key.now ≡ true) (entries self.now) 0 result }
        ensures above { AllWithin (λ e. is_lower e.name key.now ≡ false) (entries self.now) result (length (entries self.now)) };
}

/// Entries in pages, whose leaves are buckets. A class has as many buckets as first qualifiers, so that a level of
/// pages stands between these and the top.
pub(crate) type SharedEntries<T> = Pages<Entry<T>, SharedPage<Entry<T>, Bucket<T>>>;

impl<T: Drop> EntryList<T> for SharedEntries<T> {
    ghost entries = { λ list. list };

    fn len(&self) -> usize {
        Pages::len(self)
    }

    fn entry(&self, place: usize) -> &Entry<T> {
        self.at(place)
    }

    fn end_below(&self, key: &OrderKey) -> usize {
        self.first_by_key(&SearchKey::of(key.as_bytes()))
    }
}
