//! The leaves of a shared index.
ghost use Rattle.std.specs.Prelude.{◌≡◌, ◌+◌, ◌-◌, ◌*◌, ◌^◌, ◌<◌, ◌≤◌, [], ◌∷◌, ◌++◌, length, map, drop, IfOk, Some, option_map, slice_get, slice_set};
ghost use Rattle.std.specs.List.{insert};
ghost use Rattle.std.specs.Arc.{arc_value};
ghost use Rattle.std.specs.Ordering.{nat_cmp, is_lt};
ghost use Rattle.std.specs.Cmp.Lexicographic.{slice_cmp};
ghost use Rattle.pages.specs.Parts.{change_items};
ghost use Rattle.dataspace.specs.Rooms.{none};
ghost use Rattle.profile_index.specs.Buckets.{key_of, keys_room, region_of, most_placed, names_length};

use crate::bucket_rows::{BucketRows, names_length};
use crate::entry::Entry;
use dataspace::{Region, Room};
use generic_names::{Pattern, first_qualifier};
use pages::{Change, KeyedPart, Made, Part, SearchKey, begin_of};
use std::alloc::{AllocError, Global};
use std::marker::Model;
use std::sync::Arc;

/// The most entries of a bucket.
const MOST: usize = 16;

/// The entries of a bucket that is packed, so that the next ones that come in don't split it.
const PACKED: usize = 12;

/// Up to 16 entries that stand together, shared by versions of an index. Their names have one first qualifier, or first
/// qualifiers that are generic; where there are more of them, they stand in several buckets. That is how buckets are
/// cut, and no search rests on it.
#[derive(Drop)]
pub(crate) struct Bucket<T: Drop> {
    /// How many entries there are.
    len: usize,
    /// The begin of the last one's key, by which most steps of a search pass the bucket over.
    begin: u64,
    /// The entries, with the keys of their names.
    rows: Arc<BucketRows<T>>,
}

impl<T: Drop> Model for Bucket<T> {
    ghost use Rattle.std.specs.Prelude.{List};
    ghost use Rattle.std.specs.Arc.{arc_value};
    ghost use Rattle.profile_index.specs.declared.entry.Entry.{Entry};
    ghost use Rattle.profile_index.specs.Buckets.{IsBucket};

    ghost Value = { List (Entry T) };

    ghost view = { λ bucket. arc_value bucket.rows };

    ghost invariant = { λ bucket. IsBucket (arc_value bucket.rows) bucket.len bucket.begin };
}

impl<T: Drop> Bucket<T> {
    /// A bucket of these entries.
    fn holding(alloc: Global, rows: BucketRows<T>) -> Result<Bucket<T>, AllocError>
        requires some { 0 < length rows }
        requires most { length rows ≤ 16 }
        ensures { IfOk result (λ bucket. bucket ≡ rows) }
    {
        let len = rows.entries().len();
        Ok(Bucket {
            len,
            begin: begin_of(rows.key(len - 1)),
            rows: Arc::new(alloc, rows)?,
        })
    }

    /// The entries, with the keys of their names.
    fn rows(&self) -> &BucketRows<T>
        ensures rows { result.now ≡ self.now }
        ensures some { 0 < length self.now }
        ensures most { length self.now ≤ 16 }
    {
        &self.rows
    }

    /// How many bytes the names have.
    fn names_length(&self) -> usize
        ensures length { result ≡ names_length self.now }
        ensures most { result ≤ 246 * length self.now }
    {
        names_length(self.rows().entries())
    }

    /// The region of the keys: of just their room, in which they lie in the order of the entries.
    pub(crate) fn keys(&self) -> &Region
        ensures { result.now ≡ region_of (map key_of self.now) }
    {
        self.rows().keys()
    }

    /// The room that was taken for the keys, free or not, but for what the keys of the entries before a place take.
    pub(crate) fn taken_from(&self, place: usize) -> Room
        requires { place ≤ length self.now }
        ensures room { result ≡ keys_room (drop place self.now) }
        ensures bytes { result.bytes < 2 ^ 32 }
    {
        self.rows().taken_from(place)
    }

    /// What is free in the region of the keys: nothing, since it has just the room of these.
    pub(crate) fn spare(&self) -> Room
        ensures { result ≡ none }
    {
        self.rows().spare()
    }

    /// Whether the key of the last entry is lower than this one. Where their begins differ, no key is looked at.
    fn is_below(&self, key: &SearchKey<'_>) -> bool
        ensures { option_map (λ last. is_lt (slice_cmp nat_cmp last key.now)) (slice_get (map key_of self.now) (length self.now - 1)) ≡ Some result }
    {
        let begin = key.begin();
        if self.begin == begin {
            return is_lower(self.rows().key(self.len - 1), key);
        }
        self.begin < begin
    }

    /// Whether a name has its place in this bucket, going by an entry of it.
    fn is_for(&self, place: usize, name: &Pattern) -> bool
        requires { place < length self.now }
    {
        have_one_bucket(&self.rows().at(place).name, name)
    }

    /// The bucket with one more entry, where it isn't full.
    fn grown(
        &self,
        alloc: Global,
        place: usize,
        entry: Arc<Entry<T>>,
    ) -> Result<Bucket<T>, AllocError>
        requires place { place ≤ length self.now }
        requires few { length self.now < 16 }
        ensures { IfOk result (λ bucket. bucket ≡ insert self.now place (arc_value entry)) }
    {
        let rows = self.rows().with_entry(alloc, place, place, entry)?;
        Bucket::holding(alloc, rows)
    }

    /// A full bucket in two halves, with one more entry in one of them.
    fn split(
        &self,
        alloc: Global,
        place: usize,
        entry: Arc<Entry<T>>,
    ) -> Result<(Bucket<T>, Bucket<T>), AllocError>
        requires place { place ≤ length self.now }
        requires full { length self.now ≡ 16 }
        ensures { IfOk result (λ halves. halves.0 ++ halves.1 ≡ insert self.now place (arc_value entry)) }
    {
        let half = MOST / 2;
        let front = Bucket::holding(alloc, self.rows().part(alloc, 0, half)?)?;
        let back = Bucket::holding(alloc, self.rows().part(alloc, half, MOST)?)?;
        if place <= half {
            return Ok((front.grown(alloc, place, entry)?, back));
        }
        let back = back.grown(alloc, place - half, entry)?;
        Ok((front, back))
    }
}

impl<T: Drop> Part<Entry<T>> for Bucket<T> {
    ghost items = { λ bucket. bucket };

    ghost most_placed = { most_placed };

    fn of(alloc: Global, item: Arc<Entry<T>>) -> Result<Made<Bucket<T>>, AllocError>
        ensures items { IfOk result (λ made. made.what ≡ arc_value item ∷ []) }
        ensures placed { IfOk result (λ made. made.placed ≤ most_placed) }
    {
        let rows = BucketRows::one(alloc, item)?;
        let what = Bucket::holding(alloc, rows)?;
        let placed = what.names_length();
        Ok(Made { what, placed })
    }

    fn packed(alloc: Global, all: &[Arc<Entry<T>>]) -> Result<Vec<Bucket<T>>, AllocError> {
        let mut buckets = Vec::new(alloc);
        let mut rest = all;
        while !rest.is_empty() {
            let (front, back) = rest.split_at(run_of(rest));
            let rows = BucketRows::of(alloc, front)?;
            buckets.push(Bucket::holding(alloc, rows)?)?;
            rest = back;
        }
        Ok(buckets)
    }

    fn len(&self) -> usize {
        self.len
    }

    fn total(parts: &[Bucket<T>]) -> usize {
        let mut total = 0;
        for bucket in parts {
            total += bucket.len;
        }
        total
    }

    fn share(&self) -> Result<Bucket<T>, AllocError> {
        Ok(Bucket {
            len: self.len,
            begin: self.begin,
            rows: Arc::try_clone(&self.rows)?,
        })
    }

    fn at(&self, place: usize) -> &Arc<Entry<T>> {
        self.rows().at(place)
    }

    fn locate(parts: &[Bucket<T>], place: usize) -> (usize, usize) {
        let mut rest = place;
        for (k, bucket) in parts.iter().enumerate() {
            if rest < bucket.len {
                return (k, rest);
            }
            rest -= bucket.len;
        }
        unreachable!()
    }

    fn takes(&self, item: &Entry<T>) -> bool {
        self.is_for(self.len - 1, &item.name)
    }

    fn with_replaced(
        &self,
        alloc: Global,
        place: usize,
        item: Arc<Entry<T>>,
    ) -> Result<Made<Bucket<T>>, AllocError>
        requires { place < length self.now }
        ensures items { IfOk result (λ made. made.what ≡ slice_set self.now place (arc_value item)) }
        ensures placed { IfOk result (λ made. made.placed ≤ most_placed) }
    {
        let rows = self.rows().with_entry(alloc, place, place + 1, item)?;
        let what = Bucket::holding(alloc, rows)?;
        let placed = what.names_length();
        Ok(Made { what, placed })
    }

    fn with_inserted(
        &self,
        alloc: Global,
        place: usize,
        item: Arc<Entry<T>>,
    ) -> Result<Made<Change<Bucket<T>>>, AllocError>
        requires place { place ≤ length self.now }
        requires room { length self.now + 1 < 2 ^ 64 }
        ensures items { IfOk result (λ made. change_items (λ bucket. bucket) made.what ≡ insert self.now place (arc_value item)) }
        ensures placed { IfOk result (λ made. made.placed ≤ most_placed) }
    {
        let last = self.len - 1;
        if place == 0 && !self.is_for(0, &item.name) {
            let made = Bucket::of(alloc, item)?;
            return Ok(two(made.what, self.share()?, made.placed));
        }
        if place > last && !self.is_for(last, &item.name) {
            let made = Bucket::of(alloc, item)?;
            return Ok(two(self.share()?, made.what, made.placed));
        }
        if self.len < MOST {
            let bucket = self.grown(alloc, place, item)?;
            let placed = bucket.names_length();
            return Ok(Made {
                what: Change::One(bucket),
                placed,
            });
        }
        let (front, back) = self.split(alloc, place, item)?;
        let placed = front.names_length() + back.names_length();
        Ok(two(front, back, placed))
    }

    fn with_removed(
        &self,
        alloc: Global,
        place: usize,
    ) -> Result<Made<Change<Bucket<T>>>, AllocError> {
        if self.len == 1 {
            return Ok(Made {
                what: Change::Gone,
                placed: 0,
            });
        }
        let rows = self.rows().without(alloc, place)?;
        let bucket = Bucket::holding(alloc, rows)?;
        let placed = bucket.names_length();
        Ok(Made {
            what: Change::One(bucket),
            placed,
        })
    }
}

impl<T: Drop> KeyedPart<Entry<T>> for Bucket<T> {
    ghost key_of = { key_of };

    fn reaches(&self, key: &SearchKey<'_>) -> bool {
        !self.is_below(key)
    }

    fn first_by_key(&self, key: &SearchKey<'_>) -> usize {
        let rows = self.rows();
        let mut low = 0;
        let mut high = self.len;
        while low < high {
            let middle = low + (high - low) / 2;
            if is_lower(rows.key(middle), key) {
                low = middle + 1;
            } else {
                high = middle;
            }
        }
        low
    }

    fn found_by_key(&self, key: &SearchKey<'_>) -> Option<&Arc<Entry<T>>> {
        let place = self.first_by_key(key);
        if place == self.len {
            return None;
        }
        Some(self.rows().at(place))
    }
}

/// Two buckets in place of one, for which so many bytes of names were placed.
fn two<T: Drop>(front: Bucket<T>, back: Bucket<T>, placed: usize) -> Made<Change<Bucket<T>>>
    ensures items { change_items (λ bucket. bucket) result.what ≡ front ++ back }
    ensures placed { result.placed ≡ placed }
{
    Made {
        what: Change::Two(front, back),
        placed,
    }
}

/// Whether a key is lower than the one that is searched for.
fn is_lower(key: &[u8], other: &SearchKey<'_>) -> bool
    ensures { result ≡ is_lt (slice_cmp nat_cmp key.now other.now) }
{
    key.cmp(other.bytes()).is_lt()
}

/// How many of these entries, from the first on, stand in one bucket that is packed.
fn run_of<T>(entries: &[Arc<Entry<T>>]) -> usize
    requires { 0 < length entries.now }
    ensures some { 0 < result }
    ensures most { result ≤ 16 }
    ensures within { result ≤ length entries.now }
{
    let most = entries.len().min(PACKED);
    for count in 1..most {
        if !have_one_bucket(&entries[0].name, &entries[count].name) {
            return count;
        }
    }
    most
}

/// Whether two names stand in one bucket: they have one first qualifier, or both a generic one.
fn have_one_bucket(first: &Pattern, second: &Pattern) -> bool {
    let one = first_qualifier(first.text());
    let other = first_qualifier(second.text());
    one == other || (is_generic(one) && is_generic(other))
}

/// Whether a qualifier has a generic character.
fn is_generic(qualifier: &[u8]) -> bool {
    qualifier.iter().any(|byte| *byte == b'%' || *byte == b'*')
}
