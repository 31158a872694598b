ghost use Rattle.std.specs.Prelude.{◌≡◌, ◌+◌, ◌-◌, ◌^◌, ◌<◌, ◌≤◌, List, [], ◌∷◌, ◌++◌, length, insert, IfOk, Some, slice_set, vec_len, unwrap_or, Option};
ghost use Rattle.std.specs.List.{flat_map};
ghost use Rattle.std.specs.Arc.{arc_value};
ghost use Rattle.pages.specs.Parts.{change_items};
ghost use Rattle.pages.specs.PartAt.{IsPartAt};

use crate::keyed_part::KeyedPart;
use crate::part::{Change, Made, OpenPart, Part};
use crate::search::{ByTest, first_of, found_of, is_number, last_part};
use crate::search_key::SearchKey;
use crate::splice::{inserted, item_at, part_at, removed, replaced, share_all};
use crate::test::Test;
use std::alloc::{AllocError, Global};
use std::marker::{Model, PhantomData};
use std::sync::Arc;

/// The most parts of a page.
const MOST: usize = 32;

/// The parts of a page that is packed.
const PACKED: usize = 24;

/// A page that versions of a list share. It has its own number of items beside it, so that a place is found by the
/// numbers of the pages of one level, which stand in a row; and its last part, so that a step of a search goes to the
/// last item or key at once.
#[derive(Drop)]
pub struct SharedPage<T: Drop, P: Part<T>> {
    /// How many items are below.
    len: usize,
    /// At most 32 parts, with an item below at least.
    parts: Arc<Vec<P>>,
    /// The last of these parts.
    last: P,
    /// What the items are, of which it holds none itself.
    of: PhantomData<T>,
}

impl<T: Drop, P: Part<T>> Model for SharedPage<T, P> {
    ghost use Rattle.std.specs.Prelude.{List, vec_len};
    ghost use Rattle.std.specs.List.{flat_map};
    ghost use Rattle.std.specs.Arc.{arc_value};
    ghost use Rattle.pages.specs.Parts.{IsPage};

    ghost Value = { List T };

    ghost view = { λ page. flat_map P.items (arc_value page.parts).items };

    ghost invariant = { λ page. IsPage (flat_map P.items (arc_value page.parts).items) page.len (vec_len (arc_value page.parts)) (P.items page.last) };
}

impl<T: Drop, P: Part<T>> SharedPage<T, P> {
    /// The parts of a page.
    fn parts(&self) -> &[P]
        ensures items { flat_map P.items result.now ≡ self.now }
        ensures most { length result.now ≤ 32 }
        ensures some { 0 < length self.now }
        ensures room { length self.now < 2 ^ 64 }
    {
        is_number(self.len);
        self.parts.as_slice()
    }

    /// The part in which the item at a place stands, and the place in it.
    pub fn part_at(&self, place: usize) -> (&P, usize)
        requires { place < length self.now }
        ensures { IsPartAt self.now place (P.items result.0.now) result.1 }
    {
        part_at(self.parts(), place)
    }

    /// A page of these parts, or none where they are empty.
    fn holding(alloc: Global, parts: Vec<P>) -> Result<Option<SharedPage<T, P>>, AllocError>
        requires most { vec_len parts ≤ 32 }
        requires room { length (flat_map P.items parts.items) < 2 ^ 64 }
        ensures { IfOk result (λ page. unwrap_or page [] ≡ flat_map P.items parts.items) }
    {
        let len = P::total(&parts);
        if len == 0 {
            return Ok(None);
        }
        let last = last_part(&parts).share()?;
        Ok(Some(SharedPage {
            len,
            parts: Arc::new(alloc, parts)?,
            last,
            of: PhantomData,
        }))
    }

    /// Two pages in place of one, where both are there.
    fn change_of(
        front: Option<SharedPage<T, P>>,
        back: Option<SharedPage<T, P>>,
    ) -> Change<SharedPage<T, P>>
        ensures { change_items (λ page. page) result ≡ unwrap_or front [] ++ unwrap_or back [] }
    {
        match (front, back) {
            (Some(front), Some(back)) => Change::Two(front, back),
            (Some(only), None) | (None, Some(only)) => Change::One(only),
            (None, None) => Change::Gone,
        }
    }

    /// The parts as one page, or as two where they are too many for one.
    fn one_or_two(alloc: Global, mut parts: Vec<P>) -> Result<Change<SharedPage<T, P>>, AllocError>
        requires most { vec_len parts ≤ 33 }
        requires room { length (flat_map P.items parts.items) < 2 ^ 64 }
        ensures { IfOk result (λ change. change_items (λ page. page) change ≡ flat_map P.items parts.items) }
    {
        if parts.len() <= MOST {
            return Ok(SharedPage::change_of(SharedPage::holding(alloc, parts)?, None));
        }
        let back = parts.split_off(MOST / 2)?;
        Ok(SharedPage::change_of(
            SharedPage::holding(alloc, parts)?,
            SharedPage::holding(alloc, back)?,
        ))
    }
}

impl<T: Drop, P: Part<T>> Part<T> for SharedPage<T, P> {
    ghost items = { λ page. page };

    ghost most_placed = { P.most_placed };

    fn of(alloc: Global, item: Arc<T>) -> Result<Made<SharedPage<T, P>>, AllocError>
        ensures items { IfOk result (λ made. made.what ≡ arc_value item ∷ []) }
        ensures placed { IfOk result (λ made. made.placed ≤ P.most_placed) }
    {
        let made = P::of(alloc, item)?;
        let last = made.what.share()?;
        let mut parts = Vec::new(alloc);
        parts.push(made.what)?;
        let what = SharedPage {
            len: 1,
            parts: Arc::new(alloc, parts)?,
            last,
            of: PhantomData,
        };
        Ok(Made {
            what,
            placed: made.placed,
        })
    }

    fn packed(alloc: Global, all: &[Arc<T>]) -> Result<Vec<SharedPage<T, P>>, AllocError> {
        let parts = P::packed(alloc, all)?;
        packed(alloc, &parts)
    }

    fn len(&self) -> usize {
        self.len
    }

    fn total(parts: &[SharedPage<T, P>]) -> usize {
        let mut total = 0;
        for page in parts {
            total += page.len;
        }
        total
    }

    fn share(&self) -> Result<SharedPage<T, P>, AllocError> {
        Ok(SharedPage {
            len: self.len,
            parts: Arc::try_clone(&self.parts)?,
            last: self.last.share()?,
            of: PhantomData,
        })
    }

    fn at(&self, place: usize) -> &Arc<T> {
        item_at(self.parts(), place)
    }

    fn locate(parts: &[SharedPage<T, P>], place: usize) -> (usize, usize) {
        let mut rest = place;
        for (k, page) in parts.iter().enumerate() {
            if rest < page.len {
                return (k, rest);
            }
            rest -= page.len;
        }
        unreachable!()
    }

    fn takes(&self, item: &T) -> bool {
        self.last.takes(item)
    }

    fn with_replaced(
        &self,
        alloc: Global,
        place: usize,
        item: Arc<T>,
    ) -> Result<Made<SharedPage<T, P>>, AllocError>
        requires { place < length self.now }
        ensures items { IfOk result (λ made. made.what ≡ slice_set self.now place (arc_value item)) }
        ensures placed { IfOk result (λ made. made.placed ≤ P.most_placed) }
    {
        let made = replaced(alloc, self.parts(), place, item)?;
        let last = last_part(&made.what).share()?;
        let what = SharedPage {
            len: self.len,
            parts: Arc::new(alloc, made.what)?,
            last,
            of: PhantomData,
        };
        Ok(Made {
            what,
            placed: made.placed,
        })
    }

    fn with_inserted(
        &self,
        alloc: Global,
        place: usize,
        item: Arc<T>,
    ) -> Result<Made<Change<SharedPage<T, P>>>, AllocError>
        requires place { place ≤ length self.now }
        requires room { length self.now + 1 < 2 ^ 64 }
        ensures items { IfOk result (λ made. change_items (λ page. page) made.what ≡ insert self.now place (arc_value item)) }
        ensures placed { IfOk result (λ made. made.placed ≤ P.most_placed) }
    {
        let made = inserted(alloc, self.parts(), place, item)?;
        Ok(Made {
            what: SharedPage::one_or_two(alloc, made.what)?,
            placed: made.placed,
        })
    }

    fn with_removed(
        &self,
        alloc: Global,
        place: usize,
    ) -> Result<Made<Change<SharedPage<T, P>>>, AllocError> {
        let made = removed(alloc, self.parts(), place)?;
        Ok(Made {
            what: SharedPage::one_or_two(alloc, made.what)?,
            placed: made.placed,
        })
    }
}

impl<T: Drop, P: OpenPart<T>> OpenPart<T> for SharedPage<T, P> {
    fn last(&self) -> &Arc<T> {
        self.last.last()
    }

    fn first<Q: Test<T>>(&self, test: &Q) -> usize {
        first_of(self.parts(), &ByTest { test })
    }

    fn run(parts: &[SharedPage<T, P>], place: usize) -> &[Arc<T>] {
        let (k, rest) = SharedPage::locate(parts, place);
        P::run(parts[k].parts(), rest)
    }
}

impl<T: Drop, P: KeyedPart<T>> KeyedPart<T> for SharedPage<T, P> {
    ghost key_of = { P.key_of };

    fn reaches(&self, key: &SearchKey<'_>) -> bool {
        self.last.reaches(key)
    }

    fn first_by_key(&self, key: &SearchKey<'_>) -> usize {
        first_of(self.parts(), key)
    }

    fn found_by_key(&self, key: &SearchKey<'_>) -> Option<&Arc<T>> {
        found_of(self.parts(), key)
    }
}

/// The parts in pages that are full by three quarters, so that the next inserts don't split them.
fn packed<T: Drop, P: Part<T>>(
    alloc: Global,
    parts: &[P],
) -> Result<Vec<SharedPage<T, P>>, AllocError>
    requires { length (flat_map P.items parts.now) < 2 ^ 64 }
    ensures { IfOk result (λ pages. flat_map (λ page. page) pages.items ≡ flat_map P.items parts.now) }
{
    let mut pages = Vec::new(alloc);
    let mut rest = parts;
    while !rest.is_empty() {
        let (front, back) = rest.split_at(rest.len().min(PACKED));
        let mut page = Vec::with_capacity(alloc, front.len())?;
        share_all(front, &mut page)?;
        if let Some(page) = SharedPage::holding(alloc, page)? {
            pages.push(page)?;
        }
        rest = back;
    }
    Ok(pages)
}
