ghost use Rattle.std.specs.Prelude.{◌≡◌, ◌+◌, ◌-◌, ◌^◌, ◌<◌, ◌≤◌, Bool, true, false, length, take, Some, slice_get, slice_index_or, option_map};
ghost use Rattle.std.specs.Arc.{arc_value};
ghost use Rattle.std.specs.List.{flat_map, position_or_len, list_any};
ghost use Rattle.std.specs.Option.{option_copied};
ghost use Rattle.pages.specs.Rising.{Rises, reaches};

use crate::keyed_part::KeyedPart;
use crate::part::{OpenPart, Part};
use crate::search_key::SearchKey;
use crate::test::Test;
use std::sync::Arc;

/// A question that is asked of the parts of a page, and then within one of them.
pub(crate) trait Probe<T: Drop, P: Part<T>> {
    ghost passes: { Self → T → Bool };

    /// Whether the last item of a part passes.
    fn last_passes(&self, part: &P) -> bool
        ensures { (item : T) × (slice_get (P.items part.now) (length (P.items part.now) - 1) ≡ Some item) × (result ≡ passes self.now item) };

    /// The first place in a part where an item passes, or the number of its items.
    fn first_in(&self, part: &P) -> usize
        requires { Rises (passes self.now) (P.items part.now) }
        ensures { result ≡ position_or_len (passes self.now) (P.items part.now) };
}

/// The question whether a test holds.
#[derive(Drop)]
pub(crate) struct ByTest<'a, Q> {
    /// The test.
    pub(crate) test: &'a Q,
}

impl<T: Drop, P: OpenPart<T>, Q: Test<T>> Probe<T, P> for ByTest<'_, Q> {
    ghost passes = { λ probe. Q.passes probe.test.now };

    fn last_passes(&self, part: &P) -> bool {
        self.test.passes(part.last())
    }

    fn first_in(&self, part: &P) -> usize {
        part.first(self.test)
    }
}

impl<T: Drop, P: KeyedPart<T>> Probe<T, P> for SearchKey<'_> {
    ghost passes = { λ key. reaches P.key_of key };

    fn last_passes(&self, part: &P) -> bool {
        part.reaches(self)
    }

    fn first_in(&self, part: &P) -> usize {
        part.first_by_key(self)
    }
}

/// The last of some parts that have an item.
pub(crate) fn last_part<T: Drop, P: Part<T>>(parts: &[P]) -> &P
    requires { 0 < length (flat_map P.items parts.now) }
    ensures { slice_get (flat_map P.items parts.now) (length (flat_map P.items parts.now) - 1) ≡ slice_get (P.items result.now) (length (P.items result.now) - 1) }
{
    let end = parts.len() - 1;
    let last = &parts[end];
    has_an_item(last);
    last
}

/// Every part has an item. It does nothing: its contract is what it is for.
fn has_an_item<T: Drop, P: Part<T>>(part: &P)
    ensures { 0 < length (P.items part.now) }
{
    let _len = part.len();
}

/// The first part whose last item passes, or the number of parts. Where one passes, those behind it do.
fn first_part<T: Drop, P: Part<T>, Q: Probe<T, P>>(parts: &[P], probe: &Q) -> usize
    requires { Rises (Q.passes probe.now) (flat_map P.items parts.now) }
    ensures within { result ≤ length parts.now }
    ensures none { list_any (Q.passes probe.now) (flat_map P.items (take result parts.now)) ≡ false }
    ensures some { (d : P) → result < length parts.now → list_any (Q.passes probe.now) (P.items (slice_index_or parts.now result d)) ≡ true }
{
    let mut low = 0;
    let mut high = parts.len();
    while low < high {
        let middle = low + (high - low) / 2;
        if probe.last_passes(&parts[middle]) {
            high = middle;
        } else {
            low = middle + 1;
        }
    }
    low
}

/// The first place where an item passes, or the number of items.
pub(crate) fn first_of<T: Drop, P: Part<T>, Q: Probe<T, P>>(parts: &[P], probe: &Q) -> usize
    requires rises { Rises (Q.passes probe.now) (flat_map P.items parts.now) }
    requires room { length (flat_map P.items parts.now) < 2 ^ 64 }
    ensures { result ≡ position_or_len (Q.passes probe.now) (flat_map P.items parts.now) }
{
    let k = first_part(parts, probe);
    let before = P::total(&parts[..k]);
    if k == parts.len() {
        return before;
    }
    before + probe.first_in(&parts[k])
}

/// The first item whose key isn't lower than this one. No place is counted.
pub(crate) fn found_of<'p, T: Drop, P: KeyedPart<T>>(
    parts: &'p [P],
    key: &SearchKey<'_>,
) -> Option<&'p Arc<T>>
    requires { Rises (reaches P.key_of key.now) (flat_map P.items parts.now) }
    ensures { option_map arc_value (option_copied result) ≡ slice_get (flat_map P.items parts.now) (position_or_len (reaches P.key_of key.now) (flat_map P.items parts.now)) }
{
    let k = first_part(parts, key);
    if k == parts.len() {
        return None;
    }
    parts[k].found_by_key(key)
}

/// That a count is a number, which bounds each place. It does nothing: a proof has the bound of a count once it is
/// read.
pub(crate) fn is_number(_count: usize)
    ensures { _count < 2 ^ 64 }
{}
