ghost use Rattle.std.specs.Prelude.{◌≡◌, ◌+◌, ◌-◌, ◌*◌, ◌^◌, ◌<◌, ◌≤◌, true, length, get_or, IfOk, IfErr};
ghost use Rattle.std.specs.List.{AllWithin};
ghost use Rattle.std.specs.Option.{option_copied};
ghost use Rattle.std.specs.Str.{bytes_eq};
ghost use Rattle.std.specs.Ordering.{nat_cmp};
ghost use Rattle.std.specs.Cmp.Lexicographic.{slice_cmp};
ghost use Rattle.generic_names.specs.Covers.{covers};
ghost use Rattle.generic_names.specs.Spelled.{first_qualifier};
ghost use Rattle.generic_names.specs.Gap.{is_below};
ghost use Rattle.generic_names.specs.Laws.{IsResource, IsPattern};
ghost use Rattle.generic_names.specs.Best.{best, IsInOrder, AreNamed};
ghost use Rattle.generic_names.specs.OrderKey.{order_key, is_lower};
ghost use Rattle.profile_index.specs.declared.entry.Entry.{Entry};
ghost use Rattle.profile_index.specs.Indexed.{name_of, has_name, is_under, AreOf};
ghost use Rattle.profile_index.specs.Places.{IsFirst, IsFirstBehind, IsThere, IsMissing};

use crate::entry::Entry;
use crate::entry_list::{EntryList, SharedEntries};
use crate::entry_slots::EntrySlots;
use crate::keyed_entry::KeyedEntry;
use crate::steps::Steps;
use generic_names::{Gap, OrderKey, Pattern, Resource, first_qualifier};
use pages::SearchKey;
use std::cmp::Ordering;
use std::sync::ledger::Ledger;

/// That its text spells it is what the laws of the order rest on. It does nothing: its contract is what it is for.
fn is_resource(name: &Resource)
    ensures { IsResource name.now }
{
    let _text = name.text();
}

/// The same of a pattern.
pub(crate) fn is_pattern(name: &Pattern)
    ensures { IsPattern name.now }
{
    let _text = name.text();
}

/// The first entry that covers a name. Entries before the very name don't, and behind one that doesn't
/// those that can't for the same reason are passed over.
pub(crate) fn first_that_covers<T, E: EntryList<T>>(list: &E, name: &Resource) -> Option<usize>
    requires ordered { IsInOrder name_of (E.entries list.now) }
    requires named { AreNamed name_of (E.entries list.now) }
    requires kinds { AreOf name.now.kind (E.entries list.now) }
    ensures resource { IsResource name.now }
    ensures first { IsFirst (λ e. covers e.name name.now) (E.entries list.now) result }
{
    is_resource(name);
    let mut place = list.end_below(&name.order_key());
    while place < list.len() {
        let pattern = &list.entry(place).name;
        if pattern.covers(name) {
            return Some(place);
        }
        place = match pattern.gap(name) {
            Some(gap) => end_of_gap(list, place, &gap),
            None => place + 1,
        };
    }
    None
}

/// The most specific entry of a shared list that covers a name. It is searched for as `first_that_covers` does, but by
/// entries and not by places, which costs no counting, as far as runs are passed over.
pub(crate) fn most_specific<'a, T: Drop>(
    list: &'a SharedEntries<T>,
    name: &Resource,
) -> Option<&'a Entry<T>>
    requires ordered { IsInOrder name_of list.now }
    requires named { AreNamed name_of list.now }
    requires kinds { AreOf name.now.kind list.now }
    ensures { option_copied result ≡ best name_of list.now name.now }
{
    is_resource(name);
    let mut next = first_from(list, &name.order_key());
    for _run in 0..list.len() {
        let entry = next?;
        if entry.name.covers(name) {
            return Some(entry);
        }
        let Some(gap) = entry.name.gap(name) else {
            break;
        };
        next = first_behind(list, &gap);
    }
    let place = first_that_covers(list, name)?;
    Some(list.at(place))
}

/// The first entry whose name hasn't a lower key than this one.
fn first_from<'a, T: Drop>(list: &'a SharedEntries<T>, key: &OrderKey) -> Option<&'a Entry<T>>
    requires ordered { IsInOrder name_of list.now }
    requires named { AreNamed name_of list.now }
    ensures { IsFirstBehind (λ e. is_lower e.name key.now) list.now (option_copied result) }
{
    list.found_by_key(&SearchKey::of(key.as_bytes()))
}

/// The first entry that doesn't lie before the end of a gap.
fn first_behind<'a, T: Drop>(list: &'a SharedEntries<T>, gap: &Gap) -> Option<&'a Entry<T>>
    requires ordered { IsInOrder name_of list.now }
    requires named { AreNamed name_of list.now }
    ensures { IsFirstBehind (λ e. is_below e.name gap.now) list.now (option_copied result) }
{
    first_from(list, &gap.order_key())
}

/// Where the entries end that lie before the end of a gap, from a place on at which one does.
fn end_of_gap<T, E: EntryList<T>>(list: &E, from: usize, gap: &Gap) -> usize
    requires ordered { IsInOrder name_of (E.entries list.now) }
    requires named { AreNamed name_of (E.entries list.now) }
    requires within { from < length (E.entries list.now) }
    requires begun { (d : Entry T) → is_below (get_or (E.entries list.now) from d).name gap.now ≡ true }
    ensures onward { from < result }
    ensures within { result ≤ length (E.entries list.now) }
    ensures below { AllWithin (λ e. is_below e.name gap.now ≡ true) (E.entries list.now) from result }
{
    list.end_below(&gap.order_key())
}

/// The first entry whose name has that first qualifier.
pub(crate) fn first_under<T, E: EntryList<T>>(list: &E, qualifier: &[u8]) -> Option<usize>
    requires ordered { IsInOrder name_of (E.entries list.now) }
    requires named { AreNamed name_of (E.entries list.now) }
    requires fits { length qualifier.now ≤ 246 }
    ensures { IsFirst (is_under qualifier.now) (E.entries list.now) result }
{
    let place = list.end_below(&OrderKey::of_qualifier(qualifier));
    if place == list.len() {
        return None;
    }
    if has_first_qualifier(&list.entry(place).name, qualifier) {
        return Some(place);
    }
    None
}

/// The place of a name, or else the one that it would have. The key is that of the name.
pub(crate) fn place_for<T, E: EntryList<T>>(
    list: &E,
    name: &Pattern,
    key: &OrderKey,
) -> Result<usize, usize>
    requires ordered { IsInOrder name_of (E.entries list.now) }
    requires named { AreNamed name_of (E.entries list.now) }
    requires kinds { AreOf name.now.kind (E.entries list.now) }
    requires key { key.now ≡ order_key name.now.text }
    ensures there { IfOk result (λ place. IsThere name.now (E.entries list.now) place) }
    ensures missing { IfErr result (λ place. IsMissing name.now (E.entries list.now) place) }
{
    is_pattern(name);
    let place = list.end_below(key);
    if place == list.len() {
        return Err(place);
    }
    if have_one_text(&list.entry(place).name, name) {
        return Ok(place);
    }
    Err(place)
}

/// The place of a resource's very name, by halving. Each comparison is counted.
pub(crate) fn place_of<T, L: Ledger>(
    slots: &EntrySlots<T>,
    name: &Resource,
    steps: &mut Steps<L>,
) -> Option<usize>
    requires ordered { IsInOrder name_of slots.now.entries }
    requires named { AreNamed name_of slots.now.entries }
    requires kinds { AreOf name.now.kind slots.now.entries }
    ensures first { IsFirst (has_name name.now) slots.now.entries result }
    ensures onward { steps.old ≤ steps.new }
    ensures cost { 2 ^ (steps.new - steps.old) ≤ 2 * length slots.now.entries + 1 }
{
    is_resource(name);
    let key = name.order_key();
    let mut low = 0;
    let mut size = slots.len();
    while size > 0 {
        let half = size / 2;
        let middle = low + half;
        match counted(slots.keyed(middle), &key, steps) {
            Ordering::Equal => return Some(middle),
            Ordering::Less => {
                low = middle + 1;
                size -= half + 1;
            }
            Ordering::Greater => size = half,
        }
    }
    None
}

/// Which is lower, the key of an entry's name or this one. Every comparison of names in `place_of` is made here and
/// counted.
fn counted<T, L: Ledger>(entry: &KeyedEntry<T>, key: &OrderKey, steps: &mut Steps<L>) -> Ordering
    ensures order { result ≡ slice_cmp nat_cmp (order_key entry.now.name.text) key.now }
    ensures counted { steps.new ≡ steps.old + 1 }
{
    steps.tick();
    entry.order(key)
}

/// Whether both have one text.
fn have_one_text(first: &Pattern, second: &Pattern) -> bool
    ensures { result ≡ bytes_eq first.now.text second.now.text }
{
    first.text() == second.text()
}

/// Whether a name has that first qualifier.
fn has_first_qualifier(name: &Pattern, qualifier: &[u8]) -> bool
    ensures { result ≡ bytes_eq (first_qualifier name.now.text) qualifier.now }
{
    first_qualifier(name.text()) == qualifier
}
