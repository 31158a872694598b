ghost use Rattle.std.specs.Prelude.{◌≡◌, ◌+◌, ◌-◌, ◌^◌, ◌<◌, ◌≤◌, [], ◌∷◌, ◌++◌, length, drop, take, insert, remove, IfOk, OnOk, Some, slice_set, slice_get, slice_index_or, vec_len};
ghost use Rattle.std.specs.List.{flat_map};
ghost use Rattle.std.specs.Arc.{arc_value};
ghost use Rattle.pages.specs.Parts.{change_items, change_len};
ghost use Rattle.pages.specs.PartAt.{IsPartAt};

use crate::part::{Change, Made, Part};
use std::alloc::{AllocError, Global};
use std::sync::Arc;

/// Puts one more owner of each part behind what is there.
pub(crate) fn share_all<T: Drop, P: Part<T>>(
    parts: &[P],
    into: &mut Vec<P>,
) -> Result<(), AllocError>
    ensures items { OnOk result (flat_map P.items into.new.items ≡ flat_map P.items into.old.items ++ flat_map P.items parts.now) }
    ensures len { OnOk result (vec_len into.new ≡ vec_len into.old + length parts.now) }
{
    for part in parts {
        into.push(part.share()?)?;
    }
    Ok(())
}

/// The parts with a change in place of one of them.
fn spliced<T: Drop, P: Part<T>>(
    alloc: Global,
    parts: &[P],
    k: usize,
    change: Change<P>,
) -> Result<Vec<P>, AllocError>
    requires { k < length parts.now }
    ensures items { IfOk result (λ new. flat_map P.items new.items ≡ flat_map P.items (take k parts.now) ++ (change_items P.items change ++ flat_map P.items (drop (k + 1) parts.now))) }
    ensures len { IfOk result (λ new. vec_len new + 1 ≡ length parts.now + change_len change) }
{
    let mut new = Vec::with_capacity(alloc, parts.len().saturating_add(1))?;
    share_all(&parts[..k], &mut new)?;
    match change {
        Change::Gone => {}
        Change::One(part) => new.push(part)?,
        Change::Two(front, back) => {
            new.push(front)?;
            new.push(back)?;
        }
    }
    share_all(&parts[k + 1..], &mut new)?;
    Ok(new)
}

/// The parts with another item at a place.
pub(crate) fn replaced<T: Drop, P: Part<T>>(
    alloc: Global,
    parts: &[P],
    place: usize,
    item: Arc<T>,
) -> Result<Made<Vec<P>>, AllocError>
    requires { place < length (flat_map P.items parts.now) }
    ensures items { IfOk result (λ made. flat_map P.items made.what.items ≡ slice_set (flat_map P.items parts.now) place (arc_value item)) }
    ensures len { IfOk result (λ made. vec_len made.what ≡ length parts.now) }
    ensures placed { IfOk result (λ made. made.placed ≤ P.most_placed) }
{
    let (k, rest) = P::locate(parts, place);
    let made = parts[k].with_replaced(alloc, rest, item)?;
    let what = spliced(alloc, parts, k, Change::One(made.what))?;
    Ok(Made {
        what,
        placed: made.placed,
    })
}

/// The part into which an item comes, and the place in it. An item between two parts comes into the first where that
/// takes it, and else into the second.
fn gap_at<T: Drop, P: Part<T>>(parts: &[P], place: usize, item: &T) -> (usize, usize)
    requires some { 0 < length parts.now }
    requires place { place ≤ length (flat_map P.items parts.now) }
    ensures part { result.0 < length parts.now }
    ensures start { length (flat_map P.items (take result.0 parts.now)) + result.1 ≡ place }
    ensures within { (d : P) → result.1 ≤ length (P.items (slice_index_or parts.now result.0 d)) }
{
    if place == 0 {
        return (0, 0);
    }
    let (k, rest) = P::locate(parts, place - 1);
    let part = &parts[k];
    if k + 1 < parts.len() && rest + 1 == part.len() && !part.takes(item) {
        return (k + 1, 0);
    }
    (k, rest + 1)
}

/// The parts with one more item at a place.
pub(crate) fn inserted<T: Drop, P: Part<T>>(
    alloc: Global,
    parts: &[P],
    place: usize,
    item: Arc<T>,
) -> Result<Made<Vec<P>>, AllocError>
    requires place { place ≤ length (flat_map P.items parts.now) }
    requires room { length (flat_map P.items parts.now) + 1 < 2 ^ 64 }
    ensures items { IfOk result (λ made. flat_map P.items made.what.items ≡ insert (flat_map P.items parts.now) place (arc_value item)) }
    ensures len { IfOk result (λ made. vec_len made.what ≤ length parts.now + 1) }
    ensures placed { IfOk result (λ made. made.placed ≤ P.most_placed) }
{
    if parts.is_empty() {
        return only(alloc, item);
    }
    let (k, rest) = gap_at(parts, place, &item);
    let made = parts[k].with_inserted(alloc, rest, item)?;
    let what = spliced(alloc, parts, k, made.what)?;
    Ok(Made {
        what,
        placed: made.placed,
    })
}

/// One part of one item.
fn only<T: Drop, P: Part<T>>(alloc: Global, item: Arc<T>) -> Result<Made<Vec<P>>, AllocError>
    ensures items { IfOk result (λ made. flat_map P.items made.what.items ≡ arc_value item ∷ []) }
    ensures len { IfOk result (λ made. vec_len made.what ≡ 1) }
    ensures placed { IfOk result (λ made. made.placed ≤ P.most_placed) }
{
    let made = P::of(alloc, item)?;
    let mut what = Vec::new(alloc);
    what.push(made.what)?;
    Ok(Made {
        what,
        placed: made.placed,
    })
}

/// The parts without the item at a place.
pub(crate) fn removed<T: Drop, P: Part<T>>(
    alloc: Global,
    parts: &[P],
    place: usize,
) -> Result<Made<Vec<P>>, AllocError>
    requires { place < length (flat_map P.items parts.now) }
    ensures items { IfOk result (λ made. flat_map P.items made.what.items ≡ remove (flat_map P.items parts.now) place) }
    ensures len { IfOk result (λ made. vec_len made.what ≤ length parts.now + 1) }
    ensures placed { IfOk result (λ made. made.placed ≤ P.most_placed) }
{
    let (k, rest) = P::locate(parts, place);
    let made = parts[k].with_removed(alloc, rest)?;
    let what = spliced(alloc, parts, k, made.what)?;
    Ok(Made {
        what,
        placed: made.placed,
    })
}

/// The item at a place.
pub(crate) fn item_at<T: Drop, P: Part<T>>(parts: &[P], place: usize) -> &Arc<T>
    requires { place < length (flat_map P.items parts.now) }
    ensures { slice_get (flat_map P.items parts.now) place ≡ Some (arc_value result.now) }
{
    let (k, rest) = P::locate(parts, place);
    parts[k].at(rest)
}

/// The part in which the item at a place stands, and the place in it.
pub(crate) fn part_at<T: Drop, P: Part<T>>(parts: &[P], place: usize) -> (&P, usize)
    requires { place < length (flat_map P.items parts.now) }
    ensures { IsPartAt (flat_map P.items parts.now) place (P.items result.0.now) result.1 }
{
    let (k, rest) = P::locate(parts, place);
    (&parts[k], rest)
}
