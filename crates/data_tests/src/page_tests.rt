//! Lists in pages beside plain lists, pages that split and become empty, and a search.
ghost use Rattle.std.specs.Prelude.{◌≡◌, ◌<◌, ◌≤◌, ◌+◌, [], ◌∷◌, length, nat_le};
ghost use Rattle.std.specs.Arc.{arc_value};

use pages::{NoMemory, Pages, Part, Test};
use std::alloc::Global;
use std::process::Abort;
use std::sync::Arc;

/// Random numbers, the same in each run.
#[derive(Drop)]
struct Numbers(u32);

impl Numbers {
    fn up_to(&mut self, n: usize) -> usize
        ensures { result ≤ n }
    {
        self.0 = self.0.wrapping_mul(1_664_525).wrapping_add(1_013_904_223);
        let number = (self.0 >> 8) as usize;
        if n == usize::MAX { n } else { number % (n + 1) }
    }
}

// The functions are of any leaves where they can be, since calls with the leaves of the default are dear to prove.

/// Whether a list has just these items, read by places.
fn reads<L: Part<usize>>(list: &Pages<usize, L>, plain: &[usize]) -> bool {
    for (place, item) in plain.iter().enumerate() {
        if place >= list.len() || list.at(place) != item {
            return false;
        }
    }
    list.len() == plain.len()
}

/// Whether a walk through a list gives these items.
fn walks(list: &Pages<usize>, plain: &[usize]) -> bool {
    list.iter().zip(plain).all(|(one, other)| one == other)
}

/// A list with an item put in before a place.
fn inserted<L: Part<usize>>(
    alloc: Global,
    list: &Pages<usize, L>,
    place: usize,
    item: usize,
) -> Result<Pages<usize, L>, NoMemory>
    requires { place ≤ length list.now }
{
    let item = Arc::new(alloc, item)?;
    list.with_inserted(alloc, place, item)
}

/// A list with an item in the place of another.
fn replaced<L: Part<usize>>(
    alloc: Global,
    list: &Pages<usize, L>,
    place: usize,
    item: usize,
) -> Result<Pages<usize, L>, NoMemory>
    requires { place < length list.now }
{
    let item = Arc::new(alloc, item)?;
    list.with_replaced(alloc, place, item)
}

/// Makes one random edit of both lists, if they are of one length.
fn edit<L: Part<usize>>(
    rt: &(impl AllocGlobal + Abort),
    numbers: &mut Numbers,
    list: &Pages<usize, L>,
    plain: &mut Vec<usize>,
) -> Result<Pages<usize, L>, NoMemory> {
    let item = numbers.up_to(1_000_000);
    let kind = numbers.up_to(3);
    let place = numbers.up_to(plain.len());
    assert!(rt; list.len() == plain.len());
    if kind < 2 || place == plain.len() {
        assert!(rt; plain.insert(place, item).is_ok());
        return inserted(rt.alloc(), list, place, item);
    }
    if kind == 2 {
        plain.remove(place);
        return list.with_removed(rt.alloc(), place);
    }
    plain[place] = item;
    replaced(rt.alloc(), list, place, item)
}

/// A list behind random edits, which a plain list is edited alike.
fn edited<L: Part<usize>>(
    rt: &(impl AllocGlobal + Abort),
    first: &Pages<usize, L>,
    plain: &mut Vec<usize>,
    edits: u32,
) -> Pages<usize, L> {
    let mut list = first.share(rt.alloc()).expect(rt, "memory");
    let mut numbers = Numbers(7);
    for _edit in 0..edits {
        list = edit(rt, &mut numbers, &list, plain).expect(rt, "memory");
    }
    list
}

/// Whether each of two lists has just its items, read by places. They are let go.
fn read_both<L: Part<usize>>(
    (first, begun): (Pages<usize, L>, &[usize]),
    (second, edited): (Pages<usize, L>, &[usize]),
) -> bool {
    reads(&first, begun) && reads(&second, edited)
}

/// These items in a list.
fn list_of(rt: &(impl AllocGlobal + Abort), items: &[usize]) -> Vec<usize> {
    Vec::from_slice(rt.alloc(), items).expect(rt, "memory")
}

/// The numbers below this one.
fn counted(rt: &(impl AllocGlobal + Abort), count: usize) -> Vec<usize> {
    (0..count).collect(rt.alloc()).expect(rt, "memory")
}

/// Whether a list of the numbers below this one stays as it was while another that begins with its items is edited, as
/// a plain list is, and both agree with theirs by places and by a walk.
fn edits_alike(rt: &(impl AllocGlobal + Abort), size: usize, edits: u32) -> bool {
    let begun = counted(rt, size);
    let mut plain = list_of(rt, &begun);
    let first = Pages::of(rt.alloc(), list_of(rt, &begun)).expect(rt, "memory");
    let list = edited(rt, &first, &mut plain, edits);
    let walked = walks(&first, &begun) && walks(&list, &plain);
    read_both((first, &begun), (list, &plain)) && walked
}

/// How many items there are at first, and how many edits.
const SIZES: &[(usize, u32)] = &[(0, 200), (63, 100), (3_000, 300)];

/// From no items and from many, each version agrees with a plain list, and the first stays as it was.
#[test]
fn edits_like_a_plain_list(rt: HostRuntime) {
    for (size, edits) in SIZES {
        assert!(rt; edits_alike(&rt, *size, *edits));
    }
}

/// An empty list with the numbers below 5,000, each second of which came to the front.
fn grown<L: Part<usize>>(
    rt: &(impl AllocGlobal + Abort),
    empty: Pages<usize, L>,
) -> Pages<usize, L> {
    let mut list = empty;
    for item in 0..2_500usize {
        list = inserted(rt.alloc(), &list, 0, 2_499 - item).expect(rt, "memory");
        list = inserted(rt.alloc(), &list, list.len(), 2_500 + item).expect(rt, "memory");
    }
    list
}

/// A list without the item in its middle.
fn without_middle<L: Part<usize>>(
    rt: &(impl AllocGlobal + Abort),
    list: &Pages<usize, L>,
) -> Pages<usize, L> {
    let middle = list.len() / 2;
    assert!(rt; middle < list.len());
    list.with_removed(rt.alloc(), middle).expect(rt, "memory")
}

/// The list, which has these items, behind 5,000 removals of the one in its middle, which leave none.
fn shrunk<L: Part<usize>>(
    rt: &(impl AllocGlobal + Abort),
    list: Pages<usize, L>,
    items: &[usize],
) -> Pages<usize, L> {
    assert!(rt; reads(&list, items));
    let mut list = list;
    for _item in 0..5_000 {
        list = without_middle(rt, &list);
    }
    assert!(rt; list.is_empty());
    list
}

/// Pages at every level become too many and are split, at the front and at the end; and pages become empty.
#[test]
fn grows_and_shrinks(rt: HostRuntime) {
    let all = counted(&rt, 5_000);
    let list = grown(&rt, Pages::new(rt.alloc()));
    assert!(rt; walks(&list, &all));
    let list = shrunk(&rt, list, &all);
    assert!(rt; list.iter().next().is_none());
    drop(list);
}

/// Whether a number is not below a bound.
#[derive(Drop)]
struct AtLeast(usize);

impl Test<usize> for AtLeast {
    ghost passes = { λ test x. nat_le test.0 x };

    fn passes(&self, item: &usize) -> bool {
        self.0 <= *item
    }
}

/// A list of 20 and of an item that its holder shares with it.
fn list_with(rt: &(impl AllocGlobal + Abort), held: &Arc<usize>) -> Pages<usize>
    ensures { result ≡ 20 ∷ arc_value held.now ∷ [] }
{
    let first = Arc::new(rt.alloc(), 20).expect(rt, "memory");
    let second = Arc::try_clone(held).expect(rt, "memory");
    Pages::of_shared(rt.alloc(), &[first, second]).expect(rt, "memory")
}

/// Whether there are two items, and the second has four owners: its holder, the list, and each of the two pages of which
/// it is the last item. The list is let go.
fn is_shared<L: Part<usize>>(list: Pages<usize, L>) -> bool {
    list.len() == 2 && Arc::strong_count(list.shared_at(1)) == 4
}

/// Whether the first item that isn't below a bound is at this place.
fn is_found(list: &Pages<usize>, bound: usize, place: usize) -> bool
    requires { list.now ≡ 20 ∷ 40 ∷ [] }
{
    list.first(&AtLeast(bound)) == place
}

/// Whether a list of 20 and 40 gives the first item that isn't below each of some bounds.
fn finds(list: &Pages<usize>) -> bool
    requires { list.now ≡ 20 ∷ 40 ∷ [] }
{
    is_found(list, 0, 0)
        && is_found(list, 20, 0)
        && is_found(list, 21, 1)
        && is_found(list, 40, 1)
        && is_found(list, 41, 2)
}

/// Items that their holder shares with a list, and the first of them that isn't below a bound.
#[test]
fn finds_the_first(rt: HostRuntime) {
    let held = Arc::new(rt.alloc(), 40).expect(&rt, "memory");
    let list = list_with(&rt, &held);
    let found = finds(&list);
    assert!(rt; is_shared(list) && found);
}
