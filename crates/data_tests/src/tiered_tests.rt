//! A list in rows beside a plain list.
ghost use Rattle.std.specs.Prelude.{◌≤◌};

use tiered_list::TieredList;

/// Random numbers, the same in each run.
#[derive(Drop)]
struct Numbers(u32);

impl Numbers {
    fn up_to(&mut self, n: usize) -> usize
        ensures { result ≤ n }
    {
        self.0 = self.0.wrapping_mul(1_664_525).wrapping_add(1_013_904_223);
        let number = (self.0 >> 8) as usize;
        if n == usize::MAX { n } else { number % (n + 1) }
    }
}

/// Whether a list has just these items.
fn is_same(list: &TieredList<usize>, plain: &[usize]) -> bool {
    for (place, item) in plain.iter().enumerate() {
        if place >= list.len() || list.at(place) != item {
            return false;
        }
    }
    list.len() == plain.len()
}

/// Puts an item in at a place of both lists, if they are of one length. Whether it could.
fn insert(list: &mut TieredList<usize>, plain: &mut Vec<usize>, place: usize, item: usize) -> bool {
    if list.len() != plain.len() || place > plain.len() {
        return false;
    }
    if plain.insert(place, item).is_err() || list.reserve(1).is_err() {
        return false;
    }
    list.insert(place, item);
    true
}

/// Puts an item in the place of another in both lists, if they are of one length. Whether it was the same in both.
fn replace(
    list: &mut TieredList<usize>,
    plain: &mut Vec<usize>,
    place: usize,
    item: usize,
) -> bool {
    if list.len() != plain.len() || place >= plain.len() {
        return false;
    }
    let before = plain[place];
    plain[place] = item;
    list.replace(place, item) == before
}

/// Takes the item at a place out of both lists, if they are of one length. Whether it was the same in both.
fn remove(list: &mut TieredList<usize>, plain: &mut Vec<usize>, place: usize) -> bool {
    if list.len() != plain.len() || place >= plain.len() {
        return false;
    }
    list.remove(place) == plain.remove(place)
}

/// Puts 700 items in at random places of both lists. Whether it could.
fn grow(numbers: &mut Numbers, list: &mut TieredList<usize>, plain: &mut Vec<usize>) -> bool {
    for item in 0..700usize {
        let place = numbers.up_to(plain.len());
        if !insert(list, plain, place, item) {
            return false;
        }
    }
    true
}

/// Replaces each third of the first 600 items in both lists. Whether each was the same in both.
fn replace_thirds(list: &mut TieredList<usize>, plain: &mut Vec<usize>) -> bool {
    for third in 0..200usize {
        if !replace(list, plain, 3 * third, 1_000 + third) {
            return false;
        }
    }
    true
}

/// Takes 700 items out of both lists at random places. Whether each was the same in both.
fn shrink(numbers: &mut Numbers, list: &mut TieredList<usize>, plain: &mut Vec<usize>) -> bool {
    for taken in 0..700usize {
        let place = numbers.up_to(699 - taken);
        if !remove(list, plain, place) {
            return false;
        }
    }
    true
}

/// Whether both lists stay the same while items are put in, replaced and taken out.
fn is_alike(list: &mut TieredList<usize>, plain: &mut Vec<usize>) -> bool {
    let mut numbers = Numbers(11);
    grow(&mut numbers, list, plain)
        && is_same(list, plain)
        && replace_thirds(list, plain)
        && is_same(list, plain)
        && shrink(&mut numbers, list, plain)
        && list.len() == 0
}

/// Items are put in at random places, and each third of what is then there is replaced. All are taken out again.
#[test]
fn rows_like_a_plain_list(rt: HostRuntime) {
    let mut list = TieredList::new(rt.alloc());
    let mut plain = Vec::new(rt.alloc());
    assert!(rt; is_alike(&mut list, &mut plain));
}
