//! Two texts in a region of six bytes and two rows, and the region cleared.
use dataspace::{Region, Spot};

/// Whether a region has a text at a spot.
fn reads(region: &Region, spot: Spot, text: &[u8]) -> bool {
    region.has(spot) && region.text(spot) == text
}

/// Whether a spot is here.
fn is_at(spot: &Spot, start: u32, length: u32) -> bool {
    *spot == Spot { start, length }
}

/// Whether a text fits, goes to this spot of a region, and is read there.
fn is_placed(region: &mut Region, text: &[u8], start: u32, length: u32) -> bool {
    if !region.fits(text.len()) {
        return false;
    }
    let spot = region.place(text);
    is_at(&spot, start, length) && reads(region, spot, text)
}

/// Where the first of the texts goes.
const FIRST: Spot = Spot {
    start: 0,
    length: 2,
};

/// Whether a region of six bytes and two rows takes two texts, one behind the other, and no third.
fn takes_two(region: &mut Region) -> bool {
    is_placed(region, b"AB", 0, 2)
        && is_placed(region, b"CDE", 2, 3)
        && reads(region, FIRST, b"AB")
        && region.used() == 5
        && region.size() == 6
        && !region.fits(1)
        && !region.fits(0)
}

/// Whether a region of six bytes has nothing, and room for as many, once it is cleared.
fn clears(region: &mut Region) -> bool {
    region.clear();
    region.used() == 0 && !region.has(FIRST) && region.fits(6)
}

#[test]
fn places_two_texts_and_clears(rt: HostRuntime) {
    let mut region = Region::with_room(rt.alloc(), 6, 2).expect(&rt, "memory");
    assert!(rt; takes_two(&mut region) && clears(&mut region));
}
