//! Where a text stands in a region.

/// Where a text stands in a region: how many bytes stand before it, and how many it has.
#[derive(Clone, Copy, Debug, PartialEq, Eq)]
pub struct Spot {
    pub start: u32,
    pub length: u32,
}
