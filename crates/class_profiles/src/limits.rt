//! How many profiles and entries there may be (this product's own rule).

/// The most profiles of one class.
pub const MOST_CLASS_PROFILES: usize = 50_000;

/// The most profiles of all classes.
pub const MOST_PROFILES: usize = 100_000;

/// The most entries of all access lists.
pub const MOST_ENTRIES_IN_ALL: usize = 1_000_000;
