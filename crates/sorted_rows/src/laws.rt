//! Laws of the definitions that other crates' contracts cite: what a key finds behind a change.
ghost use Rattle.std.specs.Prelude.{◌≡◌, ℕ, List, Some, None, if◌then◌else◌, find};
ghost use Rattle.std.specs.Str.{bytes_eq};
ghost use Rattle.sorted_rows.specs.Sorted.{has_key, with_row, without_row};

use crate::keyed::Keyed;

/// A row that is put is found by its key, and each other key finds what it found before.
pub fn what_is_put_is_found<R: Keyed>()
    ensures { (row : R) (rows : List R) (k : List ℕ) → find (has_key R.key k) (with_row R.key row rows) ≡ (if has_key R.key k row then Some row else find (has_key R.key k) rows) }
{}

/// A key whose row goes finds none, and each other key finds what it found before.
pub fn what_goes_is_not_found<R: Keyed>()
    ensures { (gone : List ℕ) (rows : List R) (k : List ℕ) → find (has_key R.key k) (without_row R.key gone rows) ≡ (if bytes_eq gone k then None else find (has_key R.key k) rows) }
{}
