//! The rows of a region: for each text, where it ends. A text starts where the one before it ends.
ghost use Rattle.std.specs.Prelude.{◌≡◌, ℕ, ◌<◌, ◌≤◌, true, false, length, slice_index};
ghost use Rattle.dataspace.specs.Kept.{start_of, is_before, is_row, AreRising};

use crate::spot::Spot;

/// Where the text of a row starts.
pub(crate) fn start_of(ends: &[u32], row: usize) -> usize
    requires { row < length ends.now }
    ensures { result ≡ start_of ends.now row }
{
    if row == 0 { 0 } else { ends[row - 1] as usize }
}

/// Where the text of a row ends.
pub(crate) fn end_of(ends: &[u32], row: usize) -> usize
    requires { row < length ends.now }
    ensures { result ≡ slice_index ends.now row }
{
    ends[row] as usize
}

/// Whether a row starts or ends before a spot does.
fn is_before(ends: &[u32], row: usize, spot: Spot) -> bool
    requires { row < length ends.now }
    ensures { result ≡ is_before ends.now row spot }
{
    let end = spot.start as usize + spot.length as usize;
    start_of(ends, row) < spot.start as usize || (ends[row] as usize) < end
}

/// Whether a row is just that of a spot.
pub(crate) fn is_row(ends: &[u32], row: usize, spot: Spot) -> bool
    requires { row < length ends.now }
    ensures { result ≡ is_row ends.now row spot }
{
    let end = spot.start as usize + spot.length as usize;
    start_of(ends, row) == spot.start as usize && ends[row] as usize == end
}

/// The first row that neither starts nor ends before a spot does, by halving.
pub(crate) fn first_not_before(ends: &[u32], spot: Spot) -> usize
    requires { AreRising 0 ends.now }
    ensures within { result ≤ length ends.now }
    ensures before { (row : ℕ) → row < result → is_before ends.now row spot ≡ true }
    ensures behind { (row : ℕ) → result ≤ row → row < length ends.now → is_before ends.now row spot ≡ false }
{
    let mut low = 0;
    let mut high = ends.len();
    while low < high {
        let middle = low + (high - low) / 2;
        if is_before(ends, middle, spot) {
            low = middle + 1;
        } else {
            high = middle;
        }
    }
    low
}
