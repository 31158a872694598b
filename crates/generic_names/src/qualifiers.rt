ghost use Rattle.std.specs.Prelude.{◌≡◌, ◌==◌, ℕ, ◌+◌, ◌<◌, ◌≤◌, ◌∷◌, length, slice_index, position};
ghost use Rattle.std.specs.List.{slice_range};
ghost use Rattle.generic_names.specs.Spelled.{period, first_qualifier};
ghost use Rattle.generic_names.specs.Reading.{rest_at};

/// Where the qualifier that begins at this place ends: at the next period, or with the text.
pub(crate) fn qualifier_end(text: &[u8], at: usize) -> usize
    requires { at ≤ length text.now }
    ensures from { at ≤ result }
    ensures within { result ≤ length text.now }
    ensures first { rest_at text.now at ≡ slice_range text.now at result ∷ rest_at text.now (result + 1) }
{
    at + until_period(&text[at..])
}

/// How many bytes stand before the first period.
fn until_period(text: &[u8]) -> usize
    ensures within { result ≤ length text.now }
    ensures before { (k : ℕ) → k < result → slice_index text.now k ≡ 46 → ⊥ }
    ensures period { result < length text.now → slice_index text.now result ≡ 46 }
{
    for (i, byte) in text.iter().enumerate() {
        if *byte == b'.' {
            return i;
        }
    }
    text.len()
}

/// The first qualifier of a name's text: what stands before its first period, or the whole text where it has none.
pub fn first_qualifier(text: &[u8]) -> &[u8]
    ensures { result.now ≡ first_qualifier text.now }
{
    match first_period(text) {
        Some(end) => &text[..end],
        None => text,
    }
}

/// The place of the first period.
fn first_period(text: &[u8]) -> Option<usize>
    ensures { result ≡ position (λ byte. byte == period) text.now }
{
    text.iter().position(|byte| *byte == b'.')
}
