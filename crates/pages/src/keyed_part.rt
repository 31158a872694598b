ghost use Rattle.std.specs.Prelude.{◌≡◌, ℕ, ◌-◌, List, length, option_map, Some, slice_get};
ghost use Rattle.std.specs.List.{position_or_len};
ghost use Rattle.std.specs.Arc.{arc_value};
ghost use Rattle.std.specs.Option.{option_copied};
ghost use Rattle.pages.specs.Rising.{Rises, reaches};

use crate::part::Part;
use crate::search_key::SearchKey;
use std::sync::Arc;

/// A part whose items have keys, which are bytes, and which is searched by these. Where the keys lie is the part's
/// affair: no step of a search reads an item.
pub trait KeyedPart<T: Drop>: Part<T> {
    ghost key_of: { T → List ℕ };

    /// Whether the key of the last item isn't lower than this one.
    fn reaches(&self, key: &SearchKey<'_>) -> bool
        ensures { option_map (reaches key_of key.now) (slice_get (Self.items self.now) (length (Self.items self.now) - 1)) ≡ Some result };

    /// The first place whose key isn't lower than this one, or the number of items.
    fn first_by_key(&self, key: &SearchKey<'_>) -> usize
        requires { Rises (reaches key_of key.now) (Self.items self.now) }
        ensures { result ≡ position_or_len (reaches key_of key.now) (Self.items self.now) };

    /// The item there, if there is one.
    fn found_by_key(&self, key: &SearchKey<'_>) -> Option<&Arc<T>>
        requires { Rises (reaches key_of key.now) (Self.items self.now) }
        ensures { option_map arc_value (option_copied result) ≡ slice_get (Self.items self.now) (position_or_len (reaches key_of key.now) (Self.items self.now)) };
}
