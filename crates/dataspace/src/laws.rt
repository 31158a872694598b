//! Laws of the definitions. The functions do nothing: their contracts are what is proved.
ghost use Rattle.std.specs.Prelude.{◌≡◌, ℕ, List, [], ◌∷◌, ◌++◌, length, IsTrue};
ghost use Rattle.dataspace.specs.Placed.{fits};
ghost use Rattle.dataspace.specs.Rooms.{none, plus, room_for, spare, placed_in};

/// The room that texts take is a sum over them, in which each text counts its length and one row.
pub fn room_is_a_sum()
    ensures none { room_for [] ≡ none }
    ensures plus { (texts : List (List ℕ)) (text : List ℕ) → room_for (texts ++ text ∷ []) ≡ plus (room_for texts) (length text) }
{}

/// Texts whose sum is the room of a region are placed whole: each of them fits behind those before it, and behind the
/// last one no room is left.
pub fn texts_fill_their_room()
    ensures fits { (before : List (List ℕ)) (text : List ℕ) (after : List (List ℕ)) → IsTrue (fits (placed_in (room_for (before ++ text ∷ after)) before) (length text)) }
    ensures filled { (texts : List (List ℕ)) → spare (placed_in (room_for texts) texts) ≡ none }
{}
