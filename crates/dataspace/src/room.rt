//! Room for texts.
ghost use Rattle.std.specs.Prelude.{◌≡◌, ◌+◌, ◌^◌, ◌<◌};
ghost use Rattle.dataspace.specs.Rooms.{none, plus};

/// Room for texts: so many bytes, and a row for each text.
#[derive(Clone, Copy, PartialEq, Eq)]
pub struct Room {
    pub bytes: usize,
    pub rows: usize,
}

impl Room {
    /// Room for no text.
    pub fn none() -> Room
        ensures { result ≡ none }
    {
        Room { bytes: 0, rows: 0 }
    }

    /// The room for one text more, of this length: its bytes, and one row.
    pub fn plus(self, length: usize) -> Room
        requires bytes { self.bytes + length < 2 ^ 32 }
        requires rows { self.rows + 1 < 2 ^ 32 }
        ensures { result ≡ plus self length }
    {
        Room {
            bytes: self.bytes + length,
            rows: self.rows + 1,
        }
    }
}
