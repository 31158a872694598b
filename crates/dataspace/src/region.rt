//! A region of texts.
ghost use Rattle.std.specs.Prelude.{◌≡◌, ℕ, ◌+◌, ◌^◌, ◌<◌, ◌≤◌, ◌↔◌, List, [], ◌∷◌, ◌++◌, length, slice_get, IsTrue, IsOk, IfOk, Some};
ghost use Rattle.dataspace.specs.Placed.{Placed, IsWithinRoom, used, fits, spot_behind, text_at, has, IsSpotOf};
ghost use Rattle.dataspace.specs.Rooms.{plus, spare, placed_in};
ghost use Rattle.dataspace.specs.declared.spot.Spot.{Spot};

use crate::room::Room;
use crate::rows::{end_of, first_not_before, is_row, start_of};
use crate::spot::Spot;
use std::alloc::{AllocError, Global};
use std::marker::Model;

/// Want of memory.
pub type NoMemory = AllocError;

/// Texts one behind another, in room of so many bytes and rows. Each text takes its bytes and one row.
#[derive(Drop)]
pub struct Region {
    /// The texts, one behind another, with room for `byte_room` bytes.
    bytes: Vec<u8>,
    /// Where each text ends, with room for `row_room` rows.
    ends: Vec<u32>,
    /// How many bytes fit in all, free or not.
    byte_room: usize,
    /// How many texts fit in all.
    row_room: usize,
}

impl Model for Region {
    ghost use Rattle.dataspace.specs.Placed.{Placed};

    ghost Value = { Placed };

    ghost use Rattle.dataspace.specs.Kept.{seen, IsKept};

    ghost view = { seen };

    ghost invariant = { IsKept };
}

impl Region {
    /// A region without texts, of this room. All memory that it ever takes is taken here.
    pub fn with_room(alloc: Global, bytes: usize, rows: usize) -> Result<Region, NoMemory>
        requires bytes { bytes < 2 ^ 32 }
        requires rows { rows < 2 ^ 32 }
        ensures empty { IfOk result (λ region. region ≡ record { texts = []; bytes = bytes; rows = rows }) }
        ensures roomless { bytes ≡ 0 → rows ≡ 0 → IsOk result }
    {
        Ok(Region {
            bytes: Vec::with_capacity(alloc, bytes)?,
            ends: Vec::with_capacity(alloc, rows)?,
            byte_room: bytes,
            row_room: rows,
        })
    }

    /// A region without texts, of this room.
    pub fn for_room(alloc: Global, room: Room) -> Result<Region, NoMemory>
        requires bytes { room.bytes < 2 ^ 32 }
        requires rows { room.rows < 2 ^ 32 }
        ensures empty { IfOk result (λ region. region ≡ placed_in room []) }
        ensures roomless { room.bytes ≡ 0 → room.rows ≡ 0 → IsOk result }
    {
        Region::with_room(alloc, room.bytes, room.rows)
    }

    /// Places a text behind the others, into bytes and a row that are free: it takes no memory. The bytes of
    /// the other texts aren't touched.
    pub fn place(&mut self, text: &[u8]) -> Spot
        requires { IsTrue (fits self.old (length text.now)) }
        ensures texts { self.new ≡ record self.old { texts = self.old.texts ++ text.now ∷ [] } }
        ensures spot { result ≡ spot_behind self.old.texts text.now }
        ensures used { used self.new.texts ≡ used self.old.texts + length text.now }
        ensures spare { plus (spare self.new) (length text.now) ≡ spare self.old }
        ensures placed { text_at self.new.texts result ≡ Some text.now }
        ensures stays { (spot : Spot) (earlier : List ℕ) → text_at self.old.texts spot ≡ Some earlier
            → text_at self.new.texts spot ≡ Some earlier }
    {
        let start = self.bytes.len();
        self.bytes.extend_from_slice(text).unwrap();
        let end = self.bytes.len();
        self.ends.push(end as u32).unwrap();
        Spot {
            start: start as u32,
            length: text.len() as u32,
        }
    }

    /// The text at a spot. It is read in place, whatever the number of texts.
    pub fn text(&self, spot: Spot) -> &[u8]
        requires { IsTrue (has self.now.texts spot) }
        ensures text { text_at self.now.texts spot ≡ Some result.now }
        ensures own { (text : List ℕ) → IsSpotOf self.now.texts text spot → result.now ≡ text }
        ensures stays { (later : List (List ℕ)) → text_at (self.now.texts ++ later) spot ≡ Some result.now }
    {
        let start = spot.start as usize;
        let end = start + spot.length as usize;
        &self.bytes[start..end]
    }

    /// The text that was placed as the one of this number, from 0, since the region was made or cleared.
    pub fn row(&self, row: usize) -> &[u8]
        requires { row < length self.now.texts }
        ensures { slice_get self.now.texts row ≡ Some result.now }
    {
        let start = start_of(&self.ends, row);
        let end = end_of(&self.ends, row);
        &self.bytes[start..end]
    }

    /// Whether a text of so many bytes can be placed.
    pub fn fits(&self, length: usize) -> bool
        ensures { result ≡ fits self.now length }
    {
        length <= self.byte_room - self.bytes.len() && self.ends.len() < self.row_room
    }

    /// The room that is free.
    pub fn spare(&self) -> Room
        ensures spare { result ≡ spare self.now }
        ensures fits { (size : ℕ) → IsTrue (fits self.now size) ↔ ((size ≤ result.bytes) × (0 < result.rows)) }
    {
        Room {
            bytes: self.byte_room - self.bytes.len(),
            rows: self.row_room - self.ends.len(),
        }
    }

    /// Whether `place` answered this spot since the region was made or cleared. The rows are halved, as many
    /// times as their number has binary digits.
    pub fn has(&self, spot: Spot) -> bool
        ensures text { result ≡ has self.now.texts spot }
        ensures placed { IsTrue result ↔ ((text : List ℕ) × IsSpotOf self.now.texts text spot) }
    {
        let row = first_not_before(&self.ends, spot);
        row < self.ends.len() && is_row(&self.ends, row, spot)
    }

    /// How many bytes the texts take.
    pub fn used(&self) -> usize
        ensures used { result ≡ used self.now.texts }
        ensures within { IsWithinRoom self.now }
    {
        self.bytes.len()
    }

    /// The bytes of room, free or not.
    pub fn size(&self) -> usize
        ensures { result ≡ self.now.bytes }
    {
        self.byte_room
    }

    /// Takes all texts away. The room stays as it is: no memory is taken or given back.
    pub fn clear(&mut self)
        ensures { self.new ≡ record self.old { texts = [] } }
    {
        self.bytes.clear();
        self.ends.clear();
    }
}
