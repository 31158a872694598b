//! A line that has begun: its first bytes, and how many have come.

ghost use Rattle.std.specs.Prelude.{◌≡◌, ◌+◌, ◌^◌, ◌<◌, ◌≤◌, [], ◌++◌, length, take, IfOk};

use std::alloc::{AllocError, Global};
use std::marker::Model;

/// The most bytes of a line, its carriage return counted and its line feed not.
pub(crate) const LONGEST: usize = 4_096;

/// A line that has begun, of which the first `LONGEST` bytes are kept.
#[derive(Drop)]
pub(crate) struct LineBuffer {
    /// The first bytes.
    text: Vec<u8>,
    /// How many bytes have come.
    size: usize,
}

impl Model for LineBuffer {
    ghost use Rattle.std.specs.Prelude.{◌≤◌, length, vec_capacity};
    ghost use Rattle.racf_outside.specs.LineBuffer.{Begun};

    ghost Value = { Begun };

    ghost view = { λ a. record { text = a.text.items; size = a.size } };

    ghost invariant = { λ a. (length a.text.items ≤ 4096) × (4096 ≤ vec_capacity a.text) };
}

impl LineBuffer {
    /// Room for a line.
    pub(crate) fn new(alloc: Global) -> Result<LineBuffer, AllocError>
        ensures text { IfOk result (λ line. line.text ≡ []) }
        ensures size { IfOk result (λ line. line.size ≡ 0) }
    {
        let text = Vec::with_capacity(alloc, LONGEST)?;
        Ok(LineBuffer { text, size: 0 })
    }

    /// Begins a new line.
    pub(crate) fn clear(&mut self)
        ensures text { self.new.text ≡ [] }
        ensures size { self.new.size ≡ 0 }
    {
        self.text.clear();
        self.size = 0;
    }

    /// Adds the next bytes of the line.
    pub(crate) fn append(&mut self, piece: &[u8])
        requires { self.old.size + length piece.now < 2 ^ 64 }
        ensures text { self.new.text ≡ take 4096 (self.old.text ++ piece.now) }
        ensures size { self.new.size ≡ self.old.size + length piece.now }
    {
        let room = LONGEST - self.text.len();
        let _ = self.text.extend_from_slice(front(piece, room));
        self.size += piece.len();
    }

    /// How many bytes have come.
    pub(crate) fn size(&self) -> usize
        ensures { result ≡ self.now.size }
    {
        self.size
    }

    /// The first bytes.
    pub(crate) fn text(&self) -> &[u8]
        ensures { result.now ≡ self.now.text }
    {
        &self.text
    }
}

/// The first `most` bytes, or all where there are fewer.
pub(crate) fn front(bytes: &[u8], most: usize) -> &[u8]
    ensures { result.now ≡ take most bytes.now }
{
    if bytes.len() <= most {
        return bytes;
    }
    &bytes[..most]
}
