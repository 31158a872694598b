//! The bytes of a source, read in blocks.

ghost use Rattle.std.specs.Borrow.{sem};
ghost use Rattle.std.specs.Prelude.{◌≡◌, ◌+◌, ◌≤◌, ◌<◌, ◌⊎◌, [], length, take, drop, vec_len, IfOk, OnOk, OnErr, IfErr};
ghost use Rattle.std.specs.Io.BufRead.{Rests};
ghost use Rattle.std.specs.Io.KnownBytes.{IsAtEnd};
ghost use Rattle.racf_outside.specs.Blocks.{Passes, unread_of};
ghost use Rattle.racf_outside.specs.Causes.{HasCause};

use crate::streams::{Failed, Source};
use std::alloc::{AllocError, Global};
use std::marker::Model;

/// How many bytes are read at once.
const BLOCK: usize = 65_536;

/// A source, and the part of its newest block that hasn't been passed yet.
pub(crate) struct Blocks<S: Source> {
    /// Where the blocks come from.
    source: S,
    /// The newest block.
    block: Vec<u8>,
    /// Where the bytes begin that haven't been passed.
    from: usize,
    /// Where the block's bytes end.
    to: usize,
}

impl<S: Source> Model for Blocks<S> {
    ghost use Rattle.std.specs.Prelude.{◌≤◌, ◌<◌, length};
    ghost use Rattle.std.specs.List.{slice_range};
    ghost use Rattle.racf_outside.specs.Blocks.{Block};

    ghost Value = { Block };

    ghost view = { λ a. record {
      ready = slice_range a.block.items a.from a.to;
      left = S.left a.source;
      faults = S.faults a.source;
    } };

    ghost invariant = { λ a. (a.from ≤ a.to) × (a.to ≤ length a.block.items) × (0 < length a.block.items) };
}

impl<S: Source> Blocks<S> {
    ghost use Rattle.racf_outside.specs.contracts.blocks.Blocks.{the_row};

    /// The blocks of a source; it is given back where memory is short.
    pub(crate) fn new(alloc: Global, source: S) -> Result<Blocks<S>, S>
        ensures nothing_ready { IfOk result (λ blocks. blocks.ready ≡ []) }
        ensures left { IfOk result (λ blocks. blocks.left ≡ S.left source) }
        ensures faults { IfOk result (λ blocks. blocks.faults ≡ S.faults source) }
        ensures back { IfErr result (λ back. back ≡ source) }
    {
        let Ok(block) = zeros(alloc, BLOCK) else {
            return Err(source);
        };
        Ok(Blocks {
            source,
            block,
            from: 0,
            to: 0,
        })
    }

    /// Reads the next block where no byte is ready; then none is ready only at the end.
    pub(crate) fn fill(&mut self) -> Result<(), Failed>
        ensures unread { OnOk result (unread_of self.new ≡ unread_of self.old) }
        ensures at_hand { (self.old.ready ≡ []) ⊎ (self.new ≡ self.old) }
        ensures end { OnOk result (self.new.ready ≡ [] → IsAtEnd self.new.left) }
        ensures nothing_ready { OnErr result ((self.old.ready ≡ []) × (self.new.ready ≡ [])) }
        ensures kept { OnErr result (self.new.left ≡ self.old.left) }
        ensures cause { HasCause self.old.faults self.new.faults result }
    {
        if self.from < self.to {
            return Ok(());
        }
        self.from = 0;
        self.to = 0;
        let count = self.source.read(&mut self.block)?;
        self.to = count;
        Ok(())
    }

    /// The bytes at hand.
    #[inline(always)]
    pub(crate) fn ready(&self) -> &[u8]
        ensures { result.now ≡ self.now.ready }
    {
        &self.block[self.from..self.to]
    }

    /// Leaves the first `count` of the bytes at hand behind.
    #[inline(always)]
    pub(crate) fn pass(&mut self, count: usize)
        requires { count ≤ length self.old.ready }
        ensures ready { self.new.ready ≡ drop count self.old.ready }
        ensures left { self.new.left ≡ self.old.left }
        ensures faults { self.new.faults ≡ self.old.faults }
    {
        self.from += count;
    }

    /// Leaves the first `size` of the bytes at hand behind, and the one behind them, and gives those first where they
    /// lie.
    #[inline(always)]
    pub(crate) fn take_line(&mut self, size: usize) -> &[u8]
        requires { size < length self.old.ready }
        ensures bytes { result.now ≡ take size self.old.ready }
        ensures* after { sem 𝓛 (Rests (the_row S.row S.Source) self.entry (λ new. Passes (size + 1) self.old new)) }
    {
        let from = self.from;
        self.from += size + 1;
        &self.block[from..from + size]
    }

    /// The source itself.
    pub(crate) fn into_source(self) -> S
        ensures left { S.left result ≡ self.left }
        ensures faults { S.faults result ≡ self.faults }
    {
        let Blocks {
            source,
            block: _,
            from: _,
            to: _,
        } = self;
        source
    }
}

/// A buffer of this many bytes.
fn zeros(alloc: Global, count: usize) -> Result<Vec<u8>, AllocError>
    ensures { IfOk result (λ buffer. vec_len buffer ≡ count) }
{
    vec![in alloc; 0; count]
}
