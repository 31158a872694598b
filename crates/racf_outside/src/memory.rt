//! Sources and sinks in memory, whose calls may be told to fail, and those that never fail.

ghost use Rattle.std.specs.Prelude.{ℕ, ◌≡◌, ◌<◌, ◌≤◌, List, [], ◌++◌, None, Some, false, length, take, drop, min, is_err, IfOk, OnErr};
ghost use Rattle.std.specs.Io.KnownBytes.{prepend_known, append_known, IsAtEnd};
ghost use Rattle.racf_outside.specs.Calls.{CountsCall, FailsAsTold, no_calls, is_to_fail};
ghost use Rattle.racf_outside.specs.Causes.{HasCause};

use crate::calls::Calls;
use crate::streams::{Failed, Sink, Source};
use std::alloc::{AllocError, Global};
use std::marker::Model;

/// Bytes that are read from the front.
#[derive(Drop)]
struct Remaining {
    /// All bytes.
    bytes: Vec<u8>,
    /// How many of them were read.
    at: usize,
}

impl Model for Remaining {
    ghost use Rattle.std.specs.Prelude.{◌≤◌, ℕ, List, drop, length};

    ghost Value = { List ℕ };

    ghost view = { λ a. drop a.at a.bytes.items };

    ghost invariant = { λ a. a.at ≤ length a.bytes.items };
}

impl Remaining {
    /// Moves as many bytes into the front of `into` as fit, and answers how many.
    fn read_front(&mut self, into: &mut [u8]) -> usize
        ensures count { result ≡ min (length self.old) (length into.old) }
        ensures bytes { self.old ≡ take result into.new ++ self.new }
    {
        let rest = &self.bytes[self.at..];
        let count = rest.len().min(into.len());
        into[..count].copy_from_slice(&rest[..count]);
        self.at += count;
        count
    }
}

/// A source of bytes in memory.
#[derive(Drop)]
pub struct MemorySource {
    /// What is left to read.
    remaining: Remaining,
    /// The reads.
    calls: Calls,
}

impl Model for MemorySource {
    ghost use Rattle.racf_outside.specs.Memory.{MemoryInput};

    ghost Value = { MemoryInput };

    ghost view = { λ a. record { left = a.remaining; calls = a.calls } };
}

impl MemorySource {
    /// A source of these bytes, of whose reads those of the numbers `failing`, counted from 1, are to fail.
    pub fn new(bytes: Vec<u8>, failing: Vec<u64>) -> MemorySource
        ensures left { result.left ≡ bytes.items }
        ensures calls { result.calls ≡ no_calls failing.items }
    {
        MemorySource {
            remaining: Remaining { bytes, at: 0 },
            calls: Calls::new(failing),
        }
    }

    /// How many faults it has counted.
    pub fn faults(&self) -> u64
        ensures { result ≡ self.now.calls.faults }
    {
        self.calls.faults()
    }
}

impl Source for MemorySource {
    ghost left = { λ source. Some source.left };

    ghost faults = { λ source. source.calls.faults };

    fn read(&mut self, into: &mut [u8]) -> Result<usize, Failed>
        ensures bound { IfOk result (λ n. n ≤ length into.new) }
        ensures bytes { IfOk result (λ n. Some self.old.left ≡ prepend_known (take n into.new) (Some self.new.left)) }
        ensures end { IfOk result (λ n. n ≡ 0 → 0 < length into.new → IsAtEnd (Some self.new.left)) }
        ensures kept { OnErr result (Some self.new.left ≡ Some self.old.left) }
        ensures cause { HasCause self.old.calls.faults self.new.calls.faults result }

        // It reads as much as there is room for, and fails only where it is told to.
        ensures fills { IfOk result (λ n. n ≡ min (length self.old.left) (length into.old)) }
        ensures counted { CountsCall self.old.calls self.new.calls }
        ensures failed { is_err result ≡ is_to_fail self.old.calls.failing self.new.calls.made }
    {
        self.calls.call()?;
        Ok(self.remaining.read_front(into))
    }
}

/// A sink that keeps its bytes in memory.
#[derive(Drop)]
pub struct MemorySink {
    /// What was taken.
    bytes: Vec<u8>,
    /// The writes.
    calls: Calls,
}

impl Model for MemorySink {
    ghost use Rattle.racf_outside.specs.Memory.{MemoryOutput};

    ghost Value = { MemoryOutput };

    ghost view = { λ a. record { taken = a.bytes.items; calls = a.calls } };
}

impl MemorySink {
    /// A sink that has taken nothing, of whose writes those of the numbers `failing`, counted from 1, are to fail. A
    /// write for which memory is refused fails too.
    pub fn new(alloc: Global, failing: Vec<u64>) -> MemorySink
        ensures taken { result.taken ≡ [] }
        ensures calls { result.calls ≡ no_calls failing.items }
    {
        MemorySink {
            bytes: Vec::new(alloc),
            calls: Calls::new(failing),
        }
    }

    /// The bytes that it took.
    pub fn bytes(&self) -> &[u8]
        ensures { result.now ≡ self.now.taken }
    {
        &self.bytes
    }

    /// How many faults it has counted.
    pub fn faults(&self) -> u64
        ensures { result ≡ self.now.calls.faults }
    {
        self.calls.faults()
    }

    /// The bytes that it took.
    pub fn into_bytes(self) -> Vec<u8>
        ensures { result.items ≡ self.taken }
    {
        let MemorySink { bytes, calls: _ } = self;
        bytes
    }
}

impl Sink for MemorySink {
    ghost taken = { λ sink. Some sink.taken };

    ghost faults = { λ sink. sink.calls.faults };

    fn write(&mut self, bytes: &[u8]) -> Result<usize, Failed>
        ensures bound { IfOk result (λ n. n ≤ length bytes.now) }
        ensures bytes { IfOk result (λ n. Some self.new.taken ≡ append_known (Some self.old.taken) (take n bytes.now)) }
        ensures some { IfOk result (λ n. n ≡ 0 → bytes.now ≡ []) }
        ensures kept { OnErr result (Some self.new.taken ≡ Some self.old.taken) }
        ensures cause { HasCause self.old.calls.faults self.new.calls.faults result }

        // It takes the whole piece, and fails only where it is told to, or for want of memory.
        ensures takes { IfOk result (λ n. n ≡ length bytes.now) }
        ensures failed { FailsAsTold false self.old.calls self.new.calls (is_err result) }
    {
        self.calls.call()?;
        match self.bytes.extend_from_slice(bytes) {
            Ok(()) => Ok(bytes.len()),
            Err(AllocError) => Err(self.calls.refusal()),
        }
    }
}

/// A source of bytes in memory that never fails.
#[derive(Drop)]
pub struct NeverSource {
    /// What is left to read.
    remaining: Remaining,
}

impl Model for NeverSource {
    ghost use Rattle.std.specs.Prelude.{ℕ, List};

    ghost Value = { List ℕ };

    ghost view = { λ a. a.remaining };
}

impl NeverSource {
    /// A source of these bytes.
    pub fn new(bytes: Vec<u8>) -> NeverSource
        ensures { result ≡ bytes.items }
    {
        NeverSource {
            remaining: Remaining { bytes, at: 0 },
        }
    }
}

impl Source for NeverSource {
    ghost left = { λ left. Some left };

    ghost faults = { λ _. 0 };

    fn read(&mut self, into: &mut [u8]) -> Result<usize, Failed> {
        Ok(self.remaining.read_front(into))
    }
}

/// A sink that takes everything, keeps nothing and never fails.
#[derive(Clone, Copy, Debug)]
pub struct NeverSink;

impl Sink for NeverSink {
    ghost taken = { λ _. None };

    ghost faults = { λ _. 0 };

    fn write(&mut self, bytes: &[u8]) -> Result<usize, Failed> {
        Ok(bytes.len())
    }
}
