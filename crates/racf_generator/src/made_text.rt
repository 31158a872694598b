//! The source of the text that is made.

ghost use Rattle.std.specs.Prelude.{ℕ, ◌≡◌, ◌<◌, ◌≤◌, List, [], ◌++◌, Some, length, take, IfOk, OnErr};
ghost use Rattle.std.specs.Io.KnownBytes.{prepend_known, IsAtEnd};
ghost use Rattle.racf_outside.specs.Causes.{HasCause};
ghost use Rattle.racf_generator.specs.MadeText.{made_text};

use crate::faults::count_fault;
use crate::parts::Parts;
use racf_outside::{Failed, Source};
use std::alloc::{AllocError, Global};
use std::marker::Model;

/// A source of the text for a number of users, which makes a part at a time: the lines that define a user, or the
/// requests of a user. A read for which memory is refused fails, and may be tried again.
#[derive(Drop)]
pub struct MadeText {
    /// What is left of the text.
    parts: Parts,
    /// How many faults were counted.
    faults: u64,
}

impl Model for MadeText {
    ghost use Rattle.racf_generator.specs.Made.{MadeInput, left_of};

    ghost Value = { MadeInput };

    ghost view = { λ a. record { left = left_of a.parts; faults = a.faults } };
}

impl MadeText {
    /// A source of the text for so many users.
    pub fn new(alloc: Global, users: u32) -> MadeText
        requires few { users ≤ 10_000 }
        ensures left { result.left ≡ made_text users }
        ensures faults { result.faults ≡ 0 }
    {
        MadeText {
            parts: Parts::new(alloc, users),
            faults: 0,
        }
    }
}

impl Source for MadeText {
    ghost left = { λ source. Some source.left };

    ghost faults = { λ source. source.faults };

    fn read(&mut self, into: &mut [u8]) -> Result<usize, Failed> {
        match self.parts.fill() {
            Err(AllocError) => Err(count_fault(&mut self.faults)),
            Ok(()) => Ok(self.parts.read_front(into)),
        }
    }
}
