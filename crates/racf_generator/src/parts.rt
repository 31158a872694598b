//! The text that is made, a part at a time.

ghost use Rattle.std.specs.Prelude.{◌≡◌, ◌≤◌, [], ◌++◌, length, take, min, OnOk};
ghost use Rattle.racf_generator.specs.MadeText.{made_text};
ghost use Rattle.racf_generator.specs.Made.{left_of};

use crate::made_lines::write_part;
use std::alloc::{AllocError, Global};
use std::marker::Model;

/// What is left of the text for a number of users: the rest of the part that was made last, and the parts behind it.
#[derive(Drop)]
pub(crate) struct Parts {
    /// How many users, at most 10,000.
    users: u32,
    /// The number of the part that is made next, from 0; there are two for each user.
    next: u32,
    /// The text of the part before it.
    text: Vec<u8>,
    /// How many of its bytes were given.
    at: usize,
}

impl Model for Parts {
    ghost use Rattle.std.specs.Prelude.{◌≤◌, ◌*◌, drop, length};
    ghost use Rattle.racf_generator.specs.Made.{MadeParts, parts_from};

    ghost Value = { MadeParts };

    ghost view = { λ a. record { ready = drop a.at a.text.items; rest = parts_from a.users a.next } };

    ghost invariant = { λ a. (a.at ≤ length a.text.items) × (a.next ≤ 2 * a.users) × (a.users ≤ 10_000) };
}

impl Parts {
    /// The whole text, of which no part is made.
    pub(crate) fn new(alloc: Global, users: u32) -> Parts
        requires few { users ≤ 10_000 }
        ensures { left_of result ≡ made_text users }
    {
        Parts {
            users,
            next: 0,
            text: Vec::new(alloc),
            at: 0,
        }
    }

    /// Makes the next part where the one before it was given.
    pub(crate) fn fill(&mut self) -> Result<(), AllocError>
        ensures left { left_of self.new ≡ left_of self.old }
        ensures end { OnOk result (self.new.ready ≡ [] → self.new.rest ≡ []) }
    {
        if self.at < self.text.len() {
            return Ok(());
        }
        if self.next == 2 * self.users {
            return Ok(());
        }
        self.text.clear();
        self.at = 0;
        match write_part(self.users, self.next, &mut self.text) {
            Ok(()) => {
                self.next += 1;
                Ok(())
            }
            Err(AllocError) => {
                self.text.clear();
                Err(AllocError)
            }
        }
    }

    /// Moves as many bytes of the part into the front of `into` as fit, and answers how many.
    pub(crate) fn read_front(&mut self, into: &mut [u8]) -> usize
        ensures count { result ≡ min (length self.old.ready) (length into.old) }
        ensures bytes { self.old.ready ≡ take result into.new ++ self.new.ready }
        ensures rest { self.new.rest ≡ self.old.rest }
    {
        let ready = &self.text[self.at..];
        let count = ready.len().min(into.len());
        into[..count].copy_from_slice(&ready[..count]);
        self.at += count;
        count
    }
}
