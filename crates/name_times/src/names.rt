//! Patterns of general resources, and questions that are repeated.

use generic_names::{NameKind, Pattern, Resource};
use profile_index::{Index, NoMemory};
use std::alloc::Global;
use std::marker::Model;

/// Patterns of general resources by their names.
#[derive(Drop)]
pub(crate) struct Names {
    /// The names, each with its number.
    index: Index<u32>,
}

impl Model for Names {
    ghost use Rattle.std.specs.Prelude.{ℕ, length};
    ghost use Rattle.generic_names.specs.declared.kind.NameKind.TheVariants.{General};
    ghost use Rattle.profile_index.specs.Indexed.{AreOf};

    ghost Value = { ℕ };

    ghost view = { λ a. length a.index.entries };

    ghost invariant = { λ a. AreOf General a.index.entries };
}

impl Names {
    /// No patterns.
    pub(crate) fn new(alloc: Global) -> Result<Names, NoMemory> {
        let index = Index::new(alloc)?;
        Ok(Names { index })
    }

    /// Adds a pattern, unless it is there or no pattern.
    pub(crate) fn add(&mut self, text: &[u8]) -> Result<(), NoMemory> {
        let Ok(pattern) = Pattern::read(NameKind::General, text) else {
            return Ok(());
        };
        if self.index.find_named(&pattern).is_some() {
            return Ok(());
        }
        self.index.reserve(1)?;
        self.index.insert(pattern, 0);
        Ok(())
    }

    /// How many times of so many a pattern is found that covers the name.
    pub(crate) fn times_found(&self, text: &[u8], times: u32) -> u32 {
        let Ok(name) = Resource::read(NameKind::General, text) else {
            return 0;
        };
        let mut found = 0u32;
        for _time in 0..times {
            if self.index.find(&name).is_some() {
                found = found.wrapping_add(1);
            }
        }
        found
    }
}

/// How many times of so many the pattern covers the name.
pub(crate) fn times_covered(pattern: &[u8], name: &[u8], times: u32) -> u32 {
    let Ok(pattern) = Pattern::read(NameKind::General, pattern) else {
        return 0;
    };
    let Ok(name) = Resource::read(NameKind::General, name) else {
        return 0;
    };
    let mut covered = 0u32;
    for _time in 0..times {
        if pattern.covers(&name) {
            covered = covered.wrapping_add(1);
        }
    }
    covered
}
