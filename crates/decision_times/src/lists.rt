//! An access list of its own, and the groups by which it is asked.

use access_levels::{Entry, Id, Level, Who};
use access_lists::{Found, answer, permit};
use anyhow::{Result, anyhow};
use std::alloc::Global;

/// An access list, and the groups of those who ask it.
#[derive(Drop)]
pub(crate) struct List {
    /// The entries of the list.
    entries: Vec<Entry>,
    /// The groups by which it is asked.
    groups: Vec<Id>,
}

impl List {
    /// No entries and no groups.
    pub(crate) fn new(alloc: Global) -> List {
        List {
            entries: Vec::new(alloc),
            groups: Vec::new(alloc),
        }
    }

    /// Puts the entry of a user or a group into the list.
    pub(crate) fn put(&mut self, id: Id, level: Level) -> Result<()> {
        let who = Who::Named(id);
        match permit(&mut self.entries, Entry { who, level }) {
            Ok(()) => Ok(()),
            Err(_) => Err(anyhow!("an entry too many")),
        }
    }

    /// Adds a group.
    pub(crate) fn add_group(&mut self, group: Id) -> Result<()> {
        self.groups.push(group)?;
        Ok(())
    }

    /// How often an entry counts for the user, where the list is asked so many times.
    pub(crate) fn times_found(&self, user: Id, times: u32) -> u32 {
        let mut found = 0u32;
        for _time in 0..times {
            found = found.wrapping_add(u32::from(self.has_entry(user)));
        }
        found
    }

    /// Whether an entry counts for the user.
    fn has_entry(&self, user: Id) -> bool {
        match answer(&self.entries, user, &self.groups, false) {
            Found::User(_) | Found::Group(_, _) | Found::Star(_) => true,
            Found::Nothing => false,
        }
    }
}
