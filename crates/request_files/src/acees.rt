//! The ACEEs that lines name.

ghost use Rattle.std.specs.Prelude.{◌≡◌, ◌≤◌, [], length, find, position, IfOk, OnOk, OnErr};
ghost use Rattle.std.specs.Option.{option_copied};
ghost use Rattle.std.specs.Result.{result_err};

use crate::line::LineRefusal;
use access_levels::Id;
use acee::Acee;
use std::alloc::{AllocError, Global};
use std::marker::Model;

/// The most ACEEs that are in use at once.
const MOST: usize = 256;

/// An ACEE under its name.
#[derive(Drop)]
pub struct NamedAcee {
    pub name: Id,
    pub acee: Acee,
}

/// The ACEEs in use, at most 256. Contracts see them as the list of names and ACEEs, in the order in which they were
/// put. Finding one goes through the list.
#[derive(Drop)]
pub struct AceeTable {
    /// The ACEEs under their names, as they were put.
    entries: Vec<NamedAcee>,
}

impl Model for AceeTable {
    ghost use Rattle.std.specs.Prelude.{List, ◌≤◌, length, vec_capacity};
    ghost use Rattle.request_files.specs.declared.acees.NamedAcee.{NamedAcee};

    ghost Value = { List NamedAcee };

    ghost view = { λ table. table.entries.items };

    ghost invariant = { λ table. (length table.entries.items ≤ 256) × (256 ≤ vec_capacity table.entries) };
}

impl AceeTable {
    ghost use Rattle.request_files.specs.Acees.{most_acees, is_named, acee_named, put_refusal, with_acee, without_acee};

    /// No ACEE, and room for 256.
    pub fn new(alloc: Global) -> Result<AceeTable, AllocError>
        ensures { IfOk result (λ table. table ≡ []) }
    {
        let entries = Vec::with_capacity(alloc, MOST)?;
        Ok(AceeTable { entries })
    }

    /// Puts an ACEE under a name, last. It takes no memory.
    ///
    /// # Errors
    ///
    /// The first that fits of: `AceeExists`, where an ACEE has that name, and `AceesFull`, where there are 256. The
    /// ACEE given is then dropped.
    pub fn put(&mut self, name: Id, acee: Acee) -> Result<(), LineRefusal>
        ensures put { OnOk result (self.new ≡ with_acee name acee self.old) }
        ensures refused { result_err result ≡ put_refusal name self.old }
        ensures kept { OnErr result (self.new ≡ self.old) }
    {
        if let Some(refusal) = self.refusal(name) {
            return Err(refusal);
        }
        self.entries.push(NamedAcee { name, acee }).unwrap();
        Ok(())
    }

    /// Why no ACEE can be put under a name, if so.
    pub fn refusal(&self, name: Id) -> Option<LineRefusal>
        ensures { result ≡ put_refusal name self.now }
    {
        if self.get(name).is_some() {
            return Some(LineRefusal::AceeExists(name));
        }
        if self.entries.len() == MOST {
            return Some(LineRefusal::AceesFull);
        }
        None
    }

    /// The ACEE of that name. None exactly where no ACEE has it.
    pub fn get(&self, name: Id) -> Option<&Acee>
        ensures { option_copied result ≡ acee_named name self.now }
    {
        match self.entry(name) {
            Some(entry) => Some(&entry.acee),
            None => None,
        }
    }

    /// Takes the ACEE of that name out. None exactly where no ACEE has it.
    pub fn remove(&mut self, name: Id) -> Option<Acee>
        ensures acee { result ≡ acee_named name self.old }
        ensures rest { self.new ≡ without_acee name self.old }
    {
        match self.position(name) {
            Some(place) => {
                let NamedAcee { name: _, acee } = self.entries.remove(place);
                Some(acee)
            }
            None => None,
        }
    }

    /// How many ACEEs there are.
    pub fn len(&self) -> usize
        ensures count { result ≡ length self.now }
        ensures few { result ≤ most_acees }
    {
        self.entries.len()
    }

    /// The entry of that name.
    fn entry(&self, name: Id) -> Option<&NamedAcee>
        ensures { option_copied result ≡ find (is_named name) self.now }
    {
        self.entries.iter().find(|entry| entry.name == name)
    }

    /// The place of the entry of that name.
    fn position(&self, name: Id) -> Option<usize>
        ensures { result ≡ position (is_named name) self.now }
    {
        self.entries.iter().position(|entry| entry.name == name)
    }
}
