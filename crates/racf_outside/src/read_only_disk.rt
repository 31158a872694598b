//! A disk that is only read.

ghost use Rattle.std.specs.Prelude.{ℕ, ◌+◌, ◌-◌, ◌^◌, ◌≡◌, ◌≤◌, ◌<◌, ◌==◌, Some, true, false, min, length, take, drop, is_err, IfOk, OnOk, OnErr};
ghost use Rattle.std.specs.Option.{option_map};
ghost use Rattle.racf_outside.specs.Causes.{HasCause};
ghost use Rattle.racf_outside.specs.Disk.{goes, Now, Faulty};
ghost use Rattle.racf_outside.specs.DiskLaws.{held_is_an_image};
ghost use Rattle.racf_outside.specs.Moments.{written, cut_to, synced};
ghost use Rattle.racf_outside.specs.ReadOnlyDisk.{Unmoved, moments_of};

use crate::disk::Disk;
use crate::faults::Faults;
use crate::memory_disk::fill;
use crate::streams::Failed;
use std::marker::Model;

/// A disk over bytes that lie in memory, as those of a file that was read whole. It answers reads from there. Writes
/// and cuts fail, whatever they are asked, and do nothing: so whatever is done with it, it stays as it was.
#[derive(Drop)]
pub struct ReadOnlyDisk {
    /// What a read gives.
    bytes: Vec<u8>,
    /// How many syncs it did.
    syncs: u64,
    /// The calls that failed.
    faults: Faults,
}

impl Model for ReadOnlyDisk {
    ghost use Rattle.racf_outside.specs.ReadOnlyDisk.{DiskReadOnly};

    ghost Value = { DiskReadOnly };

    ghost view = { λ a. record { bytes = a.bytes.items; syncs = a.syncs; faults = a.faults } };
}

impl ReadOnlyDisk {
    /// A disk of these bytes, all of them durable.
    pub fn new(bytes: Vec<u8>) -> ReadOnlyDisk
        ensures bytes { result.bytes ≡ bytes.items }
        ensures syncs { result.syncs ≡ 0 }
        ensures faults { result.faults ≡ 0 }
    {
        ReadOnlyDisk {
            bytes,
            syncs: 0,
            faults: Faults::new(),
        }
    }

    /// What a read gives.
    pub fn bytes(&self) -> &[u8]
        ensures { result.now ≡ self.now.bytes }
    {
        &self.bytes
    }

    /// How many faults it has counted.
    pub fn faults(&self) -> u64
        ensures { result ≡ self.now.faults }
    {
        self.faults.number()
    }
}

impl Disk for ReadOnlyDisk {
    ghost tells = { λ disk. Some (moments_of disk) };

    ghost faults = { λ disk. disk.faults };

    ghost reads_an_image = { held_is_an_image };

    fn read(&mut self, at: u64, into: &mut [u8]) -> Result<usize, Failed>
        ensures count { IfOk result (λ n. n ≤ length into.new) }
        ensures found { IfOk result (λ n. Now (Some (moments_of self.old)) (λ m. (n ≡ min (length into.new) (length m.bytes - at))
            × (take n into.new ≡ take n (drop at m.bytes)))) }
        ensures kept { Some (moments_of self.new) ≡ Some (moments_of self.old) }
        ensures cause { HasCause self.old.faults self.new.faults result }

        // It never fails.
        ensures succeeds { is_err result ≡ false }
        ensures nothing { self.new ≡ self.old }
    {
        Ok(fill(&self.bytes, at as usize, into))
    }

    fn write_at(&mut self, at: u64, bytes: &[u8]) -> Result<(), Failed>
        requires { Now (Some (moments_of self.old)) (λ m. at ≤ length m.bytes) }
        ensures done { OnOk result (Some (moments_of self.new) ≡ option_map (goes (written at bytes.now)) (Some (moments_of self.old))) }
        ensures failed { OnErr result (Faulty (written at bytes.now) (Some (moments_of self.old)) (Some (moments_of self.new))) }
        ensures cause { HasCause self.old.faults self.new.faults result }

        // It always fails, and does nothing.
        ensures fails { is_err result ≡ true }
        ensures nothing { Unmoved self.old self.new }
    {
        Err(self.faults.count())
    }

    fn cut(&mut self, length: u64) -> Result<(), Failed>
        ensures done { OnOk result (Some (moments_of self.new) ≡ option_map (goes (cut_to length)) (Some (moments_of self.old))) }
        ensures failed { OnErr result (Faulty (cut_to length) (Some (moments_of self.old)) (Some (moments_of self.new))) }
        ensures cause { HasCause self.old.faults self.new.faults result }

        // It always fails, and does nothing.
        ensures fails { is_err result ≡ true }
        ensures nothing { Unmoved self.old self.new }
    {
        Err(self.faults.count())
    }

    fn sync(&mut self) -> Result<(), Failed>
        ensures done { OnOk result (Some (moments_of self.new) ≡ option_map (goes synced) (Some (moments_of self.old))) }
        ensures failed { OnErr result (Faulty (λ m. m) (Some (moments_of self.old)) (Some (moments_of self.new))) }
        ensures cause { HasCause self.old.faults self.new.faults result }

        // It fails only where it did 2^64 - 1 before, which is all that it can count; then it does nothing.
        ensures fails { is_err result ≡ (self.old.syncs == 2 ^ 64 - 1) }
        ensures bytes { self.new.bytes ≡ self.old.bytes }
        ensures nothing { OnErr result (Unmoved self.old self.new) }
    {
        match self.syncs.checked_add(1) {
            Some(syncs) => {
                self.syncs = syncs;
                Ok(())
            }
            None => Err(self.faults.count()),
        }
    }
}
