//! A disk in memory, whose calls may be told to fail.

ghost use Rattle.std.specs.Prelude.{ℕ, ◌+◌, ◌-◌, ◌/◌, ◌≡◌, ◌≤◌, ◌<◌, List, [], ◌∷◌, ◌++◌, Some, true, false, min, length, take, drop, is_err, IfOk, OnOk, OnErr};
ghost use Rattle.std.specs.Option.{option_map};
ghost use Rattle.racf_outside.specs.Calls.{FailsAsTold, no_calls};
ghost use Rattle.racf_outside.specs.Causes.{HasCause};
ghost use Rattle.racf_outside.specs.Disk.{goes, Now, Faulty};
ghost use Rattle.racf_outside.specs.DiskLaws.{replay_reads_an_image};
ghost use Rattle.racf_outside.specs.MemoryDisk.{DidNothing, DidHalf, Replay, is_doubted, half_written, begins, history_of, settled_of, replayed, takes};
ghost use Rattle.racf_outside.specs.Moments.{written, cut_to, synced, reads_as};
ghost use Rattle.racf_outside.specs.declared.memory_disk.Step.TheVariants.{Cut, Synced, Lost};

use crate::calls::Calls;
use crate::disk::Disk;
use crate::streams::Failed;
use std::alloc::{AllocError, Global};
use std::marker::Model;

/// A call that a disk in memory did.
#[derive(Drop)]
pub(crate) enum Step {
    /// These bytes were written from this place on.
    Wrote(u64, Vec<u8>),
    /// The front half of these bytes was written from this place on, and the call failed.
    WroteHalf(u64, Vec<u8>),
    /// It was cut to this length, whether the call failed or not.
    Cut(u64),
    /// All was synced.
    Synced,
    /// A sync failed, and what was written since the last that succeeded was lost.
    Lost,
}

/// A disk that keeps its bytes in memory, and each call that it did, so that it tells its whole history. A call for
/// which memory is refused does nothing. One that is to fail does nothing either, where the disk is made by `new`.
///
/// Where it is made by `doubting`, a call that is to fail is done by half, and is told as one in doubt: a write leaves
/// the front half of its bytes, a cut is done, and a sync loses what was written since the last sync that succeeded, so
/// that a read gives what stood then.
#[derive(Drop)]
pub struct MemoryDisk {
    /// Where its memory is from.
    alloc: Global,
    /// What a read gives.
    bytes: Vec<u8>,
    /// What it began with.
    first: Vec<u8>,
    /// What it did since, in order.
    steps: Vec<Step>,
    /// The calls.
    calls: Calls,
    /// A call that is to fail is done by half.
    doubting: bool,
    /// What stood at the last sync that succeeded, or in the beginning. Kept only where calls are done by half.
    settled: Vec<u8>,
}

impl Model for MemoryDisk {
    ghost use Rattle.std.specs.Prelude.{◌≡◌, true};
    ghost use Rattle.racf_outside.specs.MemoryDisk.{DiskInMemory, begins, replayed};

    ghost Value = { DiskInMemory };

    ghost view = { λ a. record {
      first = a.first.items;
      steps = a.steps.items;
      calls = a.calls;
      doubting = a.doubting;
    } };

    ghost invariant = { λ a. ((replayed a.steps.items (begins a.first.items)).history.now.bytes ≡ a.bytes.items)
        × (a.doubting ≡ true → (replayed a.steps.items (begins a.first.items)).settled ≡ a.settled.items) };
}

impl MemoryDisk {
    /// A disk of these bytes, all of them durable, of whose calls those of the numbers `failing`, counted from 1, are
    /// to fail. Takes the memory for a copy of the bytes.
    pub fn new(alloc: Global, bytes: Vec<u8>, failing: Vec<u64>) -> Result<MemoryDisk, AllocError>
        ensures first { IfOk result (λ disk. disk.first ≡ bytes.items) }
        ensures steps { IfOk result (λ disk. disk.steps ≡ []) }
        ensures calls { IfOk result (λ disk. disk.calls ≡ no_calls failing.items) }

        // A call that fails does nothing.
        ensures doubting { IfOk result (λ disk. disk.doubting ≡ false) }
    {
        let first = Vec::from_slice(alloc, &bytes)?;
        Ok(MemoryDisk {
            alloc,
            bytes,
            first,
            steps: Vec::new(alloc),
            calls: Calls::new(failing),
            doubting: false,
            settled: Vec::new(alloc),
        })
    }

    /// A disk as one that `new` makes, but its calls that are to fail are done by half. Takes the memory for two copies
    /// of the bytes, and at each sync for one more.
    pub fn doubting(
        alloc: Global,
        bytes: Vec<u8>,
        failing: Vec<u64>,
    ) -> Result<MemoryDisk, AllocError>
        ensures first { IfOk result (λ disk. disk.first ≡ bytes.items) }
        ensures steps { IfOk result (λ disk. disk.steps ≡ []) }
        ensures calls { IfOk result (λ disk. disk.calls ≡ no_calls failing.items) }
        ensures doubting { IfOk result (λ disk. disk.doubting ≡ true) }
    {
        let first = Vec::from_slice(alloc, &bytes)?;
        let settled = Vec::from_slice(alloc, &bytes)?;
        Ok(MemoryDisk {
            alloc,
            bytes,
            first,
            steps: Vec::new(alloc),
            calls: Calls::new(failing),
            doubting: true,
            settled,
        })
    }

    /// What a read gives.
    pub fn bytes(&self) -> &[u8]
        ensures { result.now ≡ (history_of self.now).now.bytes }
    {
        &self.bytes
    }

    /// What a read gives.
    pub fn into_bytes(self) -> Vec<u8>
        ensures { result.items ≡ (history_of self).now.bytes }
    {
        let MemoryDisk {
            alloc: _,
            bytes,
            first: _,
            steps: _,
            calls: _,
            doubting: _,
            settled: _,
        } = self;
        bytes
    }

    /// How many faults it has counted.
    pub fn faults(&self) -> u64
        ensures { result ≡ self.now.calls.faults }
    {
        self.calls.faults()
    }
}

impl Disk for MemoryDisk {
    ghost tells = { λ disk. Some (history_of disk) };

    ghost faults = { λ disk. disk.calls.faults };

    ghost reads_an_image = { replay_reads_an_image };

    fn read(&mut self, at: u64, into: &mut [u8]) -> Result<usize, Failed>
        ensures count { IfOk result (λ n. n ≤ length into.new) }
        ensures found { IfOk result (λ n. Now (Some (history_of self.old)) (λ m. (n ≡ min (length into.new) (length m.bytes - at))
            × (take n into.new ≡ take n (drop at m.bytes)))) }
        ensures kept { Some (history_of self.new) ≡ Some (history_of self.old) }
        ensures cause { HasCause self.old.calls.faults self.new.calls.faults result }

        // It fails only where it is told to, and does nothing.
        ensures failed { FailsAsTold false self.old.calls self.new.calls (is_err result) }
        ensures nothing { DidNothing self.old self.new }
        ensures doubting { self.new.doubting ≡ self.old.doubting }
    {
        self.calls.call()?;
        Ok(fill(&self.bytes, at as usize, into))
    }

    fn write_at(&mut self, at: u64, bytes: &[u8]) -> Result<(), Failed>
        requires { Now (Some (history_of self.old)) (λ m. at ≤ length m.bytes) }
        ensures done { OnOk result (Some (history_of self.new) ≡ option_map (goes (written at bytes.now)) (Some (history_of self.old))) }
        ensures failed { OnErr result (Faulty (written at bytes.now) (Some (history_of self.old)) (Some (history_of self.new))) }
        ensures cause { HasCause self.old.calls.faults self.new.calls.faults result }

        // It fails only where it is told to, or for want of memory, and then does nothing, or the front half.
        ensures told { FailsAsTold false self.old.calls self.new.calls (is_err result) }
        ensures nothing { OnErr result (is_doubted self.old self.new ≡ false → DidNothing self.old self.new) }
        ensures half { OnErr result (is_doubted self.old self.new ≡ true → DidHalf (half_written at bytes.now) self.old self.new) }
        ensures settled { settled_of self.new ≡ settled_of self.old }
        ensures doubting { self.new.doubting ≡ self.old.doubting }
    {
        match self.calls.call() {
            Ok(()) => match write_whole(self.alloc, &mut self.bytes, &mut self.steps, at, bytes) {
                Ok(()) => Ok(()),
                Err(AllocError) => Err(self.calls.refusal()),
            },
            Err(failed) => {
                if self.doubting {
                    match write_half(self.alloc, &mut self.bytes, &mut self.steps, at, bytes) {
                        Ok(()) => Err(failed),
                        Err(AllocError) => Err(self.calls.refusal()),
                    }
                } else {
                    Err(failed)
                }
            }
        }
    }

    fn cut(&mut self, length: u64) -> Result<(), Failed>
        ensures done { OnOk result (Some (history_of self.new) ≡ option_map (goes (cut_to length)) (Some (history_of self.old))) }
        ensures failed { OnErr result (Faulty (cut_to length) (Some (history_of self.old)) (Some (history_of self.new))) }
        ensures cause { HasCause self.old.calls.faults self.new.calls.faults result }

        // It fails only where it is told to, or for want of memory, and then does nothing, or is done all the same.
        ensures told { FailsAsTold false self.old.calls self.new.calls (is_err result) }
        ensures nothing { OnErr result (is_doubted self.old self.new ≡ false → DidNothing self.old self.new) }
        ensures half { OnErr result (is_doubted self.old self.new ≡ true → DidHalf (cut_to length) self.old self.new) }
        ensures settled { settled_of self.new ≡ settled_of self.old }
        ensures doubting { self.new.doubting ≡ self.old.doubting }
    {
        let called = self.calls.call();
        if called.is_err() && !self.doubting {
            return called;
        }
        match cut_off(&mut self.bytes, &mut self.steps, length) {
            Ok(()) => called,
            Err(AllocError) => Err(self.calls.refusal()),
        }
    }

    fn sync(&mut self) -> Result<(), Failed>
        ensures done { OnOk result (Some (history_of self.new) ≡ option_map (goes synced) (Some (history_of self.old))) }
        ensures failed { OnErr result (Faulty (λ m. m) (Some (history_of self.old)) (Some (history_of self.new))) }
        ensures cause { HasCause self.old.calls.faults self.new.calls.faults result }

        // It fails only where it is told to, or for want of memory. Then it does nothing, and all stays in doubt; or
        // what was written since the last sync that succeeded is lost.
        ensures told { FailsAsTold false self.old.calls self.new.calls (is_err result) }
        ensures nothing { OnErr result (is_doubted self.old self.new ≡ false → DidNothing self.old self.new) }
        ensures loss { OnErr result (is_doubted self.old self.new ≡ true → DidHalf (reads_as (settled_of self.old)) self.old self.new) }
        ensures settled { OnOk result (settled_of self.new ≡ (history_of self.old).now.bytes) }
        ensures unsettled { OnErr result (settled_of self.new ≡ settled_of self.old) }
        ensures doubting { self.new.doubting ≡ self.old.doubting }
    {
        match self.calls.call() {
            Ok(()) => match settle(
                self.alloc,
                &self.bytes,
                &mut self.steps,
                &mut self.settled,
                self.doubting,
            ) {
                Ok(()) => Ok(()),
                Err(AllocError) => Err(self.calls.refusal()),
            },
            Err(failed) => {
                if self.doubting {
                    match lose(self.alloc, &mut self.bytes, &mut self.steps, &self.settled) {
                        Ok(()) => Err(failed),
                        Err(AllocError) => Err(self.calls.refusal()),
                    }
                } else {
                    Err(failed)
                }
            }
        }
    }
}

/// Moves the bytes from a place on into the front of `into`, as many as fit, and answers how many.
pub(crate) fn fill(bytes: &[u8], at: usize, into: &mut [u8]) -> usize
    ensures count { result ≡ min (length into.new) (length bytes.now - at) }
    ensures found { take result into.new ≡ take result (drop at bytes.now) }
{
    let rest = &bytes[at.min(bytes.len())..];
    let count = rest.len().min(into.len());
    into[..count].copy_from_slice(&rest[..count]);
    count
}

/// Notes a step behind the others.
fn note(steps: &mut Vec<Step>, step: Step) -> Result<(), AllocError>
    ensures noted { OnOk result ((r : Replay) → replayed steps.new.items r ≡ takes step (replayed steps.old.items r)) }
    ensures kept { OnErr result (steps.new.items ≡ steps.old.items) }
{
    match steps.push(step) {
        Ok(()) => Ok(()),
        Err(_) => Err(AllocError),
    }
}

/// Writes these bytes from a place on, which lies within the others or at their end, and notes that.
fn write_whole(
    alloc: Global,
    bytes: &mut Vec<u8>,
    steps: &mut Vec<Step>,
    at: u64,
    piece: &[u8],
) -> Result<(), AllocError>
    requires { at ≤ length bytes.old.items }
    ensures bytes { OnOk result (bytes.new.items ≡ take at bytes.old.items ++ (piece.now ++ drop (at + length piece.now) bytes.old.items)) }
    ensures history { OnOk result ((r : Replay) → (replayed steps.new.items r).history ≡ goes (written at piece.now) (replayed steps.old.items r).history) }
    ensures settled { OnOk result ((r : Replay) → (replayed steps.new.items r).settled ≡ (replayed steps.old.items r).settled) }
    ensures kept { OnErr result (bytes.new.items ≡ bytes.old.items) }
    ensures same { OnErr result (steps.new.items ≡ steps.old.items) }
{
    let step = Step::Wrote(at, Vec::from_slice(alloc, piece)?);
    write(bytes, steps, at, piece, step)
}

/// Writes the front half of these bytes, and notes that.
fn write_half(
    alloc: Global,
    bytes: &mut Vec<u8>,
    steps: &mut Vec<Step>,
    at: u64,
    piece: &[u8],
) -> Result<(), AllocError>
    requires { at ≤ length bytes.old.items }
    ensures bytes { OnOk result (bytes.new.items ≡ take at bytes.old.items ++ (take (length piece.now / 2) piece.now ++ drop (at + length (take (length piece.now / 2) piece.now)) bytes.old.items)) }
    ensures history { OnOk result ((r : Replay) → (replayed steps.new.items r).history ≡ goes (half_written at piece.now) (replayed steps.old.items r).history) }
    ensures settled { OnOk result ((r : Replay) → (replayed steps.new.items r).settled ≡ (replayed steps.old.items r).settled) }
    ensures kept { OnErr result (bytes.new.items ≡ bytes.old.items) }
    ensures same { OnErr result (steps.new.items ≡ steps.old.items) }
{
    let step = Step::WroteHalf(at, Vec::from_slice(alloc, piece)?);
    write(bytes, steps, at, &piece[..piece.len() / 2], step)
}

/// Writes these bytes from a place on, and notes this step.
fn write(
    bytes: &mut Vec<u8>,
    steps: &mut Vec<Step>,
    at: u64,
    piece: &[u8],
    step: Step,
) -> Result<(), AllocError>
    requires { at ≤ length bytes.old.items }
    ensures bytes { OnOk result (bytes.new.items ≡ take at bytes.old.items ++ (piece.now ++ drop (at + length piece.now) bytes.old.items)) }
    ensures steps { OnOk result ((r : Replay) → replayed steps.new.items r ≡ takes step (replayed steps.old.items r)) }
    ensures kept { OnErr result (bytes.new.items ≡ bytes.old.items) }
    ensures same { OnErr result (steps.new.items ≡ steps.old.items) }
{
    let place = at as usize;
    let end = bytes.len();
    let within = piece.len().min(end - place);
    bytes.extend_from_slice(&piece[within..])?;
    if note(steps, step).is_err() {
        bytes.truncate(end);
        return Err(AllocError);
    }
    bytes[place..place + within].copy_from_slice(&piece[..within]);
    Ok(())
}

/// Cuts off what lies behind the first `end` bytes, and notes that.
fn cut_off(bytes: &mut Vec<u8>, steps: &mut Vec<Step>, end: u64) -> Result<(), AllocError>
    ensures bytes { OnOk result (bytes.new.items ≡ take end bytes.old.items) }
    ensures steps { OnOk result ((r : Replay) → replayed steps.new.items r ≡ takes (Cut end) (replayed steps.old.items r)) }
    ensures kept { OnErr result (bytes.new.items ≡ bytes.old.items) }
    ensures same { OnErr result (steps.new.items ≡ steps.old.items) }
{
    note(steps, Step::Cut(end))?;
    bytes.truncate(end as usize);
    Ok(())
}

/// Notes a sync, and keeps a copy of the bytes where it is asked for.
fn settle(
    alloc: Global,
    bytes: &[u8],
    steps: &mut Vec<Step>,
    settled: &mut Vec<u8>,
    doubting: bool,
) -> Result<(), AllocError>
    ensures steps { OnOk result ((r : Replay) → replayed steps.new.items r ≡ takes Synced (replayed steps.old.items r)) }
    ensures settled { OnOk result (doubting ≡ true → settled.new.items ≡ bytes.now) }
    ensures kept { OnErr result (settled.new.items ≡ settled.old.items) }
    ensures same { OnErr result (steps.new.items ≡ steps.old.items) }
{
    if !doubting {
        return note(steps, Step::Synced);
    }
    let copy = Vec::from_slice(alloc, bytes)?;
    note(steps, Step::Synced)?;
    *settled = copy;
    Ok(())
}

/// Takes back what stood at the last sync, and notes that.
fn lose(
    alloc: Global,
    bytes: &mut Vec<u8>,
    steps: &mut Vec<Step>,
    settled: &[u8],
) -> Result<(), AllocError>
    ensures bytes { OnOk result (bytes.new.items ≡ settled.now) }
    ensures steps { OnOk result ((r : Replay) → replayed steps.new.items r ≡ takes Lost (replayed steps.old.items r)) }
    ensures kept { OnErr result (bytes.new.items ≡ bytes.old.items) }
    ensures same { OnErr result (steps.new.items ≡ steps.old.items) }
{
    let copy = Vec::from_slice(alloc, settled)?;
    note(steps, Step::Lost)?;
    *bytes = copy;
    Ok(())
}
