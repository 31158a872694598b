//! Runs at a new database.
ghost use Rattle.std.specs.Prelude.{◌≡◌, ◌≤◌, ◌<◌, length, IfOk, vec_len};
ghost use Rattle.desk_rules.specs.Made.{is_fresh};
ghost use Rattle.desk_rules.specs.Position.{first_position};

use racf_desk::Desk;
use racf_outside::{Disk, MemoryDisk, MemorySink, MemorySource, NeverDisk, Two};
use racf_threads::{Ran, run};
use racf_workers::Gate;
use statements::{Issuing, Status};
use std::alloc::{AllocError, Global};
use std::sync::Wait;
use std::test::*;
use std::thread::Threads;

/// The lines of the decks and of the request files of a run.
pub(super) struct Asked {
    /// The decks.
    pub(super) decks: &'static [&'static [u8]],
    /// The request files.
    pub(super) requests: &'static [&'static [u8]],
}

/// How a run ended, what was written, and the disks behind it.
#[derive(Drop)]
pub(super) struct Told<D> {
    /// The status.
    pub(super) status: Status,
    /// The output of each worker.
    pub(super) outputs: Vec<Vec<u8>>,
    /// The disks.
    pub(super) disks: Two<D>,
}

impl<D> Told<D> {
    /// Whether it ended so, with these outputs.
    pub(super) fn is(&self, status: Status, outputs: &[&[u8]]) -> bool {
        self.status == status
            && self.outputs.len() == outputs.len()
            && self
                .outputs
                .iter()
                .zip(outputs)
                .all(|(output, wanted)| output.as_slice() == *wanted)
    }
}

/// A run over disks that keep nothing.
pub(super) fn ran<G: Gate + Sync, R: Wait + Threads + Sync>(
    rt: &R,
    alloc: Global,
    asked: &Asked,
    gate: &G,
) -> Result<Told<NeverDisk>, Fail>
    requires few { (length asked.now.decks.now ≤ 4) × (length asked.now.requests.now ≤ 16) × (0 < length asked.now.decks.now) }
{
    let nothing_is_kept = Two {
        first: NeverDisk,
        second: NeverDisk,
    };
    match Desk::format(alloc, nothing_is_kept) {
        Ok(desk) => over(rt, alloc, asked, gate, desk),
        Err(_) => Err("a new database".into()),
    }
}

/// A run over a disk in memory, one call of which fails.
pub(super) fn ran_on_failing<G: Gate + Sync, R: Wait + Threads + Sync>(
    rt: &R,
    alloc: Global,
    asked: &Asked,
    gate: &G,
    failing: u64,
) -> Result<Told<MemoryDisk>, Fail>
    requires few { (length asked.now.decks.now ≤ 4) × (length asked.now.requests.now ≤ 16) × (0 < length asked.now.decks.now) }
{
    let disks = Two {
        first: MemoryDisk::new(alloc, Vec::new(alloc), Vec::from_slice(alloc, &[failing])?)?,
        second: MemoryDisk::new(alloc, Vec::new(alloc), Vec::new(alloc))?,
    };
    match Desk::format(alloc, disks) {
        Ok(desk) => over(rt, alloc, asked, gate, desk),
        Err(_) => Err("a new database".into()),
    }
}

/// A run at a new database.
fn over<G: Gate + Sync, D: Disk + Drop + Send, R: Wait + Threads + Sync>(
    rt: &R,
    alloc: Global,
    asked: &Asked,
    gate: &G,
    desk: Desk<D>,
) -> Result<Told<D>, Fail>
    requires few { (length asked.now.decks.now ≤ 4) × (length asked.now.requests.now ≤ 16) × (0 < length asked.now.decks.now) }
    requires desk { desk ≡ is_fresh first_position desk.store }
{
    let (Ok(decks), Ok(requests)) = (files(alloc, asked.decks), files(alloc, asked.requests)) else {
        let _ = desk.into_disks();
        return Err("memory".into());
    };
    let Ran {
        status,
        outs,
        disks,
        first: _,
        accepted: _,
        doubt: _,
    } = run(rt, alloc, desk, decks, requests, Issuing::Free, gate);
    Ok(Told {
        status,
        outputs: outputs(alloc, outs)?,
        disks,
    })
}

/// A source of each of these lines, with an empty sink.
pub(super) fn files(
    alloc: Global,
    texts: &[&[u8]],
) -> Result<Vec<(MemorySource, MemorySink)>, AllocError>
    ensures { IfOk result (λ files. vec_len files ≡ length texts.now) }
{
    let mut files = Vec::with_capacity(alloc, texts.len())?;
    for text in texts {
        let source = MemorySource::new(Vec::from_slice(alloc, text)?, Vec::new(alloc));
        files.push((source, MemorySink::new(alloc, Vec::new(alloc))))?;
    }
    Ok(files)
}

/// What each sink took.
fn outputs(
    alloc: Global,
    files: Vec<(MemorySource, MemorySink)>,
) -> Result<Vec<Vec<u8>>, AllocError> {
    let mut outputs = Vec::with_capacity(alloc, files.len())?;
    for (_source, sink) in files {
        outputs.push(sink.into_bytes())?;
    }
    Ok(outputs)
}

/// How many commands lead to where a desk stands that is opened over a disk with these bytes, beside one with those.
pub(super) fn number_of(alloc: Global, first: &[u8], second: &[u8]) -> Result<u64, Fail> {
    let disks = Two {
        first: MemoryDisk::new(alloc, Vec::from_slice(alloc, first)?, Vec::new(alloc))?,
        second: MemoryDisk::new(alloc, Vec::from_slice(alloc, second)?, Vec::new(alloc))?,
    };
    match Desk::open(alloc, disks) {
        Ok(desk) => {
            let number = desk.number();
            let _ = desk.into_disks();
            Ok(number)
        }
        Err(_) => Err("an opening".into()),
    }
}
