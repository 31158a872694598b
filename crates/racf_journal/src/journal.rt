//! The journal.

ghost use Rattle.std.specs.Prelude.{ℕ, ◌+◌, ◌<◌, ◌≤◌, ◌≡◌, ◌≢◌, ◌^◌, ◌↔◌, List, [], length, take, Ok, IsTrue, IfOk, IfErr, OnOk, IsErrOf, MatchResult};
ghost use Rattle.std.specs.List.{AllByRecursion};
ghost use Rattle.racf_outside.specs.Causes.{Rose};
ghost use Rattle.racf_outside.specs.Disk.{Now};
ghost use Rattle.racf_journal.specs.Appending.{Acknowledges, LeavesEither, IsOfAppend};
ghost use Rattle.racf_journal.specs.Kept.{IsResting, Keeps};
ghost use Rattle.racf_journal.specs.Opening.{IsStart, OnlySynced, StaysPossible, Refuses, IsCaused};
ghost use Rattle.racf_journal.specs.Reading.{magic, reading, IsRecord, spelled};

use crate::fault::JournalFault;
use crate::layout::{FIRST_START, MOST_BYTES};
use crate::writing::{write_new, write_record};
use access_levels::Text;
use racf_outside::Disk;
use std::alloc::Global;
use std::marker::Model;
use std::mem;

/// Records behind gates, on a disk of its own or in the last part of a file.
pub struct Journal<D: Disk> {
    /// What it lies on.
    pub(crate) disk: D,
    /// Where its first gate is.
    pub(crate) start: u64,
    /// Where its last gate is, which is closed.
    pub(crate) gate: u64,
}

impl<D: Disk> Model for Journal<D> {
    ghost use Rattle.racf_journal.specs.Kept.{JournalOn};

    ghost Value = { JournalOn D };

    ghost view = { λ a. record { disk = a.disk; start = a.start; gate = a.gate } };
}

impl<D: Disk> Journal<D> {
    /// Makes a new journal of a disk, whatever that held: the file is its first eight bytes and one closed gate. A
    /// crash meanwhile may leave anything. Where the disk fails, it is handed back.
    pub fn format(mut disk: D) -> Result<Journal<D>, (D, JournalFault)>
        ensures made { IfOk result (λ made. Keeps magic made.start made.gate [] (D.tells made.disk)) }
        ensures start { IfOk result (λ made. made.start ≡ 8) }
        ensures gate { IfOk result (λ made. made.gate ≡ 8) }
        ensures fault { IfErr result (λ back. back.1 ≡ JournalFault.DiskFault) }
        ensures cause { IfErr result (λ back. Rose (D.faults disk) (D.faults back.0)) }
        ensures no_fewer { MatchResult result (λ made. D.faults disk ≤ D.faults made.disk) (λ back. D.faults disk ≤ D.faults back.0) }
    {
        match write_new(&mut disk) {
            Ok(()) => Ok(Journal {
                disk,
                start: FIRST_START,
                gate: FIRST_START,
            }),
            Err(fault) => Err((disk, JournalFault::from(fault))),
        }
    }

    /// A journal without records at the end of a file: its one gate stands at `start`, and nothing is in doubt.
    pub fn behind(disk: D, start: u64) -> Journal<D>
        requires rest { Now (D.tells disk) (IsResting start start) }
        ensures { result ≡ record { disk = disk; start = start; gate = start } }
    {
        Journal {
            disk,
            start,
            gate: start,
        }
    }

    /// Goes over to another disk, as a journal without records at the end of its file, and hands the former one back in
    /// its place.
    pub fn turn_to(&mut self, other: &mut D, start: u64)
        requires rest { Now (D.tells other.old) (IsResting start start) }
        ensures journal { self.new ≡ record { disk = other.old; start = start; gate = start } }
        ensures former { other.new ≡ self.old.disk }
    {
        mem::swap(&mut self.disk, other);
        self.start = start;
        self.gate = start;
    }

    /// Opens the journal that begins at `start`, and gives its whole open records. At every moment a crash leaves a
    /// file with a reading that was possible before; after `Ok` it leaves the records given. Otherwise the disk is
    /// handed back.
    pub fn open(
        alloc: Global,
        disk: D,
        start: u64,
    ) -> Result<(Journal<D>, Vec<Text>), (D, JournalFault)>
        requires { IsStart start (D.tells disk) }

        ensures reads { IfOk result (λ opened. Now (D.tells disk) (λ m. reading start m.bytes ≡ Ok (record { records = opened.1.items; gate = opened.0.gate }))) }
        ensures rest { IfOk result (λ opened. (front : List ℕ) → Now (D.tells disk) (λ m. take start m.bytes ≡ front)
            → Keeps front start opened.0.gate opened.1.items (D.tells opened.0.disk)) }
        ensures resting { IfOk result (λ opened. Now (D.tells opened.0.disk) (IsResting start opened.0.gate)) }
        ensures start { IfOk result (λ opened. opened.0.start ≡ start) }
        ensures counted { IfOk result (λ opened. opened.0.gate ≡ start + length (spelled opened.1.items)) }
        ensures each { IfOk result (λ opened. AllByRecursion IsRecord opened.1.items) }
        ensures moments { MatchResult result (λ opened. StaysPossible start (D.tells disk) (D.tells opened.0.disk)) (λ back. StaysPossible start (D.tells disk) (D.tells back.0)) }

        ensures fault { IfErr result (λ back. Now (D.tells disk) (λ m. Refuses start m.bytes back.1)) }
        ensures no_other { IfErr result (λ back. back.1 ≢ JournalFault.Full) }
        ensures untouched { IfErr result (λ back. back.1 ≢ JournalFault.DiskFault → OnlySynced (D.tells disk) (D.tells back.0)) }
        ensures cause { IfErr result (λ back. IsCaused (D.faults disk) (D.faults back.0) back.1) }
        ensures no_fewer { MatchResult result (λ opened. D.faults disk ≤ D.faults opened.0.disk) (λ back. D.faults disk ≤ D.faults back.0) }
    {
        Journal::find(alloc, disk, start)?.open()
    }

    /// Appends a record. After `Ok` every crash keeps it, and at every moment before a crash leaves the records as they
    /// were or with this one behind them. After a fault of the disk the journal is to be opened again; after any other
    /// all is as before. Takes memory only for more than 30,020 bytes.
    pub fn append(&mut self, alloc: Global, bytes: &[u8]) -> Result<(), JournalFault>
        requires rest { Now (D.tells self.old.disk) (IsResting self.old.start self.old.gate) }
        requires lawful { IsRecord bytes.now }

        ensures acknowledged { OnOk result (Acknowledges self.old.start self.old.gate bytes.now (D.tells self.old.disk) (D.tells self.new.disk)) }
        ensures moments { LeavesEither self.old.start self.old.gate bytes.now (D.tells self.old.disk) (D.tells self.new.disk) }
        ensures resting { OnOk result (Now (D.tells self.new.disk) (IsResting self.new.start self.new.gate)) }
        ensures start { self.new.start ≡ self.old.start }
        ensures gate { OnOk result (self.new.gate ≡ self.old.gate + 1 + length bytes.now) }

        ensures full { IsErrOf result JournalFault.Full ↔ (2 ^ 28 < (self.old.gate + 1) + (length bytes.now + 1)) }
        ensures memory { IsErrOf result JournalFault.NoMemory → 30020 < length bytes.now }
        ensures cause { IfErr result (IsCaused (D.faults self.old.disk) (D.faults self.new.disk)) }
        ensures no_other { IfErr result IsOfAppend }
        ensures kept { IfErr result (λ why. why ≢ JournalFault.DiskFault → self.new ≡ self.old) }
        ensures no_fewer { D.faults self.old.disk ≤ D.faults self.new.disk }
    {
        if !self.fits(bytes.len() as u64) {
            return Err(JournalFault::Full);
        }
        write_record(alloc, &mut self.disk, self.gate, bytes)?;
        self.gate += 1 + bytes.len() as u64;
        Ok(())
    }

    /// The place of its last gate, behind which a record comes next.
    pub fn gate(&self) -> u64
        ensures { result ≡ self.now.gate }
    {
        self.gate
    }

    /// Whether a record of that many bytes has room.
    pub fn fits(&self, length: u64) -> bool
        ensures { IsTrue result ↔ ((self.now.gate + 1) + (length + 1) ≤ 2 ^ 28) }
    {
        self.gate.saturating_add(2).saturating_add(length) <= MOST_BYTES
    }

    /// The disk.
    pub fn into_disk(self) -> D
        ensures { result ≡ self.disk }
    {
        let Journal {
            disk,
            start: _,
            gate: _,
        } = self;
        disk
    }
}
