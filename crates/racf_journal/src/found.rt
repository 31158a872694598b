//! Journals that were read, and how they are opened.

ghost use Rattle.std.specs.Prelude.{ℕ, ◌+◌, ◌<◌, ◌≤◌, ◌≡◌, ◌≢◌, ◌^◌, List, Ok, true, length, take, drop, IfOk, IfErr, OnOk, MatchResult};
ghost use Rattle.std.specs.List.{AllByRecursion};
ghost use Rattle.racf_outside.specs.Causes.{Rose};
ghost use Rattle.racf_outside.specs.Disk.{Now};
ghost use Rattle.racf_journal.specs.declared.fault.JournalFault.TheVariants as fault;
ghost use Rattle.racf_journal.specs.Kept.{IsResting, Keeps};
ghost use Rattle.racf_journal.specs.Opening.{IsStart, OnlySynced, StaysPossible, Refuses, IsCaused};
ghost use Rattle.racf_journal.specs.Reading.{is_formatted, reading, IsRecord, spelled};
ghost use Rattle.racf_journal.specs.Repair.{IsScanned, IsFound};

use crate::fault::JournalFault;
use crate::journal::Journal;
use crate::laws::{cutting_changes_no_reading, rewriting_the_gate_changes_no_reading};
use crate::reading::{is_formatted, read_from};
use crate::repair::repair;
use crate::scan::{FoundRecords, read_records};
use access_levels::Text;
use racf_outside::{Disk, NeverDisk};
use std::alloc::Global;
use std::marker::Model;

/// A journal that was read and isn't open yet: its disk holds what was found there.
pub struct FoundJournal<D: Disk> {
    /// What it lies on.
    disk: D,
    /// Where its first gate is.
    start: u64,
    /// Its records, and where its last gate is.
    found: FoundRecords,
    /// The bytes of the file from that gate on.
    end: Text,
}

impl<D: Disk> Model for FoundJournal<D> {
    ghost use Rattle.racf_journal.specs.Opening.{FoundOn};
    ghost use Rattle.racf_journal.specs.Repair.{IsFound};

    ghost Value = { FoundOn D };

    ghost view = { λ a. record { disk = a.disk; start = a.start; gate = a.found.gate; records = a.found.records.items } };

    ghost invariant = { λ a. IsFound a.start a.found.gate a.found.records.items a.end (D.tells a.disk) };
}

impl<D: Disk> Journal<D> {
    /// Reads the journal that begins at `start`: its whole open records. The disk is synced, and stays as it is.
    /// Otherwise it is handed back.
    pub fn find(
        alloc: Global,
        mut disk: D,
        start: u64,
    ) -> Result<FoundJournal<D>, (D, JournalFault)>
        requires { IsStart start (D.tells disk) }

        ensures reads { IfOk result (λ found. Now (D.tells disk) (λ m. reading start m.bytes ≡ Ok (record { records = found.records; gate = found.gate }))) }
        ensures synced { IfOk result (λ found. OnlySynced (D.tells disk) (D.tells found.disk)) }
        ensures start { IfOk result (λ found. found.start ≡ start) }
        ensures counted { IfOk result (λ found. found.gate ≡ start + length (spelled found.records)) }
        ensures each { IfOk result (λ found. AllByRecursion IsRecord found.records) }
        ensures moments { MatchResult result (λ found. StaysPossible start (D.tells disk) (D.tells found.disk)) (λ back. StaysPossible start (D.tells disk) (D.tells back.0)) }

        ensures fault { IfErr result (λ back. Now (D.tells disk) (λ m. Refuses start m.bytes back.1)) }
        ensures no_other { IfErr result (λ back. back.1 ≢ fault.Full) }
        ensures untouched { IfErr result (λ back. back.1 ≢ fault.DiskFault → OnlySynced (D.tells disk) (D.tells back.0)) }
        ensures cause { IfErr result (λ back. IsCaused (D.faults disk) (D.faults back.0) back.1) }
        ensures no_fewer { MatchResult result (λ found. D.faults disk ≤ D.faults found.disk) (λ back. D.faults disk ≤ D.faults back.0) }
    {
        match find(alloc, &mut disk, start) {
            Ok((found, end)) => Ok(FoundJournal {
                disk,
                start,
                found,
                end,
            }),
            Err(fault) => Err((disk, fault)),
        }
    }
}

impl<D: Disk> FoundJournal<D> {
    /// The journal that was read of a disk as the end of its file: these records from the place `start` on, and the
    /// bytes `end` from the gate behind them on. The disk holds them, and a crash changes none of it.
    pub fn behind(disk: D, start: u64, found: FoundRecords, end: Text) -> FoundJournal<D>
        requires { IsFound start found.gate found.records.items end (D.tells disk) }
        ensures { result ≡ record { disk = disk; start = start; gate = found.gate; records = found.records.items } }
    {
        FoundJournal {
            disk,
            start,
            found,
            end,
        }
    }

    /// Where its first gate is.
    pub fn start(&self) -> u64
        ensures { result ≡ self.now.start }
    {
        self.start
    }

    /// The records, in their order.
    pub fn records(&self) -> &[Text]
        ensures { result.now ≡ self.now.records }
    {
        &self.found.records
    }

    /// Opens the journal, and gives its records: cuts off what lies behind the last gate, and closes that. At every
    /// moment a crash leaves a file with a reading that was possible before; after `Ok` it leaves the records given, and
    /// the file is read as before. Otherwise the disk is handed back.
    pub fn open(self) -> Result<(Journal<D>, Vec<Text>), (D, JournalFault)>
        ensures reads { IfOk result (λ opened. Now (D.tells self.disk) (λ m. reading self.start m.bytes ≡ Ok (record { records = self.records; gate = self.gate }))) }
        ensures rest { IfOk result (λ opened. (front : List ℕ) → Now (D.tells self.disk) (λ m. take self.start m.bytes ≡ front)
            → Keeps front self.start self.gate self.records (D.tells opened.0.disk)) }
        ensures again { IfOk result (λ opened. Now (D.tells opened.0.disk) (λ m. reading self.start m.bytes ≡ Ok (record { records = self.records; gate = self.gate }))) }
        ensures resting { IfOk result (λ opened. Now (D.tells opened.0.disk) (IsResting self.start self.gate)) }
        ensures start { IfOk result (λ opened. opened.0.start ≡ self.start) }
        ensures gate { IfOk result (λ opened. opened.0.gate ≡ self.gate) }
        ensures records { IfOk result (λ opened. opened.1.items ≡ self.records) }
        ensures moments { MatchResult result (λ opened. StaysPossible self.start (D.tells self.disk) (D.tells opened.0.disk)) (λ back. StaysPossible self.start (D.tells self.disk) (D.tells back.0)) }

        ensures fault { IfErr result (λ back. back.1 ≡ fault.DiskFault) }
        ensures cause { IfErr result (λ back. Rose (D.faults self.disk) (D.faults back.0)) }
        ensures no_fewer { MatchResult result (λ opened. D.faults self.disk ≤ D.faults opened.0.disk) (λ back. D.faults self.disk ≤ D.faults back.0) }
    {
        cutting_changes_no_reading();
        rewriting_the_gate_changes_no_reading();
        let FoundJournal {
            mut disk,
            start,
            found: FoundRecords { records, gate },
            end,
        } = self;
        match repair(&mut disk, gate, end.bytes()) {
            Ok(()) => Ok((Journal { disk, start, gate }, records)),
            Err(fault) => Err((disk, JournalFault::from(fault))),
        }
    }

    /// What was read, over a disk that keeps nothing and never fails, and apart from it the disk, as it is.
    pub fn apart(self) -> (FoundJournal<NeverDisk>, D)
        ensures start { result.0.start ≡ self.start }
        ensures gate { result.0.gate ≡ self.gate }
        ensures records { result.0.records ≡ self.records }
        ensures disk { result.1 ≡ self.disk }
    {
        let FoundJournal {
            disk,
            start,
            found,
            end,
        } = self;
        let found = FoundJournal {
            disk: NeverDisk,
            start,
            found,
            end,
        };
        (found, disk)
    }

    /// The disk.
    pub fn into_disk(self) -> D
        ensures { result ≡ self.disk }
    {
        let FoundJournal {
            disk,
            start: _,
            found: _,
            end: _,
        } = self;
        disk
    }
}

/// Finds the records of a disk, and the bytes of its file from the last gate on. The disk is synced, and then only
/// read.
fn find<D: Disk>(
    alloc: Global,
    disk: &mut D,
    start: u64,
) -> Result<(FoundRecords, Text), JournalFault>
    requires { IsStart start (D.tells disk.old) }
    ensures reads { IfOk result (λ seen. Now (D.tells disk.old) (λ m. reading start m.bytes ≡ Ok (record { records = seen.0.records.items; gate = seen.0.gate }))) }
    ensures found { IfOk result (λ seen. IsFound start seen.0.gate seen.0.records.items seen.1 (D.tells disk.new)) }
    ensures synced { OnOk result (OnlySynced (D.tells disk.old) (D.tells disk.new)) }
    ensures moments { StaysPossible start (D.tells disk.old) (D.tells disk.new) }
    ensures fault { IfErr result (λ why. Now (D.tells disk.old) (λ m. Refuses start m.bytes why)) }
    ensures no_other { IfErr result (λ why. why ≢ fault.Full) }
    ensures untouched { IfErr result (λ why. why ≢ fault.DiskFault → OnlySynced (D.tells disk.old) (D.tells disk.new)) }
    ensures cause { IfErr result (IsCaused (D.faults disk.old) (D.faults disk.new)) }
    ensures no_fewer { D.faults disk.old ≤ D.faults disk.new }
{
    disk.sync()?;
    let (found, bytes) = read(alloc, disk, start)?;
    let end = Text::of(alloc, &bytes[(found.gate - start) as usize..])?;
    Ok((found, end))
}

/// The records of a disk, and the bytes of its file from the start on. The disk is only read.
fn read<D: Disk>(
    alloc: Global,
    disk: &mut D,
    start: u64,
) -> Result<(FoundRecords, Vec<u8>), JournalFault>
    ensures seen { IfOk result (λ seen. Now (D.tells disk.old) (λ m. (is_formatted start m.bytes ≡ true) × (seen.1.items ≡ drop start m.bytes))) }
    ensures found { IfOk result (λ seen. IsScanned start seen.1.items seen.0.records.items seen.0.gate) }
    ensures room { IfOk result (λ seen. start + length seen.1.items < 2 ^ 64) }
    ensures fault { IfErr result (λ why. Now (D.tells disk.old) (λ m. Refuses start m.bytes why)) }
    ensures no_other { IfErr result (λ why. why ≢ fault.Full) }
    ensures kept { D.tells disk.new ≡ D.tells disk.old }
    ensures cause { IfErr result (IsCaused (D.faults disk.old) (D.faults disk.new)) }
    ensures no_fewer { D.faults disk.old ≤ D.faults disk.new }
{
    if !is_formatted(disk, start)? {
        return Err(JournalFault::NotFormatted);
    }
    let bytes = read_from(alloc, disk, start)?;
    let found = read_records(alloc, &bytes, start)?;
    Ok((found, bytes))
}
