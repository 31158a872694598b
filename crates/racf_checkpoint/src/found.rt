//! Stores that were read, and how they are opened.

ghost use Rattle.std.specs.Prelude.{◌+◌, ◌<◌, ◌≤◌, ◌≡◌, ◌≢◌, ◌^◌, length, IfOk, IfErr, MatchResult};
ghost use Rattle.std.specs.List.{AllByRecursion};
ghost use Rattle.racf_outside.specs.Causes.{Rose};
ghost use Rattle.racf_journal.specs.Opening.{OnlySynced};
ghost use Rattle.racf_journal.specs.Reading.{IsRecord, spelled};
ghost use Rattle.database_image.specs.Image.{image_of, IsStored as AreStored};
ghost use Rattle.checkpoint_disks.specs.declared.counting.Side.{Side};
ghost use Rattle.checkpoint_disks.specs.Compacting.{IsCheckpoint};
ghost use Rattle.checkpoint_disks.specs.Counting.{as_read};
ghost use Rattle.racf_checkpoint.specs.Contents.{Says, Refuses, IsCausedByOne};
ghost use Rattle.racf_checkpoint.specs.Stored.{Stores, IsReady, NowRead, StaysPossible, disk_on, pick};
ghost use Rattle.racf_checkpoint.specs.Finding.{found_in, IsSeen};

use crate::fault::StoreFault;
use crate::reading::{Seen, read_disks};
use crate::sides::{by_role, in_order};
use crate::store::Store;
use access_levels::Text;
use checkpoint_disks::laws::records_are_read_behind_an_image;
use checkpoint_disks::{Checkpoint, Side};
use racf_journal::{FoundJournal, FoundRecords};
use racf_outside::{Disk, NeverDisk, Two};
use racf_profiles::Rows;
use std::alloc::Global;
use std::marker::Model;
use std::snapshot::Snapshot;

/// A store that was read and isn't open yet: its disks hold what was found there.
pub struct FoundStore<D: Disk> {
    /// The journal, behind the checkpoint of the disk that counts.
    journal: FoundJournal<D>,
    /// The other disk.
    idle: D,
    /// Which of the two counts.
    side: Side,
    /// The epoch of its checkpoint.
    epoch: u64,
    /// How many commands led to the rows.
    number: u64,
    /// The rows of the checkpoint, as contracts see them: the value itself is its reader's.
    rows: Snapshot<Rows>,
}

impl<D: Disk> Model for FoundStore<D> {
    ghost use Rattle.racf_checkpoint.specs.Finding.{FoundOn, found_in, IsRead};

    ghost Value = { FoundOn D };

    ghost view = { λ a. record { journal = a.journal; idle = a.idle; side = a.side; epoch = a.epoch; number = a.number; rows = a.rows.value } };

    ghost invariant = { λ a. IsRead (D.tells a.journal.disk) (D.tells a.idle) a.side (record { epoch = a.epoch; number = a.number; rows = a.rows.value; start = a.journal.start; records = a.journal.records; gate = a.journal.gate }) };
}

impl<D: Disk> Store<D> {
    /// Reads a store: the checkpoint that counts, and the records of its journal. The rows of the checkpoint are given
    /// beside it, and aren't kept. Both disks are synced, and stay as they are. Otherwise they are handed back.
    pub fn find(alloc: Global, disks: Two<D>) -> Result<(FoundStore<D>, Rows), (Two<D>, StoreFault)>
        ensures says { IfOk result (λ found. NowRead (D.tells disks.first) (D.tells disks.second) (Says (found_in found.0))) }
        ensures rows { IfOk result (λ found. found.1 ≡ found.0.rows) }
        ensures lawful { IfOk result (λ found. IsCheckpoint (found_in found.0)) }
        ensures each { IfOk result (λ found. AllByRecursion IsRecord found.0.journal.records) }
        ensures room { IfOk result (λ found. found.0.journal.start + length (spelled found.0.journal.records) < 2 ^ 64) }
        ensures first_synced { IfOk result (λ found. OnlySynced (D.tells disks.first) (D.tells (pick found.0.side found.0.journal.disk found.0.idle))) }
        ensures second_synced { IfOk result (λ found. OnlySynced (D.tells disks.second) (D.tells (pick found.0.side found.0.idle found.0.journal.disk))) }
        ensures first_moments { MatchResult result (λ found. StaysPossible (D.tells disks.first) (D.tells (pick found.0.side found.0.journal.disk found.0.idle))) (λ back. StaysPossible (D.tells disks.first) (D.tells back.0.first)) }
        ensures second_moments { MatchResult result (λ found. StaysPossible (D.tells disks.second) (D.tells (pick found.0.side found.0.idle found.0.journal.disk))) (λ back. StaysPossible (D.tells disks.second) (D.tells back.0.second)) }

        ensures fault { IfErr result (λ back. NowRead (D.tells disks.first) (D.tells disks.second) (Refuses back.1)) }
        ensures no_other { IfErr result (λ back. back.1 ≢ StoreFault.Full) }
        ensures untouched { IfErr result (λ back. back.1 ≢ StoreFault.DiskFault → OnlySynced (D.tells disks.first) (D.tells back.0.first) × OnlySynced (D.tells disks.second) (D.tells back.0.second)) }
        ensures cause { IfErr result (λ back. IsCausedByOne (D.faults disks.first) (D.faults back.0.first) (D.faults disks.second) (D.faults back.0.second) back.1) }
        ensures first_no_fewer { MatchResult result (λ found. D.faults disks.first ≤ D.faults (pick found.0.side found.0.journal.disk found.0.idle)) (λ back. D.faults disks.first ≤ D.faults back.0.first) }
        ensures second_no_fewer { MatchResult result (λ found. D.faults disks.second ≤ D.faults (pick found.0.side found.0.idle found.0.journal.disk)) (λ back. D.faults disks.second ≤ D.faults back.0.second) }
    {
        let Two {
            mut first,
            mut second,
        } = disks;
        match read_disks(alloc, &mut first, &mut second) {
            Ok(seen) => Ok(FoundStore::of(first, second, seen)),
            Err(fault) => Err((Two { first, second }, fault)),
        }
    }
}

impl<D: Disk> FoundStore<D> {
    /// What was seen on two disks.
    fn of(first: D, second: D, seen: Seen) -> (FoundStore<D>, Rows)
        requires { IsSeen (D.tells first) (D.tells second) seen.side (as_read seen.checkpoint) seen.end }
        ensures found { found_in result.0 ≡ as_read seen.checkpoint }
        ensures rows { result.1 ≡ result.0.rows }
        ensures side { result.0.side ≡ seen.side }
        ensures live { result.0.journal.disk ≡ pick seen.side first second }
        ensures idle { result.0.idle ≡ pick seen.side second first }
    {
        let Seen {
            side,
            checkpoint,
            end,
        } = seen;
        let Checkpoint {
            epoch,
            number,
            rows,
            start,
            records,
            gate,
        } = checkpoint;
        let (live, idle) = by_role(side, first, second);
        let found = FoundRecords { records, gate };
        let found = FoundStore {
            journal: FoundJournal::behind(live, start, found, end),
            idle,
            side,
            epoch,
            number,
            rows: Snapshot::of(&rows),
        };
        (found, rows)
    }

    /// How many commands led to these rows.
    pub fn number(&self) -> u64
        ensures { result ≡ self.now.number }
    {
        self.number
    }

    /// The place of the journal's first gate.
    pub fn start(&self) -> u64
        ensures { result ≡ self.now.journal.start }
    {
        self.journal.start()
    }

    /// The records since, in their order.
    pub fn records(&self) -> &[Text]
        ensures { result.now ≡ self.now.journal.records }
    {
        self.journal.records()
    }

    /// Opens the store, and gives the records that were found: repairs the end of its journal. At every moment a crash
    /// leaves files that say what was possible before; after `Ok` it leaves what was found. Otherwise the disks are
    /// handed back.
    pub fn open(self) -> Result<(Store<D>, Vec<Text>), (Two<D>, StoreFault)>
        ensures stores { IfOk result (λ opened. Stores D.tells opened.0 (found_in self)) }
        ensures ready { IfOk result (λ opened. IsReady D.tells opened.0) }
        ensures epoch { IfOk result (λ opened. opened.0.epoch ≡ self.epoch) }
        ensures side { IfOk result (λ opened. opened.0.side ≡ self.side) }
        ensures start { IfOk result (λ opened. opened.0.journal.start ≡ self.journal.start) }
        ensures gate { IfOk result (λ opened. opened.0.journal.gate ≡ self.journal.gate) }
        ensures records { IfOk result (λ opened. opened.1.items ≡ self.journal.records) }
        ensures moments { MatchResult result (λ opened. StaysPossible (D.tells self.journal.disk) (D.tells opened.0.journal.disk))
            (λ back. StaysPossible (D.tells self.journal.disk) (D.tells (pick self.side back.0.first back.0.second))) }
        ensures idle { MatchResult result (λ opened. opened.0.idle ≡ self.idle) (λ back. pick self.side back.0.second back.0.first ≡ self.idle) }

        ensures fault { IfErr result (λ back. back.1 ≡ StoreFault.DiskFault) }
        ensures cause { IfErr result (λ back. Rose (D.faults self.journal.disk) (D.faults (pick self.side back.0.first back.0.second))) }
        ensures no_fewer { MatchResult result (λ opened. D.faults self.journal.disk ≤ D.faults opened.0.journal.disk) (λ back. D.faults self.journal.disk ≤ D.faults (pick self.side back.0.first back.0.second)) }
    {
        let FoundStore {
            journal,
            idle,
            side,
            epoch,
            number: _,
            rows: _,
        } = self;
        records_are_read_behind_an_image();
        match journal.open() {
            Ok((journal, records)) => {
                let store = Store {
                    journal,
                    idle,
                    side,
                    epoch,
                };
                Ok((store, records))
            }
            Err((live, _)) => Err((in_order(side, live, idle), StoreFault::DiskFault)),
        }
    }

    /// What was read, over disks that keep nothing and never fail, and apart from it the disks, as they are: for who
    /// looks at a database and changes nothing.
    pub fn apart(self) -> (FoundStore<NeverDisk>, Two<D>)
        ensures found { found_in result.0 ≡ found_in self }
        ensures side { result.0.side ≡ self.side }
        ensures first { result.1.first ≡ pick self.side self.journal.disk self.idle }
        ensures second { result.1.second ≡ pick self.side self.idle self.journal.disk }
    {
        let FoundStore {
            journal,
            idle,
            side,
            epoch,
            number,
            rows,
        } = self;
        let (journal, live) = journal.apart();
        let found = FoundStore {
            journal,
            idle: NeverDisk,
            side,
            epoch,
            number,
            rows,
        };
        (found, in_order(side, live, idle))
    }

    /// The disks.
    pub fn into_disks(self) -> Two<D>
        ensures first { result.first ≡ pick self.side self.journal.disk self.idle }
        ensures second { result.second ≡ pick self.side self.idle self.journal.disk }
    {
        let FoundStore {
            journal,
            idle,
            side,
            epoch: _,
            number: _,
            rows: _,
        } = self;
        in_order(side, journal.into_disk(), idle)
    }
}
