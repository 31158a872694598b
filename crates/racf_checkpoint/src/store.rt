//! The store.

ghost use Rattle.std.specs.Prelude.{ℕ, ◌+◌, ◌-◌, ◌<◌, ◌≤◌, ◌≡◌, ◌≢◌, ◌^◌, ◌↔◌, ◌⊎◌, true, false, List, length, min, IsOk, IsTrue, IfOk, IfErr, OnOk, OnErr, IsErrOf, MatchResult};
ghost use Rattle.racf_outside.specs.Causes.{Rose};
ghost use Rattle.racf_outside.specs.Crashes.{StaysIn};
ghost use Rattle.racf_outside.specs.Disk.{Now};
ghost use Rattle.racf_journal.specs.Kept.{IsResting};
ghost use Rattle.racf_journal.specs.Opening.{OnlySynced};
ghost use Rattle.racf_journal.specs.Reading.{IsRecord, spelled};
ghost use Rattle.racf_profiles.specs.Lawful.{AreLawful};
ghost use Rattle.racf_profiles.specs.NewDatabase.{new_database};
ghost use Rattle.database_image.specs.Image.{AreImageOf, image_of, IsStored as AreStored};
ghost use Rattle.checkpoint_disks.specs.declared.counting.Side.{Side};
ghost use Rattle.checkpoint_disks.specs.Files.{head_is_open, CheckpointRead};
ghost use Rattle.checkpoint_disks.specs.Compacting.{new_file, new_checkpoint, with_records, IsCheckpoint};
ghost use Rattle.racf_checkpoint.specs.Contents.{Says, SaysEither, and_record, Refuses, IsCaused, IsCausedByOne, IsOfAppend};
ghost use Rattle.racf_checkpoint.specs.Formatting.{StaysFormatting, StaysBaring, LeavesNoOlder};
ghost use Rattle.racf_checkpoint.specs.Stored.{Stores, IsReady, IsStored, IsPassedOver, NowRead, Beside, StaysPossible, disk_on, other};

use crate::fault::StoreFault;
use crate::formatting::write_first;
use crate::sides::{in_order, other};
use access_levels::Text;
use checkpoint_disks::Side;
use checkpoint_disks::laws::records_are_read_behind_an_image;
use database_image::laws::images_are_of_rows;
use racf_journal::Journal;
use racf_outside::{Disk, Two};
use racf_profiles::Rows;
use std::alloc::Global;
use std::marker::Model;

/// The rows of a database and the records since, on two disks, of which one counts.
pub struct Store<D: Disk> {
    /// The journal, behind the checkpoint of the disk that counts.
    pub(crate) journal: Journal<D>,
    /// The other disk.
    pub(crate) idle: D,
    /// Which of the two counts.
    pub(crate) side: Side,
    /// The epoch of its checkpoint.
    pub(crate) epoch: u64,
}

impl<D: Disk> Model for Store<D> {
    ghost use Rattle.racf_checkpoint.specs.Stored.{StoreOn};

    ghost Value = { StoreOn D };

    ghost view = { λ a. record { journal = a.journal; idle = a.idle; side = a.side; epoch = a.epoch } };
}

/// A store that was loaded, with what its disks said.
pub struct Loaded<D: Disk> {
    /// The store.
    pub store: Store<D>,
    /// The rows that the records lead on from.
    pub rows: Rows,
    /// The number of these rows.
    pub number: u64,
    /// The place of the journal's first gate.
    pub start: u64,
    /// The records, in their order.
    pub records: Vec<Text>,
}

impl<D: Disk> Store<D> {
    /// Makes a new store of two disks, whatever they held: the first has a checkpoint of a new database. At every
    /// moment a crash leaves each file as it was, or one that says nothing, or the new one. The file that doesn't count
    /// goes before the other: so where the call fails, whatever crashes then leave of both says what they might have
    /// said before, or no checkpoint, or that of the new database, and nothing older. Both are handed back then; for
    /// want of memory nothing was done.
    pub fn format(alloc: Global, disks: Two<D>) -> Result<Store<D>, (Two<D>, StoreFault)>
        ensures stores { IfOk result (λ store. Stores D.tells store (new_checkpoint 1 0 new_database)) }
        ensures ready { IfOk result (λ store. IsReady D.tells store) }
        ensures side { IfOk result (λ store. store.side ≡ Side.First) }
        ensures epoch { IfOk result (λ store. store.epoch ≡ 1) }
        ensures start { IfOk result (λ store. store.journal.start ≡ 33 + length (image_of new_database)) }
        ensures gate { IfOk result (λ store. store.journal.gate ≡ store.journal.start) }
        ensures first_moments { MatchResult result (λ store. StaysFormatting (D.tells disks.first) (D.tells (disk_on Side.First store))) (λ back. StaysFormatting (D.tells disks.first) (D.tells back.0.first)) }
        ensures second_moments { MatchResult result (λ store. StaysBaring (D.tells disks.second) (D.tells (disk_on Side.Second store))) (λ back. StaysBaring (D.tells disks.second) (D.tells back.0.second)) }
        ensures joint { IfErr result (λ back. LeavesNoOlder (D.tells disks.first) (D.tells disks.second) (D.tells back.0.first) (D.tells back.0.second)) }

        ensures fault { IfErr result (λ back. (back.1 ≡ StoreFault.DiskFault) ⊎ (back.1 ≡ StoreFault.NoMemory)) }
        ensures memory { IfErr result (λ back. back.1 ≡ StoreFault.NoMemory → (back.0.first ≡ disks.first) × (back.0.second ≡ disks.second)) }
        ensures cause { IfErr result (λ back. IsCausedByOne (D.faults disks.first) (D.faults back.0.first) (D.faults disks.second) (D.faults back.0.second) back.1) }
        ensures first_no_fewer { MatchResult result (λ store. D.faults disks.first ≤ D.faults (disk_on Side.First store)) (λ back. D.faults disks.first ≤ D.faults back.0.first) }
        ensures second_no_fewer { MatchResult result (λ store. D.faults disks.second ≤ D.faults (disk_on Side.Second store)) (λ back. D.faults disks.second ≤ D.faults back.0.second) }
    {
        let Two {
            mut first,
            mut second,
        } = disks;
        match write_first(alloc, &mut first, &mut second) {
            Ok(start) => Ok(Store {
                journal: Journal::behind(first, start),
                idle: second,
                side: Side::First,
                epoch: 1,
            }),
            Err(fault) => Err((Two { first, second }, fault)),
        }
    }

    /// Loads a store: the checkpoint that counts, and the records of its journal. At every moment a crash leaves files
    /// that say what was possible before; after `Ok` it leaves what was loaded. Otherwise the disks are handed back.
    pub fn load(alloc: Global, disks: Two<D>) -> Result<Loaded<D>, (Two<D>, StoreFault)>
        ensures says { IfOk result (λ loaded. NowRead (D.tells disks.first) (D.tells disks.second) (Says (with_records loaded.store.epoch loaded.number loaded.rows loaded.start loaded.records.items))) }
        ensures stores { IfOk result (λ loaded. Stores D.tells loaded.store (with_records loaded.store.epoch loaded.number loaded.rows loaded.start loaded.records.items)) }
        ensures ready { IfOk result (λ loaded. IsReady D.tells loaded.store) }
        ensures rows { IfOk result (λ loaded. AreStored loaded.rows) }
        ensures number { IfOk result (λ loaded. loaded.number ≤ 2 ^ 62) }
        ensures image { IfOk result (λ loaded. (image : List ℕ) × AreImageOf image loaded.rows × (loaded.start ≡ 33 + length image)) }
        ensures start { IfOk result (λ loaded. loaded.store.journal.start ≡ loaded.start) }
        ensures counted { IfOk result (λ loaded. loaded.store.journal.gate ≡ loaded.start + length (spelled loaded.records.items)) }
        ensures first_moments { MatchResult result (λ loaded. StaysPossible (D.tells disks.first) (D.tells (disk_on Side.First loaded.store))) (λ back. StaysPossible (D.tells disks.first) (D.tells back.0.first)) }
        ensures second_moments { MatchResult result (λ loaded. StaysPossible (D.tells disks.second) (D.tells (disk_on Side.Second loaded.store))) (λ back. StaysPossible (D.tells disks.second) (D.tells back.0.second)) }

        ensures fault { IfErr result (λ back. NowRead (D.tells disks.first) (D.tells disks.second) (Refuses back.1)) }
        ensures no_other { IfErr result (λ back. back.1 ≢ StoreFault.Full) }
        ensures untouched { IfErr result (λ back. back.1 ≢ StoreFault.DiskFault → OnlySynced (D.tells disks.first) (D.tells back.0.first) × OnlySynced (D.tells disks.second) (D.tells back.0.second)) }
        ensures cause { IfErr result (λ back. IsCausedByOne (D.faults disks.first) (D.faults back.0.first) (D.faults disks.second) (D.faults back.0.second) back.1) }
        ensures first_no_fewer { MatchResult result (λ loaded. D.faults disks.first ≤ D.faults (disk_on Side.First loaded.store)) (λ back. D.faults disks.first ≤ D.faults back.0.first) }
        ensures second_no_fewer { MatchResult result (λ loaded. D.faults disks.second ≤ D.faults (disk_on Side.Second loaded.store)) (λ back. D.faults disks.second ≤ D.faults back.0.second) }
    {
        let (found, rows) = Store::find(alloc, disks)?;
        let number = found.number();
        let start = found.start();
        let (store, records) = found.open()?;
        Ok(Loaded {
            store,
            rows,
            number,
            start,
            records,
        })
    }

    /// Appends a record. After `Ok` every crash keeps it, and at every moment before a crash leaves files that say the
    /// records as they were or with this one behind them. After a fault of a disk the store is to be loaded again;
    /// after any other all is as before. Takes memory only for more than 30,020 bytes.
    pub fn append(&mut self, alloc: Global, bytes: &[u8]) -> Result<(), StoreFault>
        requires ready { IsReady D.tells self.old }
        requires lawful { IsRecord bytes.now }

        ensures acknowledged { OnOk result ((kept : CheckpointRead) → Stores D.tells self.old kept → Stores D.tells self.new (and_record kept bytes.now)) }
        ensures moments { (kept : CheckpointRead) → Stores D.tells self.old kept
            → StaysIn (Beside self.old.side (D.tells self.old.idle) (SaysEither kept (and_record kept bytes.now))) (D.tells self.old.journal.disk) (D.tells self.new.journal.disk) }
        ensures ready { OnOk result (IsReady D.tells self.new) }
        ensures start { self.new.journal.start ≡ self.old.journal.start }
        ensures gate { OnOk result (self.new.journal.gate ≡ self.old.journal.gate + 1 + length bytes.now) }
        ensures idle { self.new.idle ≡ self.old.idle }
        ensures side { self.new.side ≡ self.old.side }
        ensures epoch { self.new.epoch ≡ self.old.epoch }

        ensures full { IsErrOf result StoreFault.Full ↔ (2 ^ 28 < (self.old.journal.gate + 1) + (length bytes.now + 1)) }
        ensures memory { IsErrOf result StoreFault.NoMemory → 30020 < length bytes.now }
        ensures cause { IfErr result (IsCaused (D.faults self.old.journal.disk) (D.faults self.new.journal.disk)) }
        ensures no_other { IfErr result IsOfAppend }
        ensures kept { IfErr result (λ why. why ≢ StoreFault.DiskFault → self.new ≡ self.old) }
        ensures no_fewer { D.faults self.old.journal.disk ≤ D.faults self.new.journal.disk }
    {
        records_are_read_behind_an_image();
        self.journal.append(alloc, bytes)?;
        Ok(())
    }

    /// Writes a checkpoint of these rows, which so many commands led to, on the disk that doesn't count; it counts from
    /// then on, and has no records. The other disk isn't touched. At every moment a crash leaves files that say what
    /// they said, or the new checkpoint; after `Ok` the new one. A closed head gate of the disk that doesn't count is
    /// written only once all behind it is kept, and the open one that then doesn't count stands before the whole image
    /// of a lower epoch. At the last epoch, 2^64 - 1, nothing is written, and the store is as before. After a fault of a
    /// disk the store is to be loaded again; for want of memory nothing was written.
    pub fn compact(&mut self, alloc: Global, number: u64, rows: &Rows) -> Result<(), StoreFault>
        requires ready { IsReady D.tells self.old }
        requires lawful { AreLawful rows.now }
        requires number { number ≤ 2 ^ 62 }

        ensures done { OnOk result (self.old.epoch < 2 ^ 64 - 1 → Stores D.tells self.new (new_checkpoint (self.old.epoch + 1) number rows.now)) }
        ensures moments { (kept : CheckpointRead) → Stores D.tells self.old kept
            → StaysIn (Beside (other self.old.side) (D.tells self.old.journal.disk) (SaysEither kept (new_checkpoint (self.old.epoch + 1) number rows.now))) (D.tells self.old.idle) (D.tells (disk_on (other self.old.side) self.new)) }
        ensures body { (before : List ℕ) → Now (D.tells self.old.idle) (λ m. m.bytes ≡ before) → 9 ≤ length before → head_is_open before ≡ false → self.old.epoch < 2 ^ 64 - 1
            → StaysIn (λ file. head_is_open file ≡ true → file ≡ new_file (self.old.epoch + 1) number rows.now) (D.tells self.old.idle) (D.tells (disk_on (other self.old.side) self.new)) }
        ensures live { disk_on self.old.side self.new ≡ self.old.journal.disk }
        ensures passed { OnOk result (self.old.epoch < 2 ^ 64 - 1 → (kept : CheckpointRead) → Stores D.tells self.old kept
            → Now (D.tells self.new.idle) (IsStored self.old.epoch self.old.journal.start self.old.journal.gate kept)) }
        ensures lawful { OnOk result (self.old.epoch < 2 ^ 64 - 1 → IsCheckpoint (new_checkpoint (self.old.epoch + 1) number rows.now)) }
        ensures ready { OnOk result (IsReady D.tells self.new) }
        ensures start { OnOk result (self.old.epoch < 2 ^ 64 - 1 → self.new.journal.start ≡ 33 + length (image_of rows.now)) }
        ensures gate { OnOk result (self.old.epoch < 2 ^ 64 - 1 → self.new.journal.gate ≡ self.new.journal.start) }
        ensures side { OnOk result (self.old.epoch < 2 ^ 64 - 1 → self.new.side ≡ other self.old.side) }
        ensures epoch { OnOk result (self.new.epoch ≡ min (self.old.epoch + 1) (2 ^ 64 - 1)) }
        ensures last { self.old.epoch ≡ 2 ^ 64 - 1 → IsOk result × (self.new ≡ self.old) }

        ensures fault { IfErr result (λ why. (why ≡ StoreFault.DiskFault) ⊎ ((why ≡ StoreFault.NoMemory) × (self.new ≡ self.old))) }
        ensures failed { OnErr result (self.new ≡ record self.old { idle = self.new.idle }) }
        ensures cause { IfErr result (IsCaused (D.faults self.old.idle) (D.faults (disk_on (other self.old.side) self.new))) }
        ensures no_fewer { D.faults self.old.idle ≤ D.faults (disk_on (other self.old.side) self.new) }
    {
        records_are_read_behind_an_image();
        images_are_of_rows();
        let Some(epoch) = self.epoch.checked_add(1) else {
            return Ok(());
        };
        let start = checkpoint_disks::compact(alloc, &mut self.idle, epoch, number, rows)?;
        self.turn(epoch, start);
        Ok(())
    }

    /// Goes over to the other disk, which has a new checkpoint.
    fn turn(&mut self, epoch: u64, start: u64)
        requires rest { Now (D.tells self.old.idle) (IsResting start start) }
        ensures { self.new ≡ record { journal = record { disk = self.old.idle; start = start; gate = start }; idle = self.old.journal.disk; side = other self.old.side; epoch = epoch } }
    {
        self.journal.turn_to(&mut self.idle, start);
        self.side = other(self.side);
        self.epoch = epoch;
    }

    /// The place of the journal's last gate.
    pub fn gate(&self) -> u64
        ensures { result ≡ self.now.journal.gate }
    {
        self.journal.gate()
    }

    /// Whether a record of that many bytes has room.
    pub fn fits(&self, length: u64) -> bool
        ensures { IsTrue result ↔ ((self.now.journal.gate + 1) + (length + 1) ≤ 2 ^ 28) }
    {
        self.journal.fits(length)
    }

    /// The disks.
    pub fn into_disks(self) -> Two<D>
        ensures first { result.first ≡ disk_on Side.First self }
        ensures second { result.second ≡ disk_on Side.Second self }
    {
        let Store {
            journal,
            idle,
            side,
            epoch: _,
        } = self;
        in_order(side, journal.into_disk(), idle)
    }
}
