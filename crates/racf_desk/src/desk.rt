//! The desk: where it stands, what was made last, and its disks.
ghost use Rattle.std.specs.Prelude.{◌+◌, ◌-◌, ◌≡◌, ◌≢◌, ◌⊎◌, ◌<◌, ◌≤◌, ◌^◌, min, true, false, Some, None, Ok, Err, IfOk, IfErr, OnOk, OnErr, MatchResult};
ghost use Rattle.std.specs.Arc.{arc_value};
ghost use Rattle.racf_outside.specs.Causes.{HasCause, Rose};
ghost use Rattle.racf_journal.specs.Opening.{OnlySynced};
ghost use Rattle.checkpoint_disks.specs.declared.counting.Side.{Side};
ghost use Rattle.racf_checkpoint.specs.Contents.{IsCaused, IsCausedByOne};
ghost use Rattle.racf_checkpoint.specs.Formatting.{StaysBaring, StaysFormatting};
ghost use Rattle.racf_checkpoint.specs.Stored.{NowRead, StaysPossible, disk_on, other};

use crate::making::{is_recorded, make};
use crate::outcome::outcome_in;
use crate::recovery::{Recovered, new_database, recover};
use access_levels::Id;
use desk_rules::laws::{records_lead_along_a_history, recovery_agrees_with_the_running_desk};
use desk_rules::{Ready, Reply};
use racf_checkpoint::{
    Store, StoreFault, a_new_database_is_stored, what_is_stored_is_said, what_was_possible_is_said,
};
use racf_database::Database;
use racf_outside::{Disk, Failed, Two};
use raclist_image::Image;
use std::alloc::Global;
use std::marker::Model;
use std::snapshot::Snapshot;
use std::sync::Arc;

/// A database on disks, at which commands are given, with the image of its rows. To the layer above it is its position,
/// its store, whether a disk failed a command, and what was made last. A command is judged, made, committed and
/// installed, one after another; nothing is copied but what a command leads to.
pub struct Desk<D: Disk> {
    /// Where the journal takes its memory for a record that is longer than any of a command: it takes none.
    alloc: Global,
    /// The rows. Of what was made last it has the edits prepared.
    database: Database,
    /// The image of the rows, with the number of commands that led to them.
    image: Arc<Image>,
    /// Where the journal's last gate is at this position.
    gate: u64,
    /// The records of the commands, on the disks.
    store: Store<D>,
    /// Whether a disk failed a command. Then the desk takes no more.
    halted: bool,
    /// What `judge` made last and isn't installed, as contracts see it: the value itself is its owner's. Its edits are
    /// those that the database has prepared.
    made: Option<Snapshot<Ready>>,
    /// Whether what was made last stands on the disks.
    committed: bool,
}

impl<D: Disk> Model for Desk<D> {
    ghost use Rattle.desk_rules.specs.Made.{DeskOn};
    ghost use Rattle.racf_desk.specs.Kept.{contents_of, IsKept};

    ghost Value = { DeskOn D };

    ghost view = { contents_of };

    ghost invariant = { IsKept D.tells };
}

impl<D: Disk> Desk<D> {
    ghost use Rattle.desk_rules.specs.Outcome.{outcome};
    ghost use Rattle.desk_rules.specs.Position.{first_position, compacted, position_after};
    ghost use Rattle.desk_rules.specs.Made.{installed, is_fresh, made_in, made_of_outcome, number_at, IsRefusal, IsAnswer};
    ghost use Rattle.desk_rules.specs.Recovery.{standing, Refuses};
    ghost use Rattle.desk_rules.specs.Durable.{LeavesIt, LeavesCheckpoint, SameIdle, SaysEpoch, StandsThere, StaysEither, StaysThere};
    ghost use Rattle.desk_rules.specs.Images.{IsImageOf};
    ghost use Rattle.desk_rules.specs.Executing.{KeepsDesk, SayWhatWasPossible};
    ghost use Rattle.desk_rules.specs.Formatting.{LeavesNoOlder};
    ghost use Rattle.desk_rules.specs.Reopening.{LeadOn};

    /// A desk over a new database, whatever the disks held: the first has a checkpoint of it. At every moment a crash
    /// leaves of each disk a file that says what it said, or nothing, or is that of the new database. Where the call
    /// fails, both are handed back, and whatever crashes then leave of them stands for what they might have stood for
    /// before, for nothing, or for the new database, and never for an older one; for want of memory nothing was done.
    pub fn format(alloc: Global, disks: Two<D>) -> Result<Desk<D>, (Two<D>, StoreFault)>
        ensures desk { IfOk result (λ desk. desk ≡ is_fresh first_position desk.store) }
        ensures leaves { IfOk result (λ desk. LeavesIt D.tells desk.store first_position) }
        ensures side { IfOk result (λ desk. desk.store.side ≡ Side.First) }
        ensures epoch { IfOk result (λ desk. desk.store.epoch ≡ 1) }
        ensures first_moments { MatchResult result (λ desk. StaysFormatting (D.tells disks.first) (D.tells (disk_on Side.First desk.store))) (λ back. StaysFormatting (D.tells disks.first) (D.tells back.0.first)) }
        ensures second_moments { MatchResult result (λ desk. StaysBaring (D.tells disks.second) (D.tells (disk_on Side.Second desk.store))) (λ back. StaysBaring (D.tells disks.second) (D.tells back.0.second)) }
        ensures joint { IfErr result (λ back. LeavesNoOlder (D.tells disks.first) (D.tells disks.second) (D.tells back.0.first) (D.tells back.0.second)) }
        ensures fault { IfErr result (λ back. (back.1 ≡ StoreFault.DiskFault) ⊎ (back.1 ≡ StoreFault.NoMemory)) }
        ensures memory { IfErr result (λ back. back.1 ≡ StoreFault.NoMemory → (back.0.first ≡ disks.first) × (back.0.second ≡ disks.second)) }
        ensures cause { IfErr result (λ back. IsCausedByOne (D.faults disks.first) (D.faults back.0.first) (D.faults disks.second) (D.faults back.0.second) back.1) }
        ensures first_no_fewer { MatchResult result (λ desk. D.faults disks.first ≤ D.faults (disk_on Side.First desk.store)) (λ back. D.faults disks.first ≤ D.faults back.0.first) }
        ensures second_no_fewer { MatchResult result (λ desk. D.faults disks.second ≤ D.faults (disk_on Side.Second desk.store)) (λ back. D.faults disks.second ≤ D.faults back.0.second) }
    {
        a_new_database_is_stored();
        let found = match new_database(alloc) {
            Ok(found) => found,
            Err(fault) => return Err((disks, fault)),
        };
        match Store::format(alloc, disks) {
            Ok(store) => {
                let gate = store.gate();
                Ok(Desk::fresh(alloc, Recovered { gate, ..found }, store))
            }
            Err(back) => Err(back),
        }
    }

    /// Opens the database that the disks stand for: takes the rows of the checkpoint that counts, repeats the commands
    /// of the records behind it, in time that grows with their number, and makes the image of the rows once. The desk
    /// goes on as one that ran through the history that the records are of. Both disks are synced, and nothing is
    /// written before all records are judged. At every moment a crash leaves files that say what was possible before;
    /// after `Ok` it leaves what was opened. Otherwise the disks are handed back.
    pub fn open(alloc: Global, disks: Two<D>) -> Result<Desk<D>, (Two<D>, StoreFault)>
        ensures stands { IfOk result (λ desk. NowRead (D.tells disks.first) (D.tells disks.second) (λ first second. standing first second ≡ Ok desk.position)) }
        ensures history { IfOk result (λ desk. NowRead (D.tells disks.first) (D.tells disks.second) (LeadOn desk.position)) }
        ensures desk { IfOk result (λ desk. desk ≡ is_fresh desk.position desk.store) }
        ensures epoch { IfOk result (λ desk. NowRead (D.tells disks.first) (D.tells disks.second) (SaysEpoch desk.store.epoch)) }
        ensures leaves { IfOk result (λ desk. LeavesIt D.tells desk.store desk.position) }
        ensures first_moments { MatchResult result (λ desk. StaysPossible (D.tells disks.first) (D.tells (disk_on Side.First desk.store))) (λ back. StaysPossible (D.tells disks.first) (D.tells back.0.first)) }
        ensures second_moments { MatchResult result (λ desk. StaysPossible (D.tells disks.second) (D.tells (disk_on Side.Second desk.store))) (λ back. StaysPossible (D.tells disks.second) (D.tells back.0.second)) }

        ensures joint { MatchResult result (λ desk. SayWhatWasPossible (D.tells disks.first) (D.tells disks.second) (D.tells (disk_on Side.First desk.store)) (D.tells (disk_on Side.Second desk.store)))
            (λ back. SayWhatWasPossible (D.tells disks.first) (D.tells disks.second) (D.tells back.0.first) (D.tells back.0.second)) }

        ensures fault { IfErr result (λ back. NowRead (D.tells disks.first) (D.tells disks.second) (Refuses back.1)) }
        ensures no_other { IfErr result (λ back. back.1 ≢ StoreFault.Full) }
        ensures untouched { IfErr result (λ back. back.1 ≢ StoreFault.DiskFault → OnlySynced (D.tells disks.first) (D.tells back.0.first) × OnlySynced (D.tells disks.second) (D.tells back.0.second)) }
        ensures cause { IfErr result (λ back. IsCausedByOne (D.faults disks.first) (D.faults back.0.first) (D.faults disks.second) (D.faults back.0.second) back.1) }
        ensures first_no_fewer { MatchResult result (λ desk. D.faults disks.first ≤ D.faults (disk_on Side.First desk.store)) (λ back. D.faults disks.first ≤ D.faults back.0.first) }
        ensures second_no_fewer { MatchResult result (λ desk. D.faults disks.second ≤ D.faults (disk_on Side.Second desk.store)) (λ back. D.faults disks.second ≤ D.faults back.0.second) }
    {
        // What was possible of each disk is possible of both.
        what_was_possible_is_said();
        // What the records lead to goes on as the desk that wrote them.
        records_lead_along_a_history();
        recovery_agrees_with_the_running_desk();
        let (found, rows) = match Store::find(alloc, disks) {
            Ok((found, rows)) => (found, rows),
            Err(back) => return Err(back),
        };
        // The records are judged before anything is written.
        let recovered = match recover(alloc, rows, found.number(), found.start(), found.records()) {
            Ok(recovered) => recovered,
            Err(fault) => return Err((found.into_disks(), fault)),
        };
        match found.open() {
            Ok((store, _records)) => Ok(Desk::fresh(alloc, recovered, store)),
            Err(back) => Err(back),
        }
    }

    /// A desk at what was recovered, whose store stands there.
    pub(crate) fn fresh(alloc: Global, found: Recovered, store: Store<D>) -> Desk<D>
        requires image { IsImageOf found.database.rows (arc_value found.image) }
        requires stands { StandsThere D.tells store (record { image = arc_value found.image; gate = found.gate }) }
        ensures desk { result ≡ is_fresh (record { image = arc_value found.image; gate = found.gate }) store }
        ensures leaves { LeavesIt D.tells result.store result.position }
    {
        let Recovered {
            database,
            image,
            gate,
        } = found;
        let desk = Desk {
            alloc,
            database,
            image,
            gate,
            store,
            halted: false,
            made: None,
            committed: false,
        };
        desk.is_at_rest();
        desk
    }

    /// How many commands were accepted.
    pub fn number(&self) -> u64
        ensures { result ≡ number_at self.now.position }
    {
        self.image.generation()
    }

    /// The image of the position. Whoever takes an owner of it can read it on while the desk goes on.
    pub fn image(&self) -> &Arc<Image>
        ensures { arc_value result.now ≡ self.now.position.image }
    {
        &self.image
    }

    /// Whether a disk failed a command. Then every further command is answered by `Halted`.
    pub fn halted(&self) -> bool
        ensures { result ≡ self.now.halted }
    {
        self.halted
    }

    /// A desk at rest: unless a disk failed, whatever a crash now leaves of the disks stands for its position. It does
    /// nothing: its contract is what it is for.
    pub fn is_at_rest(&self)
        requires { self.now.committed ≡ false }
        ensures { self.now.halted ≡ false → LeavesIt D.tells self.now.store self.now.position }
    {
        what_is_stored_is_said();
        let _ = &self.halted;
    }

    /// Judges a command, and makes what `commit` and `install` put in place: it takes all memory that the command
    /// needs. The issuer is named by his ID, and by the group that is to be current for him, else his default group is.
    /// The position stays as it is, and what was made before doesn't stand any longer.
    ///
    /// # Errors
    ///
    /// `Halted`, the refusal, or want of memory; the latter comes behind every refusal that needs none to be told.
    pub fn judge(
        &mut self,
        alloc: Global,
        issuer: Id,
        group: Option<Id>,
        text: &[u8],
    ) -> Result<Ready, Reply>
        requires settled { self.old.committed ≡ false }
        ensures running { IfOk result (λ ready. self.old.halted ≡ false) }
        ensures accepted { IfOk result (λ ready. made_of_outcome self.old.position.image (outcome self.old.position issuer group text.now) ≡ Ok (made_in ready)) }
        ensures made { IfOk result (λ ready. self.new ≡ record self.old { made = Some (made_in ready) }) }
        ensures refused { IfErr result (IsRefusal self.old.halted self.old.position (outcome self.old.position issuer group text.now)) }
        ensures nothing_made { OnErr result (self.new ≡ record self.old { made = None }) }
    {
        self.made = None;
        let number = self.image.generation();
        if self.halted {
            return Err(Reply::Halted(number));
        }
        let given = match outcome_in(
            alloc,
            self.gate,
            number,
            &self.database,
            issuer,
            group,
            text,
        ) {
            Ok(Ok(given)) => given,
            Ok(Err(why)) => return Err(Reply::Refused(number, why)),
            Err(_) => return Err(Reply::NoMemory),
        };
        // Its record is one of the journal, and short.
        is_recorded(&given);
        let Ok(ready) = make(alloc, &mut self.database, &self.image, given) else {
            return Err(Reply::NoMemory);
        };
        self.made = Some(Snapshot::of(&ready));
        Ok(ready)
    }

    /// Puts the record of what was made last on the disks, in two syncs. It takes no memory. After `Ok` every crash
    /// leaves what stands for the position behind it, and at every moment before for that or for the position as it is.
    ///
    /// # Errors
    ///
    /// A disk failed. Then the desk is halted: a crash leaves the one or the other, and no further command is taken.
    pub fn commit(&mut self, ready: &Ready) -> Result<(), Failed>
        requires made { self.old.made ≡ Some (made_in ready.now) }
        requires running { self.old.halted ≡ false }
        requires settled { self.old.committed ≡ false }
        ensures committed { OnOk result (self.new ≡ record self.old { store = self.new.store; committed = true }) }
        ensures leaves { OnOk result (LeavesIt D.tells self.new.store (installed self.old.position (made_in ready.now))) }
        ensures moments { StaysEither D.tells self.old.store self.new.store self.old.position (installed self.old.position (made_in ready.now)) }
        ensures halted { OnErr result (self.new ≡ record self.old { store = self.new.store; halted = true }) }
        ensures idle { SameIdle self.old.store self.new.store }
        ensures cause { HasCause (D.faults self.old.store.journal.disk) (D.faults self.new.store.journal.disk) result }
    {
        what_is_stored_is_said();
        match self.store.append(self.alloc, ready.entry.bytes()) {
            Ok(()) => {
                self.committed = true;
                Ok(())
            }
            Err(_) => {
                self.halted = true;
                Err(Failed)
            }
        }
    }

    /// Puts in place what was made last and stands on the disks, and answers its number. It takes no memory, and the
    /// time that the change takes in the database.
    pub fn install(&mut self, ready: Ready) -> u64
        requires made { self.old.made ≡ Some (made_in ready) }
        requires committed { self.old.committed ≡ true }
        ensures number { result ≡ ready.number }
        ensures installed { self.new ≡ is_fresh (installed self.old.position (made_in ready)) self.old.store }
    {
        let Ready {
            number,
            entry,
            change,
            image,
            ..
        } = ready;
        self.made.take();
        self.committed = false;
        self.gate += 1 + entry.bytes().len() as u64;
        self.image = image;
        self.database.apply(change);
        number
    }

    /// Judges a command and, where it is accepted, makes, commits and installs it. At every moment a crash leaves what
    /// stands for the position as it was or, where the command is accepted, for the one behind it; after `Accepted` it
    /// leaves the latter.
    pub fn execute(&mut self, alloc: Global, issuer: Id, group: Option<Id>, text: &[u8]) -> Reply
        requires settled { self.old.committed ≡ false }
        ensures answer { IsAnswer self.old.halted self.old.position (outcome self.old.position issuer group text.now) result self.new.position self.new.halted }
        ensures moments { self.old.halted ≡ false → StaysEither D.tells self.old.store self.new.store self.old.position
            (position_after self.old.position (outcome self.old.position issuer group text.now)) }
        ensures leaves { self.new.halted ≡ false → LeavesIt D.tells self.new.store self.new.position }
        ensures kept { KeepsDesk self.old self.new result }
        ensures nothing_made { self.new.made ≡ None }
        ensures settled { self.new.committed ≡ false }
        ensures idle { SameIdle self.old.store self.new.store }
        ensures cause { self.old.halted ≡ false → self.new.halted ≡ true → Rose (D.faults self.old.store.journal.disk) (D.faults self.new.store.journal.disk) }
        ensures no_fewer { D.faults self.old.store.journal.disk ≤ D.faults self.new.store.journal.disk }
    {
        // A refusal leaves the disks as they stand.
        self.is_at_rest();
        let ready = match self.judge(alloc, issuer, group, text) {
            Ok(ready) => ready,
            Err(reply) => return reply,
        };
        match self.commit(&ready) {
            Ok(()) => Reply::Accepted(self.install(ready)),
            Err(Failed) => {
                self.made = None;
                Reply::DiskFault(self.number())
            }
        }
    }

    /// Writes a checkpoint of the rows on the disk that doesn't count. It counts from then on, and its journal has no
    /// records; the number and the state are as before. At every moment a crash leaves what stands for them. What was
    /// made last doesn't stand any longer. At the last epoch, 2^64 - 1, nothing is written.
    ///
    /// # Errors
    ///
    /// `DiskFault`: then the desk is halted. `NoMemory`: then nothing was written.
    pub fn compact(&mut self, alloc: Global) -> Result<(), StoreFault>
        requires running { self.old.halted ≡ false }
        requires settled { self.old.committed ≡ false }
        ensures done { OnOk result (self.old.store.epoch < 2 ^ 64 - 1 → self.new ≡ is_fresh (compacted self.old.position) self.new.store) }
        ensures journal { OnOk result (self.old.store.epoch < 2 ^ 64 - 1 → self.new.store.journal.gate ≡ self.new.store.journal.start) }
        ensures side { OnOk result (self.old.store.epoch < 2 ^ 64 - 1 → self.new.store.side ≡ other self.old.store.side) }
        ensures epoch { OnOk result (self.new.store.epoch ≡ min (self.old.store.epoch + 1) (2 ^ 64 - 1)) }
        ensures last { self.old.store.epoch ≡ 2 ^ 64 - 1 → OnOk result (self.new ≡ is_fresh self.old.position self.old.store) }
        ensures leaves { OnOk result (LeavesIt D.tells self.new.store self.new.position) }
        ensures checkpoint { OnOk result (self.old.store.epoch < 2 ^ 64 - 1 → LeavesCheckpoint D.tells self.new.store (self.old.store.epoch + 1) self.old.position) }
        ensures moments { StaysThere D.tells self.old.store self.new.store self.old.position }
        ensures live { disk_on self.old.store.side self.new.store ≡ self.old.store.journal.disk }

        ensures fault { IfErr result (λ why. (why ≡ StoreFault.DiskFault) ⊎ (why ≡ StoreFault.NoMemory)) }
        ensures halted { IfErr result (λ why. why ≡ StoreFault.DiskFault → self.new ≡ record self.old { store = self.new.store; halted = true; made = None }) }
        ensures memory { IfErr result (λ why. why ≡ StoreFault.NoMemory → self.new ≡ record self.old { made = None }) }
        ensures nothing_made { self.new.made ≡ None }
        ensures settled { self.new.committed ≡ false }
        ensures cause { IfErr result (IsCaused (D.faults self.old.store.idle) (D.faults (disk_on (other self.old.store.side) self.new.store))) }
        ensures no_fewer { D.faults self.old.store.idle ≤ D.faults (disk_on (other self.old.store.side) self.new.store) }
    {
        what_is_stored_is_said();
        self.is_at_rest();
        self.made = None;
        let rows = self.database.to_rows(alloc)?;
        let written = self.store.compact(alloc, self.image.generation(), &rows);
        drop(rows);
        match written {
            Ok(()) => {
                self.gate = self.store.gate();
                Ok(())
            }
            Err(StoreFault::DiskFault) => {
                self.halted = true;
                Err(StoreFault::DiskFault)
            }
            Err(fault) => Err(fault),
        }
    }

    /// The disks.
    pub fn into_disks(self) -> Two<D>
        ensures first { result.first ≡ disk_on Side.First self.store }
        ensures second { result.second ≡ disk_on Side.Second self.store }
    {
        let Desk {
            alloc: _,
            database: _,
            image: _,
            gate: _,
            store,
            halted: _,
            made: _,
            committed: _,
        } = self;
        store.into_disks()
    }
}
