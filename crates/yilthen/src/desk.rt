//! The desk between two calls.
ghost use Rattle.std.specs.Prelude.{◌+◌, ◌-◌, ◌^◌, ◌≡◌, ◌≢◌, ◌⊎◌, ◌<◌, ◌≤◌, min, true, false, Ok, IfOk, IfErr, OnOk, MatchResult};
ghost use Rattle.std.specs.Arc.{arc_value};
ghost use Rattle.racf_outside.specs.Causes.{Rose};
ghost use Rattle.racf_journal.specs.Opening.{OnlySynced};
ghost use Rattle.checkpoint_disks.specs.declared.counting.Side.{Side};
ghost use Rattle.racf_checkpoint.specs.Contents.{IsCausedByOne};
ghost use Rattle.racf_checkpoint.specs.Formatting.{StaysBaring, StaysFormatting};
ghost use Rattle.racf_checkpoint.specs.Stored.{NowRead, StaysPossible, disk_on, other};

use crate::error::{Error, Refused};
use access_levels::Id;
use racf_checkpoint::StoreFault;
use racf_desk::Reply;
use racf_outside::{Disk, NeverDisk, Two};
use raclist_image::Image;
use std::alloc::Global;
use std::marker::Model;
use std::sync::Arc;

/// A database on disks, at which commands are given, with the image of its rows. Between two calls nothing waits at it:
/// each command is on the disks and in the image, or isn't anywhere, unless a disk failed.
pub struct Desk<D: Disk> {
    /// The desk, at which nothing is made that isn't installed.
    desk: racf_desk::Desk<D>,
}

impl<D: Disk> Model for Desk<D> {
    ghost use Rattle.yilthen.specs.AtRest.{AtRest, at_rest, NothingWaits};

    ghost Value = { AtRest D };

    ghost view = { λ a. at_rest a.desk };

    ghost invariant = { λ a. NothingWaits a.desk };
}

impl<D: Disk> Desk<D> {
    ghost use Rattle.desk_rules.specs.Outcome.{outcome};
    ghost use Rattle.desk_rules.specs.Position.{first_position, compacted, position_after};
    ghost use Rattle.desk_rules.specs.Made.{number_at, IsAnswer};
    ghost use Rattle.desk_rules.specs.Recovery.{standing, Refuses};
    ghost use Rattle.desk_rules.specs.Durable.{LeavesIt, LeavesCheckpoint, SameIdle, SaysEpoch, StaysEither, StaysThere};
    ghost use Rattle.desk_rules.specs.Executing.{SayWhatWasPossible};
    ghost use Rattle.desk_rules.specs.Formatting.{LeavesNoOlder};
    ghost use Rattle.desk_rules.specs.Reopening.{LeadOn};
    ghost use Rattle.yilthen.specs.AtRest.{running, KeepsDesk, FailsToCompact};
    ghost use Rattle.yilthen.specs.Errors.{AsReply, OfStore};

    /// A desk over a new database, whatever the disks held: the first has a checkpoint of it. At every moment a crash
    /// leaves of each disk a file that says what it said, or nothing, or is that of the new database. Where the call
    /// fails, both are handed back, and whatever crashes then leave of them stands for what they might have stood for
    /// before, for nothing, or for the new database, and never for an older one; for want of memory nothing was done.
    pub fn format(alloc: Global, disks: Two<D>) -> Result<Desk<D>, (Two<D>, Error)>
        ensures desk { IfOk result (λ desk. desk ≡ running first_position desk.store) }
        ensures leaves { IfOk result (λ desk. LeavesIt D.tells desk.store first_position) }
        ensures side { IfOk result (λ desk. desk.store.side ≡ Side.First) }
        ensures epoch { IfOk result (λ desk. desk.store.epoch ≡ 1) }
        ensures first_moments { MatchResult result (λ desk. StaysFormatting (D.tells disks.first) (D.tells (disk_on Side.First desk.store))) (λ back. StaysFormatting (D.tells disks.first) (D.tells back.0.first)) }
        ensures second_moments { MatchResult result (λ desk. StaysBaring (D.tells disks.second) (D.tells (disk_on Side.Second desk.store))) (λ back. StaysBaring (D.tells disks.second) (D.tells back.0.second)) }
        ensures joint { IfErr result (λ back. LeavesNoOlder (D.tells disks.first) (D.tells disks.second) (D.tells back.0.first) (D.tells back.0.second)) }
        ensures fault { IfErr result (λ back. OfStore back.1 (λ why. (why ≡ StoreFault.DiskFault) ⊎ (why ≡ StoreFault.NoMemory))) }
        ensures memory { IfErr result (λ back. OfStore back.1 (λ why. why ≡ StoreFault.NoMemory → (back.0.first ≡ disks.first) × (back.0.second ≡ disks.second))) }
        ensures cause { IfErr result (λ back. OfStore back.1 (IsCausedByOne (D.faults disks.first) (D.faults back.0.first) (D.faults disks.second) (D.faults back.0.second))) }
        ensures first_no_fewer { MatchResult result (λ desk. D.faults disks.first ≤ D.faults (disk_on Side.First desk.store)) (λ back. D.faults disks.first ≤ D.faults back.0.first) }
        ensures second_no_fewer { MatchResult result (λ desk. D.faults disks.second ≤ D.faults (disk_on Side.Second desk.store)) (λ back. D.faults disks.second ≤ D.faults back.0.second) }
    {
        match racf_desk::Desk::format(alloc, disks) {
            Ok(desk) => Ok(Desk { desk }),
            Err((disks, fault)) => Err((disks, Error::of_store(fault))),
        }
    }

    /// Opens the database that the disks stand for: takes the rows of the checkpoint that counts, repeats the commands
    /// of the records behind it, in time that grows with their number, and makes the image of the rows once. Both disks
    /// are synced, and nothing is written before all records are judged. At every moment a crash leaves files that say
    /// what was possible before; after `Ok` it leaves what was opened. Otherwise the disks are handed back.
    pub fn open(alloc: Global, disks: Two<D>) -> Result<Desk<D>, (Two<D>, Error)>
        ensures stands { IfOk result (λ desk. NowRead (D.tells disks.first) (D.tells disks.second) (λ first second. standing first second ≡ Ok desk.position)) }
        ensures history { IfOk result (λ desk. NowRead (D.tells disks.first) (D.tells disks.second) (LeadOn desk.position)) }
        ensures runs { IfOk result (λ desk. desk.halted ≡ false) }
        ensures epoch { IfOk result (λ desk. NowRead (D.tells disks.first) (D.tells disks.second) (SaysEpoch desk.store.epoch)) }
        ensures leaves { IfOk result (λ desk. LeavesIt D.tells desk.store desk.position) }
        ensures first_moments { MatchResult result (λ desk. StaysPossible (D.tells disks.first) (D.tells (disk_on Side.First desk.store))) (λ back. StaysPossible (D.tells disks.first) (D.tells back.0.first)) }
        ensures second_moments { MatchResult result (λ desk. StaysPossible (D.tells disks.second) (D.tells (disk_on Side.Second desk.store))) (λ back. StaysPossible (D.tells disks.second) (D.tells back.0.second)) }

        ensures joint { MatchResult result (λ desk. SayWhatWasPossible (D.tells disks.first) (D.tells disks.second) (D.tells (disk_on Side.First desk.store)) (D.tells (disk_on Side.Second desk.store)))
            (λ back. SayWhatWasPossible (D.tells disks.first) (D.tells disks.second) (D.tells back.0.first) (D.tells back.0.second)) }

        ensures fault { IfErr result (λ back. OfStore back.1 (λ why. NowRead (D.tells disks.first) (D.tells disks.second) (Refuses why))) }
        ensures untouched { IfErr result (λ back. OfStore back.1 (λ why. why ≢ StoreFault.DiskFault → OnlySynced (D.tells disks.first) (D.tells back.0.first) × OnlySynced (D.tells disks.second) (D.tells back.0.second))) }
        ensures cause { IfErr result (λ back. OfStore back.1 (IsCausedByOne (D.faults disks.first) (D.faults back.0.first) (D.faults disks.second) (D.faults back.0.second))) }
        ensures first_no_fewer { MatchResult result (λ desk. D.faults disks.first ≤ D.faults (disk_on Side.First desk.store)) (λ back. D.faults disks.first ≤ D.faults back.0.first) }
        ensures second_no_fewer { MatchResult result (λ desk. D.faults disks.second ≤ D.faults (disk_on Side.Second desk.store)) (λ back. D.faults disks.second ≤ D.faults back.0.second) }
    {
        match racf_desk::Desk::open(alloc, disks) {
            Ok(desk) => Ok(Desk { desk }),
            Err((disks, fault)) => Err((disks, Error::of_store(fault))),
        }
    }

    /// Looks at the database that the disks stand for: a desk at that position, over disks that keep nothing and never
    /// fail, and beside it the disks. Both are synced and read, and that is all, so that at every moment a crash leaves
    /// what it might have left before. What is given to that desk is answered as by the one that [`Desk::open`] gives,
    /// and ends with it.
    pub fn look(alloc: Global, disks: Two<D>) -> (Two<D>, Result<Desk<NeverDisk>, Error>)
        ensures stands { IfOk result.1 (λ desk. NowRead (D.tells disks.first) (D.tells disks.second) (λ first second. standing first second ≡ Ok desk.position)) }
        ensures history { IfOk result.1 (λ desk. NowRead (D.tells disks.first) (D.tells disks.second) (LeadOn desk.position)) }
        ensures runs { IfOk result.1 (λ desk. desk.halted ≡ false) }
        ensures epoch { IfOk result.1 (λ desk. NowRead (D.tells disks.first) (D.tells disks.second) (SaysEpoch desk.store.epoch)) }
        ensures untouched { MatchResult result.1 (λ desk. OnlySynced (D.tells disks.first) (D.tells result.0.first) × OnlySynced (D.tells disks.second) (D.tells result.0.second))
            (λ error. OfStore error (λ why. why ≢ StoreFault.DiskFault → OnlySynced (D.tells disks.first) (D.tells result.0.first) × OnlySynced (D.tells disks.second) (D.tells result.0.second))) }
        ensures first_moments { StaysPossible (D.tells disks.first) (D.tells result.0.first) }
        ensures second_moments { StaysPossible (D.tells disks.second) (D.tells result.0.second) }
        ensures joint { SayWhatWasPossible (D.tells disks.first) (D.tells disks.second) (D.tells result.0.first) (D.tells result.0.second) }
        ensures fault { IfErr result.1 (λ error. OfStore error (λ why. NowRead (D.tells disks.first) (D.tells disks.second) (Refuses why))) }
        ensures cause { IfErr result.1 (λ error. OfStore error (IsCausedByOne (D.faults disks.first) (D.faults result.0.first) (D.faults disks.second) (D.faults result.0.second))) }
        ensures first_no_fewer { D.faults disks.first ≤ D.faults result.0.first }
        ensures second_no_fewer { D.faults disks.second ≤ D.faults result.0.second }
    {
        let (disks, looked) = racf_desk::Desk::look(alloc, disks);
        match looked {
            Ok(desk) => (disks, Ok(Desk { desk })),
            Err(fault) => (disks, Err(Error::of_store(fault))),
        }
    }

    /// How many commands were accepted.
    pub fn number(&self) -> u64
        ensures { result ≡ number_at self.now.position }
    {
        self.desk.number()
    }

    /// The image of the position. Whoever takes an owner of it can read it on while the desk goes on.
    pub fn image(&self) -> &Arc<Image>
        ensures { arc_value result.now ≡ self.now.position.image }
    {
        self.desk.image()
    }

    /// Whether a disk failed a command: then every further one is answered by `Halted`. Where none did, whatever a crash
    /// now leaves of the disks stands for the position.
    pub fn is_halted(&self) -> bool
        ensures halted { result ≡ self.now.halted }
        ensures leaves { self.now.halted ≡ false → LeavesIt D.tells self.now.store self.now.position }
    {
        self.desk.is_at_rest();
        self.desk.halted()
    }

    /// Judges a command and, where it is accepted, makes, commits and installs it, and answers its number. The issuer is
    /// named by his ID, and by the group that is to be current for him, else his default group is. At every moment a
    /// crash leaves what stands for the position as it was or, where the command is accepted, for the one behind it;
    /// after `Ok` it leaves the latter.
    ///
    /// # Errors
    ///
    /// `Refused`, `Halted` and `NoMemory` leave the desk and the disks as they were; want of memory comes behind every
    /// refusal that needs none to be told. `DiskFault` halts the desk where it stood: the command may be on the disks or
    /// not.
    pub fn execute(
        &mut self,
        alloc: Global,
        issuer: Id,
        group: Option<Id>,
        text: &[u8],
    ) -> Result<u64, Error>
        ensures answer { AsReply result (λ reply. IsAnswer self.old.halted self.old.position (outcome self.old.position issuer group text.now) reply self.new.position self.new.halted) }
        ensures moments { self.old.halted ≡ false → StaysEither D.tells self.old.store self.new.store self.old.position
            (position_after self.old.position (outcome self.old.position issuer group text.now)) }
        ensures leaves { self.new.halted ≡ false → LeavesIt D.tells self.new.store self.new.position }
        ensures kept { KeepsDesk self.old self.new result }
        ensures idle { SameIdle self.old.store self.new.store }
        ensures cause { self.old.halted ≡ false → self.new.halted ≡ true → Rose (D.faults self.old.store.journal.disk) (D.faults self.new.store.journal.disk) }
        ensures no_fewer { D.faults self.old.store.journal.disk ≤ D.faults self.new.store.journal.disk }
    {
        match self.desk.execute(alloc, issuer, group, text) {
            Reply::Accepted(number) => Ok(number),
            Reply::Refused(number, refusal) => Err(Error::Refused(Refused {
                number,
                refusal,
                alloc,
            })),
            Reply::Halted(_) => Err(Error::Halted),
            Reply::DiskFault(_) => Err(Error::DiskFault),
            Reply::NoMemory => Err(Error::NoMemory),
        }
    }

    /// Writes a checkpoint of the rows on the disk that doesn't count. It counts from then on, and its journal has no
    /// records; the number and the state are as before. At every moment a crash leaves what stands for them. At the last
    /// epoch, 2^64 - 1, nothing is written.
    ///
    /// # Errors
    ///
    /// `Halted` and `NoMemory` leave the desk and the disks as they were. `DiskFault` halts the desk where it stood.
    pub fn compact(&mut self, alloc: Global) -> Result<(), Error>
        ensures done { OnOk result (self.old.store.epoch < 2 ^ 64 - 1 → self.new ≡ running (compacted self.old.position) self.new.store) }
        ensures side { OnOk result (self.old.store.epoch < 2 ^ 64 - 1 → self.new.store.side ≡ other self.old.store.side) }
        ensures epoch { OnOk result (self.new.store.epoch ≡ min (self.old.store.epoch + 1) (2 ^ 64 - 1)) }
        ensures last { self.old.store.epoch ≡ 2 ^ 64 - 1 → OnOk result (self.new ≡ self.old) }
        ensures leaves { OnOk result (LeavesIt D.tells self.new.store self.new.position) }
        ensures checkpoint { OnOk result (self.old.store.epoch < 2 ^ 64 - 1 → LeavesCheckpoint D.tells self.new.store (self.old.store.epoch + 1) self.old.position) }
        ensures moments { self.old.halted ≡ false → StaysThere D.tells self.old.store self.new.store self.old.position }
        ensures live { self.old.halted ≡ false → disk_on self.old.store.side self.new.store ≡ self.old.store.journal.disk }
        ensures running { OnOk result (self.old.halted ≡ false) }
        ensures fails { IfErr result (FailsToCompact self.old self.new) }
        ensures cause { IfErr result (λ why. why ≡ Error.DiskFault → Rose (D.faults self.old.store.idle) (D.faults (disk_on (other self.old.store.side) self.new.store))) }
        ensures no_fewer { self.old.halted ≡ false → D.faults self.old.store.idle ≤ D.faults (disk_on (other self.old.store.side) self.new.store) }
    {
        if self.desk.halted() {
            return Err(Error::Halted);
        }
        if let Err(fault) = self.desk.compact(alloc) {
            return Err(Error::of_store(fault));
        }
        Ok(())
    }

    /// The disks.
    pub fn into_disks(self) -> Two<D>
        ensures first { result.first ≡ disk_on Side.First self.store }
        ensures second { result.second ≡ disk_on Side.Second self.store }
    {
        let Desk { desk } = self;
        desk.into_disks()
    }
}
