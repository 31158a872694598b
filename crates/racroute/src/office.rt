//! The office: what stands behind the lock.
ghost use Rattle.std.specs.Prelude.{◌≡◌, ◌+◌, ◌<◌, ◌%◌, ◌^◌, ◌≤◌, ◌⊎◌, ℕ, true, false, Some, None, is_some, [], length, List, IfOk, IfErr, OnOk, OnErr, vec_len};
ghost use Rattle.std.specs.List.{All, sum_by};
ghost use Rattle.racf_outside.specs.Causes.{Rose};
ghost use Rattle.checkpoint_disks.specs.declared.counting.Side.TheVariants.{First, Second};
ghost use Rattle.racf_checkpoint.specs.Stored.{disk_on, pick};
ghost use Rattle.desk_rules.specs.Durable.{idle_of};
ghost use Rattle.desk_rules.specs.Made.{number_at};
ghost use Rattle.command_history.specs.declared.events.Event.{Event};
ghost use Rattle.command_history.specs.Events.{all_of, Extends};
ghost use Rattle.command_history.specs.Reached.{reached, AreLegal};
ghost use Rattle.raclist_snapshots.specs.Publishing.{ended_with};
ghost use Rattle.racroute.specs.Core.{is_over, is_waited, number_behind, told};
ghost use Rattle.racroute.specs.Disks.{StandAt, StaysAlong};
ghost use Rattle.racroute.specs.Kept.{fault_count};
ghost use Rattle.racroute.specs.Replies.{given_by, IsAmiss, IsNoted, Learns, Leaves, Says, StaysFor};

use crate::holding::hold;
use crate::passes::{DeckEnd, DeckPass};
use crate::rest::Rest;
use crate::waiting::AfterFault;
use access_levels::Id;
use command_history::laws::an_entry_has_the_record_of_its_command;
use command_history::{Accepted, Naming};
use desk_rules::laws::accepted_commands_are_written;
use left_right::Absorb;
use racf_desk::{Desk, Reply};
use racf_outside::{Disk, Two};
use racf_profiles::NoMemory;
use raclist_snapshots::{Caller, Note, Opens, Publisher};
use std::alloc::Global;
use std::marker::Model;
use std::sync::Wait;
use std::sync::ledger::{Book, Ledger};

/// What one thread at a time may do: the desk, and the history that it makes. Contracts see it as the history, where
/// the desk stands, on which disks, the entry of the command that a disk failed, and how many passes are out.
pub struct Office<
    J: Naming,
    T: Absorb<O> + Drop,
    O: Opens<Note<J>>,
    R: Wait + Drop,
    S: Ledger,
    F: Ledger,
    P: Ledger,
    D: Disk,
> {
    /// Where commands are judged and committed.
    desk: Desk<D>,
    /// Where they are published.
    publisher: Publisher<J, T, O, R>,
    /// Those that were accepted.
    past: Vec<Accepted>,
    /// How many they are.
    commands: Book<S>,
    /// How many commands met a disk fault: one at most.
    faults: Book<F>,
    /// How many passes are out.
    out: Book<P>,
    /// The same number.
    passes: u32,
    /// What no pass has of the ledgers.
    rest: Rest<S, F>,
    /// The number of the commands that were accepted before the office was opened.
    first: u64,
    /// The entry of the command that a disk failed.
    doubt: Option<Accepted>,
}

impl<
    J: Naming,
    T: Absorb<O> + Drop,
    O: Opens<Note<J>>,
    R: Wait + Drop,
    S: Ledger,
    F: Ledger,
    P: Ledger,
    D: Disk,
> Model for Office<J, T, O, R, S, F, P, D> {
    ghost use Rattle.std.specs.Prelude.{◌≡◌, ◌+◌, None, false, is_some};
    ghost use Rattle.desk_rules.specs.Made.{number_at};
    ghost use Rattle.racroute.specs.Core.{Core};
    ghost use Rattle.racroute.specs.Kept.{disks_before, IsOffice};

    ghost Value = { Core D };

    ghost view = { λ o. record {
      events = o.publisher.events;
      position = o.desk.position;
      store = o.desk.store;
      doubt = o.doubt;
      passes = o.passes;
      decks = o.rest;
    } };

    ghost invariant = { λ o. (o.desk.committed ≡ false) × (o.publisher.held ≡ None) × (o.first ≡ number_at J.base)
        × (o.desk.halted ≡ is_some o.doubt)
        × IsOffice D.tells D.faults J.base (disks_before J.faults J.idle_faults J.live_disk J.idle_disk) (record {
          events = o.publisher.events;
          position = o.desk.position;
          store = o.desk.store;
          doubt = o.doubt;
          passes = o.passes;
          decks = o.rest;
        }) o.past.items o.commands.total o.faults.total o.out.total };
}

/// What was done, when an office is closed.
pub struct Closed<D: Disk> {
    /// The disks.
    pub disks: Two<D>,
    /// How many commands were accepted before the office was opened.
    pub first: u64,
    /// Those that were accepted since, in their order.
    pub accepted: Vec<Accepted>,
    /// The entry of the command that a disk failed, where one did.
    pub doubt: Option<Accepted>,
}

impl<
    J: Naming,
    T: Absorb<O> + Drop,
    O: Opens<Note<J>>,
    R: Wait + Drop,
    S: Ledger,
    F: Ledger,
    P: Ledger,
    D: Disk,
> Office<J, T, O, R, S, F, P, D> {
    /// The office over a desk at which nothing waits, with a publisher of which nothing is published.
    pub(crate) fn opened(
        alloc: Global,
        desk: Desk<D>,
        publisher: Publisher<J, T, O, R>,
        books: (Book<S>, Book<F>, Book<P>),
        rest: Rest<S, F>,
    ) -> Office<J, T, O, R, S, F, P, D>
        requires events { publisher.events ≡ [] }
        requires free { publisher.held ≡ None }
        requires position { desk.position ≡ J.base }
        requires runs { desk.halted ≡ false }
        requires settled { desk.committed ≡ false }
        requires faults { J.faults ≤ D.faults desk.store.journal.disk }
        requires idle_faults { J.idle_faults ≡ D.faults desk.store.idle }
        requires disks { (J.live_disk ≡ D.tells desk.store.journal.disk) × (J.idle_disk ≡ idle_of D.tells desk.store) }
        requires books { (books.0.total ≡ 0) × (books.1.total ≡ 0) × (books.2.total ≡ rest) }
        ensures { result ≡ record { events = []; position = J.base; store = desk.store; doubt = None; passes = rest; decks = rest } }
    {
        desk.is_at_rest();
        let (commands, faults, out) = books;
        Office {
            first: desk.number(),
            desk,
            publisher,
            past: Vec::new(alloc),
            commands,
            faults,
            out,
            passes: rest.decks(),
            rest,
            doubt: None,
        }
    }

    /// Serves one command: it is judged, committed, published and installed, and whoever gave it is told where the
    /// history stands then. The note comes with every reply but want of memory. A pass in hand is one that is out, so
    /// this has no condition; behind a disk fault nothing more is accepted.
    ///
    /// What was published or answered is on the disks when this returns: whatever a crash then leaves of them stands
    /// for where the history leads, or for one command more where a disk failed it (`stand`). It was so at every moment
    /// of the call, for where the history led before it or leads behind it (`leaves`), and since the history began, for
    /// some beginning of it (`moments`).
    pub fn serve(
        &mut self,
        alloc: Global,
        pass: &mut DeckPass<S, F, P>,
        issuer: Id,
        group: Option<Id>,
        text: &[u8],
    ) -> (Reply, Option<Note<J>>)
        ensures says { Says J.base (given_by issuer group text.now) result.0 self.old.events self.new.events pass.old pass.new }
        ensures leaves { Leaves J.base D.tells D.faults result.0 self.old self.new }
        ensures noted { IsNoted result.0 result.1 self.new.events }
        ensures stand { StandAt self.new.doubt (D.tells (disk_on First self.new.store)) (D.tells (disk_on Second self.new.store)) (reached J.base self.new.events) }
        ensures moments { StaysAlong J.base self.new.events J.idle_disk J.live_disk (D.tells self.new.store.journal.disk) }
    {
        let served = self.carry_out(alloc, pass, issuer, group, text);
        self.is_on_disks();
        served
    }

    /// Carries one command out, and tells where the history stands then.
    fn carry_out(
        &mut self,
        alloc: Global,
        pass: &mut DeckPass<S, F, P>,
        issuer: Id,
        group: Option<Id>,
        text: &[u8],
    ) -> (Reply, Option<Note<J>>)
        ensures says { Says J.base (given_by issuer group text.now) result.0 self.old.events self.new.events pass.old pass.new }
        ensures leaves { Leaves J.base D.tells D.faults result.0 self.old self.new }
        ensures noted { IsNoted result.0 result.1 self.new.events }
    {
        accepted_commands_are_written();
        an_entry_has_the_record_of_its_command();
        self.out.audit(&mut pass.out);
        self.publisher.is_legal();
        if self.desk.halted() {
            let number = self.desk.number();
            match self.publisher.tell_final(&self.doubt) {
                Ok(note) => return (Reply::Halted(number), Some(note)),
                Err(_) => return (Reply::NoMemory, None),
            }
        }
        let made = match self.desk.judge(alloc, issuer, group, text) {
            Ok(made) => made,
            Err(reply) => return told(&mut self.publisher, reply),
        };
        let entry = match hold(alloc, &mut self.publisher, &mut self.past, pass.deck, &made) {
            Ok(entry) => entry,
            Err(_) => return (Reply::NoMemory, None),
        };
        match self.desk.commit(&made) {
            Ok(()) => {}
            Err(_) => {
                self.faults.add(&mut pass.faults, 1);
                self.doubt = Some(entry);
                let number = self.desk.number();
                match self.publisher.tell_final(&self.doubt) {
                    Ok(note) => return (Reply::DiskFault(number), Some(note)),
                    Err(_) => return (Reply::NoMemory, None),
                }
            }
        }
        self.publisher.publish(&entry);
        let number = self.desk.install(made);
        self.past.push_reserved(entry);
        self.commands.add(&mut pass.commands, 1);
        match self.publisher.tell() {
            Ok(note) => return (Reply::Accepted(number), Some(note)),
            Err(_) => return (Reply::NoMemory, None),
        }
    }

    /// What is published is on the disks, and nothing else but a command that a disk failed. This does nothing.
    fn is_on_disks(&self)
        ensures stand { StandAt self.now.doubt (D.tells (disk_on First self.now.store)) (D.tells (disk_on Second self.now.store)) (reached J.base self.now.events) }
        ensures moments { StaysAlong J.base self.now.events J.idle_disk J.live_disk (D.tells self.now.store.journal.disk) }
    {
        let _passes = self.passes;
    }

    /// Serves a command and tells its caller: his list is then the one that the reply is about, and he has learned one
    /// note more, unless memory was wanting. The disks keep what `serve` says.
    pub fn submit(
        &mut self,
        alloc: Global,
        caller: &mut Caller<J>,
        pass: &mut DeckPass<S, F, P>,
        issuer: Id,
        group: Option<Id>,
        text: &[u8],
    ) -> Reply
        ensures says { (before : List Event) × Extends caller.old.events before
            × Says J.base (given_by issuer group text.now) result before caller.new.events pass.old pass.new }
        ensures later { Extends caller.old.events caller.new.events }
        ensures learned { Learns result caller.old.learned caller.new.learned }
        ensures leaves { Leaves J.base D.tells D.faults result self.old self.new }
        ensures stand { StandAt self.new.doubt (D.tells (disk_on First self.new.store)) (D.tells (disk_on Second self.new.store)) (reached J.base self.new.events) }
        ensures moments { StaysAlong J.base self.new.events J.idle_disk J.live_disk (D.tells self.new.store.journal.disk) }
    {
        self.publisher.covers(caller);
        let (reply, note) = self.serve(alloc, pass, issuer, group, text);
        let Some(note) = note else {
            return reply;
        };
        caller.learn(note);
        reply
    }

    /// Tells where the history stands: finally, where nothing more is accepted.
    pub fn tell(&mut self) -> Result<Note<J>, NoMemory>
        ensures note { IfOk result (λ note. note ≡ self.new.events) }
        ensures told { OnOk result (self.new ≡ told self.old) }
        ensures same { OnErr result (self.new ≡ self.old) }
    {
        if self.is_over() {
            return self.publisher.tell_final(&self.doubt);
        }
        self.publisher.tell()
    }

    /// Whether nothing more is accepted: a disk failed a command, or no pass is out.
    pub fn is_over(&self) -> bool
        ensures { result ≡ is_over self.now }
    {
        self.desk.halted() || self.passes == 0
    }

    /// How many commands were accepted.
    pub fn number(&self) -> u64
        ensures { result ≡ number_behind J.base self.now.events }
    {
        self.publisher.generation()
    }

    /// For how many decks it was opened.
    pub fn decks(&self) -> u32
        ensures decks { result ≡ self.now.decks }
        ensures parts { result + 1 ≡ S.parts }
    {
        self.rest.decks()
    }

    /// Takes a pass back. It takes no memory.
    pub fn give_back(&mut self, pass: DeckPass<S, F, P>) -> DeckEnd<S, F>
        ensures end { result ≡ pass }
        ensures fewer { self.new.passes + 1 ≡ self.old.passes }
        ensures same { self.new ≡ record self.old { passes = self.new.passes } }
    {
        let DeckPass {
            deck,
            commands,
            faults,
            mut out,
        } = pass;
        self.out.audit(&mut out);
        self.out.sub(&mut out, 1);
        self.passes -= 1;
        DeckEnd {
            deck,
            commands,
            faults,
        }
    }

    /// Whether somebody who wants so many commands has to wait on.
    pub fn is_waited(&self, number: u64) -> bool
        ensures { result ≡ is_waited J.base number self.now }
    {
        !self.is_over() && self.number() < number
    }

    /// Tells a caller who waited for so many commands.
    ///
    /// # Errors
    ///
    /// `Final`, where nothing more is accepted and they are fewer; or memory is wanting for the note, and nothing has
    /// changed.
    pub fn after(&mut self, caller: &mut Caller<J>, number: u64) -> Result<(), AfterFault>
        requires { is_waited J.base number self.old ≡ false }
        ensures there { OnOk result (number ≤ number_behind J.base caller.new.events) }
        ensures learned { OnOk result (caller.new.learned ≡ (caller.old.learned + 1) % 2 ^ 64) }
        ensures amiss { IfErr result (λ fault. IsAmiss J.base number fault caller.old caller.new) }
        ensures later { Extends caller.old.events caller.new.events }
        ensures office { (self.new ≡ self.old) ⊎ (self.new ≡ told self.old) }
        ensures same { IfErr result (λ fault. StaysFor fault self.old self.new) }
    {
        self.publisher.covers(caller);
        let note = match self.tell() {
            Ok(note) => note,
            Err(_) => return Err(AfterFault::NoMemory),
        };
        caller.learn(note);
        let reached = self.number();
        if reached < number {
            return Err(AfterFault::Final(reached));
        }
        Ok(())
    }

    /// Closes the office, when all ends are there: what every caller has seen is a beginning of what was accepted, and
    /// all of it where he has the final mark.
    pub fn close(self, callers: &[Caller<J>], ends: Vec<DeckEnd<S, F>>) -> Closed<D>
        requires ends { vec_len ends ≡ self.decks }
        ensures callers { All (λ caller. Extends caller.events (all_of result.accepted.items result.doubt)) callers.now }
        ensures history { all_of result.accepted.items result.doubt ≡ ended_with self.doubt self.events }
        ensures doubt { result.doubt ≡ self.doubt }
        ensures legal { AreLegal J.base result.accepted.items }
        ensures commands { sum_by (λ e. e.commands) ends.items ≡ length result.accepted.items }
        ensures faults { sum_by (λ e. e.faults) ends.items ≡ fault_count result.doubt }
        ensures first { result.first ≡ number_at J.base }
        ensures disks { StandAt result.doubt (D.tells result.disks.first) (D.tells result.disks.second) (reached J.base (all_of result.accepted.items result.doubt)) }
        ensures moments { StaysAlong J.base (all_of result.accepted.items result.doubt) J.idle_disk J.live_disk (D.tells (pick J.idle_disk.side result.disks.first result.disks.second)) }
        ensures idle { D.tells (pick J.idle_disk.side result.disks.second result.disks.first) ≡ J.idle_disk.told }
        ensures idle_faults { D.faults (pick J.idle_disk.side result.disks.second result.disks.first) ≡ J.idle_faults }
        ensures no_fewer { J.faults ≤ D.faults (pick J.idle_disk.side result.disks.first result.disks.second) }
        ensures rose { is_some result.doubt ≡ true → Rose J.faults (D.faults (pick J.idle_disk.side result.disks.first result.disks.second)) }
    {
        let Office {
            desk,
            mut publisher,
            past,
            mut commands,
            mut faults,
            out: _,
            passes: _,
            rest,
            first,
            doubt,
        } = self;
        publisher.is_legal();
        publisher.settle(&doubt, callers);
        let (mut given, mut failed) = rest.with_all(ends);
        commands.audit(&mut given);
        faults.audit(&mut failed);
        Closed {
            disks: desk.into_disks(),
            first,
            accepted: past,
            doubt,
        }
    }
}

/// The reply, with a note of what is published; want of memory, where there is none for the note.
fn told<J: Naming, T: Absorb<O> + Drop, O: Opens<Note<J>>, R: Wait + Drop>(
    publisher: &mut Publisher<J, T, O, R>,
    reply: Reply,
) -> (Reply, Option<Note<J>>)
    ensures reply { (result.0 ≡ reply) ⊎ (result.0 ≡ Reply.NoMemory) }
    ensures noted { IsNoted result.0 result.1 publisher.new.events }
    ensures events { publisher.new.events ≡ publisher.old.events }
    ensures held { publisher.new.held ≡ publisher.old.held }
{
    if let Reply::NoMemory = reply {
        return (reply, None);
    }
    match publisher.tell() {
        Ok(note) => return (reply, Some(note)),
        Err(_) => return (Reply::NoMemory, None),
    }
}
