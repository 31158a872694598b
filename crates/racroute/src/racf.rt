//! What threads share: an office behind a lock.
ghost use Rattle.std.specs.Prelude.{◌≡◌, ◌≢◌, ◌+◌, ◌%◌, ◌^◌, ◌<◌, ◌≤◌, true, false, None, [], length, List, IfOk, IfErr, IsOk, OnOk, MatchResult, is_some, vec_len};
ghost use Rattle.std.specs.List.{All, sum_by};
ghost use Rattle.racf_outside.specs.Causes.{Rose};
ghost use Rattle.racf_checkpoint.specs.Stored.{pick};
ghost use Rattle.desk_rules.specs.Durable.{idle_of};
ghost use Rattle.desk_rules.specs.Made.{number_at};
ghost use Rattle.command_history.specs.declared.events.Event.{Event};
ghost use Rattle.command_history.specs.Events.{all_of, Extends};
ghost use Rattle.command_history.specs.Reached.{reached, AreLegal};
ghost use Rattle.racroute.specs.Core.{new_passes, number_behind};
ghost use Rattle.racroute.specs.Disks.{StandAt, StaysAlong};
ghost use Rattle.racroute.specs.Kept.{fault_count};
ghost use Rattle.racroute.specs.Replies.{given_by, IsAmiss, Learns, Says};

use crate::office::{Closed, Office};
use crate::passes::{DeckEnd, DeckPass, new_passes};
use crate::rest::Rest;
use crate::waiting::AfterFault;
use access_levels::Id;
use command_history::Naming;
use left_right::Absorb;
use racf_desk::{Desk, Reply};
use racf_outside::Disk;
use raclist_snapshots::{Caller, Note, Opens, Publisher};
use std::alloc::Global;
use std::sync::ledger::{Blank, Ledger};
use std::sync::{Condvar, Mutex, Wait};

/// What threads share. A thread that gives commands or waits for them has a reference to it, a caller and maybe a pass.
pub struct Racf<
    J: Naming,
    T: Absorb<O> + Drop,
    O: Opens<Note<J>>,
    R: Wait + Drop,
    S: Ledger,
    F: Ledger,
    P: Ledger,
    D: Disk,
> {
    /// The office, for one thread at a time.
    office: Mutex<Office<J, T, O, R, S, F, P, D>>,
    /// Where threads wait for more commands.
    moved: Condvar,
}

/// Passes are still out: all is handed back.
pub struct StillOut<
    J: Naming,
    T: Absorb<O> + Drop,
    O: Opens<Note<J>>,
    R: Wait + Drop,
    S: Ledger,
    F: Ledger,
    P: Ledger,
    D: Disk,
> {
    /// What threads share.
    pub racf: Racf<J, T, O, R, S, F, P, D>,
    /// The callers.
    pub callers: Vec<Caller<J>>,
    /// The ends that are there.
    pub ends: Vec<DeckEnd<S, F>>,
}

impl<
    J: Naming,
    T: Absorb<O> + Drop,
    O: Opens<Note<J>>,
    R: Wait + Drop,
    S: Ledger,
    F: Ledger,
    P: Ledger,
    D: Disk,
> Racf<J, T, O, R, S, F, P, D> {
    /// Begins: what threads share, and a pass for each deck. The callers are those that the publisher came with.
    ///
    /// # Errors
    ///
    /// Memory was wanting for the passes: the desk is handed back.
    pub fn start(
        alloc: Global,
        publisher: Publisher<J, T, O, R>,
        blanks: (Blank, Blank, Blank),
        desk: Desk<D>,
        decks: u32,
    ) -> Result<(Racf<J, T, O, R, S, F, P, D>, Vec<DeckPass<S, F, P>>), Desk<D>>
        requires events { publisher.events ≡ [] }
        requires free { publisher.held ≡ None }
        requires position { desk.position ≡ J.base }
        requires runs { desk.halted ≡ false }
        requires settled { desk.committed ≡ false }
        requires faults { J.faults ≤ D.faults desk.store.journal.disk }
        requires idle_faults { J.idle_faults ≡ D.faults desk.store.idle }
        requires disks { (J.live_disk ≡ D.tells desk.store.journal.disk) × (J.idle_disk ≡ idle_of D.tells desk.store) }
        requires commands { (blanks.0.name ≡ S.name) × (blanks.0.parts ≡ S.parts) × (S.parts ≡ decks + 1) }
        requires failed { (blanks.1.name ≡ F.name) × (blanks.1.parts ≡ F.parts) × (F.parts ≡ decks + 1) }
        requires out { (blanks.2.name ≡ P.name) × (blanks.2.parts ≡ P.parts) × (P.parts ≡ decks + 1) }
        ensures passes { IfOk result (λ made. made.1.items ≡ new_passes decks) }
        ensures desk { IfErr result (λ back. back ≡ desk) }
    {
        let (for_commands, for_faults, for_passes) = blanks;
        let (commands, mut no_commands) = for_commands.open::<S>();
        let (faults, mut no_faults) = for_faults.open::<F>();
        let (mut out, mut none_out) = for_passes.open::<P>();
        let made = match new_passes(
            alloc,
            decks,
            &mut no_commands,
            &mut no_faults,
            &mut out,
            &mut none_out,
        ) {
            Ok(made) => made,
            Err(_) => return Err(desk),
        };
        let rest = Rest::new(no_commands, no_faults, decks);
        let office = Office::opened(alloc, desk, publisher, (commands, faults, out), rest);
        let racf = Racf {
            office: Mutex::new(office),
            moved: Condvar::new(),
        };
        Ok((racf, made))
    }

    /// Gives a command, and answers when it is done. The caller has then seen the history that the reply is about: its
    /// number is the reply's. Where it was accepted, or a disk failed it, other threads that wait for commands are
    /// woken; a refused command wakes nobody. What it acknowledges is on the disks then, as [`Office::submit`] says:
    /// no clause says it here, since the disks are behind the lock.
    pub fn submit<Q: Wait>(
        &self,
        rt: &Q,
        alloc: Global,
        caller: &mut Caller<J>,
        pass: &mut DeckPass<S, F, P>,
        issuer: Id,
        group: Option<Id>,
        text: &[u8],
    ) -> Reply
        ensures says { (before : List Event) × Extends caller.old.events before
            × Says J.base (given_by issuer group text.now) result before caller.new.events pass.old pass.new }
        ensures later { Extends caller.old.events caller.new.events }
        ensures learned { Learns result caller.old.learned caller.new.learned }
    {
        let reply = {
            let mut office = self.office.lock(rt);
            office.submit(alloc, caller, pass, issuer, group, text)
        };
        if matches!(reply, Reply::Accepted(_) | Reply::DiskFault(_)) {
            self.moved.notify_all();
        }
        reply
    }

    /// Waits until so many commands are accepted, or nothing more will be. Where the caller has seen so many, it stays as
    /// it is, and no lock is taken.
    ///
    /// # Errors
    ///
    /// `Final`, where they are fewer and the history has ended; or memory is wanting for the note.
    pub fn after<Q: Wait>(
        &self,
        rt: &Q,
        caller: &mut Caller<J>,
        number: u64,
    ) -> Result<(), AfterFault>
        ensures there { OnOk result (number ≤ number_behind J.base caller.new.events) }
        ensures seen { number ≤ number_behind J.base caller.old.events → IsOk result × (caller.new ≡ caller.old) }
        ensures learned { number_behind J.base caller.old.events < number → OnOk result (caller.new.learned ≡ (caller.old.learned + 1) % 2 ^ 64) }
        ensures amiss { IfErr result (λ fault. IsAmiss J.base number fault caller.old caller.new) }
        ensures later { Extends caller.old.events caller.new.events }
    {
        if number <= caller.generation() {
            return Ok(());
        }
        let guard = self.office.lock(rt);
        let mut guard = self
            .moved
            .wait_while(rt, guard, |office| office.is_waited(number));
        guard.after(caller, number)
    }

    /// Hands a deck's pass in: it gives no more commands. Other threads that wait for commands are woken.
    pub fn end_deck<Q: Wait>(&self, rt: &Q, pass: DeckPass<S, F, P>) -> DeckEnd<S, F>
        ensures { result ≡ pass }
    {
        let end = self.office.lock(rt).give_back(pass);
        self.moved.notify_all();
        end
    }

    /// Closes all, when each deck's end is there.
    ///
    /// # Errors
    ///
    /// Ends are missing: all is handed back.
    pub fn close(
        self,
        callers: Vec<Caller<J>>,
        ends: Vec<DeckEnd<S, F>>,
    ) -> Result<Closed<D>, StillOut<J, T, O, R, S, F, P, D>>
        ensures out { MatchResult result (λ closed. vec_len ends + 1 ≡ S.parts) (λ back. vec_len ends + 1 ≢ S.parts) }
        ensures callers { IfOk result (λ closed. All (λ caller. Extends caller.events (all_of closed.accepted.items closed.doubt)) callers.items) }
        ensures legal { IfOk result (λ closed. AreLegal J.base closed.accepted.items) }
        ensures commands { IfOk result (λ closed. sum_by (λ e. e.commands) ends.items ≡ length closed.accepted.items) }
        ensures faults { IfOk result (λ closed. sum_by (λ e. e.faults) ends.items ≡ fault_count closed.doubt) }
        ensures first { IfOk result (λ closed. closed.first ≡ number_at J.base) }
        ensures disks { IfOk result (λ closed. StandAt closed.doubt (D.tells closed.disks.first) (D.tells closed.disks.second) (reached J.base (all_of closed.accepted.items closed.doubt))) }
        ensures moments { IfOk result (λ closed. StaysAlong J.base (all_of closed.accepted.items closed.doubt) J.idle_disk J.live_disk (D.tells (pick J.idle_disk.side closed.disks.first closed.disks.second))) }
        ensures idle { IfOk result (λ closed. D.tells (pick J.idle_disk.side closed.disks.second closed.disks.first) ≡ J.idle_disk.told) }
        ensures idle_faults { IfOk result (λ closed. D.faults (pick J.idle_disk.side closed.disks.second closed.disks.first) ≡ J.idle_faults) }
        ensures no_fewer { IfOk result (λ closed. J.faults ≤ D.faults (pick J.idle_disk.side closed.disks.first closed.disks.second)) }
        ensures rose { IfOk result (λ closed. is_some closed.doubt ≡ true → Rose J.faults (D.faults (pick J.idle_disk.side closed.disks.first closed.disks.second))) }
        ensures handed_back { IfErr result (λ back. (back.callers ≡ callers) × (back.ends ≡ ends)) }
    {
        let Racf { office, moved } = self;
        let office = office.into_inner();
        if ends.len() != office.decks() as usize {
            let racf = Racf {
                office: Mutex::new(office),
                moved,
            };
            return Err(StillOut {
                racf,
                callers,
                ends,
            });
        }
        Ok(office.close(callers.as_slice(), ends))
    }
}
