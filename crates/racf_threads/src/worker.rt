//! What one thread of a run has, and does.

ghost use Rattle.std.specs.Prelude.{◌≡◌, ◌<◌, ◌≤◌, true, is_some, Some};
ghost use Rattle.racf_outside.specs.Causes.{Rose};
ghost use Rattle.command_history.specs.Events.{failed_of};
ghost use Rattle.statements.specs.Status.{code_of};
ghost use Rattle.racf_workers.specs.Deck.{Gives};
ghost use Rattle.racf_threads.specs.Outputs.{StopsFor};

use command_history::Naming;
use left_right::Absorb;
use racf_outside::{Disk, Sink, Source};
use racf_workers::{Gate, answer_requests, give_commands};
use raclist_snapshots::{Caller, Note, Opens};
use racroute::{DeckEnd, DeckPass, Racf};
use statements::{Issuing, Status};
use std::alloc::Global;
use std::marker::Model;
use std::sync::Wait;
use std::sync::ledger::Ledger;

/// What one thread has: a deck with its pass, or a request file.
pub(crate) struct Worker<J: Naming, S: Ledger, F: Ledger, P: Ledger, I, K> {
    /// The number that the gate knows it by.
    pub(crate) number: u32,
    /// What it sees the history with.
    pub(crate) caller: Caller<J>,
    /// What a deck gives commands with, until it has ended.
    pub(crate) pass: Option<DeckPass<S, F, P>>,
    /// What is left of the pass of a deck that has ended.
    pub(crate) end: Option<DeckEnd<S, F>>,
    /// The source, with its sink.
    pub(crate) files: Option<(I, K)>,
    /// How it ended.
    pub(crate) status: Status,
}

impl<J: Naming, S: Ledger, F: Ledger, P: Ledger, I, K> Model for Worker<J, S, F, P, I, K> {
    ghost use Rattle.racf_threads.specs.Working.{Working};

    ghost Value = { Working I K };

    ghost view = { λ w. record { caller = w.caller; pass = w.pass; end = w.end; files = w.files; status = w.status } };
}

impl<J: Naming, S: Ledger, F: Ledger, P: Ledger, I: Source, K: Sink> Worker<J, S, F, P, I, K> {
    ghost use Rattle.racf_threads.specs.Working.{HasWorked};

    /// Works the source. A deck hands its pass in at once when it ends or stops, so that whoever waits for more
    /// commands than will come is told.
    pub(crate) fn work<
        T: Absorb<O> + Drop,
        O: Opens<Note<J>>,
        Q: Wait + Drop,
        D: Disk,
        R: Wait,
        G: Gate,
    >(
        &mut self,
        rt: &R,
        alloc: Global,
        racf: &Racf<J, T, O, Q, S, F, P, D>,
        issuing: Issuing,
        gate: &G,
    )
        ensures { HasWorked I.left I.faults K.taken K.faults J.base issuing self.old self.new }
    {
        let Some((source, mut sink)) = self.files.take() else {
            return;
        };
        match self.pass.take() {
            Some(pass) => {
                let (status, source, end) = give(
                    rt,
                    alloc,
                    racf,
                    &mut self.caller,
                    pass,
                    source,
                    &mut sink,
                    issuing,
                    gate,
                    self.number,
                );
                self.end = Some(end);
                self.leave(status, (source, sink));
            }
            None => {
                let (status, source) = answer_requests(
                    rt,
                    alloc,
                    racf,
                    &mut self.caller,
                    source,
                    &mut sink,
                    gate,
                    self.number,
                );
                self.leave(status, (source, sink));
            }
        }
    }

    /// Puts back what it read and wrote to, and tells how it ended.
    fn leave(&mut self, status: Status, files: (I, K))
        requires { self.old.files ≡ None }
        ensures { self.new ≡ record self.old { files = Some files; status = status } }
    {
        let none = self.files.replace(files);
        let None = none else { unreachable!() };
        self.status = status;
    }
}

/// Gives the commands of a deck, and hands its pass in.
fn give<
    J: Naming,
    T: Absorb<O> + Drop,
    O: Opens<Note<J>>,
    Q: Wait + Drop,
    S: Ledger,
    F: Ledger,
    P: Ledger,
    D: Disk,
    R: Wait,
    I: Source,
    K: Sink,
    G: Gate,
>(
    rt: &R,
    alloc: Global,
    racf: &Racf<J, T, O, Q, S, F, P, D>,
    caller: &mut Caller<J>,
    pass: DeckPass<S, F, P>,
    source: I,
    sink: &mut K,
    issuing: Issuing,
    gate: &G,
    number: u32,
) -> (Status, I, DeckEnd<S, F>)
    ensures gives { Gives J.base issuing caller.old.events caller.new.events pass result.2
        (Rose (I.faults source) (I.faults result.1)) (Rose (K.faults sink.old) (K.faults sink.new)) result.0 (I.left source) (I.left result.1) (K.taken sink.old) (K.taken sink.new) }
    ensures failed { result.0 ≡ Status.DiskFault → is_some (failed_of caller.new.events) ≡ true }
    ensures told { pass.faults < result.2.faults → 20 ≤ code_of result.0 }
    ensures stops { StopsFor result.0 (I.left source) (I.faults source) (I.faults result.1) (K.faults sink.old) (K.faults sink.new) }
{
    let mut pass = pass;
    let (status, source) = give_commands(
        rt, alloc, racf, caller, &mut pass, source, sink, issuing, gate, number,
    );
    let end = racf.end_deck(rt, pass);
    (status, source, end)
}
