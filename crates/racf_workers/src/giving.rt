//! What stands between two lines of a deck.

ghost use Rattle.std.specs.Prelude.{◌≡◌, false, IfOk, OnOk, OnErr};
ghost use Rattle.command_history.specs.Events.{Extends};

use crate::telling::{is_accepted, is_failure, is_refusal, write_reply};
use command_history::Naming;
use left_right::Absorb;
use racf_outside::Disk;
use raclist_snapshots::{Caller, Note, Opens};
use racroute::{DeckPass, Racf};
use request_files::NamedIssuer;
use statements::{
    Issuing, LONGEST_LINE, LineText, Refusal, Reply as Printed, Statement, first_issuer,
    issuer_named,
};
use std::alloc::{AllocError, Global};
use std::marker::Model;
use std::sync::Wait;
use std::sync::ledger::Ledger;

/// What stands between two lines of a deck, but for what its caller has seen and its pass has counted.
#[derive(Drop)]
pub(crate) struct Giving {
    /// Whether lines may name who gives the commands, or he is fixed.
    issuing: Issuing,
    /// Who gives the commands.
    issuer: NamedIssuer,
    /// Some line was refused.
    has_refused: bool,
    /// A disk failed a command of this deck, or one before it.
    has_failed: bool,
}

impl Model for Giving {
    ghost use Rattle.racf_workers.specs.Giving.{Giving as State};

    ghost Value = { State };

    ghost view = { λ s. record { issuing = s.issuing; issuer = s.issuer; has_refused = s.has_refused; has_failed = s.has_failed } };
}

impl Giving {
    ghost use Rattle.statements.specs.IssuerLines.{issuer_named};
    ghost use Rattle.racf_workers.specs.Giving.{new_giving, Commands, NamesIssuer, Refuses, WorksItem};

    /// Before the first line.
    pub(crate) fn new(issuing: Issuing) -> Giving
        ensures { result ≡ new_giving issuing }
    {
        Giving {
            issuer: first_issuer(&issuing),
            issuing,
            has_refused: false,
            has_failed: false,
        }
    }

    /// Whether a line was refused.
    pub(crate) fn has_refused(&self) -> bool
        ensures { result ≡ self.now.has_refused }
    {
        self.has_refused
    }

    /// Whether a disk failed a command.
    pub(crate) fn has_failed(&self) -> bool
        ensures { result ≡ self.now.has_failed }
    {
        self.has_failed
    }

    /// Works a statement, and writes its text at the end of `out`; it tells whether a command was accepted. Where
    /// memory is short, nothing was accepted, and nothing has changed but for what is written there.
    pub(crate) fn work<
        J: Naming,
        T: Absorb<O> + Drop,
        O: Opens<Note<J>>,
        R: Wait + Drop,
        S: Ledger,
        F: Ledger,
        P: Ledger,
        D: Disk,
        Q: Wait,
    >(
        &mut self,
        rt: &Q,
        alloc: Global,
        racf: &Racf<J, T, O, R, S, F, P, D>,
        caller: &mut Caller<J>,
        pass: &mut DeckPass<S, F, P>,
        item: &Statement,
        out: &mut Vec<u8>,
    ) -> Result<bool, AllocError>
        ensures works { OnOk result (WorksItem J.base item.now caller.old.events caller.new.events pass.old pass.new self.old self.new out.old.items out.new.items) }
        ensures accepted { IfOk result (λ accepted. accepted ≡ false → pass.new.commands ≡ pass.old.commands) }
        ensures kept { OnErr result ((pass.new ≡ pass.old) × (self.new ≡ self.old)) }
        ensures later { Extends caller.old.events caller.new.events }
    {
        match item {
            Statement::Command(text) | Statement::Request(text) => {
                self.command(rt, alloc, racf, caller, pass, text, out)
            }
            Statement::Issuer(text) => self.name_issuer(caller, text, out),
            Statement::LineTooLong => self.refuse(caller, Refusal::LineTooLong, out),
        }
    }

    /// Gives a command, and writes what it is told at the end of `out`. The room for that is there before the command
    /// is given, unless it is refused.
    fn command<
        J: Naming,
        T: Absorb<O> + Drop,
        O: Opens<Note<J>>,
        R: Wait + Drop,
        S: Ledger,
        F: Ledger,
        P: Ledger,
        D: Disk,
        Q: Wait,
    >(
        &mut self,
        rt: &Q,
        alloc: Global,
        racf: &Racf<J, T, O, R, S, F, P, D>,
        caller: &mut Caller<J>,
        pass: &mut DeckPass<S, F, P>,
        text: &LineText,
        out: &mut Vec<u8>,
    ) -> Result<bool, AllocError>
        ensures works { OnOk result (Commands J.base text.now caller.old.events caller.new.events pass.old pass.new self.old self.new out.old.items out.new.items) }
        ensures accepted { IfOk result (λ accepted. accepted ≡ false → pass.new.commands ≡ pass.old.commands) }
        ensures kept { OnErr result ((pass.new ≡ pass.old) × (self.new ≡ self.old)) }
        ensures later { Extends caller.old.events caller.new.events }
    {
        out.reserve(LONGEST_LINE)?;
        let NamedIssuer { id, group } = self.issuer;
        let reply = racf.submit(rt, alloc, caller, pass, id, group, text.as_slice());
        let accepted = is_accepted(&reply);
        let (refused, failed) = (is_refusal(&reply), is_failure(&reply));
        write_reply(reply, out)?;
        self.has_refused = self.has_refused || refused;
        self.has_failed = self.has_failed || failed;
        Ok(accepted)
    }

    /// A line that names the issuer. It gives no command.
    fn name_issuer<J: Naming>(
        &mut self,
        caller: &Caller<J>,
        text: &LineText,
        out: &mut Vec<u8>,
    ) -> Result<bool, AllocError>
        ensures works { OnOk result (NamesIssuer J.base (issuer_named self.old.issuing text.now) caller.now.events self.old self.new out.old.items out.new.items) }
        ensures kept { OnErr result (self.new ≡ self.old) }
    {
        match issuer_named(&self.issuing, text.as_slice()) {
            Ok(issuer) => {
                self.issuer = issuer;
                Ok(false)
            }
            Err(why) => self.refuse(caller, why, out),
        }
    }

    /// Refuses a line that gives no command: the number of what the caller has seen is printed.
    fn refuse<J: Naming>(
        &mut self,
        caller: &Caller<J>,
        why: Refusal,
        out: &mut Vec<u8>,
    ) -> Result<bool, AllocError>
        ensures works { OnOk result (Refuses J.base why caller.now.events self.old self.new out.old.items out.new.items) }
        ensures kept { OnErr result (self.new ≡ self.old) }
    {
        Printed::Refused(why).write_line(caller.generation(), out)?;
        self.has_refused = true;
        Ok(false)
    }
}
