//! The state between two lines of a stream, and what each statement does to it.

ghost use Rattle.std.specs.Prelude.{◌≡◌, ◌≤◌, true, false, Some, OnOk, OnErr, IfOk, IfErr};
ghost use Rattle.racf_outside.specs.Causes.{Rose};
ghost use Rattle.desk_rules.specs.Durable.{LeavesIt};
ghost use Rattle.desk_rules.specs.Made.{made_in};
ghost use Rattle.racf_stream.specs.Durable.{Settles};

use racf_desk::{Desk, Ready, Reply as Judgement};
use racf_outside::{Disk, Failed};
use request_files::{AceeTable, LineRefusal, NamedIssuer, RequestLine, read_line, respond};
use statements::{
    Issuing, LONGEST_LINE, LineText, Refusal, Reply, Statement, first_issuer, issuer_named,
};
use std::alloc::{AllocError, Global};
use std::marker::Model;

/// The state of a stream. Commands are given at a desk, and requests are answered on its image.
pub(crate) struct Stream<D: Disk> {
    /// The database, with the image of its rows and the number of the commands that led to them.
    desk: Desk<D>,
    /// Whether lines may name who gives the commands, or he is fixed.
    issuing: Issuing,
    /// Who gives the commands.
    issuer: NamedIssuer,
    /// Some line was refused.
    has_refused: bool,
    /// The ACEEs in use.
    acees: AceeTable,
}

impl<D: Disk> Model for Stream<D> {
    ghost use Rattle.racf_stream.specs.Durable.{StreamOn, stream_on};
    ghost use Rattle.std.specs.Prelude.{◌≡◌, false};

    ghost Value = { StreamOn D };

    ghost view = { λ s. stream_on s.desk s.issuing s.issuer s.has_refused s.acees };

    ghost invariant = { λ s. s.desk.committed ≡ false };
}

impl<D: Disk> Stream<D> {
    ghost use Rattle.request_files.specs.Seen.{line_read};
    ghost use Rattle.racf_stream.specs.Durable.{Moves, Fails, Stays, StandsIn, fault_in, DoesOn};
    ghost use Rattle.racf_stream.specs.Stream.{new_stream, answer, answer_line, request, refuse, command, name_issuer};

    /// The state before the first line. Where memory is short, the desk is given back.
    #[tactic(auto, unfolding(crate::specs::Stream::new_stream))]
    pub(crate) fn new(alloc: Global, desk: Desk<D>, issuing: Issuing) -> Result<Stream<D>, Desk<D>>
        requires running { desk.halted ≡ false }
        requires settled { desk.committed ≡ false }
        ensures state { IfOk result (λ stream. stream ≡ record { state = new_stream issuing desk.position; store = desk.store }) }
        ensures back { IfErr result (λ back. back ≡ desk) }
    {
        let Ok(acees) = AceeTable::new(alloc) else {
            return Err(desk);
        };
        Ok(Stream {
            desk,
            issuer: first_issuer(&issuing),
            issuing,
            has_refused: false,
            acees,
        })
    }

    /// The desk.
    pub(crate) fn into_desk(self) -> Desk<D>
        ensures stands { StandsIn result self }
        ensures leaves { self.state.halted ≡ false → LeavesIt D.tells result.store result.position }
    {
        self.desk.is_at_rest();
        let Stream {
            desk,
            issuing: _,
            issuer: _,
            has_refused: _,
            acees: _,
        } = self;
        desk
    }

    /// Whether a line was refused.
    pub(crate) fn has_refused(&self) -> bool
        ensures { result ≡ self.now.state.has_refused }
    {
        self.has_refused
    }

    /// Whether a disk failed a command.
    #[inline(always)]
    pub(crate) fn has_failed(&self) -> bool
        ensures { result ≡ self.now.state.halted }
    {
        self.desk.halted()
    }

    /// How many commands were accepted.
    #[inline(always)]
    pub(crate) fn number(&self) -> u64
        ensures { result ≡ self.now.state.position.image.generation }
    {
        self.desk.number()
    }

    /// Whatever a crash now leaves stands for the position, unless a disk failed. It does nothing: its contract is what
    /// it is for.
    pub(crate) fn is_at_rest(&self)
        ensures { self.now.state.halted ≡ false → LeavesIt D.tells self.now.store self.now.state.position }
    {
        self.desk.is_at_rest();
    }

    /// Processes a statement, and writes its text at the end of `out`. Where memory is short, nothing has changed.
    pub(crate) fn process(
        &mut self,
        alloc: Global,
        item: &Statement,
        out: &mut Vec<u8>,
    ) -> Result<(), AllocError>
        ensures ok { OnOk result (DoesOn (answer (fault_in self.new) item.now) self.old self.new out.old.items out.new.items) }
        ensures err { OnErr result (self.new ≡ self.old) }
        ensures moves { Moves D.tells D.faults item.now self.old self.new }
        ensures fails { self.old.state.halted ≡ false → self.new.state.halted ≡ true → Fails D.tells item.now self.old self.new }
    {
        match item {
            Statement::Command(text) => self.command(alloc, text, out),
            Statement::Issuer(text) => self.name_issuer(text, out),
            Statement::Request(text) => self.request(alloc, text, out),
            Statement::LineTooLong => self.refuse(Refusal::LineTooLong, out),
        }
    }

    /// A command, which is given at the desk. What it takes is made, and there is room for what will be told, before a
    /// disk is asked.
    #[tactic(auto, unfolding(crate::specs::Stream::command))]
    fn command(
        &mut self,
        alloc: Global,
        text: &LineText,
        out: &mut Vec<u8>,
    ) -> Result<(), AllocError>
        ensures ok { OnOk result (DoesOn (command (fault_in self.new) text.now) self.old self.new out.old.items out.new.items) }
        ensures err { OnErr result (self.new ≡ self.old) }
        ensures moves { Moves D.tells D.faults (Statement.Command text.now) self.old self.new }
        ensures fails { self.old.state.halted ≡ false → self.new.state.halted ≡ true → Fails D.tells (Statement.Command text.now) self.old self.new }
    {
        let NamedIssuer { id, group } = self.issuer;
        match self.desk.judge(alloc, id, group, text.as_slice()) {
            Ok(ready) => settle(&mut self.desk, ready, out),
            Err(Judgement::Refused(_, why)) => self.refuse(Refusal::Command(why), out),
            Err(Judgement::Halted(number)) => Reply::Halted.write_line(number, out),
            Err(Judgement::NoMemory) => Err(AllocError),
            // What `judge` answers in place of a command is none of these two.
            Err(Judgement::Accepted(_) | Judgement::DiskFault(_)) => Err(AllocError),
        }
    }

    /// A line that names the issuer.
    fn name_issuer(&mut self, text: &LineText, out: &mut Vec<u8>) -> Result<(), AllocError>
        ensures ok { OnOk result (DoesOn (name_issuer text.now) self.old self.new out.old.items out.new.items) }
        ensures err { OnErr result (self.new ≡ self.old) }
        ensures stays { Stays self.old self.new }
    {
        match issuer_named(&self.issuing, text.as_slice()) {
            Ok(issuer) => {
                self.issuer = issuer;
                Ok(())
            }
            Err(why) => self.refuse(why, out),
        }
    }

    /// A request, answered by what its line says.
    #[tactic(auto, unfolding(crate::specs::Stream::request))]
    fn request(
        &mut self,
        alloc: Global,
        text: &LineText,
        out: &mut Vec<u8>,
    ) -> Result<(), AllocError>
        ensures ok { OnOk result (DoesOn (request text.now) self.old self.new out.old.items out.new.items) }
        ensures err { OnErr result (self.new ≡ self.old) }
        ensures stays { Stays self.old self.new }
    {
        self.answer(alloc, &read_line(text.as_slice()), out)
    }

    /// Answers a line of a request at the position as it stands.
    fn answer(
        &mut self,
        alloc: Global,
        line: &Result<RequestLine, LineRefusal>,
        out: &mut Vec<u8>,
    ) -> Result<(), AllocError>
        ensures ok { OnOk result (DoesOn (answer_line (line_read line.now)) self.old self.new out.old.items out.new.items) }
        ensures err { OnErr result (self.new ≡ self.old) }
        ensures stays { Stays self.old self.new }
    {
        let refused = respond(alloc, line, self.desk.image(), &mut self.acees, out)?;
        self.has_refused = self.has_refused || refused;
        Ok(())
    }

    /// Refuses a line.
    fn refuse(&mut self, why: Refusal, out: &mut Vec<u8>) -> Result<(), AllocError>
        ensures ok { OnOk result (DoesOn (refuse why) self.old self.new out.old.items out.new.items) }
        ensures err { OnErr result (self.new ≡ self.old) }
        ensures stays { Stays self.old self.new }
    {
        Reply::Refused(why).write_line(self.desk.number(), out)?;
        self.has_refused = true;
        Ok(())
    }
}

/// Puts a command that is accepted on the disks and installs it, once there is room for each reply that it may get.
fn settle<D: Disk>(desk: &mut Desk<D>, ready: Ready, out: &mut Vec<u8>) -> Result<(), AllocError>
    requires made { desk.old.made ≡ Some (made_in ready) }
    requires running { desk.old.halted ≡ false }
    requires settled { desk.old.committed ≡ false }
    ensures ok { OnOk result (Settles D.tells desk.old desk.new (made_in ready) out.old.items out.new.items) }
    ensures err { OnErr result (desk.new ≡ desk.old) }
    ensures cause { desk.new.halted ≡ true → Rose (D.faults desk.old.store.journal.disk) (D.faults desk.new.store.journal.disk) }
    ensures no_fewer { D.faults desk.old.store.journal.disk ≤ D.faults desk.new.store.journal.disk }
{
    out.reserve(LONGEST_LINE)?;
    match desk.commit(&ready) {
        Ok(()) => {
            let number = desk.install(ready);
            Reply::Accepted.write_line(number, out).unwrap();
        }
        Err(Failed) => Reply::DiskFault.write_line(desk.number(), out).unwrap(),
    }
    Ok(())
}
