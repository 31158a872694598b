//! What stands between two lines of a request file.

ghost use Rattle.std.specs.Prelude.{◌≡◌, [], false, OnOk, OnErr, IfOk};
ghost use Rattle.request_files.specs.Seen.{line_read};

use command_history::Naming;
use raclist_snapshots::Caller;
use request_files::{AceeTable, LineRefusal, RequestLine, respond};
use statements::Replies;
use std::alloc::{AllocError, Global};
use std::marker::Model;

/// What stands between two lines, but for what the caller has seen.
#[derive(Drop)]
pub(crate) struct Between {
    /// The ACEEs in use.
    acees: AceeTable,
    /// Some line was refused.
    has_refused: bool,
}

impl Model for Between {
    ghost use Rattle.racf_workers.specs.Answering.{Between as State};

    ghost Value = { State };

    ghost view = { λ s. record { acees = s.acees; has_refused = s.has_refused } };
}

impl Between {
    ghost use Rattle.racf_workers.specs.Answering.{Gathers};
    ghost use Rattle.racf_workers.specs.RequestFile.{outcome_at};

    /// Before the first line no ACEE is in use.
    pub(crate) fn new(alloc: Global) -> Result<Between, AllocError>
        ensures { IfOk result (λ state. state ≡ record { acees = []; has_refused = false }) }
    {
        let acees = AceeTable::new(alloc)?;
        Ok(Between {
            acees,
            has_refused: false,
        })
    }

    /// The ACEEs in use.
    pub(crate) fn acees(&self) -> &AceeTable
        ensures { result.now ≡ self.now.acees }
    {
        &self.acees
    }

    /// Whether a line was refused.
    pub(crate) fn has_refused(&self) -> bool
        ensures { result ≡ self.now.has_refused }
    {
        self.has_refused
    }

    /// Answers a line on the image behind what the caller has seen, and gathers its text. Where memory is short,
    /// nothing more is gathered, and nothing else has changed.
    #[inline(always)]
    #[tactic(auto, unfolding(crate::specs::RequestFile::outcome_at))]
    pub(crate) fn gather<J: Naming>(
        &mut self,
        alloc: Global,
        told: &Result<RequestLine, LineRefusal>,
        caller: &Caller<J>,
        replies: &mut Replies,
    ) -> Result<(), AllocError>
        ensures ok { OnOk result (Gathers (outcome_at J.base caller.now.events self.old.acees (line_read told.now)) self.old self.new replies.old replies.new) }
        ensures err { OnErr result ((self.new ≡ self.old) × (replies.new ≡ replies.old)) }
    {
        let room = replies.room()?;
        let refused = respond(alloc, told, caller.image(), &mut self.acees, room)?;
        self.has_refused = self.has_refused || refused;
        Ok(())
    }
}
