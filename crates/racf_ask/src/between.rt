//! What stands between two lines of questions.

ghost use Rattle.std.specs.Prelude.{◌≡◌, ◌<◌, ◌+◌, ◌^◌, [], false, OnOk, OnErr, IfOk};

use crate::writing::write_with_number;
use raclist_image::Image;
use request_files::{AceeTable, LineRefusal, RequestLine, respond};
use statements::Replies;
use std::alloc::{AllocError, Global};
use std::marker::Model;

/// What stands between two lines.
#[derive(Drop)]
pub(crate) struct Between {
    /// The ACEEs in use.
    acees: AceeTable,
    /// Some line was refused.
    has_refused: bool,
    /// How many lines came, those too that are skipped.
    lines: u64,
    /// Room for an answer, before its lines are numbered.
    answer: Vec<u8>,
}

impl Model for Between {
    ghost use Rattle.racf_ask.specs.Answering.{Between as State};

    ghost Value = { State };

    ghost view = { λ s. record { acees = s.acees; has_refused = s.has_refused; lines = s.lines } };
}

impl Between {
    ghost use Rattle.request_files.specs.Seen.{line_read};
    ghost use Rattle.request_files.specs.Worked.{worked};
    ghost use Rattle.racf_ask.specs.Asking.{shown};
    ghost use Rattle.racf_ask.specs.Answering.{Gathers, outcome_on};

    /// Before the first line no ACEE is in use.
    pub(crate) fn new(alloc: Global) -> Result<Between, AllocError>
        ensures { IfOk result (λ state. state ≡ record { acees = []; has_refused = false; lines = 0 }) }
    {
        let acees = AceeTable::new(alloc)?;
        Ok(Between {
            acees,
            has_refused: false,
            lines: 0,
            answer: Vec::new(alloc),
        })
    }

    /// Whether a line was refused.
    pub(crate) fn has_refused(&self) -> bool
        ensures { result ≡ self.now.has_refused }
    {
        self.has_refused
    }

    /// Answers the next line on an image, where there is one that isn't skipped, and gathers what it prints, with its
    /// number in front where lines are numbered. Where memory is short, nothing more is gathered.
    #[inline(always)]
    pub(crate) fn answer(
        &mut self,
        alloc: Global,
        image: &Image,
        numbered: bool,
        told: &Option<Result<RequestLine, LineRefusal>>,
        replies: &mut Replies,
    ) -> Result<(), AllocError>
        requires few { self.old.lines < 2 ^ 28 }
        ensures ok { OnOk result (Gathers numbered (self.old.lines + 1) (outcome_on image.now self.old.acees told.now) self.old self.new replies.old replies.new) }
        ensures err { OnErr result (replies.new ≡ replies.old) }
    {
        self.lines += 1;
        match told {
            None => Ok(()),
            Some(told) => self.gather(alloc, image, numbered, told, replies),
        }
    }

    /// Answers a line, the last that was counted, and gathers what it prints.
    fn gather(
        &mut self,
        alloc: Global,
        image: &Image,
        numbered: bool,
        told: &Result<RequestLine, LineRefusal>,
        replies: &mut Replies,
    ) -> Result<(), AllocError>
        ensures ok { OnOk result (Gathers numbered self.old.lines (worked image.now self.old.acees (line_read told.now)) self.old self.new replies.old replies.new) }
        ensures err { OnErr result (replies.new ≡ replies.old) }
    {
        let room = replies.room()?;
        let done = self.print(alloc, image, numbered, told, room);
        if done.is_err() {
            room.clear();
        }
        done
    }

    /// Answers a line, the last that was counted, and writes what it prints into `out`, where nothing stands.
    fn print(
        &mut self,
        alloc: Global,
        image: &Image,
        numbered: bool,
        told: &Result<RequestLine, LineRefusal>,
        out: &mut Vec<u8>,
    ) -> Result<(), AllocError>
        requires empty { out.old.items ≡ [] }
        ensures { OnOk result (Gathers numbered self.old.lines (worked image.now self.old.acees (line_read told.now)) self.old self.new [] out.new.items) }
    {
        if !numbered {
            let refused = respond(alloc, told, image, &mut self.acees, out)?;
            self.has_refused = self.has_refused || refused;
            return Ok(());
        }
        self.answer.clear();
        let refused = respond(alloc, told, image, &mut self.acees, &mut self.answer)?;
        self.has_refused = self.has_refused || refused;
        write_with_number(self.lines, self.answer.as_slice(), out)
    }
}
