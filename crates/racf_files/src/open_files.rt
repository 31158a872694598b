//! What a real shelf keeps beside its counts of faults: what is open, what the words name, and what went wrong.

ghost use Rattle.std.specs.Prelude.{◌≡◌, IfOk};

use crate::dialogue::{Asking, LastNumber, Printed};
use crate::file_identity::FileIdentity;
use crate::file_sink::{FileSink, Shown, Target};
use crate::file_source::{FileSource, Origin, Typed};
use crate::guard::Guard;
use crate::opening::{OpenInput, OpenOutput};
use crate::planned::{Open, OpenFiles, Plan, Role, Trouble, trouble_with};
use crate::progress::{Phase, Progress};
use crate::reasons::Reason;
use std::alloc::{AllocError, Global};
use std::fs::File;
use std::rt::Files;

/// What stands at the two ends of a terminal.
#[derive(Drop)]
pub(crate) struct AtTerminal {
    /// What was printed last.
    last: LastNumber,
    /// What may be typed.
    words: &'static str,
}

/// The files of a real shelf.
#[derive(Drop)]
pub(crate) struct ShelfFiles<R: Files<File = File> + Input + Print + Eprint + Clone + Drop> {
    /// What is open, and what may not be.
    open: Open<R>,
    /// What the words name.
    plan: Plan,
    /// What went wrong with files that were open.
    troubles: Vec<Trouble>,
    /// The standard streams are those of a dialogue.
    dialogue: Option<AtTerminal>,
    /// Who is told what was read.
    progress: Option<Progress>,
}

impl<R: Files<File = File> + Input + Print + Eprint + Clone + Drop> ShelfFiles<R> {
    /// Nothing is open.
    pub(crate) fn new(alloc: Global, runtime: R) -> ShelfFiles<R> {
        ShelfFiles {
            open: Open {
                alloc,
                runtime,
                guard: Guard::new(alloc),
                inputs: OpenFiles::new(alloc),
                outputs: OpenFiles::new(alloc),
            },
            plan: Plan::new(alloc),
            troubles: Vec::new(alloc),
            dialogue: None,
            progress: None,
        }
    }

    /// The files of the database.
    pub(crate) fn guard(&mut self) -> &mut Guard {
        &mut self.open.guard
    }

    /// The words name these.
    pub(crate) fn plan(
        &mut self,
        input: Option<&str>,
        output: Option<&str>,
    ) -> Result<(), AllocError> {
        self.plan.add(self.open.alloc, input, output)
    }

    /// The standard streams are those of a dialogue.
    pub(crate) fn converse(&mut self, words: &'static str) -> Result<(), AllocError> {
        self.dialogue = Some(AtTerminal {
            last: LastNumber::new(self.open.alloc)?,
            words,
        });
        Ok(())
    }

    /// Who is told from now on what is read.
    pub(crate) fn tell(&mut self, progress: Progress) {
        self.progress = Some(progress);
    }

    /// Opens the input of a name, or hands it out where it is open.
    pub(crate) fn source(&mut self, name: &str) -> Result<FileSource<R>, Reason>
        ensures { IfOk result (λ source. source ≡ 0) }
    {
        self.plan.open(&mut self.open);
        let opened = match self.plan.take_input(name) {
            Some(found) => found?,
            None => self.open_input(name)?,
        };
        let progress = self.told(&opened)?;
        let identity = opened.identity;
        Ok(FileSource::new(self.origin(opened)?, identity, progress))
    }

    /// Opens an input that no word names.
    fn open_input(&mut self, name: &str) -> Result<OpenInput, Reason> {
        match self.open.open_input(name) {
            Ok(opened) => Ok(opened),
            Err(reason) => Err(self.keep(name, Role::Input, reason)),
        }
    }

    /// Who is told what is read of an input.
    fn told(&self, opened: &OpenInput) -> Result<Option<Progress>, AllocError> {
        let Some(progress) = &self.progress else {
            return Ok(None);
        };
        if self.dialogue.is_some() {
            progress.begin(Phase::Quiet);
            return Ok(None);
        }
        progress.expect(opened.length);
        Ok(Some(progress.share()?))
    }

    /// What is read of an input.
    fn origin(&self, opened: OpenInput) -> Result<Origin<R>, AllocError> {
        let OpenInput {
            file,
            identity: _,
            length: _,
        } = opened;
        if let Some(file) = file {
            return Ok(Origin::File(file));
        }
        let reader = self.open.runtime.reader();
        match &self.dialogue {
            Some(dialogue) => {
                let asking = Asking::new(dialogue.last.share()?, dialogue.words);
                Ok(Origin::Dialogue(Typed {
                    reader,
                    terminal: self.open.runtime.clone()?,
                    asking,
                }))
            }
            None => Ok(Origin::Standard(reader)),
        }
    }

    /// Opens the output of a name, or hands it out where it is open, and empties it, unless a file that the words name
    /// couldn't be opened.
    pub(crate) fn sink(&mut self, name: &str) -> Result<FileSink<R>, Reason>
        ensures { IfOk result (λ sink. sink ≡ 0) }
    {
        self.plan.open(&mut self.open);
        let (opened, is_emptied) = match self.plan.take_output(name) {
            Some(found) => (found?, !self.plan.has_failed()),
            None => (self.open_output(name)?, true),
        };
        if is_emptied {
            self.empty(name, &opened)?;
        }
        let (identity, room) = (opened.identity, opened.room);
        Ok(FileSink::new(self.target(opened)?, identity, room))
    }

    /// Opens an output that no word names.
    fn open_output(&mut self, name: &str) -> Result<OpenOutput, Reason> {
        match self.open.open_output(name) {
            Ok(opened) => Ok(opened),
            Err(reason) => Err(self.keep(name, Role::Output, reason)),
        }
    }

    /// Cuts away what a regular file held.
    fn empty(&mut self, name: &str, opened: &OpenOutput) -> Result<(), Reason> {
        let Some(file) = &opened.file else {
            return Ok(());
        };
        if opened.identity.is_none() {
            return Ok(());
        }
        match file.set_len(0) {
            Ok(()) => Ok(()),
            Err(error) => Err(self.keep(name, Role::Output, Reason::from(error))),
        }
    }

    /// What an output is written to.
    fn target(&self, opened: OpenOutput) -> Result<Target<R>, AllocError> {
        let OpenOutput {
            file,
            identity: _,
            room: _,
            is_made: _,
            is_skipped,
        } = opened;
        if is_skipped {
            return Ok(Target::Nothing);
        }
        if let Some(file) = file {
            return Ok(Target::File(file));
        }
        let runtime = self.open.runtime.clone()?;
        match &self.dialogue {
            Some(dialogue) => Ok(Target::Dialogue(Shown {
                runtime,
                printed: Printed::new(dialogue.last.share()?),
            })),
            None => Ok(Target::Standard(runtime)),
        }
    }

    /// An input is handed back.
    pub(crate) fn close_input(
        &mut self,
        name: &str,
        identity: Option<FileIdentity>,
        reason: Option<Reason>,
    ) {
        self.open.inputs.remove(identity);
        if let Some(reason) = reason {
            let _ = self.keep(name, Role::Input, reason);
        }
    }

    /// An output is handed back.
    pub(crate) fn close_output(
        &mut self,
        name: &str,
        identity: Option<FileIdentity>,
        reason: Option<Reason>,
    ) {
        self.open.outputs.remove(identity);
        if let Some(reason) = reason {
            let _ = self.keep(name, Role::Output, reason);
        }
    }

    /// Keeps what is in the way of a file. Where there is no memory for that it isn't told.
    fn keep(&mut self, name: &str, role: Role, reason: Reason) -> Reason {
        if let Ok(trouble) = trouble_with(self.open.alloc, name, role, reason) {
            let _ = self.troubles.push(trouble);
        }
        reason
    }

    /// What couldn't be opened, in the order of the names.
    pub(crate) fn unopened(&self) -> Result<Vec<Trouble>, AllocError> {
        self.plan.troubles(self.open.alloc)
    }

    /// What went wrong with files besides, in the order in which it did.
    pub(crate) fn troubles(&self) -> &[Trouble] {
        &self.troubles
    }
}
