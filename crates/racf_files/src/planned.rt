//! The inputs and outputs that the words of a run name, opened before any is worked.

use crate::file_identity::FileIdentity;
use crate::guard::Guard;
use crate::opening::{
    OpenInput, OpenOutput, is_pipe, open_named_input, open_named_output, open_standard_input,
    open_standard_output, take_away,
};
use crate::reasons::Reason;
use std::alloc::{AllocError, Global};
use std::fs::File;
use std::rt::Files;

/// The name that means standard input as an input, and standard output as an output.
pub(crate) const STANDARD: &str = "-";

/// What a file is to a run.
#[derive(Clone, Copy, Debug, PartialEq, Eq)]
pub enum Role {
    /// It is read.
    Input,
    /// It is written.
    Output,
}

/// What couldn't be opened, read or written, and why.
#[derive(Drop)]
pub struct Trouble {
    /// The name, as the words have it.
    pub name: String,
    /// What it is to the run.
    pub role: Role,
    /// Why.
    pub reason: Reason,
}

/// A file that the words name: its name, and what became of it.
#[derive(Drop)]
pub(crate) struct Planned<T> {
    /// Its name.
    name: String,
    /// It, once it is open and until it is handed out; or why it can't be opened.
    found: Option<Result<T, Reason>>,
}

impl<T: Drop> Planned<T> {
    /// Why it can't be opened.
    fn reason(&self) -> Option<Reason> {
        match &self.found {
            Some(Err(reason)) => Some(*reason),
            _ => None,
        }
    }
}

/// The regular files that are open, each as often as it is open.
#[derive(Drop)]
pub(crate) struct OpenFiles {
    /// In no order.
    files: Vec<FileIdentity>,
}

impl OpenFiles {
    /// None is open.
    pub(crate) fn new(alloc: Global) -> OpenFiles {
        OpenFiles {
            files: Vec::new(alloc),
        }
    }

    /// A file was opened.
    pub(crate) fn add(&mut self, identity: Option<FileIdentity>) -> Result<(), AllocError> {
        if let Some(identity) = identity {
            self.files.push(identity)?;
        }
        Ok(())
    }

    /// A file was closed.
    pub(crate) fn remove(&mut self, identity: Option<FileIdentity>) {
        let Some(identity) = identity else {
            return;
        };
        if let Some(place) = self.files.iter().position(|file| *file == identity) {
            self.files.swap_remove(place);
        }
    }

    /// Whether a file is among them.
    fn has(&self, identity: Option<FileIdentity>) -> bool {
        match identity {
            Some(identity) => self.files.contains(&identity),
            None => false,
        }
    }
}

/// What is open, and what may not be.
#[derive(Drop)]
pub(crate) struct Open<R: Files<File = File> + Eprint + Drop> {
    /// Where the memory is from.
    pub(crate) alloc: Global,
    /// The files and standard error.
    pub(crate) runtime: R,
    /// The files of the database.
    pub(crate) guard: Guard,
    /// The regular files that are open as inputs.
    pub(crate) inputs: OpenFiles,
    /// The regular files that are open as outputs.
    pub(crate) outputs: OpenFiles,
}

impl<R: Files<File = File> + Eprint + Drop> Open<R> {
    /// Opens an input.
    pub(crate) fn open_input(&mut self, name: &str) -> Result<OpenInput, Reason> {
        let opened = if name == STANDARD {
            open_standard_input(&self.runtime, &self.guard)?
        } else {
            open_named_input(self.alloc, &self.runtime, &self.guard, name)?
        };
        self.inputs.add(opened.identity)?;
        Ok(opened)
    }

    /// Opens an output, which is no input and no other output, and keeps what it holds.
    pub(crate) fn open_output(&mut self, name: &str) -> Result<OpenOutput, Reason> {
        let opened = if name == STANDARD {
            open_standard_output(self.alloc, &self.runtime, &self.guard)?
        } else {
            open_named_output(self.alloc, &self.runtime, &self.guard, name)?
        };
        if self.inputs.has(opened.identity) {
            return Err(Reason::Input);
        }
        if self.outputs.has(opened.identity) {
            return Err(Reason::Output);
        }
        self.outputs.add(opened.identity)?;
        Ok(opened)
    }
}

/// The files that the words name: of each an input and an output, either of which may lack.
#[derive(Drop)]
pub(crate) struct Plan {
    /// The inputs, in the order of the names.
    inputs: Vec<Option<Planned<OpenInput>>>,
    /// The outputs, in the order of the names: as many.
    outputs: Vec<Option<Planned<OpenOutput>>>,
    /// They were opened.
    is_opened: bool,
    /// One of them couldn't be opened.
    has_failed: bool,
}

impl Plan {
    /// The words name nothing.
    pub(crate) fn new(alloc: Global) -> Plan {
        Plan {
            inputs: Vec::new(alloc),
            outputs: Vec::new(alloc),
            is_opened: false,
            has_failed: false,
        }
    }

    /// The words name these, behind what they named before.
    pub(crate) fn add(
        &mut self,
        alloc: Global,
        input: Option<&str>,
        output: Option<&str>,
    ) -> Result<(), AllocError> {
        let input = named(alloc, input)?;
        let output = named(alloc, output)?;
        self.inputs.push(input)?;
        self.outputs.push(output)?;
        Ok(())
    }

    /// Opens all of them where that wasn't done: inputs first, then outputs, of which none is emptied. Where one can't
    /// be opened no pipe is waited for any more, and what was made is taken away.
    pub(crate) fn open<R: Files<File = File> + Eprint + Drop>(&mut self, open: &mut Open<R>) {
        if self.is_opened {
            return;
        }
        self.is_opened = true;
        for input in self.inputs.iter_mut().flatten() {
            if self.has_failed && is_pipe(&open.runtime, input.name.as_str()) {
                continue;
            }
            let found = open.open_input(input.name.as_str());
            self.has_failed |= found.is_err();
            input.found = Some(found);
        }
        for output in self.outputs.iter_mut().flatten() {
            if self.has_failed && is_pipe(&open.runtime, output.name.as_str()) {
                output.found = Some(Ok(OpenOutput::skipped()));
                continue;
            }
            let found = open.open_output(output.name.as_str());
            self.has_failed |= found.is_err();
            output.found = Some(found);
        }
        if self.has_failed {
            self.take_away(&open.runtime);
        }
    }

    /// Takes away the outputs that weren't there before.
    fn take_away<R: Files<File = File>>(&self, files: &R) {
        for output in self.outputs.iter().flatten() {
            match &output.found {
                Some(Ok(found)) if found.is_made => {
                    take_away(files, output.name.as_str(), found.identity)
                }
                _ => {}
            }
        }
    }

    /// Whether one of them couldn't be opened: then no output is emptied.
    pub(crate) fn has_failed(&self) -> bool {
        self.has_failed
    }

    /// The input of this name, where it is planned and wasn't handed out.
    pub(crate) fn take_input(&mut self, name: &str) -> Option<Result<OpenInput, Reason>> {
        for input in self.inputs.iter_mut().flatten() {
            if input.name.as_str() == name && input.found.is_some() {
                return taken(input);
            }
        }
        None
    }

    /// The output of this name, where it is planned and wasn't handed out.
    pub(crate) fn take_output(&mut self, name: &str) -> Option<Result<OpenOutput, Reason>> {
        for output in self.outputs.iter_mut().flatten() {
            if output.name.as_str() == name && output.found.is_some() {
                return taken(output);
            }
        }
        None
    }

    /// What couldn't be opened, in the order of the names, each input before its output.
    pub(crate) fn troubles(&self, alloc: Global) -> Result<Vec<Trouble>, AllocError> {
        let mut troubles = Vec::new(alloc);
        for (input, output) in self.inputs.iter().zip(self.outputs.iter()) {
            if let Some(trouble) = trouble_of(alloc, input, Role::Input)? {
                troubles.push(trouble)?;
            }
            if let Some(trouble) = trouble_of(alloc, output, Role::Output)? {
                troubles.push(trouble)?;
            }
        }
        Ok(troubles)
    }
}

/// A file of this name that isn't open yet.
fn named<T: Drop>(alloc: Global, name: Option<&str>) -> Result<Option<Planned<T>>, AllocError> {
    let Some(name) = name else {
        return Ok(None);
    };
    Ok(Some(Planned {
        name: String::from_str(alloc, name)?,
        found: None,
    }))
}

/// Hands a file out. Why one couldn't be opened stays.
fn taken<T: Drop>(planned: &mut Planned<T>) -> Option<Result<T, Reason>> {
    match planned.reason() {
        Some(reason) => Some(Err(reason)),
        None => planned.found.take(),
    }
}

/// What is in the way of a file.
fn trouble_of<T: Drop>(
    alloc: Global,
    planned: &Option<Planned<T>>,
    role: Role,
) -> Result<Option<Trouble>, AllocError> {
    let Some(planned) = planned else {
        return Ok(None);
    };
    match planned.reason() {
        Some(reason) => Ok(Some(trouble_with(alloc, planned.name.as_str(), role, reason)?)),
        None => Ok(None),
    }
}

/// A file and what is in its way.
pub(crate) fn trouble_with(
    alloc: Global,
    name: &str,
    role: Role,
    reason: Reason,
) -> Result<Trouble, AllocError> {
    Ok(Trouble {
        name: String::from_str(alloc, name)?,
        role,
        reason,
    })
}
