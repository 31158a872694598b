//! The files that no word reads or writes by a name of its own: those of the database.

use crate::file_identity::{FileIdentity, identity_at};
use crate::reasons::Reason;
use std::alloc::{AllocError, Global};
use std::fs::File;
use std::rt::Files;

/// The files of the database: which they are, where they are open, and their names.
#[derive(Drop)]
pub(crate) struct Guard {
    /// Where the memory for names is from.
    alloc: Global,
    /// The disks that are open.
    disks: Vec<FileIdentity>,
    /// The names of the disks.
    names: Vec<String>,
    /// The names of files that are no outputs beside these.
    marks: Vec<String>,
}

impl Guard {
    /// No file is guarded.
    pub(crate) fn new(alloc: Global) -> Guard {
        Guard {
            alloc,
            disks: Vec::new(alloc),
            names: Vec::new(alloc),
            marks: Vec::new(alloc),
        }
    }

    /// Guards a disk, by its name and by what it is where it is open.
    pub(crate) fn add_disk(
        &mut self,
        name: &str,
        identity: Option<FileIdentity>,
    ) -> Result<(), AllocError> {
        self.names.push(String::from_str(self.alloc, name)?)?;
        if let Some(identity) = identity {
            self.disks.push(identity)?;
        }
        Ok(())
    }

    /// Guards a file that is no output.
    pub(crate) fn add_mark(&mut self, name: &str) -> Result<(), AllocError> {
        self.marks.push(String::from_str(self.alloc, name)?)?;
        Ok(())
    }

    /// An error where an input is a disk.
    pub(crate) fn refuse_input<R: Files<File = File>>(
        &self,
        files: &R,
        input: FileIdentity,
    ) -> Result<(), Reason> {
        if self.disks.contains(&input) || is_any(files, &self.names, input) {
            return Err(Reason::OfDatabase);
        }
        Ok(())
    }

    /// An error where an output is a disk or a mark. It is asked once the output is there, so that it is found too
    /// where the disk wasn't there before.
    pub(crate) fn refuse_output<R: Files<File = File>>(
        &self,
        files: &R,
        output: FileIdentity,
    ) -> Result<(), Reason> {
        self.refuse_input(files, output)?;
        if is_any(files, &self.marks, output) {
            return Err(Reason::OfDatabase);
        }
        Ok(())
    }
}

/// Whether one of these names leads to a file.
fn is_any<R: Files<File = File>>(files: &R, names: &[String], file: FileIdentity) -> bool {
    names
        .iter()
        .any(|name| identity_at(files, name.as_str()) == Some(file))
}
