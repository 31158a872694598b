//! The real shelf: files, standard input and standard output. It tells no content.

ghost use Rattle.std.specs.Prelude.{◌≡◌, false, None, IfOk};
ghost use Rattle.racf_outside.specs.Slots.{is_lent};

use crate::file_identity::FileIdentity;
use crate::file_sink::FileSink;
use crate::file_source::FileSource;
use crate::open_files::ShelfFiles;
use crate::planned::Trouble;
use crate::progress::Progress;
use racf_outside::{Failed, Faults, Outputs, Shelf};
use std::alloc::{AllocError, Global};
use std::fs::File;
use std::rt::Files;

/// The shelf of the files that a path names, a relative one from the folder that the program runs in. The name `-` is
/// standard input or standard output.
///
/// Nothing is lost by it. An output that is an open input, an open output or a file of the database, whatever other
/// name it has, isn't opened, and so isn't one that another program holds locked or that begins as a file of a database
/// does: that is a fault. What the words of a run name is opened in two steps: all of it at the first call, inputs
/// first, then outputs as they are; and each output is emptied when it is handed out, unless one of all these can't be
/// opened.
#[derive(Drop)]
pub struct FileShelf<R: Files<File = File> + Input + Print + Eprint + Clone + Drop> {
    /// Where the memory for names is from.
    alloc: Global,
    /// The files and the standard streams.
    files: ShelfFiles<R>,
    /// Which outputs are open.
    outputs: Outputs,
    /// The openings and sources that failed.
    source_faults: Faults,
    /// The openings and sinks that failed.
    sink_faults: Faults,
}

impl<R: Files<File = File> + Input + Print + Eprint + Clone + Drop> FileShelf<R> {
    /// The shelf of this runtime's files.
    pub fn new(alloc: Global, runtime: R) -> FileShelf<R>
        ensures source_faults { ⟦<FileShelf<R> as Shelf>⟧.source_faults result ≡ 0 }
        ensures sink_faults { ⟦<FileShelf<R> as Shelf>⟧.sink_faults result ≡ 0 }
    {
        FileShelf {
            alloc,
            files: ShelfFiles::new(alloc, runtime),
            outputs: Outputs::new(alloc),
            source_faults: Faults::new(),
            sink_faults: Faults::new(),
        }
    }

    /// Reads and writes no file of the database: what this disk is where it is open, and what its name leads to.
    pub fn guard_disk(
        &mut self,
        name: &str,
        identity: Option<FileIdentity>,
    ) -> Result<(), AllocError> {
        self.files.guard().add_disk(name, identity)
    }

    /// Writes no file of this name.
    pub fn guard_mark(&mut self, name: &str) -> Result<(), AllocError> {
        self.files.guard().add_mark(name)
    }

    /// The words name this input and this output, behind what they named before.
    pub fn plan(&mut self, input: Option<&str>, output: Option<&str>) -> Result<(), AllocError> {
        self.files.plan(input, output)
    }

    /// Asks for each line of standard input on standard error, and answers a line `?` there with these words.
    pub fn converse(&mut self, words: &'static str) -> Result<(), AllocError> {
        self.files.converse(words)
    }

    /// Tells from now on how much is read.
    pub fn tell(&mut self, progress: Progress) {
        self.files.tell(progress);
    }

    /// What the words name that couldn't be opened, in the order of the names, each input before its output.
    pub fn unopened(&self) -> Result<Vec<Trouble>, AllocError> {
        self.files.unopened()
    }

    /// What else couldn't be opened, read or written, in the order in which that came.
    pub fn troubles(&self) -> &[Trouble] {
        self.files.troubles()
    }
}

impl<R: Files<File = File> + Input + Print + Eprint + Clone + Drop> Shelf for FileShelf<R> {
    type In = FileSource<R>;

    type Out = FileSink<R>;

    ghost tells = { false };

    ghost input = { λ _ _. None };

    ghost output = { λ _ _. None };

    ghost is_open = { λ shelf. is_lent shelf.outputs };

    ghost source_faults = { λ shelf. shelf.source_faults };

    ghost sink_faults = { λ shelf. shelf.sink_faults };

    ghost source_gives = { λ _ _ _ _. Unit {0} };

    ghost sink_gives = { λ _ _ _ _. Unit {0} };

    ghost give_back_gives = { λ _ _ _ _. Unit {0} };

    ghost take_back_gives = { λ _ _ _ _. Unit {0} };

    fn source(&mut self, name: &str) -> Result<FileSource<R>, Failed> {
        match self.files.source(name) {
            Ok(source) => Ok(source),
            Err(_) => Err(self.source_faults.count()),
        }
    }

    fn sink(&mut self, name: &str) -> Result<FileSink<R>, Failed> {
        let Ok(sink) = self.files.sink(name) else {
            return Err(self.sink_faults.count());
        };
        match self.outputs.lend(self.alloc, name) {
            Ok(()) => Ok(sink),
            Err(_) => Err(self.sink_faults.count()),
        }
    }

    fn give_back(&mut self, name: &str, out: FileSink<R>) {
        self.files.close_output(name, out.identity(), out.reason());
        self.sink_faults.take_over(out.faults());
        self.outputs.give_back(name, None);
    }

    fn take_back(&mut self, name: &str, source: FileSource<R>) {
        self.files
            .close_input(name, source.identity(), source.reason());
        self.source_faults.take_over(source.faults());
    }
}
