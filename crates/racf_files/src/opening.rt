//! Opening inputs and outputs: what is asked of each before it may be read or written. Nothing is emptied here.

use crate::file_at::read_all;
use crate::file_identity::{FileIdentity, identity_at, identity_of};
use crate::file_sink::Room;
use crate::guard::Guard;
use crate::paths::behind_standard;
use crate::reasons::Reason;
use crate::size_bound::{has_room_for_message, size_bound};
use std::alloc::Global;
use std::fs;
use std::fs::{File, Metadata, OpenOptions, TryLockError};
use std::io::ErrorKind;
use std::os::unix::fs::FileTypeExt;
use std::rt::Files;

/// The paths of the files that standard input and standard output are, where the system has such paths.
const STANDARD_INPUT: &str = "/dev/stdin";

const STANDARD_OUTPUT: &str = "/dev/stdout";

/// How a file of a database begins.
const KNOWN_BY: [u8; 8] = *b"RACFDB01";

/// What is open for reading.
#[derive(Drop)]
pub(crate) struct OpenInput {
    /// The file; `None` is standard input.
    pub(crate) file: Option<File>,
    /// Which file it is, where it is one that could be lost.
    pub(crate) identity: Option<FileIdentity>,
    /// How many bytes it has, where that is told.
    pub(crate) length: u64,
}

/// What is open for writing, and still holds what it held.
#[derive(Drop)]
pub(crate) struct OpenOutput {
    /// The file; `None` is standard output.
    pub(crate) file: Option<File>,
    /// Which file it is, where it is one that could be lost.
    pub(crate) identity: Option<FileIdentity>,
    /// The room that it has.
    pub(crate) room: Room,
    /// It wasn't there before.
    pub(crate) is_made: bool,
    /// It wasn't opened, since nothing will be written.
    pub(crate) is_skipped: bool,
}

impl OpenOutput {
    /// An output that isn't opened.
    pub(crate) fn skipped() -> OpenOutput {
        OpenOutput {
            file: None,
            identity: None,
            room: Room::endless(),
            is_made: false,
            is_skipped: true,
        }
    }
}

/// Opens standard input. It is no file of the database, and no folder.
pub(crate) fn open_standard_input<R: Files<File = File>>(
    files: &R,
    guard: &Guard,
) -> Result<OpenInput, Reason> {
    let (identity, length) = match fs::metadata(files, STANDARD_INPUT) {
        Ok(metadata) if metadata.is_dir() => return Err(Reason::Folder),
        Ok(metadata) => (identity_of(&metadata), metadata.len()),
        Err(_) => (None, 0),
    };
    if let Some(identity) = identity {
        guard.refuse_input(files, identity)?;
    }
    Ok(OpenInput {
        file: None,
        identity,
        length,
    })
}

/// Opens an input. It is no file of the database, and no folder.
pub(crate) fn open_named_input<R: Files<File = File> + Eprint>(
    alloc: Global,
    files: &R,
    guard: &Guard,
    name: &str,
) -> Result<OpenInput, Reason> {
    let metadata = fs::metadata(files, name)?;
    if metadata.is_dir() {
        return Err(Reason::Folder);
    }
    name_pipe(alloc, files, name, &metadata);
    let file = behind_standard(File::open(files, name)?)?;
    let metadata = file.metadata()?;
    if metadata.is_dir() {
        return Err(Reason::Folder);
    }
    let identity = identity_of(&metadata);
    if let Some(identity) = identity {
        guard.refuse_input(files, identity)?;
    }
    Ok(OpenInput {
        file: Some(file),
        identity,
        length: metadata.len(),
    })
}

/// Opens standard output. As a regular file it is no file of a database, and no other program holds it locked.
pub(crate) fn open_standard_output<R: Files<File = File>>(
    alloc: Global,
    files: &R,
    guard: &Guard,
) -> Result<OpenOutput, Reason> {
    let (identity, length) = match fs::metadata(files, STANDARD_OUTPUT) {
        Ok(metadata) => (identity_of(&metadata), metadata.len()),
        Err(_) => (None, 0),
    };
    let mut room = Room::endless();
    if let Some(identity) = identity {
        guard.refuse_output(files, identity)?;
        if let Ok(again) = open_again(files, identity) {
            refuse_held(&again)?;
        }
        room = Room {
            at: length,
            bound: size_bound(alloc, files),
        };
    }
    Ok(OpenOutput {
        file: None,
        identity,
        room,
        is_made: false,
        is_skipped: false,
    })
}

/// Opens the file that standard output is once more, to look into it.
fn open_again<R: Files<File = File>>(files: &R, wanted: FileIdentity) -> Result<Writing, Reason> {
    let (file, is_readable) = match File::open(files, STANDARD_OUTPUT) {
        Ok(file) => (file, true),
        Err(_) => {
            let file = OpenOptions::new()
                .append(true)
                .open(files, STANDARD_OUTPUT)?;
            (file, false)
        }
    };
    let again = open_for_writing(file, is_readable, false)?;
    if identity_of(&again.file.metadata()?) == Some(wanted) {
        Ok(again)
    } else {
        Err(Reason::Replaced)
    }
}

/// Opens an output, which keeps what it holds until it is emptied. As a regular file it is no file of a database, and
/// no other program holds it locked. A pipe or a device may be open several times.
pub(crate) fn open_named_output<R: Files<File = File> + Eprint>(
    alloc: Global,
    files: &R,
    guard: &Guard,
    name: &str,
) -> Result<OpenOutput, Reason> {
    let opened = open_writing(alloc, files, name)?;
    let metadata = opened.file.metadata()?;
    let identity = identity_of(&metadata);
    let mut room = Room::endless();
    if let Some(identity) = identity {
        let refused = guard.refuse_output(files, identity);
        refuse_made(files, name, opened.is_made, refused)?;
        refuse_held(&opened)?;
        room.bound = size_bound(alloc, files);
    }
    Ok(OpenOutput {
        file: Some(opened.file),
        identity,
        room,
        is_made: opened.is_made,
        is_skipped: false,
    })
}

/// Passes a refusal on, and takes away before what was made for an output that is refused.
fn refuse_made<R: Files<File = File>>(
    files: &R,
    name: &str,
    is_made: bool,
    refused: Result<(), Reason>,
) -> Result<(), Reason> {
    if refused.is_err() && is_made {
        let _ = fs::remove_file(files, name);
    }
    refused
}

/// Takes away an output that was made for nothing, where its name still leads to it.
pub(crate) fn take_away<R: Files<File = File>>(
    files: &R,
    name: &str,
    identity: Option<FileIdentity>,
) {
    if identity.is_some() && identity_at(files, name) == identity {
        let _ = fs::remove_file(files, name);
    }
}

/// A file that is open for writing.
#[derive(Drop)]
struct Writing {
    /// The file.
    file: File,
    /// It can be read too.
    is_readable: bool,
    /// It wasn't there before.
    is_made: bool,
}

/// Opens a file for writing, and for reading where it is a regular one that may be read; it is made where it isn't
/// there.
fn open_writing<R: Files<File = File> + Eprint>(
    alloc: Global,
    files: &R,
    name: &str,
) -> Result<Writing, Reason> {
    match fs::metadata(files, name) {
        Ok(metadata) if metadata.is_dir() => Err(Reason::Folder),
        Ok(metadata) if metadata.is_file() => open_regular(files, name),
        Ok(metadata) => {
            name_pipe(alloc, files, name, &metadata);
            let file = OpenOptions::new().write(true).open(files, name)?;
            open_for_writing(file, false, false)
        }
        Err(error) if error.kind() == ErrorKind::NotFound => make(files, name),
        Err(error) => Err(Reason::from(error)),
    }
}

/// Opens a regular file that is there.
fn open_regular<R: Files<File = File>>(files: &R, name: &str) -> Result<Writing, Reason> {
    match OpenOptions::new().read(true).write(true).open(files, name) {
        Ok(file) => open_for_writing(file, true, false),
        Err(error) if error.kind() == ErrorKind::PermissionDenied => {
            open_for_writing(
                OpenOptions::new().write(true).open(files, name)?,
                false,
                false,
            )
        }
        Err(error) => Err(Reason::from(error)),
    }
}

/// Makes a file. Nothing is made where a link leads: the name of one that leads to no file is refused.
fn make<R: Files<File = File>>(files: &R, name: &str) -> Result<Writing, Reason> {
    let made = OpenOptions::new()
        .read(true)
        .write(true)
        .create_new(true)
        .open(files, name);
    match made {
        Ok(file) => open_for_writing(file, true, true),
        Err(error) if error.kind() == ErrorKind::AlreadyExists => open_found(files, name),
        Err(error) => Err(Reason::from(error)),
    }
}

/// Opens a file that another program made in between. Where none is there the name is that of a link.
fn open_found<R: Files<File = File>>(files: &R, name: &str) -> Result<Writing, Reason> {
    match open_regular(files, name) {
        Err(Reason::NoSuchFile) => Err(Reason::LeadsNowhere),
        opened => opened,
    }
}

/// The file, behind the standard streams.
fn open_for_writing(file: File, is_readable: bool, is_made: bool) -> Result<Writing, Reason> {
    Ok(Writing {
        file: behind_standard(file)?,
        is_readable,
        is_made,
    })
}

/// An error where another program holds a file locked, or where it begins as a file of a database does. The lock is
/// tried and let go.
fn refuse_held(opened: &Writing) -> Result<(), Reason> {
    match opened.file.try_lock() {
        Ok(()) => opened.file.unlock()?,
        Err(TryLockError::WouldBlock) => return Err(Reason::Locked),
        Err(TryLockError::Error(_)) => {}
    }
    if opened.is_readable && begins_as_database(&opened.file) {
        return Err(Reason::LikeDatabase);
    }
    Ok(())
}

/// Whether a file begins as one of a database does. The place where it is written stays.
fn begins_as_database(file: &File) -> bool {
    let mut head = [0u8; 8];
    match read_all(file, 0, &mut head) {
        Ok(count) => count == head.len() && head == KNOWN_BY,
        Err(_) => false,
    }
}

/// Whether a name is that of a pipe, whose opening may wait for its other end. Those of the system's own folders are
/// open already.
pub(crate) fn is_pipe<R: Files>(files: &R, name: &str) -> bool {
    match fs::metadata(files, name) {
        Ok(metadata) => is_named_pipe(name, &metadata),
        Err(_) => false,
    }
}

/// Whether what a name leads to is a pipe that has this name.
fn is_named_pipe(name: &str, metadata: &Metadata) -> bool {
    metadata.file_type().is_fifo() && !name.starts_with("/dev/") && !name.starts_with("/proc/")
}

/// Names a pipe on standard error before it is opened, since that may wait for its other end.
fn name_pipe<R: Files<File = File> + Eprint>(
    alloc: Global,
    files: &R,
    name: &str,
    metadata: &Metadata,
) {
    if is_named_pipe(name, metadata) && has_room_for_message(alloc, files, name) {
        let _ = eprintln!(files; "racf: {name}: a pipe, which waits for its other end");
    }
}
