//! The top call over the real files, disks and standard streams.

use crate::disks::{
    DISKS, first_missing, first_that_holds, guard, identities, open_disks, read_disks, reasons,
    take_away, tell_disks,
};
use crate::explaining::{Found, refuse_init, say_file, say_status, say_why};
use crate::help::TYPED;
use crate::watching::{end, watch};
use crate::words::{are_standard, made_name, output_of, run_names, stream_names, write_checkpoint};
use racf_files::{
    DatabaseFile, DiskTrouble, FileDisk, FileShelf, LOST, Phase, Progress, ReadAlone, Reason,
};
use racf_outside::{NeverDisk, Two};
use racf_run::{Gate, Status, looks_at_disks, racf, works_on_disks};
use std::alloc::{AllocError, Global};
use std::io::IsTerminal;
use std::sync::Wait;
use std::thread;
use std::thread::Threads;

/// How many lines a worker of a run works before it lets the others have its processor.
const LINES_AT_A_TIME: u64 = 8;

/// The gate of a run, which holds nobody. Behind some lines a worker lets others go on: so a deck whose command the
/// disk has taken soon has a processor, though request files keep all of them busy.
struct Fair;

impl Gate for Fair {
    fn before(&self, _worker: u32, line: u64) {
        if line % LINES_AT_A_TIME == 0 {
            thread::yield_now();
        }
    }

    fn answered(&self, _worker: u32, _line: u64) {}
}

/// What the files of the database may hold where the words begin to work on them.
#[derive(Clone, Copy)]
pub(crate) enum MayHold {
    /// Nothing: the words are refused where either holds anything.
    Nothing,
    /// Anything.
    Anything,
}

/// Nothing is known beside the status.
pub(crate) fn nothing_found(alloc: Global) -> Found {
    Found {
        unopened: Vec::new(alloc),
        disks: [None, None],
        holding: None,
        missing: None,
    }
}

/// Runs the top call over the real files, and says how it ended. The disks are opened where the words work on them, and
/// read alone where they only look.
pub(crate) fn work<T: Wait + Threads + Eprint + Clone + Drop + Send + Sync + 'static>(
    rt: &HostRuntime,
    threads: &T,
    words: &[String],
    may_hold: MayHold,
) -> Status {
    let worked = if works_on_disks(words) {
        work_watched(rt, threads, words, may_hold)
    } else if looks_at_disks(words) {
        work_looking(rt, threads, words)
    } else {
        work_without_disks(rt, threads, words)
    };
    match worked {
        Ok(status) => status,
        Err(AllocError) => without_memory(rt, words),
    }
}

/// Says that there isn't enough memory to begin with.
fn without_memory(rt: &HostRuntime, words: &[String]) -> Status {
    say_status(rt, Status::NoMemory);
    let found = nothing_found(rt.alloc());
    say_why(rt, Status::NoMemory, words, &found, &[]);
    Status::NoMemory
}

/// Runs the top call where the words work on no disk: both names are kept from it all the same.
fn work_without_disks<T: Wait + Threads + Sync>(
    rt: &HostRuntime,
    threads: &T,
    words: &[String],
) -> Result<Status, AllocError> {
    let mut shelf = FileShelf::new(rt.alloc(), rt.clone()?);
    guard(&mut shelf, [None, None])?;
    shelf.plan(None, made_name(words))?;
    let none = Two {
        first: NeverDisk,
        second: NeverDisk,
    };
    let status = racf(threads, rt.alloc(), words, &mut shelf, none, &Fair).0;
    conclude(rt, status, words, &shelf, [None, None]);
    Ok(status)
}

/// Reads both files of the database, lets them go, and runs the top call over what was read: so others may read or work
/// them meanwhile. The shelf keeps from both all the same.
fn work_looking<T: Wait + Threads + Sync>(
    rt: &HostRuntime,
    threads: &T,
    words: &[String],
) -> Result<Status, AllocError> {
    let Two { first, second } = match read_disks(rt) {
        Ok(read) => read,
        Err(trouble) => return Ok(disk_status(rt, trouble)),
    };
    let ReadAlone {
        disk: first,
        identity: first_file,
    } = first;
    let ReadAlone {
        disk: second,
        identity: second_file,
    } = second;
    let mut shelf = FileShelf::new(rt.alloc(), rt.clone()?);
    guard(&mut shelf, [first_file, second_file])?;
    plan(rt.alloc(), &mut shelf, words)?;
    if are_standard(words) && is_dialogue(rt) {
        shelf.converse(TYPED)?;
    }
    let disks = Two { first, second };
    let status = racf(threads, rt.alloc(), words, &mut shelf, disks, &Fair).0;
    conclude(rt, status, words, &shelf, [None, None]);
    Ok(status)
}

/// Opens the disks and runs the top call, and tells meanwhile how far it has come, where standard error is a terminal.
/// What the disks hold is asked once they are open, and so locked: another run may have ended in between.
fn work_watched<T: Wait + Threads + Eprint + Clone + Drop + Send + Sync + 'static>(
    rt: &HostRuntime,
    threads: &T,
    words: &[String],
    may_hold: MayHold,
) -> Result<Status, AllocError> {
    let progress = Progress::new(rt.alloc())?;
    progress.begin(Phase::Opening);
    let watcher = if rt.stderr().is_terminal() {
        watch(rt.alloc(), threads, progress.share()?)
    } else {
        None
    };
    let opened = open_disks(rt);
    let worked = match opened {
        Ok(disks) => match held(rt, may_hold) {
            Some(name) => Ok(Worked::Held(name)),
            None => work_on_disks(rt, threads, words, disks, &progress),
        },
        Err(trouble) => Ok(Worked::Unopened(trouble)),
    };
    end(threads, watcher);
    Ok(say_worked(rt, words, worked?))
}

/// The first disk that holds what it may not.
fn held(rt: &HostRuntime, may_hold: MayHold) -> Option<&'static str> {
    match may_hold {
        MayHold::Nothing => first_that_holds(rt),
        MayHold::Anything => None,
    }
}

/// How the top call ended over disks, with what tells why.
enum Worked {
    /// A disk couldn't be opened.
    Unopened(DiskTrouble),
    /// The disk of this name holds what it may not.
    Held(&'static str),
    /// With this status.
    Ended(Status, FileShelf<HostRuntime>, [Option<Reason>; 2]),
}

/// Says how the top call ended.
fn say_worked(rt: &HostRuntime, words: &[String], worked: Worked) -> Status {
    match worked {
        Worked::Unopened(trouble) => disk_status(rt, trouble),
        Worked::Held(name) => refuse_init(rt, name),
        Worked::Ended(status, shelf, disks) => {
            conclude(rt, status, words, &shelf, disks);
            status
        }
    }
}

/// Says which file of the database can't be opened, and why.
fn disk_status(rt: &HostRuntime, trouble: DiskTrouble) -> Status {
    let status = match trouble.reason {
        Reason::NoMemory => Status::NoMemory,
        _ => Status::DiskFault,
    };
    say_status(rt, status);
    let name = match trouble.file {
        DatabaseFile::First => DISKS[0],
        DatabaseFile::Second => DISKS[1],
        DatabaseFile::Mark => LOST,
    };
    say_file(rt, name, trouble.reason);
    status
}

/// Runs the top call over the real inputs and outputs, and these disks. The shelf keeps from the disks' files, whatever
/// other names they have: so nothing is read from the database as a stream, or written over it.
fn work_on_disks<T: Wait + Threads + Sync>(
    rt: &HostRuntime,
    threads: &T,
    words: &[String],
    mut disks: Two<FileDisk<HostRuntime>>,
    progress: &Progress,
) -> Result<Worked, AllocError> {
    let mut shelf = FileShelf::new(rt.alloc(), rt.clone()?);
    guard(&mut shelf, identities(&disks))?;
    plan(rt.alloc(), &mut shelf, words)?;
    shelf.tell(progress.share()?);
    if are_standard(words) && is_dialogue(rt) {
        shelf.converse(TYPED)?;
    }
    if write_checkpoint(words) {
        tell_disks(&mut disks, progress)?;
    }
    let (status, mut disks) = racf(threads, rt.alloc(), words, &mut shelf, disks, &Fair);
    let why = reasons(&disks);
    if status != Status::Done && write_checkpoint(words) {
        take_away(&mut disks);
    }
    Ok(Worked::Ended(status, shelf, why))
}

/// Whether the standard streams are a terminal, at which somebody sits.
fn is_dialogue(rt: &HostRuntime) -> bool {
    rt.stdin().is_terminal() && rt.stdout().is_terminal() && rt.stderr().is_terminal()
}

/// Tells the shelf which files the words name.
fn plan(
    alloc: Global,
    shelf: &mut FileShelf<HostRuntime>,
    words: &[String],
) -> Result<(), AllocError> {
    if let Some((input, output)) = stream_names(words) {
        shelf.plan(Some(input), Some(output))?;
    }
    for name in run_names(words) {
        let output = output_of(alloc, name.as_str())?;
        shelf.plan(Some(name.as_str()), Some(output.as_str()))?;
    }
    Ok(())
}

/// Says how a run ended, and why.
fn conclude(
    rt: &HostRuntime,
    status: Status,
    words: &[String],
    shelf: &FileShelf<HostRuntime>,
    disks: [Option<Reason>; 2],
) {
    say_status(rt, status);
    let mut found = nothing_found(rt.alloc());
    found.disks = disks;
    found.holding = first_that_holds(rt);
    found.missing = first_missing(rt);
    if let Ok(unopened) = shelf.unopened() {
        found.unopened = unopened;
    }
    say_why(rt, status, words, &found, shelf.troubles());
}
