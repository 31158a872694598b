//! What is said on standard error: how a run ended, and behind it what it is about. Where there is no room for it within
//! the bound of a file's size nothing is said, so that the status stays.

use crate::disks::DISKS;
use crate::words::wrong_word;
use racf_files::{Reason, Role, Trouble, has_room_for_message};
use racf_run::Status;

/// What is known of a run's end beside its status.
#[derive(Drop)]
pub(crate) struct Found {
    /// The files of the words that couldn't be opened, in the order of the names.
    pub(crate) unopened: Vec<Trouble>,
    /// Why a call of each disk failed.
    pub(crate) disks: [Option<Reason>; 2],
    /// The first disk that holds anything.
    pub(crate) holding: Option<&'static str>,
    /// The first disk that isn't there.
    pub(crate) missing: Option<&'static str>,
}

/// Whether a line that tells this name may be said.
pub(crate) fn may_say(rt: &HostRuntime, name: &str) -> bool {
    has_room_for_message(rt.alloc(), rt, name)
}

/// Says how a run ended, where it didn't end well: the words of the status, in a line of its own.
pub(crate) fn say_status(rt: &HostRuntime, status: Status) {
    let Some(message) = status.message() else {
        return;
    };
    if !may_say(rt, message) {
        return;
    }
    let _ = match status.place() {
        Some(place) => eprintln!(rt; "{message} {place}"),
        None => eprintln!(rt; "{message}"),
    };
}

/// Refuses to make a database where one may be.
pub(crate) fn refuse_init(rt: &HostRuntime, name: &str) -> Status {
    say_status(rt, Status::Usage);
    if may_say(rt, name) {
        let _ = eprintln!(rt;
            "racf: {name}: a database may be here: racf init over makes a new one"
        );
    }
    Status::Usage
}

/// Says what a run's end is about: each file at fault, with the system's reason.
pub(crate) fn say_why(
    rt: &HostRuntime,
    status: Status,
    words: &[String],
    found: &Found,
    troubles: &[Trouble],
) {
    match status {
        Status::Done | Status::Refusals => {}
        Status::Usage => say_usage(rt, words),
        Status::NotFormatted => say_no_database(rt, found),
        Status::Damaged(_) => say_damaged(rt),
        Status::ReadFault
        | Status::WriteFault
        | Status::DiskFault
        | Status::NoMemory
        | Status::InputTooLong => say_files(rt, status, words, found, troubles),
    }
}

/// Says which word is wrong.
fn say_usage(rt: &HostRuntime, words: &[String]) {
    let (word, why) = wrong_word(words);
    if !may_say(rt, word.unwrap_or("")) {
        return;
    }
    let _ = match word {
        Some(word) => eprintln!(rt; "racf: {word}: {why}"),
        None => eprintln!(rt; "racf: {why}"),
    };
}

/// Says that there is no database: of two files of which one lacks, which one.
fn say_no_database(rt: &HostRuntime, found: &Found) {
    let [first, second] = DISKS;
    if !may_say(rt, first) {
        return;
    }
    let _ = match (found.holding, found.missing) {
        (None, _) => eprintln!(rt; "racf: no database in this folder: racf init makes one"),
        (Some(_), Some(missing)) => eprintln!(rt; "racf: {missing}: no such file"),
        (Some(_), None) => eprintln!(rt; "racf: {first}, {second}: no database"),
    };
}

/// Says that the database is damaged.
fn say_damaged(rt: &HostRuntime) {
    let [first, second] = DISKS;
    if may_say(rt, first) {
        let _ = eprintln!(rt;
            "racf: {first}, {second}: the one that counts is damaged at this place"
        );
    }
}

/// Says each file at fault.
fn say_files(
    rt: &HostRuntime,
    status: Status,
    words: &[String],
    found: &Found,
    troubles: &[Trouble],
) {
    let mut said = false;
    for trouble in found.unopened.iter().chain(troubles.iter()) {
        say_trouble(rt, trouble);
        said = true;
    }
    for (name, reason) in DISKS.iter().zip(found.disks.iter()) {
        if let Some(reason) = reason {
            say_file(rt, name, *reason);
            said = true;
        }
    }
    if !said {
        say_word(rt, status, words);
    }
}

/// Says what is in the way of a file of the words.
fn say_trouble(rt: &HostRuntime, trouble: &Trouble) {
    let reason = trouble.reason;
    let name = match (trouble.name.as_str(), trouble.role) {
        ("-", Role::Input) => "standard input",
        ("-", Role::Output) => "standard output",
        (name, _) => name,
    };
    say_file(rt, name, reason);
}

/// Says what is in the way of the file of this name.
pub(crate) fn say_file(rt: &HostRuntime, name: &str, reason: Reason) {
    if may_say(rt, name) {
        let _ = eprintln!(rt; "racf: {name}: {reason}");
    }
}

/// Says which word it was where no file is known to be at fault.
fn say_word(rt: &HostRuntime, status: Status, words: &[String]) {
    let why = match status {
        Status::NoMemory => "not enough memory",
        _ => "see racf --help",
    };
    let verb = match words {
        [verb, ..] => verb.as_str(),
        [] => "",
    };
    if !may_say(rt, verb) {
        return;
    }
    let _ = match words {
        [verb, ..] => eprintln!(rt; "racf: {verb}: {why}"),
        [] => eprintln!(rt; "racf: {why}"),
    };
}
