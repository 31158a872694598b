//! The words of the command line: what they ask for, and which files they name.

use crate::help::{Word, word_of};
use std::alloc::{AllocError, Global};

/// The word of a run of decks and request files.
const RUN: &str = "run";

/// The word of a stream.
const SCRIPT: &str = "script";

/// The word of a stream that is tried.
const CHECK: &str = "check";

/// The word of questions alone.
const ASK: &str = "ask";

/// Behind `ask`: lines are numbered.
const NUMBERED: &str = "-n";

/// Behind `script`, `check` or `run`: who gives all commands.
const ISSUER: &str = "--issuer";

/// What stands behind the name of a deck or a request file in that of its output.
const OUTPUT: &str = ".out";

/// What the words ask of `main`.
#[derive(Clone, Copy)]
pub(crate) enum Asked {
    /// The help of the program.
    Help,
    /// Its version.
    Version,
    /// The help of a word.
    WordHelp(Word),
    /// A new database, where none is.
    Init,
    /// A new database, whatever the files hold.
    InitOver,
    /// What the top call works or refuses.
    Other,
}

/// What the words ask for.
pub(crate) fn asked_for(words: &[String]) -> Asked {
    match words {
        [word] if word.as_str() == "--help" => Asked::Help,
        [word] if word.as_str() == "--version" => Asked::Version,
        [word] if word.as_str() == "init" => Asked::Init,
        [word, behind] if word.as_str() == "init" && behind.as_str() == "over" => Asked::InitOver,
        [word, behind] if behind.as_str() == "--help" => match word_of(word.as_str()) {
            Some(word) => Asked::WordHelp(word),
            None => Asked::Other,
        },
        _ => Asked::Other,
    }
}

/// Whether the words are those of a dialogue: a stream from standard input to standard output. Questions are none: no
/// line of them goes on, and a number in front may be that of the line.
pub(crate) fn are_standard(words: &[String]) -> bool {
    match (words, stream_names(words)) {
        ([verb, ..], Some((input, output))) => {
            is_stream_word(verb) && input == "-" && output == "-"
        }
        _ => false,
    }
}

/// IN and OUT, where the words are those of a stream that is worked or tried, or of questions.
pub(crate) fn stream_names(words: &[String]) -> Option<(&str, &str)> {
    match words {
        [verb, input, output] if is_stream_word(verb) || verb.as_str() == ASK => {
            Some((input.as_str(), output.as_str()))
        }
        [verb, option, input, output] if verb.as_str() == ASK && option.as_str() == NUMBERED => {
            Some((input.as_str(), output.as_str()))
        }
        [verb, option, _, input, output] if is_stream_word(verb) && option.as_str() == ISSUER => {
            Some((input.as_str(), output.as_str()))
        }
        _ => None,
    }
}

/// Whether it is the word of a stream.
fn is_stream_word(verb: &String) -> bool {
    verb.as_str() == SCRIPT || verb.as_str() == CHECK
}

/// The names of the decks and the request files, where the words are those of a run.
pub(crate) fn run_names(words: &[String]) -> &[String] {
    match words {
        [verb, option, _, _, names @ ..] if verb.as_str() == RUN && option.as_str() == ISSUER =>
            names,
        [verb, _, names @ ..] if verb.as_str() == RUN => names,
        _ => &[],
    }
}

/// The output of `make`.
pub(crate) fn made_name(words: &[String]) -> Option<&str> {
    match words {
        [verb, _, output] if verb.as_str() == "make" => Some(output.as_str()),
        _ => None,
    }
}

/// Whether the words write a database from its beginning, or a checkpoint: all that is written is watched then.
pub(crate) fn write_checkpoint(words: &[String]) -> bool {
    match words {
        [verb] => verb.as_str() == "init" || verb.as_str() == "compact",
        _ => false,
    }
}

/// The name of the output of a deck or a request file.
pub(crate) fn output_of(alloc: Global, name: &str) -> Result<String, AllocError> {
    let mut output = String::from_str(alloc, name)?;
    output.push_str(OUTPUT)?;
    Ok(output)
}

/// What isn't as the words must be: the first word that is wrong, and what stands there rightly.
pub(crate) fn wrong_word(words: &[String]) -> (Option<&str>, &'static str) {
    let [verb, ..] = words else {
        return (None, "see racf --help");
    };
    if let Some(name) = repeated_name(run_names(words)) {
        return (Some(name), "named twice");
    }
    match word_of(verb.as_str()) {
        Some(word) => (Some(word.name), word.form),
        None => (Some(verb.as_str()), "no word of racf: see racf --help"),
    }
}

/// The first name that stands a second time.
fn repeated_name(names: &[String]) -> Option<&str> {
    for (place, name) in names.iter().enumerate() {
        let before = &names[..place];
        if before.iter().any(|other| name.as_str() == other.as_str()) {
            return Some(name.as_str());
        }
    }
    None
}
