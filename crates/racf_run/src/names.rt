//! The words of a run: who gives the commands, which of the names are decks and which request files, and that each has
//! an output of its own.

ghost use Rattle.std.specs.Prelude.{◌≡◌, true, map, length, IfSome, string_bytes, bytes_eq};
ghost use Rattle.std.specs.Option.{option_map};
ghost use Rattle.racf_run.specs.Opening.{output_name, is_among, are_distinct};
ghost use Rattle.racf_run.specs.Running.{are_apart, are_run_words, run_behind, run_issued, run_words};

use crate::issuers::{fixed_issuer, is_issuer_word};
use crate::opening::OUTPUT;
use request_files::number_word;
use statements::Issuing;

/// The most decks of a run.
const MOST_DECKS: u64 = 4;

/// The most request files of a run.
const MOST_REQUESTS: u64 = 16;

/// What the words of a run ask for.
#[derive(Clone, Copy)]
pub(crate) struct RunWords<'a> {
    /// Who gives the commands of the decks.
    pub(crate) issuing: Issuing,
    /// How many of the names are decks.
    pub(crate) decks: u32,
    /// The names: decks, then request files.
    pub(crate) names: &'a [String],
}

/// The decks and the names that the words name, and who gives the commands, where they are `run K NAME..` or `run
/// --issuer ID K NAME..`.
pub(crate) fn run_words(words: &[String]) -> Option<RunWords<'_>>
    ensures words { option_map (λ asked. record { issuing = asked.issuing; decks = asked.decks; names = map string_bytes asked.names.now }) result ≡ run_words (map string_bytes words.now) }
    ensures form { IfSome result (λ asked. are_run_words asked.decks (map string_bytes asked.names.now) ≡ true) }
{
    let [verb, words @ ..] = words else {
        return None;
    };
    if verb.as_str() == "run" {
        run_issued(words)
    } else {
        None
    }
}

/// What stands behind the verb: with `--issuer ID` in front that user alone gives the commands.
fn run_issued(words: &[String]) -> Option<RunWords<'_>>
    ensures words { option_map (λ asked. record { issuing = asked.issuing; decks = asked.decks; names = map string_bytes asked.names.now }) result ≡ run_issued (map string_bytes words.now) }
    ensures form { IfSome result (λ asked. are_run_words asked.decks (map string_bytes asked.names.now) ≡ true) }
{
    let [word, id, behind @ ..] = words else {
        return run_behind(Issuing::Free, words);
    };
    if is_issuer_word(word.as_str()) {
        run_behind(fixed_issuer(id.as_str())?, behind)
    } else {
        run_behind(Issuing::Free, words)
    }
}

/// The decks and the names of the words `K NAME..`.
fn run_behind(issuing: Issuing, words: &[String]) -> Option<RunWords<'_>>
    ensures words { option_map (λ asked. record { issuing = asked.issuing; decks = asked.decks; names = map string_bytes asked.names.now }) result ≡ run_behind issuing (map string_bytes words.now) }
    ensures form { IfSome result (λ asked. are_run_words asked.decks (map string_bytes asked.names.now) ≡ true) }
{
    let [count, names @ ..] = words else {
        return None;
    };
    let decks = number_word(count.as_bytes())?;
    if !are_run_words(decks, names) {
        return None;
    }
    Some(RunWords {
        issuing,
        decks: decks as u32,
        names,
    })
}

/// Whether so many decks, and the rest of these names, are of the form that a run has.
fn are_run_words(decks: u64, names: &[String]) -> bool
    ensures { result ≡ are_run_words decks (map string_bytes names.now) }
{
    let count = names.len() as u64;
    1 <= decks
        && decks <= MOST_DECKS
        && decks <= count
        && count <= decks + MOST_REQUESTS
        && are_distinct(names)
        && are_apart(names)
}

/// Whether no name stands twice.
fn are_distinct(names: &[String]) -> bool
    ensures { result ≡ are_distinct (map string_bytes names.now) }
{
    let mut rest = names;
    while let [name, behind @ ..] = rest {
        if is_among(name.as_str(), behind) {
            return false;
        }
        rest = behind;
    }
    true
}

/// Whether the name is among these.
fn is_among(name: &str, names: &[String]) -> bool
    ensures { result ≡ is_among name.now (map string_bytes names.now) }
{
    names.iter().any(|other| name == other.as_str())
}

/// Whether none is the output of another.
fn are_apart(names: &[String]) -> bool
    ensures { result ≡ are_apart (map output_name (map string_bytes names.now)) (map string_bytes names.now) }
{
    for name in names {
        if is_output_among(name.as_str(), names) {
            return false;
        }
    }
    true
}

/// Whether the output of this name is among these.
fn is_output_among(name: &str, names: &[String]) -> bool
    ensures { result ≡ is_among (output_name name.now) (map string_bytes names.now) }
{
    names.iter().any(|other| is_output_of(name, other.as_str()))
}

/// Whether this name is that of the output of the other.
fn is_output_of(name: &str, output: &str) -> bool
    ensures { result ≡ bytes_eq (output_name name.now) output.now }
{
    match output.as_bytes().strip_suffix(OUTPUT.as_bytes()) {
        Some(front) => front == name.as_bytes(),
        None => false,
    }
}
