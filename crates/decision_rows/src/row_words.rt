//! The words of rows, and the words that are printed.

use access_levels::{Condition, Id, Level};
use anyhow::{Result, anyhow};
use decision::Request;
use generic_names::Resource;
use racf_profiles::kind_in;
use std::alloc::{AllocError, Global};
use std::str;

/// What is printed where there is nothing.
pub(crate) const NOTHING: &str = "-";

/// The first word of a row and the rest, which is empty where there is no other word.
pub(crate) fn parted(row: &str) -> (&str, &str) {
    row.split_once(' ').unwrap_or((row, ""))
}

/// The identifier that a word spells.
pub(crate) fn id(word: &str) -> Result<Id> {
    match Id::read(word.as_bytes()) {
        Ok(id) => Ok(id),
        Err(_) => Err(anyhow!("no identifier: {word}")),
    }
}

/// A request to read a resource, by its class and its name, which is of the kind that the class has.
pub(crate) fn request_to_read(row: &str) -> Result<Request> {
    let (class, name) = parted(row);
    let class = id(class)?;
    let Ok(name) = Resource::read(kind_in(class), name.as_bytes()) else {
        return Err(anyhow!("no name: {row}"));
    };
    match Request::new(class, name, Level::Read) {
        Some(request) => Ok(request),
        None => Err(anyhow!("no request: {row}")),
    }
}

/// The text of a name.
pub(crate) fn text(bytes: &[u8]) -> &str {
    str::from_utf8(bytes).unwrap_or("?")
}

/// The text of an identifier, if there is one.
pub(crate) fn id_text(id: &Option<Id>) -> &str {
    match id {
        Some(id) => text(id.text()),
        None => NOTHING,
    }
}

/// A port of entry, as a request names it.
pub(crate) fn port_text(alloc: Global, port: &Condition) -> Result<String, AllocError> {
    format!(in alloc; "{}({})", text(port.class.name()), text(port.name.text()))
}

/// Writes a word behind the others, parted by a comma.
pub(crate) fn add_word(words: &mut String, word: &str) -> Result<(), AllocError> {
    if !words.is_empty() {
        words.push(',')?;
    }
    words.push_str(word)
}

/// The words as they are printed.
pub(crate) fn shown(words: &String) -> &str {
    if words.is_empty() {
        NOTHING
    } else {
        words.as_str()
    }
}
