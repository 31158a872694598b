//! The words of a row.

use access_levels::{Id, Level};
use anyhow::{Result, anyhow};
use decision::Request;
use generic_names::{NameKind, Resource};
use racf_profiles::FixedClass;

/// The first word of a row and the rest, which is empty where there is no other word.
pub(crate) fn parted(row: &str) -> (&str, &str) {
    match row.split_once(' ') {
        Some(parts) => parts,
        None => (row, ""),
    }
}

/// How many times a question is asked.
pub(crate) fn times(word: &str) -> Result<u32> {
    Ok(word.parse::<u32>()?)
}

/// An identifier.
pub(crate) fn id(word: &str) -> Result<Id> {
    Id::read(word.as_bytes()).map_err(|_| anyhow!("no identifier"))
}

/// A level.
pub(crate) fn level(word: &str) -> Result<Level> {
    Level::read(word.as_bytes()).ok_or_else(|| anyhow!("no level"))
}

/// A request for access, with a name of the kind that the class has.
pub(crate) fn request(class: Id, name: &str, asked: Level) -> Result<Request> {
    let kind = if class == FixedClass::Dataset.id() {
        NameKind::DataSet
    } else {
        NameKind::General
    };
    let name = Resource::read(kind, name.as_bytes()).map_err(|_| anyhow!("no name"))?;
    Request::new(class, name, asked).ok_or_else(|| anyhow!("no request"))
}
