//! The line that names the issuer of the commands behind it.

ghost use Rattle.std.specs.Prelude.{◌≡◌};
ghost use Rattle.request_files.specs.IssuerLines.{group_word as group_in_word, with_group as group_behind, issuer_by as issuer_in, issuer_behind, issuer_of_line};

use crate::line::{LONGEST, LineRefusal};
use crate::next_words::{ended, next_id};
use crate::operands::{Operand, operand_word};
use access_levels::Id;
use command_words::LineWords;

/// Who gives the commands that follow, and the group that is to be current for him: his default group, where none is
/// named.
#[derive(Clone, Copy, Debug, PartialEq, Eq)]
pub struct NamedIssuer {
    pub id: Id,
    pub group: Option<Id>,
}

/// Who is named by a line whose first word is `*ISSUER`: `*ISSUER id [GROUP(g)]` (this product's own grammar). Words
/// are parted by blanks and tabs, and letters are folded to upper case; `GROUP(g)` is one word. Whether there is such a
/// user or group isn't asked. It takes no memory.
///
/// # Errors
///
/// `LineTooLong`, for more than 4,096 bytes, or `BadLine` with the place of the first word that doesn't fit, or the one
/// behind the line where a word lacks.
#[tactic(auto, unfolding(crate::specs::IssuerLines::issuer_of_line))]
pub fn read_issuer(line: &[u8]) -> Result<NamedIssuer, LineRefusal>
    ensures { result ≡ issuer_of_line line.now }
{
    if line.len() > LONGEST {
        return Err(LineRefusal::LineTooLong);
    }
    match issuer_behind(&LineWords::of(line)) {
        Ok(issuer) => Ok(issuer),
        Err(place) => Err(LineRefusal::BadLine(place)),
    }
}

/// The issuer that the words behind the first one name.
fn issuer_behind(words: &LineWords) -> Result<NamedIssuer, u32>
    ensures { result ≡ issuer_behind words.now.words words.now.end }
{
    match words.split_first() {
        Some((_, rest)) => issuer_by(&rest),
        None => Err(words.end()),
    }
}

/// The issuer that these words name.
#[tactic(auto, unfolding(crate::specs::IssuerLines::issuer_by))]
fn issuer_by(words: &LineWords) -> Result<NamedIssuer, u32>
    ensures { result ≡ issuer_in words.now }
{
    let (id, rest) = next_id(words)?;
    with_group(id, &rest)
}

/// The issuer with the group that the words behind him name, if there are any.
fn with_group(id: Id, words: &LineWords) -> Result<NamedIssuer, u32>
    ensures { result ≡ group_behind id words.now.words }
{
    let Some((word, rest)) = words.split_first() else {
        return Ok(NamedIssuer { id, group: None });
    };
    match group_word(word.text) {
        Some(group) => {
            let group = Some(group);
            ended(&rest, NamedIssuer { id, group })
        }
        None => Err(word.place),
    }
}

/// The group that the word `GROUP(g)` names.
fn group_word(word: &[u8]) -> Option<Id>
    ensures { result ≡ group_in_word word.now }
{
    match operand_word(word)? {
        Operand::Group(group) => Some(group),
        Operand::Port(_) | Operand::Application(_) | Operand::Label(_) => None,
    }
}
