//! What the lines of a stream ask for.

ghost use Rattle.std.specs.Prelude.{◌≡◌, IfOk};
ghost use Rattle.std.specs.List.{list_all};
ghost use Rattle.command_words.specs.Bytes.{is_blank_byte};
ghost use Rattle.statements.specs.Statements.{is_skipped, is_request, is_issuer, stands_alone};

use command_words::{Parting, is_blank, is_spelled};
use std::alloc::{AllocError, Global};
use std::marker::Model;
use std::mem;

/// What the lines of an input are.
#[derive(Clone, Copy)]
pub enum Kind {
    /// Those of a stream: commands, requests and issuers.
    Stream,
    /// Those of a deck: commands and issuers.
    Deck,
}

/// What a line says: the text of a command, its lines joined, or the line of a request as it stands.
#[derive(Drop)]
pub struct LineText {
    /// Its bytes.
    bytes: Vec<u8>,
}

impl Model for LineText {
    ghost use Rattle.std.specs.Prelude.{List, ℕ};

    ghost Value = { List ℕ };

    ghost view = { λ text. text.bytes.items };
}

/// What a stream asks for at once: a command, whose lines are joined, or a request or an issuer, which is one line.
#[derive(Drop)]
pub enum Statement {
    /// A command (z/OS Security Server RACF Command Language Reference).
    Command(LineText),
    /// A line that names who gives the commands behind it (this product's own).
    Issuer(LineText),
    /// A request (RACROUTE Macro Reference: VERIFY, AUTH, FASTAUTH), or `DELETE` or `*AFTER` (this product's own).
    Request(LineText),
    /// A line of more than 4,096 bytes, and with it the command that it was to go on with.
    LineTooLong,
}

impl LineText {
    ghost use Rattle.std.specs.Prelude.{◌≡◌};

    /// The text that these bytes are.
    pub(crate) fn new(bytes: Vec<u8>) -> LineText
        ensures { result ≡ bytes.items }
    {
        LineText { bytes }
    }

    /// These bytes, copied into `room`, which is left without memory. Whatever that held is gone.
    #[inline(always)]
    fn copied(alloc: Global, text: &[u8], room: &mut Vec<u8>) -> Result<LineText, AllocError>
        ensures { IfOk result (λ line. line ≡ text.now) }
    {
        let mut bytes = mem::replace(room, Vec::new(alloc));
        bytes.clear();
        bytes.extend_from_slice(text)?;
        Ok(LineText::new(bytes))
    }

    /// Its bytes.
    pub fn as_slice(&self) -> &[u8]
        ensures { result.now ≡ self.now }
    {
        self.bytes.as_slice()
    }
}

impl Statement {
    ghost use Rattle.statements.specs.Statements.{request_of};

    /// What the line of a request or of an issuer asks for. Its text is copied into `room`.
    #[inline(always)]
    #[tactic(auto, unfolding(crate::specs::Statements::request_of))]
    pub(crate) fn request(
        alloc: Global,
        text: &[u8],
        room: &mut Vec<u8>,
    ) -> Result<Statement, AllocError>
        ensures { IfOk result (λ item. item ≡ request_of text.now) }
    {
        let line = LineText::copied(alloc, text, room)?;
        if is_issuer(text) {
            return Ok(Statement::Issuer(line));
        }
        Ok(Statement::Request(line))
    }

    /// The memory of its text, for that of a later one.
    #[inline(always)]
    pub fn into_room(self, alloc: Global) -> Vec<u8> {
        match self {
            Statement::Command(line) | Statement::Issuer(line) | Statement::Request(line) => {
                line.bytes
            }
            Statement::LineTooLong => Vec::new(alloc),
        }
    }
}

/// A line of blanks and tabs alone, or a comment, which `/*` begins.
#[inline(always)]
pub fn is_skipped(text: &[u8]) -> bool
    ensures { result ≡ is_skipped text.now }
{
    is_blank_line(text) || text.starts_with(b"/*")
}

/// A line of blanks and tabs alone.
#[inline(always)]
fn is_blank_line(text: &[u8]) -> bool
    ensures { result ≡ list_all is_blank_byte text.now }
{
    text.iter().all(|byte| is_blank(*byte))
}

/// A line that is a statement by itself, and never goes on in the next line.
#[inline(always)]
pub(crate) fn stands_alone(kind: Kind, text: &[u8]) -> bool
    ensures { result ≡ stands_alone kind text.now }
{
    match kind {
        Kind::Stream => is_request(text),
        Kind::Deck => is_issuer(text),
    }
}

/// The line of a request or of the issuer: its first word, folded to upper case, says so.
#[inline(always)]
#[tactic(auto, unfolding(crate::specs::Statements::is_request))]
fn is_request(text: &[u8]) -> bool
    ensures { result ≡ is_request text.now }
{
    let word = Parting::Line.first_word(text);
    is_spelled(word, b"VERIFY")
        || is_spelled(word, b"AUTH")
        || is_spelled(word, b"FASTAUTH")
        || is_spelled(word, b"DELETE")
        || is_spelled(word, b"*AFTER")
        || is_spelled(word, b"*ISSUER")
}

/// The line that names the issuer.
#[inline(always)]
fn is_issuer(text: &[u8]) -> bool
    ensures { result ≡ is_issuer text.now }
{
    is_spelled(Parting::Line.first_word(text), b"*ISSUER")
}
