//! Lines, joined to statements (z/OS TSO/E Command Language: continuing a command in the next line).

ghost use Rattle.std.specs.Prelude.{◌≡◌, IfOk, None, Option};
ghost use Rattle.std.specs.Option.{option_map};
ghost use Rattle.racf_outside.specs.Lines.{Text};
ghost use Rattle.statements.specs.Fronts.{Front};
ghost use Rattle.statements.specs.Joining.{going_on, added, joined, fresh_role, role_of};

use crate::mark::Mark;
use crate::statement::{Kind, LineText, Statement, is_skipped, stands_alone};
use command_words::{Parting, is_blank};
use std::alloc::{AllocError, Global};
use std::marker::Model;

/// The front of a command that goes on: its text so far, without the mark, and the mark. It is kept whole, however
/// long.
#[derive(Drop)]
pub struct Begun {
    /// The lines so far, joined, without the last mark.
    text: Vec<u8>,
    /// That mark.
    mark: Mark,
}

impl Model for Begun {
    ghost use Rattle.statements.specs.Fronts.{Front};

    ghost Value = { Front };

    ghost view = { λ begun. record { text = begun.text.items; mark = begun.mark } };
}

/// What a line is.
#[derive(Drop)]
pub enum LineRole {
    /// A statement ends with it, or it is skipped.
    Whole(Option<Statement>),
    /// A command goes on behind it.
    GoesOn(Begun),
}

/// What a line of text is behind the front of a command, or anew. Takes memory for a command's text; that of a request
/// goes into `room`.
#[inline(always)]
pub(crate) fn role_of(
    alloc: Global,
    kind: Kind,
    begun: Option<Begun>,
    text: &[u8],
    room: &mut Vec<u8>,
) -> Result<LineRole, AllocError>
    ensures { IfOk result (λ role. role ≡ role_of kind begun (Text text.now)) }
{
    match begun {
        None => fresh_role(alloc, kind, text, room),
        Some(begun) => begun.join(text),
    }
}

/// What a line of text is that begins anew.
#[inline(always)]
fn fresh_role(
    alloc: Global,
    kind: Kind,
    text: &[u8],
    room: &mut Vec<u8>,
) -> Result<LineRole, AllocError>
    ensures { IfOk result (λ role. role ≡ fresh_role kind (Text text.now)) }
{
    if is_skipped(text) {
        return Ok(LineRole::Whole(None));
    }
    if stands_alone(kind, text) {
        return Ok(LineRole::Whole(Some(Statement::request(alloc, text, room)?)));
    }
    joined(Vec::new(alloc), text)
}

/// A command, or the front of one, behind the text before it.
fn joined(before: Vec<u8>, text: &[u8]) -> Result<LineRole, AllocError>
    ensures { IfOk result (λ role. role ≡ joined before.items text.now) }
{
    let mut whole = before;
    match going_on(text) {
        None => {
            whole.extend_from_slice(text)?;
            Ok(LineRole::Whole(Some(Statement::Command(LineText::new(whole)))))
        }
        Some((front, mark)) => {
            whole.extend_from_slice(front)?;
            Ok(LineRole::GoesOn(Begun { text: whole, mark }))
        }
    }
}

impl Begun {
    ghost use Rattle.statements.specs.declared.statement.Statement.TheVariants.{Command};

    /// What a line of text is behind this front.
    fn join(self, text: &[u8]) -> Result<LineRole, AllocError>
        ensures { IfOk result (λ role. role ≡ joined self.text (added self.mark text.now)) }
    {
        let Begun { text: before, mark } = self;
        joined(before, added(mark, text))
    }

    /// The command, where the input ends behind this front.
    pub(crate) fn end(self) -> Statement
        ensures { result ≡ Command self.text }
    {
        let Begun { text, mark: _ } = self;
        Statement::Command(LineText::new(text))
    }
}

/// What a line adds behind a mark.
fn added(mark: Mark, text: &[u8]) -> &[u8]
    ensures { result.now ≡ added mark text.now }
{
    match mark {
        Mark::Hyphen => text,
        Mark::Plus => Parting::Line.past(text),
    }
}

/// What stands before the mark at the end of a line that goes on, and the mark.
fn going_on(text: &[u8]) -> Option<(&[u8], Mark)>
    ensures { option_map (λ found. record { text = found.0.now; mark = found.1 }) result ≡ going_on text.now }
{
    let mut rest = text;
    while let [front @ .., last] = rest {
        if !is_blank(*last) {
            let mark = Mark::of(*last)?;
            return Some((front, mark));
        }
        rest = front;
    }
    None
}
