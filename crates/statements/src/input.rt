//! The statements of an input, one after another.

ghost use Rattle.std.specs.Prelude.{◌≡◌, ◌≤◌, ◌^◌, IfOk, OnOk, OnErr, IsTrue};
ghost use Rattle.racf_outside.specs.Causes.{HasCause};
ghost use Rattle.racf_outside.specs.Reader.{has_feed, KeepsSource};
ghost use Rattle.statements.specs.Gathering.{Settles, IsCutShort, IsPrompt};
ghost use Rattle.statements.specs.NextStatement.{NextsStatement};
ghost use Rattle.statements.specs.NextRole.{NextsRole, ReadsRole, ReadsEnd};

use crate::joining::{Begun, LineRole, role_of};
use crate::replies::{Replies, write_before_read};
use crate::statement::{Kind, Statement, is_skipped};
use crate::stopping::Stop;
use racf_outside::{Failed, Line, LineFault, Lines, Sink, Source};
use std::alloc::Global;

/// The next statement; `None` where the next line is skipped. The lines of a command are joined. What is gathered is
/// written before the source is read; where that fails, it stays, and no statement is looked for. The line of a request or of an
/// issuer is copied into `room`, whatever that holds, and takes memory only where it has too little.
#[inline(always)]
pub fn next_statement<S: Source, O: Sink>(
    kind: Kind,
    alloc: Global,
    lines: &mut Lines<S>,
    replies: &mut Replies,
    sink: &mut O,
    room: &mut Vec<u8>,
) -> Result<Result<Option<Statement>, Stop>, Failed>
    ensures item { IfOk result (λ next. NextsStatement kind next lines.old lines.new) }
    ensures faults { lines.old.faults ≤ lines.new.faults }
    ensures limit { OnOk result (lines.new.passed ≤ 2 ^ 28) }
    ensures settled { OnOk result (Settles replies.old replies.new (O.taken sink.old) (O.taken sink.new)) }
    ensures prompt { OnOk result (IsPrompt replies.new lines.old lines.new) }
    ensures kept { OnErr result (replies.new ≡ replies.old) }
    ensures front { OnErr result (IsCutShort replies.old (O.taken sink.old) (O.taken sink.new)) }
    ensures cause { HasCause (O.faults sink.old) (O.faults sink.new) result }
{
    let mut begun = None;
    'line: loop {
        write_before_read(lines, replies, sink)?;
        match next_role(kind, alloc, lines, begun, room) {
            Ok(LineRole::Whole(item)) => return Ok(Ok(item)),
            Ok(LineRole::GoesOn(front)) => begun = Some(front),
            Err(stop) => return Ok(Err(stop)),
        }
    }
}

/// What the next line is behind the front of a command, or anew; at the input's end the command that is begun.
#[inline(always)]
fn next_role<S: Source>(
    kind: Kind,
    alloc: Global,
    lines: &mut Lines<S>,
    begun: Option<Begun>,
    room: &mut Vec<u8>,
) -> Result<LineRole, Stop>
    ensures role { NextsRole kind result begun lines.old lines.new }
    ensures faults { lines.old.faults ≤ lines.new.faults }
    ensures limit { lines.new.passed ≤ 2 ^ 28 }
    ensures held { IsTrue (has_feed lines.old.held) → KeepsSource lines.old lines.new }
{
    match lines.next() {
        Ok(Line::Text(text)) => {
            // It is told here, so that nothing is made of it: most lines of a script may be comments.
            if begun.is_none() && is_skipped(text) {
                return Ok(LineRole::Whole(None));
            }
            read_role(kind, alloc, begun, text, room)
        }
        Ok(Line::TooLong) => Ok(LineRole::Whole(Some(Statement::LineTooLong))),
        Ok(Line::End) => read_end(begun),
        Err(LineFault::ReadFault) => Err(Stop::ReadFault),
        Err(LineFault::InputTooLong) => Err(Stop::InputTooLong),
    }
}

/// What a line of text is.
#[inline(always)]
fn read_role(
    kind: Kind,
    alloc: Global,
    begun: Option<Begun>,
    text: &[u8],
    room: &mut Vec<u8>,
) -> Result<LineRole, Stop>
    ensures { ReadsRole kind result begun text.now }
{
    match role_of(alloc, kind, begun, text, room) {
        Ok(role) => Ok(role),
        Err(_) => Err(Stop::NoMemory),
    }
}

/// What the input's end is.
fn read_end(begun: Option<Begun>) -> Result<LineRole, Stop>
    ensures { ReadsEnd result begun }
{
    match begun {
        Some(begun) => Ok(LineRole::Whole(Some(begun.end()))),
        None => Err(Stop::End),
    }
}
