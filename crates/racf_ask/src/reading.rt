//! The lines of the input, read one after another.

ghost use Rattle.std.specs.Prelude.{◌≤◌, ◌^◌};
ghost use Rattle.racf_outside.specs.Lines.{Text};
ghost use Rattle.racf_workers.specs.Lines.{unskipped, IsRead};
ghost use Rattle.racf_ask.specs.Answering.{NextsLine};

use racf_outside::{Line, LineFault, Lines, Source};
use request_files::{LineRefusal, RequestLine, read_line};
use statements::{Stop, is_skipped};

/// What the next line asks for; `None` where it is skipped. It takes no memory.
#[inline(always)]
pub(crate) fn next_line<S: Source>(
    lines: &mut Lines<S>,
) -> Result<Option<Result<RequestLine, LineRefusal>>, Stop>
    ensures nexts { NextsLine result lines.old lines.new }
    ensures faults { lines.old.faults ≤ lines.new.faults }
    ensures limit { lines.new.passed ≤ 2 ^ 28 }
{
    match lines.next() {
        Ok(Line::Text(text)) => Ok(read_unskipped(text)),
        Ok(Line::TooLong) => Ok(Some(Err(LineRefusal::LineTooLong))),
        Ok(Line::End) => Err(Stop::End),
        Err(LineFault::ReadFault) => Err(Stop::ReadFault),
        Err(LineFault::InputTooLong) => Err(Stop::InputTooLong),
    }
}

/// What a line of text asks for, unless it is skipped.
#[inline(always)]
fn read_unskipped(text: &[u8]) -> Option<Result<RequestLine, LineRefusal>>
    ensures { IsRead (unskipped (Text text.now)) result }
{
    if is_skipped(text) {
        return None;
    }
    Some(read_line(text))
}
