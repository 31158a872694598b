//! What the words of a line say. The name of a resource isn't read yet: it is long, and would be moved with all that is
//! read behind it.

ghost use Rattle.std.specs.Prelude.{◌≡◌, IfErr};
ghost use Rattle.request_files.specs.Grammar.{request_by, requested, IsOfTheLine};
ghost use Rattle.request_files.specs.Spellings.{folded};
ghost use Rattle.request_files.specs.Seen.{line_read, line_said, said_line};

use crate::asked::Asked;
use crate::line::{LineRefusal, RequestLine};
use crate::reading::{Verified, asked_by, deleted, number_after, verified_by};
use access_levels::Id;
use command_words::{LineWord, LineWords, is_spelled};

/// What the words of a line say, by its first one.
#[derive(Clone, Copy)]
pub(crate) enum SaidLine<'a> {
    /// Verify a user, and keep his ACEE.
    Verify(Verified),
    /// May the user of an ACEE use a resource?
    Auth(Asked<'a>),
    /// The same, of a class that is RACLISTed.
    Fastauth(Asked<'a>),
    /// Delete the ACEE of that name.
    Delete(Id),
    /// Go on only when that many commands were accepted.
    After(u64),
    /// Nothing.
    Skip,
}

impl SaidLine<'_> {
    /// What the line asks for, once the name of the resource is read.
    pub(crate) fn read(&self) -> Result<RequestLine, LineRefusal>
        ensures line { line_read result ≡ said_line self.now }
        ensures refusals { IfErr result IsOfTheLine }
    {
        match self {
            SaidLine::Verify(verified) => Ok(RequestLine::Verify(verified.acee, verified.request)),
            SaidLine::Auth(asked) => Ok(RequestLine::Auth(asked.acee, asked.request()?)),
            SaidLine::Fastauth(asked) => Ok(RequestLine::Fastauth(asked.acee, asked.request()?)),
            SaidLine::Delete(acee) => Ok(RequestLine::Delete(*acee)),
            SaidLine::After(number) => Ok(RequestLine::After(*number)),
            SaidLine::Skip => Ok(RequestLine::Skip),
        }
    }
}

/// What the words of a line say; or the place of the first one that doesn't fit.
#[inline(always)]
#[tactic(auto, unfolding(crate::specs::Grammar::requested))]
pub(crate) fn said<'a>(words: &LineWords<'a>) -> Result<SaidLine<'a>, u32>
    ensures { line_said result ≡ requested words.now }
{
    match words.split_first() {
        Some((verb, rest)) => said_by(verb, &rest),
        None => Ok(SaidLine::Skip),
    }
}

/// What the words behind the first one say.
#[inline(always)]
fn said_by<'a>(verb: LineWord<'a>, words: &LineWords<'a>) -> Result<SaidLine<'a>, u32>
    ensures { line_said result ≡ request_by (folded verb.entry.text.now) verb.entry.place words.now }
{
    if is_spelled(verb.text, b"VERIFY") {
        return Ok(SaidLine::Verify(verified_by(words)?));
    }
    if is_spelled(verb.text, b"AUTH") {
        return match asked_by(words) {
            Ok(asked) => Ok(SaidLine::Auth(asked)),
            Err(place) => Err(place),
        };
    }
    if is_spelled(verb.text, b"FASTAUTH") {
        return match asked_by(words) {
            Ok(asked) => Ok(SaidLine::Fastauth(asked)),
            Err(place) => Err(place),
        };
    }
    if is_spelled(verb.text, b"DELETE") {
        return Ok(SaidLine::Delete(deleted(words)?));
    }
    if is_spelled(verb.text, b"*AFTER") {
        return Ok(SaidLine::After(number_after(words)?));
    }
    Err(verb.place)
}
