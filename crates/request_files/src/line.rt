//! What a line asks for, and why it is refused.

ghost use Rattle.std.specs.Prelude.{◌≡◌, IfErr};
ghost use Rattle.request_files.specs.Grammar.{read, IsOfTheLine};
ghost use Rattle.request_files.specs.Seen.{line_read};

use crate::said::said;
use access_levels::Id;
use acee::VerifyRequest;
use command_words::LineWords;
use decision::Request;
use generic_names::NameFault;

/// What a line asks for. The first name in it is that of an ACEE.
#[derive(Drop)]
pub enum RequestLine {
    /// Verify a user, and keep his ACEE under that name.
    Verify(Id, VerifyRequest),
    /// May the user of the ACEE use a resource?
    Auth(Id, Request),
    /// The same, of a class that is RACLISTed.
    Fastauth(Id, Request),
    /// Delete the ACEE.
    Delete(Id),
    /// Go on only when that many commands were accepted.
    After(u64),
    /// Nothing: a blank line, or a comment.
    Skip,
}

/// Why a line is refused. Places are counted from 1.
#[derive(Clone, Copy, Debug, PartialEq, Eq)]
pub enum LineRefusal {
    /// The word at that place doesn't fit, or a word lacks there, behind the line's last byte.
    BadLine(u32),
    /// No ACEE has that name.
    NoAcee(Id),
    /// An ACEE has that name already.
    AceeExists(Id),
    /// There are 256 ACEEs already.
    AceesFull,
    /// What is wrong with the name of the resource, in a line that names that ACEE.
    BadName(Id, NameFault),
    /// The line has more than 4,096 bytes.
    LineTooLong,
}

/// The most bytes of a line.
pub(crate) const LONGEST: usize = 4096;

/// What a line asks for. Words are parted by blanks and tabs, and letters are folded to upper case: `VERIFY a user`,
/// with `GROUP(g)`, `APPL(x)`, `SECLABEL(l)` and one of `TERMINAL(t)`, `CONSOLE(c)`, `JESINPUT(j)` and `APPCPORT(p)` in
/// any order; `AUTH a class name level`; `FASTAUTH a class name level`; `DELETE a`; `*AFTER n`. A blank line and one
/// that begins with `/*` are skipped (this product's own grammar). It takes no memory.
///
/// # Errors
///
/// The first that fits of: `LineTooLong`, for more than 4,096 bytes; `BadLine`, with the place of the first word that
/// doesn't fit, or the one behind the line where a word lacks; and `BadName`, where the words fit.
#[tactic(auto, unfolding(crate::specs::Grammar::read))]
pub fn read_line(line: &[u8]) -> Result<RequestLine, LineRefusal>
    ensures line { line_read result ≡ read line.now }
    ensures refusals { IfErr result IsOfTheLine }
{
    if line.len() > LONGEST {
        return Err(LineRefusal::LineTooLong);
    }
    if line.starts_with(b"/*") {
        return Ok(RequestLine::Skip);
    }
    match said(&LineWords::of(line)) {
        Ok(said) => said.read(),
        Err(place) => Err(LineRefusal::BadLine(place)),
    }
}
