//! The line that is printed of a decision.
ghost use Rattle.std.specs.Prelude.{◌≡◌, ◌++◌, OnOk, OnErr, codes};
ghost use Rattle.access_levels.specs.Level.{level_name};
ghost use Rattle.audit_records.specs.Line.{outcome_of, outcome_of_code, outcome_word, spaced, audit_line};
ghost use Rattle.audit_records.specs.Writing.{Keeps};

use acee::Acee;
use decision::{Decision, Request, Rule};
use std::alloc::AllocError;

/// How a decision came out.
#[derive(Clone, Copy, Debug, PartialEq, Eq)]
pub enum Outcome {
    /// The access is allowed.
    Success,
    /// It is refused.
    Failure,
    /// It is not decided.
    Undecided,
    /// It would be refused, and is allowed by a profile that only warns.
    Warning,
}

impl Outcome {
    /// How a decision came out.
    pub fn of(decision: &Decision) -> Outcome
        ensures { result ≡ outcome_of decision.now }
    {
        match decision.rule {
            Rule::Warning => Outcome::Warning,
            _ => Outcome::of_code(decision.rc),
        }
    }

    /// What a return code says of it, but for a warning.
    fn of_code(rc: u8) -> Outcome
        ensures { result ≡ outcome_of_code rc }
    {
        match rc {
            0 => Outcome::Success,
            8 => Outcome::Failure,
            _ => Outcome::Undecided,
        }
    }

    /// The word that is printed for it.
    pub fn word(self) -> &'static [u8]
        ensures { result.now ≡ outcome_word self }
    {
        match self {
            Outcome::Success => b"SUCCESS".as_slice(),
            Outcome::Failure => b"FAILURE".as_slice(),
            Outcome::Undecided => b"UNDECIDED".as_slice(),
            Outcome::Warning => b"WARNING".as_slice(),
        }
    }
}

/// Writes the line of a decision at the end of `out`: AUDIT, how it came out, the user, the class, the name, and the
/// level that was asked, which is not the one that was found. The ACEE and the request are those of the decision. Where
/// memory is short, `out` stays as it was.
pub fn write_line(
    acee: &Acee,
    request: &Request,
    decision: &Decision,
    out: &mut Vec<u8>,
) -> Result<(), AllocError>
    ensures text { OnOk result (out.new.items ≡ out.old.items ++ audit_line decision.now acee.now.user request.now.class request.now.name request.now.asked) }
    ensures kept { OnErr result (out.new.items ≡ out.old.items) }
{
    let length = out.len();
    match write_words(acee, request, decision, out) {
        Ok(()) => Ok(()),
        Err(fault) => {
            out.truncate(length);
            Err(fault)
        }
    }
}

/// The same, where `out` keeps the front of the line when memory is short.
#[tactic(auto, unfolding(crate::specs::Line::audit_line), using(crate::proofs::Keeping::keeps_on))]
fn write_words(
    acee: &Acee,
    request: &Request,
    decision: &Decision,
    out: &mut Vec<u8>,
) -> Result<(), AllocError>
    ensures text { OnOk result (out.new.items ≡ out.old.items ++ audit_line decision.now acee.now.user request.now.class request.now.name request.now.asked) }
    ensures front { Keeps out.old.items out.new.items }
{
    write_outcome(acee, decision, out)?;
    write_asked(request, out)
}

/// Writes how the decision came out, and for whom.
#[tactic(auto, using(crate::proofs::Keeping::keeps_on))]
fn write_outcome(acee: &Acee, decision: &Decision, out: &mut Vec<u8>) -> Result<(), AllocError>
    ensures text { OnOk result (out.new.items ≡ out.old.items ++ (codes "AUDIT" ++ spaced (outcome_word (outcome_of decision.now)) ++ spaced acee.now.user)) }
    ensures front { Keeps out.old.items out.new.items }
{
    out.extend_from_slice(b"AUDIT")?;
    write_word(Outcome::of(decision).word(), out)?;
    write_word(acee.user.text(), out)
}

/// Writes what was asked, and the line's end.
#[tactic(auto, using(crate::proofs::Keeping::keeps_on))]
fn write_asked(request: &Request, out: &mut Vec<u8>) -> Result<(), AllocError>
    ensures text { OnOk result (out.new.items ≡ out.old.items ++ (spaced request.now.class ++ spaced request.now.name.text ++ spaced (level_name request.now.asked) ++ codes "\n")) }
    ensures front { Keeps out.old.items out.new.items }
{
    write_word(request.class.text(), out)?;
    write_word(request.name.text(), out)?;
    write_word(request.asked.name(), out)?;
    out.extend_from_slice(b"\n")
}

/// Writes a blank, and a word.
#[tactic(auto, using(crate::proofs::Keeping::keeps_on))]
fn write_word(word: &[u8], out: &mut Vec<u8>) -> Result<(), AllocError>
    ensures text { OnOk result (out.new.items ≡ out.old.items ++ spaced word.now) }
    ensures front { Keeps out.old.items out.new.items }
{
    out.extend_from_slice(b" ")?;
    out.extend_from_slice(word)
}
