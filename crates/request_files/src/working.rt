//! The working of lines.

ghost use Rattle.std.specs.Prelude.{◌≡◌, ◌++◌, [], true, false, not, nat_le, None, IfOk, OnErr, OnOk, if◌then◌else◌};
ghost use Rattle.raclist_image.specs.Imaged.{Imaged};
ghost use Rattle.decision.specs.Verify.{verified};
ghost use Rattle.request_files.specs.Acees.{acee_named, put_refusal, with_acee};
ghost use Rattle.request_files.specs.Answers.{numbered, refused_words, verified_words, never_line, answer_line};
ghost use Rattle.request_files.specs.Grammar.{line_of, access_of};
ghost use Rattle.request_files.specs.Seen.{line_read};
ghost use Rattle.request_files.specs.Worked.{Shows, Untouched, worked, line_worked, told, verify_worked, verify_told, audited, decision_text, answer_for, auth_for, fastauth_for, delete_for};

use crate::acees::AceeTable;
use crate::answers::{answer_text, verify_fault_words, write_line, write_never, write_refused};
use crate::line::{LineRefusal, RequestLine};
use access_levels::Id;
use acee::{Acee, VerifyFault, VerifyRequest};
use audit_records::{logged, write_line as write_audit_line};
use decision::{Decision, Request, auth, fastauth, verify};
use raclist_image::Image;
use std::alloc::{AllocError, Global};

/// Answers a line that was read: writes its text at the end of `out`, and tells whether it was refused. VERIFY verifies
/// a user and puts his ACEE, AUTH and FASTAUTH decide on the image, with an AUDIT line behind the answer where the
/// decision is logged, DELETE takes an ACEE out, and `*AFTER` prints only where its number isn't reached.
///
/// # Errors
///
/// `AllocError` alone, after which `acees` and `out` are as they were.
pub fn respond(
    alloc: Global,
    line: &Result<RequestLine, LineRefusal>,
    image: &Image,
    acees: &mut AceeTable,
    out: &mut Vec<u8>,
) -> Result<bool, AllocError>
    ensures worked { IfOk result (Shows (worked image.now acees.old (line_read line.now)) out.old.items out.new.items acees.new) }
    ensures kept { OnErr result (Untouched out.old.items out.new.items acees.old acees.new) }
{
    match line {
        Ok(line) => respond_to_line(alloc, line, image, acees, out),
        Err(refusal) => {
            let refusal = told(refusal, acees);
            refuse(&refusal, image.generation(), out)
        }
    }
}

/// Why a line is refused: a fault of a name is told only where the ACEE is there.
fn told(refusal: &LineRefusal, acees: &AceeTable) -> LineRefusal
    ensures { result ≡ told acees.now refusal.now }
{
    match refusal {
        LineRefusal::BadName(acee, _) => {
            if acees.get(*acee).is_some() {
                *refusal
            } else {
                LineRefusal::NoAcee(*acee)
            }
        }
        _ => *refusal,
    }
}

/// Works what a line asks for.
fn respond_to_line(
    alloc: Global,
    line: &RequestLine,
    image: &Image,
    acees: &mut AceeTable,
    out: &mut Vec<u8>,
) -> Result<bool, AllocError>
    ensures worked { IfOk result (Shows (line_worked image.now acees.old (line_of line.now)) out.old.items out.new.items acees.new) }
    ensures kept { OnErr result (Untouched out.old.items out.new.items acees.old acees.new) }
{
    match line {
        RequestLine::Verify(name, request) => respond_to_verify(
            alloc, *name, request, image, acees, out,
        ),
        RequestLine::Auth(name, request) => respond_to_auth(*name, request, image, acees, out),
        RequestLine::Fastauth(name, request) => respond_to_fastauth(
            *name, request, image, acees, out,
        ),
        RequestLine::Delete(name) => respond_to_delete(*name, image.generation(), acees, out),
        RequestLine::After(number) => respond_to_after(*number, image.generation(), out),
        RequestLine::Skip => Ok(false),
    }
}

/// VERIFY. It asks whether an ACEE can be put before it verifies.
fn respond_to_verify(
    alloc: Global,
    name: Id,
    request: &VerifyRequest,
    image: &Image,
    acees: &mut AceeTable,
    out: &mut Vec<u8>,
) -> Result<bool, AllocError>
    ensures worked { IfOk result (Shows (verify_worked image.now acees.old name request.now) out.old.items out.new.items acees.new) }
    ensures kept { OnErr result (Untouched out.old.items out.new.items acees.old acees.new) }
{
    match acees.refusal(name) {
        Some(refusal) => refuse(&refusal, image.generation(), out),
        None => respond_for_user(alloc, name, request, image, acees, out),
    }
}

/// VERIFY where an ACEE can be put.
fn respond_for_user(
    alloc: Global,
    name: Id,
    request: &VerifyRequest,
    image: &Image,
    acees: &mut AceeTable,
    out: &mut Vec<u8>,
) -> Result<bool, AllocError>
    requires { put_refusal name acees.old ≡ None }
    ensures worked { IfOk result (Shows (verify_told image.now acees.old name (verified image.now.state image.now.generation request.now)) out.old.items out.new.items acees.new) }
    ensures kept { OnErr result (Untouched out.old.items out.new.items acees.old acees.new) }
{
    match verify(alloc, image, request) {
        Ok(acee) => put(name, acee, image.generation(), acees, out),
        Err(VerifyFault::NoMemory) => Err(AllocError),
        Err(fault) => answer(verify_fault_words(fault), image.generation(), out),
    }
}

/// Puts an ACEE, and says so.
fn put(
    name: Id,
    acee: Acee,
    number: u64,
    acees: &mut AceeTable,
    out: &mut Vec<u8>,
) -> Result<bool, AllocError>
    requires { put_refusal name acees.old ≡ None }
    ensures refused { IfOk result (λ refused. refused ≡ false) }
    ensures text { OnOk result (out.new.items ≡ out.old.items ++ numbered number verified_words) }
    ensures acees { OnOk result (acees.new ≡ with_acee name acee acees.old) }
    ensures kept { OnErr result (Untouched out.old.items out.new.items acees.old acees.new) }
{
    write_line(number, b"0 VERIFIED", out)?;
    match acees.put(name, acee) {
        Ok(()) => Ok(false),
        Err(_) => unreachable!(),
    }
}

/// AUTH.
fn respond_to_auth(
    name: Id,
    request: &Request,
    image: &Image,
    acees: &AceeTable,
    out: &mut Vec<u8>,
) -> Result<bool, AllocError>
    ensures worked { IfOk result (Shows (answer_for image.now acees.now name (auth_for image.now acees.now (access_of request.now)) (acee_named name acees.now)) out.old.items out.new.items acees.now) }
    ensures kept { OnErr result (out.new.items ≡ out.old.items) }
{
    let Some(acee) = acees.get(name) else {
        return refuse(&LineRefusal::NoAcee(name), image.generation(), out);
    };
    let decision = auth(image, acee, request);
    answer_decision(image, acee, request, false, &decision, out)
}

/// FASTAUTH.
fn respond_to_fastauth(
    name: Id,
    request: &Request,
    image: &Image,
    acees: &AceeTable,
    out: &mut Vec<u8>,
) -> Result<bool, AllocError>
    ensures worked { IfOk result (Shows (answer_for image.now acees.now name (fastauth_for image.now acees.now (access_of request.now)) (acee_named name acees.now)) out.old.items out.new.items acees.now) }
    ensures kept { OnErr result (out.new.items ≡ out.old.items) }
{
    let Some(acee) = acees.get(name) else {
        return refuse(&LineRefusal::NoAcee(name), image.generation(), out);
    };
    let decision = fastauth(image, acee, request);
    answer_decision(image, acee, request, true, &decision, out)
}

/// Answers a line with a decision on the image, for this ACEE and this request, and with its AUDIT line.
fn answer_decision(
    image: &Image,
    acee: &Acee,
    request: &Request,
    fast: bool,
    decision: &Decision,
    out: &mut Vec<u8>,
) -> Result<bool, AllocError>
    ensures refused { IfOk result (λ refused. refused ≡ false) }
    ensures text { OnOk result (out.new.items ≡ out.old.items ++ decision_text image.now fast (access_of request.now) acee.now decision.now) }
    ensures kept { OnErr result (out.new.items ≡ out.old.items) }
{
    let length = out.len();
    answer_text(image.generation(), decision, image, request.class, out)?;
    match audit(image, acee, request, fast, decision, out) {
        Ok(()) => Ok(false),
        Err(fault) => {
            out.truncate(length);
            Err(fault)
        }
    }
}

/// Writes the AUDIT line of a decision, where it is logged.
#[tactic(auto, unfolding(crate::specs::Worked::audited))]
fn audit(
    image: &Image,
    acee: &Acee,
    request: &Request,
    fast: bool,
    decision: &Decision,
    out: &mut Vec<u8>,
) -> Result<(), AllocError>
    ensures text { OnOk result (out.new.items ≡ out.old.items ++ audited image.now fast (access_of request.now) acee.now decision.now) }
    ensures kept { OnErr result (out.new.items ≡ out.old.items) }
{
    if !logged(image, acee, request, fast, decision) {
        return Ok(());
    }
    write_audit_line(acee, request, decision, out)
}

/// DELETE.
fn respond_to_delete(
    name: Id,
    number: u64,
    acees: &mut AceeTable,
    out: &mut Vec<u8>,
) -> Result<bool, AllocError>
    ensures worked { (image : Imaged) → image.generation ≡ number → IfOk result (Shows (delete_for image acees.old name (acee_named name acees.old)) out.old.items out.new.items acees.new) }
    ensures kept { OnErr result (Untouched out.old.items out.new.items acees.old acees.new) }
{
    if acees.get(name).is_none() {
        return refuse(&LineRefusal::NoAcee(name), number, out);
    }
    write_line(number, b"0 DELETED", out)?;
    acees.remove(name);
    Ok(false)
}

/// `*AFTER`, on an image of that number.
fn respond_to_after(wanted: u64, number: u64, out: &mut Vec<u8>) -> Result<bool, AllocError>
    ensures refused { IfOk result (λ refused. refused ≡ not (nat_le wanted number)) }
    ensures text { OnOk result (out.new.items ≡ out.old.items ++ (if nat_le wanted number then [] else never_line number)) }
    ensures kept { OnErr result (out.new.items ≡ out.old.items) }
{
    if wanted <= number {
        return Ok(false);
    }
    write_never(number, out)?;
    Ok(true)
}

/// Answers a line with words.
fn answer(words: &[u8], number: u64, out: &mut Vec<u8>) -> Result<bool, AllocError>
    ensures refused { IfOk result (λ refused. refused ≡ false) }
    ensures text { OnOk result (out.new.items ≡ out.old.items ++ numbered number words.now) }
    ensures kept { OnErr result (out.new.items ≡ out.old.items) }
{
    write_line(number, words, out)?;
    Ok(false)
}

/// Refuses a line.
fn refuse(refusal: &LineRefusal, number: u64, out: &mut Vec<u8>) -> Result<bool, AllocError>
    ensures refused { IfOk result (λ refused. refused ≡ true) }
    ensures text { OnOk result (out.new.items ≡ out.old.items ++ numbered number (refused_words refusal.now)) }
    ensures kept { OnErr result (out.new.items ≡ out.old.items) }
{
    let mut words = Vec::new(*out.allocator());
    write_refused(refusal, &mut words)?;
    write_line(number, words.as_slice(), out)?;
    Ok(true)
}
