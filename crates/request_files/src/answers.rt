//! The words that are printed for lines.

ghost use Rattle.std.specs.Prelude.{◌≡◌, ◌++◌, OnOk, OnErr, codes, decimal};
ghost use Rattle.access_levels.specs.Level.{level_name};
ghost use Rattle.audit_records.specs.Writing.{Keeps};
ghost use Rattle.request_files.specs.Answers.{name_fault_words, refusal_words, verify_fault_words, profile_words, found_words, port_words, category_name, classified_words, member_words, rule_words, decision_words, answer_line, never_line, numbered, refused_words};

use crate::line::LineRefusal;
use access_levels::{Condition, Id, Level};
use acee::VerifyFault;
use decision::{Decision, Rule};
use generic_names::{NameFault, Pattern};
use itoa::Buffer;
use racf_profiles::{Member, Options};
use raclist_image::Image;
use seclabels::Classified;
use std::alloc::AllocError;

/// Writes the answer to AUTH or FASTAUTH at the end of `out`: the number, the return code, the rule that decided, and
/// for most rules the profile and the level that was found. The image and the class are those of the decision: a
/// category and a member of the class's global access table are named as the image has them. Where memory is short,
/// `out` stays as it was.
pub fn answer_text(
    number: u64,
    decision: &Decision,
    image: &Image,
    class: Id,
    out: &mut Vec<u8>,
) -> Result<(), AllocError>
    ensures text { OnOk result (out.new.items ≡ out.old.items ++ answer_line number image.now.state.rows class decision.now) }
    ensures kept { OnErr result (out.new.items ≡ out.old.items) }
{
    let length = out.len();
    match write_answer(number, decision, image, class, out) {
        Ok(()) => Ok(()),
        Err(fault) => {
            out.truncate(length);
            Err(fault)
        }
    }
}

/// The same, where `out` may keep the front of the answer when memory is short.
#[tactic(auto, unfolding(crate::specs::Answers::answer_line), using(audit_records::proofs::Keeping::keeps_on))]
fn write_answer(
    number: u64,
    decision: &Decision,
    image: &Image,
    class: Id,
    out: &mut Vec<u8>,
) -> Result<(), AllocError>
    ensures text { OnOk result (out.new.items ≡ out.old.items ++ answer_line number image.now.state.rows class decision.now) }
    ensures front { Keeps out.old.items out.new.items }
{
    write_front(number, out)?;
    write_decision(decision, image, class, out)?;
    out.extend_from_slice(b"\n")
}

/// Writes a line: the number, a blank, and the words. Where memory is short, `out` stays as it was.
pub(crate) fn write_line(number: u64, words: &[u8], out: &mut Vec<u8>) -> Result<(), AllocError>
    ensures text { OnOk result (out.new.items ≡ out.old.items ++ numbered number words.now) }
    ensures kept { OnErr result (out.new.items ≡ out.old.items) }
{
    let length = out.len();
    match write_numbered(number, words, out) {
        Ok(()) => Ok(()),
        Err(fault) => {
            out.truncate(length);
            Err(fault)
        }
    }
}

/// The same, where `out` may keep the front of the line when memory is short.
#[tactic(auto, using(audit_records::proofs::Keeping::keeps_on))]
fn write_numbered(number: u64, words: &[u8], out: &mut Vec<u8>) -> Result<(), AllocError>
    ensures text { OnOk result (out.new.items ≡ out.old.items ++ numbered number words.now) }
    ensures front { Keeps out.old.items out.new.items }
{
    write_front(number, out)?;
    out.extend_from_slice(words)?;
    out.extend_from_slice(b"\n")
}

/// Writes a number, and a blank behind it.
#[inline(always)]
#[tactic(auto, using(audit_records::proofs::Keeping::keeps_on))]
fn write_front(number: u64, out: &mut Vec<u8>) -> Result<(), AllocError>
    ensures text { OnOk result (out.new.items ≡ out.old.items ++ (decimal number ++ codes " ")) }
    ensures front { Keeps out.old.items out.new.items }
{
    write_number(number, out)?;
    out.extend_from_slice(b" ")
}

/// Writes that the number which `*AFTER` asks for never comes. Where memory is short, `out` stays as it was.
pub(crate) fn write_never(number: u64, out: &mut Vec<u8>) -> Result<(), AllocError>
    ensures text { OnOk result (out.new.items ≡ out.old.items ++ never_line number) }
    ensures kept { OnErr result (out.new.items ≡ out.old.items) }
{
    let mut line = Vec::new(*out.allocator());
    line.extend_from_slice(b"NEVER ")?;
    write_number(number, &mut line)?;
    line.extend_from_slice(b"\n")?;
    out.extend_from_slice(line.as_slice())
}

/// Writes a number in decimal.
#[inline(always)]
#[tactic(auto, using(audit_records::proofs::Keeping::keeps_on))]
fn write_number(number: u64, out: &mut Vec<u8>) -> Result<(), AllocError>
    ensures text { OnOk result (out.new.items ≡ out.old.items ++ decimal number) }
    ensures front { Keeps out.old.items out.new.items }
{
    let mut digits = Buffer::new();
    out.extend_from_slice(digits.format(number).as_bytes())
}

/// Writes that a line is refused, and why.
pub(crate) fn write_refused(refusal: &LineRefusal, out: &mut Vec<u8>) -> Result<(), AllocError>
    ensures { OnOk result (out.new.items ≡ out.old.items ++ refused_words refusal.now) }
{
    out.extend_from_slice(b"REFUSED ")?;
    write_refusal(refusal, out)
}

/// Writes why a line is refused.
fn write_refusal(refusal: &LineRefusal, out: &mut Vec<u8>) -> Result<(), AllocError>
    ensures { OnOk result (out.new.items ≡ out.old.items ++ refusal_words refusal.now) }
{
    match refusal {
        LineRefusal::BadLine(place) => write_counted(b"BADLINE ", *place, out),
        LineRefusal::NoAcee(acee) => write_named(b"NOACEE ", acee, out),
        LineRefusal::AceeExists(acee) => write_named(b"ACEEEXISTS ", acee, out),
        LineRefusal::AceesFull => out.extend_from_slice(b"ACEESFULL"),
        LineRefusal::BadName(_, fault) => {
            out.extend_from_slice(b"BADNAME ")?;
            write_name_fault(fault, out)
        }
        LineRefusal::LineTooLong => out.extend_from_slice(b"LINETOOLONG"),
    }
}

/// Writes what is wrong with a name.
fn write_name_fault(fault: &NameFault, out: &mut Vec<u8>) -> Result<(), AllocError>
    ensures { OnOk result (out.new.items ≡ out.old.items ++ name_fault_words fault.now) }
{
    match fault {
        NameFault::Empty => out.extend_from_slice(b"EMPTY"),
        NameFault::TooLong => out.extend_from_slice(b"TOOLONG"),
        NameFault::EmptyQualifier(number) => write_counted(b"EMPTYQUALIFIER ", *number, out),
        NameFault::QualifierTooLong(number) => write_counted(b"QUALIFIERTOOLONG ", *number, out),
        NameFault::BadByte(place) => write_counted(b"BADBYTE ", *place, out),
        NameFault::StarInside(place) => write_counted(b"STARINSIDE ", *place, out),
        NameFault::GenericFirst => out.extend_from_slice(b"GENERICFIRST"),
    }
}

/// Writes words and a number behind them.
fn write_counted(words: &[u8], number: u32, out: &mut Vec<u8>) -> Result<(), AllocError>
    ensures { OnOk result (out.new.items ≡ out.old.items ++ (words.now ++ decimal number)) }
{
    out.extend_from_slice(words)?;
    write_number(u64::from(number), out)
}

/// Writes words and an ID behind them.
fn write_named(words: &[u8], id: &Id, out: &mut Vec<u8>) -> Result<(), AllocError>
    ensures { OnOk result (out.new.items ≡ out.old.items ++ (words.now ++ id.now)) }
{
    out.extend_from_slice(words)?;
    out.extend_from_slice(id.text())
}

/// The return code of a VERIFY that fails, and its word; none for want of memory.
pub(crate) fn verify_fault_words(fault: VerifyFault) -> &'static [u8]
    ensures { result.now ≡ verify_fault_words fault }
{
    match fault {
        VerifyFault::NotDefined => b"4 NOTDEFINED".as_slice(),
        VerifyFault::NotConnected => b"20 NOTCONNECTED".as_slice(),
        VerifyFault::Revoked => b"28 REVOKED".as_slice(),
        VerifyFault::ConnectRevoked => b"36 CONNECTREVOKED".as_slice(),
        VerifyFault::Port => b"48 PORT".as_slice(),
        VerifyFault::Application => b"52 APPL".as_slice(),
        VerifyFault::Label => b"56 LABEL".as_slice(),
        VerifyFault::NoMemory => b"".as_slice(),
    }
}

/// Writes the return code of a decision, and the rule.
#[tactic(auto, using(audit_records::proofs::Keeping::keeps_on))]
fn write_decision(
    decision: &Decision,
    image: &Image,
    class: Id,
    out: &mut Vec<u8>,
) -> Result<(), AllocError>
    ensures text { OnOk result (out.new.items ≡ out.old.items ++ decision_words image.now.state.rows class decision.now) }
    ensures front { Keeps out.old.items out.new.items }
{
    write_front(u64::from(decision.rc), out)?;
    write_rule(decision, image, class, out)
}

/// Writes the rule, and what belongs to it.
#[inline(always)]
#[tactic(auto, using(audit_records::proofs::Keeping::keeps_on))]
fn write_rule(
    decision: &Decision,
    image: &Image,
    class: Id,
    out: &mut Vec<u8>,
) -> Result<(), AllocError>
    ensures text { OnOk result (out.new.items ≡ out.old.items ++ rule_words image.now.state.rows class decision.now.rule decision.now) }
    ensures front { Keeps out.old.items out.new.items }
{
    match &decision.rule {
        Rule::NoClass => out.extend_from_slice(b"NOCLASS"),
        Rule::ClassOff => out.extend_from_slice(b"CLASSOFF"),
        Rule::NotListed => out.extend_from_slice(b"NOTLISTED"),
        Rule::Global(place) => write_grant(*place, decision, image.members(class), out),
        Rule::NoProfile => out.extend_from_slice(b"NOPROFILE"),
        Rule::ProtectAll => out.extend_from_slice(b"PROTECTALL"),
        Rule::Classified(why) => write_classified(*why, decision, image.options(), out),
        Rule::OwnData => write_own_data(decision, out),
        Rule::UserEntry => write_reason(b"USER", decision, out),
        Rule::GroupEntry(group) => write_group(b"GROUP ", group, decision, out),
        Rule::Star => write_reason(b"STAR", decision, out),
        Rule::Uacc => write_reason(b"UACC", decision, out),
        Rule::Conditional(port) => write_conditional(port, decision, out),
        Rule::Operations => write_reason(b"OPERATIONS", decision, out),
        Rule::GroupOperations(group) => write_group(b"GROUPOPS ", group, decision, out),
        Rule::Warning => write_reason(b"WARNING", decision, out),
        Rule::Insufficient => write_reason(b"INSUFFICIENT", decision, out),
    }
}

/// Writes the member at that place of a global access table, as it was written.
#[tactic(auto, using(audit_records::proofs::Keeping::keeps_on))]
fn write_member(members: &[Member], place: usize, out: &mut Vec<u8>) -> Result<(), AllocError>
    ensures text { OnOk result (out.new.items ≡ out.old.items ++ member_words members.now place) }
    ensures front { Keeps out.old.items out.new.items }
{
    match members.get(place) {
        None | Some(Member::Traits(_)) => Ok(()),
        Some(Member::Access(resources, _)) => out.extend_from_slice(resources.text()),
        Some(Member::SecurityLevel(name, _) | Member::Category(name)) => {
            out.extend_from_slice(name.text())
        }
    }
}

/// Writes that the global access table gives access, by which member, and its level.
#[tactic(auto, using(audit_records::proofs::Keeping::keeps_on))]
fn write_grant(
    place: usize,
    decision: &Decision,
    members: &[Member],
    out: &mut Vec<u8>,
) -> Result<(), AllocError>
    ensures text { OnOk result (out.new.items ≡ out.old.items ++ (codes "GLOBAL " ++ member_words members.now place ++ codes " " ++ level_name decision.now.found)) }
    ensures front { Keeps out.old.items out.new.items }
{
    out.extend_from_slice(b"GLOBAL ")?;
    write_member(members, place, out)?;
    write_level(decision.found, out)
}

/// Writes that the data are the user's own.
#[tactic(auto, using(audit_records::proofs::Keeping::keeps_on))]
fn write_own_data(decision: &Decision, out: &mut Vec<u8>) -> Result<(), AllocError>
    ensures text { OnOk result (out.new.items ≡ out.old.items ++ (codes "OWNDATA" ++ profile_words decision.now.profile)) }
    ensures front { Keeps out.old.items out.new.items }
{
    out.extend_from_slice(b"OWNDATA")?;
    write_profile(&decision.profile, out)
}

/// Writes that the classification check fails, why, and of which profile.
#[tactic(auto, using(audit_records::proofs::Keeping::keeps_on))]
fn write_classified(
    why: Classified,
    decision: &Decision,
    options: &Options,
    out: &mut Vec<u8>,
) -> Result<(), AllocError>
    ensures text { OnOk result (out.new.items ≡ out.old.items ++ (codes "CLASSIFIED " ++ classified_words options.now.categories why ++ profile_words decision.now.profile)) }
    ensures front { Keeps out.old.items out.new.items }
{
    write_bar(why, options, out)?;
    write_profile(&decision.profile, out)
}

/// Writes that the classification check fails, and why.
#[tactic(auto, using(audit_records::proofs::Keeping::keeps_on))]
fn write_bar(why: Classified, options: &Options, out: &mut Vec<u8>) -> Result<(), AllocError>
    ensures text { OnOk result (out.new.items ≡ out.old.items ++ (codes "CLASSIFIED " ++ classified_words options.now.categories why)) }
    ensures front { Keeps out.old.items out.new.items }
{
    out.extend_from_slice(b"CLASSIFIED ")?;
    write_cause(why, options, out)
}

/// Writes why the classification check fails.
#[tactic(auto, using(audit_records::proofs::Keeping::keeps_on))]
fn write_cause(why: Classified, options: &Options, out: &mut Vec<u8>) -> Result<(), AllocError>
    ensures text { OnOk result (out.new.items ≡ out.old.items ++ classified_words options.now.categories why) }
    ensures front { Keeps out.old.items out.new.items }
{
    match why {
        Classified::LevelTooLow => out.extend_from_slice(b"LEVEL"),
        Classified::CategoryMissing(number) => {
            out.extend_from_slice(b"CATEGORY ")?;
            write_category(number, options, out)
        }
        Classified::LabelNotDominant => out.extend_from_slice(b"LABEL"),
        Classified::WriteDown => out.extend_from_slice(b"WRITEDOWN"),
    }
}

/// Writes the name of the category of that number.
#[tactic(auto, using(audit_records::proofs::Keeping::keeps_on))]
fn write_category(number: u8, options: &Options, out: &mut Vec<u8>) -> Result<(), AllocError>
    ensures text { OnOk result (out.new.items ≡ out.old.items ++ category_name options.now.categories number) }
    ensures front { Keeps out.old.items out.new.items }
{
    match options.categories.items.get(usize::from(number)) {
        Some(name) => out.extend_from_slice(name.text()),
        None => Ok(()),
    }
}

/// Writes the name of the profile, where there is one.
#[inline(always)]
#[tactic(auto, using(audit_records::proofs::Keeping::keeps_on))]
fn write_profile(profile: &Option<Pattern>, out: &mut Vec<u8>) -> Result<(), AllocError>
    ensures text { OnOk result (out.new.items ≡ out.old.items ++ profile_words profile.now) }
    ensures front { Keeps out.old.items out.new.items }
{
    match profile {
        None => Ok(()),
        Some(profile) => {
            out.extend_from_slice(b" ")?;
            out.extend_from_slice(profile.text())
        }
    }
}

/// Writes the profile, and the level that was found.
#[inline(always)]
#[tactic(auto, using(audit_records::proofs::Keeping::keeps_on))]
fn write_found(decision: &Decision, out: &mut Vec<u8>) -> Result<(), AllocError>
    ensures text { OnOk result (out.new.items ≡ out.old.items ++ found_words decision.now) }
    ensures front { Keeps out.old.items out.new.items }
{
    write_profile(&decision.profile, out)?;
    write_level(decision.found, out)
}

/// Writes a level.
#[inline(always)]
#[tactic(auto, using(audit_records::proofs::Keeping::keeps_on))]
fn write_level(level: Level, out: &mut Vec<u8>) -> Result<(), AllocError>
    ensures text { OnOk result (out.new.items ≡ out.old.items ++ (codes " " ++ level_name level)) }
    ensures front { Keeps out.old.items out.new.items }
{
    out.extend_from_slice(b" ")?;
    out.extend_from_slice(level.name())
}

/// Writes words, and what was found.
#[tactic(auto, using(audit_records::proofs::Keeping::keeps_on))]
fn write_reason(words: &[u8], decision: &Decision, out: &mut Vec<u8>) -> Result<(), AllocError>
    ensures text { OnOk result (out.new.items ≡ out.old.items ++ (words.now ++ found_words decision.now)) }
    ensures front { Keeps out.old.items out.new.items }
{
    out.extend_from_slice(words)?;
    write_found(decision, out)
}

/// Writes words and a group, and what was found.
#[tactic(auto, using(audit_records::proofs::Keeping::keeps_on))]
fn write_group(
    words: &[u8],
    group: &Id,
    decision: &Decision,
    out: &mut Vec<u8>,
) -> Result<(), AllocError>
    ensures text { OnOk result (out.new.items ≡ out.old.items ++ (words.now ++ group.now ++ found_words decision.now)) }
    ensures front { Keeps out.old.items out.new.items }
{
    out.extend_from_slice(words)?;
    out.extend_from_slice(group.text())?;
    write_found(decision, out)
}

/// Writes that an entry under a port of entry counts, and what was found.
#[tactic(auto, using(audit_records::proofs::Keeping::keeps_on))]
fn write_conditional(
    port: &Condition,
    decision: &Decision,
    out: &mut Vec<u8>,
) -> Result<(), AllocError>
    ensures text { OnOk result (out.new.items ≡ out.old.items ++ (codes "CONDITIONAL " ++ port_words port.now ++ found_words decision.now)) }
    ensures front { Keeps out.old.items out.new.items }
{
    write_condition(port, out)?;
    write_found(decision, out)
}

/// Writes that an entry under a port of entry counts.
#[tactic(auto, using(audit_records::proofs::Keeping::keeps_on))]
fn write_condition(port: &Condition, out: &mut Vec<u8>) -> Result<(), AllocError>
    ensures text { OnOk result (out.new.items ≡ out.old.items ++ (codes "CONDITIONAL " ++ port_words port.now)) }
    ensures front { Keeps out.old.items out.new.items }
{
    out.extend_from_slice(b"CONDITIONAL ")?;
    write_when(port, out)
}

/// Writes a port of entry as PERMIT's WHEN names it.
#[tactic(auto, using(audit_records::proofs::Keeping::keeps_on))]
fn write_when(port: &Condition, out: &mut Vec<u8>) -> Result<(), AllocError>
    ensures text { OnOk result (out.new.items ≡ out.old.items ++ port_words port.now) }
    ensures front { Keeps out.old.items out.new.items }
{
    out.extend_from_slice(b"WHEN(")?;
    out.extend_from_slice(port.class.name())?;
    out.extend_from_slice(b"(")?;
    out.extend_from_slice(port.name.text())?;
    out.extend_from_slice(b"))")
}
