//! How values are written.

ghost use Rattle.std.specs.Prelude.{◌≡◌, ◌++◌, ◌∷◌, [], map, OnErr, OnOk};
ghost use Rattle.command_words.specs.Quotes.{doubled};
ghost use Rattle.command_fields.specs.ProfileNames.{profile_text};
ghost use Rattle.command_values.specs.Audits.{half_text, audit_text};
ghost use Rattle.command_values.specs.Members.{number_text, member_text};
ghost use Rattle.command_values.specs.Entries.{who_text, whos_text, port_text};
ghost use Rattle.command_values.specs.Values.{ids_text, clause_text, text_of};

use crate::log_options::log_option_name;
use crate::value_reading::truth_name;
use crate::values::Content;
use access_levels::{Condition, Id, Level, Text, Who};
use command_fields::LogClause;
use generic_names::{MemberName, NameKind, Pattern};
use racf_profiles::{AuditRule, Member};
use std::alloc::AllocError;

/// A text as it stands between quotes, each quote twice.
fn push_doubled(out: &mut Vec<u8>, text: &[u8]) -> Result<(), AllocError>
    ensures { OnOk result (out.new.items ≡ out.old.items ++ doubled text.now) }
{
    for byte in text {
        if *byte == b'\'' {
            out.push(b'\'')?;
        }
        out.push(*byte)?;
    }
    Ok(())
}

/// Writes a user's name in quotes.
fn push_name(out: &mut Vec<u8>, text: &Text) -> Result<(), AllocError>
    ensures { OnOk result (out.new.items ≡ out.old.items ++ (39 ∷ (doubled text.now ++ 39 ∷ []))) }
{
    out.push(b'\'')?;
    push_doubled(out, text.bytes())?;
    out.push(b'\'')?;
    Ok(())
}

/// Names parted by one blank.
fn push_ids(out: &mut Vec<u8>, ids: &[Id]) -> Result<(), AllocError>
    ensures { OnOk result (out.new.items ≡ out.old.items ++ ids_text ids.now) }
{
    let Some((first, rest)) = ids.split_first() else {
        return Ok(());
    };
    out.extend_from_slice(first.text())?;
    for id in rest {
        out.push(b' ')?;
        out.extend_from_slice(id.text())?;
    }
    Ok(())
}

/// The name of a profile, a data set's in quotes.
fn push_profile(out: &mut Vec<u8>, pattern: &Pattern) -> Result<(), AllocError>
    ensures { OnOk result (out.new.items ≡ out.old.items ++ profile_text pattern.now) }
{
    match pattern.kind() {
        NameKind::DataSet => {
            out.push(b'\'')?;
            out.extend_from_slice(pattern.text())?;
            out.push(b'\'')?;
            Ok(())
        }
        NameKind::General => out.extend_from_slice(pattern.text()),
    }
}

/// A word of AUDIT and its level.
fn push_half(out: &mut Vec<u8>, word: &[u8], level: Level) -> Result<(), AllocError>
    ensures { OnOk result (out.new.items ≡ out.old.items ++ half_text word.now level) }
{
    out.extend_from_slice(word)?;
    out.push(b'(')?;
    out.extend_from_slice(level.name())?;
    out.push(b')')?;
    Ok(())
}

/// Writes the words of an audit rule.
fn push_audit(out: &mut Vec<u8>, rule: AuditRule) -> Result<(), AllocError>
    ensures { OnOk result (out.new.items ≡ out.old.items ++ audit_text rule) }
{
    match (rule.success, rule.failures) {
        (None, None) => out.extend_from_slice(b"NONE"),
        (Some(level), None) => push_half(out, b"SUCCESS", level),
        (None, Some(level)) => push_half(out, b"FAILURES", level),
        (Some(success), Some(failures)) => {
            push_half(out, b"SUCCESS", success)?;
            out.push(b' ')?;
            push_half(out, b"FAILURES", failures)
        }
    }
}

/// Writes a user or a group, or `*` for everyone.
fn push_who(out: &mut Vec<u8>, who: Who) -> Result<(), AllocError>
    ensures { OnOk result (out.new.items ≡ out.old.items ++ who_text who) }
{
    match who {
        Who::Star => Ok(out.push(b'*')?),
        Who::Named(id) => out.extend_from_slice(id.text()),
    }
}

/// Users and groups parted by one blank.
fn push_whos(out: &mut Vec<u8>, whos: &[Who]) -> Result<(), AllocError>
    ensures { OnOk result (out.new.items ≡ out.old.items ++ whos_text whos.now) }
{
    let Some((first, rest)) = whos.split_first() else {
        return Ok(());
    };
    push_who(out, *first)?;
    for who in rest {
        out.push(b' ')?;
        push_who(out, *who)?;
    }
    Ok(())
}

/// Writes a port of entry.
fn push_port(out: &mut Vec<u8>, port: &Condition) -> Result<(), AllocError>
    ensures { OnOk result (out.new.items ≡ out.old.items ++ port_text port.now) }
{
    out.extend_from_slice(port.class.name())?;
    out.push(b'(')?;
    out.extend_from_slice(port.name.text())?;
    out.push(b')')?;
    Ok(())
}

/// Writes a number.
fn push_number(out: &mut Vec<u8>, number: u8) -> Result<(), AllocError>
    ensures { OnOk result (out.new.items ≡ out.old.items ++ number_text number) }
{
    if number < 10 {
        out.push(b'0' + number)?;
    } else if number < 100 {
        out.push(b'0' + number / 10)?;
        out.push(b'0' + number % 10)?;
    } else {
        out.push(b'0' + number / 100)?;
        out.push(b'0' + number / 10 % 10)?;
        out.push(b'0' + number % 10)?;
    }
    Ok(())
}

/// The name of a member, a data set's in quotes.
fn push_member_name(out: &mut Vec<u8>, name: &MemberName) -> Result<(), AllocError>
    ensures { OnOk result (out.new.items ≡ out.old.items ++ profile_text name.now) }
{
    match name.kind() {
        NameKind::DataSet => {
            out.push(b'\'')?;
            out.extend_from_slice(name.text())?;
            out.push(b'\'')?;
            Ok(())
        }
        NameKind::General => out.extend_from_slice(name.text()),
    }
}

/// Writes a member as ADDMEM has it, which has none of class CDT.
fn push_member(out: &mut Vec<u8>, member: &Member) -> Result<(), AllocError>
    ensures { OnOk result (out.new.items ≡ out.old.items ++ member_text member.now) }
{
    match member {
        Member::Access(name, level) => {
            push_member_name(out, name)?;
            out.push(b'/')?;
            out.extend_from_slice(level.name())
        }
        Member::SecurityLevel(name, number) => {
            out.extend_from_slice(name.text())?;
            out.push(b'/')?;
            push_number(out, *number)
        }
        Member::Category(name) => out.extend_from_slice(name.text()),
        Member::Traits(_) => Ok(()),
    }
}

/// Members parted by one blank.
fn push_members(out: &mut Vec<u8>, members: &[Member]) -> Result<(), AllocError>
    ensures { OnOk result (out.new.items ≡ out.old.items ++ ids_text (map member_text members.now)) }
{
    let Some((first, rest)) = members.split_first() else {
        return Ok(());
    };
    push_member(out, first)?;
    for member in rest {
        out.push(b' ')?;
        push_member(out, member)?;
    }
    Ok(())
}

/// Writes the names of members as DELMEM has them.
fn push_member_names(out: &mut Vec<u8>, names: &[MemberName]) -> Result<(), AllocError>
    ensures { OnOk result (out.new.items ≡ out.old.items ++ ids_text (map profile_text names.now)) }
{
    let Some((first, rest)) = names.split_first() else {
        return Ok(());
    };
    push_member_name(out, first)?;
    for name in rest {
        out.push(b' ')?;
        push_member_name(out, name)?;
    }
    Ok(())
}

/// Writes a word of LOGOPTIONS with its classes.
fn push_clause(out: &mut Vec<u8>, clause: &LogClause) -> Result<(), AllocError>
    ensures { OnOk result (out.new.items ≡ out.old.items ++ clause_text clause.now) }
{
    out.extend_from_slice(log_option_name(clause.option))?;
    out.push(b'(')?;
    push_ids(out, &clause.classes.items)?;
    out.push(b')')?;
    Ok(())
}

/// Words of LOGOPTIONS parted by one blank.
fn push_clauses(out: &mut Vec<u8>, clauses: &[LogClause]) -> Result<(), AllocError>
    ensures { OnOk result (out.new.items ≡ out.old.items ++ ids_text (map clause_text clauses.now)) }
{
    let Some((first, rest)) = clauses.split_first() else {
        return Ok(());
    };
    push_clause(out, first)?;
    for clause in rest {
        out.push(b' ')?;
        push_clause(out, clause)?;
    }
    Ok(())
}

/// Writes a value, without the parentheses of an operand. Where memory is short, `out` stays as it was.
pub fn push_content(out: &mut Vec<u8>, content: &Content) -> Result<(), AllocError>
    ensures text { OnOk result (out.new.items ≡ out.old.items ++ text_of content.now) }
    ensures kept { OnErr result (out.new.items ≡ out.old.items) }
{
    let mut text = Vec::new(*out.allocator());
    push_text(&mut text, content)?;
    out.extend_from_slice(&text)
}

/// The same, where `out` may keep the front of the value when memory is short.
fn push_text(out: &mut Vec<u8>, content: &Content) -> Result<(), AllocError>
    ensures { OnOk result (out.new.items ≡ out.old.items ++ text_of content.now) }
{
    match content {
        Content::Flag => Ok(()),
        Content::Id(id) => out.extend_from_slice(id.text()),
        Content::Authority(authority) => out.extend_from_slice(authority.name()),
        Content::Name(text) => push_name(out, text),
        Content::Ids(ids) => push_ids(out, &ids.items),
        Content::Level(level) => out.extend_from_slice(level.name()),
        Content::Audit(rule) => push_audit(out, *rule),
        Content::Profile(name) => push_profile(out, name.pattern()),
        Content::Reset(reset) => out.extend_from_slice(reset.name()),
        Content::Whos(whos) => push_whos(out, &whos.items),
        Content::When(condition) => push_port(out, condition),
        Content::Members(members) => push_members(out, &members.items),
        Content::MemberNames(names) => push_member_names(out, &names.items),
        Content::Generic(_) => Ok(()),
        Content::Failures => out.extend_from_slice(b"FAILURES"),
        Content::LogOptions(clauses) => push_clauses(out, &clauses.items),
        Content::Length(number) => push_number(out, *number),
        Content::Truth(truth) => out.extend_from_slice(truth_name(*truth)),
        Content::ClassNames(names) => out.extend_from_slice(names.name()),
    }
}
