//! The words of refusals: what a text spells wrong, what a command conflicts with, and what its issuer lacks.

ghost use Rattle.std.specs.Prelude.{◌≡◌, ◌++◌, OnOk, decimal};
ghost use Rattle.desk_rules.specs.Words.{syntax_words, named_words, holder_words, kind_words, conflict_words, in_parentheses, need_words, each_need};

use command_authority::{Need, Needs};
use command_parser::Syntax;
use command_rules::{Conflict, Holder, Limit, Named};
use itoa::Buffer;
use std::alloc::AllocError;

/// Writes the words of the first fault of a command's text at the end of `out`.
pub(crate) fn write_syntax(fault: &Syntax, out: &mut Vec<u8>) -> Result<(), AllocError>
    ensures { OnOk result (out.new.items ≡ out.old.items ++ syntax_words fault.now) }
{
    match fault {
        Syntax::UnknownCommand => out.extend_from_slice(b"UNKNOWNCOMMAND"),
        Syntax::UnknownOperand(place) => write_place(b"UNKNOWNOPERAND ", *place, out),
        Syntax::AmbiguousOperand(place) => write_place(b"AMBIGUOUS ", *place, out),
        Syntax::Missing(word) => write_name(b"MISSING ", word.spelling(), out),
        Syntax::Repeated(word) => write_name(b"REPEATED ", word.spelling(), out),
        Syntax::Excluded(word, other) => {
            write_name(b"EXCLUDED ", word.spelling(), out)?;
            write_name(b" ", other.spelling(), out)
        }
        Syntax::BadValue(place) => write_place(b"BADVALUE ", *place, out),
        Syntax::Unclosed(place) => write_place(b"UNCLOSED ", *place, out),
        Syntax::TextTooLong => out.extend_from_slice(b"TEXTTOOLONG"),
    }
}

/// Writes the words of a conflict at the end of `out`.
pub(crate) fn write_conflict(conflict: &Conflict, out: &mut Vec<u8>) -> Result<(), AllocError>
    ensures { OnOk result (out.new.items ≡ out.old.items ++ conflict_words conflict.now) }
{
    match conflict {
        Conflict::NoUser(id) => write_name(b"NOUSER ", id.text(), out),
        Conflict::NoGroup(id) => write_name(b"NOGROUP ", id.text(), out),
        Conflict::NoProfile(class, profile) => {
            write_name(b"NOPROFILE ", class.text(), out)?;
            write_name(b" ", profile.text(), out)
        }
        Conflict::NoClass(class) => write_name(b"NOCLASS ", class.text(), out),
        Conflict::Exists(name) => {
            out.extend_from_slice(b"EXISTS ")?;
            write_named(name, out)
        }
        Conflict::NotConnected(group) => write_name(b"NOTCONNECTED ", group.text(), out),
        Conflict::Root => out.extend_from_slice(b"ROOT"),
        Conflict::InUse(holder) => {
            out.extend_from_slice(b"INUSE ")?;
            write_holder(holder, out)
        }
        Conflict::Cycle(group) => write_name(b"CYCLE ", group.text(), out),
        Conflict::OwnerNotSuperior(owner) => write_name(b"OWNERNOTSUPERIOR ", owner.text(), out),
        Conflict::NotGeneric(class) => write_name(b"NOTGENERIC ", class.text(), out),
        Conflict::NotListed(class) => write_name(b"NOTLISTED ", class.text(), out),
        Conflict::ClassFixed(class) => write_name(b"CLASSFIXED ", class.text(), out),
        Conflict::DefaultGroup(group) => write_name(b"DEFAULTGROUP ", group.text(), out),
        Conflict::LastSpecial(user) => write_name(b"LASTSPECIAL ", user.text(), out),
        Conflict::UnknownName(name) => write_name(b"UNKNOWNNAME ", name.text(), out),
        Conflict::NameNotAllowed(class) => write_name(b"NAMENOTALLOWED ", class.text(), out),
        Conflict::Full(kind, limit) => {
            write_name(b"FULL ", kind_word(*kind), out)?;
            write_number(b" ", *limit, out)
        }
    }
}

/// Writes the words of needs at the end of `out`, each behind a blank.
pub(crate) fn write_needs(needs: &Needs, out: &mut Vec<u8>) -> Result<(), AllocError>
    ensures { OnOk result (out.new.items ≡ out.old.items ++ each_need needs.now) }
{
    let items = needs.as_slice();
    for need in items {
        out.extend_from_slice(b" ")?;
        write_need(need, out)?;
    }
    Ok(())
}

/// Writes the words of a need at the end of `out`.
fn write_need(need: &Need, out: &mut Vec<u8>) -> Result<(), AllocError>
    ensures { OnOk result (out.new.items ≡ out.old.items ++ need_words need.now) }
{
    match need {
        Need::Special => out.extend_from_slice(b"SPECIAL"),
        Need::Auditor => out.extend_from_slice(b"AUDITOR"),
        Need::ClassAuthority(class) => write_in_parentheses(b"CLAUTH", class.text(), out),
        Need::Join(group) => write_in_parentheses(b"JOIN", group.text(), out),
        Need::Connect(group) => write_in_parentheses(b"CONNECT", group.text(), out),
        Need::Create(group) => write_in_parentheses(b"CREATE", group.text(), out),
        Need::Authority(wanted) => write_in_parentheses(b"AUTHORITY", wanted.name(), out),
        Need::Owner => out.extend_from_slice(b"OWNER"),
        Need::GroupSpecial => out.extend_from_slice(b"GROUPSPECIAL"),
        Need::OwnData => out.extend_from_slice(b"OWNDATA"),
        Need::AlterEntry => out.extend_from_slice(b"ALTER"),
        Need::UserJoin(group) => write_in_parentheses(b"CLAUTH(USER)+JOIN", group.text(), out),
        Need::UserOwner => out.extend_from_slice(b"CLAUTH(USER)+OWNER"),
        Need::UserGroupSpecial => out.extend_from_slice(b"CLAUTH(USER)+GROUPSPECIAL"),
    }
}

/// Writes a word with a name in parentheses behind it at the end of `out`.
fn write_in_parentheses(word: &[u8], name: &[u8], out: &mut Vec<u8>) -> Result<(), AllocError>
    ensures { OnOk result (out.new.items ≡ out.old.items ++ in_parentheses word.now name.now) }
{
    write_name(word, b"(", out)?;
    write_name(name, b")", out)
}

/// Writes the name of what is defined already at the end of `out`.
fn write_named(name: &Named, out: &mut Vec<u8>) -> Result<(), AllocError>
    ensures { OnOk result (out.new.items ≡ out.old.items ++ named_words name.now) }
{
    match name {
        Named::Id(id) => out.extend_from_slice(id.text()),
        Named::Profile(profile) => out.extend_from_slice(profile.text()),
    }
}

/// Writes what still uses a user, a group or a class at the end of `out`.
fn write_holder(holder: &Holder, out: &mut Vec<u8>) -> Result<(), AllocError>
    ensures { OnOk result (out.new.items ≡ out.old.items ++ holder_words holder.now) }
{
    match holder {
        Holder::Subgroup(id) => write_name(b"SUBGROUP ", id.text(), out),
        Holder::Connected(id) => write_name(b"CONNECTED ", id.text(), out),
        Holder::Profile(profile) => write_name(b"PROFILE ", profile.text(), out),
    }
}

/// The word for what is limited in number.
fn kind_word(kind: Limit) -> &'static [u8]
    ensures { result.now ≡ kind_words kind }
{
    match kind {
        Limit::Users => b"USERS".as_slice(),
        Limit::Groups => b"GROUPS".as_slice(),
        Limit::Connections => b"CONNECTIONS".as_slice(),
        Limit::AllConnections => b"ALLCONNECTIONS".as_slice(),
        Limit::ClassProfiles => b"CLASSPROFILES".as_slice(),
        Limit::Profiles => b"PROFILES".as_slice(),
        Limit::Entries => b"ENTRIES".as_slice(),
        Limit::AllEntries => b"ALLENTRIES".as_slice(),
        Limit::Members => b"MEMBERS".as_slice(),
        Limit::Categories => b"CATEGORIES".as_slice(),
        Limit::Classes => b"CLASSES".as_slice(),
    }
}

/// Writes a word and a name at the end of `out`.
pub(crate) fn write_name(word: &[u8], name: &[u8], out: &mut Vec<u8>) -> Result<(), AllocError>
    ensures { OnOk result (out.new.items ≡ out.old.items ++ (word.now ++ name.now)) }
{
    out.extend_from_slice(word)?;
    out.extend_from_slice(name)
}

/// Writes a word and a place at the end of `out`.
fn write_place(word: &[u8], place: u32, out: &mut Vec<u8>) -> Result<(), AllocError>
    ensures { OnOk result (out.new.items ≡ out.old.items ++ (word.now ++ decimal place)) }
{
    write_number(word, u64::from(place), out)
}

/// Writes a word and a number at the end of `out`.
fn write_number(word: &[u8], number: u64, out: &mut Vec<u8>) -> Result<(), AllocError>
    ensures { OnOk result (out.new.items ≡ out.old.items ++ (word.now ++ decimal number)) }
{
    let mut digits = Buffer::new();
    out.extend_from_slice(word)?;
    out.extend_from_slice(digits.format(number).as_bytes())
}
