//! Members of profiles, which ADDMEM and DELMEM name (z/OS Security Server RACF Command Language Reference, RALTER;
//! their forms in detail are this product's own rules).

ghost use Rattle.std.specs.Prelude.{◌≡◌, ◌<◌, [], option_map, IfOk, None, Some};
ghost use Rattle.command_words.specs.Tokens.{tokens};
ghost use Rattle.command_words.specs.ValuedWords.{valued_words};
ghost use Rattle.command_values.specs.Results.{Gives};
ghost use Rattle.command_values.specs.NamedWords.{id_named as id_in};
ghost use Rattle.command_values.specs.Members.{whole_text as text_whole, member_named as named_member, parted as parts_of, number_behind, number_of, access_of, security_level_of, category_of, member_in as member_read, dropped_in as dropped_read, each_of, added as added_in, dropped as dropped_by};
ghost use Rattle.command_fields.specs.MemberForms.{access_form as form_of_access, secdata_form as form_of_secdata, form_by_class as form_in_class, member_form as form_known};
ghost use Rattle.command_fields.specs.LawfulMembers.{if_number as in_range, id_name as name_of_id};

use crate::faults::{ParseFault, Syntax};
use crate::named_words::{id_named, level_named};
use crate::profile_names::{folded_word, in_quotes};
use crate::value_words::word_of;
use crate::values::Known;
use access_levels::{Id, Level};
use command_fields::{MemberForm, MemberNames};
use command_words::{Quoting, Tokens};
use generic_names::{MemberName, NameKind};
use racf_profiles::{Member, Members, kind_of_class};
use std::alloc::{AllocError, Global};

/// The form of members of a profile of GLOBAL.
fn access_form(profile: &[u8]) -> MemberForm
    ensures { result ≡ form_of_access profile.now }
{
    MemberForm::Access(kind_of_class(profile))
}

/// The form of members of a profile of SECDATA.
fn secdata_form(profile: &[u8]) -> MemberForm
    ensures { result ≡ form_of_secdata profile.now }
{
    if profile == b"SECLEVEL".as_slice() {
        MemberForm::SecurityLevel
    } else {
        MemberForm::Category
    }
}

/// The form of members of that profile of the class.
fn form_by_class(class: &[u8], profile: &[u8]) -> Option<MemberForm>
    ensures { result ≡ form_in_class class.now profile.now }
{
    if class == b"GLOBAL".as_slice() {
        return Some(access_form(profile));
    }
    if class == b"SECDATA".as_slice() {
        return Some(secdata_form(profile));
    }
    None
}

/// What the members of the profile are that a command names, if its class has members.
#[tactic(auto, unfolding(command_fields::specs::MemberForms::member_form))]
pub fn member_form(known: &Known) -> Option<MemberForm>
    ensures { result ≡ form_known known.now.class known.now.profile }
{
    let Some(class) = known.class else {
        return None;
    };
    let Some(profile) = known.profile else {
        return None;
    };
    form_by_class(class.text(), profile.text())
}

/// The name that a word is, in quotes or not.
fn whole_text(alloc: Global, word: &[u8]) -> Result<Option<Vec<u8>>, AllocError>
    ensures { IfOk result (λ text. option_map (λ t. t.items) text ≡ text_whole word.now) }
{
    let Some((byte, rest)) = word.split_first() else {
        return Ok(None);
    };
    if *byte == b'\'' {
        return in_quotes(alloc, rest);
    }
    Ok(Some(folded_word(alloc, word)?))
}

/// The name of a member, of that kind, that a word spells.
fn member_named(
    alloc: Global,
    kind: NameKind,
    word: &[u8],
) -> Result<Option<MemberName>, AllocError>
    ensures { IfOk result (λ name. name ≡ named_member kind word.now) }
{
    match whole_text(alloc, word)? {
        Some(text) => Ok(MemberName::read(kind, &text).ok()),
        None => Ok(None),
    }
}

/// What stands on either side of the last `/`.
fn parted(word: &[u8]) -> Option<(&[u8], &[u8])>
    ensures { option_map (λ x. (x.0.now, x.1.now)) result ≡ parts_of word.now }
{
    let mut end = word.len();
    while end > 0 {
        end -= 1;
        if word[end] == b'/' {
            return Some((word.split_at(end).0, word.split_at(end + 1).1));
        }
    }
    None
}

/// The number that digits write.
fn digits(word: &[u8]) -> Option<u32>
    ensures { result ≡ number_behind 0 word.now }
{
    let mut number = 0;
    for byte in word {
        if !(*byte >= b'0' && *byte <= b'9' && number < 1000) {
            return None;
        }
        number = 10 * number + u32::from(*byte - b'0');
    }
    Some(number)
}

/// The number, where it can be that of a security level.
fn ranged(number: u32) -> Option<u8>
    ensures { result ≡ in_range (Some number) }
{
    if number >= 1 && number <= 254 {
        Some(number as u8)
    } else {
        None
    }
}

/// A number from 1 to 254, without a zero in front.
pub fn number(word: &[u8]) -> Option<u8>
    ensures { result ≡ number_of word.now }
{
    let (first, _) = word.split_first()?;
    if *first == b'0' {
        return None;
    }
    ranged(digits(word)?)
}

/// The name with an access level that a word spells.
fn access_member(alloc: Global, kind: NameKind, word: &[u8]) -> Result<Option<Member>, AllocError>
    ensures { IfOk result (λ member. member ≡ access_of kind (parts_of word.now)) }
{
    let Some((name, level)) = parted(word) else {
        return Ok(None);
    };
    let Some(name) = member_named(alloc, kind, name)? else {
        return Ok(None);
    };
    match level_named(level) {
        Some(level) => Ok(Some(Member::Access(name, level))),
        None => Ok(None),
    }
}

/// The security level with its number that a word spells.
fn security_level_member(word: &[u8]) -> Option<Member>
    ensures { result ≡ security_level_of (parts_of word.now) }
{
    let (name, level) = parted(word)?;
    let name = id_named(name)?;
    let level = number(level)?;
    Some(Member::SecurityLevel(name, level))
}

/// The category that a word spells.
fn category_member(word: &[u8]) -> Option<Member>
    ensures { result ≡ category_of (id_in word.now) }
{
    let name = id_named(word)?;
    Some(Member::Category(name))
}

/// The member of that form that a word spells.
fn member_in(alloc: Global, form: MemberForm, word: &[u8]) -> Result<Option<Member>, AllocError>
    ensures { IfOk result (λ member. member ≡ member_read form word.now) }
{
    match form {
        MemberForm::Access(kind) => access_member(alloc, kind, word),
        MemberForm::SecurityLevel => Ok(security_level_member(word)),
        MemberForm::Category => Ok(category_member(word)),
    }
}

/// The name of a member that is spelled as an ID.
fn id_name(text: &[u8]) -> Option<MemberName>
    ensures { result ≡ name_of_id text.now }
{
    if Id::read(text).is_ok() {
        MemberName::read(NameKind::General, text).ok()
    } else {
        None
    }
}

/// The name by which DELMEM drops a member of that form.
fn dropped_in(
    alloc: Global,
    form: MemberForm,
    word: &[u8],
) -> Result<Option<MemberName>, AllocError>
    ensures { IfOk result (λ name. name ≡ dropped_read form word.now) }
{
    if let MemberForm::Access(kind) = form {
        return member_named(alloc, kind, word);
    }
    let text = folded_word(alloc, word)?;
    Ok(id_name(&text))
}

/// The members in the parentheses, each of that form.
fn each_member(alloc: Global, form: MemberForm, inner: Tokens<'_>) -> Result<Members, ParseFault>
    ensures { Gives (λ ms. ms) result (each_of (member_read form) [] (valued_words (tokens inner.entry))) }
{
    let mut members = Vec::new(alloc);
    let mut left = inner;
    while let Some((item, rest)) = left.split_valued() {
        let (place, word) = word_of(Quoting::Ignored, item)?;
        let member = member_in(alloc, form, word)?.ok_or(Syntax::BadValue(place))?;
        members.push(member)?;
        left = rest;
    }
    Ok(Members { items: members })
}

/// The names of members in the parentheses, as DELMEM has them.
fn each_dropped(
    alloc: Global,
    form: MemberForm,
    inner: Tokens<'_>,
) -> Result<MemberNames, ParseFault>
    ensures { Gives (λ ns. ns) result (each_of (dropped_read form) [] (valued_words (tokens inner.entry))) }
{
    let mut names = Vec::new(alloc);
    let mut left = inner;
    while let Some((item, rest)) = left.split_valued() {
        let (place, word) = word_of(Quoting::Ignored, item)?;
        let name = dropped_in(alloc, form, word)?.ok_or(Syntax::BadValue(place))?;
        names.push(name)?;
        left = rest;
    }
    Ok(MemberNames { items: names })
}

/// The members in the parentheses of an operand at `place`, where it is refused in a class without members.
pub fn added(
    alloc: Global,
    form: Option<MemberForm>,
    place: u32,
    inner: Tokens<'_>,
) -> Result<Members, ParseFault>
    ensures { Gives (λ ms. ms) result (added_in form place (valued_words (tokens inner.entry))) }
{
    let Some(form) = form else {
        return Err(ParseFault::Syntax(Syntax::BadValue(place)));
    };
    if inner.split_valued().is_none() {
        return Err(ParseFault::Syntax(Syntax::BadValue(place)));
    }
    each_member(alloc, form, inner)
}

/// The names of members in the parentheses of an operand at `place`, where it is refused in a class without members.
pub fn dropped(
    alloc: Global,
    form: Option<MemberForm>,
    place: u32,
    inner: Tokens<'_>,
) -> Result<MemberNames, ParseFault>
    ensures { Gives (λ ns. ns) result (dropped_by form place (valued_words (tokens inner.entry))) }
{
    let Some(form) = form else {
        return Err(ParseFault::Syntax(Syntax::BadValue(place)));
    };
    if inner.split_valued().is_none() {
        return Err(ParseFault::Syntax(Syntax::BadValue(place)));
    }
    each_dropped(alloc, form, inner)
}
