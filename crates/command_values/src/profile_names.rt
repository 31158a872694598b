//! The names of profiles, by the class that they stand in (the forms of names are this product's own rules).

ghost use Rattle.std.specs.Prelude.{◌≡◌, ◌==◌, ◌++◌, ◌<◌, length, map, option_map, position, IfOk, IfSome, OnOk, is_ok, None, if◌then◌else◌};
ghost use Rattle.std.specs.List.{list_any};
ghost use Rattle.access_levels.specs.Spelling.{id_of};
ghost use Rattle.command_words.specs.Bytes.{upper};
ghost use Rattle.command_fields.specs.ProfileNames.{dataset_profile as profile_of_dataset, general_profile as profile_general, if_label, is_level_or_category as names_level_or_category, profile_in as profile_by_form, form_in as names_in, general_form as form_general, class_profile as profile_of_class, in_quotes as text_in_quotes, dataset_text as text_of_dataset, dataset_named as dataset_by_word, is_unclosed as begins_unclosed, named_by_form as profile_by_word, any_named as profile_of_any};

use access_levels::Id;
use command_fields::is_cdt;
use command_words::folded;
use generic_names::{NameKind, Pattern, first_qualifier};
use racf_profiles::{NameForm, class_facts};
use std::alloc::{AllocError, Global};

/// Whether the text spells an ID.
fn is_id(text: &[u8]) -> bool
    ensures { result ≡ is_ok (id_of text.now) }
{
    Id::read(text).is_ok()
}

/// The name of a data set profile that a text spells.
fn dataset_profile(text: &[u8]) -> Option<Pattern>
    ensures { result ≡ profile_of_dataset text.now }
{
    if !is_id(first_qualifier(text)) {
        return None;
    }
    Pattern::read(NameKind::DataSet, text).ok()
}

/// The name of a general resource profile that a text spells.
fn general_profile(text: &[u8]) -> Option<Pattern>
    ensures { result ≡ profile_general text.now }
{
    Pattern::read(NameKind::General, text).ok()
}

/// The name of a profile of SECLABEL that a text spells.
fn label_profile(text: &[u8]) -> Option<Pattern>
    ensures { result ≡ if_label (profile_general text.now) }
{
    let name = general_profile(text)?;
    if name.is_generic() || is_id(name.text()) {
        Some(name)
    } else {
        None
    }
}

/// Whether it is one of the two profiles of SECDATA.
fn is_level_or_category(text: &[u8]) -> bool
    ensures { result ≡ names_level_or_category text.now }
{
    text == b"SECLEVEL".as_slice() || text == b"CATEGORY".as_slice()
}

/// The name of a profile of SECDATA that a text spells.
fn level_or_category_profile(text: &[u8]) -> Option<Pattern>
    ensures { result ≡ (if names_level_or_category text.now then profile_general text.now else None) }
{
    if is_level_or_category(text) {
        general_profile(text)
    } else {
        None
    }
}

/// The name of a profile of GLOBAL that a text spells.
fn global_profile(text: &[u8]) -> Option<Pattern>
    ensures { result ≡ (if is_ok (id_of text.now) then profile_general text.now else None) }
{
    if is_id(text) {
        general_profile(text)
    } else {
        None
    }
}

/// The name of a profile of that form that a text spells.
fn profile_in(form: NameForm, text: &[u8]) -> Option<Pattern>
    ensures { result ≡ profile_by_form form text.now }
{
    match form {
        NameForm::DataSet => dataset_profile(text),
        NameForm::General => general_profile(text),
        NameForm::Identifier => label_profile(text),
        NameForm::LevelOrCategory => level_or_category_profile(text),
        NameForm::Class => global_profile(text),
    }
}

/// The form of the names of profiles in a class.
#[tactic(auto, unfolding(command_fields::specs::ProfileNames::form_in))]
fn form_in(class: Id) -> NameForm
    ensures { result ≡ names_in class }
{
    if is_cdt(class) {
        return NameForm::Class;
    }
    match class_facts(class) {
        Some(facts) => facts.names,
        None => NameForm::General,
    }
}

/// The form of names behind a class's name.
fn general_form(form: NameForm) -> NameForm
    ensures { result ≡ form_general form }
{
    match form {
        NameForm::DataSet => NameForm::General,
        other => other,
    }
}

/// Puts the word in upper case behind what stands in `out`.
fn push_folded(out: &mut Vec<u8>, word: &[u8]) -> Result<(), AllocError>
    ensures { OnOk result (out.new.items ≡ out.old.items ++ map upper word.now) }
{
    for byte in word {
        out.push(folded(*byte))?;
    }
    Ok(())
}

/// The word in upper case.
pub fn folded_word(alloc: Global, word: &[u8]) -> Result<Vec<u8>, AllocError>
    ensures { IfOk result (λ text. text.items ≡ map upper word.now) }
{
    let mut text = Vec::new(alloc);
    push_folded(&mut text, word)?;
    Ok(text)
}

/// The profile of a class that a word names, where its class is known.
pub fn class_profile(
    alloc: Global,
    class: Option<Id>,
    word: &[u8],
) -> Result<Option<Pattern>, AllocError>
    ensures { IfOk result (λ name. name ≡ profile_of_class class (map upper word.now)) }
{
    let Some(class) = class else {
        return Ok(None);
    };
    let text = folded_word(alloc, word)?;
    Ok(profile_in(general_form(form_in(class)), &text))
}

/// The place of the first quote.
fn first_quote(text: &[u8]) -> Option<usize>
    ensures value { result ≡ position (λ b. b == 39) text.now }
    ensures within { IfSome result (λ k. k < length text.now) }
{
    text.iter().position(|byte| *byte == b'\'')
}

/// Whether there is a quote in the text.
fn has_quote(text: &[u8]) -> bool
    ensures { result ≡ list_any (λ b. b == 39) text.now }
{
    text.iter().any(|byte| *byte == b'\'')
}

/// Whether the word begins with a quote that no other one closes.
pub fn is_unclosed(word: &[u8]) -> bool
    ensures { result ≡ begins_unclosed word.now }
{
    let Some((byte, rest)) = word.split_first() else {
        return false;
    };
    *byte == b'\'' && !has_quote(rest)
}

/// The text in upper case between quotes, behind whose opening one `rest` stands, where the next quote ends the word.
pub fn in_quotes(alloc: Global, rest: &[u8]) -> Result<Option<Vec<u8>>, AllocError>
    ensures { IfOk result (λ text. option_map (λ t. t.items) text ≡ text_in_quotes (position (λ b. b == 39) rest.now) rest.now) }
{
    match first_quote(rest) {
        Some(end) if rest.len() == end + 1 => Ok(Some(folded_word(alloc, rest.split_at(end).0)?)),
        _ => Ok(None),
    }
}

/// The name of a data set, the issuer's prefix in front where the word has no quotes.
fn dataset_text(alloc: Global, issuer: Id, word: &[u8]) -> Result<Option<Vec<u8>>, AllocError>
    ensures { IfOk result (λ text. option_map (λ t. t.items) text ≡ text_of_dataset issuer word.now) }
{
    let Some((byte, rest)) = word.split_first() else {
        return Ok(None);
    };
    if *byte == b'\'' {
        return in_quotes(alloc, rest);
    }
    let mut text = Vec::from_slice(alloc, issuer.text())?;
    text.push(b'.')?;
    push_folded(&mut text, word)?;
    Ok(Some(text))
}

/// The data set profile that a word names where `issuer` gives it.
pub fn dataset_named(alloc: Global, issuer: Id, word: &[u8]) -> Result<Option<Pattern>, AllocError>
    ensures { IfOk result (λ name. name ≡ dataset_by_word issuer word.now) }
{
    match dataset_text(alloc, issuer, word)? {
        Some(text) => Ok(dataset_profile(&text)),
        None => Ok(None),
    }
}

/// The profile of a class with names of this form.
fn named_by_form(
    alloc: Global,
    issuer: Id,
    form: NameForm,
    word: &[u8],
) -> Result<Option<Pattern>, AllocError>
    ensures { IfOk result (λ name. name ≡ profile_by_word issuer form word.now) }
{
    if let NameForm::DataSet = form {
        return dataset_named(alloc, issuer, word);
    }
    let text = folded_word(alloc, word)?;
    Ok(profile_in(form, &text))
}

/// The profile of any class that a word names, a data set's in DATASET, where its class is known.
pub fn any_named(
    alloc: Global,
    issuer: Id,
    class: Option<Id>,
    word: &[u8],
) -> Result<Option<Pattern>, AllocError>
    ensures { IfOk result (λ name. name ≡ profile_of_any issuer class word.now) }
{
    match class {
        Some(class) => named_by_form(alloc, issuer, form_in(class), word),
        None => Ok(None),
    }
}
