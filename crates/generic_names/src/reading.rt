ghost use Rattle.std.specs.Prelude.{◌≡◌, ℕ, ◌+◌, ◌==◌, ◌≤◌, ◌||◌, IsTrue, true, false, List, None, length, IfNone};
ghost use Rattle.std.specs.List.{list_any};
ghost use Rattle.generic_names.specs.Spelled.{percent, asterisk, qualifiers};
ghost use Rattle.generic_names.specs.declared.form.Form.TheVariants.{Discrete};
ghost use Rattle.generic_names.specs.Faults.{is_letter, is_digit, is_ordinary, has_generic, is_whole, is_too_long, is_generic_first, byte_fault, bytes_fault, qualifier_fault, qualifiers_fault, longest, fault_of};

use crate::fault::NameFault;
use crate::form::Form;
use crate::kind::NameKind;
use crate::qualifiers::qualifier_end;

/// The first fault of a text.
pub(crate) fn fault_in(form: Form, kind: NameKind, text: &[u8]) -> Option<NameFault>
    ensures first { result ≡ fault_of form kind text.now }
    ensures fits { IfNone result (length text.now ≤ 246) }
{
    if text.is_empty() {
        return Some(NameFault::Empty);
    }
    if text.len() > most_bytes(kind) {
        return Some(NameFault::TooLong);
    }
    if is_faultless(form, kind, text) {
        return None;
    }
    fault_in_qualifiers(form, kind, text)
}

/// Whether one pass tells that no qualifier of a resource's name has a fault.
fn is_faultless(form: Form, kind: NameKind, text: &[u8]) -> bool
    requires { length text.now ≤ 246 }
    ensures { IsTrue result → qualifiers_fault form kind 1 1 (qualifiers text.now) ≡ None }
{
    match form {
        Form::Discrete => stands_discrete(kind, text),
        Form::Generic | Form::Symbolic => false,
    }
}

/// Whether one pass tells that the qualifiers of a text have no fault in the name of a resource. Most bytes are
/// letters, so it asks for those first.
fn stands_discrete(kind: NameKind, text: &[u8]) -> bool
    requires { length text.now ≤ 246 }
    ensures { IsTrue result → qualifiers_fault Discrete kind 1 1 (qualifiers text.now) ≡ None }
{
    let longest = longest_qualifier(kind);
    let mut passed = 0;
    for byte in text {
        if passed < longest && matches!(*byte, b'A'..=b'Z') {
            passed += 1;
        } else if *byte == b'.' {
            if passed == 0 {
                return false;
            }
            passed = 0;
        } else {
            if passed >= longest || !stands_for_itself(kind, passed == 0, *byte) {
                return false;
            }
            passed += 1;
        }
    }
    passed > 0
}

/// The most bytes that a qualifier may have. In a general name that is what the whole name may have.
fn longest_qualifier(kind: NameKind) -> usize
    ensures fits { (q : List ℕ) → length q ≤ result → is_too_long kind q ≡ false }
    ensures most { result ≤ 246 }
{
    match kind {
        NameKind::DataSet => 8,
        NameKind::General => 246,
    }
}

/// The most bytes that a name may have.
fn most_bytes(kind: NameKind) -> usize
    ensures most { result ≡ longest kind }
    ensures array { result ≤ 246 }
{
    match kind {
        NameKind::DataSet => 44,
        NameKind::General => 246,
    }
}

/// The first fault in the qualifiers of a text.
fn fault_in_qualifiers(form: Form, kind: NameKind, text: &[u8]) -> Option<NameFault>
    requires { length text.now ≤ 246 }
    ensures { result ≡ qualifiers_fault form kind 1 1 (qualifiers text.now) }
{
    let mut number = 1;
    let mut at = 0;
    while at <= text.len() {
        let end = qualifier_end(text, at);
        let fault = fault_in_qualifier(form, kind, number, at as u32 + 1, &text[at..end]);
        if fault.is_some() {
            return fault;
        }
        number += 1;
        at = end + 1;
    }
    None
}

/// The first fault of a qualifier, which has this number and begins at this place.
fn fault_in_qualifier(
    form: Form,
    kind: NameKind,
    number: u32,
    place: u32,
    qualifier: &[u8],
) -> Option<NameFault>
    requires { place + length qualifier.now ≤ 1000 }
    ensures { result ≡ qualifier_fault form kind number place qualifier.now }
{
    if qualifier.is_empty() {
        return Some(NameFault::EmptyQualifier(number));
    }
    if exceeds(kind, qualifier) {
        return Some(NameFault::QualifierTooLong(number));
    }
    if !stands_whole(form, qualifier) {
        let fault = fault_in_bytes(form, kind, place, qualifier);
        if fault.is_some() {
            return fault;
        }
    }
    if begins_generic(kind, number, qualifier) {
        return Some(NameFault::GenericFirst);
    }
    None
}

/// The first qualifier of a data set's name has no generic character.
fn begins_generic(kind: NameKind, number: u32, qualifier: &[u8]) -> bool
    ensures { result ≡ is_generic_first kind number qualifier.now }
{
    kind == NameKind::DataSet && number == 1 && has_generic_byte(qualifier)
}

/// A qualifier of a data set's name has at most eight bytes.
fn exceeds(kind: NameKind, qualifier: &[u8]) -> bool
    ensures { result ≡ is_too_long kind qualifier.now }
{
    kind == NameKind::DataSet && qualifier.len() > 8
}

/// The first fault in the bytes of a qualifier, which begins at this place.
fn fault_in_bytes(form: Form, kind: NameKind, place: u32, qualifier: &[u8]) -> Option<NameFault>
    requires { place + length qualifier.now ≤ 1000 }
    ensures { result ≡ bytes_fault form kind true place qualifier.now }
{
    for (i, byte) in qualifier.iter().enumerate() {
        let fault = fault_in_byte(
            form,
            kind,
            i == 0,
            i + 1 == qualifier.len(),
            place + i as u32,
            *byte,
        );
        if fault.is_some() {
            return fault;
        }
    }
    None
}

/// What is wrong with a byte, which may be the first or the last of its qualifier.
fn fault_in_byte(
    form: Form,
    kind: NameKind,
    first: bool,
    last: bool,
    place: u32,
    byte: u8,
) -> Option<NameFault>
    ensures { result ≡ byte_fault form kind first last place byte }
{
    match byte {
        b'%' if may_be_generic(form) => None,
        b'*' if may_be_generic(form) => {
            if last {
                None
            } else {
                Some(NameFault::StarInside(place))
            }
        }
        _ => {
            if stands_for_itself(kind, first, byte) {
                None
            } else {
                Some(NameFault::BadByte(place))
            }
        }
    }
}

/// Whether a byte stands for itself in a qualifier of this kind.
fn stands_for_itself(kind: NameKind, first: bool, byte: u8) -> bool
    ensures { result ≡ is_ordinary kind first byte }
{
    match kind {
        NameKind::DataSet => is_letter_like(byte)
            || !first && (is_digit_byte(byte) || byte == b'-'),
        NameKind::General => {
            is_letter_like(byte) || is_digit_byte(byte) || matches!(byte, b'-' | b'_' | b'/' | b':')
        }
    }
}

/// Whether it is A to Z or one of the national characters.
fn is_letter_like(byte: u8) -> bool
    ensures { result ≡ is_letter byte }
{
    matches!(byte, b'A'..=b'Z' | b'#' | b'$' | b'@')
}

/// Whether it is a digit.
fn is_digit_byte(byte: u8) -> bool
    ensures { result ≡ is_digit byte }
{
    matches!(byte, b'0'..=b'9')
}

/// Whether generic characters may stand in it.
fn may_be_generic(form: Form) -> bool
    ensures { result ≡ has_generic form }
{
    form != Form::Discrete
}

/// Whether a qualifier is lawful as a whole.
fn stands_whole(form: Form, qualifier: &[u8]) -> bool
    ensures { result ≡ is_whole form qualifier.now }
{
    match form {
        Form::Discrete => false,
        Form::Generic => qualifier == b"**".as_slice(),
        Form::Symbolic => {
            qualifier == b"**".as_slice()
                || qualifier == b"&RACUID".as_slice()
                || qualifier == b"&RACGPID".as_slice()
        }
    }
}

/// Whether a qualifier has a generic character.
pub(crate) fn has_generic_byte(qualifier: &[u8]) -> bool
    ensures { result ≡ list_any (λ b. (b == percent) || (b == asterisk)) qualifier.now }
{
    qualifier.iter().any(|byte| *byte == b'%' || *byte == b'*')
}
