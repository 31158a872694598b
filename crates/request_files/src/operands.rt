//! The operands of VERIFY: keys with values in parentheses.

ghost use Rattle.std.specs.Prelude.{◌≡◌, position};
ghost use Rattle.std.specs.List.{before_first, after_first};
ghost use Rattle.std.specs.Option.{option_copied};
ghost use Rattle.request_files.specs.Spellings.{folded, operand_word, keyed, opens, closed, port_at};
ghost use Rattle.request_files.specs.Grammar.{with_operand};
ghost use Rattle.request_files.specs.declared.operands.Operand.TheVariants as operand;

use access_levels::{Condition, Id, PortClass};
use acee::VerifyRequest;
use command_values::{group_named, id_named, port_class_named};
use command_words::is_spelled;

/// An operand of VERIFY.
#[derive(Clone, Copy, Debug, PartialEq, Eq)]
pub(crate) enum Operand {
    /// The group that becomes the current one.
    Group(Id),
    /// The port of entry.
    Port(Condition),
    /// The application.
    Application(Id),
    /// The security label.
    Label(Id),
}

/// The operand that a word spells.
pub(crate) fn operand_word(word: &[u8]) -> Option<Operand>
    ensures { result ≡ operand_word word.now }
{
    let (key, rest) = parts(word);
    let value = closed(rest)?;
    keyed(key, value)
}

/// What stands before the first parenthesis, and what stands behind it.
fn parts(word: &[u8]) -> (&[u8], &[u8])
    ensures key { result.0.now ≡ before_first opens word.now }
    ensures rest { result.1.now ≡ after_first opens word.now }
{
    match first_parenthesis(word) {
        Some(at) => (&word[..at], &word[at + 1..]),
        None => (word, &[]),
    }
}

/// The index of the first opening parenthesis.
fn first_parenthesis(word: &[u8]) -> Option<usize>
    ensures { result ≡ position opens word.now }
{
    word.iter().position(|byte| *byte == b'(')
}

/// What stands before the parenthesis that ends the word.
fn closed(rest: &[u8]) -> Option<&[u8]>
    ensures { option_copied result ≡ closed rest.now }
{
    match rest {
        [value @ .., b')'] => Some(value),
        _ => None,
    }
}

/// The operand of that key, with that value.
fn keyed(key: &[u8], value: &[u8]) -> Option<Operand>
    ensures { result ≡ keyed (folded key.now) value.now }
{
    if is_spelled(key, b"GROUP") {
        return Some(Operand::Group(group_named(value)?));
    }
    if is_spelled(key, b"APPL") {
        return Some(Operand::Application(id_named(value)?));
    }
    if is_spelled(key, b"SECLABEL") {
        return Some(Operand::Label(id_named(value)?));
    }
    port_at(port_class_named(key)?, value)
}

/// The port of that class, with that name.
fn port_at(class: PortClass, value: &[u8]) -> Option<Operand>
    ensures { result ≡ port_at value.now class }
{
    let name = id_named(value)?;
    Some(Operand::Port(Condition { class, name }))
}

/// The request with an operand more, unless that operand, or a port, stands in it already.
pub(crate) fn with_operand(request: &VerifyRequest, operand: &Operand) -> Option<VerifyRequest>
    ensures { result ≡ with_operand request.now operand.now }
{
    match operand {
        Operand::Group(group) => with_group(request, *group),
        Operand::Port(port) => with_port(request, *port),
        Operand::Application(name) => with_application(request, *name),
        Operand::Label(label) => with_label(request, *label),
    }
}

/// The request with that group, unless it names one.
fn with_group(request: &VerifyRequest, group: Id) -> Option<VerifyRequest>
    ensures { result ≡ with_operand request.now (operand.Group group) }
{
    if request.group.is_some() {
        return None;
    }
    Some(VerifyRequest {
        group: Some(group),
        ..*request
    })
}

/// The request with that port, unless it names one.
fn with_port(request: &VerifyRequest, port: Condition) -> Option<VerifyRequest>
    ensures { result ≡ with_operand request.now (operand.Port port) }
{
    if request.port.is_some() {
        return None;
    }
    Some(VerifyRequest {
        port: Some(port),
        ..*request
    })
}

/// The request with that application, unless it names one.
fn with_application(request: &VerifyRequest, name: Id) -> Option<VerifyRequest>
    ensures { result ≡ with_operand request.now (operand.Application name) }
{
    if request.application.is_some() {
        return None;
    }
    Some(VerifyRequest {
        application: Some(name),
        ..*request
    })
}

/// The request with that label, unless it names one.
fn with_label(request: &VerifyRequest, label: Id) -> Option<VerifyRequest>
    ensures { result ≡ with_operand request.now (operand.Label label) }
{
    if request.label.is_some() {
        return None;
    }
    Some(VerifyRequest {
        label: Some(label),
        ..*request
    })
}
