//! ACEEs and decisions, printed with all that they hold.

use crate::row_words::{NOTHING, add_word, id_text, port_text, shown, text};
use access_levels::{Attributes, Categories, Condition, Id};
use acee::{Acee, AceeGroup};
use anyhow::Result;
use decision::{Decision, Rule};
use std::alloc::{AllocError, Global};

/// Prints an ACEE.
pub(crate) fn print_acee(rt: &(impl Print + AllocGlobal), acee: &Acee) -> Result<()> {
    let groups = group_words(rt.alloc(), acee.groups.as_slice())?;
    let attributes = attribute_words(rt.alloc(), &acee.attributes)?;
    let categories = category_words(rt.alloc(), &acee.categories)?;
    let port = entry_text(rt.alloc(), &acee.port)?;
    println!(rt;
        "{} in {} groups={} attributes={} port={} application={} level={} categories={} label={} number={}",
        text(acee.user.text()),
        text(acee.current.text()),
        shown(&groups),
        shown(&attributes),
        shown(&port),
        id_text(&acee.application),
        acee.level,
        shown(&categories),
        id_text(&acee.label),
        acee.generation
    )?;
    Ok(())
}

/// The groups, where a `*` marks group-OPERATIONS.
fn group_words(alloc: Global, groups: &[AceeGroup]) -> Result<String, AllocError> {
    let mut words = String::new(alloc);
    for group in groups {
        add_word(&mut words, text(group.group.text()))?;
        if group.operations {
            words.push('*')?;
        }
    }
    Ok(words)
}

/// The attributes that are set.
fn attribute_words(alloc: Global, attributes: &Attributes) -> Result<String, AllocError> {
    let mut words = String::new(alloc);
    for (is_set, word) in [
        (attributes.special, "SPECIAL"),
        (attributes.operations, "OPERATIONS"),
        (attributes.auditor, "AUDITOR"),
        (attributes.restricted, "RESTRICTED"),
        (attributes.revoked, "REVOKED"),
        (attributes.uaudit, "UAUDIT"),
    ] {
        if is_set {
            add_word(&mut words, word)?;
        }
    }
    Ok(words)
}

/// The numbers of the categories.
fn category_words(alloc: Global, categories: &Categories) -> Result<String, AllocError> {
    let mut words = String::new(alloc);
    for number in 0..=u8::MAX {
        if categories.has(number) {
            let word = format!(in alloc; "{number}")?;
            add_word(&mut words, word.as_str())?;
        }
    }
    Ok(words)
}

/// The port of entry, if there is one.
fn entry_text(alloc: Global, port: &Option<Condition>) -> Result<String, AllocError> {
    match port {
        Some(port) => port_text(alloc, port),
        None => Ok(String::new(alloc)),
    }
}

/// Prints a decision.
pub(crate) fn print_decision(rt: &(impl Print + AllocGlobal), decision: &Decision) -> Result<()> {
    let rule = rule_text(rt.alloc(), &decision.rule)?;
    let profile = match &decision.profile {
        Some(profile) => text(profile.text()),
        None => NOTHING,
    };
    println!(rt;
        "{} {rule} profile={profile} found={} warned={} number={}",
        decision.rc,
        text(decision.found.name()),
        decision.warned,
        decision.generation
    )?;
    Ok(())
}

/// The rule, with the group or the port of which it speaks.
fn rule_text(alloc: Global, rule: &Rule) -> Result<String, AllocError> {
    match rule {
        Rule::GroupEntry(group) => group_rule_text(alloc, "GroupEntry", group),
        Rule::GroupOperations(group) => group_rule_text(alloc, "GroupOperations", group),
        Rule::Conditional(port) => {
            let port = port_text(alloc, port)?;
            format!(in alloc; "Conditional {port}")
        }
        rule => format!(in alloc; "{rule:?}"),
    }
}

/// A rule, with its group.
fn group_rule_text(alloc: Global, rule: &str, group: &Id) -> Result<String, AllocError> {
    format!(in alloc; "{rule} {}", text(group.text()))
}
