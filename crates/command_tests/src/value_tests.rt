//! Values of each kind, how they are written, and where they are refused.
use access_levels::Id;
use command_values::{
    Content, Known, ParseFault, Scope, Syntax, ValueKind, any_named, bare, one, push_content, value,
};
use command_words::Tokens;
use generic_names::Pattern;
use std::alloc::Global;
use std::process::Abort;

/// The ID of that text, which is lawful.
fn id(rt: &impl Abort, text: &[u8]) -> Id {
    Id::read(text).expect(rt, "a lawful ID")
}

/// The scope of a command of JOE's that names this class and profile.
fn scope(rt: &impl Abort, class: Option<Id>, profile: Option<Pattern>) -> Scope {
    Scope {
        issuer: id(rt, b"JOE"),
        known: Known { class, profile },
    }
}

/// A value of this kind that this short text spells.
fn content(alloc: Global, at: &Scope, kind: ValueKind, text: &[u8]) -> Result<Content, ParseFault> {
    if text.len() > 99 {
        return Err(ParseFault::NoMemory);
    }
    value(alloc, at, kind, 1, Tokens::new(text))
}

/// Whether a value is written so.
fn is_written(alloc: Global, content: &Content, wanted: &[u8]) -> bool {
    let mut out = Vec::new(alloc);
    push_content(&mut out, content).is_ok() && out.as_slice() == wanted
}

/// Whether a value of this kind is written so, where it reads this text.
fn is_read(alloc: Global, at: &Scope, kind: ValueKind, text: &[u8], wanted: &[u8]) -> bool {
    match content(alloc, at, kind, text) {
        Ok(content) => is_written(alloc, &content, wanted),
        Err(_) => false,
    }
}

/// A kind, a text, and how the value is written.
type Written = (ValueKind, &'static [u8], &'static [u8]);

/// Values of one word.
const OF_ONE_WORD: [Written; 7] = [
    (ValueKind::Id, b"mary", b"MARY"),
    (ValueKind::Group, b"pay", b"PAY"),
    (ValueKind::Class, b"appl", b"APPL"),
    (ValueKind::Authority, b"join", b"JOIN"),
    (ValueKind::Level, b"read", b"READ"),
    (ValueKind::Name, b"'It''s'", b"'It''s'"),
    (ValueKind::Reset, b"when", b"WHEN"),
];

/// Lists and nested values.
const LISTS: [Written; 6] = [
    (ValueKind::Ids, b"a,b", b"A B"),
    (ValueKind::Classes, b"USER APPL", b"USER APPL"),
    (ValueKind::Whos, b"*", b"*"),
    (ValueKind::Whos, b"u v", b"U V"),
    (ValueKind::When, b"console(c1)", b"CONSOLE(C1)"),
    (
        ValueKind::Audit,
        b"ALL(UPDATE)",
        b"SUCCESS(UPDATE) FAILURES(UPDATE)",
    ),
];

/// Members of the profile DATASET of the class GLOBAL.
const MEMBERS: [Written; 2] = [
    (ValueKind::AddedMembers, b"'A.B'/READ", b"'A.B'/READ"),
    (ValueKind::DroppedMembers, b"a.b", b"'A.B'"),
];

#[test]
fn reads_values_of_one_word(rt: HostRuntime) {
    let at = scope(&rt, None, None);
    for (kind, text, wanted) in &OF_ONE_WORD {
        assert!(rt; is_read(rt.alloc(), &at, *kind, text, wanted));
    }
}

#[test]
fn reads_lists_and_nested_values(rt: HostRuntime) {
    let at = scope(&rt, None, None);
    for (kind, text, wanted) in &LISTS {
        assert!(rt; is_read(rt.alloc(), &at, *kind, text, wanted));
    }
}

/// The profile DATASET of the class GLOBAL.
fn global_data_sets(rt: &(impl AllocGlobal + Abort)) -> Option<Pattern> {
    let global = Some(id(rt, b"GLOBAL"));
    any_named(rt.alloc(), id(rt, b"JOE"), global, b"DATASET").expect(rt, "memory")
}

#[test]
fn reads_members(rt: HostRuntime) {
    let at = scope(&rt, Some(id(&rt, b"GLOBAL")), global_data_sets(&rt));
    for (kind, text, wanted) in &MEMBERS {
        assert!(rt; is_read(rt.alloc(), &at, *kind, text, wanted));
    }
}

/// Whether a value is refused at this place.
fn is_refused(read: Result<Content, ParseFault>, place: u32) -> bool {
    match read {
        Ok(_) => false,
        Err(fault) => fault == ParseFault::Syntax(Syntax::BadValue(place)),
    }
}

/// Whether this is no value of the kind without a text.
fn is_refused_alone(at: &Scope, kind: ValueKind) -> bool {
    match bare(at, kind, 5) {
        Ok(_) => false,
        Err(fault) => fault == Syntax::BadValue(5),
    }
}

#[test]
fn tells_where_a_value_is_refused(rt: HostRuntime) {
    let at = scope(&rt, None, None);
    let (ids, profile) = (ValueKind::Ids, ValueKind::DataSetProfile);
    assert!(rt; is_refused(content(rt.alloc(), &at, ids, b"A %"), 3));
    assert!(rt; is_refused(one(rt.alloc(), &at, profile, 7, b"'.'"), 7));
    assert!(rt; is_refused_alone(&at, ValueKind::Level));
}

/// Whether a data set profile of one word is written so.
fn is_read_as_profile(alloc: Global, at: &Scope, word: &[u8], wanted: &[u8]) -> bool {
    match one(alloc, at, ValueKind::DataSetProfile, 7, word) {
        Ok(content) => is_written(alloc, &content, wanted),
        Err(_) => false,
    }
}

/// Whether the word names no profile of the class, for JOE.
fn is_no_name(rt: &(impl AllocGlobal + Abort), class: &[u8], word: &[u8]) -> bool {
    match any_named(rt.alloc(), id(rt, b"JOE"), Some(id(rt, class)), word) {
        Ok(name) => name.is_none(),
        Err(_) => false,
    }
}

#[test]
fn reads_names_of_profiles(rt: HostRuntime) {
    let at = scope(&rt, None, None);
    assert!(rt; is_read_as_profile(rt.alloc(), &at, b"pay.*", b"'JOE.PAY.*'"));
    assert!(rt; is_no_name(&rt, b"APPL", b"a..b"));
}
