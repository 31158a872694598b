//! Lines with what they ask for and with the places of what doesn't fit, and the life of an ACEE. What is answered to
//! lines is tested through the program, on stored streams.

use access_levels::{Attributes, Categories, Id};
use acee::{Acee, AceeGroups};
use request_files::{AceeTable, LineRefusal, NamedIssuer, RequestLine, read_issuer, read_line};
use std::process::Abort;

/// Where a line is bad, or 0.
fn bad_place(line: &[u8]) -> u32 {
    match read_line(line) {
        Err(LineRefusal::BadLine(place)) => place,
        _ => 0,
    }
}

/// Lines with the places where they are bad.
const BAD_LINES: [(&[u8], u32); 26] = [
    (b" /* x", 2),
    (b"LIST A", 1),
    (b"VERIFY,A JOE", 1),
    (b"VERIFY", 7),
    (b"VERIFY  ", 9),
    (b"VERIFY A", 9),
    (b"VERIFY A.B JOE", 8),
    (b"VERIFY A JOE GROUP(9X)", 14),
    (b"VERIFY A JOE GROUP( G)", 14),
    (b"VERIFY A JOE APPL(X) APPL(X)", 22),
    (b"VERIFY A JOE TERMINAL(T) APPCPORT(T)", 26),
    (b"VERIFY A JOE JOB(X)", 14),
    (b"VERIFY A JOE APPL(TOOLONGID)", 14),
    (b"\tDELETE\tA B", 11),
    (b"DELETE ", 8),
    (b"AUTH A DATASET SYS1.A EXECUTE", 23),
    (b"AUTH A DATASET SYS1.A", 22),
    (b"AUTH A DATASET SYS1.A READ X", 28),
    (b"AUTH A DATA.SET SYS1.A READ", 8),
    (b"AUTH A DATASET A..B NONE", 21),
    (b"FASTAUTH A", 11),
    (b"*AFTER", 7),
    (b"*AFTER 01", 8),
    (b"*AFTER -1", 8),
    (b"*AFTER 4611686018427387905", 8),
    (b"*AFTER 1 2", 10),
];

#[test]
fn words_that_do_not_fit(rt: HostRuntime) {
    for (line, place) in &BAD_LINES {
        assert!(rt; bad_place(line) == *place);
    }
}

/// Where a line that names the issuer is bad, or 0.
fn bad_issuer(line: &[u8]) -> u32 {
    match read_issuer(line) {
        Err(LineRefusal::BadLine(place)) => place,
        _ => 0,
    }
}

/// Lines that name an issuer with the places where they are bad.
const BAD_ISSUERS: [(&[u8], u32); 9] = [
    (b"*ISSUER", 8),
    (b"*ISSUER  ", 10),
    (b"*ISSUER A.B", 9),
    (b"*ISSUER A,GROUP(B)", 9),
    (b"*ISSUER A GROUP", 11),
    (b"*ISSUER A GROUP (B)", 11),
    (b"*ISSUER A GROUP(9X)", 11),
    (b"*ISSUER A GROUP(TOOLONGID)", 11),
    (b" *ISSUER A GROUP(B) X", 21),
];

#[test]
fn issuers_that_do_not_fit(rt: HostRuntime) {
    for (line, place) in &BAD_ISSUERS {
        assert!(rt; bad_issuer(line) == *place);
    }
}

/// The ID of that text, which is lawful.
fn id(rt: &impl Abort, text: &[u8]) -> Id {
    Id::read(text).expect(rt, "a lawful ID")
}

/// Whether the line names this issuer with this group.
fn names(line: &[u8], id: Id, group: Option<Id>) -> bool {
    read_issuer(line) == Ok(NamedIssuer { id, group })
}

#[test]
fn issuers_that_are_named(rt: HostRuntime) {
    let (ann, sys1) = (id(&rt, b"ANN"), id(&rt, b"SYS1"));
    assert!(rt; names(b"*ISSUER ann", ann, None));
    assert!(rt; names(b"\t*issuer\tAnn  Group(sys1) ", ann, Some(sys1)));
}

/// What a line asks for.
#[derive(Clone, Copy, PartialEq, Eq)]
enum Asked {
    Verify,
    Auth,
    Fastauth,
    Delete,
    After,
    Nothing,
    /// The line is refused.
    Refused,
}

fn kind_of(line: &[u8]) -> Asked {
    match read_line(line) {
        Ok(RequestLine::Verify(_, _)) => Asked::Verify,
        Ok(RequestLine::Auth(_, _)) => Asked::Auth,
        Ok(RequestLine::Fastauth(_, _)) => Asked::Fastauth,
        Ok(RequestLine::Delete(_)) => Asked::Delete,
        Ok(RequestLine::After(_)) => Asked::After,
        Ok(RequestLine::Skip) => Asked::Nothing,
        Err(_) => Asked::Refused,
    }
}

/// Lines with what they ask for.
const LINES: [(&[u8], Asked); 12] = [
    (b"verify a joe", Asked::Verify),
    (
        b"VERIFY A JOE SECLABEL(L) CONSOLE(C1) GROUP(G) APPL(X)",
        Asked::Verify,
    ),
    (b"AUTH A DATASET SYS1.A READ", Asked::Auth),
    (b"  auth\ta facility bpx.1 alter ", Asked::Auth),
    (b"FASTAUTH A FACILITY BPX.1 CONTROL", Asked::Fastauth),
    (b"DELETE $#@1", Asked::Delete),
    (b"*after 4611686018427387904", Asked::After),
    (b"*AFTER 0", Asked::After),
    (b"/* AUTH", Asked::Nothing),
    (b" \t ", Asked::Nothing),
    (b"", Asked::Nothing),
    (b"AUTH A DATASET 1.A READ", Asked::Refused),
];

#[test]
fn lines_that_fit(rt: HostRuntime) {
    for (line, wanted) in &LINES {
        assert!(rt; kind_of(line) == *wanted);
    }
}

/// The ACEE of a user without groups.
fn acee(rt: &(impl AllocGlobal + Abort), user: Id) -> Acee {
    let groups = AceeGroups::of(rt.alloc(), &[]).expect(rt, "memory");
    Acee {
        user,
        current: user,
        groups,
        attributes: Attributes::default(),
        level: 0,
        categories: Categories::none(),
        label: None,
        port: None,
        application: None,
        generation: 0,
    }
}

/// The name A and that number.
fn numbered(rt: &(impl AllocGlobal + Abort), number: u32) -> Id {
    let name = format!(in rt.alloc(); "A{number}").expect(rt, "memory");
    id(rt, name.as_bytes())
}

/// The ACEEs A0 to A255, each put.
fn full_table(rt: &(impl AllocGlobal + Abort)) -> AceeTable {
    let mut acees = AceeTable::new(rt.alloc()).expect(rt, "memory");
    for number in 0..256u32 {
        let name = numbered(rt, number);
        assert!(rt; acees.put(name, acee(rt, name)).is_ok());
    }
    acees
}

/// Whether the ACEE of the user of that name is taken out.
fn is_removed(acees: &mut AceeTable, name: Id) -> bool {
    match acees.remove(name) {
        Some(acee) => acee.user == name,
        None => false,
    }
}

/// The life of an ACEE: 256 are put, the next one and a second of a name are refused, and one goes.
#[test]
fn acees_in_use(rt: HostRuntime) {
    let (first, next) = (id(&rt, b"A0"), id(&rt, b"NEXT"));
    let mut acees = full_table(&rt);
    let full = acees.put(next, acee(&rt, next));
    assert!(rt; full == Err(LineRefusal::AceesFull));
    let again = acees.put(first, acee(&rt, next));
    assert!(rt; again == Err(LineRefusal::AceeExists(first)));
    assert!(rt; is_removed(&mut acees, first));
    assert!(rt; acees.get(first).is_none());
    assert!(rt; acees.len() == 255);
}
