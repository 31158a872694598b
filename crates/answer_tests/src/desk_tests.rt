//! Commands by several issuers, one after another: the words of each answer, and where the desk stands behind them.

ghost use Rattle.std.specs.Prelude.{◌≡◌, false, Some, IfSome};
ghost use Rattle.desk_rules.specs.Made.{made_in};

use access_levels::Id;
use racf_desk::{Desk, Ready, Refusal, Reply};
use racf_outside::{NeverDisk, Two};
use racf_profiles::ibmuser;
use std::alloc::Global;
use std::process::Abort;

/// A command: who gives it, the group that is named for him if one is, its text, and the words of its answer.
type Given = (&'static [u8], &'static [u8], &'static [u8], &'static [u8]);

/// The ID of that text, which is lawful.
fn id(rt: &impl Abort, text: &[u8]) -> Id {
    Id::read(text).expect(rt, "a lawful ID")
}

/// The group of that name, if one is named.
fn group_named(rt: &impl Abort, name: &[u8]) -> Option<Id> {
    if name.is_empty() {
        None
    } else {
        Some(Id::read_group(name).expect(rt, "a lawful group"))
    }
}

/// Whether the refusal has these words.
fn is_told(alloc: Global, why: &Refusal, words: &[u8]) -> bool {
    let mut told = Vec::new(alloc);
    why.write(&mut told).is_ok() && told.as_slice() == words
}

/// Whether the answer has these words.
fn has_words(alloc: Global, reply: &Reply, words: &[u8]) -> bool {
    match reply {
        Reply::Accepted(_) => words == b"ACCEPTED".as_slice(),
        Reply::Refused(_, why) => is_told(alloc, why, words),
        Reply::Halted(_) | Reply::DiskFault(_) | Reply::NoMemory => false,
    }
}

/// Disks that keep nothing.
pub(crate) fn never_disks() -> Two<NeverDisk> {
    Two {
        first: NeverDisk,
        second: NeverDisk,
    }
}

/// A new desk over such disks.
pub(crate) fn new_desk(rt: &(impl AllocGlobal + Abort)) -> Desk<NeverDisk>
    ensures running { result.halted ≡ false }
    ensures settled { result.committed ≡ false }
{
    match Desk::format(rt.alloc(), never_disks()) {
        Ok(desk) => desk,
        Err((_, fault)) => panic!(rt; "{fault}"),
    }
}

/// Whether the desk answers the command with its words.
fn answers(rt: &(impl AllocGlobal + Abort), desk: &mut Desk<NeverDisk>, given: Given) -> bool
    requires settled { desk.old.committed ≡ false }
    ensures settled { desk.new.committed ≡ false }
{
    let (issuer, group, text, words) = given;
    let (issuer, group) = (id(rt, issuer), group_named(rt, group));
    let reply = desk.execute(rt.alloc(), issuer, group, text);
    has_words(rt.alloc(), &reply, words)
}

/// Gives the commands at a new desk, and asserts the words of each answer and the number behind them.
fn assert_answers(rt: &(impl AllocGlobal + Abort), rows: &[Given], number: u64) {
    let mut desk = new_desk(rt);
    for row in rows {
        assert!(rt; answers(rt, &mut desk, *row));
    }
    assert!(rt; desk.number() == number);
    assert!(rt; desk.image().generation() == number);
    let _ = desk.into_disks();
}

/// Group-SPECIAL ends above a group that a user owns.
const SCOPE: [Given; 9] = [
    (b"IBMUSER", b"", b"AG D1 OWNER(SYS1)", b"ACCEPTED"),
    (
        b"IBMUSER",
        b"",
        b"AG D2 SUPGROUP(D1) OWNER(D1)",
        b"ACCEPTED",
    ),
    (
        b"IBMUSER",
        b"",
        b"AG D3 SUPGROUP(D2) OWNER(D2)",
        b"ACCEPTED",
    ),
    (b"IBMUSER", b"", b"AU ADM DFLTGRP(D1)", b"ACCEPTED"),
    (b"IBMUSER", b"", b"CO ADM GROUP(D1) SPECIAL", b"ACCEPTED"),
    (
        b"IBMUSER",
        b"",
        b"AU SUE DFLTGRP(D3) OWNER(D3)",
        b"ACCEPTED",
    ),
    (b"ADM", b"", b"ALU SUE NAME('Sue')", b"ACCEPTED"),
    (b"IBMUSER", b"", b"ALG D2 OWNER(IBMUSER)", b"ACCEPTED"),
    (
        b"ADM",
        b"",
        b"ALU SUE REVOKE",
        b"NEED SPECIAL OWNER GROUPSPECIAL",
    ),
];

#[test]
fn scope_of_group_special(rt: HostRuntime) {
    assert_answers(&rt, &SCOPE, 8);
}

/// An authority in a group is enough for some of its members' connections, and not for its users.
const AUTHORITY: [Given; 9] = [
    (b"IBMUSER", b"", b"AG G1", b"ACCEPTED"),
    (
        b"IBMUSER",
        b"",
        b"AU ANN DFLTGRP(G1) AUTHORITY(CONNECT)",
        b"ACCEPTED",
    ),
    (b"IBMUSER", b"", b"AU BOB", b"ACCEPTED"),
    (b"ANN", b"", b"CO BOB GROUP(G1)", b"ACCEPTED"),
    (
        b"ANN",
        b"",
        b"CO BOB GROUP(G1) AUTHORITY(JOIN)",
        b"NEED SPECIAL OWNER GROUPSPECIAL AUTHORITY(JOIN)",
    ),
    (
        b"ANN",
        b"",
        b"AU CAT",
        b"NEED SPECIAL CLAUTH(USER)+JOIN(G1) CLAUTH(USER)+OWNER CLAUTH(USER)+GROUPSPECIAL",
    ),
    (
        b"ANN",
        b"",
        b"AU CAT SPECIAL",
        b"NEED SPECIAL CLAUTH(USER)+JOIN(G1) CLAUTH(USER)+OWNER CLAUTH(USER)+GROUPSPECIAL",
    ),
    (
        b"ANN",
        b"",
        b"RDEF FACILITY X",
        b"NEED SPECIAL CLAUTH(FACILITY)",
    ),
    (
        b"ANN",
        b"",
        b"AD 'BOB.X'",
        b"NEED SPECIAL OWNDATA CREATE(BOB) GROUPSPECIAL",
    ),
];

#[test]
fn authority_in_a_group(rt: HostRuntime) {
    assert_answers(&rt, &AUTHORITY, 4);
}

/// An issuer is judged as he stands at the command: whether he is there, revoked, and connected to the group that is
/// current then.
const ISSUERS: [Given; 16] = [
    (b"ANN", b"", b"AG X", b"ISSUERUNKNOWN ANN"),
    (b"ANN", b"", b"AX", b"SYNTAX UNKNOWNCOMMAND"),
    (b"IBMUSER", b"", b"AG G1", b"ACCEPTED"),
    (b"IBMUSER", b"", b"AG G2", b"ACCEPTED"),
    (
        b"IBMUSER",
        b"",
        b"AU ANN DFLTGRP(G1) AUTHORITY(JOIN)",
        b"ACCEPTED",
    ),
    (b"ANN", b"", b"AG X", b"ACCEPTED"),
    (b"ANN", b"G2", b"AG Y", b"ISSUERNOTCONNECTED G2"),
    (b"IBMUSER", b"", b"CO ANN GROUP(G2)", b"ACCEPTED"),
    (b"IBMUSER", b"", b"ALU ANN DFLTGRP(G2)", b"ACCEPTED"),
    (
        b"ANN",
        b"",
        b"AG Y",
        b"NEED SPECIAL JOIN(G2) OWNER GROUPSPECIAL",
    ),
    (b"ANN", b"G1", b"AG Y", b"ACCEPTED"),
    (b"IBMUSER", b"", b"CO ANN GROUP(G2) REVOKE", b"ACCEPTED"),
    (b"ANN", b"", b"AG Z", b"ISSUERNOTCONNECTED G2"),
    (b"ANN", b"G1", b"AG Z", b"ACCEPTED"),
    (b"IBMUSER", b"", b"ALU ANN REVOKE", b"ACCEPTED"),
    (b"ANN", b"G1", b"AG A", b"ISSUERREVOKED ANN"),
];

#[test]
fn issuers(rt: HostRuntime) {
    assert_answers(&rt, &ISSUERS, 10);
}

/// What the issuer lacks is told behind some conflicts, and before the others.
const CONFLICTS: [Given; 9] = [
    (b"IBMUSER", b"", b"AU ANN", b"ACCEPTED"),
    (b"ANN", b"", b"AU IBMUSER", b"EXISTS IBMUSER"),
    (b"ANN", b"", b"DU NOBODY", b"NOUSER NOBODY"),
    (b"ANN", b"", b"DG SYS1", b"NEED SPECIAL OWNER GROUPSPECIAL"),
    (
        b"ANN",
        b"",
        b"RE IBMUSER GROUP(SYS1)",
        b"NEED SPECIAL CONNECT(SYS1) OWNER GROUPSPECIAL",
    ),
    (b"IBMUSER", b"", b"DG SYS1", b"ROOT"),
    (
        b"IBMUSER",
        b"",
        b"RE IBMUSER GROUP(SYS1)",
        b"DEFAULTGROUP SYS1",
    ),
    (b"IBMUSER", b"", b"ALU ANN UAUDIT", b"ACCEPTED"),
    (b"ANN", b"", b"ALU IBMUSER UAUDIT", b"NEED AUDITOR"),
];

#[test]
fn conflicts_and_needs(rt: HostRuntime) {
    assert_answers(&rt, &CONFLICTS, 2);
}

/// Makes IBMUSER's command of that text.
fn judged(alloc: Global, desk: &mut Desk<NeverDisk>, text: &[u8]) -> Option<Ready>
    requires running { desk.old.halted ≡ false }
    requires settled { desk.old.committed ≡ false }
    ensures made { IfSome result (λ ready. desk.new.made ≡ Some (made_in ready)) }
    ensures running { desk.new.halted ≡ false }
    ensures settled { desk.new.committed ≡ false }
{
    match desk.judge(alloc, ibmuser(), None, text) {
        Ok(ready) => Some(ready),
        Err(_) => None,
    }
}

/// Whether the desk makes IBMUSER's command for JIM, as the first, commits and installs it.
fn installs_jim(alloc: Global, desk: &mut Desk<NeverDisk>) -> bool
    requires running { desk.old.halted ≡ false }
    requires settled { desk.old.committed ≡ false }
{
    let Some(ready) = judged(alloc, desk, b"AU JIM NAME('Jim')") else {
        return false;
    };
    let is_canonical = ready.text.bytes() == b"ADDUSER JIM NAME('Jim')".as_slice();
    let before = desk.number();
    if desk.commit(&ready).is_err() {
        return false;
    }
    is_canonical && before == 0 && desk.number() == 0 && desk.install(ready) == 1
}

/// Whether JIM is installed while what was made of a command for JOE before it is still there.
fn installs_the_last(alloc: Global, desk: &mut Desk<NeverDisk>) -> bool
    requires running { desk.old.halted ≡ false }
    requires settled { desk.old.committed ≡ false }
{
    match judged(alloc, desk, b"ADDUSER JOE") {
        Some(_first) => installs_jim(alloc, desk),
        None => false,
    }
}

/// What was made last is installed, and what was made before it leaves nothing behind.
#[test]
fn the_last_is_installed(rt: HostRuntime) {
    let (joe, jim) = (id(&rt, b"JOE"), id(&rt, b"JIM"));
    let mut desk = new_desk(&rt);
    assert!(rt; installs_the_last(rt.alloc(), &mut desk));
    assert!(rt; desk.number() == 1);
    assert!(rt; desk.image().user(joe).is_none());
    assert!(rt; desk.image().user(jim).is_some());
    let _ = desk.into_disks();
}
