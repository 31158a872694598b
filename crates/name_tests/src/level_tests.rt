//! Each call once, and the spellings as a table.
use access_levels::{Categories, GroupAuthority, Id, IdFault, Level, PortClass, Text};

/// A text, and how it is refused as an ID and as a group.
type Spelling = (&'static [u8], Option<IdFault>, Option<IdFault>);

/// Texts that are IDs or not.
const SPELLINGS: [Spelling; 13] = [
    (b"", Some(IdFault::Empty), Some(IdFault::Empty)),
    (b"A", None, None),
    (b"IBMUSER", None, None),
    (b"A2345678", None, None),
    (b"#$@09AZ", None, None),
    (b"A23456789", Some(IdFault::TooLong), Some(IdFault::TooLong)),
    (b"9a3456789", Some(IdFault::TooLong), Some(IdFault::TooLong)),
    (b"a", Some(IdFault::BadByte(1)), Some(IdFault::BadByte(1))),
    (b"A-B", Some(IdFault::BadByte(2)), Some(IdFault::BadByte(2))),
    (
        b"ABCDEFG ",
        Some(IdFault::BadByte(8)),
        Some(IdFault::BadByte(8)),
    ),
    (
        b"A\xc1",
        Some(IdFault::BadByte(2)),
        Some(IdFault::BadByte(2)),
    ),
    (b"9A", None, Some(IdFault::BadByte(1))),
    (b"9a", Some(IdFault::BadByte(2)), Some(IdFault::BadByte(1))),
];

/// Whether a text is refused so, and is kept as it is where it is an ID.
fn is_spelled(text: &[u8], id_fault: Option<IdFault>, group_fault: Option<IdFault>) -> bool {
    let is_kept = match Id::read(text) {
        Ok(id) => id_fault.is_none() && id.text() == text,
        Err(fault) => Some(fault) == id_fault,
    };
    is_kept && Id::read_group(text).err() == group_fault
}

#[test]
fn spellings(rt: HostRuntime) {
    for (text, id_fault, group_fault) in &SPELLINGS {
        assert!(rt; is_spelled(text, *id_fault, *group_fault));
    }
}

#[test]
fn words(rt: HostRuntime) {
    assert!(rt; Level::read(b"EXECUTE") == Some(Level::Execute));
    assert!(rt; Level::read(b"NONE") == Some(Level::NoAccess));
    assert!(rt; Level::read(b"READ ").is_none());
    assert!(rt; Level::read(b"read").is_none());
    assert!(rt; Level::Alter.rank() == 5);
    assert!(rt; Level::Control.suffices(Level::Update) && !Level::Execute.suffices(Level::Read));
    assert!(rt; GroupAuthority::read(b"JOIN") == Some(GroupAuthority::MayJoin));
    assert!(rt; GroupAuthority::read(b"").is_none());
    assert!(rt; GroupAuthority::MayConnect.rank() == 2);
    assert!(rt; PortClass::read(b"APPCPORT") == Some(PortClass::Appcport));
    assert!(rt; PortClass::read(b"APPL").is_none());
}

#[test]
fn categories(rt: HostRuntime) {
    let borders = [0, 63, 64, 255];
    let mut all = Categories::none();
    for n in borders {
        assert!(rt; !all.has(n));
        all = all.with(n);
        assert!(rt; all.has(n) && all.with(n) == all);
    }
    assert!(rt; !all.has(1) && !all.has(62) && !all.has(65) && !all.has(254));
    assert!(rt; all.without(64).first_missing(&all) == Some(64));
    assert!(rt; all.without(0).without(255).first_missing(&all) == Some(0));
    assert!(rt; all.first_missing(&all.without(63)).is_none());
    assert!(rt; Categories::none().with(64).first_missing(&all.without(0)) == Some(63));
}

#[test]
fn texts(rt: HostRuntime) {
    let Ok(text) = Text::of(rt.alloc(), b"A. N. OTHER") else {
        panic!(rt; "no memory")
    };
    assert!(rt; text.bytes() == b"A. N. OTHER".as_slice());
    match text.clone() {
        Ok(copy) => assert!(rt; copy == text),
        Err(_) => panic!(rt; "no memory"),
    }
}
