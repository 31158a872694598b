//! Entries put in and taken away up to the limit, and answers with ties, by few and many groups and by
//! ports.
use access_levels::{CondEntry, Condition, Entry, Id, Level, PortClass, Who};
use access_lists::{
    Found, ListFault, answer, answer_when, permit, permit_when, withdraw, withdraw_when,
};
use std::process::Abort;

/// The ID of that text, which is lawful.
fn id(rt: &impl Abort, text: &[u8]) -> Id {
    Id::read(text).expect(rt, "a lawful ID")
}

/// The ID U and a number of four digits.
fn numbered(rt: &impl Abort, number: u16) -> Id {
    let digits = [
        b'U',
        b'0' + (number / 1000 % 10) as u8,
        b'0' + (number / 100 % 10) as u8,
        b'0' + (number / 10 % 10) as u8,
        b'0' + (number % 10) as u8,
    ];
    id(rt, &digits)
}

/// The rank of the level that the list has for an ID, and 9 where it has none.
fn rank_for(list: &[Entry], user: Id) -> u8 {
    rank_of(&answer(list, user, &[], true))
}

/// The rank of a level that is found, and 10 more for a group, 20 more for all users, and 9 for none.
fn rank_of(found: &Found) -> u8 {
    match found {
        Found::User(level) => level.rank(),
        Found::Group(_, level) => 10 + level.rank(),
        Found::Star(level) => 20 + level.rank(),
        Found::Nothing => 9,
    }
}

/// Whether the answer is this group.
fn is_group(found: &Found, group: Id) -> bool {
    match found {
        Found::Group(id, _) => *id == group,
        _ => false,
    }
}

/// Whether there was no room.
fn is_full(put: Result<(), ListFault>) -> bool {
    match put {
        Err(ListFault::Full) => true,
        _ => false,
    }
}

/// Puts an entry for a user into the list, where there is room.
fn put(list: &mut Vec<Entry>, user: Id, level: Level) -> Result<(), ListFault> {
    let who = Who::Named(user);
    permit(list, Entry { who, level })
}

#[test]
fn puts_in_place_or_last(rt: HostRuntime) {
    let (joe, ann) = (id(&rt, b"JOE"), id(&rt, b"ANN"));
    let mut list = Vec::new(rt.alloc());
    assert!(rt; put(&mut list, joe, Level::Read).is_ok());
    assert!(rt; put(&mut list, ann, Level::Update).is_ok());
    assert!(rt; put(&mut list, joe, Level::Alter).is_ok());
    assert!(rt; list.len() == 2);
    assert!(rt; rank_for(list.as_slice(), joe) == 5);
    assert!(rt; rank_for(list.as_slice(), ann) == 3);
    withdraw(&mut list, Who::Named(joe));
    withdraw(&mut list, Who::Star);
    assert!(rt; list.len() == 1);
    assert!(rt; rank_for(list.as_slice(), joe) == 9);
}

/// Puts U0000 to U0999 into the list.
fn put_a_thousand(rt: &impl Abort, list: &mut Vec<Entry>) {
    for number in 0..1000 {
        let put = put(list, numbered(rt, number), Level::Read);
        assert!(rt; put.is_ok());
    }
}

/// Whether the list has room for this user, and then his level.
fn has_room_for(list: &mut Vec<Entry>, user: Id, level: Level) -> bool {
    put(list, user, level).is_ok() && rank_for(list.as_slice(), user) == level.rank()
}

#[test]
fn is_full_at_a_thousand(rt: HostRuntime) {
    let (joe, middle) = (id(&rt, b"JOE"), id(&rt, b"U0500"));
    let seventh = Who::Named(numbered(&rt, 7));
    let mut list = Vec::new(rt.alloc());
    put_a_thousand(&rt, &mut list);
    assert!(rt; is_full(put(&mut list, joe, Level::Read)));
    assert!(rt; list.len() == 1000);
    assert!(rt; Level::Alter.rank() == 5 && has_room_for(&mut list, middle, Level::Alter));
    withdraw(&mut list, seventh);
    assert!(rt; Level::Control.rank() == 4 && has_room_for(&mut list, joe, Level::Control));
}

/// U0000 to U0999 with the levels NONE to ALTER in turn.
fn large_list(rt: &(impl AllocGlobal + Abort)) -> Vec<Entry> {
    let mut list = Vec::new(rt.alloc());
    for number in 0..1000 {
        let who = Who::Named(numbered(rt, number));
        let level = Level::ALL[usize::from(number % 6)];
        assert!(rt; list.push(Entry { who, level }).is_ok());
    }
    list
}

/// The rank that answers for a user, whose groups are these.
fn rank_in(list: &[Entry], user: Id, groups: &[Id], restricted: bool) -> u8 {
    rank_of(&answer(list, user, groups, restricted))
}

/// Whether the entry of one of these groups answers for a user, and which.
fn is_answered_by(list: &[Entry], user: Id, groups: &[Id], group: Id) -> bool {
    is_group(&answer(list, user, groups, false), group)
}

#[test]
fn answers_by_rank_and_order(rt: HostRuntime) {
    let (joe, sixth) = (id(&rt, b"JOE"), numbered(&rt, 6));
    let (alter, late) = (numbered(&rt, 5), numbered(&rt, 995));
    /// levels READ, UPDATE, ALTER, ALTER
    let groups = [numbered(&rt, 2), numbered(&rt, 3), late, alter];
    let mut list = large_list(&rt);
    assert!(rt; rank_in(list.as_slice(), joe, &groups, false) == 15);
    assert!(rt; is_answered_by(list.as_slice(), joe, &groups, late));
    assert!(rt; is_answered_by(list.as_slice(), joe, &[alter, late], alter));
    assert!(rt; rank_in(list.as_slice(), joe, &[], false) == 9);
    let star = Entry {
        who: Who::Star,
        level: Level::Control,
    };
    assert!(rt; list.push(star).is_ok());
    assert!(rt; rank_in(list.as_slice(), joe, &[], false) == 24);
    assert!(rt; rank_in(list.as_slice(), joe, &[], true) == 9);
    assert!(rt; rank_in(list.as_slice(), sixth, &groups, false) == 0);
}

/// The number of the first group, the step to each next one, how many there are, and the rank that
/// answers: no group has an entry, one has, all have, all in falling order, fifteen; at last four groups
/// of one slot, whose second answers.
const GROUPS: [(u16, u16, u16, u8); 6] = [
    (5_000, 1, 300, 9),
    (999, 1, 300, 13),
    (0, 3, 300, 13),
    (999, 9_997, 300, 13),
    (0, 1, 15, 15),
    (968, 9_758, 300, 14),
];

/// As many groups, each by a step behind the one before.
fn numbered_groups(rt: &(impl AllocGlobal + Abort), first: u16, step: u16, count: u16) -> Vec<Id> {
    let mut groups = Vec::new(rt.alloc());
    let mut number = first;
    for _ in 0..count {
        assert!(rt; groups.push(numbered(rt, number)).is_ok());
        number = number.wrapping_add(step) % 10_000;
    }
    groups
}

/// The first of the groups whose entry has the highest rank, by a walk through the list for each.
fn walked(list: &[Entry], groups: &[Id]) -> Option<Id> {
    let mut best = None;
    let mut least = 0;
    for group in groups {
        let rank = rank_for(list, *group);
        if rank < 9 && rank >= least {
            best = Some(*group);
            least = rank + 1;
        }
    }
    best
}

/// Whether the answer is what the walk gives.
fn is_walked(found: &Found, list: &[Entry], groups: &[Id]) -> bool {
    match walked(list, groups) {
        Some(group) => is_group(found, group),
        None => rank_of(found) == 9,
    }
}

/// Whether the answer has this rank and is what the walk gives.
fn is_found(list: &[Entry], user: Id, groups: &[Id], rank: u8) -> bool {
    let found = answer(list, user, groups, true);
    rank_of(&found) == rank && is_walked(&found, list, groups)
}

#[test]
fn looks_up_many_groups(rt: HostRuntime) {
    let joe = id(&rt, b"JOE");
    let list = large_list(&rt);
    for (first, step, count, rank) in &GROUPS {
        let groups = numbered_groups(&rt, *first, *step, *count);
        assert!(rt; is_found(list.as_slice(), joe, groups.as_slice(), *rank));
    }
}

/// JOE, who is in the groups G1 and G2, and the name of a port.
#[derive(Drop)]
struct Joe {
    joe: Id,
    groups: [Id; 2],
    port: Id,
}

/// JOE, whose groups are these, and the port P1.
fn joe_in_groups(rt: &impl Abort, joe: Id, groups: [Id; 2]) -> Joe {
    Joe {
        joe,
        groups,
        port: id(rt, b"P1"),
    }
}

/// The port of this class.
fn port(joe: &Joe, class: PortClass) -> Condition {
    Condition {
        class,
        name: joe.port,
    }
}

/// The place that answers for JOE, who came by this port, and 99 for none.
fn place_for(joe: &Joe, list: &[CondEntry], class: PortClass, restricted: bool) -> usize {
    let port = Some(port(joe, class));
    match answer_when(list, port, joe.joe, &joe.groups, restricted) {
        Some(place) => place,
        None => 99,
    }
}

/// Puts an entry into the list, where those that come by this port find it, and answers whether there is room.
fn admit(joe: &Joe, list: &mut Vec<CondEntry>, class: PortClass, who: &Who, level: Level) -> bool {
    let condition = port(joe, class);
    let entry = CondEntry {
        condition,
        who: *who,
        level,
    };
    permit_when(list, entry).is_ok()
}

/// Ports, whether JOE is restricted, and the place that then answers for him.
const PLACES: [(PortClass, bool, usize); 4] = [
    (PortClass::Console, true, 0),
    (PortClass::Terminal, false, 1),
    (PortClass::Terminal, true, 99),
    (PortClass::Jesinput, false, 99),
];

/// Whether these places answer for JOE.
fn has_places(joe: &Joe, list: &[CondEntry]) -> bool {
    for (class, restricted, place) in &PLACES {
        if place_for(joe, list, *class, *restricted) != *place {
            return false;
        }
    }
    true
}

/// Whether this place answers for JOE at a terminal, where he is restricted.
fn is_at(joe: &Joe, list: &[CondEntry], place: usize) -> bool {
    place_for(joe, list, PortClass::Terminal, true) == place
}

/// Takes the entry for JOE or one of his groups out, where those that come by this port find it.
fn dismiss(joe: &Joe, list: &mut Vec<CondEntry>, class: PortClass, who: &Who) {
    withdraw_when(list, port(joe, class), *who);
}

#[test]
fn answers_by_port(rt: HostRuntime) {
    let (user, first, second) = (id(&rt, b"JOE"), id(&rt, b"G1"), id(&rt, b"G2"));
    let joe = &joe_in_groups(&rt, user, [first, second]);
    let user = Who::Named(user);
    let (g1, g2) = (Who::Named(first), Who::Named(second));
    let mut list = Vec::new(rt.alloc());
    assert!(rt; admit(joe, &mut list, PortClass::Console, &user, Level::Read));
    assert!(rt;
        admit(
            joe,
            &mut list,
            PortClass::Terminal,
            &Who::Star,
            Level::Alter
        )
    );
    assert!(rt; has_places(joe, list.as_slice()));
    assert!(rt; admit(joe, &mut list, PortClass::Terminal, &g2, Level::Read));
    assert!(rt; admit(joe, &mut list, PortClass::Terminal, &g1, Level::Read));
    assert!(rt; is_at(joe, list.as_slice(), 3));
    assert!(rt; admit(joe, &mut list, PortClass::Terminal, &user, Level::NoAccess));
    assert!(rt; is_at(joe, list.as_slice(), 4));
    dismiss(joe, &mut list, PortClass::Terminal, &user);
    dismiss(joe, &mut list, PortClass::Console, &g1);
    assert!(rt; list.len() == 4);
}
