//! Images, ACEEs and decisions where memory is wanting, and what an image places. Run alone, these tests have ample
//! memory; the script `tests/refusals` runs them with allocations refused behind the line that they print first.

ghost use Rattle.std.specs.Prelude.{◌<◌, ◌≤◌, length};
ghost use Rattle.racf_profiles.specs.Limits.{most_class_profiles};

use access_levels::{Categories, Condition, Id, Level, PortClass};
use acee::{Acee, VerifyFault, VerifyRequest};
use dataspace::{Region, Room};
use decision::{Decision, Request, Rule, auth, fastauth, verify};
use followed_images::{Followed, Outcome, TakenImage};
use generic_names::{NameKind, Pattern, Resource};
use racf_profiles::{
    AuditRule, CondEntries, Entries, FixedClass, Members, Profile, User, ibmuser, kind_in, sys1,
};
use raclist_image::{ClassImage, Facts, Image};
use std::alloc::Global;
use std::test::Fail;

/// A group and a user of three connections, of which one is revoked and one has group-OPERATIONS; and two profiles of a
/// class that is active.
const COMMANDS: [&[u8]; 10] = [
    b"SETROPTS CLASSACT(FACILITY)",
    b"ADDGROUP PAY OWNER(SYS1)",
    b"ADDGROUP DEV OWNER(SYS1)",
    b"ADDUSER JOE DFLTGRP(PAY) AUDITOR",
    b"CONNECT JOE GROUP(SYS1) OPERATIONS",
    b"CONNECT JOE GROUP(DEV) REVOKE",
    b"RDEFINE FACILITY PAY.** OWNER(PAY)",
    b"RDEFINE FACILITY PAY.RUN OWNER(JOE) UACC(UPDATE)",
    b"PERMIT PAY.** CLASS(FACILITY) ID(PAY) ACCESS(READ)",
    b"PERMIT PAY.** CLASS(FACILITY) ID(JOE) ACCESS(UPDATE) WHEN(TERMINAL(T1))",
];

/// Commands that put a row of each kind, change it and take it out, and that make a class's listed copy, make it anew
/// and drop it.
const NEXT_COMMANDS: [&[u8]; 13] = [
    b"SETROPTS RACLIST(FACILITY)",
    b"ADDGROUP NEW OWNER(SYS1)",
    b"ADDUSER JIM DFLTGRP(NEW)",
    b"CONNECT JIM GROUP(DEV)",
    b"ALTGROUP NEW OWNER(JIM)",
    b"RDEFINE FACILITY DEV.RUN OWNER(DEV)",
    b"PERMIT DEV.RUN CLASS(FACILITY) ID(JIM) ACCESS(READ)",
    b"SETROPTS RACLIST(FACILITY) REFRESH",
    b"RDELETE FACILITY DEV.RUN",
    b"ALTGROUP NEW OWNER(SYS1)",
    b"DELUSER JIM",
    b"DELGROUP NEW",
    b"SETROPTS NORACLIST(FACILITY)",
];

/// Gives the commands in turn, until memory is wanting, and answers how many were accepted. None of them may be
/// refused.
fn give_all(database: &mut Followed, alloc: Global, commands: &[&[u8]]) -> Result<u64, Fail> {
    let mut accepted = 0_u64;
    for text in commands {
        match database.give(alloc, text) {
            Ok(Outcome::Accepted) => accepted = accepted.saturating_add(1),
            Ok(_) => return Err("a command was refused".into()),
            Err(_) => return Ok(accepted),
        }
    }
    Ok(accepted)
}

/// A database in which the commands were accepted.
fn small_database(alloc: Global) -> Result<Followed, Fail> {
    let mut database = Followed::new(alloc)?;
    if give_all(&mut database, alloc, &COMMANDS)? != 10 {
        return Err("no memory for the commands".into());
    }
    Ok(database)
}

/// The image of all its rows, under the number 7.
fn small_image(alloc: Global) -> Result<TakenImage, Fail> {
    Ok(small_database(alloc)?.image_of_rows(alloc, 7)?)
}

/// The names that the tests speak of, each read once.
#[derive(Clone, Copy)]
struct Names {
    joe: Id,
    pay: Id,
    terminal: Id,
}

impl Names {
    fn read() -> Result<Names, Fail> {
        Ok(Names {
            joe: Id::read(b"JOE")?,
            pay: Id::read(b"PAY")?,
            terminal: Id::read(b"T1")?,
        })
    }
}

/// JOE at the terminal T1.
fn joe_at_terminal(names: &Names) -> VerifyRequest {
    VerifyRequest {
        user: names.joe,
        group: None,
        port: Some(Condition {
            class: PortClass::Terminal,
            name: names.terminal,
        }),
        application: None,
        label: None,
    }
}

/// Whether that is the user JOE, as the commands made him.
fn is_joe(user: &User, names: &Names) -> bool {
    user.id == names.joe && user.default_group == names.pay && user.connects.items.len() == 3
}

/// Whether the users, the groups and the options are those that the commands made.
fn has_rows(image: &Image, names: &Names) -> bool {
    let (Some(joe), Some(pay)) = (image.user(names.joe), image.group(names.pay)) else {
        return false;
    };
    is_joe(joe, names)
        && pay.superior == Some(sys1())
        && image.user_count() == 2
        && is_joe(image.user_at(1), names)
        && image.user(names.pay).is_none()
        && image.group(names.joe).is_none()
        && image.in_scope(sys1(), names.pay)
        && !image.in_scope(names.pay, ibmuser())
        && !image.options().grplist
        && !image.options().protectall
}

/// A request to read a resource of FACILITY.
fn to_read(name: &[u8]) -> Result<Request, Fail> {
    let class = FixedClass::Facility.id();
    let name = Resource::read(kind_in(class), name)?;
    Ok(Request::new(class, name, Level::Read).ok_or("a request")?)
}

/// What a decision reads of the profile that decides on a resource.
fn facts_for<'a>(image: &'a Image, request: &Request) -> Option<Facts<'a>> {
    let profiles = image.effective(request.class)?;
    profiles.find(&request.name)
}

/// Whether the profile that decides on a resource has that universal access, and so many entries in each of its lists.
fn has_facts(image: &Image, request: &Request, uacc: Level, entries: usize) -> bool {
    match facts_for(image, request) {
        Some(facts) => {
            facts.uacc == uacc
                && facts.standard.len() == entries
                && facts.conditional.len() == entries
        }
        None => false,
    }
}

/// The resources that the tests ask about: covered by PAY.RUN, by PAY.** and by no profile.
#[derive(Drop)]
struct Resources {
    run: Request,
    other: Request,
    none: Request,
}

impl Resources {
    fn read() -> Result<Resources, Fail> {
        Ok(Resources {
            run: to_read(b"PAY.RUN")?,
            other: to_read(b"PAY.A.B")?,
            none: to_read(b"DEV.RUN")?,
        })
    }
}

/// Whether the class and its profiles are those that the commands made.
fn has_profiles(image: &Image, asked: &Resources) -> bool {
    let class = FixedClass::Facility.id();
    let (Some(flags), Some(profiles)) = (image.class_flags(class), image.effective(class)) else {
        return false;
    };
    flags.active
        && !flags.listed
        && !flags.operations
        && profiles.len() == 2
        && has_facts(image, &asked.run, Level::Update, 0)
        && has_facts(image, &asked.other, Level::NoAccess, 1)
}

/// Whether the groups are those of JOE's connections that aren't revoked.
fn has_groups(acee: &Acee, names: &Names) -> bool {
    match acee.groups.as_slice() {
        [pay, sys] => {
            pay.group == names.pay
                && !pay.operations
                && sys.group == sys1()
                && sys.operations
                && acee.groups.names().len() == 2
        }
        _ => false,
    }
}

/// Whether the ACEE is that of JOE at his terminal.
fn is_acee_of_joe(acee: &Acee, names: &Names) -> bool {
    acee.user == names.joe
        && acee.current == names.pay
        && has_groups(acee, names)
        && acee.attributes.auditor
        && !acee.attributes.special
        && acee.port == joe_at_terminal(names).port
        && acee.application.is_none()
        && acee.label.is_none()
        && acee.generation == 7
}

/// Whether a decision has that return code and that rule.
fn is_decided(decision: &Decision, rc: u8, rule: Rule) -> bool {
    decision.rc == rc && decision.rule == rule
}

/// Whether the rules by which JOE may read are those of the access lists and of the universal access.
fn decides(image: &Image, acee: &Acee, asked: &Resources) -> bool {
    is_decided(&auth(image, acee, &asked.run), 0, Rule::Uacc)
        && is_decided(
            &auth(image, acee, &asked.other),
            0,
            Rule::GroupEntry(acee.current),
        )
        && is_decided(&auth(image, acee, &asked.none), 4, Rule::NoProfile)
        && is_decided(&fastauth(image, acee, &asked.run), 4, Rule::NotListed)
}

/// A profile of that name, whose lists are empty.
fn profile(alloc: Global, name: &[u8]) -> Result<Profile, Fail> {
    let rule = AuditRule {
        success: None,
        failures: None,
    };
    Ok(Profile {
        name: Pattern::read(NameKind::General, name)?,
        owner: sys1(),
        uacc: Level::NoAccess,
        warning: false,
        standard: Entries {
            items: Vec::new(alloc),
        },
        conditional: CondEntries {
            items: Vec::new(alloc),
        },
        level: 0,
        categories: Categories::none(),
        label: None,
        audit: rule,
        global_audit: rule,
        members: Members {
            items: Vec::new(alloc),
        },
    })
}

/// Whether the second name's key is the second in a region of this room, in which none is free.
fn fills(profiles: &ClassImage, room: Room) -> bool
    requires { 1 < length profiles.now.profiles }
{
    let (region, row) = profiles.keys_at(1);
    row == 1 && region.size() == room.bytes && region.spare() == Room::none()
}

/// Whether the image of FACILITY's profiles took the room of profiles of these names, and has none to spare.
fn is_full(image: &Image, profiles: &[Profile]) -> bool
    requires { length profiles.now ≤ most_class_profiles }
{
    let room = ClassImage::room(profiles);
    match image.effective(FixedClass::Facility.id()) {
        Some(found) => {
            found.len() == 2
                && found.taken() == room
                && found.spare() == Room::none()
                && fills(found, room)
        }
        None => false,
    }
}

/// Whether a region has room for a text of three bytes alone, and none to spare where one was placed.
fn is_filled(region: &mut Region) -> bool {
    if region.spare() != Room::none().plus(3) || !region.fits(3) {
        return false;
    }
    region.place(b"PAY");
    region.spare() == Room::none()
}

/// No call that reads an image, and no decision, takes memory; nor does placing a text in a region.
#[test]
fn reads_without_memory(rt: HostRuntime) -> Result<(), Fail> {
    let names = Names::read()?;
    let asked = Resources::read()?;
    let taken = small_image(rt.alloc())?;
    let image = taken.image();
    let Ok(acee) = verify(rt.alloc(), image, &joe_at_terminal(&names)) else {
        return Err("an ACEE".into());
    };
    let profiles = [
        profile(rt.alloc(), b"PAY.**")?,
        profile(rt.alloc(), b"PAY.RUN")?,
    ];
    let mut region = Region::with_room(rt.alloc(), 3, 1)?;
    println!(rt; "FROM HERE")?;
    assert!(rt; image.generation() == 7);
    assert!(rt; has_rows(image, &names));
    assert!(rt; has_profiles(image, &asked));
    assert!(rt; decides(image, &acee, &asked));
    assert!(rt; is_full(image, &profiles));
    assert!(rt; ClassImage::room(&[]) == Room::none());
    assert!(rt; is_filled(&mut region));
    Ok(())
}

/// An image is whole, or memory is wanting.
#[test]
fn image_of_rows(rt: HostRuntime) -> Result<(), Fail> {
    let names = Names::read()?;
    let asked = Resources::read()?;
    let database = small_database(rt.alloc())?;
    println!(rt; "FROM HERE")?;
    match database.image_of_rows(rt.alloc(), 7) {
        Ok(taken) => {
            assert!(rt; taken.image().generation() == 7);
            assert!(rt; has_rows(taken.image(), &names));
            assert!(rt; has_profiles(taken.image(), &asked));
            println!(rt; "MADE")?;
        }
        Err(_) => println!(rt; "NO MEMORY")?,
    }
    Ok(())
}

/// An ACEE is whole, or memory is wanting.
#[test]
fn verified_user(rt: HostRuntime) -> Result<(), Fail> {
    let names = Names::read()?;
    let taken = small_image(rt.alloc())?;
    let request = joe_at_terminal(&names);
    println!(rt; "FROM HERE")?;
    match verify(rt.alloc(), taken.image(), &request) {
        Ok(acee) => {
            assert!(rt; is_acee_of_joe(&acee, &names));
            println!(rt; "MADE")?;
        }
        Err(fault) => {
            assert!(rt; matches!(fault, VerifyFault::NoMemory));
            println!(rt; "NO MEMORY")?;
        }
    }
    Ok(())
}

/// The image behind each command is made, or memory is wanting: then the number and the image are those before it.
#[test]
fn images_behind_commands(rt: HostRuntime) -> Result<(), Fail> {
    let names = Names::read()?;
    let asked = Resources::read()?;
    let mut database = small_database(rt.alloc())?;
    println!(rt; "FROM HERE")?;
    let accepted = give_all(&mut database, rt.alloc(), &NEXT_COMMANDS)?;
    assert!(rt; database.number() == accepted.saturating_add(10));
    assert!(rt; database.image().generation() == database.number());
    if accepted < 13 {
        println!(rt; "NO MEMORY")?;
        return Ok(());
    }
    assert!(rt; has_rows(database.image(), &names));
    assert!(rt; has_profiles(database.image(), &asked));
    println!(rt; "MADE")?;
    Ok(())
}

/// A user, and a profile of his data sets whose name has ten bytes; whether both commands were accepted.
fn give_profile(database: &mut Followed, alloc: Global, number: u32) -> Result<bool, Fail> {
    let user = format!(in alloc; "ADDUSER U{number:06}")?;
    let profile = format!(in alloc; "ADDSD 'U{number:06}.**'")?;
    Ok(give_all(database, alloc, &[user.as_bytes(), profile.as_bytes()])? == 2)
}

/// An image of all rows places the name of each profile, and the one behind a PERMIT those of the profile's bucket
/// alone, which holds the data sets of one user.
#[test]
fn places_one_name_of_a_thousand(rt: HostRuntime) -> Result<(), Fail> {
    let alloc = rt.alloc();
    let mut database = Followed::new(alloc)?;
    let mut given = 0_u32;
    for number in 1..=1_000u32 {
        if give_profile(&mut database, alloc, number)? {
            given = given.saturating_add(1);
        }
    }
    assert_eq!(rt; given, 1_000);
    assert_eq!(rt; database.image_of_rows(alloc, 0)?.image().placed(), 10_000);
    let permit: [&[u8]; 1] = [b"PERMIT 'U000500.**' ID(U000001) ACCESS(READ)"];
    assert_eq!(rt; give_all(&mut database, alloc, &permit)?, 1);
    assert_eq!(rt; database.image().placed(), 10);
    Ok(())
}
