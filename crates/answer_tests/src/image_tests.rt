//! The image of a class's profiles. Images of whole databases are tested in `decision_rows`, over databases that
//! commands made.
ghost use Rattle.std.specs.Prelude.{◌≡◌, Ok};
ghost use Rattle.generic_names.specs.Faults.{pattern_of};
ghost use Rattle.generic_names.specs.declared.kind.NameKind.{NameKind};
ghost use Rattle.racf_profiles.specs.LawfulProfiles.{AreProfiles};

use access_levels::{Categories, Entry, Id, Level, Who};
use dataspace::Room;
use generic_names::{NameKind, Pattern, Resource};
use racf_profiles::{AuditRule, CondEntries, Entries, Members, Profile, Profiles};
use raclist_image::ClassImage;
use std::alloc::Global;
use std::process::Abort;

/// A standard list with an entry for each user.
fn entries(rt: &(impl AllocGlobal + Abort)) -> Entries {
    let mut items = Vec::new(rt.alloc());
    let put = items.push(Entry {
        who: Who::Star,
        level: Level::Execute,
    });
    assert!(rt; put.is_ok());
    Entries { items }
}

/// A profile of that name.
fn profile(rt: &(impl AllocGlobal + Abort), name: &[u8], uacc: Level) -> Profile
    ensures { pattern_of NameKind.General name.now ≡ Ok result.name }
{
    let name = Pattern::read(NameKind::General, name).expect(rt, "a lawful name");
    let owner = Id::read(b"DIV").expect(rt, "a lawful ID");
    let rule = AuditRule {
        success: None,
        failures: Some(Level::Read),
    };
    Profile {
        name,
        owner,
        uacc,
        warning: true,
        standard: entries(rt),
        conditional: CondEntries {
            items: Vec::new(rt.alloc()),
        },
        level: 5,
        categories: Categories::none(),
        label: None,
        audit: rule,
        global_audit: rule,
        members: Members {
            items: Vec::new(rt.alloc()),
        },
    }
}

/// Three profiles of FACILITY.
fn facilities(rt: &(impl AllocGlobal + Abort)) -> Profiles
    ensures { AreProfiles NameKind.General result }
{
    let mut items = Vec::new(rt.alloc());
    let Ok(()) = items.push(profile(rt, b"A.B", Level::NoAccess)) else {
        panic!(rt; "no memory")
    };
    let Ok(()) = items.push(profile(rt, b"A.*", Level::Read)) else {
        panic!(rt; "no memory")
    };
    let Ok(()) = items.push(profile(rt, b"**", Level::Update)) else {
        panic!(rt; "no memory")
    };
    Profiles { items }
}

/// The universal access that the most specific profile has.
fn access(image: &ClassImage, name: &Resource) -> Option<Level>
    requires { name.now.kind ≡ image.now.kind }
{
    match image.find(name) {
        Some(facts) => Some(facts.uacc),
        None => None,
    }
}

/// Whether the most specific profile that covers the name has that universal access.
fn has_access(image: &ClassImage, name: &[u8], uacc: Level) -> bool
    requires { image.now.kind ≡ NameKind.General }
{
    match Resource::read(NameKind::General, name) {
        Ok(name) => access(image, &name) == Some(uacc),
        Err(_) => false,
    }
}

#[test]
fn class_image(rt: HostRuntime) {
    let profiles = facilities(&rt);
    let Ok(image) = ClassImage::of(rt.alloc(), &profiles.items, NameKind::General) else {
        panic!(rt; "no memory")
    };
    assert!(rt; image.len() == 3);
    // The keys of A.B and A.* have five bytes each, and that of ** has two.
    assert!(rt; ClassImage::room(&profiles.items) == (Room { bytes: 12, rows: 3 }));
    assert!(rt; image.taken() == (Room { bytes: 12, rows: 3 }));
    assert!(rt; image.spare() == Room::none());
    assert!(rt; has_access(&image, b"A.B", Level::NoAccess));
    assert!(rt; has_access(&image, b"A.B.C", Level::Read));
    assert!(rt; has_access(&image, b"A", Level::Update));
}

/// How many profiles an image of them has, or none where memory is wanting.
fn imaged(alloc: Global, profiles: &[Profile]) -> Option<usize>
    requires { AreProfiles NameKind.General profiles.now }
{
    match ClassImage::of(alloc, profiles, NameKind::General) {
        Ok(image) => Some(image.len()),
        Err(_) => None,
    }
}

/// An image of profiles is whole, or memory is wanting: the script `tests/refusals` runs this with allocations refused
/// behind the line that it prints first.
#[test]
fn image_of_profiles(rt: HostRuntime) {
    let profiles = facilities(&rt);
    assert!(rt; println!(rt; "FROM HERE").is_ok());
    let printed = match imaged(rt.alloc(), &profiles.items) {
        Some(length) => {
            assert!(rt; length == 3);
            println!(rt; "MADE")
        }
        None => println!(rt; "NO MEMORY"),
    };
    assert!(rt; printed.is_ok());
}
