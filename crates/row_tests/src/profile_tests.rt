//! A new database and copies with ample memory, and the class table against its source.
use access_levels::{Categories, Entry, Level, Who};
use generic_names::{NameKind, Pattern};
use racf_profiles::{
    AuditRule, CondEntries, Entries, FixedClass, Member, Members, NameForm, Options, Profile, Rows,
    View, class_facts, ibmuser, kind_in, sys1,
};
use std::alloc::{AllocError, Global};

/// A profile of that name, with the members and the entries given.
fn plain_profile(alloc: Global, name: Pattern, members: Members, standard: Entries) -> Profile {
    let audit = AuditRule {
        success: None,
        failures: Some(Level::Read),
    };
    Profile {
        name,
        owner: sys1(),
        uacc: Level::Execute,
        warning: true,
        standard,
        conditional: CondEntries {
            items: Vec::new(alloc),
        },
        level: 7,
        categories: Categories::none(),
        label: None,
        audit,
        global_audit: audit,
        members,
    }
}

/// Whether IBMUSER is in the rows, with SPECIAL and one connection, and so is a copy.
fn has_first_user(alloc: Global, rows: &Rows) -> bool {
    let Some(user) = rows.user(ibmuser()) else {
        return false;
    };
    let is_first = user.attributes.special && user.connects.items.len() == 1;
    match user.copy(alloc) {
        Ok(copy) => is_first && copy.id == ibmuser() && copy.connects.items.len() == 1,
        Err(_) => false,
    }
}

/// Whether a copy of options without MLS has the category that they get.
fn copies_options(alloc: Global, options: &mut Options) -> bool {
    let Ok(()) = options.categories.items.push(sys1()) else {
        return false;
    };
    match options.copy(alloc) {
        Ok(copy) => !copy.mls && copy.categories.items.len() == 1,
        Err(_) => false,
    }
}

#[test]
fn new_database(rt: HostRuntime) {
    let alloc = rt.alloc();
    let Ok(mut rows) = Rows::new_database(alloc) else {
        panic!(rt; "no memory")
    };
    assert!(rt; has_first_user(alloc, &rows));
    assert!(rt; rows.group(sys1()).is_some() && rows.group(ibmuser()).is_none());
    assert!(rt; rows.classes.items.len() == 15);
    assert!(rt; copies_options(alloc, &mut rows.options));
}

/// One member.
fn one_member(alloc: Global) -> Result<Members, AllocError> {
    let mut items = Vec::new(alloc);
    items.push(Member::Category(sys1()))?;
    Ok(Members { items })
}

/// A thousand entries.
fn thousand_entries(alloc: Global) -> Result<Entries, AllocError> {
    let mut items = Vec::new(alloc);
    for _ in 0..1000 {
        items.push(Entry {
            who: Who::Named(sys1()),
            level: Level::Read,
        })?;
    }
    Ok(Entries { items })
}

/// A data set profile with one member and a thousand entries.
fn large_profile(alloc: Global) -> Option<Profile> {
    let name = Pattern::read(NameKind::DataSet, b"SYS1.PARM*").ok()?;
    let members = one_member(alloc).ok()?;
    match thousand_entries(alloc) {
        Ok(standard) => Some(plain_profile(alloc, name, members, standard)),
        Err(_) => None,
    }
}

/// Whether a copy of the profile has one member and a thousand entries.
fn copies(alloc: Global, profile: &Profile) -> bool {
    match profile.copy(alloc) {
        Ok(copy) => copy.members.items.len() == 1 && copy.standard.items.len() == 1000,
        Err(_) => false,
    }
}

#[test]
fn profile_copies(rt: HostRuntime) {
    match large_profile(rt.alloc()) {
        Some(profile) => assert!(rt; copies(rt.alloc(), &profile)),
        None => panic!(rt; "no profile"),
    }
}

#[test]
fn class_table(rt: HostRuntime) {
    let Some(tapes) = class_facts(FixedClass::Tapevol.id()) else {
        panic!(rt; "no TAPEVOL")
    };
    assert!(rt; tapes.names == NameForm::General);
    assert!(rt; tapes.operations && tapes.generic && tapes.raclist);
    assert!(rt; class_facts(sys1()).is_none());
    assert!(rt; kind_in(FixedClass::Dataset.id()) == NameKind::DataSet);
    assert!(rt; kind_in(FixedClass::Global.id()) == NameKind::General);
}
