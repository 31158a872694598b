//! New tables with ample memory: room for edits of each kind, and all rows.
use access_levels::Id;
use racf_profiles::{Edit, Group, LogOption, User, View, ibmuser, sys1};
use row_tables::RowTables;
use std::alloc::Global;

/// A copy of IBMUSER.
fn first_user(alloc: Global, tables: &RowTables) -> Option<User> {
    match tables.user(ibmuser()) {
        Some(user) => user.copy(alloc).ok(),
        None => None,
    }
}

/// Edits that put and drop that user and a group, and set the flags of a class.
fn edits(alloc: Global, user: User, group: Id, class: Id) -> Option<Vec<Edit>> {
    let group = Group {
        id: group,
        superior: Some(sys1()),
        owner: ibmuser(),
    };
    let edits = vec![in alloc;
        Edit::PutUser(user),
        Edit::DropUser(ibmuser()),
        Edit::PutGroup(group),
        Edit::DropGroup(sys1()),
        Edit::PutClass(class, true, false, LogOption::ByProfile),
    ];
    edits.ok()
}

/// Whether there is room for edits of each kind.
fn reserves(alloc: Global, tables: &mut RowTables) -> bool {
    let (Ok(group), Ok(class)) = (Id::read(b"PAY"), Id::read(b"APPL")) else {
        return false;
    };
    let Some(user) = first_user(alloc, tables) else {
        return false;
    };
    match edits(alloc, user, group, class) {
        Some(edits) => tables.reserve(edits.as_slice()).is_ok(),
        None => false,
    }
}

/// How many users, groups and classes the rows have.
fn counts(alloc: Global, tables: &RowTables) -> Option<[usize; 3]> {
    match tables.to_rows(alloc) {
        Ok(rows) => Some([
            rows.users.items.len(),
            rows.groups.items.len(),
            rows.classes.items.len(),
        ]),
        Err(_) => None,
    }
}

#[test]
fn memory_is_not_wanted(rt: HostRuntime) {
    let alloc = rt.alloc();
    let Ok(mut tables) = RowTables::new(alloc) else {
        panic!(rt; "no memory")
    };
    assert!(rt; reserves(alloc, &mut tables));
    assert!(rt; counts(alloc, &tables) == Some([1, 1, 15]));
}
