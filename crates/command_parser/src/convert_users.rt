//! The commands on users and groups, from their positional word and the values of their operands.

ghost use Rattle.std.specs.Prelude.{◌≡◌};
ghost use Rattle.command_parser.specs.Fields.{add_user_in, alt_user_in, add_group_in, alt_group_in, connect_in, remove_in};

use crate::slots::Slots;
use access_levels::Id;
use command_fields::{AddGroup, AddUser, AltGroup, AltUser, Connect, Remove};
use command_values::Content;
use std::alloc::Global;

/// ADDUSER, of whose operands these are the values.
pub fn add_user(alloc: Global, user: Id, slots: Vec<Option<Content>>) -> AddUser
    ensures { result ≡ add_user_in user slots.items }
{
    let mut slots = Slots::new(slots);
    AddUser {
        user,
        name: slots.name(),
        dfltgrp: slots.id(),
        owner: slots.id(),
        authority: slots.authority(),
        special: slots.flag(),
        nospecial: slots.flag(),
        operations: slots.flag(),
        nooperations: slots.flag(),
        auditor: slots.flag(),
        noauditor: slots.flag(),
        restricted: slots.flag(),
        norestricted: slots.flag(),
        clauth: slots.ids(alloc),
        seclevel: slots.id(),
        addcategory: slots.ids(alloc),
        seclabel: slots.id(),
    }
}

/// ALTUSER, of whose operands these are the values.
pub fn alt_user(alloc: Global, user: Id, slots: Vec<Option<Content>>) -> AltUser
    ensures { result ≡ alt_user_in user slots.items }
{
    let mut slots = Slots::new(slots);
    AltUser {
        user,
        name: slots.name(),
        dfltgrp: slots.id(),
        owner: slots.id(),
        special: slots.flag(),
        nospecial: slots.flag(),
        operations: slots.flag(),
        nooperations: slots.flag(),
        auditor: slots.flag(),
        noauditor: slots.flag(),
        restricted: slots.flag(),
        norestricted: slots.flag(),
        uaudit: slots.flag(),
        nouaudit: slots.flag(),
        revoke: slots.flag(),
        resume: slots.flag(),
        clauth: slots.ids(alloc),
        noclauth: slots.ids(alloc),
        seclevel: slots.id(),
        noseclevel: slots.flag(),
        addcategory: slots.ids(alloc),
        delcategory: slots.ids(alloc),
        seclabel: slots.id(),
        noseclabel: slots.flag(),
    }
}

/// ADDGROUP, of whose operands these are the values.
pub fn add_group(group: Id, slots: Vec<Option<Content>>) -> AddGroup
    ensures { result ≡ add_group_in group slots.items }
{
    let mut slots = Slots::new(slots);
    AddGroup {
        group,
        supgroup: slots.id(),
        owner: slots.id(),
    }
}

/// ALTGROUP, of whose operands these are the values.
pub fn alt_group(group: Id, slots: Vec<Option<Content>>) -> AltGroup
    ensures { result ≡ alt_group_in group slots.items }
{
    let mut slots = Slots::new(slots);
    AltGroup {
        group,
        supgroup: slots.id(),
        owner: slots.id(),
    }
}

/// CONNECT, of whose operands these are the values.
pub fn connect(user: Id, slots: Vec<Option<Content>>) -> Connect
    ensures { result ≡ connect_in user slots.items }
{
    let mut slots = Slots::new(slots);
    Connect {
        user,
        group: slots.id(),
        authority: slots.authority(),
        special: slots.flag(),
        nospecial: slots.flag(),
        operations: slots.flag(),
        nooperations: slots.flag(),
        auditor: slots.flag(),
        noauditor: slots.flag(),
        revoke: slots.flag(),
        resume: slots.flag(),
    }
}

/// REMOVE, of whose operands these are the values.
pub fn remove(user: Id, slots: Vec<Option<Content>>) -> Remove
    ensures { result ≡ remove_in user slots.items }
{
    let mut slots = Slots::new(slots);
    Remove {
        user,
        group: slots.id(),
    }
}
