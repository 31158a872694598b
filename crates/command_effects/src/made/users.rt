//! Users as a command makes them.
ghost use Rattle.std.specs.Prelude.{◌≡◌, unwrap_or, IfOk};
ghost use Rattle.command_rules.specs.Effects.{new_user, first_attributes, altered_user, connected_user, removed_user};
ghost use Rattle.command_rules.specs.ProfileEffects.{without_clauth};

use super::classes::{classes_after, with_classes, without_classes};
use super::connects::{connects_after, first_connects, without_connect};
use super::security::{label_given, level_given, with_categories, without_categories};
use access_levels::{Attributes, Categories, Id, Text};
use command_fields::{AddUser, AltUser, Connect, Ids, Issuer, Remove};
use command_rules::{attributes_after, owner_or_issuer, switched};
use racf_profiles::{Classes, Connects, NoMemory, User};
use row_tables::RowTables;
use std::alloc::Global;

/// The user of ADDUSER.
pub(crate) fn new_user(
    alloc: Global,
    tables: &RowTables,
    issuer: &Issuer,
    command: &AddUser,
) -> Result<User, NoMemory>
    ensures { IfOk result (λ user. user ≡ new_user issuer.now command.now tables.now.rows) }
{
    let group = issuer.group_or_current(command.dfltgrp);
    let name = name_or(alloc, &command.name, b"")?;
    let classes = with_classes(alloc, &[], command.clauth.items.as_slice())?;
    let connects = first_connects(alloc, group, command.authority)?;
    Ok(User {
        id: command.user,
        default_group: group,
        owner: owner_or_issuer(issuer, command.owner),
        name,
        attributes: first_attributes(command),
        classes: Classes { items: classes },
        level: level_given(tables, command.seclevel, false, 0),
        categories: with_categories(
            tables,
            Categories::none(),
            command.addcategory.items.as_slice(),
        ),
        label: command.seclabel,
        connects: Connects { items: connects },
    })
}

/// A user after ALTUSER.
pub(crate) fn altered_user(
    alloc: Global,
    tables: &RowTables,
    command: &AltUser,
    old: &User,
) -> Result<User, NoMemory>
    ensures { IfOk result (λ user. user ≡ altered_user command.now tables.now.rows old.now) }
{
    let name = name_or(alloc, &command.name, old.name.bytes())?;
    let classes = classes_after(
        alloc,
        old.classes.items.as_slice(),
        command.clauth.items.as_slice(),
        command.noclauth.items.as_slice(),
    )?;
    let connects = old.connects.copy(alloc)?;
    let fewer = without_categories(tables, old.categories, command.delcategory.items.as_slice());
    Ok(User {
        id: old.id,
        default_group: command.dfltgrp.unwrap_or(old.default_group),
        owner: command.owner.unwrap_or(old.owner),
        name,
        attributes: attributes_after(command, old.attributes),
        classes,
        level: level_given(tables, command.seclevel, command.noseclevel, old.level),
        categories: with_categories(tables, fewer, command.addcategory.items.as_slice()),
        label: label_given(command.seclabel, command.noseclabel, old.label),
        connects,
    })
}

/// A user after CONNECT.
pub(crate) fn connected_user(
    alloc: Global,
    issuer: &Issuer,
    command: &Connect,
    old: &User,
) -> Result<User, NoMemory>
    ensures { IfOk result (λ user. user ≡ connected_user issuer.now command.now old.now) }
{
    let group = issuer.group_or_current(command.group);
    let items = connects_after(alloc, command, group, old.connects.items.as_slice())?;
    with_connects(alloc, old, Connects { items })
}

/// A user after REMOVE.
pub(crate) fn removed_user(
    alloc: Global,
    issuer: &Issuer,
    command: &Remove,
    old: &User,
) -> Result<User, NoMemory>
    ensures { IfOk result (λ user. user ≡ removed_user issuer.now command.now old.now) }
{
    let group = issuer.group_or_current(command.group);
    let items = without_connect(alloc, group, old.connects.items.as_slice())?;
    with_connects(alloc, old, Connects { items })
}

/// A user without a class in his CLAUTH list.
pub(crate) fn without_clauth(alloc: Global, user: User, class: Id) -> Result<User, NoMemory>
    ensures { IfOk result (λ after. after ≡ without_clauth class user) }
{
    let items = without_classes(alloc, user.classes.items.as_slice(), &[class])?;
    Ok(User {
        classes: Classes { items },
        ..user
    })
}

/// A user with other connections.
fn with_connects(alloc: Global, old: &User, connects: Connects) -> Result<User, NoMemory>
    ensures { IfOk result (λ user. user ≡ record old.now { connects = connects }) }
{
    Ok(User {
        id: old.id,
        default_group: old.default_group,
        owner: old.owner,
        name: old.name.clone()?,
        attributes: old.attributes,
        classes: old.classes.copy(alloc)?,
        level: old.level,
        categories: old.categories,
        label: old.label,
        connects,
    })
}

/// The attributes of a new user.
fn first_attributes(command: &AddUser) -> Attributes
    ensures { result ≡ first_attributes command.now }
{
    Attributes {
        special: switched(command.special, command.nospecial, false),
        operations: switched(command.operations, command.nooperations, false),
        auditor: switched(command.auditor, command.noauditor, false),
        restricted: switched(command.restricted, command.norestricted, false),
        revoked: false,
        uaudit: false,
    }
}

/// The name that is given, or else this one.
fn name_or(alloc: Global, given: &Option<Text>, otherwise: &[u8]) -> Result<Text, NoMemory>
    ensures { IfOk result (λ name. name ≡ unwrap_or given.now otherwise.now) }
{
    match given {
        Some(name) => name.clone(),
        None => Text::of(alloc, otherwise),
    }
}
