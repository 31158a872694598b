//! Rows, written as their image.
ghost use Rattle.std.specs.Prelude.{◌≡◌, ◌≤◌, ◌++◌, ◌∷◌, [], List, ℕ, length, OnOk, IfOk};
ghost use Rattle.std.specs.List.{flat_map, AllByRecursion};
ghost use Rattle.byteorder.specs.Endian.{big_bytes};
ghost use Rattle.access_levels.specs.declared.entries.Entry.{Entry};
ghost use Rattle.access_levels.specs.declared.entries.CondEntry.{CondEntry};
ghost use Rattle.racf_profiles.specs.declared.users.User.{User};
ghost use Rattle.racf_profiles.specs.declared.users.Connect.{Connect as Connection};
ghost use Rattle.database_image.specs.Forms.{listed};
ghost use Rattle.database_image.specs.Fields.{filled, any, at_most};
ghost use Rattle.database_image.specs.Description.{options, group, connection, user, entry, cond_entry, member, profile, class, option_flags, attributes, attribute_flags, connect_flags, class_flags};
ghost use Rattle.database_image.specs.Spelled.{IsId, IsWho, IsPatternName, IsSpelledGroup, IsSpelledUser, IsSpelledMember, IsSpelledProfile, IsSpelledClass, AreSpelled};
ghost use Rattle.database_image.specs.Image.{image_of};

use crate::fields::port_rank;
use crate::putting::{
    bit, log_rank, put_audit, put_byte, put_flag, put_id, put_id_or_none, put_level, put_rank,
    put_set, put_short, put_who, put_word,
};
use access_levels::{Attributes, CondEntry, Entry, Id, Text};
use generic_names::Pattern;
use racf_profiles::{
    ClassRow, Classes, CondEntries, Connect, Connects, Entries, Group, Member, Members, NoMemory,
    Options, Profile, Rows, User,
};
use std::alloc::Global;

/// The image of rows.
///
/// # Errors
///
/// `NoMemory` alone.
#[tactic(auto, unfolding(crate::specs::Image::image_of, crate::specs::Description::image_by))]
pub fn write(alloc: Global, rows: &Rows) -> Result<Vec<u8>, NoMemory>
    // The bytes are the image.
    ensures image { IfOk result (λ bytes. bytes.items ≡ image_of rows.now) }

    // The rows are spelled as their types keep them.
    ensures spelled { IfOk result (λ bytes. AreSpelled rows.now) }
{
    let mut out = Vec::new(alloc);
    put_options(&mut out, &rows.options)?;
    put_word(&mut out, rows.groups.items.len())?;
    put_groups(&mut out, &rows.groups.items)?;
    put_word(&mut out, rows.users.items.len())?;
    put_users(&mut out, &rows.users.items)?;
    put_short(&mut out, rows.classes.items.len())?;
    put_classes(&mut out, &rows.classes.items)?;
    Ok(out)
}

/// The options.
#[tactic(auto, unfolding(crate::specs::Description::options))]
fn put_options(out: &mut Vec<u8>, row: &Options) -> Result<(), NoMemory>
    ensures bytes { OnOk result (out.new.items ≡ out.old.items ++ options.bytes row.now) }
    ensures spelled { OnOk result (AllByRecursion IsId row.now.categories) }
{
    let flags = bit(1, row.grplist) + bit(2, row.protectall) + bit(4, row.mls);
    put_byte(out, usize::from(flags))?;
    put_short(out, row.categories.items.len())?;
    put_ids(out, &row.categories.items)?;
    Ok(())
}

/// Identifiers.
fn put_ids(out: &mut Vec<u8>, ids: &[Id]) -> Result<(), NoMemory>
    ensures bytes { OnOk result (out.new.items ≡ out.old.items ++ flat_map filled ids.now) }
    ensures spelled { OnOk result (AllByRecursion IsId ids.now) }
{
    for id in ids {
        put_id(out, id)?;
    }
    Ok(())
}

/// Groups.
fn put_groups(out: &mut Vec<u8>, groups: &[Group]) -> Result<(), NoMemory>
    ensures bytes { OnOk result (out.new.items ≡ out.old.items ++ flat_map (group []).bytes groups.now) }
    ensures spelled { OnOk result (AllByRecursion IsSpelledGroup groups.now) }
{
    for group in groups {
        put_group(out, group)?;
    }
    Ok(())
}

/// A group.
#[tactic(auto, unfolding(crate::specs::Description::group))]
fn put_group(out: &mut Vec<u8>, row: &Group) -> Result<(), NoMemory>
    ensures bytes { OnOk result (out.new.items ≡ out.old.items ++ (group []).bytes row.now) }
    ensures spelled { OnOk result (IsSpelledGroup row.now) }
{
    put_id(out, &row.id)?;
    put_id_or_none(out, &row.superior)?;
    put_id(out, &row.owner)?;
    Ok(())
}

/// Users.
fn put_users(out: &mut Vec<u8>, users: &[User]) -> Result<(), NoMemory>
    ensures bytes { OnOk result ((n : ℕ) → out.new.items ≡ out.old.items ++ flat_map (user n []).bytes users.now) }
    ensures spelled { OnOk result (AllByRecursion IsSpelledUser users.now) }
{
    for user in users {
        put_user(out, user)?;
    }
    Ok(())
}

/// A user.
#[tactic(auto, unfolding(crate::specs::Description::user))]
fn put_user(out: &mut Vec<u8>, row: &User) -> Result<(), NoMemory>
    ensures bytes { OnOk result ((n : ℕ) → out.new.items ≡ out.old.items ++ (user n []).bytes row.now) }
    ensures spelled { OnOk result (IsSpelledUser row.now) }
{
    put_id(out, &row.id)?;
    put_id(out, &row.default_group)?;
    put_id(out, &row.owner)?;
    put_name(out, &row.name)?;
    put_attributes(out, &row.attributes)?;
    put_level(out, row.level)?;
    put_set(out, &row.categories)?;
    put_id_or_none(out, &row.label)?;
    put_user_classes(out, &row.classes)?;
    put_user_connects(out, &row.connects)?;
    Ok(())
}

/// A user's name.
fn put_name(out: &mut Vec<u8>, name: &Text) -> Result<(), NoMemory>
    ensures { OnOk result (out.new.items ≡ out.old.items ++ (big_bytes 1 (length name.now) ++ name.now)) }
{
    put_byte(out, name.bytes().len())?;
    out.extend_from_slice(name.bytes())?;
    Ok(())
}

/// A user's attributes.
fn put_attributes(out: &mut Vec<u8>, row: &Attributes) -> Result<(), NoMemory>
    ensures { OnOk result (out.new.items ≡ out.old.items ++ attributes.bytes row.now) }
{
    put_byte(out, usize::from(attribute_flags(row)))?;
    Ok(())
}

/// The classes in which a user may define profiles.
fn put_user_classes(out: &mut Vec<u8>, classes: &Classes) -> Result<(), NoMemory>
    ensures bytes { OnOk result (out.new.items ≡ out.old.items ++ (big_bytes 1 (length classes.now) ++ flat_map filled classes.now)) }
    ensures spelled { OnOk result (AllByRecursion IsId classes.now) }
{
    put_byte(out, classes.items.len())?;
    put_ids(out, &classes.items)?;
    Ok(())
}

/// A user's connections.
fn put_user_connects(out: &mut Vec<u8>, connects: &Connects) -> Result<(), NoMemory>
    ensures bytes { OnOk result (out.new.items ≡ out.old.items ++ (big_bytes 2 (length connects.now) ++ flat_map (connection []).bytes connects.now)) }
    ensures spelled { OnOk result (AllByRecursion (λ (connection : Connection). IsId connection.group) connects.now) }
{
    put_short(out, connects.items.len())?;
    put_connects(out, &connects.items)?;
    Ok(())
}

/// A user's attributes as one number.
fn attribute_flags(attributes: &Attributes) -> u8
    ensures { result ≡ attribute_flags attributes.now }
{
    bit(1, attributes.special)
        + bit(2, attributes.operations)
        + bit(4, attributes.auditor)
        + bit(8, attributes.restricted)
        + bit(16, attributes.revoked)
        + bit(32, attributes.uaudit)
}

/// Connections.
fn put_connects(out: &mut Vec<u8>, connects: &[Connect]) -> Result<(), NoMemory>
    ensures bytes { OnOk result (out.new.items ≡ out.old.items ++ flat_map (connection []).bytes connects.now) }
    ensures spelled { OnOk result (AllByRecursion (λ (connection : Connection). IsId connection.group) connects.now) }
{
    for row in connects {
        put_connect(out, row)?;
    }
    Ok(())
}

/// A connection.
#[tactic(auto, unfolding(crate::specs::Description::connection))]
fn put_connect(out: &mut Vec<u8>, row: &Connect) -> Result<(), NoMemory>
    ensures bytes { OnOk result (out.new.items ≡ out.old.items ++ (connection []).bytes row.now) }
    ensures spelled { OnOk result (IsId row.now.group) }
{
    put_id(out, &row.group)?;
    out.push(row.authority.rank())?;
    out.push(
        bit(1, row.special) + bit(2, row.operations) + bit(4, row.auditor) + bit(8, row.revoked),
    )?;
    Ok(())
}

/// Classes.
fn put_classes(out: &mut Vec<u8>, classes: &[ClassRow]) -> Result<(), NoMemory>
    ensures bytes { OnOk result ((names : List (List ℕ)) → out.new.items ≡ out.old.items ++ flat_map (class names []).bytes classes.now) }
    ensures spelled { OnOk result (AllByRecursion IsSpelledClass classes.now) }
{
    for row in classes {
        put_class(out, row)?;
    }
    Ok(())
}

/// A class.
#[tactic(auto, unfolding(crate::specs::Description::class))]
fn put_class(out: &mut Vec<u8>, row: &ClassRow) -> Result<(), NoMemory>
    ensures bytes { OnOk result ((names : List (List ℕ)) → out.new.items ≡ out.old.items ++ (class names []).bytes row.now) }
    ensures spelled { OnOk result (IsSpelledClass row.now) }
{
    put_id(out, &row.name)?;
    out.push(bit(1, row.active) + bit(2, row.listed) + bit(4, row.global))?;
    out.push(log_rank(row.log))?;
    put_word(out, row.profiles.items.len())?;
    put_profiles(out, &row.profiles.items)?;
    Ok(())
}

/// Profiles.
fn put_profiles(out: &mut Vec<u8>, profiles: &[Profile]) -> Result<(), NoMemory>
    ensures bytes { OnOk result ((names : List (List ℕ)) (class : List ℕ) (entries : ℕ) → out.new.items ≡ out.old.items ++ flat_map (profile names class entries []).bytes profiles.now) }
    ensures spelled { OnOk result (AllByRecursion IsSpelledProfile profiles.now) }
{
    for row in profiles {
        put_profile(out, row)?;
    }
    Ok(())
}

/// A profile.
#[tactic(auto, unfolding(crate::specs::Description::profile))]
fn put_profile(out: &mut Vec<u8>, row: &Profile) -> Result<(), NoMemory>
    ensures bytes { OnOk result ((names : List (List ℕ)) (class : List ℕ) (entries : ℕ) → out.new.items ≡ out.old.items ++ (profile names class entries []).bytes row.now) }
    ensures spelled { OnOk result (IsSpelledProfile row.now) }
{
    put_pattern(out, &row.name)?;
    put_id(out, &row.owner)?;
    put_rank(out, row.uacc)?;
    put_flag(out, row.warning)?;
    put_audit(out, row.audit.success)?;
    put_audit(out, row.audit.failures)?;
    put_audit(out, row.global_audit.success)?;
    put_audit(out, row.global_audit.failures)?;
    put_level(out, row.level)?;
    put_set(out, &row.categories)?;
    put_id_or_none(out, &row.label)?;
    put_standard(out, &row.standard)?;
    put_conditional(out, &row.conditional)?;
    put_profile_members(out, &row.members)?;
    Ok(())
}

/// A profile's name.
fn put_pattern(out: &mut Vec<u8>, name: &Pattern) -> Result<(), NoMemory>
    ensures bytes { OnOk result (out.new.items ≡ out.old.items ++ (big_bytes 2 (length name.now.text) ++ name.now.text)) }
    ensures spelled { OnOk result (IsPatternName name.now) }
{
    put_short(out, name.text().len())?;
    out.extend_from_slice(name.text())?;
    Ok(())
}

/// A standard access list.
fn put_standard(out: &mut Vec<u8>, entries: &Entries) -> Result<(), NoMemory>
    ensures bytes { OnOk result (out.new.items ≡ out.old.items ++ (big_bytes 2 (length entries.now) ++ flat_map (entry []).bytes entries.now)) }
    ensures spelled { OnOk result (AllByRecursion (λ (entry : Entry). IsWho entry.who) entries.now) }
{
    put_short(out, entries.items.len())?;
    put_entries(out, &entries.items)?;
    Ok(())
}

/// A conditional access list.
fn put_conditional(out: &mut Vec<u8>, entries: &CondEntries) -> Result<(), NoMemory>
    ensures bytes { OnOk result (out.new.items ≡ out.old.items ++ (big_bytes 2 (length entries.now) ++ flat_map (cond_entry []).bytes entries.now)) }
    ensures spelled { OnOk result (AllByRecursion (λ (entry : CondEntry). IsId entry.condition.name × IsWho entry.who) entries.now) }
{
    put_short(out, entries.items.len())?;
    put_cond_entries(out, &entries.items)?;
    Ok(())
}

/// A profile's members.
fn put_profile_members(out: &mut Vec<u8>, members: &Members) -> Result<(), NoMemory>
    ensures bytes { OnOk result ((names : List (List ℕ)) (class profile : List ℕ) → out.new.items ≡ out.old.items ++ (big_bytes 2 (length members.now) ++ flat_map (member names class profile []).bytes members.now)) }
    ensures spelled { OnOk result (AllByRecursion IsSpelledMember members.now) }
{
    put_short(out, members.items.len())?;
    put_members(out, &members.items)?;
    Ok(())
}

/// Entries.
fn put_entries(out: &mut Vec<u8>, entries: &[Entry]) -> Result<(), NoMemory>
    ensures bytes { OnOk result (out.new.items ≡ out.old.items ++ flat_map (entry []).bytes entries.now) }
    ensures spelled { OnOk result (AllByRecursion (λ (entry : Entry). IsWho entry.who) entries.now) }
{
    for row in entries {
        put_entry(out, row)?;
    }
    Ok(())
}

/// An entry.
#[tactic(auto, unfolding(crate::specs::Description::entry))]
fn put_entry(out: &mut Vec<u8>, row: &Entry) -> Result<(), NoMemory>
    ensures bytes { OnOk result (out.new.items ≡ out.old.items ++ (entry []).bytes row.now) }
    ensures spelled { OnOk result (IsWho row.now.who) }
{
    put_who(out, &row.who)?;
    out.push(row.level.rank())?;
    Ok(())
}

/// Conditional entries.
fn put_cond_entries(out: &mut Vec<u8>, entries: &[CondEntry]) -> Result<(), NoMemory>
    ensures bytes { OnOk result (out.new.items ≡ out.old.items ++ flat_map (cond_entry []).bytes entries.now) }
    ensures spelled { OnOk result (AllByRecursion (λ (entry : CondEntry). IsId entry.condition.name × IsWho entry.who) entries.now) }
{
    for row in entries {
        put_cond_entry(out, row)?;
    }
    Ok(())
}

/// A conditional entry.
#[tactic(auto, unfolding(crate::specs::Description::cond_entry))]
fn put_cond_entry(out: &mut Vec<u8>, row: &CondEntry) -> Result<(), NoMemory>
    ensures bytes { OnOk result (out.new.items ≡ out.old.items ++ (cond_entry []).bytes row.now) }
    ensures spelled { OnOk result (IsId row.now.condition.name × IsWho row.now.who) }
{
    out.push(port_rank(row.condition.class))?;
    put_id(out, &row.condition.name)?;
    put_who(out, &row.who)?;
    out.push(row.level.rank())?;
    Ok(())
}

/// Members.
fn put_members(out: &mut Vec<u8>, members: &[Member]) -> Result<(), NoMemory>
    ensures bytes { OnOk result ((names : List (List ℕ)) (class profile : List ℕ) → out.new.items ≡ out.old.items ++ flat_map (member names class profile []).bytes members.now) }
    ensures spelled { OnOk result (AllByRecursion IsSpelledMember members.now) }
{
    for row in members {
        put_member(out, row)?;
    }
    Ok(())
}

/// A member.
#[tactic(auto, unfolding(crate::specs::Description::member))]
fn put_member(out: &mut Vec<u8>, row: &Member) -> Result<(), NoMemory>
    ensures bytes { OnOk result ((names : List (List ℕ)) (class profile : List ℕ) → out.new.items ≡ out.old.items ++ (member names class profile []).bytes row.now) }
    ensures spelled { OnOk result (IsSpelledMember row.now) }
{
    match row {
        Member::Access(name, level) => {
            out.push(1)?;
            put_short(out, name.text().len())?;
            out.extend_from_slice(name.text())?;
            out.push(level.rank())?;
            Ok(())
        }
        Member::SecurityLevel(name, number) => {
            out.push(2)?;
            put_id(out, name)?;
            out.push(*number)?;
            Ok(())
        }
        Member::Category(name) => {
            out.push(3)?;
            put_id(out, name)?;
            Ok(())
        }
        Member::Traits(traits) => {
            out.push(4)?;
            out.push(bit(1, traits.operations) + bit(2, traits.ids))?;
            out.push(traits.longest)?;
            Ok(())
        }
    }
}
