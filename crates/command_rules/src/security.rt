//! Security levels, categories and labels, by the live profiles that define them.
ghost use Rattle.std.specs.Prelude.{◌≡◌, ◌<◌, ◌||◌, [], length, IfSome, position, is_some, codes, bytes_eq};
ghost use Rattle.std.specs.Option.{option_map_or};
ghost use Rattle.racf_profiles.specs.Lookup.{profile_of};
ghost use Rattle.command_rules.specs.Security.{general_name, secdata_members, security_level_of, first_security_level, level_number, is_category_member, is_category, category_number, is_label};

use access_levels::Id;
use generic_names::{NameKind, Pattern};
use racf_profiles::{FixedClass, Member, Profile, View};
use row_tables::RowTables;

/// The number of a security level. It goes through the levels.
pub fn level_number(tables: &RowTables, name: Id) -> Option<u8>
    ensures { result ≡ level_number tables.now.rows name }
{
    first_security_level(name, secdata_members(tables, &seclevel_name()))
}

/// Whether it is a category that can be given now. It goes through the categories.
pub fn is_category(tables: &RowTables, name: Id) -> bool
    ensures { result ≡ is_category tables.now.rows name }
{
    secdata_members(tables, &category_name())
        .iter()
        .any(|member| is_category_member(name, member))
}

/// Whether it is SYSHIGH, SYSLOW, or the name of a profile of class SECLABEL.
pub fn is_label(tables: &RowTables, name: Id) -> bool
    ensures { result ≡ is_label tables.now.rows name }
{
    is_own_label(name) || has_label(tables, name)
}

/// The number of a category that was defined at some time. It goes through their names.
pub fn category_number(tables: &RowTables, name: Id) -> Option<u8>
    ensures { result ≡ category_number tables.now.rows name }
{
    match place_of(name, tables.options().categories.items.as_slice()) {
        Some(place) => Some(place as u8),
        None => None,
    }
}

/// Whether it is a category that was defined at some time.
pub fn was_category(tables: &RowTables, name: Id) -> bool
    ensures { result ≡ is_some (category_number tables.now.rows name) }
{
    category_number(tables, name).is_some()
}

/// Whether a profile of class SECLABEL has that name.
fn has_label(tables: &RowTables, name: Id) -> bool
    ensures { result ≡ is_some (profile_of (codes "SECLABEL") (general_name name) tables.now.rows) }
{
    let name = general_name(name);
    tables.profile(FixedClass::Seclabel.id(), &name).is_some()
}

/// The members of a profile of class SECDATA.
fn secdata_members<'a>(tables: &'a RowTables, name: &Pattern) -> &'a [Member]
    ensures { result.now ≡ option_map_or (λ (profile : Profile). profile.members) (profile_of (codes "SECDATA") name.now tables.now.rows) [] }
{
    match tables.profile(FixedClass::Secdata.id(), name) {
        Some(profile) => profile.members.items.as_slice(),
        None => &[],
    }
}

/// The place of a name among these.
fn place_of(name: Id, names: &[Id]) -> Option<usize>
    ensures place { result ≡ position (λ other. bytes_eq other name) names.now }
    ensures within { IfSome result (λ place. place < length names.now) }
{
    names.iter().position(|other| *other == name)
}

/// The number of the first security level of that name.
fn first_security_level(name: Id, members: &[Member]) -> Option<u8>
    ensures { result ≡ first_security_level name members.now }
{
    for member in members {
        if let Some(number) = security_level_of(name, member) {
            return Some(number);
        }
    }
    None
}

/// The number of the security level that a member defines, where it has that name.
fn security_level_of(name: Id, member: &Member) -> Option<u8>
    ensures { result ≡ security_level_of name member.now }
{
    match member {
        Member::SecurityLevel(other, number) if *other == name => Some(*number),
        _ => None,
    }
}

/// Whether a member is the category of that name.
pub(crate) fn is_category_member(name: Id, member: &Member) -> bool
    ensures { result ≡ is_category_member name member.now }
{
    match member {
        Member::Category(other) => *other == name,
        _ => false,
    }
}

/// Whether it is a label that every database has.
fn is_own_label(name: Id) -> bool
    ensures { result ≡ (bytes_eq name (codes "SYSHIGH") || bytes_eq name (codes "SYSLOW")) }
{
    name.text() == b"SYSHIGH".as_slice() || name.text() == b"SYSLOW".as_slice()
}

/// The profile of SECDATA whose members are the security levels.
fn seclevel_name() -> Pattern
    ensures { result ≡ general_name (codes "SECLEVEL") }
{
    match Pattern::read(NameKind::General, b"SECLEVEL") {
        Ok(name) => name,
        Err(_) => unreachable!(),
    }
}

/// The profile of SECDATA whose members are the categories.
fn category_name() -> Pattern
    ensures { result ≡ general_name (codes "CATEGORY") }
{
    match Pattern::read(NameKind::General, b"CATEGORY") {
        Ok(name) => name,
        Err(_) => unreachable!(),
    }
}

/// The general name that an ID spells.
fn general_name(id: Id) -> Pattern
    ensures { result ≡ general_name id }
{
    match Pattern::read(NameKind::General, id.text()) {
        Ok(name) => name,
        Err(_) => unreachable!(),
    }
}
