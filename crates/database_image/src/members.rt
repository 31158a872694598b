//! Members of profiles, read.
ghost use Rattle.std.specs.Prelude.{◌≡◌, ◌≤◌, ◌++◌, ◌∷◌, [], length, map, IfOk, bytes_eq, nat_le, ◌&&◌};
ghost use Rattle.std.specs.List.{list_any};
ghost use Rattle.std.specs.Result.{result_ok};
ghost use Rattle.generic_names.specs.Faults.{longest, member_of};
ghost use Rattle.racf_profiles.specs.Limits.{most_members};
ghost use Rattle.racf_profiles.specs.LawfulProfiles.{kind_in, member_name};
ghost use Rattle.racf_profiles.specs.declared.profiles.Member.{Member};
ghost use Rattle.database_image.specs.Reading.{Gives};
ghost use Rattle.database_image.specs.Forms.{spelled_at, items_from, listed};
ghost use Rattle.database_image.specs.Fields.{id, is_new, text_spelling};
ghost use Rattle.database_image.specs.Description.{text, spelled_text, member_in, is_kind_in, is_member_count, is_new_member, access_member, level_member, category_member, traits_member, member_of_kind, member};

use crate::faults::ReadFault;
use crate::fields::{byte_at, id_at, is_set, level_at, short_at};
use crate::left::{Left, require};
use crate::names::Names;
use crate::profiles::longest;
use access_levels::Id;
use generic_names::{MemberName, Pattern};
use racf_profiles::{ClassTraits, Member, Members, kind_of_class};
use std::alloc::Global;

/// The most members of a profile.
const MOST_MEMBERS: u16 = 1_000;

/// The members of a profile of this class and name.
pub fn members_at(
    alloc: Global,
    categories: &[Id],
    class: Id,
    profile: &Pattern,
    left: &mut Left<'_>,
) -> Result<Members, ReadFault>
    ensures { Gives (λ x. (x, left.new)) result ((listed 2 (is_member_count class) (member categories.now class profile.now.text)).reading left.old) }
{
    let begin = left.len();
    let count = short_at(left)?;
    require(is_member_count(class, count), begin)?;
    let items = members_from(
        alloc,
        categories,
        class,
        profile.text(),
        u32::from(count),
        left,
    )?;
    Ok(Members { items })
}

/// Whether a profile of the class may have so many members.
fn is_member_count(class: Id, count: u16) -> bool
    ensures { result ≡ is_member_count class count }
{
    if class.text() == b"CDT".as_slice() {
        count == 1
    } else {
        count <= MOST_MEMBERS
    }
}

/// So many members.
fn members_from(
    alloc: Global,
    categories: &[Id],
    class: Id,
    profile: &[u8],
    count: u32,
    left: &mut Left<'_>,
) -> Result<Vec<Member>, ReadFault>
    ensures { Gives (λ x. (x.items, left.new)) result (items_from (member categories.now class profile.now) count [] left.old) }
{
    let mut names = Names::new(alloc);
    let mut items = Vec::new(alloc);
    for _ in 0..count {
        let member = next_member(categories, class, profile, &items, &mut names, left)?;
        items.push(member)?;
    }
    Ok(items)
}

/// A member behind others.
#[tactic(auto, unfolding(crate::specs::Description::member))]
fn next_member(
    categories: &[Id],
    class: Id,
    profile: &[u8],
    before: &[Member],
    names: &mut Names,
    left: &mut Left<'_>,
) -> Result<Member, ReadFault>
    requires { names.old ≡ map member_name before.now }
    ensures reads { Gives (λ x. (x, left.new)) result ((member categories.now class profile.now before.now).reading left.old) }
    ensures noted { IfOk result (λ x. names.new ≡ names.old ++ member_name x ∷ []) }
{
    let begin = left.len();
    let kind = byte_at(left)?;
    require(is_kind_in(class, profile, kind), begin)?;
    match kind {
        1 => access_member(profile, before, names, left),
        2 => level_member(before, names, left),
        3 => category_member(categories, before, names, left),
        _ => traits_member(before, names, left),
    }
}

/// Whether a member of this kind stands in a profile of that class and name.
fn is_kind_in(class: Id, profile: &[u8], kind: u8) -> bool
    ensures { result ≡ is_kind_in class profile.now kind }
{
    let name = class.text();
    (kind == 1 && name == b"GLOBAL".as_slice())
        || (kind == 2 && name == b"SECDATA".as_slice() && profile == b"SECLEVEL".as_slice())
        || (kind == 3 && name == b"SECDATA".as_slice() && profile == b"CATEGORY".as_slice())
        || (kind == 4 && name == b"CDT".as_slice())
}

/// Resources, and the access that everyone has to them.
fn access_member(
    profile: &[u8],
    before: &[Member],
    names: &mut Names,
    left: &mut Left<'_>,
) -> Result<Member, ReadFault>
    requires { names.old ≡ map member_name before.now }
    ensures reads { Gives (λ x. (x, left.new)) result ((access_member profile.now before.now).reading left.old) }
    ensures noted { IfOk result (λ x. names.new ≡ names.old ++ member_name x ∷ []) }
{
    let _before = before;
    let resources = resources_at(profile, names, left)?;
    let level = level_at(left)?;
    Ok(Member::Access(resources, level))
}

/// The name of resources in a profile of that name, which wasn't noted.
fn resources_at(
    profile: &[u8],
    names: &mut Names,
    left: &mut Left<'_>,
) -> Result<MemberName, ReadFault>
    ensures reads { Gives (λ x. (x, left.new)) result ((text 2 (λ count. nat_le 1 count && nat_le count (longest (kind_in profile.now))) spelled_text (member_in profile.now) (λ name. is_new names.old name.text)).reading left.old) }
    ensures noted { IfOk result (λ x. names.new ≡ names.old ++ x.text ∷ []) }
{
    let begin = left.len();
    let count = short_at(left)?;
    require(
        1 <= count && count <= longest(kind_of_class(profile)),
        begin,
    )?;
    let begin = left.len();
    let name = member_name_at(profile, usize::from(count), left)?;
    let new = names.note(name.text())?;
    require(new, begin)?;
    Ok(name)
}

/// The name of a member, of so many bytes.
#[tactic(auto, unfolding(crate::specs::Forms::spelled_at, crate::specs::Description::member_in))]
fn member_name_at(
    profile: &[u8],
    count: usize,
    left: &mut Left<'_>,
) -> Result<MemberName, ReadFault>
    ensures { Gives (λ x. (x, left.new)) result (spelled_at (text_spelling spelled_text (member_in profile.now) count) left.old) }
{
    let begin = left.len();
    let text = left.part(count)?;
    match MemberName::read(kind_of_class(profile), text) {
        Ok(name) => Ok(name),
        Err(_) => Err(ReadFault::At(begin)),
    }
}

/// A security level and its number.
fn level_member(
    before: &[Member],
    names: &mut Names,
    left: &mut Left<'_>,
) -> Result<Member, ReadFault>
    requires { names.old ≡ map member_name before.now }
    ensures reads { Gives (λ x. (x, left.new)) result ((level_member before.now).reading left.old) }
    ensures noted { IfOk result (λ x. names.new ≡ names.old ++ member_name x ∷ []) }
{
    let _before = before;
    let begin = left.len();
    let name = id_at(left)?;
    let new = names.note(name.text())?;
    require(new, begin)?;
    let begin = left.len();
    let number = byte_at(left)?;
    require(1 <= number && number <= 254, begin)?;
    Ok(Member::SecurityLevel(name, number))
}

/// A category, one of those ever defined.
fn category_member(
    categories: &[Id],
    before: &[Member],
    names: &mut Names,
    left: &mut Left<'_>,
) -> Result<Member, ReadFault>
    requires { names.old ≡ map member_name before.now }
    ensures reads { Gives (λ x. (x, left.new)) result ((category_member categories.now before.now).reading left.old) }
    ensures noted { IfOk result (λ x. names.new ≡ names.old ++ member_name x ∷ []) }
{
    let _before = before;
    let begin = left.len();
    let name = id_at(left)?;
    let new = names.note(name.text())?;
    require(new && is_among(categories, name), begin)?;
    Ok(Member::Category(name))
}

/// The traits of a class, which stand alone.
fn traits_member(
    before: &[Member],
    names: &mut Names,
    left: &mut Left<'_>,
) -> Result<Member, ReadFault>
    requires { names.old ≡ map member_name before.now }
    ensures reads { Gives (λ x. (x, left.new)) result ((traits_member before.now).reading left.old) }
    ensures noted { IfOk result (λ x. names.new ≡ names.old ++ member_name x ∷ []) }
{
    let _before = before;
    let begin = left.len();
    let flags = byte_at(left)?;
    let new = names.note(b"".as_slice())?;
    require(flags < 4 && new, begin)?;
    let begin = left.len();
    let longest = byte_at(left)?;
    require(1 <= longest && longest <= 246, begin)?;
    Ok(Member::Traits(ClassTraits {
        operations: is_set(flags, 1),
        ids: is_set(flags, 2),
        longest,
    }))
}

/// Whether the category is one of these.
fn is_among(categories: &[Id], name: Id) -> bool
    ensures { result ≡ list_any (λ other. bytes_eq other name) categories.now }
{
    categories.iter().any(|other| *other == name)
}
