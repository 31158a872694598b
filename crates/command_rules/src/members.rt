//! Members of profiles, and how many there are after a command, of them and of categories.
ghost use Rattle.std.specs.Prelude.{◌≡◌, ◌+◌, ◌||◌, ◌&&◌, not, count_by, length, bytes_eq, if◌then◌else◌};
ghost use Rattle.std.specs.List.{list_any};
ghost use Rattle.command_rules.specs.Members.{member_name, is_member_named, is_named_in, without_members, members_after, categories_defined, category_repeats};
ghost use Rattle.command_rules.specs.Security.{is_category_member};

use crate::security::is_category_member;
use access_levels::Id;
use generic_names::MemberName;
use racf_profiles::Member;

/// Whether a member has one of these names.
pub fn is_named_in(names: &[MemberName], member: &Member) -> bool
    ensures { result ≡ is_named_in names.now member.now }
{
    names
        .iter()
        .any(|name| is_member_named(name.text(), member))
}

/// What a member is named.
pub fn member_name(member: &Member) -> &[u8]
    ensures { result.now ≡ member_name member.now }
{
    match member {
        Member::Access(name, _) => name.text(),
        Member::SecurityLevel(name, _) => name.text(),
        Member::Category(name) => name.text(),
        Member::Traits(_) => &[],
    }
}

/// Whether a member has that name.
pub fn is_member_named(name: &[u8], member: &Member) -> bool
    ensures { result ≡ is_member_named name.now member.now }
{
    member_name(member) == name
}

/// How many members there are then. Each one that is added is compared with those before it and with the old ones.
pub fn members_count(added: &[Member], gone: &[MemberName], old: &[Member]) -> usize
    ensures { result ≡ length (members_after added.now gone.now old.now) }
{
    let mut count = old.len() + added.len() - count_gone(gone, old);
    for (i, member) in added.iter().enumerate() {
        count -= repeats(member, &added[..i], gone, old);
    }
    count
}

/// How many members go.
fn count_gone(gone: &[MemberName], old: &[Member]) -> usize
    ensures { result + length (without_members gone.now old.now) ≡ length old.now }
{
    count_named_in(gone, old)
}

/// How many members have one of these names.
fn count_named_in(names: &[MemberName], members: &[Member]) -> usize
    ensures { result ≡ count_by (is_named_in names.now) members.now }
{
    members
        .iter()
        .filter(|member| is_named_in(names, member))
        .count()
}

/// 1 for a member that adds none, since one of its name stays or was added before it, else 0.
fn repeats(member: &Member, before: &[Member], gone: &[MemberName], old: &[Member]) -> usize
    ensures { result ≡ (if list_any (is_member_named (member_name member.now)) (without_members gone.now old.now) || list_any (is_member_named (member_name member.now)) before.now then 1 else 0) }
{
    let name = member_name(member);
    if stays(name, gone, old) || is_among(name, before) {
        1
    } else {
        0
    }
}

/// Whether one of these members has that name.
fn is_among(name: &[u8], members: &[Member]) -> bool
    ensures { result ≡ list_any (is_member_named name.now) members.now }
{
    members.iter().any(|other| is_member_named(name, other))
}

/// Whether a member of that name stays.
fn stays(name: &[u8], gone: &[MemberName], old: &[Member]) -> bool
    ensures { result ≡ list_any (is_member_named name.now) (without_members gone.now old.now) }
{
    any_stays(name, gone, old)
}

/// The same, by a walk over the old members.
fn any_stays(name: &[u8], gone: &[MemberName], old: &[Member]) -> bool
    ensures { result ≡ list_any (λ member. is_member_named name.now member && not (is_named_in gone.now member)) old.now }
{
    old.iter().any(|member| is_kept(name, gone, member))
}

/// Whether it has that name, and stays.
fn is_kept(name: &[u8], gone: &[MemberName], member: &Member) -> bool
    ensures { result ≡ (is_member_named name.now member.now && not (is_named_in gone.now member.now)) }
{
    is_member_named(name, member) && !is_named_in(gone, member)
}

/// How many categories were ever defined then. Each one that is added is compared with those before it and with the
/// old ones.
pub fn categories_count(added: &[Member], old: &[Id]) -> usize
    ensures { result ≡ length (categories_defined added.now old.now) }
{
    let mut count = old.len() + added.len();
    for (i, member) in added.iter().enumerate() {
        count -= category_repeats(member, &added[..i], old);
    }
    count
}

/// 1 for a member that defines no category anew, else 0.
fn category_repeats(member: &Member, before: &[Member], old: &[Id]) -> usize
    ensures { result ≡ category_repeats member.now before.now old.now }
{
    match member {
        Member::Category(name) => name_repeats(*name, before, old),
        _ => 1,
    }
}

/// The same of a category's name.
fn name_repeats(name: Id, before: &[Member], old: &[Id]) -> usize
    ensures { result ≡ (if list_any (λ other. bytes_eq other name) old.now || list_any (is_category_member name) before.now then 1 else 0) }
{
    if is_one_of(name, old) || is_category_among(name, before) {
        1
    } else {
        0
    }
}

/// Whether it is one of these names.
fn is_one_of(name: Id, names: &[Id]) -> bool
    ensures { result ≡ list_any (λ other. bytes_eq other name) names.now }
{
    names.iter().any(|other| *other == name)
}

/// Whether one of these members is the category of that name.
fn is_category_among(name: Id, members: &[Member]) -> bool
    ensures { result ≡ list_any (is_category_member name) members.now }
{
    members.iter().any(|other| is_category_member(name, other))
}
