//! Members of profiles, and the categories that they define.
ghost use Rattle.std.specs.Prelude.{◌≡◌, position, IfOk, OnOk};
ghost use Rattle.command_rules.specs.Members.{is_member_named, with_member, without_members, members_after, with_category_name, categories_defined};

use super::classes::add_class;
use access_levels::Id;
use command_rules::{is_member_named, is_named_in, member_name};
use generic_names::MemberName;
use racf_profiles::{Member, NoMemory};
use std::alloc::Global;

/// The members without those of DELMEM, and then with those of ADDMEM, each in place of the one of its name or else
/// last.
pub(crate) fn members_after(
    members: Vec<Member>,
    added: &[Member],
    gone: &[MemberName],
) -> Result<Vec<Member>, NoMemory>
    ensures { IfOk result (λ after. after.items ≡ members_after added.now gone.now members.items) }
{
    let mut members = members;
    drop_members(&mut members, gone);
    for member in added {
        put_member(&mut members, *member)?;
    }
    Ok(members)
}

/// Takes the members of DELMEM away.
fn drop_members(members: &mut Vec<Member>, gone: &[MemberName])
    ensures { members.new.items ≡ without_members gone.now members.old.items }
{
    members.retain(|member| !is_named_in(gone, member));
}

/// A member in place of the one of its name, or else last.
fn put_member(members: &mut Vec<Member>, member: Member) -> Result<(), NoMemory>
    ensures { OnOk result (members.new.items ≡ with_member members.old.items member) }
{
    match place_of(members.as_slice(), member_name(&member)) {
        Some(place) => {
            members[place] = member;
            Ok(())
        }
        None => {
            members.push(member)?;
            Ok(())
        }
    }
}

/// The place of the member of that name.
fn place_of(members: &[Member], name: &[u8]) -> Option<usize>
    ensures { result ≡ position (is_member_named name.now) members.now }
{
    members
        .iter()
        .position(|other| is_member_named(name, other))
}

/// The names of categories with those that are new behind them.
pub(crate) fn categories_defined(
    alloc: Global,
    added: &[Member],
    old: &[Id],
) -> Result<Vec<Id>, NoMemory>
    ensures { IfOk result (λ names. names.items ≡ categories_defined added.now old.now) }
{
    let mut names = Vec::from_slice(alloc, old)?;
    for member in added {
        define_category(&mut names, member)?;
    }
    Ok(names)
}

/// The name of a category that is new, behind the others.
fn define_category(names: &mut Vec<Id>, member: &Member) -> Result<(), NoMemory>
    ensures { OnOk result (names.new.items ≡ with_category_name names.old.items member.now) }
{
    match member {
        Member::Category(name) => add_class(names, *name),
        _ => Ok(()),
    }
}
