//! How many bytes parts of an image have.
ghost use Rattle.std.specs.Prelude.{◌≡◌, ◌+◌, ◌<◌, ◌^◌};
ghost use Rattle.std.specs.List.{sum_by};
ghost use Rattle.database_image.specs.Facts.{user_width, member_width, profile_width, class_width};

use racf_profiles::{ClassRow, Member, Profile, User};

/// The bytes of a user.
pub fn user_width(user: &User) -> usize
    requires { user_width user.now < 2 ^ 64 }
    ensures { result ≡ user_width user.now }
{
    70 + user.name.bytes().len() + 8 * user.classes.items.len() + 10 * user.connects.items.len()
}

/// The bytes of users.
pub fn users_width(users: &[User]) -> usize
    requires { sum_by user_width users.now < 2 ^ 64 }
    ensures { result ≡ sum_by user_width users.now }
{
    let mut width = 0;
    for user in users {
        width += user_width(user);
    }
    width
}

/// The bytes of a class.
pub fn class_width(class: &ClassRow) -> usize
    requires { class_width class.now < 2 ^ 64 }
    ensures { result ≡ class_width class.now }
{
    14 + profiles_width(&class.profiles.items)
}

/// The bytes of profiles.
fn profiles_width(profiles: &[Profile]) -> usize
    requires { sum_by profile_width profiles.now < 2 ^ 64 }
    ensures { result ≡ sum_by profile_width profiles.now }
{
    let mut width = 0;
    for profile in profiles {
        width += profile_width(profile);
    }
    width
}

/// The bytes of a profile.
pub fn profile_width(profile: &Profile) -> usize
    requires { profile_width profile.now < 2 ^ 64 }
    ensures { result ≡ profile_width profile.now }
{
    63 + profile.name.text().len()
        + 9 * profile.standard.items.len()
        + 18 * profile.conditional.items.len()
        + members_width(&profile.members.items)
}

/// The bytes of members.
fn members_width(members: &[Member]) -> usize
    requires { sum_by member_width members.now < 2 ^ 64 }
    ensures { result ≡ sum_by member_width members.now }
{
    let mut width = 0;
    for member in members {
        width += member_width(member);
    }
    width
}

/// The bytes of a member.
pub fn member_width(member: &Member) -> usize
    requires { member_width member.now < 2 ^ 64 }
    ensures { result ≡ member_width member.now }
{
    match member {
        Member::Access(name, _) => 4 + name.text().len(),
        Member::SecurityLevel(_, _) => 10,
        Member::Category(_) => 9,
        Member::Traits(_) => 3,
    }
}
