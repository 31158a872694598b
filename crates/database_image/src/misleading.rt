//! The first field of rows that may mislead: its bytes would be read as another value than the rows have there.
ghost use Rattle.std.specs.Prelude.{◌≡◌, ◌+◌, ◌*◌, ◌<◌, ◌%◌, ◌^◌, ◌==◌, ◌&&◌, ◌||◌, ℕ, [], ◌∷◌, length};
ghost use Rattle.std.specs.List.{sum_by};
ghost use Rattle.access_levels.specs.Category.{is_member};
ghost use Rattle.racf_profiles.specs.LawfulProfiles.{is_of_kind, is_logged_level};
ghost use Rattle.database_image.specs.Facts.{told, told_of_each, first_broken, user_width, member_width, profile_width, class_width, classes_place};
ghost use Rattle.database_image.specs.Misleading.{has_room, tells_classes, is_of_bytes, user_marks, member_marks, audit_marks, list_marks, profile_marks, class_marks, marks};

use crate::widths::{class_width, member_width, profile_width, user_width, users_width};
use access_levels::{Categories, Level};
use generic_names::NameKind;
use racf_profiles::{ClassRow, Member, Profile, Rows, User, kind_in, kind_of_class};

/// The numbers that a set may have are below this one.
const NUMBERS: usize = 256;

/// The place of the first field that misleads.
pub fn first_misleading(rows: &Rows) -> Option<usize>
    requires { classes_place rows.now + sum_by class_width rows.now.classes < 2 ^ 64 }
    ensures { result ≡ first_broken (marks rows.now) }
{
    let categories = rows.options.categories.items.len();
    let groups = rows.groups.items.len();
    let users = 7 + 8 * categories + 24 * groups;
    let classes = users + 4 + users_width(&rows.users.items);
    unless(has_short(categories), 1)
        .or(unless(has_word(groups), 3 + 8 * categories))
        .or(unless(has_word(rows.users.items.len()), users))
        .or(of_users(&rows.users.items, users + 4))
        .or(unless(tells_classes(rows.classes.items.len()), classes))
        .or(of_classes(&rows.classes.items, classes + 2))
}

/// The place, unless the field there is read as the same value.
fn unless(same: bool, place: usize) -> Option<usize>
    ensures { result ≡ first_broken (told place same ∷ []) }
{
    if same { None } else { Some(place) }
}

/// Whether one byte has room for a count.
fn has_byte(count: usize) -> bool
    ensures { result ≡ has_room 1 count }
{
    count < 0x100
}

/// Whether two bytes have room for a count.
fn has_short(count: usize) -> bool
    ensures { result ≡ has_room 2 count }
{
    count < 0x1_0000
}

/// Whether a count of classes is read as itself: two bytes have room for it, and CDT is among them.
fn tells_classes(count: usize) -> bool
    ensures { result ≡ tells_classes count }
{
    has_short(count) && count != 14
}

/// Whether four bytes have room for a count.
fn has_word(count: usize) -> bool
    ensures { result ≡ has_room 4 count }
{
    count < 0x1_0000_0000
}

/// The place of the first in these users, from this place on.
fn of_users(users: &[User], place: usize) -> Option<usize>
    requires { place + sum_by user_width users.now < 2 ^ 64 }
    ensures { result ≡ first_broken (told_of_each user_width user_marks place users.now) }
{
    let mut at = place;
    for user in users {
        let misled = of_user(user, at);
        if misled.is_some() {
            return misled;
        }
        at += user_width(user);
    }
    None
}

/// The place of the first in a user.
fn of_user(user: &User, place: usize) -> Option<usize>
    requires { place + user_width user.now < 2 ^ 64 }
    ensures { result ≡ first_broken (user_marks place user.now) }
{
    let name = user.name.bytes().len();
    let classes = user.classes.items.len();
    let connects = user.connects.items.len();
    unless(has_byte(name), place + 24)
        .or(unless(is_of_bytes(&user.categories), place + 27 + name))
        .or(unless(has_byte(classes), place + 67 + name))
        .or(unless(has_short(connects), place + 68 + name + 8 * classes))
}

/// The place of the first in these classes, from this place on.
fn of_classes(classes: &[ClassRow], place: usize) -> Option<usize>
    requires { place + sum_by class_width classes.now < 2 ^ 64 }
    ensures { result ≡ first_broken (told_of_each class_width class_marks place classes.now) }
{
    let mut at = place;
    for class in classes {
        let misled = of_class(class, at);
        if misled.is_some() {
            return misled;
        }
        at += class_width(class);
    }
    None
}

/// The place of the first in a class.
fn of_class(class: &ClassRow, place: usize) -> Option<usize>
    requires { place + class_width class.now < 2 ^ 64 }
    ensures { result ≡ first_broken (class_marks place class.now) }
{
    let kind = kind_in(class.name);
    let profiles = class.profiles.items.as_slice();
    unless(has_word(profiles.len()), place + 10).or(of_profiles(kind, profiles, place + 14))
}

/// The place of the first in these profiles of a class with names of this kind, from this place on.
fn of_profiles(kind: NameKind, profiles: &[Profile], place: usize) -> Option<usize>
    requires { place + sum_by profile_width profiles.now < 2 ^ 64 }
    ensures { result ≡ first_broken (told_of_each profile_width (profile_marks kind) place profiles.now) }
{
    let mut at = place;
    for profile in profiles {
        let misled = of_profile(kind, profile, at);
        if misled.is_some() {
            return misled;
        }
        at += profile_width(profile);
    }
    None
}

/// The place of the first in a profile of a class with names of this kind.
fn of_profile(kind: NameKind, profile: &Profile, place: usize) -> Option<usize>
    requires { place + profile_width profile.now < 2 ^ 64 }
    ensures { result ≡ first_broken (profile_marks kind place profile.now) }
{
    let name = profile.name.text().len();
    unless(is_of_kind(kind, profile.name.kind()), place + 2)
        .or(of_audit(profile, place + 12 + name))
        .or(unless(is_of_bytes(&profile.categories), place + 17 + name))
        .or(of_lists(profile, place + 57 + name))
}

/// The place of the first of a profile's levels of auditing, which stand from this place on.
fn of_audit(profile: &Profile, place: usize) -> Option<usize>
    requires { place + 4 < 2 ^ 64 }
    ensures { result ≡ first_broken (audit_marks place profile.now) }
{
    unless(is_logged_level(profile.audit.success), place)
        .or(unless(is_logged_level(profile.audit.failures), place + 1))
        .or(unless(is_logged_level(profile.global_audit.success), place + 2))
        .or(unless(is_logged_level(profile.global_audit.failures), place + 3))
}

/// The place of the first in a profile's access lists and members, which stand from this place on.
fn of_lists(profile: &Profile, place: usize) -> Option<usize>
    requires { place + 6 + 9 * length profile.now.standard + 18 * length profile.now.conditional + sum_by member_width profile.now.members < 2 ^ 64 }
    ensures { result ≡ first_broken (list_marks place profile.now) }
{
    let kind = kind_of_class(profile.name.text());
    let members = profile.members.items.as_slice();
    let conditional = place + 2 + 9 * profile.standard.items.len();
    let last = conditional + 2 + 18 * profile.conditional.items.len();
    unless(has_short(profile.standard.items.len()), place)
        .or(unless(has_short(profile.conditional.items.len()), conditional))
        .or(unless(has_short(members.len()), last))
        .or(of_members(kind, members, last + 2))
}

/// The place of the first in these members of a profile that names resources of this kind, from this place on.
fn of_members(kind: NameKind, members: &[Member], place: usize) -> Option<usize>
    requires { place + sum_by member_width members.now < 2 ^ 64 }
    ensures { result ≡ first_broken (told_of_each member_width (member_marks kind) place members.now) }
{
    let mut at = place;
    for member in members {
        let misled = of_member(kind, member, at);
        if misled.is_some() {
            return misled;
        }
        at += member_width(member);
    }
    None
}

/// The place of the name of a member, where it isn't of this kind.
fn of_member(kind: NameKind, member: &Member, place: usize) -> Option<usize>
    requires { place + member_width member.now < 2 ^ 64 }
    ensures { result ≡ first_broken (member_marks kind place member.now) }
{
    match member {
        Member::Access(name, _) => unless(is_of_kind(kind, name.kind()), place + 3),
        Member::SecurityLevel(_, _) | Member::Category(_) | Member::Traits(_) => None,
    }
}

/// Whether two kinds of names are one.
fn is_of_kind(kind: NameKind, other: NameKind) -> bool
    ensures { result ≡ is_of_kind kind other }
{
    match kind {
        NameKind::DataSet => matches!(other, NameKind::DataSet),
        NameKind::General => matches!(other, NameKind::General),
    }
}

/// Whether accesses are logged from that level on, or not at all: no access isn't logged.
fn is_logged_level(level: Option<Level>) -> bool
    ensures { result ≡ is_logged_level level }
{
    !matches!(level, Some(Level::NoAccess))
}

/// Whether a set has the numbers 0 to 255 alone, and so is the same when it is made of those again.
fn is_of_bytes(set: &Categories) -> bool
    ensures { result ≡ is_of_bytes set.now }
{
    made_again(set) == *set
}

/// The set of the numbers 0 to 255 that a set has.
fn made_again(set: &Categories) -> Categories
    ensures { result ≡ set.now % 2 ^ 256 }
{
    let mut again = Categories::none();
    for n in 0..NUMBERS {
        again = with_number(again, set, n as u8);
    }
    again
}

/// A set, with the number where another set has it.
fn with_number(again: Categories, set: &Categories, n: u8) -> Categories
    ensures { (m : ℕ) → is_member result m ≡ ((m == n && is_member set.now n) || is_member again m) }
{
    if set.has(n) { again.with(n) } else { again }
}
