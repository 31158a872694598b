//! The facts between fields, tested in the order of the fields that they are told of.
ghost use Rattle.std.specs.Prelude.{◌≡◌, ◌+◌, ◌<◌, ◌≤◌, ◌^◌, ◌&&◌, not, List, ℕ, Some, length, map, is_some, bytes_eq, None, IfOk, if◌then◌else◌};
ghost use Rattle.std.specs.List.{IsDistinct, list_any, sum_by};
ghost use Rattle.indexmap.specs.IndexMap.{get};
ghost use Rattle.racf_profiles.specs.declared.groups.Group.{Group};
ghost use Rattle.racf_profiles.specs.Limits.{most_groups};
ghost use Rattle.racf_profiles.specs.Lookup.{find_group, class_of, profile_of, is_class};
ghost use Rattle.racf_profiles.specs.Names.{is_connected_to, is_to, is_special_user};
ghost use Rattle.racf_profiles.specs.ClassTable.{fixed_class};
ghost use Rattle.racf_profiles.specs.DynamicClasses.{cdt, general, facts_in as facts_in_rows, is_fixed, is_short};
ghost use Rattle.racf_profiles.specs.LawfulProfiles.{is_profile_name};
ghost use Rattle.racf_profiles.specs.LawfulProfiles as lawful_names;
ghost use Rattle.racf_profiles.specs.LawfulUsers.{is_clauth_class};
ghost use Rattle.database_image.specs.Facts.{told_of_each, first_broken, group_width, class_id_width, connect_width, user_width, profile_width, class_width, group_facts, class_id_facts, connect_facts, user_facts, profile_facts, definition_facts, defines_class, name_facts, is_name_by, dynamic_facts, class_facts, is_superior_in, is_there, users_place, classes_place, later_facts, facts};
ghost use Rattle.database_image.specs.Ways.{IsIndexOf, AreReached};

use crate::cycles::cycles;
use crate::index::{index_of, is_there};
use crate::widths::{class_width, profile_width, user_width, users_width};
use access_levels::Id;
use generic_names::{Pattern, first_qualifier};
use indexmap::{IndexMap, IndexSet};
use racf_profiles::{
    ClassFacts, ClassRow, Connect, FixedClass, Group, NameForm, NoMemory, Profile, Rows, User,
    View, facts_in, general_name,
};
use std::alloc::Global;

/// The place of the first fact that doesn't hold.
pub fn first_broken(alloc: Global, rows: &Rows) -> Result<Option<usize>, NoMemory>
    requires distinct { IsDistinct bytes_eq (map (λ (group : Group). group.id) rows.now.groups) }
    requires few { length rows.now.groups ≤ most_groups }
    requires room { classes_place rows.now + sum_by class_width rows.now.classes < 2 ^ 64 }
    ensures { IfOk result (λ place. place ≡ first_broken (facts rows.now)) }
{
    let index = index_of(alloc, &rows.groups.items)?;
    let ends = cycles(alloc, &rows.groups.items, &index)?;
    Ok(first_with(rows, &index, &ends))
}

/// The place of the first, where this is the index of the groups, and those that lie below themselves.
fn first_with(rows: &Rows, index: &IndexMap<Id, Option<Id>>, ends: &IndexSet<Id>) -> Option<usize>
    requires distinct { IsDistinct bytes_eq (map (λ (group : Group). group.id) rows.now.groups) }
    requires few { length rows.now.groups ≤ most_groups }
    requires room { classes_place rows.now + sum_by class_width rows.now.classes < 2 ^ 64 }
    requires index { IsIndexOf rows.now.groups index.now }
    requires ends { AreReached (2 ^ 13) rows.now.groups ends.now }
    ensures { result ≡ first_broken (facts rows.now) }
{
    let groups = rows.groups.items.as_slice();
    let place = 7 + 8 * rows.options.categories.items.len();
    let broken = of_groups(rows, index, ends, groups, place);
    if broken.is_some() {
        return broken;
    }
    of_later(rows, index, place + 24 * groups.len())
}

/// The place of the first behind those of the groups, where that is the place of the users' count.
fn of_later(rows: &Rows, index: &IndexMap<Id, Option<Id>>, place: usize) -> Option<usize>
    requires place { place ≡ users_place rows.now }
    requires room { classes_place rows.now + sum_by class_width rows.now.classes < 2 ^ 64 }
    requires index { IsIndexOf rows.now.groups index.now }
    ensures { result ≡ first_broken (later_facts rows.now) }
{
    let users = rows.users.items.as_slice();
    let classes = rows.classes.items.as_slice();
    if !has_special_user(users) {
        return Some(place);
    }
    let broken = of_users(rows, index, users, place + 4);
    if broken.is_some() {
        return broken;
    }
    of_classes(rows, classes, place + 6 + users_width(users))
}

/// The place of the first of the groups' facts, from this place on.
fn of_groups(
    rows: &Rows,
    index: &IndexMap<Id, Option<Id>>,
    ends: &IndexSet<Id>,
    groups: &[Group],
    place: usize,
) -> Option<usize>
    requires whole { groups.now ≡ rows.now.groups }
    requires distinct { IsDistinct bytes_eq (map (λ (group : Group). group.id) groups.now) }
    requires few { length rows.now.groups ≤ most_groups }
    requires room { place + sum_by group_width groups.now < 2 ^ 64 }
    requires index { IsIndexOf rows.now.groups index.now }
    requires ends { AreReached (2 ^ 13) rows.now.groups ends.now }
    ensures { result ≡ first_broken (told_of_each group_width (group_facts rows.now) place groups.now) }
{
    let mut at = place;
    for group in groups {
        let broken = of_group(rows, index, ends, group, at);
        if broken.is_some() {
            return broken;
        }
        at += 24;
    }
    None
}

/// The place of the first of a group's facts.
fn of_group(
    rows: &Rows,
    index: &IndexMap<Id, Option<Id>>,
    ends: &IndexSet<Id>,
    group: &Group,
    place: usize,
) -> Option<usize>
    requires found { find_group rows.now.groups group.now.id ≡ Some group.now }
    requires few { length rows.now.groups ≤ most_groups }
    requires room { place + 24 < 2 ^ 64 }
    requires index { IsIndexOf rows.now.groups index.now }
    requires ends { AreReached (2 ^ 13) rows.now.groups ends.now }
    ensures { result ≡ first_broken (group_facts rows.now place group.now) }
{
    let _rows = rows;
    let superior = group.superior?;
    let there = is_there(index, superior);
    let below_itself = ends.contains(&group.id);
    unless(there, below_itself, place + 8)
}

/// The place, unless the superior group is there and the group isn't below itself.
fn unless(there: bool, below_itself: bool, place: usize) -> Option<usize>
    ensures { result ≡ (if there && not below_itself then None else Some place) }
{
    if there && !below_itself {
        None
    } else {
        Some(place)
    }
}

/// Whether some user who isn't revoked has SPECIAL.
fn has_special_user(users: &[User]) -> bool
    ensures { result ≡ list_any is_special_user users.now }
{
    users
        .iter()
        .any(|user| user.attributes.special && !user.attributes.revoked)
}

/// The place of the first of the users' facts, from this place on.
fn of_users(
    rows: &Rows,
    index: &IndexMap<Id, Option<Id>>,
    users: &[User],
    place: usize,
) -> Option<usize>
    requires room { place + sum_by user_width users.now < 2 ^ 64 }
    requires index { IsIndexOf rows.now.groups index.now }
    ensures { result ≡ first_broken (told_of_each user_width (user_facts rows.now) place users.now) }
{
    let mut at = place;
    for user in users {
        let broken = of_user(rows, index, user, at);
        if broken.is_some() {
            return broken;
        }
        at += user_width(user);
    }
    None
}

/// The place of the first of a user's facts.
fn of_user(
    rows: &Rows,
    index: &IndexMap<Id, Option<Id>>,
    user: &User,
    place: usize,
) -> Option<usize>
    requires room { place + user_width user.now < 2 ^ 64 }
    requires index { IsIndexOf rows.now.groups index.now }
    ensures { result ≡ first_broken (user_facts rows.now place user.now) }
{
    if is_there(index, user.id) {
        return Some(place);
    }
    if !has_default_group(index, user) {
        return Some(place + 8);
    }
    let classes = place + 68 + user.name.bytes().len();
    let broken = of_class_ids(rows, &user.classes.items, classes);
    if broken.is_some() {
        return broken;
    }
    let connects = classes + 2 + 8 * user.classes.items.len();
    of_connects(rows, index, &user.connects.items, connects)
}

/// Whether the default group is there, and the user is connected to it.
fn has_default_group(index: &IndexMap<Id, Option<Id>>, user: &User) -> bool
    ensures { result ≡ (is_some (get bytes_eq index.now user.now.default_group) && is_connected_to user.now.default_group user.now) }
{
    let there = is_there(index, user.default_group);
    there && is_connected(&user.connects.items, user.default_group)
}

/// Whether one of the connections is to the group.
fn is_connected(connects: &[Connect], group: Id) -> bool
    ensures { result ≡ list_any (is_to group) connects.now }
{
    connects.iter().any(|connect| connect.group == group)
}

/// The place of the first of these names, from this place on, that isn't one that CLAUTH takes.
fn of_class_ids(rows: &Rows, names: &[Id], place: usize) -> Option<usize>
    requires { place + sum_by class_id_width names.now < 2 ^ 64 }
    ensures { result ≡ first_broken (told_of_each class_id_width (class_id_facts rows.now) place names.now) }
{
    let mut at = place;
    for name in names {
        if !is_clauth_class(rows, *name) {
            return Some(at);
        }
        at += 8;
    }
    None
}

/// Whether CLAUTH takes the name.
fn is_clauth_class(rows: &Rows, name: Id) -> bool
    ensures { result ≡ is_clauth_class rows.now name }
{
    (name.text() == b"USER".as_slice() || has_class(rows, name.text()))
        && name.text() != b"DATASET".as_slice()
}

/// Whether there is a class of that name. There are no more than the table of the fixed classes has.
fn has_class(rows: &Rows, name: &[u8]) -> bool
    ensures { result ≡ is_some (class_of name.now rows.now) }
{
    is_among(&rows.classes.items, name)
}

/// Whether one of the classes has that name.
fn is_among(classes: &[ClassRow], name: &[u8]) -> bool
    ensures { result ≡ list_any (is_class name.now) classes.now }
{
    classes.iter().any(|class| class.name.text() == name)
}

/// The place of the first of these connections, from this place on, whose group isn't there.
fn of_connects(
    rows: &Rows,
    index: &IndexMap<Id, Option<Id>>,
    connects: &[Connect],
    place: usize,
) -> Option<usize>
    requires room { place + sum_by connect_width connects.now < 2 ^ 64 }
    requires index { IsIndexOf rows.now.groups index.now }
    ensures { result ≡ first_broken (told_of_each connect_width (connect_facts rows.now) place connects.now) }
{
    let _rows = rows;
    let mut at = place;
    for connect in connects {
        if !is_there(index, connect.group) {
            return Some(at);
        }
        at += 10;
    }
    None
}

/// The place of the first of the classes' facts, from this place on.
fn of_classes(rows: &Rows, classes: &[ClassRow], place: usize) -> Option<usize>
    requires { place + sum_by class_width classes.now < 2 ^ 64 }
    ensures { result ≡ first_broken (told_of_each class_width (class_facts rows.now) place classes.now) }
{
    let mut at = place;
    for class in classes {
        let broken = of_class(rows, class, at);
        if broken.is_some() {
            return broken;
        }
        at += class_width(class);
    }
    None
}

/// The place of the first of a class's facts: those of the profiles of GLOBAL and CDT, and those of a dynamic class.
fn of_class(rows: &Rows, class: &ClassRow, place: usize) -> Option<usize>
    requires { place + class_width class.now < 2 ^ 64 }
    ensures { result ≡ first_broken (class_facts rows.now place class.now) }
{
    let profiles = class.profiles.items.as_slice();
    if class.name.text() == b"GLOBAL".as_slice() {
        of_profiles(rows, profiles, place + 14)
    } else if class.name.text() == b"CDT".as_slice() {
        of_definitions(rows, profiles, place + 14)
    } else if is_fixed(class.name) {
        None
    } else {
        of_dynamic(rows, class, place)
    }
}

/// Whether the name is that of a fixed class.
fn is_fixed(name: Id) -> bool
    ensures { result ≡ is_fixed name }
{
    FixedClass::of(name).is_some()
}

/// The place of the first of these profiles of CDT, from this place on, whose name is no dynamic class's.
fn of_definitions(rows: &Rows, profiles: &[Profile], place: usize) -> Option<usize>
    requires { place + sum_by profile_width profiles.now < 2 ^ 64 }
    ensures { result ≡ first_broken (told_of_each profile_width (definition_facts rows.now) place profiles.now) }
{
    let mut at = place;
    for profile in profiles {
        if !defines_class(rows, profile.name.text()) {
            return Some(at + 2);
        }
        at += profile_width(profile);
    }
    None
}

/// Whether there is a dynamic class of that name.
fn defines_class(rows: &Rows, name: &[u8]) -> bool
    ensures { result ≡ defines_class rows.now name.now }
{
    !is_fixed_text(name) && has_class(rows, name)
}

/// Whether the text is the name of a fixed class.
fn is_fixed_text(name: &[u8]) -> bool
    ensures { result ≡ is_fixed name.now }
{
    fixed_class_of(name).is_some()
}

/// The fixed class whose name the text is.
fn fixed_class_of(name: &[u8]) -> Option<FixedClass>
    ensures { result ≡ fixed_class name.now }
{
    FixedClass::ALL
        .iter()
        .copied()
        .find(|class| class.name() == name)
}

/// The place of the first of a dynamic class's facts.
fn of_dynamic(rows: &Rows, class: &ClassRow, place: usize) -> Option<usize>
    requires { place + class_width class.now < 2 ^ 64 }
    ensures { result ≡ first_broken (dynamic_facts rows.now place class.now) }
{
    if is_defined(rows, class) {
        let facts = facts_of(rows, class);
        of_names(rows, facts, class.profiles.items.as_slice(), place + 14)
    } else {
        Some(place)
    }
}

/// Whether the class has its profile in CDT.
fn is_defined(rows: &Rows, class: &ClassRow) -> bool
    ensures { result ≡ is_some (profile_of cdt (general class.now.name) rows.now) }
{
    let name = Pattern::discrete(&general_name(class.name));
    rows.profile(FixedClass::Cdt.id(), &name).is_some()
}

/// What the class allows.
fn facts_of(rows: &Rows, class: &ClassRow) -> Option<ClassFacts>
    ensures { result ≡ facts_in_rows class.now.name rows.now }
{
    facts_in(rows, class.name)
}

/// The place of the first of these profiles of a class that allows this, from this place on, whose name it doesn't
/// allow.
fn of_names(
    rows: &Rows,
    facts: Option<ClassFacts>,
    profiles: &[Profile],
    place: usize,
) -> Option<usize>
    requires { place + sum_by profile_width profiles.now < 2 ^ 64 }
    ensures { result ≡ first_broken (told_of_each profile_width (name_facts rows.now facts) place profiles.now) }
{
    let mut at = place;
    for profile in profiles {
        if !is_name_by(rows, facts, &profile.name) {
            return Some(at + 2);
        }
        at += profile_width(profile);
    }
    None
}

/// Whether a class that allows this has the name.
fn is_name_by(rows: &Rows, facts: Option<ClassFacts>, name: &Pattern) -> bool
    ensures { result ≡ is_name_by rows.now facts name.now }
{
    match facts {
        Some(facts) => is_profile_name(rows, name, facts),
        None => false,
    }
}

/// Whether a profile of a class that allows this may have the name.
fn is_profile_name(rows: &Rows, name: &Pattern, facts: ClassFacts) -> bool
    ensures { result ≡ is_profile_name rows.now name.now facts }
{
    is_named_by(rows, facts.names, name.text())
        && is_short(facts, name.text())
        && (!name.is_generic() || facts.generic)
}

/// Whether a name has at most the bytes that its class allows.
fn is_short(facts: ClassFacts, text: &[u8]) -> bool
    ensures { result ≡ is_short facts text.now }
{
    match facts.longest {
        Some(longest) => text.len() <= usize::from(longest),
        None => true,
    }
}

/// Whether a text is a name of this form.
fn is_named_by(rows: &Rows, names: NameForm, text: &[u8]) -> bool
    ensures { result ≡ lawful_names.is_named_by names rows.now text.now }
{
    match names {
        NameForm::DataSet => Id::read(first_qualifier(text)).is_ok(),
        NameForm::General => true,
        NameForm::LevelOrCategory => text == b"SECLEVEL".as_slice()
            || text == b"CATEGORY".as_slice(),
        NameForm::Identifier => Id::read(text).is_ok(),
        NameForm::Class => has_class(rows, text),
    }
}

/// The place of the first of these profiles, from this place on, whose name is no class's.
fn of_profiles(rows: &Rows, profiles: &[Profile], place: usize) -> Option<usize>
    requires { place + sum_by profile_width profiles.now < 2 ^ 64 }
    ensures { result ≡ first_broken (told_of_each profile_width (profile_facts rows.now) place profiles.now) }
{
    let mut at = place;
    for profile in profiles {
        if !has_class(rows, profile.name.text()) {
            return Some(at + 2);
        }
        at += profile_width(profile);
    }
    None
}
