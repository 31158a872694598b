//! Two images, compared by each call that reads an image.
ghost use Rattle.std.specs.Prelude.{◌<◌, length};

use crate::equal::{is_same_facts, is_same_options, is_same_user_of};
use access_levels::Id;
use decision::Request;
use raclist_image::{ClassImage, Facts, Image};

/// What two images are asked for by name.
#[derive(Drop)]
pub(crate) struct Asked {
    /// The users, groups and classes; and what may be in scope of what.
    pub(crate) ids: Vec<Id>,
    /// The resources, each with its class.
    pub(crate) resources: Vec<Request>,
}

/// What two images answer differently.
#[derive(Clone, Copy)]
pub(crate) enum Difference<'a> {
    /// The number, the options or the number of users.
    Whole,
    /// The user at this place.
    Place(usize),
    /// The user or the group of that name, the class of that name, or what is in scope of that group.
    Name(&'a Id),
    /// The profile that decides on this resource.
    Cover(&'a Request),
}

/// The first answer in which two images differ, if they do.
pub(crate) fn first_difference<'a>(
    one: &Image,
    other: &Image,
    asked: &'a Asked,
) -> Option<Difference<'a>> {
    if !is_same_whole(one, other) {
        return Some(Difference::Whole);
    }
    if let Some(place) = differing_place(one, other) {
        return Some(Difference::Place(place));
    }
    if let Some(id) = differing_name(one, other, asked.ids.as_slice()) {
        return Some(Difference::Name(id));
    }
    match differing_cover(one, other, asked.resources.as_slice()) {
        Some(resource) => Some(Difference::Cover(resource)),
        None => None,
    }
}

/// Whether the numbers, the options and the numbers of users are the same.
fn is_same_whole(one: &Image, other: &Image) -> bool {
    one.generation() == other.generation()
        && is_same_options(one.options(), other.options())
        && one.user_count() == other.user_count()
}

/// The first place at which the users differ. Where one image has fewer users, its places alone are asked.
fn differing_place(one: &Image, other: &Image) -> Option<usize> {
    for place in 0..one.user_count().min(other.user_count()) {
        if !is_same_user_of(Some(one.user_at(place)), Some(other.user_at(place))) {
            return Some(place);
        }
    }
    None
}

/// The first ID to which the images answer differently.
fn differing_name<'a>(one: &Image, other: &Image, ids: &'a [Id]) -> Option<&'a Id> {
    for id in ids {
        let same = is_same_user_of(one.user(*id), other.user(*id))
            && one.group(*id) == other.group(*id)
            && is_same_class(one, other, *id)
            && is_same_scope(one, other, *id, ids);
        if !same {
            return Some(id);
        }
    }
    None
}

/// Whether the same is in scope of the group `top`. Where neither image has the group nothing is asked.
fn is_same_scope(one: &Image, other: &Image, top: Id, owners: &[Id]) -> bool {
    if one.group(top).is_none() && other.group(top).is_none() {
        return true;
    }
    for owner in owners {
        if one.in_scope(top, *owner) != other.in_scope(top, *owner) {
            return false;
        }
    }
    true
}

/// Whether the classes of that name have the same flags and the same profiles.
fn is_same_class(one: &Image, other: &Image, class: Id) -> bool {
    one.class_flags(class) == other.class_flags(class)
        && match (one.effective(class), other.effective(class)) {
            (Some(one), Some(other)) => has_same_profiles(one, other),
            (None, None) => true,
            _ => false,
        }
}

/// Whether two classes have the same profiles, place by place.
fn has_same_profiles(one: &ClassImage, other: &ClassImage) -> bool {
    let count = one.len();
    if other.len() != count {
        return false;
    }
    for place in 0..count {
        if !is_same_profile(one, other, place) {
            return false;
        }
    }
    true
}

/// Whether the profiles at that place have the same name, and the same that a decision reads.
fn is_same_profile(one: &ClassImage, other: &ClassImage, place: usize) -> bool
    requires one { place < length one.now.profiles }
    requires other { place < length other.now.profiles }
{
    let name = one.name(place);
    let other_name = other.name(place);
    name.text() == other_name.text() && is_same_facts(&one.facts(place), &other.facts(place))
}

/// The first resource on which another profile decides.
fn differing_cover<'a>(
    one: &Image,
    other: &Image,
    resources: &'a [Request],
) -> Option<&'a Request> {
    for resource in resources {
        if !is_same_cover(one, other, resource) {
            return Some(resource);
        }
    }
    None
}

/// Whether the profiles that decide on a resource have the same name, or none decides in both.
fn is_same_cover(one: &Image, other: &Image, resource: &Request) -> bool {
    match (facts_for(one, resource), facts_for(other, resource)) {
        (Some(one), Some(other)) => one.name.text() == other.name.text(),
        (None, None) => true,
        _ => false,
    }
}

/// What is read of the profile that decides on a resource.
fn facts_for<'a>(image: &'a Image, resource: &Request) -> Option<Facts<'a>> {
    image.effective(resource.class)?.find(&resource.name)
}
