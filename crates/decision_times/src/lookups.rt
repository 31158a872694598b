//! Look-ups in an image.

use crate::row_words::{id, request};
use access_levels::{Id, Level};
use anyhow::Result;
use decision::Request;
use raclist_image::Image;
use std::alloc::Global;

/// How often a user is found where each of these words is looked up so many times.
pub(crate) fn users(alloc: Global, image: &Image, times: u32, words: &str) -> Result<u32> {
    let users = ids(alloc, words)?;
    let mut found = 0u32;
    for _time in 0..times {
        found = found.wrapping_add(users_found(image, &users));
    }
    Ok(found)
}

/// How many of the users are found.
fn users_found(image: &Image, users: &[Id]) -> u32 {
    let mut found = 0u32;
    for user in users {
        found = found.wrapping_add(u32::from(image.user(*user).is_some()));
    }
    found
}

/// How often a class is found where each of these words is looked up so many times.
pub(crate) fn classes(alloc: Global, image: &Image, times: u32, words: &str) -> Result<u32> {
    let classes = ids(alloc, words)?;
    let mut found = 0u32;
    for _time in 0..times {
        found = found.wrapping_add(classes_found(image, &classes));
    }
    Ok(found)
}

/// How many of the classes are found.
fn classes_found(image: &Image, classes: &[Id]) -> u32 {
    let mut found = 0u32;
    for class in classes {
        found = found.wrapping_add(u32::from(image.class(*class).is_some()));
    }
    found
}

/// How often a profile is found where each name in the class, which is the first word, is looked up so many times.
pub(crate) fn profiles(alloc: Global, image: &Image, times: u32, words: &str) -> Result<u32> {
    let names = requests(alloc, words)?;
    let mut found = 0u32;
    for _time in 0..times {
        found = found.wrapping_add(profiles_found(image, &names));
    }
    Ok(found)
}

/// How many of the names a profile covers.
fn profiles_found(image: &Image, names: &[Request]) -> u32 {
    let mut found = 0u32;
    for name in names {
        found = found.wrapping_add(u32::from(has_profile(image, name)));
    }
    found
}

/// Whether a profile covers the name.
fn has_profile(image: &Image, name: &Request) -> bool {
    match image.effective(name.class) {
        Some(profiles) => profiles.find(&name.name).is_some(),
        None => false,
    }
}

/// The identifiers that the words spell.
fn ids(alloc: Global, words: &str) -> Result<Vec<Id>> {
    let mut ids = Vec::new(alloc);
    for word in words.split_whitespace() {
        ids.push(id(word)?)?;
    }
    Ok(ids)
}

/// Names in a class, which is the first word: requests to read them.
fn requests(alloc: Global, words: &str) -> Result<Vec<Request>> {
    let mut requests = Vec::new(alloc);
    let mut words = words.split_whitespace();
    let Some(class) = words.next() else {
        return Ok(requests);
    };
    let class = id(class)?;
    for name in words {
        requests.push(request(class, name, Level::Read)?)?;
    }
    Ok(requests)
}
