//! What an image has, printed.

use crate::row_words::{NOTHING, id, id_text, parted, request_to_read, text};
use anyhow::Result;
use raclist_image::{Facts, Image};

/// Prints the number of an image and of its users, the options, and the first and the last user.
pub(crate) fn print_image(rt: &impl Print, image: &Image) -> Result<()> {
    let options = image.options();
    let count = image.user_count();
    println!(rt;
        "image {} grplist={} protectall={} mls={} categories={} users={count} {}..{}",
        image.generation(),
        options.grplist,
        options.protectall,
        options.mls,
        options.categories.items.len(),
        user_text(image, 0),
        user_text(image, count.saturating_sub(1))
    )?;
    Ok(())
}

/// The name of the user at a place, if there is one.
fn user_text(image: &Image, place: usize) -> &str {
    if place < image.user_count() {
        text(image.user_at(place).id.text())
    } else {
        NOTHING
    }
}

/// Prints the user of that name.
pub(crate) fn print_user(rt: &impl Print, image: &Image, row: &str) -> Result<()> {
    let Some(user) = image.user(id(row)?) else {
        return print_none(rt);
    };
    println!(rt;
        "user {} default={} owner={} connections={}",
        text(user.id.text()),
        text(user.default_group.text()),
        text(user.owner.text()),
        user.connects.items.len()
    )?;
    Ok(())
}

/// Prints the group of that name.
pub(crate) fn print_group(rt: &impl Print, image: &Image, row: &str) -> Result<()> {
    let Some(group) = image.group(id(row)?) else {
        return print_none(rt);
    };
    println!(rt;
        "group {} superior={} owner={}",
        text(group.id.text()),
        id_text(&group.superior),
        text(group.owner.text())
    )?;
    Ok(())
}

/// Prints the flags of the class of that name, and how many profiles it has.
pub(crate) fn print_class(rt: &impl Print, image: &Image, row: &str) -> Result<()> {
    let class = id(row)?;
    let (Some(flags), Some(profiles)) = (image.class_flags(class), image.effective(class)) else {
        return print_none(rt);
    };
    println!(rt; "{flags:?} profiles={}", profiles.len())?;
    Ok(())
}

/// Prints the profile of a class that decides on a name.
pub(crate) fn print_profile(rt: &impl Print, image: &Image, row: &str) -> Result<()> {
    let request = request_to_read(row)?;
    let Some(profiles) = image.effective(request.class) else {
        return print_none(rt);
    };
    match profiles.find(&request.name) {
        Some(facts) => print_facts(rt, &facts),
        None => print_none(rt),
    }
}

/// Prints what a decision reads of a profile.
fn print_facts(rt: &impl Print, facts: &Facts<'_>) -> Result<()> {
    println!(rt;
        "profile {} owner={} uacc={} warning={} entries={} conditional={} level={} label={}",
        text(facts.name.text()),
        text(facts.owner.text()),
        text(facts.uacc.name()),
        facts.warning,
        facts.standard.len(),
        facts.conditional.len(),
        facts.level,
        id_text(&facts.label)
    )?;
    Ok(())
}

/// Prints whether a profile of that owner is in scope of the group.
pub(crate) fn print_scope(rt: &impl Print, image: &Image, row: &str) -> Result<()> {
    let (group, owner) = parted(row);
    println!(rt; "in scope: {}", image.in_scope(id(group)?, id(owner)?))?;
    Ok(())
}

/// Prints that the image has none.
fn print_none(rt: &impl Print) -> Result<()> {
    println!(rt; "none")?;
    Ok(())
}
