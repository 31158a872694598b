//! Commands, given to a database.

use anyhow::Result;
use command_rules::Conflict;
use followed_images::{Followed, Outcome};

/// Gives a command to the database, and prints why it is refused, if so.
pub(crate) fn give(
    rt: &(impl Print + AllocGlobal),
    database: &mut Followed,
    text: &str,
) -> Result<()> {
    match database.give(rt.alloc(), text.as_bytes())? {
        Outcome::Accepted => {}
        Outcome::Faulty(fault) => println!(rt; "refused {fault:?}: {text}")?,
        Outcome::Refused(conflict) => println!(rt; "refused {}", conflict_word(&conflict))?,
    }
    Ok(())
}

/// The word of a conflict.
fn conflict_word(conflict: &Conflict) -> &'static str {
    match conflict {
        Conflict::NoUser(_) => "NOUSER",
        Conflict::NoGroup(_) => "NOGROUP",
        Conflict::NoProfile(_, _) => "NOPROFILE",
        Conflict::NoClass(_) => "NOCLASS",
        Conflict::Exists(_) => "EXISTS",
        Conflict::NotConnected(_) => "NOTCONNECTED",
        Conflict::Root => "ROOT",
        Conflict::InUse(_) => "INUSE",
        Conflict::Cycle(_) => "CYCLE",
        Conflict::OwnerNotSuperior(_) => "OWNERNOTSUPERIOR",
        Conflict::NotGeneric(_) => "NOTGENERIC",
        Conflict::NotListed(_) => "NOTLISTED",
        Conflict::ClassFixed(_) => "CLASSFIXED",
        Conflict::DefaultGroup(_) => "DEFAULTGROUP",
        Conflict::LastSpecial(_) => "LASTSPECIAL",
        Conflict::UnknownName(_) => "UNKNOWNNAME",
        Conflict::Full(_, _) => "FULL",
        Conflict::NameNotAllowed(_) => "NAMENOTALLOWED",
    }
}
