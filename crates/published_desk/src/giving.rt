//! A command that is given, and published where it is accepted.
ghost use Rattle.std.specs.Prelude.{◌≡◌, Some, OnOk, OnErr, IfOk};
ghost use Rattle.desk_rules.specs.Made.{is_fresh};
ghost use Rattle.desk_rules.specs.Position.{first_position};
ghost use Rattle.command_history.specs.declared.events.Accepted.{Accepted};
ghost use Rattle.raclist_snapshots.specs.Publishing.{ended_with};
ghost use Rattle.published_desk.specs.Standing.{AreTogether, nothing_published};

use access_levels::Text;
use command_history::laws::what_a_desk_makes_goes_on;
use command_history::{Accepted, Naming};
use left_right::Absorb;
use racf_desk::{Desk, Ready};
use racf_outside::{Disk, NeverDisk, Two};
use racf_profiles::{NoMemory, ibmuser};
use raclist_snapshots::{Note, Opens, Publisher};
use std::alloc::{AllocError, Global};
use std::sync::{Arc, Wait};

/// What became of a command.
#[derive(Clone, Copy, PartialEq, Eq)]
pub enum Given {
    /// It was accepted and published.
    Published,
    /// It was refused, or memory was wanting, and nothing has changed.
    Refused,
}

/// A desk over a new database. It stands where a history begins that was just opened.
pub fn new_desk(alloc: Global) -> Result<Desk<NeverDisk>, NoMemory>
    ensures fresh { IfOk result (λ desk. desk ≡ is_fresh first_position desk.store) }
    ensures together { IfOk result (λ desk. AreTogether first_position desk nothing_published) }
{
    let nothing_is_kept = Two {
        first: NeverDisk,
        second: NeverDisk,
    };
    match Desk::format(alloc, nothing_is_kept) {
        Ok(desk) => Ok(desk),
        Err(_) => Err(AllocError),
    }
}

/// The entry of what a desk made.
fn entry_of(alloc: Global, ready: &Ready) -> Result<Accepted, NoMemory>
    ensures issuer { IfOk result (λ entry. entry.issuer ≡ ready.now.issuer) }
    ensures text { IfOk result (λ entry. entry.text ≡ ready.now.text) }
{
    Ok(Accepted {
        deck: 0,
        issuer: ready.issuer,
        text: Text::of(alloc, ready.text.bytes())?,
    })
}

/// Gives a command of IBMUSER's. At `Err` a disk failed, and the history has ended.
pub fn give<D: Disk, J: Naming, T: Absorb<O> + Drop, O: Opens<Note<J>>, R: Wait + Drop>(
    alloc: Global,
    desk: &mut Desk<D>,
    publisher: &mut Publisher<J, T, O, R>,
    text: &[u8],
) -> Result<Given, NoMemory>
    requires { AreTogether J.base desk.old publisher.old }
    // What was refused has changed nothing of how they stand, and what was accepted stands in both.
    ensures together { OnOk result (AreTogether J.base desk.new publisher.new) }

    // Where a disk failed the history ends as it was: its mark names the command, which is not in it, now or later.
    ensures ended { OnErr result ((entry : Accepted) × (publisher.new.events ≡ ended_with (Some entry) publisher.old.events)) }
{
    what_a_desk_makes_goes_on();
    publisher.is_legal();
    let ready = match desk.judge(alloc, ibmuser(), None, text) {
        Ok(ready) => ready,
        Err(_) => return Ok(Given::Refused),
    };
    let entry = match entry_of(alloc, &ready) {
        Ok(entry) => entry,
        Err(_) => return Ok(Given::Refused),
    };
    let image = match Arc::try_clone(&ready.image) {
        Ok(image) => image,
        Err(_) => return Ok(Given::Refused),
    };
    match publisher.hold(alloc, image, &entry) {
        Ok(()) => {}
        Err(_) => return Ok(Given::Refused),
    }
    match desk.commit(&ready) {
        Ok(()) => {}
        Err(_) => {
            let doubt = Some(entry);
            publisher.finish(&doubt);
            return Err(AllocError);
        }
    }
    publisher.publish(&entry);
    let _ = desk.install(ready);
    Ok(Given::Published)
}
