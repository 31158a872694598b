//! What is made ready before a command is committed.
ghost use Rattle.std.specs.Prelude.{◌≡◌, ◌+◌, ◌++◌, ◌∷◌, ◌<◌, [], Some, None, false, IfOk, OnOk, OnErr, vec_len, vec_capacity};
ghost use Rattle.desk_rules.specs.Made.{installed, made_in};
ghost use Rattle.command_history.specs.declared.events.Event.TheVariants.{Added};
ghost use Rattle.command_history.specs.Events.{entries_of, is_ended};
ghost use Rattle.command_history.specs.Reached.{reached, AreLegal};
ghost use Rattle.racroute.specs.Kept.{IsMade, IsMadeEntry};

use access_levels::Text;
use command_history::laws::what_a_desk_makes_goes_on;
use command_history::{Accepted, Naming};
use left_right::Absorb;
use racf_desk::Ready;
use racf_profiles::NoMemory;
use raclist_snapshots::{Note, Opens, Publisher};
use std::alloc::Global;
use std::sync::{Arc, Wait};

/// The entry of what the desk made.
fn entry_of(alloc: Global, deck: u32, ready: &Ready) -> Result<Accepted, NoMemory>
    ensures entry { IfOk result (IsMadeEntry deck ready.now) }
{
    Ok(Accepted {
        deck,
        issuer: ready.issuer,
        text: Text::of(alloc, ready.text.bytes())?,
    })
}

/// Takes all memory that stands between a command and its place in the history: for its entry, for the entry's place
/// among the accepted ones, and for what the publisher holds. Where this is refused, nothing has changed that counts.
pub(crate) fn hold<J: Naming, T: Absorb<O> + Drop, O: Opens<Note<J>>, R: Wait + Drop>(
    alloc: Global,
    publisher: &mut Publisher<J, T, O, R>,
    history: &mut Vec<Accepted>,
    deck: u32,
    ready: &Ready,
) -> Result<Accepted, NoMemory>
    requires free { publisher.old.held ≡ None }
    requires goes_on { is_ended publisher.old.events ≡ false }
    requires made { IsMade J.base publisher.old.events ready.now }
    ensures entry { IfOk result (IsMadeEntry deck ready.now) }
    ensures legal { IfOk result (λ entry. AreLegal J.base (entries_of (publisher.old.events ++ Added entry ∷ []))) }
    ensures leads { IfOk result (λ entry. reached J.base (publisher.old.events ++ Added entry ∷ []) ≡ installed (reached J.base publisher.old.events) (made_in ready.now)) }
    ensures held { IfOk result (λ entry. publisher.new ≡ record publisher.old { held = Some entry; told = false }) }
    ensures same { OnErr result (publisher.new ≡ publisher.old) }
    ensures items { history.new.items ≡ history.old.items }
    ensures room { OnOk result (vec_len history.new < vec_capacity history.new) }
{
    what_a_desk_makes_goes_on();
    publisher.is_legal();
    let entry = entry_of(alloc, deck, ready)?;
    let image = Arc::try_clone(&ready.image)?;
    history.reserve(1)?;
    publisher.hold(alloc, image, &entry)?;
    Ok(entry)
}
