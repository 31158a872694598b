//! Who publishes: the history's one writer.
ghost use Rattle.std.specs.Prelude.{◌≡◌, ◌+◌, ◌<◌, ◌^◌, ◌++◌, ◌∷◌, [], length, true, false, Some, None, IsOk, IfOk, OnOk, OnErr};
ghost use Rattle.std.specs.List.{All};
ghost use Rattle.std.specs.Arc.{arc_value};
ghost use Rattle.command_history.specs.declared.events.Event.TheVariants.{Added};
ghost use Rattle.command_history.specs.Events.{ends_last, entries_of, failed_of, is_ended, Extends};
ghost use Rattle.command_history.specs.Reached.{reached, AreLegal};
ghost use Rattle.raclist_snapshots.specs.Publishing.{ended_with, MarkIs};

use crate::caller::Caller;
use crate::held::Held;
use crate::note::Note;
use crate::shown::Opens;
use command_history::{Accepted, Book, Naming, Turn};
use left_right::{Absorb, WriteHandle};
use racf_profiles::NoMemory;
use raclist_image::Image;
use std::alloc::{AllocError, Global};
use std::marker::Model;
use std::sync::{Arc, Wait};

/// The publisher, of which a history has one. Contracts see it as the history that is published, the entry that is
/// held, and whether what was taken for the next note is used. It keeps the runtime, since a publish waits for the
/// entries under way, as its drop does. The two copies and their operation are parameters: a struct that holds the
/// writer names neither.
#[derive(Drop)]
pub struct Publisher<J: Naming, T: Absorb<O> + Drop, O: Opens<Note<J>>, R: Wait + Drop> {
    /// Where callers look.
    writer: WriteHandle<T, O, R>,
    /// Where turns are taken.
    book: Book<J>,
    /// What is published.
    note: Note<J>,
    /// The right to the next event, until the final mark is there.
    turn: Option<Turn<J>>,
    /// The right to the event behind it, while something is held.
    next: Option<Turn<J>>,
    /// An owner of the image, for the next note.
    spare: Option<Arc<Image, Global>>,
    /// What is published next.
    held: Option<Held<J>>,
}

impl<J: Naming, T: Absorb<O> + Drop, O: Opens<Note<J>>, R: Wait + Drop> Model
    for Publisher<J, T, O, R> {
    ghost use Rattle.std.specs.Option.{option_map, is_none};
    ghost use Rattle.std.specs.Arc.{arc_value};
    ghost use Rattle.raclist_snapshots.specs.Publishing.{Publishing};
    ghost use Rattle.raclist_snapshots.specs.Kept.{IsPublishing};

    ghost Value = { Publishing };

    ghost view = { λ p. record { events = p.note; held = option_map (λ h. h.entry) p.held; told = is_none p.spare } };

    ghost invariant = { λ p. IsPublishing J.base p.note p.turn p.next (option_map (λ s. arc_value s) p.spare) p.held };
}

impl<J: Naming, T: Absorb<O> + Drop, O: Opens<Note<J>>, R: Wait + Drop> Publisher<J, T, O, R> {
    /// The publisher of a history that nothing has happened in.
    pub(crate) fn new(
        writer: WriteHandle<T, O, R>,
        book: Book<J>,
        note: Note<J>,
        turn: Turn<J>,
        spare: Arc<Image, Global>,
    ) -> Publisher<J, T, O, R>
        requires note { note ≡ [] }
        requires turn { turn ≡ 0 }
        requires spare { arc_value spare ≡ (reached J.base []).image }
        ensures { result ≡ record { events = []; held = None; told = false } }
    {
        Publisher {
            writer,
            book,
            note,
            turn: Some(turn),
            next: None,
            spare: Some(spare),
            held: None,
        }
    }

    /// Takes all memory that publishing an entry takes, and that of the next note, whether it comes before the publish
    /// or behind it. The entry is legal behind those that are published, and the image is that of the state it leads
    /// to. Where this is refused, nothing has changed.
    pub fn hold(
        &mut self,
        alloc: Global,
        image: Arc<Image, Global>,
        entry: &Accepted,
    ) -> Result<(), NoMemory>
        requires free { self.old.held ≡ None }
        requires goes_on { is_ended self.old.events ≡ false }
        requires legal { AreLegal J.base (entries_of (self.old.events ++ Added entry.now ∷ [])) }
        requires image { arc_value image ≡ (reached J.base (self.old.events ++ Added entry.now ∷ [])).image }
        ensures held { OnOk result (self.new ≡ record self.old { held = Some entry.now; told = false }) }
        ensures same { OnErr result (self.new ≡ self.old) }
    {
        self.is_legal();
        let place = self.note.front().len() + 1;
        let owner = self.note.shared()?;
        let held = Held::new(alloc, image, entry)?;
        let fresh = O::open(held.number(), Some(held.slot()?));
        if self.writer.append(fresh).is_err() {
            return Err(AllocError);
        }
        // Nobody else asks for turns, and this place is asked for once: so this is never refused.
        let Some(next) = self.book.turn(self.note.front(), place) else {
            return Err(AllocError);
        };
        self.next = Some(next);
        self.spare = Some(owner);
        self.held = Some(held);
        Ok(())
    }

    /// Publishes what is held, once its command counts: callers that look from now on find it. It takes no memory and
    /// can't be refused. It waits for the entries that are under way.
    pub fn publish(&mut self, entry: &Accepted)
        requires held { self.old.held ≡ Some entry.now }
        ensures { self.new ≡ record { events = self.old.events ++ Added entry.now ∷ []; held = None; told = false } }
    {
        self.is_legal();
        let (Some(held), Some(turn)) = (self.held.take(), self.turn.take()) else {
            return;
        };
        let Held {
            entry: _,
            image,
            shown,
            spare,
            slot,
        } = held;
        self.turn = self.next.take();
        self.note.add(&self.book, turn, entry, image);
        let _ = slot.try_set(self.note.with(shown));
        self.spare = Some(spare);
        let _ = self.writer.publish();
    }

    /// A note of what is published. The first behind a `hold` or a `publish` is always made.
    pub fn tell(&mut self) -> Result<Note<J>, NoMemory>
        ensures note { IfOk result (λ note. note ≡ self.old.events) }
        ensures first { self.old.told ≡ false → IsOk result }
        ensures told { OnOk result (self.new ≡ record self.old { told = true }) }
        ensures same { OnErr result (self.new ≡ self.old) }
    {
        let image = match self.spare.take() {
            Some(image) => image,
            None => self.note.shared()?,
        };
        Ok(self.note.with(image))
    }

    /// A note of the whole history, with the final mark, which names the entry of the command that a disk failed.
    /// Behind it nothing is published, and what is held is let go. The first note behind a `hold` or a `publish` is
    /// always made.
    #[tactic(auto, using(crate::proofs::Marks::image_ended))]
    pub fn tell_final(&mut self, doubt: &Option<Accepted>) -> Result<Note<J>, NoMemory>
        requires mark { MarkIs doubt.now self.old.events }
        ensures note { IfOk result (λ note. note ≡ ended_with doubt.now self.old.events) }
        ensures first { self.old.told ≡ false → IsOk result }
        ensures ended { OnOk result (self.new ≡ record { events = ended_with doubt.now self.old.events; held = None; told = true }) }
        ensures same { OnErr result (self.new ≡ self.old) }
    {
        let image = match self.spare.take() {
            Some(image) => image,
            None => self.note.shared()?,
        };
        self.finish(doubt);
        Ok(self.note.with(image))
    }

    /// Puts the final mark behind the history, unless it is there: it names the entry of the command that a disk failed,
    /// where one did. Nothing is published behind it, and what is held is let go. It takes no memory and can't be
    /// refused.
    #[tactic(auto, using(crate::proofs::Marks::failed_ended, crate::proofs::Marks::ended_ends))]
    pub fn finish(&mut self, doubt: &Option<Accepted>)
        requires mark { MarkIs doubt.now self.old.events }
        ensures ended { self.new ≡ record self.old { events = ended_with doubt.now self.old.events; held = None } }
        ensures is_ended { is_ended self.new.events ≡ true }
        ensures mark { failed_of self.new.events ≡ doubt.now }
    {
        self.is_legal();
        self.held = None;
        if let Some(turn) = self.turn.take() {
            self.note.end(&self.book, turn, doubt);
        }
    }

    /// What a caller has seen is a beginning of what is published, and all of it where it has the final mark. This
    /// changes nothing.
    pub fn covers(&mut self, caller: &Caller<J>)
        ensures same { self.new ≡ self.old }
        ensures seen { Extends caller.now.events self.new.events }
    {
        match &mut self.turn {
            Some(turn) => self
                .book
                .covers(turn, self.note.front(), caller.note().front()),
            None => self.note.covers(caller.note()),
        }
    }

    /// Puts the final mark behind the history, as `finish`, and shows that no caller has seen anything else. It takes
    /// no memory.
    #[tactic(auto, using(crate::proofs::Marks::ended_ends))]
    pub fn settle(&mut self, doubt: &Option<Accepted>, callers: &[Caller<J>])
        requires mark { MarkIs doubt.now self.old.events }
        ensures ended { self.new ≡ record self.old { events = ended_with doubt.now self.old.events; held = None } }
        ensures callers { All (λ caller. Extends caller.events self.new.events) callers.now }
    {
        self.finish(doubt);
        cover_all(&self.note, callers);
    }

    /// The state behind what is published.
    pub fn image(&self) -> &Image
        ensures { result.now ≡ (reached J.base self.now.events).image }
    {
        self.note.image()
    }

    /// The number of that state: how many commands were accepted before it.
    pub fn generation(&self) -> u64
        ensures { result ≡ (reached J.base self.now.events).image.generation }
    {
        self.note.image().generation()
    }

    /// Whether the final mark is there.
    pub fn is_ended(&self) -> bool
        ensures { result ≡ is_ended self.now.events }
    {
        self.turn.is_none()
    }

    /// What is published is legal, nothing stands behind the final mark, and the events can be counted. This does
    /// nothing.
    #[tactic(auto, using(crate::proofs::Rooms::has_room))]
    pub fn is_legal(&self)
        ensures legal { AreLegal J.base (entries_of self.now.events) }
        ensures last { ends_last self.now.events ≡ true }
        ensures room { length self.now.events + 1 < 2 ^ 63 }
    {
        let _count = self.note.front().len();
    }
}

/// No caller has seen anything else than a history with its final mark.
fn cover_all<J: Naming>(note: &Note<J>, callers: &[Caller<J>])
    requires { is_ended note.now ≡ true }
    ensures { All (λ caller. Extends caller.events note.now) callers.now }
{
    for caller in callers {
        note.covers(caller.note());
    }
}
