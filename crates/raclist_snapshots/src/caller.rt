//! Who asks: what it has seen, and where it looks for more.
ghost use Rattle.std.specs.Prelude.{◌≡◌, ◌⊎◌, ◌+◌, ◌%◌, ◌^◌};
ghost use Rattle.command_history.specs.Events.{Extends};
ghost use Rattle.command_history.specs.Reached.{reached};

use crate::note::Note;
use crate::shown::Shown;
use command_history::Naming;
use left_right::ReadHandle;
use raclist_image::Image;
use std::marker::Model;

/// A caller, which reads the newest image that it knows of and waits for nobody. Contracts see it as the history that
/// it has seen, and the count of the notes that it has learned.
#[derive(Drop)]
pub struct Caller<J: Naming> {
    /// Where it looks.
    reader: ReadHandle<Shown<Note<J>>>,
    /// What it has seen.
    note: Note<J>,
    /// How many notes it has learned, modulo 2^64.
    learned: u64,
}

impl<J: Naming> Model for Caller<J> {
    ghost use Rattle.raclist_snapshots.specs.Publishing.{Seeing};

    ghost Value = { Seeing };

    ghost view = { λ c. record { events = c.note; learned = c.learned } };
}

impl<J: Naming> Caller<J> {
    /// A caller that has seen this, and no note.
    pub(crate) fn new(reader: ReadHandle<Shown<Note<J>>>, note: Note<J>) -> Caller<J>
        ensures { result ≡ record { events = note; learned = 0 } }
    {
        Caller {
            reader,
            note,
            learned: 0,
        }
    }

    /// Looks for what was published since, and keeps it: no later call goes back behind it. What the caller looked at
    /// is left before this returns, so that no publish waits for a caller between two calls.
    pub fn enter(&mut self)
        ensures later { Extends self.old.events self.new.events }
        ensures learned { self.new.learned ≡ self.old.learned }
    {
        let known = self.note.image().generation();
        if let Some(found) = newer(&mut self.reader, known) {
            self.note.learn(found);
        }
    }

    /// Takes a note, if it stands on more than was seen.
    pub fn learn(&mut self, note: Note<J>)
        ensures one { (self.new.events ≡ self.old.events) ⊎ (self.new.events ≡ note) }
        ensures later { Extends self.old.events self.new.events }
        ensures told { Extends note self.new.events }
        ensures learned { self.new.learned ≡ (self.old.learned + 1) % 2 ^ 64 }
    {
        self.note.learn(note);
        self.learned = self.learned.wrapping_add(1);
    }

    /// The state behind what was seen.
    pub fn image(&self) -> &Image
        ensures { result.now ≡ (reached J.base self.now.events).image }
    {
        self.note.image()
    }

    /// The number of that state: how many commands were accepted before it.
    pub fn generation(&self) -> u64
        ensures { result ≡ (reached J.base self.now.events).image.generation }
    {
        self.note.image().generation()
    }

    /// What was seen.
    pub(crate) fn note(&self) -> &Note<J>
        ensures { result.now ≡ self.now.events }
    {
        &self.note
    }
}

/// A copy of the note that is published, if its number is higher than the one that is known. Else nothing is touched
/// but what is the reader's own.
fn newer<J: Naming>(reader: &mut ReadHandle<Shown<Note<J>>>, known: u64) -> Option<Note<J>> {
    let shown = reader.enter()?;
    if shown.number <= known {
        return None;
    }
    shown.slot.as_ref()?.get()?.again().ok()
}
