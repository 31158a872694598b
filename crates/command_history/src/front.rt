//! What somebody has seen of a history.
ghost use Rattle.std.specs.Prelude.{◌≡◌, ◌+◌, ◌<◌, ◌^◌, ◌++◌, ◌∷◌, [], length, MatchBool, None, true, false};
ghost use Rattle.command_history.specs.declared.events.Event.TheVariants.{Added, Ended};
ghost use Rattle.command_history.specs.Events.{ends_last, is_ended, Extends};

use crate::book::Book;
use crate::events::{Accepted, Event};
use crate::rule::{Add, End, Law, Naming, Nothing};
use crate::turn::Turn;
use logbook::{Offer, Plain, Seen};
use std::marker::{Model, PhantomData};

/// A front of a history: the history has reached these events. Contracts see it as them.
#[derive(Drop)]
pub struct Front<J: Naming> {
    /// How many events it has.
    pub(crate) count: u64,
    /// That they were seen.
    pub(crate) seen: Seen<Event, u64, Law>,
    /// Which history it is.
    pub(crate) of: PhantomData<J>,
}

impl<J: Naming> Model for Front<J> {
    ghost use Rattle.std.specs.Prelude.{◌≡◌, List, length, true};
    ghost use Rattle.command_history.specs.declared.events.Event.{Event};
    ghost use Rattle.command_history.specs.Events.{ends_last};

    ghost Value = { List Event };

    ghost view = { λ f. f.seen.log };

    ghost invariant = { λ f. (f.count ≡ length f.seen.log) × (f.seen.book ≡ J.book) × (ends_last f.seen.log ≡ true) };
}

impl<J: Naming> Front<J> {
    /// How many events it has.
    pub fn len(&self) -> u64
        ensures length { result ≡ length self.now }
        ensures last { ends_last self.now ≡ true }
    {
        self.count
    }

    /// A copy.
    pub fn again(&self) -> Front<J>
        ensures { result ≡ self.now }
    {
        Front {
            count: self.count,
            seen: self.seen.again(),
            of: PhantomData,
        }
    }

    /// Whether the other has more. Of two fronts of one history one always extends the other.
    pub fn is_behind(&self, other: &Front<J>) -> bool
        ensures { MatchBool result (Extends self.now other.now) (Extends other.now self.now) }
    {
        let mut both = self.seen.again();
        both.learn(&other.seen);
        self.count < other.count
    }

    /// Adds an entry, which nobody else can do.
    pub fn add(&mut self, book: &Book<J>, turn: Turn<J>, entry: &Accepted)
        requires turn { turn ≡ length self.old }
        requires room { length self.old < 2 ^ 63 }
        requires goes_on { is_ended self.old ≡ false }
        ensures { self.new ≡ self.old ++ Added entry.now ∷ [] }
    {
        self.put::<Accepted, Add>(book, turn, entry);
    }

    /// Adds the final mark, which names the entry of the command that a disk failed, where one did. Nobody else can do it.
    pub fn end(&mut self, book: &Book<J>, turn: Turn<J>, doubt: &Option<Accepted>)
        requires turn { turn ≡ length self.old }
        requires room { length self.old < 2 ^ 63 }
        requires goes_on { is_ended self.old ≡ false }
        ensures { self.new ≡ self.old ++ Ended doubt.now ∷ [] }
    {
        self.put::<Option<Accepted>, End>(book, turn, doubt);
    }

    /// Adds the event that is asked for so.
    fn put<X, M: Plain<X, Event, u64>>(&mut self, book: &Book<J>, turn: Turn<J>, about: &X)
        requires turn { turn ≡ length self.old }
        requires room { length self.old < 2 ^ 63 }
        requires goes_on { is_ended self.old ≡ false }
        requires waits { M.state about.now ≡ None }
        ensures { self.new ≡ self.old ++ M.ask about.now ∷ [] }
    {
        let mut offer: Offer<Event, u64, Law, Nothing> = self.seen.plain::<Nothing, X, M>(about);
        let Turn { mut pen, of: _ } = turn;
        let _found = book
            .head
            .compare_exchange::<Add, Nothing>(0, 0, &mut self.seen, &mut offer, &mut pen);
        self.count += 1;
    }
}
