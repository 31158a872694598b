//! The word that all who add to a history share.
ghost use Rattle.std.specs.Prelude.{◌≡◌, ◌<◌, ◌^◌, [], length, IfSome, true};
ghost use Rattle.command_history.specs.Events.{ends_last, Extends};
ghost use Rattle.command_history.specs.Rules.{head_of};

use crate::events::{Accepted, Event};
use crate::front::Front;
use crate::rule::{End, Law, Naming, Nothing, Stay, Take};
use crate::turn::Turn;
use logbook::{Offer, Seen, Start, Word};
use std::marker::{Model, PhantomData};

/// A history without events, which has no name yet. Contracts see it as its book, by which a name is picked for it.
pub struct Opened {
    /// The number of words.
    head: Word<Event, u64, Law>,
    /// That nothing has happened yet.
    seen: Seen<Event, u64, Law>,
}

impl Model for Opened {
    ghost use Rattle.std.specs.Prelude.{◌≡◌, []};
    ghost use Rattle.logbook.specs.Pages.{Book};
    ghost use Rattle.command_history.specs.Rules.{head_of};

    ghost Value = { Book };

    ghost view = { λ o. o.seen.book };

    ghost invariant = { λ o. (o.seen.log ≡ []) × (o.head ≡ head_of o.seen.book) };
}

impl Opened {
    /// A new history, of which nobody knows yet.
    pub fn new() -> Opened {
        let (seen, mut first, _second) = Seen::open(Start::alone(), 2, 0);
        Opened {
            head: Word::tracked(2, &mut first),
            seen,
        }
    }

    /// The history under a name that was picked for it, and the front that has no event.
    pub fn named<J: Naming>(self) -> (Book<J>, Front<J>)
        requires { self ≡ J.book }
        ensures { result.1 ≡ [] }
    {
        let Opened { head, seen } = self;
        (
            Book {
                head,
                of: PhantomData,
            },
            Front {
                count: 0,
                seen,
                of: PhantomData,
            },
        )
    }
}

/// The word that all who add to a history share.
#[derive(Drop)]
pub struct Book<J: Naming> {
    /// The number of words: two more than the turns that were taken.
    pub(crate) head: Word<Event, u64, Law>,
    /// Which history it is.
    of: PhantomData<J>,
    pub ghost head_is: { head ≡ head_of J.book },
}

impl<J: Naming> Book<J> {
    /// The right to the event of this place, if it is the next that nobody has.
    pub fn turn(&self, front: &Front<J>, place: u64) -> Option<Turn<J>>
        requires room { place < 2 ^ 63 }
        ensures { IfSome result (λ turn. turn ≡ place) }
    {
        let mut seen = front.seen.again();
        let mut offer: Offer<Event, u64, Law, Nothing> = seen.plain::<
            Nothing,
            Option<Accepted>,
            End,
        >(&None);
        let mut pen = seen.no_pen();
        let found = self
            .head
            .compare_exchange::<Take, Nothing>(
                place + 2,
                place + 3,
                &mut seen,
                &mut offer,
                &mut pen,
            );
        if found != place + 2 {
            return None;
        }
        let _word: Word<Event, u64, Law> = Word::tracked(0, &mut pen);
        Some(Turn {
            pen,
            of: PhantomData,
        })
    }

    /// Who has the right to the next event has seen all: what anybody has seen is no more.
    pub fn covers(&self, turn: &mut Turn<J>, mine: &Front<J>, other: &Front<J>)
        requires next { turn.old ≡ length mine.now }
        ensures turn { turn.new ≡ turn.old }
        ensures other { Extends other.now mine.now }
    {
        let mut both = mine.seen.again();
        both.learn(&other.seen);
        let mut offer: Offer<Event, u64, Law, Nothing> = both.plain::<
            Nothing,
            Option<Accepted>,
            End,
        >(&None);
        let _found = self
            .head
            .compare_exchange::<Stay, Nothing>(0, 0, &mut both, &mut offer, &mut turn.pen);
    }
}
