//! What is told, kept and published: an image, with the history that it is the image of.
ghost use Rattle.std.specs.Prelude.{◌≡◌, ◌⊎◌, ◌+◌, ◌<◌, ◌^◌, ◌++◌, ◌∷◌, [], length, IfOk, MatchBool, true, false};
ghost use Rattle.std.specs.Arc.{arc_value};
ghost use Rattle.command_history.specs.declared.events.Event.TheVariants.{Added, Ended};
ghost use Rattle.command_history.specs.Events.{ends_last, is_ended, Extends};
ghost use Rattle.command_history.specs.Reached.{reached};

use command_history::{Accepted, Book, Front, Naming, Turn};
use racf_profiles::NoMemory;
use raclist_image::Image;
use std::alloc::Global;
use std::marker::Model;
use std::sync::Arc;

/// A note: that the history has reached some events, with the image of the state behind them. Contracts see it as the
/// events. Only a publisher makes one for others, and none can be copied by them.
#[derive(Drop)]
pub struct Note<J: Naming> {
    /// The state behind the events.
    image: Arc<Image, Global>,
    /// The events.
    front: Front<J>,
}

impl<J: Naming> Model for Note<J> {
    ghost use Rattle.std.specs.Prelude.{◌≡◌, List};
    ghost use Rattle.std.specs.Arc.{arc_value};
    ghost use Rattle.command_history.specs.declared.events.Event.{Event};
    ghost use Rattle.raclist_snapshots.specs.Kept.{image_at};

    ghost Value = { List Event };

    ghost view = { λ n. n.front };

    ghost invariant = { λ n. arc_value n.image ≡ image_at J.base n.front };
}

impl<J: Naming> Note<J> {
    /// The note of this front, with the image of the state behind it.
    pub(crate) fn of(image: Arc<Image, Global>, front: Front<J>) -> Note<J>
        requires { arc_value image ≡ (reached J.base front).image }
        ensures { result ≡ front }
    {
        Note { image, front }
    }

    /// The state behind the events.
    pub(crate) fn image(&self) -> &Image
        ensures { result.now ≡ (reached J.base self.now).image }
    {
        &self.image
    }

    /// One more owner of the image.
    pub(crate) fn shared(&self) -> Result<Arc<Image, Global>, NoMemory>
        ensures { IfOk result (λ image. arc_value image ≡ (reached J.base self.now).image) }
    {
        Arc::try_clone(&self.image)
    }

    /// The events.
    pub(crate) fn front(&self) -> &Front<J>
        ensures { result.now ≡ self.now }
    {
        &self.front
    }

    /// A copy, with this owner of the image.
    pub(crate) fn with(&self, image: Arc<Image, Global>) -> Note<J>
        requires { arc_value image ≡ (reached J.base self.now).image }
        ensures { result ≡ self.now }
    {
        Note {
            image,
            front: self.front.again(),
        }
    }

    /// A copy.
    pub(crate) fn again(&self) -> Result<Note<J>, NoMemory>
        ensures { IfOk result (λ note. note ≡ self.now) }
    {
        Ok(self.with(self.shared()?))
    }

    /// Whether the other stands on more events. Of two notes of one history one always extends the other.
    pub(crate) fn is_behind(&self, other: &Note<J>) -> bool
        ensures { MatchBool result (Extends self.now other.now) (Extends other.now self.now) }
    {
        self.front.is_behind(&other.front)
    }

    /// Who has the final mark has all: what the other stands on is a beginning of it.
    pub(crate) fn covers(&self, other: &Note<J>)
        requires { is_ended self.now ≡ true }
        ensures { Extends other.now self.now }
    {
        let _more = self.is_behind(other);
    }

    /// Takes another note's place, if that stands on more. It asks no file and takes no memory.
    pub(crate) fn learn(&mut self, other: Note<J>)
        ensures one { (self.new ≡ self.old) ⊎ (self.new ≡ other) }
        ensures this { Extends self.old self.new }
        ensures that { Extends other self.new }
    {
        if self.is_behind(&other) {
            *self = other;
        }
    }

    /// Adds an entry, which nobody else can do, with the image behind it.
    pub(crate) fn add(
        &mut self,
        book: &Book<J>,
        turn: Turn<J>,
        entry: &Accepted,
        image: Arc<Image, Global>,
    )
        requires turn { turn ≡ length self.old }
        requires room { length self.old < 2 ^ 63 }
        requires goes_on { is_ended self.old ≡ false }
        requires image { arc_value image ≡ (reached J.base (self.old ++ Added entry.now ∷ [])).image }
        ensures { self.new ≡ self.old ++ Added entry.now ∷ [] }
    {
        self.front.add(book, turn, entry);
        self.image = image;
    }

    /// Adds the final mark, which names this entry of a command that a disk failed. Nobody else can do it.
    #[tactic(auto, using(command_history::proofs::Leading::reached_ended))]
    pub(crate) fn end(&mut self, book: &Book<J>, turn: Turn<J>, doubt: &Option<Accepted>)
        requires turn { turn ≡ length self.old }
        requires room { length self.old < 2 ^ 63 }
        requires goes_on { is_ended self.old ≡ false }
        ensures { self.new ≡ self.old ++ Ended doubt.now ∷ [] }
    {
        self.front.end(book, turn, doubt);
    }
}
