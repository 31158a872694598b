//! The right to the next event.

use crate::rule::Naming;
use logbook::Pen;
use std::marker::{Model, PhantomData};

/// The right to add the event of one place, of which there is one for each place. Contracts see it as the place.
#[derive(Drop)]
pub struct Turn<J: Naming> {
    /// The right to bring the word of that event home.
    pub(crate) pen: Pen,
    /// Which history it is.
    pub(crate) of: PhantomData<J>,
}

impl<J: Naming> Model for Turn<J> {
    ghost use Rattle.std.specs.Prelude.{◌≡◌, ◌≤◌, ◌-◌, ℕ};
    ghost use Rattle.logbook.specs.Pages.{may_write};

    ghost Value = { ℕ };

    ghost view = { λ t. t.pen.nib.key - 2 };

    ghost invariant = { λ t. (t.pen.book ≡ J.book) × (t.pen.nib.right ≡ may_write) × (2 ≤ t.pen.nib.key) };
}
