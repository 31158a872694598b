//! The rule of a history's book, the steps that are taken at it, and its name.

use crate::events::{Accepted, Event};
use logbook::{Gain, Plain, Play, Rule};
use std::marker::Brand;

/// The rule of the book.
pub struct Law;

impl Rule<Event, u64> for Law {
    ghost use Rattle.std.specs.Prelude.{[]};
    ghost use base.Fml.{ftrue};
    ghost use Rattle.command_history.specs.Rules.{IsKept};

    ghost holds = { λ cells log. IsKept cells log };

    ghost first = { [] };

    ghost hinted = { λ n log. Unit {0} };

    ghost shows = { λ log. [] };

    ghost keeps = { λ names log. ftrue };

    ghost moves = { λ ask before after answer. Unit {0} };
}

/// Callers trade nothing.
pub struct Nothing;

impl Gain<Event, u64> for Nothing {
    ghost use base.Fml.{ftrue};

    ghost after = { λ names about answer. ftrue };
}

/// A step that takes the right to an event.
pub struct Take;

impl Play<Event, u64> for Take {
    ghost use Rattle.command_history.specs.Rules.{Takes};

    ghost then = { Takes };
}

/// A step that adds an event.
pub struct Add;

impl Play<Event, u64> for Add {
    ghost use Rattle.command_history.specs.Rules.{Adds};

    ghost then = { Adds };
}

/// A step that adds nothing.
pub struct Stay;

impl Play<Event, u64> for Stay {
    ghost use Rattle.command_history.specs.Rules.{Stays};

    ghost then = { Stays };
}

/// An entry, as what a step asks for.
impl Plain<Accepted, Event, u64> for Add {
    ghost use Rattle.std.specs.Prelude.{None};
    ghost use Rattle.command_history.specs.declared.events.Event.TheVariants.{Added};

    ghost ask = { λ entry. Added entry };

    ghost state = { λ entry. None };
}

/// The final mark, as what a step asks for. A step that adds nothing may ask for anything.
pub struct End;

impl Plain<Option<Accepted>, Event, u64> for End {
    ghost use Rattle.std.specs.Prelude.{None};
    ghost use Rattle.command_history.specs.declared.events.Event.TheVariants.{Ended};

    ghost ask = { λ doubt. Ended doubt };

    ghost state = { λ doubt. None };
}

/// Which history it is. Whatever belongs together has one parameter of this kind, and who opens a history picks it.
pub trait Naming {
    ghost use Rattle.std.specs.Prelude.{ℕ, Option};
    ghost use Rattle.logbook.specs.Pages.{Book};
    ghost use Rattle.racf_outside.specs.Disk.{History};
    ghost use Rattle.desk_rules.specs.Durable.{IdleDisk};
    ghost use Rattle.desk_rules.specs.Position.{Position};

    // The book of the history.
    ghost book: { Book };
    // Where the history begins.
    ghost base: { Position };
    // How many faults of the disk of its desk that counts had been counted there, and how many of the other.
    ghost faults: { ℕ };

    ghost idle_faults: { ℕ };
    // What the disk that counts told there, and what is told of the other.
    ghost live_disk: { Option History };

    ghost idle_disk: { IdleDisk };
}

impl Naming for Brand {
    ghost use Rattle.std.specs.Prelude.{None};
    ghost use Rattle.checkpoint_disks.specs.declared.counting.Side.TheVariants.{First};
    ghost use Rattle.desk_rules.specs.Position.{first_position};

    ghost book = { record { number = 0; log_name = 0; cells_name = 0 } };

    ghost base = { first_position };

    ghost faults = { 0 };

    ghost idle_faults = { 0 };

    ghost live_disk = { None };

    ghost idle_disk = { record { side = First; told = None } };
}
