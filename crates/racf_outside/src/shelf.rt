//! The shelf: named inputs and outputs.

ghost use Rattle.std.specs.Prelude.{ℕ, ◌≡◌, Bool, true, List, [], Option, Result, IfOk, OnOk, OnErr};
ghost use Rattle.racf_outside.specs.Causes.{HasCause, TakesOver};
ghost use Rattle.racf_outside.specs.Shelf.{told, SameBytes, SameOthers, SameOpen, Opens, Closes};
ghost use Rattle.racf_outside.specs.declared.streams.Failed.{Failed};

use crate::streams::{Failed, Sink, Source};

/// Opens named inputs and new, empty outputs, and takes both back. Its meaning is the bytes of each named input and,
/// for each name that was given back, the bytes of that output, where the shelf tells them. It has two counts of
/// faults: one for `source` and the sources that it takes back, one for `sink` and the sinks that it is given back.
///
/// Each call has a member that says that it was made, with what it was given, its answer, and the shelf before and
/// behind it: a function over any shelf can say by these which calls it makes, in which order.
pub trait Shelf {
    type In: Source;

    type Out: Sink;

    /// Whether it tells the bytes of its outputs.
    ghost tells: { Bool };

    /// The bytes of the input of a name; `None` claims nothing.
    ghost input: { Self → List ℕ → Option (List ℕ) };

    /// The bytes of the output that was given back under a name; `None` claims nothing.
    ghost output: { Self → List ℕ → Option (List ℕ) };

    /// The output of a name was opened and isn't given back yet.
    ghost is_open: { Self → List ℕ → Bool };

    ghost source_faults: { Self → ℕ };

    ghost sink_faults: { Self → ℕ };

    /// `source` was called of a shelf with this name, answered this, and left that shelf.
    ghost source_gives: { Self → List ℕ → Result Self.In Failed → Self → Type 0 };

    /// `sink` was called.
    ghost sink_gives: { Self → List ℕ → Result Self.Out Failed → Self → Type 0 };

    /// `give_back` was called of a shelf with this name and this output, and left that shelf.
    ghost give_back_gives: { Self → List ℕ → Self.Out → Self → Type 0 };

    /// `take_back` was called.
    ghost take_back_gives: { Self → List ℕ → Self.In → Self → Type 0 };

    /// Opens the input of this name.
    fn source(&mut self, name: &str) -> Result<Self::In, Failed>
        ensures bytes { IfOk result (λ source. Self.In.left source ≡ input self.old name.now) }
        ensures new { IfOk result (λ source. Self.In.faults source ≡ 0) }
        ensures cause { HasCause (source_faults self.old) (source_faults self.new) result }
        ensures sinks { sink_faults self.new ≡ sink_faults self.old }
        ensures inputs { SameBytes (input self.old) (input self.new) }
        ensures outputs { SameBytes (output self.old) (output self.new) }
        ensures open { SameOpen (is_open self.old) (is_open self.new) }
        ensures gives { source_gives self.old name.now result self.new };

    /// Opens a new, empty output of this name.
    fn sink(&mut self, name: &str) -> Result<Self::Out, Failed>
        ensures empty { IfOk result (λ sink. Self.Out.taken sink ≡ told tells []) }
        ensures new { IfOk result (λ sink. Self.Out.faults sink ≡ 0) }
        ensures cause { HasCause (sink_faults self.old) (sink_faults self.new) result }
        ensures sources { source_faults self.new ≡ source_faults self.old }
        ensures inputs { SameBytes (input self.old) (input self.new) }
        ensures outputs { SameOthers name.now (output self.old) (output self.new) }
        ensures open { OnOk result (Opens name.now (is_open self.old) (is_open self.new)) }
        ensures unopened { OnErr result (SameOpen (is_open self.old) (is_open self.new)) }
        ensures gives { sink_gives self.old name.now result self.new };

    /// Takes back an output that it opened under this name.
    fn give_back(&mut self, name: &str, out: Self::Out)
        requires { is_open self.old name.now ≡ true }
        ensures bytes { output self.new name.now ≡ Self.Out.taken out }
        ensures sinks { TakesOver (Self.Out.faults out) (sink_faults self.old) (sink_faults self.new) }
        ensures sources { source_faults self.new ≡ source_faults self.old }
        ensures inputs { SameBytes (input self.old) (input self.new) }
        ensures outputs { SameOthers name.now (output self.old) (output self.new) }
        ensures closed { Closes name.now (is_open self.old) (is_open self.new) }
        ensures gives { give_back_gives self.old name.now out self.new };

    /// Takes back a source that it opened under this name.
    fn take_back(&mut self, name: &str, source: Self::In)
        ensures sources { TakesOver (Self.In.faults source) (source_faults self.old) (source_faults self.new) }
        ensures sinks { sink_faults self.new ≡ sink_faults self.old }
        ensures inputs { SameBytes (input self.old) (input self.new) }
        ensures outputs { SameBytes (output self.old) (output self.new) }
        ensures open { SameOpen (is_open self.old) (is_open self.new) }
        ensures gives { take_back_gives self.old name.now source self.new };
}
