//! A shelf in memory.

ghost use Rattle.std.specs.Prelude.{ℕ, ◌≡◌, ◌≢◌, true, None, Some, find, is_none, List, ◌∷◌, IfSome, IfOk, OnOk, OnErr};
ghost use Rattle.std.specs.Option.{option_copied};
ghost use Rattle.racf_outside.specs.Calls.{no_calls};
ghost use Rattle.racf_outside.specs.MemoryShelf.{OpensInput, OpensOutput, GivesBack, TakesBack};
ghost use Rattle.racf_outside.specs.Shelf.{SameOthers};
ghost use Rattle.racf_outside.specs.Slots.{output_of, is_lent};
ghost use Rattle.racf_outside.specs.Stored.{input_of, failing_of, is_stored_as};

use crate::calls::Calls;
use crate::memory::{MemorySink, MemorySource};
use crate::outputs::Outputs;
use crate::shelf::Shelf;
use crate::streams::Failed;
use std::alloc::{AllocError, Global};
use std::marker::Model;

/// Which calls of a shelf in memory are to fail, by their numbers from 1.
#[derive(Drop)]
pub struct Failing {
    /// Of the openings of sources.
    pub sources: Vec<u64>,
    /// Of the openings of sinks.
    pub sinks: Vec<u64>,
    /// Of the writes to each sink that is opened.
    pub writes: Vec<u64>,
}

/// An input: its name, its bytes, and which reads of them are to fail.
#[derive(Drop)]
pub(crate) struct Stored {
    /// The name that it was put under.
    pub(crate) name: String,
    /// Its bytes.
    pub(crate) bytes: Vec<u8>,
    /// The numbers, from 1, of the reads that are to fail.
    pub(crate) failing: Vec<u64>,
}

impl Stored {
    /// A source of its bytes. Takes the memory for them.
    fn open(&self, alloc: Global) -> Result<MemorySource, AllocError>
        ensures bytes { IfOk result (λ source. source.left ≡ self.now.bytes.items) }
        ensures calls { IfOk result (λ source. source.calls ≡ no_calls self.now.failing.items) }
    {
        let bytes = Vec::from_slice(alloc, &self.bytes)?;
        let failing = Vec::from_slice(alloc, &self.failing)?;
        Ok(MemorySource::new(bytes, failing))
    }
}

/// The inputs by their names. The newest of a name counts; they are searched one by one.
#[derive(Drop)]
pub(crate) struct Inputs {
    /// The newest first.
    pub(crate) stored: Vec<Stored>,
}

impl Inputs {
    /// Adds an input.
    fn put(&mut self, stored: Stored) -> Result<(), AllocError>
        ensures ok { OnOk result (self.new.stored.items ≡ stored ∷ self.old.stored.items) }
        ensures err { OnErr result (self.new.stored.items ≡ self.old.stored.items) }
    {
        self.stored.insert(0, stored)?;
        Ok(())
    }

    /// A source of the input of this name, where there is one. Takes the memory for its bytes.
    fn open(&self, alloc: Global, name: &str) -> Option<Result<MemorySource, AllocError>>
        ensures absent { is_none result ≡ is_none (input_of self.now name.now) }
        ensures bytes { IfSome result (λ opened. IfOk opened (λ source. Some source.left ≡ input_of self.now name.now)) }
        ensures calls { IfSome result (λ opened. IfOk opened (λ source. source.calls ≡ no_calls (failing_of self.now name.now))) }
    {
        match self.find(name) {
            Some(stored) => Some(stored.open(alloc)),
            None => None,
        }
    }

    /// The newest input of this name.
    fn find(&self, name: &str) -> Option<&Stored>
        ensures { option_copied result ≡ find (is_stored_as name.now) self.now.stored.items }
    {
        self.stored
            .iter()
            .find(|stored| stored.name.as_str() == name)
    }
}

/// A shelf whose inputs and outputs are kept in memory. A source or a sink that can't be opened, for want of memory
/// too, is a fault, and so is a source of a name that no input has.
#[derive(Drop)]
pub struct MemoryShelf {
    /// Where its memory is from.
    alloc: Global,
    /// What was put.
    inputs: Inputs,
    /// What was opened as an output, and given back.
    outputs: Outputs,
    /// Which writes to each output are to fail.
    failing_writes: Vec<u64>,
    /// The openings of inputs.
    sources: Calls,
    /// The openings of outputs.
    sinks: Calls,
}

impl Model for MemoryShelf {
    ghost use Rattle.racf_outside.specs.MemoryShelf.{ShelfInMemory};

    ghost Value = { ShelfInMemory };

    ghost view = { λ a. record {
      inputs = a.inputs;
      outputs = a.outputs;
      failing_writes = a.failing_writes.items;
      sources = a.sources;
      sinks = a.sinks;
    } };
}

impl MemoryShelf {
    /// A shelf with no input and no output, of whose calls these are to fail.
    pub fn new(alloc: Global, failing: Failing) -> MemoryShelf
        ensures inputs { (name : List ℕ) → ⟦<MemoryShelf as Shelf>⟧.input result name ≡ None }
        ensures outputs { (name : List ℕ) → ⟦<MemoryShelf as Shelf>⟧.output result name ≡ None }
        ensures sources { result.sources ≡ no_calls failing.sources.items }
        ensures sinks { result.sinks ≡ no_calls failing.sinks.items }
        ensures writes { result.failing_writes ≡ failing.writes.items }
    {
        let Failing {
            sources,
            sinks,
            writes,
        } = failing;
        MemoryShelf {
            alloc,
            inputs: Inputs {
                stored: Vec::new(alloc),
            },
            outputs: Outputs::new(alloc),
            failing_writes: writes,
            sources: Calls::new(sources),
            sinks: Calls::new(sinks),
        }
    }

    /// Adds an input of this name, in place of one of the same name. Of the reads of each source that is opened of it,
    /// those of the numbers `failing`, counted from 1, are to fail.
    pub fn put(&mut self, name: &str, bytes: Vec<u8>, failing: Vec<u64>) -> Result<(), AllocError>
        ensures here { OnOk result (⟦<MemoryShelf as Shelf>⟧.input self.new name.now ≡ Some bytes.items) }
        ensures others { SameOthers name.now
            (⟦<MemoryShelf as Shelf>⟧.input self.old) (⟦<MemoryShelf as Shelf>⟧.input self.new) }
        ensures failing { OnOk result (failing_of self.new.inputs name.now ≡ failing.items) }
        ensures other_reads { (other : List ℕ) → other ≢ name.now → failing_of self.new.inputs other ≡ failing_of self.old.inputs other }

        // Where memory is wanting, every input is as it was, and so are the reads that are to fail.
        ensures err { OnErr result (self.new.inputs.stored.items ≡ self.old.inputs.stored.items) }
        ensures outputs { self.new.outputs ≡ self.old.outputs }
        ensures failing_writes { self.new.failing_writes ≡ self.old.failing_writes }

        // It counts no opening and no fault.
        ensures sources { self.new.sources ≡ self.old.sources }
        ensures sinks { self.new.sinks ≡ self.old.sinks }
    {
        let name = String::from_str(self.alloc, name)?;
        self.inputs.put(Stored {
            name,
            bytes,
            failing,
        })
    }

    /// The bytes of the output that was given back under this name.
    pub fn output(&self, name: &str) -> Option<&[u8]>
        ensures { option_copied result ≡ ⟦<MemoryShelf as Shelf>⟧.output self.now name.now }
    {
        self.outputs.bytes(name)
    }
}

impl Shelf for MemoryShelf {
    type In = MemorySource;

    type Out = MemorySink;

    ghost tells = { true };

    ghost input = { λ shelf. input_of shelf.inputs };

    ghost output = { λ shelf. output_of shelf.outputs };

    ghost is_open = { λ shelf. is_lent shelf.outputs };

    ghost source_faults = { λ shelf. shelf.sources.faults };

    ghost sink_faults = { λ shelf. shelf.sinks.faults };

    ghost source_gives = { OpensInput };

    ghost sink_gives = { OpensOutput };

    ghost give_back_gives = { λ old _ _ new. GivesBack old new };

    ghost take_back_gives = { λ old _ _ new. TakesBack old new };

    fn source(&mut self, name: &str) -> Result<MemorySource, Failed> {
        self.sources.call()?;
        match self.inputs.open(self.alloc, name) {
            Some(Ok(source)) => Ok(source),
            Some(Err(AllocError)) => Err(self.sources.refusal()),
            None => Err(self.sources.fault()),
        }
    }

    fn sink(&mut self, name: &str) -> Result<MemorySink, Failed> {
        self.sinks.call()?;
        let Ok(failing) = Vec::from_slice(self.alloc, &self.failing_writes) else {
            return Err(self.sinks.refusal());
        };
        match self.outputs.lend(self.alloc, name) {
            Ok(()) => Ok(MemorySink::new(self.alloc, failing)),
            Err(AllocError) => Err(self.sinks.refusal()),
        }
    }

    fn give_back(&mut self, name: &str, out: MemorySink) {
        self.sinks.take_over(out.faults());
        self.outputs.give_back(name, Some(out.into_bytes()));
    }

    fn take_back(&mut self, _name: &str, source: MemorySource) {
        self.sources.take_over(source.faults());
    }
}
