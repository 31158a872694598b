//! The outputs of a shelf: which are lent, and what was given back.

ghost use Rattle.std.specs.Prelude.{◌≡◌, true, false, [], Some, find, position, OnOk, OnErr};
ghost use Rattle.std.specs.Option.{option_copied, option_map};
ghost use Rattle.racf_outside.specs.Shelf.{SameOthers, Opens, Closes};
ghost use Rattle.racf_outside.specs.Slots.{is_named, told_of, output_of, is_lent};

use std::alloc::{AllocError, Global};
use std::marker::Model;

/// An output: its name, whether it is lent, and the bytes that were given back, where they are kept.
#[derive(Drop)]
struct Slot {
    /// The name that it was opened under.
    name: String,
    /// It is open, and not given back yet.
    lent: bool,
    /// What was given back, where it is kept.
    bytes: Option<Vec<u8>>,
}

impl Model for Slot {
    ghost use Rattle.std.specs.Prelude.{string_bytes};
    ghost use Rattle.std.specs.Option.{option_map};
    ghost use Rattle.racf_outside.specs.Slots.{KeptOutput};

    ghost Value = { KeptOutput };

    ghost view = { λ a. record {
      name = string_bytes a.name;
      lent = a.lent;
      bytes = option_map (λ bytes. bytes.items) a.bytes;
    } };
}

impl Slot {
    /// The bytes that were given back, where they are kept.
    fn told(&self) -> Option<&[u8]>
        ensures { option_copied result ≡ told_of (Some self.now) }
    {
        match &self.bytes {
            Some(bytes) if !self.lent => Some(bytes),
            _ => None,
        }
    }

    /// Takes it back.
    fn close(&mut self, bytes: Option<Vec<u8>>)
        ensures name { self.new.name ≡ self.old.name }
        ensures lent { self.new.lent ≡ false }
        ensures bytes { self.new.bytes ≡ option_map (λ kept. kept.items) bytes }
    {
        self.bytes = bytes;
        self.lent = false;
    }
}

/// The outputs of a shelf by their names: which are lent, and what was given back. The newest of a name counts; they
/// are searched one by one. A shelf lends an output here where its `sink` opens one, and takes it back where it is
/// given back; what is lent is then what is open.
#[derive(Drop)]
pub struct Outputs {
    /// The newest first.
    slots: Vec<Slot>,
}

impl Model for Outputs {
    ghost use Rattle.std.specs.Prelude.{List};
    ghost use Rattle.racf_outside.specs.Slots.{KeptOutput};

    ghost Value = { List KeptOutput };

    ghost view = { λ a. a.slots.items };
}

impl Outputs {
    /// No output.
    pub fn new(alloc: Global) -> Outputs
        ensures { result ≡ [] }
    {
        Outputs {
            slots: Vec::new(alloc),
        }
    }

    /// Lends a new output of this name.
    pub fn lend(&mut self, alloc: Global, name: &str) -> Result<(), AllocError>
        ensures opened { OnOk result (Opens name.now (is_lent self.old) (is_lent self.new)) }
        ensures others { OnOk result (SameOthers name.now (output_of self.old) (output_of self.new)) }
        ensures err { OnErr result (self.new ≡ self.old) }
    {
        let slot = Slot {
            name: String::from_str(alloc, name)?,
            lent: true,
            bytes: None,
        };
        self.slots.insert(0, slot)?;
        Ok(())
    }

    /// Takes a lent output back, with its bytes where they are to be kept. Takes no memory.
    pub fn give_back(&mut self, name: &str, bytes: Option<Vec<u8>>)
        requires { is_lent self.old name.now ≡ true }
        ensures bytes { output_of self.new name.now ≡ option_map (λ kept. kept.items) bytes }
        ensures closed { Closes name.now (is_lent self.old) (is_lent self.new) }
        ensures others { SameOthers name.now (output_of self.old) (output_of self.new) }
    {
        let Some(place) = self.place(name) else {
            unreachable!();
        };
        self.slots[place].close(bytes);
    }

    /// The bytes that were given back under this name, where they are kept and it isn't lent again.
    pub fn bytes(&self, name: &str) -> Option<&[u8]>
        ensures { option_copied result ≡ output_of self.now name.now }
    {
        match self.find(name) {
            Some(slot) => slot.told(),
            None => None,
        }
    }

    /// The newest output of this name.
    fn find(&self, name: &str) -> Option<&Slot>
        ensures { option_copied result ≡ find (is_named name.now) self.now }
    {
        self.slots.iter().find(|slot| slot.name.as_str() == name)
    }

    /// The place of the newest output of this name.
    fn place(&self, name: &str) -> Option<usize>
        ensures { result ≡ position (is_named name.now) self.now }
    {
        self.slots
            .iter()
            .position(|slot| slot.name.as_str() == name)
    }
}
