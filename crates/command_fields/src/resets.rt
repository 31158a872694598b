//! Which access lists PERMIT empties.

/// Which access lists PERMIT empties.
#[derive(Clone, Copy, Debug, PartialEq, Eq)]
pub enum Reset {
    /// Both.
    All,
    Standard,
    /// The conditional one.
    When,
}

impl Reset {
    ghost use Rattle.std.specs.Prelude.{◌≡◌};
    ghost use Rattle.command_fields.specs.Resets.{reset_name};

    /// The word that spells it.
    pub fn name(self) -> &'static [u8]
        ensures { result.now ≡ reset_name self }
    {
        match self {
            Reset::All => b"ALL".as_slice(),
            Reset::Standard => b"STANDARD".as_slice(),
            Reset::When => b"WHEN".as_slice(),
        }
    }
}
