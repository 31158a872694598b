//! The marks by which a command goes on in the next line.

ghost use Rattle.std.specs.Prelude.{◌≡◌};
ghost use Rattle.statements.specs.Joining.{mark_of};

/// The byte at the end of a line that goes on.
#[derive(Clone, Copy)]
pub enum Mark {
    /// `-`: the next line is joined as it is.
    Hyphen,
    /// `+`: the next line is joined without the blanks in front of it.
    Plus,
}

impl Mark {
    /// The mark that a byte is.
    pub(crate) fn of(byte: u8) -> Option<Mark>
        ensures { result ≡ mark_of byte }
    {
        match byte {
            b'-' => Some(Mark::Hyphen),
            b'+' => Some(Mark::Plus),
            _ => None,
        }
    }
}
