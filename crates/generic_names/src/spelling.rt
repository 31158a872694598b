ghost use Rattle.std.specs.Prelude.{◌≡◌, ◌+◌, ◌<◌, ◌≤◌, ◌++◌, length, OnSome, IfNone};
ghost use Rattle.generic_names.specs.Spelled.{Spelled};

use crate::kind::NameKind;
use std::marker::Model;

/// The most bytes that any name has.
const LONGEST: usize = 246;

/// The text of a name with its kind, in an array of fixed size. Zeros stand behind the text.
#[derive(Clone, Copy)]
pub(crate) struct Spelling {
    /// Whether it names data sets or general resources.
    kind: NameKind,
    /// How many bytes the text has.
    length: usize,
    /// The text, and zeros behind it.
    bytes: [u8; LONGEST],
}

impl Model for Spelling {
    ghost use Rattle.generic_names.specs.Spelled.{Spelled};

    ghost Value = { Spelled };

    ghost use Rattle.generic_names.specs.Spelling.{spelled, IsPadded, padded, padded-spelled};

    ghost view = { spelled };

    ghost invariant = { IsPadded };

    ghost inverse = { padded };

    ghost inverse_ok = { padded-spelled };
}

impl Spelling {
    /// The spelling with this text.
    pub(crate) fn of(kind: NameKind, text: &[u8]) -> Spelling
        requires { length text.now ≤ 246 }
        ensures { result ≡ record { kind = kind; text = text.now } }
    {
        let mut bytes = [0; LONGEST];
        bytes[..text.len()].copy_from_slice(text);
        Spelling {
            kind,
            length: text.len(),
            bytes,
        }
    }

    /// Adds bytes at the end of the text, unless it would be longer than any name.
    pub(crate) fn push(&mut self, part: &[u8]) -> Option<()>
        ensures pushed { OnSome result (self.new ≡ record { kind = self.old.kind; text = self.old.text ++ part.now }) }
        ensures full { IfNone result (246 < length self.old.text + length part.now) }
    {
        if part.len() > LONGEST - self.length {
            return None;
        }
        let length = self.length + part.len();
        self.bytes[self.length..length].copy_from_slice(part);
        self.length = length;
        Some(())
    }

    /// The kind of the name.
    pub(crate) fn kind(&self) -> NameKind
        ensures { result ≡ self.now.kind }
    {
        self.kind
    }

    /// The text of the name.
    pub(crate) fn text(&self) -> &[u8]
        ensures text { result.now ≡ self.now.text }
        ensures fits { length result.now ≤ 246 }
    {
        &self.bytes[..self.length]
    }
}
