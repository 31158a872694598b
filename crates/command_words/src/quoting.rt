//! How far quotes hide the bytes of a text.

ghost use Rattle.std.specs.Prelude.{◌≡◌, ℕ, true};

use crate::bytes::is_blank;

/// Where a byte stands to quotes. The number is the place of the quote that opened.
#[derive(Clone, Copy, Debug)]
pub enum Quoting {
    /// Quotes are bytes like others, as in the command's own words.
    Ignored,
    /// Outside quotes, where a quote opens.
    Outside,
    /// Inside quotes, which hide blanks, commas and parentheses.
    Inside(u32),
    /// Behind a quote that has closed, unless another follows at once: that is a quote written twice.
    Met(u32),
    /// In the word before one that may be a name in quotes, as the name of a command on data set profiles.
    BeforeName,
    /// At the front of a word that may be a name in quotes. Quotes elsewhere in it are bytes like others.
    AtName,
    /// Inside the quotes of a name, which the next quote closes.
    InName(u32),
}

impl Quoting {
    ghost use Rattle.std.specs.Prelude.{◌+◌, ◌<◌, ◌^◌};
    ghost use Rattle.command_words.specs.Quotes.{after, hides, next_word};
    ghost use Rattle.command_words.specs.Tokens.{depth_after, stays_tied, unclosed};

    /// How the byte behind this one stands to quotes.
    pub fn after(self, place: u32, byte: u8) -> Quoting
        ensures { result ≡ after self place byte }
    {
        let is_quote = byte == b'\'';
        match self {
            Quoting::Ignored => Quoting::Ignored,
            Quoting::Outside if is_quote => Quoting::Inside(place),
            Quoting::Outside => Quoting::Outside,
            Quoting::Inside(open) if is_quote => Quoting::Met(open),
            Quoting::Inside(open) => Quoting::Inside(open),
            Quoting::Met(open) if is_quote => Quoting::Inside(open),
            Quoting::Met(_) => Quoting::Outside,
            Quoting::BeforeName => Quoting::BeforeName,
            Quoting::AtName if is_quote => Quoting::InName(place),
            Quoting::AtName => Quoting::Ignored,
            Quoting::InName(_) if is_quote => Quoting::Ignored,
            Quoting::InName(open) => Quoting::InName(open),
        }
    }

    /// Whether a byte here is hidden by quotes.
    pub fn hides(self) -> bool
        ensures { result ≡ hides self }
    {
        match self {
            Quoting::Inside(_) => true,
            Quoting::InName(_) => true,
            _ => false,
        }
    }

    /// Whether a byte is known to change nothing at a glance, as most bytes of values: one outside quotes that is neither
    /// a quote nor a parenthesis. Where it says no, nothing is said.
    pub(crate) fn passes(self, byte: u8) -> bool
        ensures unchanged { result ≡ true → (place depth : ℕ) → (after self place byte ≡ self) × (depth_after self byte depth ≡ depth) }
    {
        match self {
            Quoting::Outside => byte > b')' || byte < b'\'',
            _ => false,
        }
    }

    /// How quotes count at the front of the next word.
    pub fn next_word(self) -> Quoting
        ensures { result ≡ next_word self }
    {
        match self {
            Quoting::BeforeName => Quoting::AtName,
            Quoting::AtName => Quoting::Ignored,
            other => other,
        }
    }

    /// How many parentheses are open behind this byte of a value, where `depth` were.
    pub fn depth_after(self, byte: u8, depth: u32) -> u32
        requires { depth < 2 ^ 31 }
        ensures { result ≡ depth_after self byte depth }
    {
        if self.hides() {
            return depth;
        }
        match byte {
            b'(' => depth + 1,
            b')' => depth.saturating_sub(1),
            _ => depth,
        }
    }

    /// What isn't closed where the text ends: the open quote, else the parenthesis at the place `outer`.
    pub fn unclosed(self, outer: u32) -> u32
        ensures { result ≡ unclosed self outer }
    {
        match self {
            Quoting::Inside(open) => open,
            Quoting::InName(open) => open,
            _ => outer,
        }
    }

    /// Whether a value behind this byte, which parts words, would still be that of the word in front. Only blanks and
    /// tabs may stand before an operand's value, and nothing before one within a value.
    pub fn stays_tied(self, tied: bool, byte: u8) -> bool
        ensures { result ≡ stays_tied self tied byte }
    {
        match self {
            Quoting::Ignored => tied && is_blank(byte),
            Quoting::BeforeName => tied && is_blank(byte),
            Quoting::AtName => tied && is_blank(byte),
            _ => false,
        }
    }
}
