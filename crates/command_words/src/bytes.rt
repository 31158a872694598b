//! What single bytes mean in the text of a command.

ghost use Rattle.std.specs.Prelude.{◌≡◌};
ghost use Rattle.command_words.specs.Bytes.{is_blank_byte, is_gap_byte, is_word_byte, is_faulty_byte, upper};

/// A blank or a tab.
pub fn is_blank(byte: u8) -> bool
    ensures { result ≡ is_blank_byte byte }
{
    byte == b' ' || byte == b'\t'
}

/// What parts words: a blank, a tab or a comma (RACF Command Language Reference, "How to enter RACF commands").
pub fn is_gap(byte: u8) -> bool
    ensures { result ≡ is_gap_byte byte }
{
    is_blank(byte) || byte == b','
}

/// Whether the byte can stand in a word: all but those that part words, and parentheses.
pub fn is_word(byte: u8) -> bool
    ensures { result ≡ is_word_byte byte }
{
    !(is_gap(byte) || byte == b'(' || byte == b')')
}

/// A byte outside X'20' to X'7E' that is no tab (this product's own rule).
pub fn is_faulty(byte: u8) -> bool
    ensures { result ≡ is_faulty_byte byte }
{
    (byte < 0x20 || byte > 0x7e) && byte != b'\t'
}

/// The byte with a letter folded to upper case.
pub fn folded(byte: u8) -> u8
    ensures { result ≡ upper byte }
{
    if byte >= b'a' && byte <= b'z' {
        byte - 32
    } else {
        byte
    }
}
