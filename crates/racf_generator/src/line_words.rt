//! The words of a line, and what a line says.

ghost use Rattle.std.specs.Prelude.{◌≡◌, ◌≤◌, length, position};
ghost use Rattle.std.specs.List.{after_first, list_all, position_or_len};
ghost use Rattle.generic_names.specs.Faults.{is_digit};
ghost use Rattle.racf_generator.specs.Tally.{first_word, is_blank, is_number, says_accepted, says_answered, says_denied, says_refused, second_word};

/// A line says that a command is accepted.
pub(crate) fn says_accepted(line: &[u8]) -> bool
    ensures { result ≡ says_accepted line.now }
{
    second_word(line) == b"ACCEPTED".as_slice()
}

/// A line says that something is refused.
pub(crate) fn says_refused(line: &[u8]) -> bool
    ensures { result ≡ says_refused line.now }
{
    second_word(line) == b"REFUSED".as_slice()
}

/// A line answers a request.
pub(crate) fn says_answered(line: &[u8]) -> bool
    ensures { result ≡ says_answered line.now }
{
    is_number(first_word(line)) && is_number(second_word(line))
}

/// A line says that access is denied.
pub(crate) fn says_denied(line: &[u8]) -> bool
    ensures { result ≡ says_denied line.now }
{
    says_answered(line) && second_word(line) == b"8".as_slice()
}

/// The first word of a line.
pub(crate) fn first_word(line: &[u8]) -> &[u8]
    ensures { result.now ≡ first_word line.now }
{
    &line[..blank_place(line)]
}

/// The second word of a line.
fn second_word(line: &[u8]) -> &[u8]
    ensures { result.now ≡ second_word line.now }
{
    first_word(behind_blank(line))
}

/// What stands behind the first blank of a line, or nothing where it has none.
fn behind_blank(line: &[u8]) -> &[u8]
    ensures { result.now ≡ after_first is_blank line.now }
{
    let place = blank_place(line);
    if place == line.len() {
        return &line[place..];
    }
    &line[place + 1..]
}

/// The place of the first blank, or the length of a line that has none.
fn blank_place(line: &[u8]) -> usize
    ensures place { result ≡ position_or_len is_blank line.now }
    ensures within { result ≤ length line.now }
{
    match first_blank(line) {
        Some(place) => place,
        None => line.len(),
    }
}

/// The place of the first blank.
fn first_blank(line: &[u8]) -> Option<usize>
    ensures { result ≡ position is_blank line.now }
{
    line.iter().position(|byte| *byte == b' ')
}

/// A word is a number: at least one digit, and nothing else.
fn is_number(word: &[u8]) -> bool
    ensures { result ≡ is_number word.now }
{
    match word {
        [] => false,
        _ => are_digits(word),
    }
}

/// A word has digits alone.
fn are_digits(word: &[u8]) -> bool
    ensures { result ≡ list_all is_digit word.now }
{
    word.iter().all(|byte| is_digit(*byte))
}

/// A byte is a digit.
fn is_digit(byte: u8) -> bool
    ensures { result ≡ is_digit byte }
{
    b'0' <= byte && byte <= b'9'
}
