//! Decimal numbers.

ghost use Rattle.std.specs.Prelude.{◌≡◌, ◌^◌, nat_le, Some, None, if◌then◌else◌};
ghost use Rattle.std.specs.List.{list_all};
ghost use Rattle.generic_names.specs.Faults.{is_digit};
ghost use Rattle.request_files.specs.Spellings.{number_word, is_decimal, number_behind};

/// The most that `*AFTER` can ask for, since no more commands are accepted.
const MOST: u64 = 1 << 62;

/// The number that a word writes in decimal, without a sign and with no 0 in front; at most 2^62.
pub fn number_word(word: &[u8]) -> Option<u64>
    ensures { result ≡ number_word word.now }
{
    if is_decimal(word) {
        number_in(word)
    } else {
        None
    }
}

/// Decimal digits, with no 0 in front of another.
fn is_decimal(word: &[u8]) -> bool
    ensures { result ≡ is_decimal word.now }
{
    match word {
        [] => false,
        [digit] => is_digit(*digit),
        [first, ..] => *first != b'0' && are_digits(word),
    }
}

/// Whether all bytes are digits.
fn are_digits(word: &[u8]) -> bool
    ensures { result ≡ list_all is_digit word.now }
{
    word.iter().all(|byte| is_digit(*byte))
}

/// Whether it is a digit.
fn is_digit(byte: u8) -> bool
    ensures { result ≡ is_digit byte }
{
    byte >= b'0' && byte <= b'9'
}

/// The number that digits write, unless it is greater than 2^62.
fn number_in(digits: &[u8]) -> Option<u64>
    ensures { result ≡ (if nat_le (number_behind 0 digits.now) (2 ^ 62) then Some (number_behind 0 digits.now) else None) }
{
    let mut number: u64 = 0;
    for digit in digits {
        if number > MOST / 10 {
            return None;
        }
        number = 10 * number + u64::from(digit.saturating_sub(b'0'));
    }
    if number <= MOST { Some(number) } else { None }
}
