//! The scans over bytes: separators, the rest of a word, the end of a value.

ghost use Rattle.std.specs.Prelude.{◌≡◌, ◌+◌, ◌<◌, ◌≤◌, ◌^◌, length, take, drop, IfOk};
ghost use Rattle.command_words.specs.declared.quoting.Quoting.TheVariants.{Ignored, Outside};
ghost use Rattle.command_words.specs.Quotes.{word_len as letters_of};
ghost use Rattle.command_words.specs.Tokens.{tokens_from, group_end as end_of, BeginsWithNoGap};

use crate::bytes::{is_gap, is_word};
use crate::quoting::Quoting;

/// The text without the separators in front: whether it is still tied to the word before, its place, its bytes.
#[inline(always)]
pub fn past_gaps(
    quoting: Quoting,
    mut tied: bool,
    mut place: u32,
    mut bytes: &[u8],
) -> (bool, u32, &[u8])
    requires { place + length bytes.now < 2 ^ 30 }
    ensures same { tokens_from quoting result.0 0 result.1 result.2.now ≡ tokens_from quoting tied 0 place bytes.now }
    ensures reach { result.1 + length result.2.now ≡ place + length bytes.now }
    ensures front { BeginsWithNoGap result.2.now }
{
    while let Some((byte, rest)) = bytes.split_first() {
        if !is_gap(*byte) {
            return (tied, place, bytes);
        }
        tied = quoting.stays_tied(tied, *byte);
        place += 1;
        bytes = rest;
    }
    (tied, place, bytes)
}

/// How many bytes from the front on still belong to a word.
#[inline(always)]
#[tactic(auto, using(crate::proofs::Letters::ignored_anywhere))]
pub fn word_len(quoting: Quoting, place: u32, bytes: &[u8]) -> usize
    requires { place + length bytes.now < 2 ^ 30 }
    ensures value { result ≡ letters_of quoting place bytes.now }
    ensures within { result ≤ length bytes.now }
{
    match quoting {
        Quoting::Ignored => plain_len(bytes),
        _ => quoted_len(quoting, place, bytes),
    }
}

/// The same where quotes are bytes like others, as they mostly are.
fn plain_len(bytes: &[u8]) -> usize
    ensures value { result ≡ letters_of Ignored 0 bytes.now }
    ensures within { result ≤ length bytes.now }
{
    let mut count = 0;
    let mut rest = bytes;
    while let Some((byte, behind)) = rest.split_first() {
        if !is_word(*byte) {
            return count;
        }
        count += 1;
        rest = behind;
    }
    count
}

/// The same where quotes may count.
fn quoted_len(mut quoting: Quoting, mut place: u32, bytes: &[u8]) -> usize
    requires { place + length bytes.now < 2 ^ 30 }
    ensures value { result ≡ letters_of quoting place bytes.now }
    ensures within { result ≤ length bytes.now }
{
    let mut count = 0;
    let mut rest = bytes;
    while let Some((byte, behind)) = rest.split_first() {
        if !quoting.hides() && !is_word(*byte) {
            return count;
        }
        quoting = quoting.after(place, *byte);
        place += 1;
        count += 1;
        rest = behind;
    }
    count
}

/// The place of the parenthesis that closes the one at the place `outer`, behind which `bytes` begin; or the place of
/// what isn't closed.
pub fn group_end(outer: u32, bytes: &[u8]) -> Result<u32, u32>
    requires { outer + length bytes.now + 1 < 2 ^ 30 }
    ensures value { result ≡ end_of outer Outside 0 (outer + 1) bytes.now }
    ensures within { IfOk result (λ end. (outer < end) × (end ≤ outer + length bytes.now)) }
{
    let mut quoting = Quoting::Outside;
    let mut depth = 0;
    let mut place = outer + 1;
    let mut rest = bytes;
    while let Some((byte, behind)) = rest.split_first() {
        if !quoting.hides() && *byte == b')' && depth == 0 {
            return Ok(place);
        }
        if !quoting.passes(*byte) {
            depth = quoting.depth_after(*byte, depth);
            quoting = quoting.after(place, *byte);
        }
        place += 1;
        rest = behind;
    }
    Err(quoting.unclosed(outer))
}

/// The bytes from the n-th on.
#[inline(always)]
pub fn behind(bytes: &[u8], n: usize) -> &[u8]
    requires { n ≤ length bytes.now }
    ensures { result.now ≡ drop n bytes.now }
{
    bytes.split_at(n).1
}

/// The first n bytes.
#[inline(always)]
pub fn front(bytes: &[u8], n: usize) -> &[u8]
    requires { n ≤ length bytes.now }
    ensures { result.now ≡ take n bytes.now }
{
    bytes.split_at(n).0
}
