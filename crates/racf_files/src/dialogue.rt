//! A dialogue at a terminal: prompts, and the words that may be typed.

use std::alloc::{AllocError, Global};
use std::sync::Arc;
use std::sync::atomic::{AtomicU64, Ordering};

/// The line that asks for the words.
const QUESTION: &[u8] = b"?";

/// The first words of lines that never go on in the next.
const ALONE: [&[u8]; 4] = [b"VERIFY", b"AUTH", b"FASTAUTH", b"DELETE"];

/// The number that was printed last, which who prints tells who asks: 0 before any, else one more than it.
#[derive(Drop)]
pub(crate) struct LastNumber {
    /// The number.
    shared: Arc<AtomicU64, Global>,
}

impl LastNumber {
    /// None was printed.
    pub(crate) fn new(alloc: Global) -> Result<LastNumber, AllocError> {
        Ok(LastNumber {
            shared: Arc::new(alloc, AtomicU64::new(0))?,
        })
    }

    /// The same, for the other end.
    pub(crate) fn share(&self) -> Result<LastNumber, AllocError> {
        Ok(LastNumber {
            shared: Arc::try_clone(&self.shared)?,
        })
    }

    /// The number that was printed last.
    fn get(&self) -> Option<u64> {
        self.shared.load(Ordering::SeqCst).checked_sub(1)
    }

    /// This number was printed.
    fn set(&self, number: u64) {
        self.shared
            .store(number.saturating_add(1), Ordering::SeqCst);
    }
}

/// The end of a dialogue that is read.
#[derive(Drop)]
pub(crate) struct Asking {
    /// What was printed last.
    last: LastNumber,
    /// What may be typed.
    words: &'static str,
    /// The next byte begins a line.
    is_fresh: bool,
    /// The line before goes on in the next.
    goes_on: bool,
}

impl Asking {
    /// Nothing was typed yet.
    pub(crate) fn new(last: LastNumber, words: &'static str) -> Asking {
        Asking {
            last,
            words,
            is_fresh: true,
            goes_on: false,
        }
    }

    /// Asks for the next line: by the number that was printed last, or for more of a line.
    pub(crate) fn prompt<R: Eprint>(&self, terminal: &R) {
        if self.goes_on || !self.is_fresh {
            let _ = eprint!(terminal; "+ ");
            return;
        }
        let _ = match self.last.get() {
            Some(number) => eprint!(terminal; "{number}> "),
            None => eprint!(terminal; "> "),
        };
    }

    /// Takes what was typed. Where it asks for the words they are printed, and it isn't for who reads. Behind the end
    /// the line of the prompt is ended.
    pub(crate) fn is_answered<R: Eprint>(&mut self, terminal: &R, typed: &[u8]) -> bool {
        if typed.is_empty() {
            let _ = eprintln!(terminal; "");
            return false;
        }
        let Some(line) = typed.strip_suffix(b"\n") else {
            self.is_fresh = false;
            return false;
        };
        if self.is_fresh && line.trim_ascii() == QUESTION {
            let words = self.words;
            let _ = eprintln!(terminal; "{words}");
            return true;
        }
        self.goes_on = has_mark(line) && (self.goes_on || !self.is_fresh || may_go_on(line));
        self.is_fresh = true;
        false
    }
}

/// Whether a line has a mark by which it goes on, as its last nonblank byte.
fn has_mark(line: &[u8]) -> bool {
    matches!(line.trim_ascii_end().last(), Some(b'-' | b'+'))
}

/// Whether a line that begins here may go on: no comment, no request, no line of an issuer.
fn may_go_on(line: &[u8]) -> bool {
    let line = line.trim_ascii_start();
    if line.starts_with(b"/*") || line.starts_with(b"*") {
        return false;
    }
    let first = match line.split(|byte| byte.is_ascii_whitespace()).next() {
        Some(first) => first,
        None => line,
    };
    !ALONE.iter().any(|word| first.eq_ignore_ascii_case(word))
}

/// The end of a dialogue that is printed: it looks for the number in front of each line.
#[derive(Drop)]
pub(crate) struct Printed {
    /// What was printed last.
    last: LastNumber,
    /// The number in front of the line that is being printed, as far as it goes; none behind its digits.
    number: Option<u64>,
    /// A digit of it was printed.
    has_digit: bool,
}

impl Printed {
    /// Nothing was printed yet.
    pub(crate) fn new(last: LastNumber) -> Printed {
        Printed {
            last,
            number: Some(0),
            has_digit: false,
        }
    }

    /// These bytes were printed.
    pub(crate) fn take(&mut self, bytes: &[u8]) {
        for byte in bytes {
            self.take_byte(*byte);
        }
    }

    /// This byte was printed.
    fn take_byte(&mut self, byte: u8) {
        if byte == b'\n' {
            self.number = Some(0);
            self.has_digit = false;
            return;
        }
        let Some(number) = self.number else {
            return;
        };
        if byte.is_ascii_digit() {
            let digit = u64::from(byte.wrapping_sub(b'0'));
            self.number = Some(number.saturating_mul(10).saturating_add(digit));
            self.has_digit = true;
            return;
        }
        if self.has_digit {
            self.last.set(number);
        }
        self.number = None;
    }
}
