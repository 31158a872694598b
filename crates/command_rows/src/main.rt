//! Reads rows `issuer|text` from standard input, and prints what each text spells: its canonical text, or `!` and the
//! first fault. A byte of a text may be written `\xHH`; a line that begins with `#` is no row.
#![tactic(auto)]

ghost use Rattle.std.specs.Prelude.{◌≡◌, ◌<◌, ◌≤◌, [], length, IfSome, MatchOption};

use access_levels::Id;
use anyhow::{Result, anyhow};
use command_parser::{ParseFault, Syntax, Word, parse};
use std::alloc::{AllocError, Global};
use std::str;

/// The value of a hexadecimal digit.
fn digit(byte: u8) -> Option<u8>
    ensures { IfSome result (λ d. d < 16) }
{
    match byte {
        b'0'..=b'9' => Some(byte - b'0'),
        b'A'..=b'F' => Some(byte - b'A' + 10),
        _ => None,
    }
}

/// The byte that a text begins with, written or escaped, and how many bytes it takes.
fn first_byte(text: &[u8]) -> Option<(u8, usize)>
    ensures { MatchOption result (text.now ≡ []) (λ found. (0 < found.1) × (found.1 ≤ length text.now)) }
{
    if let [b'\\', b'x', high, low, ..] = text {
        if let (Some(high), Some(low)) = (digit(*high), digit(*low)) {
            return Some((16 * high + low, 4));
        }
    }
    let byte = text.first()?;
    Some((*byte, 1))
}

/// The text with each `\\xHH` replaced by its byte.
fn unescaped(alloc: Global, text: &[u8]) -> Result<Vec<u8>, AllocError> {
    let mut bytes = Vec::new(alloc);
    let mut left = text;
    while let Some((byte, count)) = first_byte(left) {
        bytes.push(byte)?;
        left = left.split_at(count).1;
    }
    Ok(bytes)
}

/// The spelling of an operand.
fn spelling(word: Word) -> &'static str {
    str::from_utf8(word.spelling()).unwrap_or("?")
}

/// Prints the first fault of a text.
fn print_fault(rt: &impl Print, fault: Syntax) -> Result<()> {
    match fault {
        Syntax::UnknownCommand => println!(rt; "! UNKNOWNCOMMAND")?,
        Syntax::UnknownOperand(place) => println!(rt; "! UNKNOWNOPERAND {place}")?,
        Syntax::AmbiguousOperand(place) => println!(rt; "! AMBIGUOUS {place}")?,
        Syntax::Missing(word) => println!(rt; "! MISSING {}", spelling(word))?,
        Syntax::Repeated(word) => println!(rt; "! REPEATED {}", spelling(word))?,
        Syntax::Excluded(one, other) => println!(rt;
            "! EXCLUDED {} {}",
            spelling(one),
            spelling(other)
        )?,
        Syntax::BadValue(place) => println!(rt; "! BADVALUE {place}")?,
        Syntax::Unclosed(place) => println!(rt; "! UNCLOSED {place}")?,
        Syntax::TextTooLong => println!(rt; "! TEXTTOOLONG")?,
    }
    Ok(())
}

/// Prints what a text spells for that issuer.
fn print_row(rt: &(impl Print + AllocGlobal), issuer: &str, text: &str) -> Result<()> {
    let issuer = Id::read(issuer.as_bytes()).map_err(|_| anyhow!("the issuer is no ID"))?;
    let text = unescaped(rt.alloc(), text.as_bytes())?;
    match parse(rt.alloc(), issuer, &text) {
        Ok(command) => println!(rt; "{}", str::from_utf8(command.text()).unwrap_or("?"))?,
        Err(ParseFault::Syntax(fault)) => print_fault(rt, fault)?,
        Err(ParseFault::NoMemory) => println!(rt; "! NOMEMORY")?,
    }
    Ok(())
}

/// Prints what each row spells.
fn main(rt: HostRuntime) -> Result<()> {
    for line in rt.lines(rt.alloc()) {
        let line = line?;
        let row = line.as_str();
        if row.starts_with('#') {
            continue;
        }
        if let Some((issuer, text)) = row.split_once('|') {
            print_row(&rt, issuer, text)?;
        }
    }
    Ok(())
}
