//! Lines that are printed with the number of the input's line in front.

ghost use Rattle.std.specs.Prelude.{◌≡◌, ◌++◌, OnOk};
ghost use Rattle.racf_ask.specs.Asking.{number_front, with_number};

use itoa::Buffer;
use std::alloc::AllocError;

/// Writes the lines of a text at the end of `out`, each with the number and a blank in front. Where memory is short,
/// `out` keeps a front of that.
pub(crate) fn write_with_number(
    number: u64,
    text: &[u8],
    out: &mut Vec<u8>,
) -> Result<(), AllocError>
    ensures { OnOk result (out.new.items ≡ out.old.items ++ with_number number text.now) }
{
    let mut rest = text;
    let mut begins = true;
    'byte: while let [byte, behind @ ..] = rest {
        if begins {
            write_front(number, out)?;
        }
        out.push(*byte)?;
        begins = *byte == b'\n';
        rest = behind;
    }
    Ok(())
}

/// Writes a number, and a blank behind it, at the end of `out`.
fn write_front(number: u64, out: &mut Vec<u8>) -> Result<(), AllocError>
    ensures { OnOk result (out.new.items ≡ out.old.items ++ number_front number) }
{
    let mut digits = Buffer::new();
    out.extend_from_slice(digits.format(number).as_bytes())?;
    out.extend_from_slice(b" ")
}
