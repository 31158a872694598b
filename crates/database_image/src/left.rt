//! The bytes that are left to be read.
ghost use Rattle.std.specs.Prelude.{◌≡◌, true, false, nat_lt, length, take, drop, IfOk, IfErr, OnOk};
ghost use Rattle.database_image.specs.declared.faults.ReadFault.TheVariants.{At};

use crate::faults::ReadFault;
use std::marker::Model;

/// What is left of an image.
#[derive(Drop)]
pub struct Left<'a> {
    /// The bytes behind those that were read.
    bytes: &'a [u8],
}

impl<'a> Model for Left<'a> {
    ghost use Rattle.std.specs.Prelude.{List, ℕ};

    ghost Value = { List ℕ };

    ghost view = { λ left. left.bytes.now };
}

impl<'a> Left<'a> {
    /// All of the bytes.
    pub fn of(bytes: &'a [u8]) -> Left<'a>
        ensures { result ≡ bytes.now }
    {
        Left { bytes }
    }

    /// How many there are.
    pub fn len(&self) -> usize
        ensures { result ≡ length self.now }
    {
        self.bytes.len()
    }

    /// The next so many bytes. Behind a fault nothing was taken.
    pub fn part(&mut self, width: usize) -> Result<&'a [u8], ReadFault>
        ensures part { IfOk result (λ part. (nat_lt (length self.old) width ≡ false) × (part.now ≡ take width self.old) × (self.new ≡ drop width self.old)) }
        ensures width { IfOk result (λ part. length part.now ≡ width) }
        ensures short { IfErr result (λ fault. (nat_lt (length self.old) width ≡ true) × (fault ≡ At (length self.old))) }
    {
        if self.bytes.len() < width {
            return Err(ReadFault::At(self.bytes.len()));
        }
        let (part, behind) = self.bytes.split_at(width);
        self.bytes = behind;
        Ok(part)
    }
}

/// Nothing, unless the field at which so many bytes were left isn't lawful.
pub fn require(lawful: bool, begin: usize) -> Result<(), ReadFault>
    ensures ok { OnOk result (lawful ≡ true) }
    ensures refused { IfErr result (λ fault. (lawful ≡ false) × (fault ≡ At begin)) }
{
    if lawful {
        Ok(())
    } else {
        Err(ReadFault::At(begin))
    }
}
