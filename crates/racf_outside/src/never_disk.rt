//! A disk that never fails.

ghost use Rattle.std.specs.Prelude.{None};
ghost use Rattle.racf_outside.specs.DiskLaws.{untold_reads_an_image};

use crate::disk::Disk;
use crate::streams::Failed;

/// A disk that takes everything, keeps nothing, tells nothing and never fails: each read finds no byte.
#[derive(Clone, Copy, Debug)]
pub struct NeverDisk;

impl Disk for NeverDisk {
    ghost tells = { λ _. None };

    ghost faults = { λ _. 0 };

    ghost reads_an_image = { λ _. untold_reads_an_image };

    fn read(&mut self, _at: u64, _into: &mut [u8]) -> Result<usize, Failed> {
        Ok(0)
    }

    fn write_at(&mut self, _at: u64, _bytes: &[u8]) -> Result<(), Failed> {
        Ok(())
    }

    fn cut(&mut self, _length: u64) -> Result<(), Failed> {
        Ok(())
    }

    fn sync(&mut self) -> Result<(), Failed> {
        Ok(())
    }
}
