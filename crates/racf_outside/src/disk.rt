//! Disks: bytes that outlive the program, and what a crash may leave of them.

ghost use Rattle.std.specs.Prelude.{ℕ, ◌-◌, ◌≤◌, ◌≡◌, Option, Some, min, length, take, drop, IfOk, OnOk, OnErr};
ghost use Rattle.std.specs.Option.{option_map};
ghost use Rattle.racf_outside.specs.Causes.{HasCause};
ghost use Rattle.racf_outside.specs.Disk.{History, goes, Now, Faulty};
ghost use Rattle.racf_outside.specs.Moments.{IsImage, written, cut_to, synced};

use crate::streams::Failed;

/// A file that is read and written by places. Its meaning is its history, where the disk tells it: what a read gives at
/// each moment, and what a crash at that moment may leave.
///
/// What was written is in doubt until a sync succeeds: till then a crash may keep it, keep it in part, or leave other
/// bytes in its place, and may undo a cut.
pub trait Disk {
    /// Its moments up to now; `None` claims nothing.
    ghost tells: { Self → Option History };

    /// How many faults it has had, up to 2^64 - 1.
    ghost faults: { Self → ℕ };

    /// Fills `into` from the place `at` on, and answers how many bytes it found there.
    fn read(&mut self, at: u64, into: &mut [u8]) -> Result<usize, Failed>
        ensures count { IfOk result (λ n. n ≤ length into.new) }
        ensures found { IfOk result (λ n. Now (tells self.old) (λ m. (n ≡ min (length into.new) (length m.bytes - at))
            × (take n into.new ≡ take n (drop at m.bytes)))) }
        ensures kept { tells self.new ≡ tells self.old }
        ensures cause { HasCause (faults self.old) (faults self.new) result };

    /// Writes all of `bytes` from the place `at` on, which lies within the file or at its end.
    fn write_at(&mut self, at: u64, bytes: &[u8]) -> Result<(), Failed>
        requires { Now (tells self.old) (λ m. at ≤ length m.bytes) }
        ensures done { OnOk result (tells self.new ≡ option_map (goes (written at bytes.now)) (tells self.old)) }
        ensures failed { OnErr result (Faulty (written at bytes.now) (tells self.old) (tells self.new)) }
        ensures cause { HasCause (faults self.old) (faults self.new) result };

    /// Cuts off what lies behind the first `length` bytes. A file that is no longer stays as it is.
    fn cut(&mut self, length: u64) -> Result<(), Failed>
        ensures done { OnOk result (tells self.new ≡ option_map (goes (cut_to length)) (tells self.old)) }
        ensures failed { OnErr result (Faulty (cut_to length) (tells self.old) (tells self.new)) }
        ensures cause { HasCause (faults self.old) (faults self.new) result };

    /// Waits until all that was done is on the disk: then a crash leaves what a read gives.
    fn sync(&mut self) -> Result<(), Failed>
        ensures done { OnOk result (tells self.new ≡ option_map (goes synced) (tells self.old)) }
        ensures failed { OnErr result (Faulty (λ m. m) (tells self.old) (tells self.new)) }
        ensures cause { HasCause (faults self.old) (faults self.new) result };

    /// A disk as it reads is one of its images.
    ghost reads_an_image: { (disk : Self) (h : History) → tells disk ≡ Some h → IsImage h.now h.now.bytes };
}

/// Two disks.
#[derive(Drop)]
pub struct Two<D> {
    /// The first, which counts where both say the same.
    pub first: D,
    /// The second.
    pub second: D,
}
