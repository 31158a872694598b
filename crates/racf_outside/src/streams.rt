//! Sources and sinks of bytes.

ghost use Rattle.std.specs.Prelude.{ℕ, ◌≡◌, ◌<◌, ◌≤◌, List, [], Option, length, take, IfOk, OnErr};
ghost use Rattle.std.specs.Io.KnownBytes.{prepend_known, append_known, IsAtEnd};
ghost use Rattle.racf_outside.specs.Causes.{HasCause};

use thiserror::Error;

/// A call of the outside failed, and its object counted the fault.
#[derive(Clone, Copy, Debug, PartialEq, Eq, Error)]
#[error("the call failed")]
pub struct Failed;

/// Where bytes come from. Its meaning is the bytes that are left, where the source tells them.
pub trait Source {
    /// The bytes that are left; `None` claims nothing.
    ghost left: { Self → Option (List ℕ) };

    /// How many faults it has had, up to 2^64 - 1.
    ghost faults: { Self → ℕ };

    /// Takes the next bytes into the front of `into`, and answers how many: at least one unless the input has ended or
    /// `into` is empty.
    fn read(&mut self, into: &mut [u8]) -> Result<usize, Failed>
        ensures bound { IfOk result (λ n. n ≤ length into.new) }
        ensures bytes { IfOk result (λ n. left self.old ≡ prepend_known (take n into.new) (left self.new)) }
        ensures end { IfOk result (λ n. n ≡ 0 → 0 < length into.new → IsAtEnd (left self.new)) }
        ensures kept { OnErr result (left self.new ≡ left self.old) }
        ensures cause { HasCause (faults self.old) (faults self.new) result };
}

/// Where bytes go. Its meaning is the bytes that it took, where the sink tells them.
pub trait Sink {
    /// The bytes that it took; `None` claims nothing.
    ghost taken: { Self → Option (List ℕ) };

    /// How many faults it has had, up to 2^64 - 1.
    ghost faults: { Self → ℕ };

    /// Takes a front of `bytes`, and answers how long it is: at least one byte unless `bytes` is empty.
    fn write(&mut self, bytes: &[u8]) -> Result<usize, Failed>
        ensures bound { IfOk result (λ n. n ≤ length bytes.now) }
        ensures bytes { IfOk result (λ n. taken self.new ≡ append_known (taken self.old) (take n bytes.now)) }
        ensures some { IfOk result (λ n. n ≡ 0 → bytes.now ≡ []) }
        ensures kept { OnErr result (taken self.new ≡ taken self.old) }
        ensures cause { HasCause (faults self.old) (faults self.new) result };
}
