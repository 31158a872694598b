//! Counts of faults.

ghost use Rattle.std.specs.Prelude.{◌≤◌};
ghost use Rattle.racf_outside.specs.Causes.{Rose};

use racf_outside::Failed;

/// Counts a fault; the count stays at 2^64 - 1 once it is there.
pub(crate) fn count_fault(faults: &mut u64) -> Failed
    ensures rose { Rose faults.old faults.new }
    ensures no_fewer { faults.old ≤ faults.new }
{
    *faults = faults.saturating_add(1);
    Failed
}
