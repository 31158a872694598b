//! The sides of two disks.

ghost use Rattle.std.specs.Prelude.{◌≡◌};
ghost use Rattle.racf_checkpoint.specs.Stored.{pick, other};

use checkpoint_disks::Side;
use racf_outside::{Disk, Two};

/// The other side.
pub(crate) fn other(side: Side) -> Side
    ensures { result ≡ other side }
{
    match side {
        Side::First => Side::Second,
        Side::Second => Side::First,
    }
}

/// Of two disks in their order the one on this side, and the other one.
pub(crate) fn by_role<D: Disk>(side: Side, first: D, second: D) -> (D, D)
    ensures live { result.0 ≡ pick side first second }
    ensures idle { result.1 ≡ pick side second first }
{
    match side {
        Side::First => (first, second),
        Side::Second => (second, first),
    }
}

/// The two in their order, where the first of these is the one on this side.
pub(crate) fn in_order<D: Disk>(side: Side, live: D, idle: D) -> Two<D>
    ensures first { result.first ≡ pick side live idle }
    ensures second { result.second ≡ pick side idle live }
{
    match side {
        Side::First => Two {
            first: live,
            second: idle,
        },
        Side::Second => Two {
            first: idle,
            second: live,
        },
    }
}
