//! Counts that are over their limits.
ghost use Rattle.std.specs.Prelude.{◌≡◌, ◌+◌};
ghost use Rattle.std.specs.Result.{result_err};
ghost use Rattle.command_rules.specs.Conflicts.{over};

use command_rules::{Conflict, Limit};

/// Refuses a count that is over its limit.
#[inline(always)]
pub(crate) fn check_count(kind: Limit, limit: usize, count: usize) -> Result<(), Conflict>
    ensures { result_err result ≡ over kind limit count }
{
    if count > limit {
        return Err(Conflict::Full(kind, limit as u64));
    }
    Ok(())
}

/// Refuses three counts that are together over their limit.
#[inline(always)]
pub(crate) fn check_sum(
    kind: Limit,
    limit: usize,
    first: usize,
    second: usize,
    third: usize,
) -> Result<(), Conflict>
    ensures { result_err result ≡ over kind limit (first + (second + third)) }
{
    if first > limit || second > limit - first || third > limit - first - second {
        return Err(Conflict::Full(kind, limit as u64));
    }
    Ok(())
}
