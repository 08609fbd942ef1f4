//! Counts of what went wrong.
ghost use Rattle.std.specs.Prelude.{◌≡◌, ◌+◌, ◌-◌, ◌^◌, min};
ghost use Rattle.outside_io.specs.Counts.{Rose};

/// The count after one more, which stops at the greatest number.
pub(crate) fn raised(count: u64) -> u64
    ensures value { result ≡ min (count + 1) (2 ^ 64 - 1) }
    ensures rose { Rose count result }
{
    count.saturating_add(1)
}
