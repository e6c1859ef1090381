//! Counts that stop at the last number of 64 bits.
ghost use Rattle.std.specs.Prelude.{◌≡◌};
ghost use Rattle.acap_task.specs.Told.{up};

/// One more, up to the last number.
pub fn count_up(count: u64) -> u64
    ensures { result ≡ up count }
{
    count.saturating_add(1)
}
