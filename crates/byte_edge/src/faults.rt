// Counts that rise and stand still at the end of 64 bits.
ghost use Rattle.std.specs.Prelude.{◌≡◌};
ghost use Rattle.byte_edge.specs.Faults.{Rises, up};

// The count after one more.
pub(crate) fn next_count(count: u64) -> u64
    ensures up { result ≡ up count }
    ensures rises { Rises count result }
{
    count.saturating_add(1)
}
