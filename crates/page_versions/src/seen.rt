//! Whether an open snapshot sees a version.
ghost use Rattle.std.specs.Prelude.{◌≡◌};
ghost use Rattle.std.specs.List.{list_any};
ghost use Rattle.slab.specs.Slab.{get};
ghost use Rattle.page_versions.specs.Purging.{is_between};

use slab::Slab;

/// Whether an open snapshot is at a commit from the first on and before the second.
pub fn is_seen(snapshots: &Slab<u64>, from: u64, to: u64) -> bool
    ensures { result ≡ list_any (is_between from to) snapshots.now.slots }
{
    for key in 0..snapshots.capacity() {
        if is_open_between(snapshots, key, from, to) {
            return true;
        }
    }
    false
}

fn is_open_between(snapshots: &Slab<u64>, key: usize, from: u64, to: u64) -> bool
    ensures { result ≡ is_between from to (get snapshots.now key) }
{
    match snapshots.get(key) {
        Some(commit) => from <= *commit && *commit < to,
        None => false,
    }
}
