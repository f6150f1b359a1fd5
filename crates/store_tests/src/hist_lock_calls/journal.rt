// The value under the lock: numbered entries.
ghost use Rattle.std.specs.Prelude.{◌≡◌, ◌++◌, [], ◌∷◌, MatchBool};

use hist_lock::Storied;
use std::alloc::Global;

#[derive(Clone, Copy, Debug, PartialEq, Eq)]
pub struct Entry {
    pub session: u32,
    pub what: u32,
}

#[derive(Drop)]
pub struct Journal {
    base: u64,
    entries: Vec<Entry>,
}

impl Storied for Journal {
    type Event = Entry;

    type Origin = u64;

    ghost events = { λ j. j.entries.items };

    ghost session = { λ e. e.session };

    ghost origin = { λ j. j.base };

    ghost nowhere = { 0 };

    fn count(&self) -> u64 {
        self.entries.len() as u64
    }
}

impl Journal {
    pub fn new(alloc: Global, base: u64) -> Journal
        ensures entries { result.entries.items ≡ [] }
        ensures base { result.base ≡ base }
    {
        Journal {
            base,
            entries: Vec::new(alloc),
        }
    }

    pub fn entries(&self) -> &[Entry]
        ensures { result.now ≡ self.now.entries.items }
    {
        &self.entries
    }

    /// Adds an entry, where there is memory for it.
    pub fn add(&mut self, entry: Entry) -> bool
        ensures entries { MatchBool result (self.new.entries.items ≡ self.old.entries.items ++ entry ∷ []) (self.new.entries.items ≡ self.old.entries.items) }
        ensures base { self.new.base ≡ self.old.base }
    {
        self.entries.push(entry).is_ok()
    }
}
