//! Which log counts, with its generation and its table, and whether a later head is in doubt.
ghost use Rattle.std.specs.Prelude.{◌≡◌};
ghost use Rattle.slot_store.specs.Logs.{file_of, other_log};

use crate::table::PageTable;
use page_device::Which;

/// One of the two logs.
#[derive(Clone, Copy, Debug, PartialEq, Eq)]
pub enum Log {
    A,
    B,
}

impl Log {
    /// The log's file.
    pub fn file(self) -> Which
        ensures { result ≡ file_of self }
    {
        match self {
            Log::A => Which::LogA,
            Log::B => Which::LogB,
        }
    }

    /// The other log, whose head the next checkpoint writes.
    pub fn other(self) -> Log
        ensures { result ≡ other_log self }
    {
        match self {
            Log::A => Log::B,
            Log::B => Log::A,
        }
    }
}

/// A head of the other log of which it is in doubt whether it counts.
#[derive(Drop)]
pub struct DoubtedHead {
    pub generation: u64,
    pub table: PageTable,
}

/// The head that counts: its log, its generation and its table. And the other log's head, where it is in doubt whether that
/// counts instead.
#[derive(Drop)]
pub struct SlotState {
    pub log: Log,
    pub generation: u64,
    pub table: PageTable,
    pub doubt: Option<DoubtedHead>,
}
