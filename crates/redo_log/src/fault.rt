//! Why a record was not read.
ghost use Rattle.std.specs.Prelude.{◌≡◌};
ghost use Rattle.redo_log.specs.declared.fault.ReadEnd.TheVariants.{NoMemory as no_memory};

use std::alloc::{AllocError, AllocFailed};
use xq_ast::NoMemory;

/// Why a field was not read.
#[derive(Debug, Drop)]
pub enum ReadEnd {
    /// The first wrong field begins where so many bytes of the file are left.
    Wrong(usize),
    /// There was no memory.
    NoMemory,
}

impl From<NoMemory> for ReadEnd {
    ghost from_gives = { λ _ end. end ≡ no_memory };

    fn from(_error: NoMemory) -> ReadEnd {
        ReadEnd::NoMemory
    }
}

impl From<page_bytes::NoMemory> for ReadEnd {
    ghost from_gives = { λ _ end. end ≡ no_memory };

    fn from(_error: page_bytes::NoMemory) -> ReadEnd {
        ReadEnd::NoMemory
    }
}

impl From<AllocError> for ReadEnd {
    ghost from_gives = { λ _ end. end ≡ no_memory };

    fn from(_error: AllocError) -> ReadEnd {
        ReadEnd::NoMemory
    }
}

impl<T: Drop> From<AllocFailed<T>> for ReadEnd {
    ghost from_gives = { λ _ end. end ≡ no_memory };

    fn from(_error: AllocFailed<T>) -> ReadEnd {
        ReadEnd::NoMemory
    }
}
