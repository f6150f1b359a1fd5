//! Why locks were not granted.
ghost use Rattle.std.specs.Prelude.{◌≡◌};

use thiserror::Error;
use xq_ast::{NoMemory, Str};

/// Why `ask` granted nothing.
#[derive(Debug, Drop, Error)]
pub enum AskEnd {
    /// The first name in conflict, and the least session that holds a lock in conflict on it.
    #[error("{name:?} is held by {holder}")]
    Held { name: Str, holder: u32 },

    /// There was no memory. The call may be made again.
    #[error("no memory")]
    NoMemory,
}

impl From<NoMemory> for AskEnd {
    ghost use Rattle.doc_locks.specs.declared.end.AskEnd.TheVariants.{NoMemory as out_of_memory};

    ghost from_gives = { λ _ end. end ≡ out_of_memory };

    fn from(_error: NoMemory) -> AskEnd {
        AskEnd::NoMemory
    }
}
