//! What a plan and a checkpoint answer in place of Ok.
ghost use Rattle.std.specs.Prelude.{◌≡◌};

use page_bytes::NoMemory;
use thiserror::Error;
use xq_ast::{NoMemory as NoText, SpentKind};

/// Why a plan is not made.
#[derive(Clone, Copy)]
pub enum PlanEnd {
    /// The next generation, slot or length of the log would be past the last one, which is `number`.
    Spent { kind: SpentKind, number: u64 },

    /// There was no memory.
    NoMemory,
}

impl From<NoMemory> for PlanEnd {
    ghost use Rattle.slot_store.specs.declared.end.PlanEnd.TheVariants.{NoMemory as out_of_memory};

    ghost from_gives = { λ _ end. end ≡ out_of_memory };

    fn from(_error: NoMemory) -> PlanEnd {
        PlanEnd::NoMemory
    }
}

impl From<NoText> for PlanEnd {
    ghost use Rattle.slot_store.specs.declared.end.PlanEnd.TheVariants.{NoMemory as out_of_memory};

    ghost from_gives = { λ _ end. end ≡ out_of_memory };

    fn from(_error: NoText) -> PlanEnd {
        PlanEnd::NoMemory
    }
}

/// Why a checkpoint was not made, or not surely.
#[derive(Clone, Copy, Debug, PartialEq, Eq, Error)]
pub enum CheckEnd {
    /// The next generation, slot or length of the log would be past the last one, which is `number`. No device call was made.
    #[error("{kind:?} is spent at {number}")]
    Spent { kind: SpentKind, number: u64 },

    /// The device failed before the head's gate was written. The store is as before.
    #[error("the device failed")]
    Failed,

    /// The device failed in the gate's write or in the sync after it. The new head may count or not.
    #[error("the head is in doubt")]
    Doubt,
}
