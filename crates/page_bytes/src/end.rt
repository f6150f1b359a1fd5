//! What a page call answers in place of a value.
ghost use Rattle.std.specs.Prelude.{◌≡◌};

use crate::ids::PageId;
use thiserror::Error;

/// There was no memory.
#[derive(Clone, Copy, Debug, PartialEq, Eq, Error)]
#[error("no memory")]
pub struct NoMemory;

/// Why a page call gave no value.
#[derive(Clone, Copy, Debug, PartialEq, Eq, Error)]
pub enum PageEnd {
    /// The call asked for a page that is neither in the set nor known as absent.
    #[error("{page:?} is needed")]
    Need { page: PageId },

    /// The page fails its form's test, or is known as absent where it was asked for.
    #[error("{page:?} is damaged")]
    Damaged { page: PageId },

    /// The next page number would be past the last one, which is `number`.
    #[error("page numbers are spent at {number}")]
    Spent { number: u64 },

    /// There was no memory.
    #[error("no memory")]
    NoMemory,
}

impl From<NoMemory> for PageEnd {
    ghost use Rattle.page_bytes.specs.declared.end.PageEnd.TheVariants.{NoMemory as out_of_memory};

    ghost from_gives = { λ _ end. end ≡ out_of_memory };

    fn from(_error: NoMemory) -> PageEnd {
        PageEnd::NoMemory
    }
}
