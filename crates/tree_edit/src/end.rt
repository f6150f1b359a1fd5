//! How the edits of a document end without a new one.
use std::alloc::AllocError;
use xq_ast::{Code, NoMemory};

/// The first limit that the new document would be past, or want of memory.
#[derive(Clone, Copy, Debug, PartialEq, Eq, Drop, thiserror::Error)]
pub enum EditEnd {
    /// `TooDeep`, `TooManyNodes` or `TooMuchText`.
    #[error("the document would be past a limit")]
    Code(Code),
    #[error("there was no memory")]
    NoMemory,
}

impl From<NoMemory> for EditEnd {
    ghost use Rattle.std.specs.Prelude.{◌≡◌};
    ghost use Rattle.tree_edit.specs.declared.end.EditEnd.TheVariants.{NoMemory};

    ghost from_gives = { λ _ e. e ≡ NoMemory };

    fn from(_: NoMemory) -> EditEnd {
        EditEnd::NoMemory
    }
}

impl From<AllocError> for EditEnd {
    ghost use Rattle.std.specs.Prelude.{◌≡◌};
    ghost use Rattle.tree_edit.specs.declared.end.EditEnd.TheVariants.{NoMemory};

    ghost from_gives = { λ _ e. e ≡ NoMemory };

    fn from(_: AllocError) -> EditEnd {
        EditEnd::NoMemory
    }
}
