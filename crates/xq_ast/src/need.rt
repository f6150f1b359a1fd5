//! Locks that a call needs.
use crate::sequence::Sequence;
use crate::text::Str;

/// Shared (`S`) or exclusive (`X`).
#[derive(Clone, Copy, Debug, PartialEq, Eq)]
pub enum LockMode {
    S,
    X,
}

/// A lock that a call needs: a document's name and the mode.
#[derive(Debug, Drop)]
pub struct Need {
    pub name: Str,
    pub mode: LockMode,
}

/// The locks that a call needs.
pub type NeedList = Sequence<Need>;
