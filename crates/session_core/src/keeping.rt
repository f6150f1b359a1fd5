// Sessions over documents in memory, with the journal of what happened.
pub(crate) mod calls;
pub(crate) mod sessions;
pub(crate) mod states;
