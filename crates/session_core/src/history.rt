// The history of a run: its events, and the laws of legal journals.
pub(crate) mod event;
pub(crate) mod laws;
