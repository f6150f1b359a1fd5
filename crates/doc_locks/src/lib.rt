//! The locks on document names that sessions hold.
//!
//! A `LockTable` says which session holds which name in which mode: contracts see it as a finite map from sessions to
//! the names that each holds, with the modes. `ask` grants all needs of a call or none: all where no other session
//! holds a lock that conflicts, and else it names the first name in conflict and the least session that holds it.
//! `release` takes away one session's locks alone, and takes no memory. A name need not be one of a document.
//! `HeldNames` are names that have modes, each once with the strongest that was added; `into_needs` lists them.
//!
//! The table has one entry for a session, in the order in which the sessions first asked. `ask` looks each name up once
//! for each session in the table, so it never walks the names that are locked; `release` drops the session's own names.
#![tactic(auto)]

mod conflict;
mod end;
mod held;
mod table;

pub use end::AskEnd;
pub use held::HeldNames;
pub use table::LockTable;
