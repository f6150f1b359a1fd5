//! One session's calls over a `Core`: each is read, decided by the session's state, asks for its
//! locks, runs, and is closed by one event of the journal.
//!
//! Contracts see a `Session` as its number and the changes of its open transaction, and a `Core` as
//! its journal over a base. `call_on` makes one call, and answers its `Outcome`: what the call's
//! closing event says, but for an answer's lines. Its contract says which events close a call of
//! that text, that each answer is a right one by the session's state and the documents that it sees,
//! that the session may make its next call, and that no other session is touched. No device takes
//! part: no answer comes from a store's faults or numbers, and no commit comes into doubt.
//! `leave_on` ends a script. What is refused, and in which order, is told by the journal, which
//! stays legal so far. Want of memory is an answer of its own; where even that cannot be written,
//! `call_on` answers `NoMemory`.
#![tactic(auto)]

mod answering;
mod changes;
mod locking;
mod outcome;
mod query;
mod running;
mod session;
mod statement;
mod table;
mod transaction;
mod update;

pub use outcome::Outcome;
pub use session::Session;
