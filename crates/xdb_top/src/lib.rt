//! The tool's commands over any source and sink.
//!
//! `tool` does what the words say, and its contract says what comes of it, whatever source and sink are:
//! each status but 6 comes exactly where the contract says. `pyx` writes the canonical text of the document that
//! the input spells. `play` runs the calls of a script in the stated order over documents in memory and writes
//! the journal, which is one legal history of the script's sessions. No device takes part in it: each answer is a
//! right one by the session's state and the documents that it sees, or want of memory. No other event comes between
//! the grant of a call's locks and what closes the call. Where memory was wanting before the end, the journal is of the
//! first calls in their order; where no call was answered so, a whole journal is a function of the script
//! (`plays_without_want_are_one`). A journal of `play`, whole or in part, is one as programs print them, so that its text
//! tells it. Nothing is written with a status other than 0, but a prefix with 5.
#![tactic(auto)]

mod command;
mod commands;
mod fault;
mod input;
mod laws;
mod play;
mod typed;

pub use commands::{TopEnd, end_of, tool};
pub use fault::{INPUT_BYTES_MAX, InputFault, InputRefusal, TopFault};
pub use laws::{all_calls_have_their_turn, played_scripts_are_legal, plays_without_want_are_one};
