//! Scripts of sessions and journals as texts.
//!
//! `read_script` gives the script that bytes spell, or the first refusal with its line (`Scripts`).
//! A script is the calls of each session, and an order of sessions; a call is its text and, of a
//! LOAD, its PYX lines. `write_journal` writes the text of a journal (`JournalText`): one line an
//! event, and after an answer its lines. It takes no memory and goes to the sink in large pieces.
//! `read_journal` gives the journal that bytes are the text of, or none where they are the text of
//! no journal as programs print them; a text determines its journal but for what it does not tell.
#![tactic(auto)]

mod journals;
mod laws;
mod limits;
mod scripts;

pub use journals::reading::read_journal;
pub use journals::writing::write_journal;
pub use laws::{a_text_tells_its_journal, scripts_are_read_again};
pub use limits::{CALLS_MAX, SESSIONS_MAX};
pub use scripts::by_lines::read_script;
pub use scripts::fault::{RefusedScript, ScriptFault, ScriptRefusal};
pub use scripts::session_calls::{CallTextList, CallTextListList, NumberList, Script};
