//! Tests of sessions: locks, the history, the calls of a session, scripts and the commands.
//!
//! They call the crates below as any caller does, so those crates are proved once, without tests of their own. What a
//! script and its journal can show stands in pairs of files and not here.
#![tactic(auto)]

#[cfg(test)]
mod doc_locks_calls;
#[cfg(test)]
mod script_text_calls;
#[cfg(test)]
mod session_core_calls;
#[cfg(test)]
mod session_run_calls;
#[cfg(test)]
mod xdb_top_calls;
