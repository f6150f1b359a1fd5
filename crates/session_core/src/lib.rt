//! Sessions and their journal: what happened in a run, and when it is one legal history.
//!
//! The definitions that the product's promise rests on stand here: events (`History`),
//! transactions and the serial order (`Transactions`), states and locks (`States`), and the legal
//! history with its eight clauses (`Legal`). `a_legal_journal_grows` carries the theorem on strict
//! locking: what one event must meet (`Steps`) for the whole journal to stay legal. What a call is
//! answered (`Answering`) keeps it legal too, by `right_answers_keep_a_journal_legal`: the steps by
//! text, state and locks take the base's numbers alone, the step by the documents its forest.
//!
//! A `Core` runs sessions over documents in memory. Contracts see it as a journal over its base
//! (`Kept`). Its type keeps the journal legal so far, whole, and the documents behind each commit
//! valid: each call asks for what its event must meet and adds that one event, and after an error
//! all is as before. `begin_update` and
//! `begin_read` take the room of the event that ends the transaction, so that `end_read`,
//! `roll_back` and `left` take no memory. The states and the locks stand in tables, and the
//! documents behind each commit are kept, so no call walks the journal.
//!
//! `make_all` makes a list of such calls (`CoreCall`) one after another. The list has to meet the
//! conditions of its calls, the first now and each other behind whatever those before it make
//! (`CoreCalls`). Over every such list the journal stays legal so far, also where memory ends in
//! between.
#![tactic(auto)]

mod history;
mod keeping;

pub use history::event::{BeginKind, Event, Journal, Reply, Says, State};
pub use history::laws::{
    a_legal_journal_grows, an_empty_journal_is_legal, right_answers_keep_a_journal_legal,
};
pub use keeping::calls::CoreCall;
pub use keeping::sessions::Core;
