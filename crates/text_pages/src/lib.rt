//! Texts on text pages: byte strings of any length, each named by a reference.
//!
//! The model is a finite map from references to byte strings. A text stands in pieces of at most 4,074 bytes; each piece
//! has a reference to the next, and each text page has slots that lead to its pieces. The calls are `put`, `get`,
//! `replace` and `remove`. Each that changes something says which pages it writes, byte by byte (`pages`), and what it
//! does to the map that the pages mean (`meaning`). Pages are tested before they are believed, so over pages without a
//! meaning the calls answer Need, Damaged or Spent for a cause that `pages` tells; the one free answer is want of memory.
//! Over pages of any bytes a call that gives Ok keeps to its own (`own`): it changes text pages alone, fresh and freed
//! ones among them, the head's page that is tried first, and the head's next page number, which rises by one at most for
//! each byte that is given. Where the pages are in the form of texts, all pieces but those of the text that goes stay as
//! they were (`keeping_laws`).
#![tactic(auto)]

mod finding;
mod forms;
mod laws;
mod putting;
mod reading;
mod replacing;
mod slots;
mod taking;
mod texts;
mod writing;

pub use laws::{frame_law, keeping_laws};
pub use texts::{get, put, remove, replace};
