//! Documents that are kept flat: a document's PYX text, in pieces on the pages of a space.
//!
//! Page 0 has the text's length and its beginning, each later page the next bytes. Contracts see the pages by their numbers:
//! they stand for a document (`StandsForFlat`) where those that the text takes are there, of kind 1, and the text spells it.
//! `put_flat` writes a document's canonical text into pages as it is made; `get_flat` looks at all pages that the text takes,
//! and then reads it line by line. A page of which nothing is known is needed; a page 0 that refers to one that is absent, or
//! whose text is no document's, is damaged, and so is a page of another kind. No memory is taken by the length that page 0
//! states.
#![tactic(auto)]

mod cuts;
mod flat;
mod forms;
mod laws;
mod lines;
mod pieces;
mod putting;
mod reading;
mod sink;
mod typed;

pub use flat::{get_flat, put_flat};
pub use laws::flat_laws;
