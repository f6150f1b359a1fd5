//! PYX text: documents as lines, both ways.
//!
//! Contracts see a `PyxReader` as what has been read so far, or as the first refusal. `line` takes a line
//! as the definition `Pyx` says, and `end` gives the document. `write_doc` writes a document's canonical
//! text to a sink, and `lines_of` lists its canonical lines; `push_node`, `push_nodes`, `attribute_line` and
//! `value_line` list those of parts of answers.
//! A line is refused, with its number, that is of no kind, has a bad name, ends another element than the
//! innermost, has a late or repeated attribute, or passes a limit; and the end, where an element is open
//! (`PyxRefusal`). A refusal stays. After `NoMemory` a line counts as not given.
#![tactic(auto)]

mod edits;
mod escape;
mod fault;
mod lines;
mod listing;
mod open_tag;
mod places;
mod progress;
mod reader;
mod room;
mod write;

pub use fault::PyxFault;
pub use listing::{attribute_line, lines_of, push_node, push_nodes, value_line};
pub use reader::PyxReader;
pub use write::write_doc;
