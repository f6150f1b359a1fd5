//! Edits of plain trees: a new document from an old one and the edits of an update.
//!
//! `apply` walks over the document once, in document order, with a spot that counts the nodes and
//! goes along the edits, which are in the order of their places. So it takes time linear in the
//! document and its edits. What it makes shares nothing with the document that it was given. It is
//! proved to give what `Rebuild` of `xml_model` says: empty texts go, neighbouring texts are joined
//! once all edits are applied, and then the limits are tested.
//!
//! It refuses a document that would be past a limit (`TooDeep`, `TooManyNodes`, `TooMuchText`), and
//! may answer `NoMemory`.
//!
//! ```text
//! let doc = tree_edit::apply(alloc, &doc, &edits)?;
//! ```
#![tactic(auto)]

mod attributes;
mod copies;
mod document;
mod end;
mod kids;
mod nodes;
mod spot;

pub use document::apply;
pub use end::EditEnd;
