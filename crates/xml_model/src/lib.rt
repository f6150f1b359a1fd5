//! Documents: trees of elements, attributes, texts and instructions, and what is meant by them.
//!
//! Contracts see a `Node`, an `Attr` and a `Doc` as plain values. The definitions that every crate
//! above rests on stand here: which documents are valid (`Document`), places and their order
//! (`Place`), how lines of PYX are read (`Pyx`) and which lines spell which nodes (`Spelling`), with
//! the laws between them (`pyx_is_read_again`, `what_is_read_is_valid`, `read_just_where_spelled`,
//! `what_is_counted`), what a statement says of a forest and does to it (`Forest`, `Statement`, with
//! `other_statements_keep_forests`), the locks that a call needs (`Needs`, with
//! `calls_keep_to_their_needs` and `queries_keep_to_their_needs`), and what a query means
//! (`Evaluation`, with `what_a_query_constructs_is_well_formed`, `lines_of_answers_are_plain` and
//! `queries_end_with_their_codes`), which edits an update asks for and the forest after it (`Edits`,
//! with `updates_end_with_their_codes`), and what edits make of a document (`Rebuild`, with
//! `edited_documents_are_valid`). A `DocMap` is a forest, and `DocChanges` are changes that leave
//! one: both keep that each document in them is valid and each name a document's name.
//! Nothing is refused here: a call ends with its answer or, where it takes memory, `NoMemory`.
#![tactic(auto)]

mod call_needs;
mod changes;
mod copy;
mod edit;
mod edit_laws;
mod forest;
mod laws;
mod layers;
mod limits;
mod measure;
mod nav;
mod node;
mod place;
mod text_lines;
mod tree_nav;
mod tree_rows;
mod valid;
mod value;

pub use call_needs::needs;
pub use changes::DocChanges;
pub use edit::{DocEdits, DocEditsList, Edit, EditKind, EditList};
pub use edit_laws::edited_documents_are_valid;
pub use forest::DocMap;
pub use laws::{
    calls_keep_to_their_needs, canonical_text_is_read_again, lines_of_answers_are_plain,
    other_statements_keep_forests, pyx_is_read_again, queries_end_with_their_codes,
    queries_keep_to_their_needs, read_just_where_spelled, updates_end_with_their_codes,
    what_a_query_constructs_is_well_formed, what_is_counted, what_is_read_is_valid,
};
pub use limits::{DEPTH_MAX, ITEMS_MAX, NODES_MAX, REPLY_BYTES_MAX, TEXT_BYTES_MAX};
pub use nav::{Id, NUMBER_MAX, Nav, NavEnd};
pub use node::{Attr, AttrList, Doc, Measure, Node, NodeList, RefusedLine};
pub use place::{Place, PlaceStep, place_order};
pub use text_lines::{FirstLine, first_line};
pub use tree_nav::{NoFault, TreeNav};
pub use tree_rows::{PlacedRef, TreeRows};
pub use valid::has_attribute;
pub use value::{Atom, Key, KeyType, SharedText};
pub use xq_ast::{NAME_BYTES_MAX, is_name};
