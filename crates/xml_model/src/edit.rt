//! Edits: what an update does at the places of documents.
use crate::node::{AttrList, NodeList};
use xq_ast::{Sequence, Str};

/// What is done at a place.
#[derive(Debug, Drop)]
pub enum EditKind {
    /// The attributes go after the last attribute, the nodes after the last child.
    Into { attrs: AttrList, kids: NodeList },
    /// The nodes go before what stands there.
    Before { kids: NodeList },
    /// The nodes go after it.
    After { kids: NodeList },
    /// It goes, with all that stands in it.
    Delete,
    /// It goes, and its children stay in its place.
    Undeep,
    /// In place of an attribute stand the attributes, and in place of a child the nodes.
    Put { attrs: AttrList, kids: NodeList },
    /// An element or attribute gets this name, and an instruction this target.
    Rename { name: Str },
}

/// An edit: its place, and what is done there.
#[derive(Debug, Drop)]
pub struct Edit {
    /// The number of the node in its document, as in `Id`.
    pub at: u32,
    pub what: EditKind,
}

/// Edits, in the order of their places.
pub type EditList = Sequence<Edit>;

/// The edits of one document.
#[derive(Debug, Drop)]
pub struct DocEdits {
    /// The document's name.
    pub name: Str,
    pub edits: EditList,
}

/// The edits of an update: one entry for each document with a target, in the order of the names.
pub type DocEditsList = Sequence<DocEdits>;
