//! Changes of nodes, and content that comes.
use xml_model::{AttrList, EditKind, Id, NodeList};
use xq_ast::Sequence;

/// What is done to a node.
#[derive(Debug, Drop)]
pub struct Change {
    pub node: Id,
    pub what: EditKind,
}

/// Changes in document order, no two of one node.
pub type ChangeList = Sequence<Change>;

/// Content as in a constructor: attributes, no two of one name, and the nodes after them.
#[derive(Debug, Drop)]
pub struct NewContent {
    pub attrs: AttrList,
    pub kids: NodeList,
}

/// On which side of a node content is put.
#[derive(Clone, Copy, Debug, PartialEq, Eq)]
pub enum Side {
    Before,
    After,
}

/// What goes with a node that is deleted.
#[derive(Clone, Copy, Debug, PartialEq, Eq)]
pub enum Removal {
    /// All that stands in it.
    Whole,
    /// Its attributes; its children stay in its place.
    Undeep,
}
