//! Documents as trees.
use xq_ast::{Items, NoMemory, PyxRefusal, Sequence, Str};

/// Child nodes, in document order.
pub type NodeList = Items<Node>;

/// Attributes, in the order in which they were added.
pub type AttrList = Sequence<Attr>;

/// An attribute.
#[derive(Debug, Drop)]
pub struct Attr {
    pub name: Str,
    pub value: Str,
}

/// A node that stands in a list of children.
#[derive(Debug, Drop)]
pub enum Node {
    Element {
        name: Str,
        attrs: AttrList,
        kids: NodeList,
    },
    Text {
        value: Str,
    },
    /// A processing instruction.
    Pi {
        target: Str,
        value: Str,
    },
}

/// A document: any list of top nodes.
#[derive(Debug, Drop)]
pub struct Doc {
    pub kids: NodeList,
}

/// What a document or a node measures. A number that would be past its type's last value stays there.
#[derive(Clone, Copy, Debug, PartialEq, Eq)]
pub struct Measure {
    /// The most elements that stand in one another.
    pub depth: u32,
    /// All nodes, attributes among them, without a document itself.
    pub nodes: u64,
    /// The bytes of all values.
    pub bytes: u64,
}

/// Why a list of PYX lines is refused, and at which line, from 1.
#[derive(Clone, Copy, Debug, PartialEq, Eq)]
pub struct RefusedLine {
    pub why: PyxRefusal,
    pub line: u64,
}
