//! Whether a document is valid.
ghost use Rattle.std.specs.Prelude.{◌≡◌, [], ◌↔◌, IsTrue, false, map};
ghost use Rattle.xml_model.specs.Document as spec;
ghost use Rattle.xml_model.specs.Document.{IsValid, sibling};
ghost use Rattle.xml_model.specs.Trees as trees;

use crate::limits::{DEPTH_MAX, NODES_MAX, TEXT_BYTES_MAX};
use crate::node::{Attr, AttrList, Doc, Node, NodeList};
use std::alloc::Global;
use xq_ast::{Items, is_name};

/// Whether one of the attributes has this name.
pub fn has_attribute(attrs: &[Attr], name: &str) -> bool
    ensures { result ≡ trees.has_attribute name.now attrs.now }
{
    for attr in attrs {
        if attr.name.as_str() == name {
            return true;
        }
    }
    false
}

// Whether the names are names, and no two the same.
fn are_attributes(attrs: &AttrList) -> bool
    ensures { result ≡ spec.are_attributes attrs.now }
{
    let mut rest = attrs.as_slice();
    while let [first, others @ ..] = rest {
        if !is_name(first.name.as_str()) || has_attribute(others, first.name.as_str()) {
            return false;
        }
        rest = others;
    }
    true
}

fn is_text(node: &Node) -> bool
    ensures { result ≡ (sibling node.now).is_text }
{
    match node {
        Node::Element { .. } => false,
        Node::Text { .. } => true,
        Node::Pi { .. } => false,
    }
}

// Whether all nodes are well-formed, and no two neighbours are texts.
#[cycle(formed)]
fn are_formed(nodes: &NodeList) -> bool
    ensures { result ≡ spec.are_formed false (map sibling nodes.now) }
{
    let mut after = false;
    for node in nodes.as_slice() {
        let text = is_text(node);
        if (after && text) || !is_formed(node) {
            return false;
        }
        after = text;
    }
    true
}

#[cycle(formed)]
fn is_formed(node: &Node) -> bool
    ensures { result ≡ (sibling node.now).is_formed }
{
    match node {
        Node::Element { name, attrs, kids } => {
            is_name(name.as_str()) && (are_attributes(attrs) && are_formed(kids))
        }
        Node::Text { value } => !value.is_empty(),
        Node::Pi { target, .. } => is_name(target.as_str()),
    }
}

impl Doc {
    /// The document without nodes, which is valid. Takes no memory.
    pub fn empty(alloc: Global) -> Doc
        ensures empty { result.kids ≡ [] }
        ensures valid { IsValid result }
    {
        Doc {
            kids: Items::new(alloc),
        }
    }

    /// Whether the document is valid. Takes no memory, and time by the square of the number of
    /// attributes of one element.
    pub fn is_valid(&self) -> bool
        ensures { IsTrue result ↔ IsValid self.now }
    {
        let measure = self.measure();
        are_formed(&self.kids)
            && measure.depth as usize <= DEPTH_MAX
            && measure.nodes <= NODES_MAX
            && measure.bytes <= TEXT_BYTES_MAX
    }
}
