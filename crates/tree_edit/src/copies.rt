//! Copies of nodes and attributes that content brings.
ghost use Rattle.std.specs.Prelude.{◌≡◌, ◌++◌, OnOk};
ghost use Rattle.tree_edit.specs.Tidy as spec;

use crate::kids::Kids;
use std::alloc::Global;
use xml_model::{AttrList, Node, NodeList};
use xq_ast::{NoMemory, Str};

/// A copy of a node comes.
pub fn push_copy(alloc: Global, node: &Node, out: &mut Kids) -> Result<(), NoMemory>
    ensures { OnOk result (out.new ≡ spec.with_node out.old node.now) }
{
    match node {
        Node::Text { value } => out.push_text(value),
        Node::Element { .. } => out.push_other(alloc, node.copy(alloc)?),
        Node::Pi { .. } => out.push_other(alloc, node.copy(alloc)?),
    }
}

/// Copies of nodes come.
pub fn push_copies(alloc: Global, nodes: &NodeList, out: &mut Kids) -> Result<(), NoMemory>
    ensures { OnOk result (out.new ≡ spec.with_nodes out.old nodes.now) }
{
    for node in nodes.as_slice() {
        push_copy(alloc, node, out)?;
    }
    Ok(())
}

/// A text, or an instruction with another target, comes.
pub fn push_renamed(alloc: Global, node: &Node, name: &Str, out: &mut Kids) -> Result<(), NoMemory>
    ensures { OnOk result (out.new ≡ spec.with_node out.old (spec.renamed_leaf node.now name.now)) }
{
    match node {
        Node::Text { value } => out.push_text(value),
        Node::Element { .. } => out.push_other(alloc, node.copy(alloc)?),
        Node::Pi { value, .. } => {
            let target = name.copy()?;
            let value = value.copy()?;
            out.push_other(alloc, Node::Pi { target, value })
        }
    }
}

/// Copies of attributes go to the end.
pub fn push_attrs(attrs: &AttrList, out: &mut AttrList) -> Result<(), NoMemory>
    ensures { OnOk result (out.new ≡ out.old ++ attrs.now) }
{
    for attr in attrs.as_slice() {
        out.push(attr.copy()?)?;
    }
    Ok(())
}
