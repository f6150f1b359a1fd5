//! How deep and how large a document or a node is.
ghost use Rattle.std.specs.Prelude.{◌≡◌, min, ◌-◌, ◌^◌};
ghost use Rattle.xml_model.specs.Trees.{count_node, count_of, bytes_node, bytes_of, depth_node, depth_of, value_bytes};

use crate::node::{AttrList, Doc, Measure, Node, NodeList};

fn attr_bytes(attrs: &AttrList) -> u64
    ensures { result ≡ min (value_bytes attrs.now) (2 ^ 64 - 1) }
{
    let mut all: u64 = 0;
    for attr in attrs.as_slice() {
        all = all.saturating_add(attr.value.len() as u64);
    }
    all
}

#[cycle(count)]
fn count_nodes(nodes: &NodeList) -> u64
    ensures { result ≡ min (count_of nodes.now) (2 ^ 64 - 1) }
{
    let mut all: u64 = 0;
    for node in nodes.as_slice() {
        all = all.saturating_add(count_node(node));
    }
    all
}

#[cycle(count)]
fn count_node(node: &Node) -> u64
    ensures { result ≡ min (count_node node.now) (2 ^ 64 - 1) }
{
    match node {
        Node::Element { attrs, kids, .. } => {
            let own = (attrs.len() as u64).saturating_add(1);
            own.saturating_add(count_nodes(kids))
        }
        Node::Text { .. } => 1,
        Node::Pi { .. } => 1,
    }
}

#[cycle(bytes)]
fn bytes_in(nodes: &NodeList) -> u64
    ensures { result ≡ min (bytes_of nodes.now) (2 ^ 64 - 1) }
{
    let mut all: u64 = 0;
    for node in nodes.as_slice() {
        all = all.saturating_add(bytes_in_node(node));
    }
    all
}

#[cycle(bytes)]
fn bytes_in_node(node: &Node) -> u64
    ensures { result ≡ min (bytes_node node.now) (2 ^ 64 - 1) }
{
    match node {
        Node::Element { attrs, kids, .. } => attr_bytes(attrs).saturating_add(bytes_in(kids)),
        Node::Text { value } => value.len() as u64,
        Node::Pi { value, .. } => value.len() as u64,
    }
}

#[cycle(depth)]
fn depth_in(nodes: &NodeList) -> u32
    ensures { result ≡ min (depth_of nodes.now) (2 ^ 32 - 1) }
{
    let mut most: u32 = 0;
    for node in nodes.as_slice() {
        most = most.max(depth_in_node(node));
    }
    most
}

#[cycle(depth)]
fn depth_in_node(node: &Node) -> u32
    ensures { result ≡ min (depth_node node.now) (2 ^ 32 - 1) }
{
    match node {
        Node::Element { kids, .. } => depth_in(kids).saturating_add(1),
        Node::Text { .. } => 0,
        Node::Pi { .. } => 0,
    }
}

impl Doc {
    /// How deep the document is, how many nodes and how many bytes of values it has. Takes no memory.
    pub fn measure(&self) -> Measure
        ensures depth { result.depth ≡ min (depth_of self.now.kids) (2 ^ 32 - 1) }
        ensures nodes { result.nodes ≡ min (count_of self.now.kids) (2 ^ 64 - 1) }
        ensures bytes { result.bytes ≡ min (bytes_of self.now.kids) (2 ^ 64 - 1) }
    {
        Measure {
            depth: depth_in(&self.kids),
            nodes: count_nodes(&self.kids),
            bytes: bytes_in(&self.kids),
        }
    }
}

impl Node {
    /// How deep the node is, itself counted, how many nodes it is with all that stands in it and how
    /// many bytes of values it has. Takes no memory.
    pub fn measure(&self) -> Measure
        ensures depth { result.depth ≡ min (depth_node self.now) (2 ^ 32 - 1) }
        ensures nodes { result.nodes ≡ min (count_node self.now) (2 ^ 64 - 1) }
        ensures bytes { result.bytes ≡ min (bytes_node self.now) (2 ^ 64 - 1) }
    {
        Measure {
            depth: depth_in_node(self),
            nodes: count_node(self),
            bytes: bytes_in_node(self),
        }
    }
}
