//! What stands in the place of nodes.
ghost use Rattle.std.specs.Prelude.{◌≡◌, ◌+◌, ◌<◌, ◌^◌, length, OnOk, IfOk};
ghost use Rattle.std.specs.Option.{option_copied};
ghost use Rattle.xml_model.specs.Trees.{count_node, count_of};
ghost use Rattle.xml_model.specs.Rebuild.{edited_element, edited_leaf};
ghost use Rattle.tree_edit.specs.Numbered.{look, IsAt, numbered_attributes, numbered_node, numbered_nodes};
ghost use Rattle.tree_edit.specs.Tidy as spec;

use crate::attributes::edit_attributes;
use crate::copies::{push_attrs, push_copies, push_copy, push_renamed};
use crate::kids::Kids;
use crate::spot::{Spot, edit_here, skip};
use std::alloc::Global;
use xml_model::{AttrList, Edit, EditKind, Node, NodeList};
use xq_ast::{NoMemory, Str};

/// What stands in an element: its attributes, and its children as they come.
#[derive(Debug, Drop)]
struct Parts {
    attrs: AttrList,
    kids: Kids,
}

// The element of these parts comes.
fn push_element(alloc: Global, name: &Str, parts: Parts, out: &mut Kids) -> Result<(), NoMemory>
    ensures { OnOk result (out.new ≡ spec.with_element out.old name.now parts.attrs parts.kids) }
{
    let Parts { attrs, kids } = parts;
    let name = name.copy()?;
    let kids = kids.finish()?;
    out.push_other(alloc, Node::Element { name, attrs, kids })
}

// What stands in the place of a text or an instruction comes.
#[tactic(auto, using(crate::proofs::Comes::with_nodes_append))]
fn edit_leaf(
    alloc: Global,
    node: &Node,
    what: Option<&EditKind>,
    out: &mut Kids,
) -> Result<(), NoMemory>
    ensures { OnOk result (out.new ≡ spec.with_nodes out.old (edited_leaf node.now (spec.renamed_leaf node.now) (option_copied what.entry))) }
{
    match what {
        Some(EditKind::Delete) => Ok(()),
        Some(EditKind::Undeep) => Ok(()),
        Some(EditKind::Put { kids, .. }) => push_copies(alloc, kids, out),
        Some(EditKind::Rename { name }) => push_renamed(alloc, node, name, out),
        Some(EditKind::Before { kids }) => {
            push_copies(alloc, kids, out)?;
            push_copy(alloc, node, out)
        }
        Some(EditKind::After { kids }) => {
            push_copy(alloc, node, out)?;
            push_copies(alloc, kids, out)
        }
        Some(EditKind::Into { .. }) => push_copy(alloc, node, out),
        None => push_copy(alloc, node, out),
    }
}

// How many nodes these are, with all that stands in them.
fn count_nodes(nodes: &NodeList) -> u32
    requires { count_of nodes.now < 2 ^ 32 }
    ensures { result ≡ count_of nodes.now }
{
    let mut all: u32 = 0;
    for node in nodes.as_slice() {
        all += node.measure().nodes as u32;
    }
    all
}

// What stands in an element, whose first attribute or child is the next node.
#[cycle(edit)]
fn edit_parts(
    alloc: Global,
    edits: &[Edit],
    attrs: &AttrList,
    kids: &NodeList,
    spot: &mut Spot,
) -> Result<Parts, NoMemory>
    requires at { IsAt edits.now spot.old.number spot.old.next }
    requires room { spot.old.number + length attrs.now + count_of kids.now < 2 ^ 32 }
    ensures attrs { IfOk result (λ p. p.attrs ≡ numbered_attributes (look edits.now) spot.old.number attrs.now) }
    ensures kids { IfOk result (λ p. p.kids ≡ spec.with_nodes spec.no_kids (numbered_nodes (look edits.now) kids.now (spot.old.number + length attrs.now))) }
    ensures number { OnOk result (spot.new.number ≡ spot.old.number + length attrs.now + count_of kids.now) }
    ensures at { OnOk result (IsAt edits.now spot.new.number spot.new.next) }
{
    let attrs = edit_attributes(alloc, edits, attrs, spot)?;
    let mut made = Kids::new(alloc);
    edit_nodes(alloc, edits, kids, spot, &mut made)?;
    Ok(Parts { attrs, kids: made })
}

// What stands in the place of an element comes.
#[cycle(edit)]
#[tactic(auto, using(crate::proofs::Comes::comings))]
fn edit_element(
    alloc: Global,
    edits: &[Edit],
    name: &Str,
    attrs: &AttrList,
    kids: &NodeList,
    what: Option<&EditKind>,
    spot: &mut Spot,
    out: &mut Kids,
) -> Result<(), NoMemory>
    requires at { IsAt edits.now spot.old.number spot.old.next }
    requires room { spot.old.number + length attrs.now + count_of kids.now < 2 ^ 32 }
    ensures made { OnOk result (out.new ≡ spec.with_nodes out.old (edited_element name.now (numbered_attributes (look edits.now) spot.old.number attrs.now) (numbered_nodes (look edits.now) kids.now (spot.old.number + length attrs.now)) (option_copied what.entry))) }
    ensures number { OnOk result (spot.new.number ≡ spot.old.number + length attrs.now + count_of kids.now) }
    ensures at { OnOk result (IsAt edits.now spot.new.number spot.new.next) }
{
    match what {
        Some(EditKind::Delete) => {
            let inside = attrs.len() as u32 + count_nodes(kids);
            skip(edits, spot, inside);
            Ok(())
        }
        Some(EditKind::Put { kids: others, .. }) => {
            let inside = attrs.len() as u32 + count_nodes(kids);
            skip(edits, spot, inside);
            push_copies(alloc, others, out)
        }
        Some(EditKind::Undeep) => {
            skip(edits, spot, attrs.len() as u32);
            edit_nodes(alloc, edits, kids, spot, out)
        }
        Some(EditKind::Before { kids: others }) => {
            push_copies(alloc, others, out)?;
            let parts = edit_parts(alloc, edits, attrs, kids, spot)?;
            push_element(alloc, name, parts, out)
        }
        Some(EditKind::After { kids: others }) => {
            let parts = edit_parts(alloc, edits, attrs, kids, spot)?;
            push_element(alloc, name, parts, out)?;
            push_copies(alloc, others, out)
        }
        Some(
            EditKind::Into {
                attrs: more_attrs,
                kids: more,
            },
        ) => {
            let mut parts = edit_parts(alloc, edits, attrs, kids, spot)?;
            push_attrs(more_attrs, &mut parts.attrs)?;
            push_copies(alloc, more, &mut parts.kids)?;
            push_element(alloc, name, parts, out)
        }
        Some(EditKind::Rename { name: other }) => {
            let parts = edit_parts(alloc, edits, attrs, kids, spot)?;
            push_element(alloc, other, parts, out)
        }
        None => {
            let parts = edit_parts(alloc, edits, attrs, kids, spot)?;
            push_element(alloc, name, parts, out)
        }
    }
}

// What stands in the place of the next node comes.
#[cycle(edit)]
#[tactic(auto, using(crate::proofs::Comes::renamings, crate::proofs::ByNumber::variants))]
fn edit_node(
    alloc: Global,
    edits: &[Edit],
    node: &Node,
    spot: &mut Spot,
    out: &mut Kids,
) -> Result<(), NoMemory>
    requires at { IsAt edits.now spot.old.number spot.old.next }
    requires room { spot.old.number + count_node node.now < 2 ^ 32 }
    ensures made { OnOk result (out.new ≡ spec.with_nodes out.old (numbered_node (look edits.now) node.now spot.old.number)) }
    ensures number { OnOk result (spot.new.number ≡ spot.old.number + count_node node.now) }
    ensures at { OnOk result (IsAt edits.now spot.new.number spot.new.next) }
{
    let what = edit_here(edits, spot);
    match node {
        Node::Element { name, attrs, kids } => {
            edit_element(alloc, edits, name, attrs, kids, what, spot, out)
        }
        Node::Text { .. } => edit_leaf(alloc, node, what, out),
        Node::Pi { .. } => edit_leaf(alloc, node, what, out),
    }
}

/// What stands in the place of nodes comes, the first of which is the next node.
#[cycle(edit)]
#[tactic(auto, using(crate::proofs::ByNumber::one_more))]
pub fn edit_nodes(
    alloc: Global,
    edits: &[Edit],
    nodes: &NodeList,
    spot: &mut Spot,
    out: &mut Kids,
) -> Result<(), NoMemory>
    requires at { IsAt edits.now spot.old.number spot.old.next }
    requires room { spot.old.number + count_of nodes.now < 2 ^ 32 }
    ensures made { OnOk result (out.new ≡ spec.with_nodes out.old (numbered_nodes (look edits.now) nodes.now spot.old.number)) }
    ensures number { OnOk result (spot.new.number ≡ spot.old.number + count_of nodes.now) }
    ensures at { OnOk result (IsAt edits.now spot.new.number spot.new.next) }
{
    for node in nodes.as_slice() {
        edit_node(alloc, edits, node, spot, out)?;
    }
    Ok(())
}
