//! The targets of an update.
ghost use Rattle.std.specs.Prelude.{◌≡◌, ◌++◌, ◌∷◌, [], Ok, Err, map, IfOk, OnOk, MatchResult};
ghost use Rattle.std.specs.List.{filter_map};
ghost use Rattle.xml_model.specs.Edits as spec;
ghost use Rattle.xml_model.specs.Nav.{Stored};
ghost use Rattle.xml_model.specs.declared.nav.Id.{Id};
ghost use Rattle.xq_edits.specs.Targets.{nodes_in_trees, stored_id};
ghost use Rattle.xq_nodes.specs.Answers.{Looks};
ghost use Rattle.xq_values.specs.Gives.{Gives};
ghost use Rattle.xq_values.specs.Seen.{item_seen, node_seen};

use std::alloc::Global;
use xml_model::{Id, Nav};
use xq_ast::{Code, NoMemory, Sequence};
use xq_nodes::{EvalEnd, IdList, NodeIds, in_order};
use xq_values::{Item, NodeId, ValueEnd};

fn stored_id(node: &NodeId) -> Option<Id>
    ensures { result ≡ stored_id node.now }
{
    match node {
        NodeId::Stored { id } => Some(*id),
        NodeId::Made { .. } => None,
    }
}

// The node of a document that an item is, else XPTY0004.
fn stored_node(item: &Item) -> Result<Id, Code>
    ensures { (place : Id → Stored) → MatchResult result (λ id. spec.stored_node (item_seen place item.now) ≡ Ok (place id)) (λ code. spec.stored_node (item_seen place item.now) ≡ Err code) }
{
    match item {
        Item::Node { id } => stored_id(id).ok_or(Code::XPTY0004),
        Item::Text { .. } => Err(Code::XPTY0004),
        Item::Int { .. } => Err(Code::XPTY0004),
        Item::Truth { .. } => Err(Code::XPTY0004),
    }
}

// The nodes of documents that the items are, else XPTY0004.
fn stored_nodes(alloc: Global, items: &[Item]) -> Result<NodeIds, ValueEnd>
    ensures { (place : Id → Stored) → Gives (map (node_seen place)) result (nodes_in_trees (map (item_seen place) items.now)) }
{
    let mut nodes = Sequence::new(alloc);
    for item in items {
        let id = stored_node(item)?;
        nodes.push(NodeId::Stored { id })?;
    }
    Ok(nodes)
}

// Adds the id of a node of a document.
fn add_stored(ids: &mut IdList, node: &NodeId) -> Result<(), NoMemory>
    ensures { OnOk result (ids.new ≡ ids.old ++ filter_map stored_id (node.now ∷ [])) }
{
    match stored_id(node) {
        Some(id) => ids.push(id),
        None => Ok(()),
    }
}

// The ids of those that are nodes of documents.
fn stored_ids(alloc: Global, nodes: &[NodeId]) -> Result<IdList, NoMemory>
    ensures { IfOk result (λ ids. ids ≡ filter_map stored_id nodes.now) }
{
    let mut ids = Sequence::new(alloc);
    for node in nodes {
        add_stored(&mut ids, node)?;
    }
    Ok(ids)
}

/// The nodes among which an update makes its changes: in document order, each once. An item that
/// is no stored node is XPTY0004.
pub fn targets_of<N: Nav>(
    alloc: Global,
    nav: &N,
    items: &[Item],
) -> Result<IdList, EvalEnd<N::Fault>>
    ensures { Looks (N.honest nav.now) (N.passes nav.now) (map (N.place nav.now)) result (spec.targets_of (map (item_seen (N.place nav.now)) items.now)) }
{
    let nodes = stored_nodes(alloc, items)?;
    let ordered = in_order(alloc, nav, nodes)?;
    Ok(stored_ids(alloc, ordered.as_slice())?)
}
