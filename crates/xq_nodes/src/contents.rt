//! Nodes in the content of a new element.
ghost use Rattle.std.specs.Prelude.{◌≡◌, Some, Ok, IfOk, IfErr, map, slice_get};
ghost use Rattle.std.specs.FinMap as forests;
ghost use Rattle.xml_model.specs.Constructors.{a_child, pieces_of};
ghost use Rattle.xml_model.specs.Place.{placed_from};
ghost use Rattle.xml_model.specs.Items.{node_at};
ghost use Rattle.xml_model.specs.TreeRows.{placed_by};
ghost use Rattle.xq_nodes.specs.Answers.{Looks, IsFault};
ghost use Rattle.xq_nodes.specs.Copies.{copied_as, standing_at};
ghost use Rattle.xq_values.specs.Contents as spec;
ghost use Rattle.xq_values.specs.Seen.{node_seen, made_seen};

use crate::constructed::stands_at;
use crate::copies::{Copied, copy};
use crate::end::EvalEnd;
use std::alloc::Global;
use std::collections::VecDeque;
use xml_model::{Id, Nav, Node, NodeList, PlacedRef};
use xq_ast::{Items, NoMemory};
use xq_values::{Content, MadePlace, MadeRoot, NodeId};

fn queue_of(alloc: Global, nodes: NodeList) -> Result<VecDeque<Node>, NoMemory>
    ensures { IfOk result (λ queue. queue.items ≡ nodes) }
{
    let mut queue = VecDeque::new(alloc);
    let mut left = nodes;
    while let Some(node) = left.pop() {
        queue.push_front(node)?;
    }
    Ok(queue)
}

// Each of the nodes comes.
fn with_nodes(alloc: Global, content: Content, nodes: NodeList) -> Result<Content, NoMemory>
    ensures { IfOk result (λ c. c ≡ spec.with_pieces content (map a_child nodes)) }
{
    let mut all = content;
    let mut left = queue_of(alloc, nodes)?;
    while let Some(node) = left.pop_front() {
        all = all.child(alloc, node)?;
    }
    Ok(all)
}

// A copy comes.
fn with_copy(alloc: Global, content: Content, copied: Copied) -> Result<Content, NoMemory>
    ensures { IfOk result (λ c. c ≡ spec.with_pieces content (pieces_of (Some (copied_as copied)))) }
{
    match copied {
        Copied::Document { kids } => with_nodes(alloc, content, kids),
        Copied::Node { node } => content.child(alloc, node),
        Copied::Attribute { attr } => content.attribute(alloc, attr),
    }
}

fn copy_placed(alloc: Global, it: PlacedRef) -> Result<Copied, NoMemory>
    ensures { IfOk result (λ c. copied_as c ≡ placed_by it.entry) }
{
    match it {
        PlacedRef::Document(doc) => Ok(Copied::Document {
            kids: doc.copy(alloc)?.kids,
        }),
        PlacedRef::Node(node) => Ok(Copied::Node {
            node: node.copy(alloc)?,
        }),
        PlacedRef::Attribute(attr) => Ok(Copied::Attribute { attr: attr.copy()? }),
    }
}

// What does not stand anywhere is copied as a document without nodes.
fn copy_made(alloc: Global, made: &[MadeRoot], at: &MadePlace) -> Result<Copied, NoMemory>
    ensures { IfOk result (λ c. pieces_of (Some (copied_as c)) ≡ pieces_of (placed_from at.now.place (slice_get (made_seen made.now) at.now.tree))) }
{
    match stands_at(made, at) {
        Some(it) => copy_placed(alloc, it),
        None => Ok(Copied::Document {
            kids: Items::new(alloc),
        }),
    }
}

fn copy_stored<N: Nav>(alloc: Global, nav: &N, n: Id) -> Result<Copied, EvalEnd<N::Fault>>
    ensures gives { IfOk result (λ c. N.honest nav.now → copied_as c ≡ standing_at (N.forest nav.now) (N.place nav.now n)) }
    ensures fault { IfErr result (IsFault (N.passes nav.now)) }
{
    Ok(copy(alloc, nav, n)?)
}

fn copy_of<N: Nav>(
    alloc: Global,
    nav: &N,
    made: &[MadeRoot],
    n: &NodeId,
) -> Result<Copied, EvalEnd<N::Fault>>
    ensures gives { IfOk result (λ c. N.honest nav.now → pieces_of (Some (copied_as c)) ≡ pieces_of (node_at (forests.get (N.forest nav.now)) (made_seen made.now) (node_seen (N.place nav.now) n.now))) }
    ensures fault { IfErr result (IsFault (N.passes nav.now)) }
{
    match n {
        NodeId::Stored { id } => copy_stored(alloc, nav, *id),
        NodeId::Made { at } => Ok(copy_made(alloc, made, at)?),
    }
}

/// A node comes to the content of a new element: it is copied, and a document gives its children.
pub fn with_node<N: Nav>(
    alloc: Global,
    nav: &N,
    made: &[MadeRoot],
    content: Content,
    n: &NodeId,
) -> Result<Content, EvalEnd<N::Fault>>
    ensures { Looks (N.honest nav.now) (N.passes nav.now) (λ c. c) result (Ok (spec.with_pieces (spec.at_node content) (pieces_of (node_at (forests.get (N.forest nav.now)) (made_seen made.now) (node_seen (N.place nav.now) n.now))))) }
{
    let copied = copy_of(alloc, nav, made, n)?;
    let all = with_copy(alloc, content.node(), copied)?;
    Ok(all)
}
