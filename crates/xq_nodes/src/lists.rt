//! Lists of nodes in document order without duplicates, of stored and of constructed trees.
ghost use Rattle.std.specs.Prelude.{◌≡◌, ◌+◌, ◌<◌, [], ◌∷◌, ◌++◌, Ok, IfOk, IfErr, OnOk, map, take, drop, slice_get};
ghost use Rattle.std.specs.Option.{option_copied};
ghost use Rattle.std.specs.VecDeque.{deque_len};
ghost use Rattle.xml_model.specs.DocumentOrder as orders;
ghost use Rattle.xml_model.specs.Nodes.{node_cmp};
ghost use Rattle.xq_nodes.specs.Answers.{Looks, IsFault};
ghost use Rattle.xq_nodes.specs.Uniting.{uniting, IsOrderOfFirsts};
ghost use Rattle.xq_values.specs.Seen.{node_seen};

use crate::end::EvalEnd;
use crate::joining::Joining;
use crate::order::order_of_nodes;
use crate::runs::rises;
use std::alloc::Global;
use std::cmp::Ordering;
use std::collections::VecDeque;
use xml_model::Nav;
use xq_ast::{NoMemory, Sequence};
use xq_values::NodeId;

/// Nodes.
pub type NodeIds = Sequence<NodeId>;

// Moves the first node of a queue to the end of a list, if there is one.
fn move_first(all: &mut NodeIds, from: &mut VecDeque<NodeId>) -> Result<(), NoMemory>
    ensures all { OnOk result (all.new ≡ all.old ++ take 1 from.old.items) }
    ensures rest { OnOk result (from.new.items ≡ drop 1 from.old.items) }
{
    match from.pop_front() {
        Some(node) => all.push(node),
        None => Ok(()),
    }
}

// Moves all nodes of a queue to the end of a list.
pub(crate) fn move_all(all: &mut NodeIds, from: VecDeque<NodeId>) -> Result<(), NoMemory>
    ensures { OnOk result (all.new ≡ all.old ++ from.items) }
{
    let mut from = from;
    while let Some(node) = from.pop_front() {
        all.push(node)?;
    }
    Ok(())
}

fn first_of(nodes: &VecDeque<NodeId>) -> Option<&NodeId>
    ensures { option_copied result ≡ slice_get nodes.now.items 0 }
{
    nodes.front()
}

// How the first nodes of both queues stand. Of an empty queue nothing is said.
fn order_of_firsts<N: Nav>(
    nav: &N,
    left: &VecDeque<NodeId>,
    right: &VecDeque<NodeId>,
) -> Result<Ordering, EvalEnd<N::Fault>>
    ensures gives { IfOk result (λ o. N.honest nav.now → IsOrderOfFirsts (node_seen (N.place nav.now)) o left.now.items right.now.items) }
    ensures fault { IfErr result (IsFault (N.passes nav.now)) }
{
    let Some(x) = first_of(left) else {
        return Ok(Ordering::Equal);
    };
    let Some(y) = first_of(right) else {
        return Ok(Ordering::Equal);
    };
    order_of_nodes(nav, x, y)
}

// Moves the lesser of the first nodes of both queues, and drops the other where they are one node.
fn move_lesser<N: Nav>(
    nav: &N,
    all: &mut NodeIds,
    left: &mut VecDeque<NodeId>,
    right: &mut VecDeque<NodeId>,
) -> Result<(), EvalEnd<N::Fault>>
    requires left { 0 < deque_len left.old }
    requires right { 0 < deque_len right.old }
    ensures gives { OnOk result (N.honest nav.now → uniting (node_seen (N.place nav.now)) all.new left.new.items right.new.items ≡ uniting (node_seen (N.place nav.now)) all.old left.old.items right.old.items) }
    ensures fewer { OnOk result (deque_len left.new + deque_len right.new < deque_len left.old + deque_len right.old) }
    ensures fault { IfErr result (IsFault (N.passes nav.now)) }
{
    match order_of_firsts(nav, left, right)? {
        Ordering::Less => Ok(move_first(all, left)?),
        Ordering::Equal => {
            move_first(all, left)?;
            let _same = right.pop_front();
            Ok(())
        }
        Ordering::Greater => Ok(move_first(all, right)?),
    }
}

pub(crate) fn united_lists<N: Nav>(
    alloc: Global,
    nav: &N,
    left: NodeIds,
    right: NodeIds,
) -> Result<NodeIds, EvalEnd<N::Fault>>
    ensures gives { IfOk result (λ all. N.honest nav.now → map (node_seen (N.place nav.now)) all ≡ orders.union node_cmp (map (node_seen (N.place nav.now)) left) (map (node_seen (N.place nav.now)) right)) }
    ensures fault { IfErr result (IsFault (N.passes nav.now)) }
{
    let mut all = Sequence::new(alloc);
    let mut left = VecDeque::from_vec(left.into_vec());
    let mut right = VecDeque::from_vec(right.into_vec());
    'both: while left.len().min(right.len()) > 0 {
        move_lesser(nav, &mut all, &mut left, &mut right)?;
    }
    move_all(&mut all, left)?;
    move_all(&mut all, right)?;
    Ok(all)
}

/// Two lists in document order as one, without duplicates. Takes one walk along both.
pub fn united<N: Nav>(
    alloc: Global,
    nav: &N,
    left: NodeIds,
    right: NodeIds,
) -> Result<NodeIds, EvalEnd<N::Fault>>
    ensures { Looks (N.honest nav.now) (N.passes nav.now) (map (node_seen (N.place nav.now))) result (Ok (orders.union node_cmp (map (node_seen (N.place nav.now)) left) (map (node_seen (N.place nav.now)) right))) }
{
    united_lists(alloc, nav, left, right)
}

fn one(alloc: Global, node: NodeId) -> Result<NodeIds, NoMemory>
    ensures { IfOk result (λ all. all ≡ node ∷ []) }
{
    let mut all = Sequence::new(alloc);
    all.push(node)?;
    Ok(all)
}

// Nodes in document order, each once, by joining one after another.
fn joined_one_by_one<N: Nav>(
    alloc: Global,
    nav: &N,
    nodes: NodeIds,
) -> Result<NodeIds, EvalEnd<N::Fault>>
    ensures gives { IfOk result (λ all. N.honest nav.now → map (node_seen (N.place nav.now)) all ≡ orders.in_order node_cmp (map (node_seen (N.place nav.now)) nodes)) }
    ensures fault { IfErr result (IsFault (N.passes nav.now)) }
{
    let mut joining = Joining::new(alloc);
    let mut left = VecDeque::from_vec(nodes.into_vec());
    'each: while let Some(node) = left.pop_front() {
        joining.push(nav, one(alloc, node)?)?;
    }
    let all = joining.finish(nav)?;
    Ok(all)
}

fn ordered<N: Nav>(alloc: Global, nav: &N, nodes: NodeIds) -> Result<NodeIds, EvalEnd<N::Fault>>
    ensures gives { IfOk result (λ all. N.honest nav.now → map (node_seen (N.place nav.now)) all ≡ orders.in_order node_cmp (map (node_seen (N.place nav.now)) nodes)) }
    ensures fault { IfErr result (IsFault (N.passes nav.now)) }
{
    if rises(nav, nodes.as_slice())? {
        return Ok(nodes);
    }
    joined_one_by_one(alloc, nav, nodes)
}

/// Nodes in document order, each once. Takes n steps for n nodes that are in order, and else
/// n log n.
pub fn in_order<N: Nav>(
    alloc: Global,
    nav: &N,
    nodes: NodeIds,
) -> Result<NodeIds, EvalEnd<N::Fault>>
    ensures { Looks (N.honest nav.now) (N.passes nav.now) (map (node_seen (N.place nav.now))) result (Ok (orders.in_order node_cmp (map (node_seen (N.place nav.now)) nodes))) }
{
    ordered(alloc, nav, nodes)
}
