//! Document order of nodes, of stored and of constructed trees.
ghost use Rattle.std.specs.Prelude.{◌≡◌, Ok, IfOk, IfErr};
ghost use Rattle.xml_model.specs.Items.{constructed};
ghost use Rattle.xml_model.specs.Nodes.{node_cmp};
ghost use Rattle.xq_nodes.specs.Answers.{Looks, IsFault};
ghost use Rattle.xq_values.specs.Seen.{node_seen};

use crate::end::EvalEnd;
use std::cmp::Ordering;
use xml_model::{Id, Nav, place_order};
use xq_values::{MadePlace, NodeId};

fn stored_order<N: Nav>(nav: &N, a: Id, b: Id) -> Result<Ordering, EvalEnd<N::Fault>>
    ensures gives { IfOk result (λ o. N.honest nav.now → o ≡ node_cmp (node_seen (N.place nav.now) (NodeId.Stored a)) (node_seen (N.place nav.now) (NodeId.Stored b))) }
    ensures fault { IfErr result (IsFault (N.passes nav.now)) }
{
    match nav.order(a, b) {
        Ok(order) => Ok(order),
        Err(fault) => Err(EvalEnd::Nav(fault)),
    }
}

fn made_order(a: &MadePlace, b: &MadePlace) -> Ordering
    ensures { result ≡ node_cmp (record { tree = constructed a.now.tree; place = a.now.place }) (record { tree = constructed b.now.tree; place = b.now.place }) }
{
    match a.tree.cmp(&b.tree) {
        Ordering::Equal => place_order(&a.place, &b.place),
        different => different,
    }
}

pub(crate) fn order_of_nodes<N: Nav>(
    nav: &N,
    a: &NodeId,
    b: &NodeId,
) -> Result<Ordering, EvalEnd<N::Fault>>
    ensures gives { IfOk result (λ o. N.honest nav.now → o ≡ node_cmp (node_seen (N.place nav.now) a.now) (node_seen (N.place nav.now) b.now)) }
    ensures fault { IfErr result (IsFault (N.passes nav.now)) }
{
    match a {
        NodeId::Stored { id } => match b {
            NodeId::Stored { id: other } => stored_order(nav, *id, *other),
            NodeId::Made { .. } => Ok(Ordering::Less),
        },
        NodeId::Made { at } => match b {
            NodeId::Stored { .. } => Ok(Ordering::Greater),
            NodeId::Made { at: other } => Ok(made_order(at, other)),
        },
    }
}

/// How two nodes stand in document order: stored documents by their names, before constructed trees
/// in the order of their construction.
pub fn node_order<N: Nav>(nav: &N, a: &NodeId, b: &NodeId) -> Result<Ordering, EvalEnd<N::Fault>>
    ensures { Looks (N.honest nav.now) (N.passes nav.now) (λ o. o) result (Ok (node_cmp (node_seen (N.place nav.now) a.now) (node_seen (N.place nav.now) b.now))) }
{
    order_of_nodes(nav, a, b)
}
