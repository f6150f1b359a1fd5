//! What stands in a node.
ghost use Rattle.std.specs.Prelude.{◌≡◌, ◌++◌, map, IfOk, IfErr, OnOk};
ghost use Rattle.xml_model.specs.Axes.{held_nodes, nodes_at, child_places, attribute_places, descendant_places};
ghost use Rattle.xml_model.specs.NavFaults.{Passes};
ghost use Rattle.xq_nodes.specs.Walks.{is_attribute};

use crate::calls::{first_of, kind_of, next_of};
use std::alloc::Global;
use xml_model::{Id, Nav, NavEnd};
use xq_ast::{Kind, Sequence};

/// Nodes.
pub type IdList = Sequence<Id>;

pub(crate) fn is_attribute<N: Nav>(nav: &N, n: Id) -> Result<bool, NavEnd<N::Fault>>
    ensures gives { IfOk result (λ b. N.honest nav.now → b ≡ is_attribute (N.forest nav.now) (N.place nav.now n)) }
    ensures fault { IfErr result (Passes (N.passes nav.now)) }
{
    Ok(kind_of(nav, n)? == Kind::Attribute)
}

/// What stands in a node: its attributes, then its children.
#[tactic(auto, using(crate::proofs::Chain::held_seen, crate::proofs::Chain::later_seen))]
pub fn held<N: Nav>(alloc: Global, nav: &N, n: Id) -> Result<IdList, NavEnd<N::Fault>>
    ensures gives { IfOk result (λ all. N.honest nav.now → map (N.place nav.now) all ≡ held_nodes (N.forest nav.now) (N.place nav.now n)) }
    ensures fault { IfErr result (Passes (N.passes nav.now)) }
{
    let mut all = Sequence::new(alloc);
    let mut at = first_of(nav, n)?;
    while let Some(m) = at {
        all.push(m)?;
        at = next_of(nav, m)?;
    }
    Ok(all)
}

/// The attributes of a node.
pub fn attributes<N: Nav>(alloc: Global, nav: &N, n: Id) -> Result<IdList, NavEnd<N::Fault>>
    ensures gives { IfOk result (λ all. N.honest nav.now → map (N.place nav.now) all ≡ nodes_at attribute_places (N.forest nav.now) (N.place nav.now n)) }
    ensures fault { IfErr result (Passes (N.passes nav.now)) }
{
    let nodes = held(alloc, nav, n)?;
    let mut all = Sequence::new(alloc);
    for m in nodes.as_slice() {
        if is_attribute(nav, *m)? {
            all.push(*m)?;
        }
    }
    Ok(all)
}

/// The children of a node.
pub fn children<N: Nav>(alloc: Global, nav: &N, n: Id) -> Result<IdList, NavEnd<N::Fault>>
    ensures gives { IfOk result (λ all. N.honest nav.now → map (N.place nav.now) all ≡ nodes_at child_places (N.forest nav.now) (N.place nav.now n)) }
    ensures fault { IfErr result (Passes (N.passes nav.now)) }
{
    let nodes = held(alloc, nav, n)?;
    let mut all = Sequence::new(alloc);
    for m in nodes.as_slice() {
        if !is_attribute(nav, *m)? {
            all.push(*m)?;
        }
    }
    Ok(all)
}

// Adds all nodes below a node, attributes aside, in document order.
#[tactic(auto, using(crate::proofs::Chain::held_seen, crate::proofs::Chain::later_seen))]
pub(crate) fn add_below<N: Nav>(all: &mut IdList, nav: &N, n: Id) -> Result<(), NavEnd<N::Fault>>
    ensures gives { OnOk result (N.honest nav.now → map (N.place nav.now) all.new ≡ map (N.place nav.now) all.old ++ nodes_at descendant_places (N.forest nav.now) (N.place nav.now n)) }
    ensures fault { IfErr result (Passes (N.passes nav.now)) }
{
    let mut at = first_of(nav, n)?;
    while let Some(m) = at {
        if !is_attribute(nav, m)? {
            all.push(m)?;
            add_below(all, nav, m)?;
        }
        at = next_of(nav, m)?;
    }
    Ok(())
}
