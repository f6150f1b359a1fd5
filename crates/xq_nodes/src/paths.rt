//! Steps without their predicates.
ghost use Rattle.std.specs.Prelude.{◌≡◌, Ok, IfOk, IfErr, map};
ghost use Rattle.std.specs.FinMap as forests;
ghost use Rattle.std.specs.List.{filter};
ghost use Rattle.xml_model.specs.Axes.{axis_nodes};
ghost use Rattle.xml_model.specs.Nodes as spec;
ghost use Rattle.xq_nodes.specs.Answers.{Looks, IsFault};
ghost use Rattle.xq_nodes.specs.Steps.{fits};
ghost use Rattle.xq_values.specs.Seen.{node_seen, made_seen};

use crate::end::EvalEnd;
use crate::lists::NodeIds;
use crate::made_axes::made_fitting;
use crate::steps::axis_fitting;
use crate::walks::IdList;
use std::alloc::Global;
use xml_model::{Id, Nav};
use xq_ast::{Axis, NoMemory, Sequence, Test};
use xq_values::{MadeRoot, NodeId};

fn stored_ids(alloc: Global, ids: &IdList) -> Result<NodeIds, NoMemory>
    ensures { IfOk result (λ all. all ≡ map (λ id. NodeId.Stored id) ids.now) }
{
    let mut all = Sequence::new(alloc);
    for id in ids.as_slice() {
        all.push(NodeId::Stored { id: *id })?;
    }
    Ok(all)
}

fn axis_ids<N: Nav>(
    alloc: Global,
    nav: &N,
    axis: Axis,
    test: &Test,
    n: Id,
) -> Result<IdList, EvalEnd<N::Fault>>
    ensures gives { IfOk result (λ all. N.honest nav.now → map (N.place nav.now) all ≡ filter (fits (N.forest nav.now) (spec.is_attribute_axis axis) test.now) (axis_nodes axis (N.forest nav.now) (N.place nav.now n))) }
    ensures fault { IfErr result (IsFault (N.passes nav.now)) }
{
    Ok(axis_fitting(alloc, nav, axis, test, n)?)
}

/// The nodes of an axis that pass the test, in document order. Takes memory for these alone.
pub fn tested<N: Nav>(
    alloc: Global,
    nav: &N,
    made: &[MadeRoot],
    axis: Axis,
    test: &Test,
    n: &NodeId,
) -> Result<NodeIds, EvalEnd<N::Fault>>
    ensures { Looks (N.honest nav.now) (N.passes nav.now) (map (node_seen (N.place nav.now))) result (Ok (spec.tested (forests.get (N.forest nav.now)) (made_seen made.now) axis test.now (node_seen (N.place nav.now) n.now))) }
{
    match n {
        NodeId::Stored { id } => {
            let ids = axis_ids(alloc, nav, axis, test, *id)?;
            let all = stored_ids(alloc, &ids)?;
            Ok(all)
        }
        NodeId::Made { at } => {
            let all = made_fitting(alloc, made, axis, test, at)?;
            Ok(all)
        }
    }
}
