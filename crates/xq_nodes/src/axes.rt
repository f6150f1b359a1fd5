//! Axes.
ghost use Rattle.std.specs.Prelude.{◌≡◌, ◌++◌, [], ◌∷◌, map, IfOk, IfErr, OnOk};
ghost use Rattle.xml_model.specs.Axes.{axis_nodes, nodes_at, parent_places};
ghost use Rattle.xml_model.specs.NavFaults.{Passes};

use crate::calls::parent_of;
use crate::walks::{IdList, add_below, attributes, children};
use std::alloc::Global;
use xml_model::{Id, Nav, NavEnd};
use xq_ast::{Axis, NoMemory, Sequence};

fn one(alloc: Global, n: Id) -> Result<IdList, NoMemory>
    ensures { IfOk result (λ all. all ≡ n ∷ []) }
{
    let mut all = Sequence::new(alloc);
    all.push(n)?;
    Ok(all)
}

pub(crate) fn parents<N: Nav>(alloc: Global, nav: &N, n: Id) -> Result<IdList, NavEnd<N::Fault>>
    ensures gives { IfOk result (λ all. N.honest nav.now → map (N.place nav.now) all ≡ nodes_at parent_places (N.forest nav.now) (N.place nav.now n)) }
    ensures fault { IfErr result (Passes (N.passes nav.now)) }
{
    match parent_of(nav, n)? {
        Some(parent) => Ok(one(alloc, parent)?),
        None => Ok(Sequence::new(alloc)),
    }
}

/// What an axis finds from a node, in document order.
pub fn on_axis<N: Nav>(
    alloc: Global,
    nav: &N,
    axis: Axis,
    n: Id,
) -> Result<IdList, NavEnd<N::Fault>>
    ensures gives { IfOk result (λ all. N.honest nav.now → map (N.place nav.now) all ≡ axis_nodes axis (N.forest nav.now) (N.place nav.now n)) }
    ensures fault { IfErr result (Passes (N.passes nav.now)) }
{
    match axis {
        Axis::Child => children(alloc, nav, n),
        Axis::Attribute => attributes(alloc, nav, n),
        Axis::Parent => parents(alloc, nav, n),
        Axis::Itself => Ok(one(alloc, n)?),
        Axis::Descendant => {
            let mut all = Sequence::new(alloc);
            add_below(&mut all, nav, n)?;
            Ok(all)
        }
        Axis::DescendantOrSelf => {
            let mut all = one(alloc, n)?;
            add_below(&mut all, nav, n)?;
            Ok(all)
        }
    }
}
