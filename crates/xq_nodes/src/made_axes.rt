//! Axes from nodes of constructed trees.
ghost use Rattle.std.specs.Prelude.{◌≡◌, [], ◌++◌, true, false, IfOk, OnOk, map, unwrap_or};
ghost use Rattle.std.specs.Option.{option_copied, option_map, option_map_or};
ghost use Rattle.xml_model.specs.Nav.{Ending, ending};
ghost use Rattle.xml_model.specs.Nodes as nodes;
ghost use Rattle.xml_model.specs.Place.{attrs_of, kids_of};
ghost use Rattle.xml_model.specs.TreeRows.{placed_by};
ghost use Rattle.xq_nodes.specs.MadeSteps as spec;
ghost use Rattle.xq_values.specs.Seen.{made_seen};

use crate::constructed::stands_at;
use crate::lists::NodeIds;
use crate::made_steps::{
    add_attributes, add_children, add_descendants, add_made, attribute_passes, copy_place,
    node_passes,
};
use std::alloc::Global;
use xml_model::{AttrList, Node, NodeList, Place, PlacedRef};
use xq_ast::{Axis, NoMemory, Sequence, Test};
use xq_values::{MadePlace, MadeRoot};

fn is_any_node(test: &Test) -> bool
    ensures { result ≡ nodes.passes false test.now nodes.no_nodes }
{
    match test {
        Test::AnyNode => true,
        Test::Name { .. } => false,
        Test::Text => false,
        Test::Pi => false,
    }
}

fn placed_passes(test: &Test, it: PlacedRef) -> bool
    ensures { result ≡ nodes.passes false test.now (placed_by it.entry) }
{
    match it {
        PlacedRef::Document(_) => is_any_node(test),
        PlacedRef::Node(node) => node_passes(false, test, node),
        PlacedRef::Attribute(attr) => attribute_passes(false, test, attr),
    }
}

fn passes_where(test: &Test, from: Option<PlacedRef>) -> bool
    ensures { result ≡ nodes.passes_at false test.now (option_map placed_by from.entry) }
{
    match from {
        None => is_any_node(test),
        Some(it) => placed_passes(test, it),
    }
}

fn kids_in<'a>(it: PlacedRef<'a>) -> Option<&'a NodeList>
    ensures { unwrap_or (option_copied result) [] ≡ kids_of (placed_by it.entry) }
{
    match it {
        PlacedRef::Document(doc) => Some(&doc.kids),
        PlacedRef::Attribute(_) => None,
        PlacedRef::Node(node) => match node {
            Node::Element { kids, .. } => Some(kids),
            Node::Text { .. } => None,
            Node::Pi { .. } => None,
        },
    }
}

fn kids_where<'a>(from: Option<PlacedRef<'a>>) -> Option<&'a NodeList>
    ensures { unwrap_or (option_copied result) [] ≡ spec.kids_at (option_map placed_by from.entry) }
{
    match from {
        None => None,
        Some(it) => kids_in(it),
    }
}

fn attrs_in<'a>(it: PlacedRef<'a>) -> Option<&'a AttrList>
    ensures { unwrap_or (option_copied result) [] ≡ attrs_of (placed_by it.entry) }
{
    match it {
        PlacedRef::Document(_) => None,
        PlacedRef::Attribute(_) => None,
        PlacedRef::Node(node) => match node {
            Node::Element { attrs, .. } => Some(attrs),
            Node::Text { .. } => None,
            Node::Pi { .. } => None,
        },
    }
}

fn attrs_where<'a>(from: Option<PlacedRef<'a>>) -> Option<&'a AttrList>
    ensures { unwrap_or (option_copied result) [] ≡ spec.attrs_at (option_map placed_by from.entry) }
{
    match from {
        None => None,
        Some(it) => attrs_in(it),
    }
}

fn add_itself(
    all: &mut NodeIds,
    made: &[MadeRoot],
    test: &Test,
    at: &MadePlace,
) -> Result<(), NoMemory>
    ensures { OnOk result (all.new ≡ all.old ++ spec.itself_fitting (made_seen made.now) test.now at.now.tree at.now.place) }
{
    let passes = passes_where(test, stands_at(made, at));
    add_made(all, at.tree, &at.place, passes)
}

fn add_children_at(
    all: &mut NodeIds,
    made: &[MadeRoot],
    test: &Test,
    at: &MadePlace,
) -> Result<(), NoMemory>
    ensures { OnOk result (all.new ≡ all.old ++ spec.children_fitting (made_seen made.now) test.now false at.now.tree at.now.place) }
{
    match kids_where(stands_at(made, at)) {
        None => Ok(()),
        Some(kids) => {
            let mut place = copy_place(&at.place)?;
            add_children(all, at.tree, &mut place, test, kids)
        }
    }
}

fn add_descendants_at(
    all: &mut NodeIds,
    made: &[MadeRoot],
    test: &Test,
    at: &MadePlace,
) -> Result<(), NoMemory>
    ensures { OnOk result (all.new ≡ all.old ++ spec.children_fitting (made_seen made.now) test.now true at.now.tree at.now.place) }
{
    match kids_where(stands_at(made, at)) {
        None => Ok(()),
        Some(kids) => {
            let mut place = copy_place(&at.place)?;
            add_descendants(all, at.tree, &mut place, test, kids)?;
            Ok(())
        }
    }
}

fn add_attributes_at(
    all: &mut NodeIds,
    made: &[MadeRoot],
    test: &Test,
    at: &MadePlace,
) -> Result<(), NoMemory>
    ensures { OnOk result (all.new ≡ all.old ++ map (spec.made_node at.now.tree at.now.place) (spec.attrs_fitting test.now 0 (spec.attrs_at (spec.standing_made (made_seen made.now) at.now.tree at.now.place)))) }
{
    match attrs_where(stands_at(made, at)) {
        None => Ok(()),
        Some(attrs) => {
            let mut place = copy_place(&at.place)?;
            add_attributes(all, at.tree, &mut place, test, attrs.as_slice())
        }
    }
}

// A place without its last step.
#[tactic(auto, using(crate::proofs::MadeAxes::above_is))]
fn place_above(place: &Place) -> Result<Option<Place>, NoMemory>
    ensures { IfOk result (λ above. above ≡ option_map (λ (e : Ending). e.above) (ending place.now)) }
{
    let len = place.len();
    if len == 0 {
        return Ok(None);
    }
    let mut above = copy_place(place)?;
    above.truncate(len - 1);
    Ok(Some(above))
}

fn add_parent(
    all: &mut NodeIds,
    made: &[MadeRoot],
    test: &Test,
    at: &MadePlace,
) -> Result<(), NoMemory>
    ensures { OnOk result (all.new ≡ all.old ++ option_map_or (spec.itself_fitting (made_seen made.now) test.now at.now.tree) (spec.place_above (made_seen made.now) at.now.tree at.now.place) []) }
{
    let None = stands_at(made, at) else {
        return add_above(all, made, test, at);
    };
    Ok(())
}

fn add_above(
    all: &mut NodeIds,
    made: &[MadeRoot],
    test: &Test,
    at: &MadePlace,
) -> Result<(), NoMemory>
    ensures { OnOk result (all.new ≡ all.old ++ option_map_or (spec.itself_fitting (made_seen made.now) test.now at.now.tree) (option_map (λ (e : Ending). e.above) (ending at.now.place)) []) }
{
    match place_above(&at.place)? {
        None => Ok(()),
        Some(place) => add_itself(
            all,
            made,
            test,
            &MadePlace {
                tree: at.tree,
                place,
            },
        ),
    }
}

fn add_axis(
    all: &mut NodeIds,
    made: &[MadeRoot],
    axis: Axis,
    test: &Test,
    at: &MadePlace,
) -> Result<(), NoMemory>
    ensures { OnOk result (all.new ≡ all.old ++ spec.axis_fitting axis (made_seen made.now) test.now at.now.tree at.now.place) }
{
    match axis {
        Axis::Child => add_children_at(all, made, test, at),
        Axis::Descendant => add_descendants_at(all, made, test, at),
        Axis::DescendantOrSelf => {
            add_itself(all, made, test, at)?;
            add_descendants_at(all, made, test, at)?;
            Ok(())
        }
        Axis::Itself => add_itself(all, made, test, at),
        Axis::Attribute => add_attributes_at(all, made, test, at),
        Axis::Parent => add_parent(all, made, test, at),
    }
}

// The nodes of an axis that pass the test, in document order.
pub(crate) fn made_fitting(
    alloc: Global,
    made: &[MadeRoot],
    axis: Axis,
    test: &Test,
    at: &MadePlace,
) -> Result<NodeIds, NoMemory>
    ensures { IfOk result (λ all. all ≡ spec.axis_fitting axis (made_seen made.now) test.now at.now.tree at.now.place) }
{
    let mut all = Sequence::new(alloc);
    add_axis(&mut all, made, axis, test, at)?;
    Ok(all)
}
