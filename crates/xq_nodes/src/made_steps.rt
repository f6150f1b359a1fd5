//! Steps from nodes of constructed trees, without predicates.
ghost use Rattle.std.specs.Prelude.{◌≡◌, ◌+◌, [], ◌∷◌, ◌++◌, Some, true, false, IfOk, OnOk, map, filter, length};
ghost use Rattle.xml_model.specs.Axes as axes;
ghost use Rattle.xml_model.specs.Nodes as nodes;
ghost use Rattle.xml_model.specs.Place.{a_node, an_attribute};
ghost use Rattle.xml_model.specs.TreeRows.{placed_by};
ghost use Rattle.xml_model.specs.declared.place.PlaceStep.TheVariants as steps;
ghost use Rattle.xq_nodes.specs.MadeSteps as spec;

use crate::lists::NodeIds;
use crate::steps::has_name;
use std::alloc::Global;
use xml_model::{Attr, Node, NodeList, Place, PlaceStep};
use xq_ast::{NoMemory, Sequence, Str, Test};
use xq_values::{MadePlace, NodeId};

// ---- tests

fn named_node(on_attributes: bool, wanted: &Option<Str>, node: &Node) -> bool
    ensures { result ≡ nodes.passes on_attributes (Test.Name wanted.now) (a_node node.now) }
{
    if on_attributes {
        return false;
    }
    match node {
        Node::Element { name, .. } => has_name(wanted, name),
        Node::Text { .. } => false,
        Node::Pi { .. } => false,
    }
}

pub(crate) fn node_passes(on_attributes: bool, test: &Test, node: &Node) -> bool
    ensures { result ≡ nodes.passes on_attributes test.now (a_node node.now) }
{
    match test {
        Test::Name { name } => named_node(on_attributes, name, node),
        Test::AnyNode => true,
        Test::Text => match node {
            Node::Text { .. } => true,
            Node::Element { .. } => false,
            Node::Pi { .. } => false,
        },
        Test::Pi => match node {
            Node::Pi { .. } => true,
            Node::Element { .. } => false,
            Node::Text { .. } => false,
        },
    }
}

pub(crate) fn attribute_passes(on_attributes: bool, test: &Test, attr: &Attr) -> bool
    ensures { result ≡ nodes.passes on_attributes test.now (an_attribute attr.now) }
{
    match test {
        Test::Name { name } => {
            if !on_attributes {
                return false;
            }
            has_name(name, &attr.name)
        }
        Test::AnyNode => true,
        Test::Text => false,
        Test::Pi => false,
    }
}

// ---- nodes that are found

pub(crate) fn copy_place(place: &Place) -> Result<Place, NoMemory>
    ensures { IfOk result (λ p. p ≡ place.now) }
{
    let mut all = Sequence::new(place.allocator());
    for step in place.as_slice() {
        all.push(*step)?;
    }
    Ok(all)
}

// Adds the node at a place of a tree, where it passed.
pub(crate) fn add_made(
    all: &mut NodeIds,
    tree: usize,
    place: &Place,
    passes: bool,
) -> Result<(), NoMemory>
    ensures { OnOk result (all.new ≡ all.old ++ spec.made_where passes tree place.now) }
{
    if !passes {
        return Ok(());
    }
    all.push(NodeId::Made {
        at: MadePlace {
            tree,
            place: copy_place(place)?,
        },
    })
}

fn next_number(i: u32) -> Result<u32, NoMemory>
    ensures { IfOk result (λ n. n ≡ i + 1) }
{
    match i.checked_add(1) {
        Some(next) => Ok(next),
        None => Err(NoMemory),
    }
}

// Adds the attribute with this number, where it passes; `place` is where its element stands.
fn add_attribute(
    all: &mut NodeIds,
    tree: usize,
    place: &mut Place,
    i: u32,
    test: &Test,
    attr: &Attr,
) -> Result<(), NoMemory>
    ensures all { OnOk result (all.new ≡ all.old ++ spec.made_where (nodes.passes true test.now (an_attribute attr.now)) tree (place.old ++ steps.Attr i ∷ [])) }
    ensures place { OnOk result (place.new ≡ place.old) }
{
    let len = place.len();
    place.push(PlaceStep::Attr(i))?;
    add_made(all, tree, place, attribute_passes(true, test, attr))?;
    place.truncate(len);
    Ok(())
}

// Adds those of the attributes that pass; `place` is where their element stands.
pub(crate) fn add_attributes(
    all: &mut NodeIds,
    tree: usize,
    place: &mut Place,
    test: &Test,
    attrs: &[Attr],
) -> Result<(), NoMemory>
    ensures { OnOk result (all.new ≡ all.old ++ map (spec.made_node tree place.old) (spec.attrs_fitting test.now 0 attrs.now)) }
{
    let mut i = 0;
    for attr in attrs {
        add_attribute(all, tree, place, i, test, attr)?;
        i = next_number(i)?;
    }
    Ok(())
}

// Adds the child with this number, where it passes; `place` is where its parent stands.
fn add_child(
    all: &mut NodeIds,
    tree: usize,
    place: &mut Place,
    i: u32,
    test: &Test,
    kid: &Node,
) -> Result<(), NoMemory>
    ensures all { OnOk result (all.new ≡ all.old ++ map (spec.made_node tree (place.old ++ steps.Kid i ∷ [])) (spec.ways_fitting false test.now kid.now)) }
    ensures place { OnOk result (place.new ≡ place.old) }
{
    let len = place.len();
    place.push(PlaceStep::Kid(i))?;
    add_made(all, tree, place, node_passes(false, test, kid))?;
    place.truncate(len);
    Ok(())
}

// Adds those of the children that pass; `place` is where their parent stands.
pub(crate) fn add_children(
    all: &mut NodeIds,
    tree: usize,
    place: &mut Place,
    test: &Test,
    kids: &NodeList,
) -> Result<(), NoMemory>
    ensures { OnOk result (all.new ≡ all.old ++ map (spec.made_node tree place.old) (spec.kids_fitting false test.now 0 kids.now)) }
{
    let mut i = 0;
    for kid in kids.as_slice() {
        add_child(all, tree, place, i, test, kid)?;
        i = next_number(i)?;
    }
    Ok(())
}

// Adds what passes of the child with this number and of all below it.
#[cycle(below)]
fn add_whole(
    all: &mut NodeIds,
    tree: usize,
    place: &mut Place,
    i: u32,
    test: &Test,
    kid: &Node,
) -> Result<(), NoMemory>
    ensures all { OnOk result (all.new ≡ all.old ++ map (spec.made_node tree (place.old ++ steps.Kid i ∷ [])) (spec.ways_fitting true test.now kid.now)) }
    ensures place { OnOk result (place.new ≡ place.old) }
{
    let len = place.len();
    place.push(PlaceStep::Kid(i))?;
    add_made(all, tree, place, node_passes(false, test, kid))?;
    match kid {
        Node::Element { kids, .. } => {
            add_descendants(all, tree, place, test, kids)?;
            place.truncate(len);
            Ok(())
        }
        Node::Text { .. } => {
            place.truncate(len);
            Ok(())
        }
        Node::Pi { .. } => {
            place.truncate(len);
            Ok(())
        }
    }
}

// Adds what passes of the children and of all below them; `place` is where their parent stands.
#[cycle(below)]
pub(crate) fn add_descendants(
    all: &mut NodeIds,
    tree: usize,
    place: &mut Place,
    test: &Test,
    kids: &NodeList,
) -> Result<(), NoMemory>
    ensures all { OnOk result (all.new ≡ all.old ++ map (spec.made_node tree place.old) (spec.kids_fitting true test.now 0 kids.now)) }
    ensures place { OnOk result (place.new ≡ place.old) }
{
    let mut i = 0;
    for kid in kids.as_slice() {
        add_whole(all, tree, place, i, test, kid)?;
        i = next_number(i)?;
    }
    Ok(())
}
