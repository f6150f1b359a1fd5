//! What a node tells: its string value and its name.
ghost use Rattle.std.specs.Prelude.{◌≡◌, ◌++◌, Ok, IfOk, IfErr, OnOk, map, slice_get};
ghost use Rattle.std.specs.FinMap as forests;
ghost use Rattle.xml_model.specs.Axes as axes;
ghost use Rattle.xml_model.specs.Place.{placed_from};
ghost use Rattle.xml_model.specs.FunctionAnswers.{name_at};
ghost use Rattle.xml_model.specs.Items.{node_at};
ghost use Rattle.xml_model.specs.Nav.{stored_at, told_at};
ghost use Rattle.xml_model.specs.Nodes as nodes;
ghost use Rattle.xml_model.specs.Trees.{joined};
ghost use Rattle.xml_model.specs.TreeRows.{placed_by};
ghost use Rattle.xq_nodes.specs.Answers.{Looks, IsFault};
ghost use Rattle.xq_values.specs.Seen.{node_seen, made_seen};

use crate::constructed::stands_at;
use crate::end::EvalEnd;
use crate::texts::string_value;
use std::alloc::Global;
use xml_model::{Id, Nav, Node, NodeList, PlacedRef};
use xq_ast::{NoMemory, Str};
use xq_values::{MadePlace, MadeRoot, NodeId};

// ---- string values

// Adds the texts in a node.
#[cycle(texts)]
fn add_texts_in(all: &mut Str, node: &Node) -> Result<(), NoMemory>
    ensures { OnOk result (all.new ≡ all.old ++ axes.texts_in node.now) }
{
    match node {
        Node::Element { kids, .. } => add_texts(all, kids),
        Node::Text { value } => all.push_str(value.as_str()),
        Node::Pi { .. } => Ok(()),
    }
}

// Adds the texts in nodes, one after another.
#[cycle(texts)]
fn add_texts(all: &mut Str, nodes: &NodeList) -> Result<(), NoMemory>
    ensures { OnOk result (all.new ≡ all.old ++ joined (map axes.texts_in nodes.now)) }
{
    for node in nodes.as_slice() {
        add_texts_in(all, node)?;
    }
    Ok(())
}

fn texts_of(alloc: Global, nodes: &NodeList) -> Result<Str, NoMemory>
    ensures { IfOk result (λ s. s ≡ joined (map axes.texts_in nodes.now)) }
{
    let mut all = Str::new(alloc);
    add_texts(&mut all, nodes)?;
    Ok(all)
}

// The string value of what stands at a place.
fn placed_value(alloc: Global, it: PlacedRef) -> Result<Str, NoMemory>
    ensures { IfOk result (λ s. s ≡ axes.string_value (placed_by it.entry)) }
{
    match it {
        PlacedRef::Document(doc) => texts_of(alloc, &doc.kids),
        PlacedRef::Attribute(attr) => attr.value.copy(),
        PlacedRef::Node(node) => match node {
            Node::Element { kids, .. } => texts_of(alloc, kids),
            Node::Text { value } => value.copy(),
            Node::Pi { value, .. } => value.copy(),
        },
    }
}

fn made_value(alloc: Global, made: &[MadeRoot], at: &MadePlace) -> Result<Str, NoMemory>
    ensures { IfOk result (λ s. s ≡ nodes.value_at (placed_from at.now.place (slice_get (made_seen made.now) at.now.tree))) }
{
    match stands_at(made, at) {
        Some(it) => placed_value(alloc, it),
        None => Ok(Str::new(alloc)),
    }
}

fn stored_value<N: Nav>(alloc: Global, nav: &N, n: Id) -> Result<Str, EvalEnd<N::Fault>>
    ensures gives { IfOk result (λ s. N.honest nav.now → s ≡ axes.string_of_node (N.forest nav.now) (N.place nav.now n)) }
    ensures fault { IfErr result (IsFault (N.passes nav.now)) }
{
    Ok(string_value(alloc, nav, n)?)
}

/// The string value of a node: of an element or a document the texts in it, one after another; of
/// others their value.
pub fn value_of<N: Nav>(
    alloc: Global,
    nav: &N,
    made: &[MadeRoot],
    n: &NodeId,
) -> Result<Str, EvalEnd<N::Fault>>
    ensures { Looks (N.honest nav.now) (N.passes nav.now) (λ s. s) result (Ok (nodes.value_at (node_at (forests.get (N.forest nav.now)) (made_seen made.now) (node_seen (N.place nav.now) n.now)))) }
{
    match n {
        NodeId::Stored { id } => stored_value(alloc, nav, *id),
        NodeId::Made { at } => Ok(made_value(alloc, made, at)?),
    }
}

// ---- names

fn placed_name(alloc: Global, it: PlacedRef) -> Result<Str, NoMemory>
    ensures { IfOk result (λ s. s ≡ nodes.name_of (placed_by it.entry)) }
{
    match it {
        PlacedRef::Document(_) => Ok(Str::new(alloc)),
        PlacedRef::Attribute(attr) => attr.name.copy(),
        PlacedRef::Node(node) => match node {
            Node::Element { name, .. } => name.copy(),
            Node::Text { .. } => Ok(Str::new(alloc)),
            Node::Pi { target, .. } => target.copy(),
        },
    }
}

fn made_name(alloc: Global, made: &[MadeRoot], at: &MadePlace) -> Result<Str, NoMemory>
    ensures { IfOk result (λ s. s ≡ name_at (placed_from at.now.place (slice_get (made_seen made.now) at.now.tree))) }
{
    match stands_at(made, at) {
        Some(it) => placed_name(alloc, it),
        None => Ok(Str::new(alloc)),
    }
}

fn stored_name<N: Nav>(nav: &N, n: Id) -> Result<Str, EvalEnd<N::Fault>>
    ensures gives { IfOk result (λ s. N.honest nav.now → s ≡ (told_at (stored_at (N.forest nav.now) (N.place nav.now n))).name) }
    ensures fault { IfErr result (IsFault (N.passes nav.now)) }
{
    Ok(nav.name(n)?)
}

/// The name of an element or attribute, and the target of an instruction. Others have the empty
/// text.
pub fn name_of<N: Nav>(
    alloc: Global,
    nav: &N,
    made: &[MadeRoot],
    n: &NodeId,
) -> Result<Str, EvalEnd<N::Fault>>
    ensures { Looks (N.honest nav.now) (N.passes nav.now) (λ s. s) result (Ok (name_at (node_at (forests.get (N.forest nav.now)) (made_seen made.now) (node_seen (N.place nav.now) n.now)))) }
{
    match n {
        NodeId::Stored { id } => stored_name(nav, *id),
        NodeId::Made { at } => Ok(made_name(alloc, made, at)?),
    }
}
