//! Nodes of constructed trees.
ghost use Rattle.std.specs.Prelude.{◌≡◌, Some};
ghost use Rattle.std.specs.List.{slice_get};
ghost use Rattle.std.specs.Option.{option_copied, option_map};
ghost use Rattle.xml_model.specs.Items.{Documents, node_at};
ghost use Rattle.xml_model.specs.Nav.{Stored};
ghost use Rattle.xml_model.specs.Place as places;
ghost use Rattle.xml_model.specs.TreeRows.{placed_by};
ghost use Rattle.xml_model.specs.declared.nav.Id.{Id};
ghost use Rattle.xq_values.specs.Seen.{made_seen, node_seen, root_seen};

use xml_model::{Attr, Node, PlaceStep, PlacedRef};
use xq_values::{MadePlace, MadeRoot, NodeId};

fn root_of<'a>(root: &'a MadeRoot) -> PlacedRef<'a>
    ensures { placed_by result ≡ root_seen root.now }
{
    match root {
        MadeRoot::Node { node } => PlacedRef::Node(node),
        MadeRoot::Attribute { attr } => PlacedRef::Attribute(attr),
    }
}

fn nth_attr<'a>(attrs: &'a [Attr], i: usize) -> Option<&'a Attr>
    ensures { option_copied result ≡ slice_get attrs.now i }
{
    attrs.get(i)
}

fn nth_kid<'a>(kids: &'a [Node], i: usize) -> Option<&'a Node>
    ensures { option_copied result ≡ slice_get kids.now i }
{
    kids.get(i)
}

fn attribute_at<'a>(attrs: &'a [Attr], i: usize) -> Option<PlacedRef<'a>>
    ensures { option_map placed_by result ≡ option_map places.an_attribute (slice_get attrs.now i) }
{
    match nth_attr(attrs, i) {
        Some(attr) => Some(PlacedRef::Attribute(attr)),
        None => None,
    }
}

fn child_at<'a>(kids: &'a [Node], i: usize) -> Option<PlacedRef<'a>>
    ensures { option_map placed_by result ≡ option_map places.a_node (slice_get kids.now i) }
{
    match nth_kid(kids, i) {
        Some(kid) => Some(PlacedRef::Node(kid)),
        None => None,
    }
}

// The attribute with this number.
fn attribute_of<'a>(from: PlacedRef<'a>, i: usize) -> Option<PlacedRef<'a>>
    ensures { option_map placed_by result ≡ option_map places.an_attribute (slice_get (places.attrs_of (placed_by from.entry)) i) }
{
    match from {
        PlacedRef::Document(_) => None,
        PlacedRef::Attribute(_) => None,
        PlacedRef::Node(node) => match node {
            Node::Element { attrs, .. } => attribute_at(attrs.as_slice(), i),
            Node::Text { .. } => None,
            Node::Pi { .. } => None,
        },
    }
}

// The child with this number.
fn child_of<'a>(from: PlacedRef<'a>, i: usize) -> Option<PlacedRef<'a>>
    ensures { option_map placed_by result ≡ option_map places.a_node (slice_get (places.kids_of (placed_by from.entry)) i) }
{
    match from {
        PlacedRef::Document(doc) => child_at(doc.kids.as_slice(), i),
        PlacedRef::Attribute(_) => None,
        PlacedRef::Node(node) => match node {
            Node::Element { kids, .. } => child_at(kids.as_slice(), i),
            Node::Text { .. } => None,
            Node::Pi { .. } => None,
        },
    }
}

fn step_from<'a>(from: PlacedRef<'a>, step: PlaceStep) -> Option<PlacedRef<'a>>
    ensures { option_map placed_by result ≡ places.step_from (placed_by from.entry) step }
{
    match step {
        PlaceStep::Attr(i) => attribute_of(from, i as usize),
        PlaceStep::Kid(i) => child_of(from, i as usize),
    }
}

// What stands at the end of the steps, if all of them lead somewhere.
fn placed_from<'a>(from: PlacedRef<'a>, place: &[PlaceStep]) -> Option<PlacedRef<'a>>
    ensures { option_map placed_by result ≡ places.placed_from place.now (Some (placed_by from.entry)) }
{
    let mut at = from;
    for step in place {
        match step_from(at, *step) {
            Some(next) => at = next,
            None => return None,
        }
    }
    Some(at)
}

fn nth_root<'a>(made: &'a [MadeRoot], i: usize) -> Option<&'a MadeRoot>
    ensures { option_copied result ≡ slice_get made.now i }
{
    made.get(i)
}

pub(crate) fn stands_at<'a>(made: &'a [MadeRoot], at: &MadePlace) -> Option<PlacedRef<'a>>
    ensures { option_map placed_by result ≡ places.placed_from at.now.place (slice_get (made_seen made.now) at.now.tree) }
{
    match nth_root(made, at.tree) {
        Some(root) => placed_from(root_of(root), at.place.as_slice()),
        None => None,
    }
}

/// What stands at a place of a constructed tree, if the tree and the place are there.
pub fn made_at<'a>(made: &'a [MadeRoot], at: &MadePlace) -> Option<PlacedRef<'a>>
    ensures { (docs : Documents) (place : Id → Stored) → option_map placed_by result ≡ node_at docs (made_seen made.now) (node_seen place (NodeId.Made at.now)) }
{
    stands_at(made, at)
}
