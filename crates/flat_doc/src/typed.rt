//! What the types of a document keep: its canonical text is UTF-8.
// These functions do nothing.
ghost use Rattle.std.specs.Prelude.{◌∷◌, ◌++◌, [], map, IsUtf8};
ghost use Rattle.xml_model.specs.Pyx.{attribute_line, behind_target, pyx, pyx_node, pyx_of, text_of};
ghost use Rattle.xml_model.specs.Values.{escaped};

use xml_model::{Attr, AttrList, Doc, Node, NodeList};
use xq_ast::Str;

fn string(text: &Str)
    ensures { IsUtf8 text.now }
{
    let _ = text.as_str();
}

fn attribute(attr: &Attr)
    ensures { IsUtf8 (text_of (attribute_line attr.now ∷ [])) }
{
    string(&attr.name);
    string(&attr.value);
}

fn attributes(attrs: &AttrList)
    ensures { IsUtf8 (text_of (map attribute_line attrs.now)) }
{
    for attr in attrs.as_slice() {
        attribute(attr);
    }
}

fn characters(value: &Str)
    ensures { IsUtf8 (text_of ((45 ∷ escaped value.now) ∷ [])) }
{
    string(value);
}

fn instruction(target: &Str, value: &Str)
    ensures { IsUtf8 (text_of ((63 ∷ (target.now ++ behind_target value.now)) ∷ [])) }
{
    string(target);
    string(value);
}

#[cycle(typed)]
fn nodes(all: &NodeList)
    ensures { IsUtf8 (text_of (pyx_of all.now)) }
{
    for one in all.as_slice() {
        node(one);
    }
}

#[cycle(typed)]
fn element(name: &Str, attrs: &AttrList, kids: &NodeList)
    ensures { IsUtf8 (text_of ((40 ∷ name.now) ∷ (map attribute_line attrs.now ++ (pyx_of kids.now ++ (41 ∷ name.now) ∷ [])))) }
{
    string(name);
    attributes(attrs);
    nodes(kids);
}

#[cycle(typed)]
fn node(one: &Node)
    ensures { IsUtf8 (text_of (pyx_node one.now)) }
{
    match one {
        Node::Element { name, attrs, kids } => element(name, attrs, kids),
        Node::Text { value } => characters(value),
        Node::Pi { target, value } => instruction(target, value),
    }
}

/// A document's canonical text is UTF-8.
pub fn document(doc: &Doc)
    ensures { IsUtf8 (text_of (pyx doc.now)) }
{
    nodes(&doc.kids);
}
