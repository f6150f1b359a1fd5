//! The content of a new element, one item after another.
ghost use Rattle.std.specs.Prelude.{◌≡◌, IfOk};
ghost use Rattle.xml_model.specs.Constructors.{content_of};
ghost use Rattle.xml_model.specs.Items as items;
ghost use Rattle.xq_values.specs.Contents as spec;

use crate::text::push_word;
use std::alloc::Global;
use xml_model::{Atom, Attr, AttrList, Node, NodeList};
use xq_ast::{Items, NoMemory, Sequence, Str};

/// What the items so far have made: attributes and children, and the text at the end, to which a
/// text that follows is joined. An empty text is dropped.
#[derive(Debug, Drop)]
pub struct Content {
    pub attrs: AttrList,
    pub kids: NodeList,
    /// Whether an attribute came after a child.
    pub late: bool,
    pub text: Str,
    /// Whether an atomic value came last.
    pub after_value: bool,
}

fn has_kids(kids: &NodeList) -> bool
    ensures { result ≡ spec.some kids.now }
{
    match kids.as_slice() {
        [] => false,
        [_, ..] => true,
    }
}

impl Content {
    /// No content.
    pub fn new(alloc: Global) -> Content
        ensures { result ≡ spec.no_content }
    {
        Content {
            attrs: Sequence::new(alloc),
            kids: Items::new(alloc),
            late: false,
            text: Str::new(alloc),
            after_value: false,
        }
    }

    /// The text at the end becomes a child, where it is not empty.
    pub fn closed(self, alloc: Global) -> Result<Content, NoMemory>
        ensures { IfOk result (λ c. c ≡ spec.closed self) }
    {
        let Content {
            attrs,
            mut kids,
            late,
            text,
            after_value,
        } = self;
        if text.is_empty() {
            return Ok(Content {
                attrs,
                kids,
                late,
                text,
                after_value,
            });
        }
        kids.push(Node::Text { value: text })?;
        Ok(Content {
            attrs,
            kids,
            late,
            text: Str::new(alloc),
            after_value,
        })
    }

    /// An atomic value comes.
    pub fn value(self, alloc: Global, atom: &Atom) -> Result<Content, NoMemory>
        ensures { IfOk result (λ c. c ≡ spec.with_value self atom.now) }
    {
        let Content {
            attrs,
            kids,
            late,
            mut text,
            after_value,
        } = self;
        push_word(alloc, &mut text, after_value, atom)?;
        Ok(Content {
            attrs,
            kids,
            late,
            text,
            after_value: true,
        })
    }

    /// A node comes, before its pieces: an atomic value after it begins a new text.
    pub fn node(self) -> Content
        ensures { result ≡ spec.at_node self }
    {
        let Content {
            attrs,
            kids,
            late,
            text,
            ..
        } = self;
        Content {
            attrs,
            kids,
            late,
            text,
            after_value: false,
        }
    }

    // A text comes.
    fn text(self, value: &Str) -> Result<Content, NoMemory>
        ensures { IfOk result (λ c. c ≡ spec.with_text self value.now) }
    {
        let Content {
            attrs,
            kids,
            late,
            mut text,
            ..
        } = self;
        text.push_str(value.as_str())?;
        Ok(Content {
            attrs,
            kids,
            late,
            text,
            after_value: false,
        })
    }

    /// An attribute comes.
    pub fn attribute(self, alloc: Global, attr: Attr) -> Result<Content, NoMemory>
        ensures { IfOk result (λ c. c ≡ spec.with_attribute self attr) }
    {
        let Content {
            mut attrs,
            kids,
            late,
            ..
        } = self.closed(alloc)?;
        attrs.push(attr)?;
        let late = late || has_kids(&kids);
        Ok(Content {
            attrs,
            kids,
            late,
            text: Str::new(alloc),
            after_value: false,
        })
    }

    /// A child comes.
    pub fn child(self, alloc: Global, node: Node) -> Result<Content, NoMemory>
        ensures { IfOk result (λ c. c ≡ spec.with_child self node) }
    {
        match node {
            Node::Text { value } => self.text(&value),
            Node::Element { name, attrs, kids } => {
                self.other(alloc, Node::Element { name, attrs, kids })
            }
            Node::Pi { target, value } => self.other(alloc, Node::Pi { target, value }),
        }
    }

    // A node that is no text comes.
    fn other(self, alloc: Global, node: Node) -> Result<Content, NoMemory>
        ensures { IfOk result (λ c. c ≡ spec.node_behind (spec.closed self) node) }
    {
        let Content {
            attrs,
            mut kids,
            late,
            ..
        } = self.closed(alloc)?;
        kids.push(node)?;
        Ok(Content {
            attrs,
            kids,
            late,
            text: Str::new(alloc),
            after_value: false,
        })
    }
}

/// All items, one after another, make the attributes and the children of their content.
pub fn items_make_content()
    ensures { (docs : items.Documents) (made : items.Made) (all : items.Items) →
        spec.StandsFor (spec.closed (spec.with_items docs made spec.no_content all)) (content_of docs made all) }
{}
