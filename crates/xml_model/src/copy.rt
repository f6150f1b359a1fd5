//! Copies of documents.
ghost use Rattle.std.specs.Prelude.{◌≡◌, IfOk};

use crate::node::{Attr, AttrList, Doc, Node, NodeList};
use std::alloc::Global;
use xq_ast::{Items, NoMemory, Sequence};

impl Attr {
    pub fn copy(&self) -> Result<Attr, NoMemory>
        ensures { IfOk result (λ a. a ≡ self.now) }
    {
        Ok(Attr {
            name: self.name.copy()?,
            value: self.value.copy()?,
        })
    }
}

fn copy_attrs(alloc: Global, attrs: &AttrList) -> Result<AttrList, NoMemory>
    ensures { IfOk result (λ all. all ≡ attrs.now) }
{
    let mut all = Sequence::new(alloc);
    for attr in attrs.as_slice() {
        all.push(attr.copy()?)?;
    }
    Ok(all)
}

#[cycle(copy)]
fn copy_nodes(alloc: Global, nodes: &NodeList) -> Result<NodeList, NoMemory>
    ensures { IfOk result (λ all. all ≡ nodes.now) }
{
    let mut all = Items::new(alloc);
    for node in nodes.as_slice() {
        all.push(node.copy(alloc)?)?;
    }
    Ok(all)
}

impl Node {
    #[cycle(copy)]
    pub fn copy(&self, alloc: Global) -> Result<Node, NoMemory>
        ensures { IfOk result (λ n. n ≡ self.now) }
    {
        match self {
            Node::Element { name, attrs, kids } => Ok(Node::Element {
                name: name.copy()?,
                attrs: copy_attrs(alloc, attrs)?,
                kids: copy_nodes(alloc, kids)?,
            }),
            Node::Text { value } => Ok(Node::Text {
                value: value.copy()?,
            }),
            Node::Pi { target, value } => Ok(Node::Pi {
                target: target.copy()?,
                value: value.copy()?,
            }),
        }
    }
}

impl Doc {
    pub fn copy(&self, alloc: Global) -> Result<Doc, NoMemory>
        ensures { IfOk result (λ d. d ≡ self.now) }
    {
        Ok(Doc {
            kids: copy_nodes(alloc, &self.kids)?,
        })
    }
}
