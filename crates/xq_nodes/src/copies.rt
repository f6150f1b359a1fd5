//! Copies of stored nodes.
ghost use Rattle.std.specs.Prelude.{◌≡◌, IfOk, IfErr, OnOk};
ghost use Rattle.xml_model.specs.Nav.{stored_at, told_at};
ghost use Rattle.xml_model.specs.NavFaults.{Passes};
ghost use Rattle.xml_model.specs.Place.{attrs_of, kids_of};
ghost use Rattle.xml_model.specs.declared.node.Node.TheVariants.{Element};
ghost use Rattle.xq_nodes.specs.Copies.{copied_as, standing_at, with_copied};

use crate::calls::{first_of, kind_of, next_of};
use std::alloc::Global;
use xml_model::{Attr, AttrList, Id, Nav, NavEnd, Node, NodeList};
use xq_ast::{Items, Kind, NoMemory, Sequence};

/// A tree that is a copy of what stands at a node.
#[derive(Debug, Drop)]
pub enum Copied {
    /// Of a document: its nodes.
    Document { kids: NodeList },
    Node { node: Node },
    Attribute { attr: Attr },
}

// What stands in a node.
#[derive(Debug, Drop)]
struct Inside {
    attrs: AttrList,
    kids: NodeList,
}

fn add(inside: &mut Inside, copied: Copied) -> Result<(), NoMemory>
    ensures { OnOk result (inside.new ≡ with_copied inside.old copied) }
{
    match copied {
        Copied::Document { .. } => Ok(()),
        Copied::Node { node } => Ok(inside.kids.push(node)?),
        Copied::Attribute { attr } => inside.attrs.push(attr),
    }
}

#[cycle(copy)]
fn copy_inside<N: Nav>(alloc: Global, nav: &N, n: Id) -> Result<Inside, NavEnd<N::Fault>>
    ensures gives { IfOk result (λ inside. N.honest nav.now → (inside.attrs ≡ attrs_of (standing_at (N.forest nav.now) (N.place nav.now n))) × (inside.kids ≡ kids_of (standing_at (N.forest nav.now) (N.place nav.now n)))) }
    ensures fault { IfErr result (Passes (N.passes nav.now)) }
{
    let mut inside = Inside {
        attrs: Sequence::new(alloc),
        kids: Items::new(alloc),
    };
    let mut at = first_of(nav, n)?;
    while let Some(m) = at {
        add(&mut inside, copy(alloc, nav, m)?)?;
        at = next_of(nav, m)?;
    }
    Ok(inside)
}

fn copy_element<N: Nav>(nav: &N, n: Id, inside: Inside) -> Result<Node, NavEnd<N::Fault>>
    ensures gives { IfOk result (λ node. N.honest nav.now → node ≡ Element (told_at (stored_at (N.forest nav.now) (N.place nav.now n))).name inside.attrs inside.kids) }
    ensures fault { IfErr result (Passes (N.passes nav.now)) }
{
    Ok(Node::Element {
        name: nav.name(n)?,
        attrs: inside.attrs,
        kids: inside.kids,
    })
}

/// The tree that a node is. What does not stand anywhere is copied as a document without nodes.
#[cycle(copy)]
pub fn copy<N: Nav>(alloc: Global, nav: &N, n: Id) -> Result<Copied, NavEnd<N::Fault>>
    ensures gives { IfOk result (λ copied. N.honest nav.now → copied_as copied ≡ standing_at (N.forest nav.now) (N.place nav.now n)) }
    ensures fault { IfErr result (Passes (N.passes nav.now)) }
{
    match kind_of(nav, n)? {
        Kind::Document => {
            let inside = copy_inside(alloc, nav, n)?;
            Ok(Copied::Document { kids: inside.kids })
        }
        Kind::Element => {
            let inside = copy_inside(alloc, nav, n)?;
            Ok(Copied::Node {
                node: copy_element(nav, n, inside)?,
            })
        }
        Kind::Attribute => Ok(Copied::Attribute {
            attr: Attr {
                name: nav.name(n)?,
                value: nav.value(n)?,
            },
        }),
        Kind::Text => Ok(Copied::Node {
            node: Node::Text {
                value: nav.value(n)?,
            },
        }),
        Kind::Pi => Ok(Copied::Node {
            node: Node::Pi {
                target: nav.name(n)?,
                value: nav.value(n)?,
            },
        }),
    }
}
