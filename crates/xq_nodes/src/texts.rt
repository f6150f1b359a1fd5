//! The text of a node.
ghost use Rattle.std.specs.Prelude.{◌≡◌, ◌++◌, IfOk, IfErr, OnOk, string_bytes};
ghost use Rattle.xml_model.specs.Axes.{string_of_node};
ghost use Rattle.xml_model.specs.Nav.{stored_at, told_at};
ghost use Rattle.xml_model.specs.NavFaults.{Passes};
ghost use Rattle.xq_nodes.specs.Walks.{text_of, below_text};

use crate::calls::kind_of;
use crate::walks::add_below;
use std::alloc::Global;
use xml_model::{Id, Nav, NavEnd};
use xq_ast::{Kind, NoMemory, Sequence, Str};

fn append(text: &mut String, more: &Str) -> Result<(), NoMemory>
    ensures { OnOk result (string_bytes text.new ≡ string_bytes text.old ++ more.now) }
{
    text.push_str(more.as_str())?;
    Ok(())
}

// Adds the value of a text.
fn add_text<N: Nav>(text: &mut String, nav: &N, n: Id) -> Result<(), NavEnd<N::Fault>>
    ensures gives { OnOk result (N.honest nav.now → string_bytes text.new ≡ string_bytes text.old ++ text_of (told_at (stored_at (N.forest nav.now) (N.place nav.now n)))) }
    ensures fault { IfErr result (Passes (N.passes nav.now)) }
{
    match kind_of(nav, n)? {
        Kind::Text => Ok(append(text, &nav.value(n)?)?),
        Kind::Document => Ok(()),
        Kind::Element => Ok(()),
        Kind::Attribute => Ok(()),
        Kind::Pi => Ok(()),
    }
}

fn texts_below<N: Nav>(alloc: Global, nav: &N, n: Id) -> Result<Str, NavEnd<N::Fault>>
    ensures gives { IfOk result (λ s. N.honest nav.now → s ≡ below_text (N.forest nav.now) (N.place nav.now n)) }
    ensures fault { IfErr result (Passes (N.passes nav.now)) }
{
    let mut nodes = Sequence::new(alloc);
    add_below(&mut nodes, nav, n)?;
    let mut text = String::new(alloc);
    for m in nodes.as_slice() {
        add_text(&mut text, nav, *m)?;
    }
    Ok(Str::from_string(text))
}

/// The string value of a node: of an element or a document the texts in it, one after another; of
/// others their value.
pub fn string_value<N: Nav>(alloc: Global, nav: &N, n: Id) -> Result<Str, NavEnd<N::Fault>>
    ensures gives { IfOk result (λ s. N.honest nav.now → s ≡ string_of_node (N.forest nav.now) (N.place nav.now n)) }
    ensures fault { IfErr result (Passes (N.passes nav.now)) }
{
    match kind_of(nav, n)? {
        Kind::Document => texts_below(alloc, nav, n),
        Kind::Element => texts_below(alloc, nav, n),
        Kind::Attribute => nav.value(n),
        Kind::Text => nav.value(n),
        Kind::Pi => nav.value(n),
    }
}
