//! Documents as lists of lines of PYX.
ghost use Rattle.std.specs.Prelude.{◌≡◌, ◌∷◌, ◌++◌, [], map, IfOk, OnOk};
ghost use Rattle.xml_model.specs.Pyx.{attribute_line, behind_target, pyx, pyx_node, pyx_of};
ghost use Rattle.xml_model.specs.Values.{escaped};

use crate::escape::push_escaped;
use std::alloc::Global;
use xml_model::{Attr, AttrList, Doc, Node, NodeList};
use xq_ast::{NoMemory, Sequence, Str, StrList};

// The mark that a line begins with, and a name.
fn marked(alloc: Global, mark: &str, name: &Str) -> Result<Str, NoMemory>
    ensures { IfOk result (λ line. line ≡ mark.now ++ name.now) }
{
    let mut line = Str::of(alloc, mark)?;
    line.push_str(name.as_str())?;
    Ok(line)
}

/// The line of an attribute, without its newline.
pub fn attribute_line(alloc: Global, attr: &Attr) -> Result<Str, NoMemory>
    ensures { IfOk result (λ line. line ≡ attribute_line attr.now) }
{
    let mut line = marked(alloc, "A", &attr.name)?;
    line.push_str(" ")?;
    push_escaped(&mut line, attr.value.as_str())?;
    Ok(line)
}

/// The line of an atomic value in an answer, without its newline: its text with its escapes, behind
/// `=`.
pub fn value_line(alloc: Global, text: &str) -> Result<Str, NoMemory>
    ensures { IfOk result (λ line. line ≡ 61 ∷ escaped text.now) }
{
    let mut line = Str::of(alloc, "=")?;
    push_escaped(&mut line, text)?;
    Ok(line)
}

fn characters_of(alloc: Global, value: &Str) -> Result<Str, NoMemory>
    ensures { IfOk result (λ line. line ≡ 45 ∷ escaped value.now) }
{
    let mut line = Str::of(alloc, "-")?;
    push_escaped(&mut line, value.as_str())?;
    Ok(line)
}

// Adds what stands after an instruction's target.
fn push_behind(line: &mut Str, value: &Str) -> Result<(), NoMemory>
    ensures { OnOk result (line.new ≡ line.old ++ behind_target value.now) }
{
    if value.is_empty() {
        return Ok(());
    }
    line.push_str(" ")?;
    push_escaped(line, value.as_str())?;
    Ok(())
}

fn instruction_of(alloc: Global, target: &Str, value: &Str) -> Result<Str, NoMemory>
    ensures { IfOk result (λ line. line ≡ 63 ∷ (target.now ++ behind_target value.now)) }
{
    let mut line = marked(alloc, "?", target)?;
    push_behind(&mut line, value)?;
    Ok(line)
}

fn push_attributes(alloc: Global, lines: &mut StrList, attrs: &AttrList) -> Result<(), NoMemory>
    ensures { OnOk result (lines.new ≡ lines.old ++ map attribute_line attrs.now) }
{
    for attr in attrs.as_slice() {
        lines.push(attribute_line(alloc, attr)?)?;
    }
    Ok(())
}

/// Adds the canonical lines of nodes, one after another.
#[cycle(list)]
pub fn push_nodes(alloc: Global, lines: &mut StrList, nodes: &NodeList) -> Result<(), NoMemory>
    ensures { OnOk result (lines.new ≡ lines.old ++ pyx_of nodes.now) }
{
    for node in nodes.as_slice() {
        push_node(alloc, lines, node)?;
    }
    Ok(())
}

/// Adds a node's canonical lines.
#[cycle(list)]
pub fn push_node(alloc: Global, lines: &mut StrList, node: &Node) -> Result<(), NoMemory>
    ensures { OnOk result (lines.new ≡ lines.old ++ pyx_node node.now) }
{
    match node {
        Node::Element { name, attrs, kids } => {
            lines.push(marked(alloc, "(", name)?)?;
            push_attributes(alloc, lines, attrs)?;
            push_nodes(alloc, lines, kids)?;
            lines.push(marked(alloc, ")", name)?)?;
        }
        Node::Text { value } => lines.push(characters_of(alloc, value)?)?,
        Node::Pi { target, value } => lines.push(instruction_of(alloc, target, value)?)?,
    }
    Ok(())
}

/// A document's canonical lines, without newlines, whether the document is valid or not.
pub fn lines_of(alloc: Global, doc: &Doc) -> Result<StrList, NoMemory>
    ensures { IfOk result (λ lines. lines ≡ pyx doc.now) }
{
    let mut lines = Sequence::new(alloc);
    push_nodes(alloc, &mut lines, &doc.kids)?;
    Ok(lines)
}
