//! Documents as canonical text.
// Documents as lines of PYX, to a sink.
ghost use Rattle.std.specs.Prelude.{◌≡◌, ◌∷◌, ◌++◌, [], map, MatchOption, OnOk};
ghost use Rattle.std.specs.Io.KnownBytes.{append_known};
ghost use Rattle.byte_edge.specs.Faults.{HasCause};
ghost use Rattle.byte_edge.specs.Took.{AppendedPrefix};
ghost use Rattle.xml_model.specs.Pyx.{attribute_line, behind_target, pyx, pyx_node, pyx_of, text_of};
ghost use Rattle.xml_model.specs.Values.{escaped};
ghost use Rattle.byte_edge.specs.Sending.{Sends, stage};

use byte_edge::{Pending, Sink, WriteFault, flush, send_byte, send_bytes};
use xml_model::{Attr, AttrList, Doc, Node, NodeList};
use xq_ast::Str;

// The letter of a byte's escape, if it has one.
fn letter_of(byte: u8) -> Option<u8>
    ensures { MatchOption result (escaped (byte ∷ []) ≡ byte ∷ []) (λ letter. escaped (byte ∷ []) ≡ 92 ∷ letter ∷ []) }
{
    match byte {
        b'\n' => Some(b'n'),
        b'\t' => Some(b't'),
        b'\\' => Some(b'\\'),
        _ => None,
    }
}

// A byte of a value.
fn send_escaped<W: Sink>(to: &mut W, pending: &mut Pending, byte: u8) -> Result<(), WriteFault>
    ensures { Sends result (escaped (byte ∷ []))
        (stage (W.written to.old) (W.faults to.old) pending.old)
        (stage (W.written to.new) (W.faults to.new) pending.new) }
{
    match letter_of(byte) {
        None => send_byte(to, pending, byte),
        Some(letter) => {
            send_byte(to, pending, b'\\')?;
            send_byte(to, pending, letter)
        }
    }
}

// A value, with its escapes.
fn send_value<W: Sink>(to: &mut W, pending: &mut Pending, value: &[u8]) -> Result<(), WriteFault>
    ensures { Sends result (escaped value.now)
        (stage (W.written to.old) (W.faults to.old) pending.old)
        (stage (W.written to.new) (W.faults to.new) pending.new) }
{
    for byte in value {
        send_escaped(to, pending, *byte)?;
    }
    Ok(())
}

// The mark that a line begins with, and a name.
fn send_mark<W: Sink>(
    to: &mut W,
    pending: &mut Pending,
    mark: u8,
    name: &Str,
) -> Result<(), WriteFault>
    ensures { Sends result (mark ∷ name.now)
        (stage (W.written to.old) (W.faults to.old) pending.old)
        (stage (W.written to.new) (W.faults to.new) pending.new) }
{
    send_byte(to, pending, mark)?;
    send_bytes(to, pending, name.as_bytes())
}

// A value after a mark or a space, to the line's end.
fn send_rest<W: Sink>(
    to: &mut W,
    pending: &mut Pending,
    before: u8,
    value: &Str,
) -> Result<(), WriteFault>
    ensures { Sends result (before ∷ (escaped value.now ++ 10 ∷ []))
        (stage (W.written to.old) (W.faults to.old) pending.old)
        (stage (W.written to.new) (W.faults to.new) pending.new) }
{
    send_byte(to, pending, before)?;
    send_value(to, pending, value.as_bytes())?;
    send_byte(to, pending, b'\n')
}

// The line of a tag.
fn send_tag<W: Sink>(
    to: &mut W,
    pending: &mut Pending,
    mark: u8,
    name: &Str,
) -> Result<(), WriteFault>
    ensures { Sends result (text_of ((mark ∷ name.now) ∷ []))
        (stage (W.written to.old) (W.faults to.old) pending.old)
        (stage (W.written to.new) (W.faults to.new) pending.new) }
{
    send_mark(to, pending, mark, name)?;
    send_byte(to, pending, b'\n')
}

// What stands after an instruction's target, to the line's end.
fn send_behind<W: Sink>(to: &mut W, pending: &mut Pending, value: &Str) -> Result<(), WriteFault>
    ensures { Sends result (behind_target value.now ++ 10 ∷ [])
        (stage (W.written to.old) (W.faults to.old) pending.old)
        (stage (W.written to.new) (W.faults to.new) pending.new) }
{
    if value.is_empty() {
        return send_byte(to, pending, b'\n');
    }
    send_rest(to, pending, b' ', value)
}

fn send_instruction<W: Sink>(
    to: &mut W,
    pending: &mut Pending,
    target: &Str,
    value: &Str,
) -> Result<(), WriteFault>
    ensures { Sends result (text_of ((63 ∷ (target.now ++ behind_target value.now)) ∷ []))
        (stage (W.written to.old) (W.faults to.old) pending.old)
        (stage (W.written to.new) (W.faults to.new) pending.new) }
{
    send_mark(to, pending, b'?', target)?;
    send_behind(to, pending, value)
}

fn send_attribute<W: Sink>(to: &mut W, pending: &mut Pending, attr: &Attr) -> Result<(), WriteFault>
    ensures { Sends result (text_of (attribute_line attr.now ∷ []))
        (stage (W.written to.old) (W.faults to.old) pending.old)
        (stage (W.written to.new) (W.faults to.new) pending.new) }
{
    send_mark(to, pending, b'A', &attr.name)?;
    send_rest(to, pending, b' ', &attr.value)
}

fn send_attributes<W: Sink>(
    to: &mut W,
    pending: &mut Pending,
    attrs: &AttrList,
) -> Result<(), WriteFault>
    ensures { Sends result (text_of (map attribute_line attrs.now))
        (stage (W.written to.old) (W.faults to.old) pending.old)
        (stage (W.written to.new) (W.faults to.new) pending.new) }
{
    for attr in attrs.as_slice() {
        send_attribute(to, pending, attr)?;
    }
    Ok(())
}

#[cycle(send)]
fn send_nodes<W: Sink>(
    to: &mut W,
    pending: &mut Pending,
    nodes: &NodeList,
) -> Result<(), WriteFault>
    ensures { Sends result (text_of (pyx_of nodes.now))
        (stage (W.written to.old) (W.faults to.old) pending.old)
        (stage (W.written to.new) (W.faults to.new) pending.new) }
{
    for node in nodes.as_slice() {
        send_node(to, pending, node)?;
    }
    Ok(())
}

#[cycle(send)]
fn send_element<W: Sink>(
    to: &mut W,
    pending: &mut Pending,
    name: &Str,
    attrs: &AttrList,
    kids: &NodeList,
) -> Result<(), WriteFault>
    ensures { Sends result (text_of ((40 ∷ name.now) ∷ (map attribute_line attrs.now ++ (pyx_of kids.now ++ (41 ∷ name.now) ∷ []))))
        (stage (W.written to.old) (W.faults to.old) pending.old)
        (stage (W.written to.new) (W.faults to.new) pending.new) }
{
    send_tag(to, pending, b'(', name)?;
    send_attributes(to, pending, attrs)?;
    send_nodes(to, pending, kids)?;
    send_tag(to, pending, b')', name)
}

#[cycle(send)]
fn send_node<W: Sink>(to: &mut W, pending: &mut Pending, node: &Node) -> Result<(), WriteFault>
    ensures { Sends result (text_of (pyx_node node.now))
        (stage (W.written to.old) (W.faults to.old) pending.old)
        (stage (W.written to.new) (W.faults to.new) pending.new) }
{
    match node {
        Node::Element { name, attrs, kids } => send_element(to, pending, name, attrs, kids),
        Node::Text { value } => send_rest(to, pending, b'-', value),
        Node::Pi { target, value } => send_instruction(to, pending, target, value),
    }
}

/// Writes a document's canonical lines, each with its newline, whether the document is valid or not.
/// After a fault a prefix of them was appended. Takes no memory.
pub fn write_doc<W: Sink>(doc: &Doc, to: &mut W) -> Result<(), WriteFault>
    ensures all { OnOk result (W.written to.new ≡ append_known (W.written to.old) (text_of (pyx doc.now))) }
    ensures prefix { AppendedPrefix (text_of (pyx doc.now)) (W.written to.old) (W.written to.new) }
    ensures cause { HasCause (W.faults to.old) (W.faults to.new) result }
{
    let mut pending = Pending::new();
    send_nodes(to, &mut pending, &doc.kids)?;
    flush(to, &mut pending)
}
