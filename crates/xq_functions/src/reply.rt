//! The lines of answers.
ghost use Rattle.std.specs.Prelude.{◌≡◌, ◌++◌, Ok, Some, map, length, OnOk, IfOk};
ghost use Rattle.std.specs.FinMap as forests;
ghost use Rattle.std.specs.Option.{option_map};
ghost use Rattle.xml_model.specs.Atoms as atoms;
ghost use Rattle.xml_model.specs.ItemLines as spec;
ghost use Rattle.xml_model.specs.Items.{node_at};
ghost use Rattle.xml_model.specs.Nav.{stored_at};
ghost use Rattle.xml_model.specs.Pyx.{text_of};
ghost use Rattle.xml_model.specs.Statement.{answer_of};
ghost use Rattle.xml_model.specs.TreeRows.{placed_by};
ghost use Rattle.xq_nodes.specs.Answers.{Looks};
ghost use Rattle.xq_nodes.specs.Copies.{copied_as};
ghost use Rattle.xq_values.specs.Seen.{item_seen, made_seen, node_seen};
ghost use Rattle.xq_values.specs.Gives.{Gives};
ghost use Rattle.xq_functions.specs.Rooms as rooms;
ghost use Rattle.xq_functions.specs.Says.{Says};

use pyx_text::{attribute_line, push_node, push_nodes, value_line};
use std::alloc::Global;
use xml_model::{Atom, Id, Nav, PlacedRef, REPLY_BYTES_MAX};
use xq_ast::{Code, NoMemory, Sequence, Str, StrList};
use xq_nodes::{Copied, EvalEnd, copy, made_at};
use xq_values::{Item, MadePlace, MadeRoot, NodeId, ValueEnd, atom_text};

/// The lines so far, and how many bytes more they and their newlines may have.
#[derive(Debug, Drop)]
pub(crate) struct Reply {
    pub lines: StrList,
    pub room: u64,
}

// The room behind these lines with their newlines, where they fit.
fn room_behind(room: u64, lines: &[Str]) -> Option<u64>
    ensures { result ≡ rooms.room_behind room (length (text_of lines.now)) }
{
    let mut left = room;
    for line in lines {
        let bytes = line.len() as u64;
        if bytes >= left {
            return None;
        }
        left -= bytes + 1;
    }
    Some(left)
}

// The lines of what stands at a node.
fn placed_lines(alloc: Global, placed: PlacedRef<'_>) -> Result<StrList, NoMemory>
    ensures { IfOk result (λ lines. lines ≡ spec.placed_lines (Some (placed_by placed.entry))) }
{
    let mut lines = Sequence::new(alloc);
    match placed {
        PlacedRef::Document(doc) => push_nodes(alloc, &mut lines, &doc.kids)?,
        PlacedRef::Node(node) => push_node(alloc, &mut lines, node)?,
        PlacedRef::Attribute(attr) => lines.push(attribute_line(alloc, attr)?)?,
    }
    Ok(lines)
}

// What stands at a place of a constructed tree, as a `Nav` sees it.
fn placed_at<'m, N: Nav>(_nav: &N, made: &'m [MadeRoot], at: &MadePlace) -> Option<PlacedRef<'m>>
    ensures { option_map placed_by result
        ≡ node_at (forests.get (N.forest _nav.now)) (made_seen made.now) (node_seen (N.place _nav.now) (NodeId.Made at.now)) }
{
    made_at(made, at)
}

// The lines of a node of a constructed tree.
fn made_lines<N: Nav>(
    alloc: Global,
    nav: &N,
    made: &[MadeRoot],
    at: &MadePlace,
) -> Result<StrList, NoMemory>
    ensures { IfOk result (λ lines. lines
        ≡ spec.placed_lines (node_at (forests.get (N.forest nav.now)) (made_seen made.now) (node_seen (N.place nav.now) (NodeId.Made at.now)))) }
{
    match placed_at(nav, made, at) {
        None => Ok(Sequence::new(alloc)),
        Some(placed) => placed_lines(alloc, placed),
    }
}

// The lines of a copy.
fn copied_lines(alloc: Global, copied: &Copied) -> Result<StrList, NoMemory>
    ensures { IfOk result (λ lines. lines ≡ spec.placed_lines (Some (copied_as copied.now))) }
{
    let mut lines = Sequence::new(alloc);
    match copied {
        Copied::Document { kids } => push_nodes(alloc, &mut lines, kids)?,
        Copied::Node { node } => push_node(alloc, &mut lines, node)?,
        Copied::Attribute { attr } => lines.push(attribute_line(alloc, attr)?)?,
    }
    Ok(lines)
}

// The lines of a stored node.
fn stored_lines<N: Nav>(alloc: Global, nav: &N, id: Id) -> Result<StrList, EvalEnd<N::Fault>>
    ensures { Looks (N.honest nav.now) (N.passes nav.now) (λ lines. lines) result
        (Ok (spec.placed_lines (stored_at (N.forest nav.now) (N.place nav.now id)))) }
{
    let copied = copy(alloc, nav, id)?;
    Ok(copied_lines(alloc, &copied)?)
}

// The line of an atomic value.
fn value_lines(alloc: Global, atom: &Atom) -> Result<StrList, NoMemory>
    ensures { IfOk result (λ lines. lines ≡ spec.atom_line (atoms.atom_text atom.now)) }
{
    let text = atom_text(alloc, atom)?;
    let mut lines = Sequence::new(alloc);
    lines.push(value_line(alloc, text.as_str())?)?;
    Ok(lines)
}

// The lines of a node.
fn node_lines<N: Nav>(
    alloc: Global,
    nav: &N,
    made: &[MadeRoot],
    n: &NodeId,
) -> Result<StrList, EvalEnd<N::Fault>>
    ensures { Looks (N.honest nav.now) (N.passes nav.now) (λ lines. lines) result
        (Ok (spec.placed_lines (node_at (forests.get (N.forest nav.now)) (made_seen made.now) (node_seen (N.place nav.now) n.now)))) }
{
    match n {
        NodeId::Stored { id } => stored_lines(alloc, nav, *id),
        NodeId::Made { at } => Ok(made_lines(alloc, nav, made, at)?),
    }
}

// The lines of an item.
fn lines_of_item<N: Nav>(
    alloc: Global,
    nav: &N,
    made: &[MadeRoot],
    item: &Item,
) -> Result<StrList, EvalEnd<N::Fault>>
    ensures { Looks (N.honest nav.now) (N.passes nav.now) (λ lines. lines) result
        (Ok (spec.item_lines (forests.get (N.forest nav.now)) (made_seen made.now) (item_seen (N.place nav.now) item.now))) }
{
    match item {
        Item::Node { id } => node_lines(alloc, nav, made, id),
        Item::Text { text } => Ok(value_lines(alloc, &Atom::Text { text: text.copy()? })?),
        Item::Int { value } => Ok(value_lines(alloc, &Atom::Int { value: *value })?),
        Item::Truth { value } => Ok(value_lines(alloc, &Atom::Truth { value: *value })?),
    }
}

// Adds lines at the end.
fn append(lines: &mut StrList, more: StrList) -> Result<(), NoMemory>
    ensures { OnOk result (lines.new ≡ lines.old ++ more) }
{
    for line in more.into_vec() {
        lines.push(line)?;
    }
    Ok(())
}

impl Reply {
    // No lines.
    fn new(alloc: Global) -> Reply
        ensures { result ≡ rooms.no_lines }
    {
        Reply {
            lines: Sequence::new(alloc),
            room: REPLY_BYTES_MAX,
        }
    }

    // Adds lines, where they fit.
    fn with_lines(self, more: StrList) -> Result<Reply, ValueEnd>
        ensures { Gives (λ reply. reply) result (rooms.with_lines self more) }
    {
        let Reply { mut lines, room } = self;
        let Some(room) = room_behind(room, more.as_slice()) else {
            return Err(ValueEnd::Code(Code::ReplyTooLong));
        };
        append(&mut lines, more)?;
        Ok(Reply { lines, room })
    }
}

// The reply that the lines of the items make, one item after another. It stops at the item that is
// too much.
fn reply_of<N: Nav>(
    alloc: Global,
    nav: &N,
    made: &[MadeRoot],
    items: &[Item],
) -> Result<Reply, EvalEnd<N::Fault>>
    ensures { Looks (N.honest nav.now) (N.passes nav.now) (λ reply. reply) result
        (rooms.replied rooms.no_lines (map (spec.item_lines (forests.get (N.forest nav.now)) (made_seen made.now)) (map (item_seen (N.place nav.now)) items.now))) }
{
    let mut reply = Reply::new(alloc);
    for item in items {
        let more = lines_of_item(alloc, nav, made, item)?;
        reply = reply.with_lines(more)?;
    }
    Ok(reply)
}

/// The lines of the items, one item after another, or `ReplyTooLong` where they and their newlines
/// have more bytes than an answer may have.
pub fn item_lines<N: Nav>(
    alloc: Global,
    nav: &N,
    made: &[MadeRoot],
    items: &[Item],
) -> Result<StrList, EvalEnd<N::Fault>>
    ensures { Says (N.honest nav.now) (N.passes nav.now) result
        (answer_of (spec.lines_of (forests.get (N.forest nav.now)) (made_seen made.now) (map (item_seen (N.place nav.now)) items.now))) }
{
    match reply_of(alloc, nav, made, items) {
        Ok(reply) => Ok(reply.lines),
        Err(end) => Err(end),
    }
}
