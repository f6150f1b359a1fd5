//! New elements and texts.
ghost use Rattle.std.specs.Prelude.{◌∷◌, [], Ok, map};
ghost use Rattle.std.specs.FinMap as forests;
ghost use Rattle.xml_model.specs.Constructors as spec;
ghost use Rattle.xml_model.specs.Nodes.{atomized};
ghost use Rattle.xq_nodes.specs.Answers.{Looks};
ghost use Rattle.xq_values.specs.Contents as contents;
ghost use Rattle.xq_values.specs.Seen.{item_seen, made_seen};

use crate::atoms::atomized;
use std::alloc::Global;
use xml_model::{Atom, Nav, Node};
use xq_ast::Str;
use xq_nodes::{EvalEnd, with_node};
use xq_values::{Content, Item, MadeRoot, element, items_make_content, limited_text, spaced};

// An item comes.
fn with_item<N: Nav>(
    alloc: Global,
    nav: &N,
    made: &[MadeRoot],
    content: Content,
    item: &Item,
) -> Result<Content, EvalEnd<N::Fault>>
    ensures { Looks (N.honest nav.now) (N.passes nav.now) (λ c. c) result
        (Ok (contents.with_items (forests.get (N.forest nav.now)) (made_seen made.now) content (item_seen (N.place nav.now) item.now ∷ []))) }
{
    match item {
        Item::Node { id } => with_node(alloc, nav, made, content, id),
        Item::Text { text } => {
            let text = text.copy()?;
            Ok(content.value(alloc, &Atom::Text { text })?)
        }
        Item::Int { value } => Ok(content.value(alloc, &Atom::Int { value: *value })?),
        Item::Truth { value } => Ok(content.value(alloc, &Atom::Truth { value: *value })?),
    }
}

/// The content that the items make, as in a new element, before its tests.
pub fn content_of<N: Nav>(
    alloc: Global,
    nav: &N,
    made: &[MadeRoot],
    items: &[Item],
) -> Result<Content, EvalEnd<N::Fault>>
    ensures { Looks (N.honest nav.now) (N.passes nav.now) (λ c. c) result
        (Ok (contents.closed (contents.with_items (forests.get (N.forest nav.now)) (made_seen made.now) contents.no_content (map (item_seen (N.place nav.now)) items.now)))) }
{
    let mut content = Content::new(alloc);
    for item in items {
        content = with_item(alloc, nav, made, content, item)?;
    }
    Ok(content.closed(alloc)?)
}

/// A new element with the content that the items make, or the first code of its tests.
pub fn new_element<N: Nav>(
    alloc: Global,
    nav: &N,
    made: &[MadeRoot],
    name: &Str,
    items: &[Item],
) -> Result<Node, EvalEnd<N::Fault>>
    ensures { Looks (N.honest nav.now) (N.passes nav.now) (λ n. n) result
        (spec.element name.now (spec.content_of (forests.get (N.forest nav.now)) (made_seen made.now) (map (item_seen (N.place nav.now)) items.now))) }
{
    // Hands out that what the items make is the content that the definition has.
    items_make_content();
    let content = content_of(alloc, nav, made, items)?;
    Ok(element(name, content)?)
}

/// The text of a new text or attribute: the items' values, with a space between each two.
pub fn new_text<N: Nav>(
    alloc: Global,
    nav: &N,
    made: &[MadeRoot],
    items: &[Item],
) -> Result<Str, EvalEnd<N::Fault>>
    ensures { Looks (N.honest nav.now) (N.passes nav.now) (λ s. s) result
        (spec.limited_text (spec.spaced (atomized (forests.get (N.forest nav.now)) (made_seen made.now) (map (item_seen (N.place nav.now)) items.now)))) }
{
    let atoms = atomized(alloc, nav, made, items)?;
    let text = spaced(alloc, atoms.as_slice())?;
    Ok(limited_text(text)?)
}
