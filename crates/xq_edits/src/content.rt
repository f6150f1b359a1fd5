//! Content that comes.
ghost use Rattle.std.specs.Prelude.{◌≡◌, List, map, Ok, Err, MatchResult};
ghost use Rattle.std.specs.FinMap as forests;
ghost use Rattle.xml_model.specs.Constructors.{Piece, content_of};
ghost use Rattle.xml_model.specs.Edits.{as_content, without_attributes};
ghost use Rattle.xq_edits.specs.Seen.{content_seen};
ghost use Rattle.xq_nodes.specs.Answers.{Looks};
ghost use Rattle.xq_values.specs.Contents.{StandsFor};
ghost use Rattle.xq_values.specs.Seen.{item_seen, made_seen};

use crate::change::NewContent;
use std::alloc::Global;
use xml_model::{Nav, NodeList};
use xq_ast::Code;
use xq_functions::content_of;
use xq_nodes::EvalEnd;
use xq_values::{Content, Item, MadeRoot, has_name_twice, items_make_content};

// The content, which is closed, or the first code of its tests.
fn tested(content: Content) -> Result<NewContent, Code>
    ensures { (ps : List Piece) → StandsFor content ps → MatchResult result (λ c. as_content ps ≡ Ok (content_seen c)) (λ code. as_content ps ≡ Err code) }
{
    let Content {
        attrs,
        kids,
        late,
        ..
    } = content;
    if late {
        return Err(Code::XQTY0024);
    }
    if has_name_twice(attrs.as_slice()) {
        return Err(Code::XQDY0025);
    }
    Ok(NewContent { attrs, kids })
}

/// What the items make as content: attributes, and the nodes after them. An attribute after a node
/// is XQTY0024, and a name that stands twice XQDY0025.
pub fn new_content<N: Nav>(
    alloc: Global,
    nav: &N,
    made: &[MadeRoot],
    items: &[Item],
) -> Result<NewContent, EvalEnd<N::Fault>>
    ensures { Looks (N.honest nav.now) (N.passes nav.now) content_seen result
        (as_content (content_of (forests.get (N.forest nav.now)) (made_seen made.now) (map (item_seen (N.place nav.now)) items.now))) }
{
    // Hands out that what the items make is the content that the definition has.
    items_make_content();
    let content = content_of(alloc, nav, made, items)?;
    Ok(tested(content)?)
}

/// The nodes of content that must have no attributes, else XPTY0004.
pub fn nodes_alone(content: NewContent) -> Result<NodeList, Code>
    ensures { result ≡ without_attributes (content_seen content) }
{
    match content.attrs.as_slice() {
        [] => Ok(content.kids),
        [_, ..] => Err(Code::XPTY0004),
    }
}
