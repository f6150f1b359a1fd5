//! Updates in which a target is tested with those before and after it: `replace` and `rename`.
ghost use Rattle.std.specs.Prelude.{◌≡◌, ◌∷◌, ◌++◌, [], map, Ok, IfOk, IfErr};
ghost use Rattle.std.specs.FinMap as forests;
ghost use Rattle.std.specs.List.{list_any};
ghost use Rattle.xml_model.specs.DocumentOrder.{node_cmp};
ghost use Rattle.xml_model.specs.Edits as spec;
ghost use Rattle.xml_model.specs.Items.{Made, plain, ◌>>?◌};
ghost use Rattle.xml_model.specs.declared.edit.EditKind.TheVariants as edit;
ghost use Rattle.xq_edits.specs.Inside.{IsThere};
ghost use Rattle.xq_edits.specs.Seen.{change_seen, content_seen};
ghost use Rattle.xq_edits.specs.Turns.{AreOutermost, nodes_of};
ghost use Rattle.xq_nodes.specs.Answers.{IsFault, Leaves, Looks};
ghost use Rattle.xq_nodes.specs.Joins.{Rises};

use crate::change::{Change, ChangeList, NewContent};
use crate::content::nodes_alone;
use crate::inside::stands_in;
use crate::nav_calls::{is_document, kind_of};
use crate::once::named_once;
use std::alloc::Global;
use xml_model::{AttrList, EditKind, Id, Nav};
use xq_ast::{Code, Items, Kind, Sequence, Str};
use xq_nodes::EvalEnd;

// Whether the target, which stands somewhere, stands in a node that is changed: if in any, then in
// the last one.
fn stands_in_any<N: Nav>(nav: &N, done: &[Change], target: Id) -> Result<bool, EvalEnd<N::Fault>>
    requires rising { N.honest nav.now → Rises node_cmp (nodes_of (map (change_seen (N.place nav.now)) done.now) ++ N.place nav.now target ∷ []) }
    requires apart { N.honest nav.now → AreOutermost [] (map (change_seen (N.place nav.now)) done.now) }
    ensures gives { IfOk result (λ is. N.honest nav.now → IsThere (N.forest nav.now) (N.place nav.now target) →
        is ≡ list_any (spec.stands_in (N.place nav.now target)) (map (change_seen (N.place nav.now)) done.now)) }
    ensures fault { IfErr result (IsFault (N.passes nav.now)) }
{
    let Some(last) = done.last() else {
        return Ok(false);
    };
    stands_in(nav, target, last.node)
}

/// Whether the target may be replaced after these changes: a document is XPTY0004, and so is a
/// node in one that is replaced.
pub fn may_replace<N: Nav>(nav: &N, done: &[Change], target: Id) -> Result<(), EvalEnd<N::Fault>>
    requires rising { N.honest nav.now → Rises node_cmp (nodes_of (map (change_seen (N.place nav.now)) done.now) ++ N.place nav.now target ∷ []) }
    requires apart { N.honest nav.now → AreOutermost [] (map (change_seen (N.place nav.now)) done.now) }
    ensures { Looks (N.honest nav.now) (N.passes nav.now) (λ _. N.place nav.now target) result
        (spec.unless_document edit.Delete (spec.standing_at (forests.get (N.forest nav.now)) (N.place nav.now target)) >>? (λ _. spec.outermost (map (change_seen (N.place nav.now)) done.now) (N.place nav.now target))) }
{
    if is_document(nav, target)? {
        return Err(EvalEnd::Code(Code::XPTY0004));
    }
    if stands_in_any(nav, done, target)? {
        return Err(EvalEnd::Code(Code::XPTY0004));
    }
    Ok(())
}

// ---- replace

// The attributes of content that must have no nodes, else XPTY0004.
fn attributes_alone(content: NewContent) -> Result<AttrList, Code>
    ensures { result ≡ spec.with_attributes_alone (content_seen content) }
{
    match content.kids.as_slice() {
        [] => Ok(content.attrs),
        [_, ..] => Err(Code::XPTY0004),
    }
}

fn put_attributes(alloc: Global, content: NewContent) -> Result<EditKind, Code>
    ensures { result ≡ (spec.with_attributes_alone (content_seen content) >>? (λ attrs. Ok (edit.Put attrs []))) }
{
    Ok(EditKind::Put {
        attrs: attributes_alone(content)?,
        kids: Items::new(alloc),
    })
}

fn put_nodes(alloc: Global, content: NewContent) -> Result<EditKind, Code>
    ensures { result ≡ (spec.without_attributes (content_seen content) >>? (λ kids. Ok (edit.Put [] kids))) }
{
    Ok(EditKind::Put {
        attrs: Sequence::new(alloc),
        kids: nodes_alone(content)?,
    })
}

/// What is done to a target that is replaced by this content, after these changes and before these
/// targets: in place of a child come nodes alone and in place of an attribute attributes alone,
/// else XPTY0004. Once the last target among the attributes of an element has its content, a name
/// that stands twice there is XQDY0025.
pub fn replacement<N: Nav>(
    alloc: Global,
    nav: &N,
    done: &[Change],
    target: Id,
    content: NewContent,
    more: &[Id],
) -> Result<EditKind, EvalEnd<N::Fault>>
    requires rising { N.honest nav.now → Rises node_cmp (nodes_of (map (change_seen (N.place nav.now)) done.now) ++ N.place nav.now target ∷ map (N.place nav.now) more.now) }
    ensures { Looks (N.honest nav.now) (N.passes nav.now) (λ what. what) result
        (spec.in_place_of (content_seen content) (spec.standing_at (forests.get (N.forest nav.now)) (N.place nav.now target)) >>? (λ what.
        spec.named_once (forests.get (N.forest nav.now)) (map (change_seen (N.place nav.now)) done.now) (map (N.place nav.now) more.now) (record { node = N.place nav.now target; what = what }))) }
{
    match kind_of(nav, target)? {
        Kind::Document => Err(EvalEnd::Code(Code::XPTY0004)),
        Kind::Attribute => {
            let what = put_attributes(alloc, content)?;
            named_once(alloc, nav, done, Change { node: target, what }, more)
        }
        Kind::Element => Ok(put_nodes(alloc, content)?),
        Kind::Text => Ok(put_nodes(alloc, content)?),
        Kind::Pi => Ok(put_nodes(alloc, content)?),
    }
}

// ---- rename

// What is done to a target that gets the name, after these changes and before these targets.
fn renaming<N: Nav>(
    alloc: Global,
    nav: &N,
    name: &Str,
    done: &[Change],
    target: Id,
    more: &[Id],
) -> Result<EditKind, EvalEnd<N::Fault>>
    requires rising { N.honest nav.now → Rises node_cmp (nodes_of (map (change_seen (N.place nav.now)) done.now) ++ N.place nav.now target ∷ map (N.place nav.now) more.now) }
    ensures { Looks (N.honest nav.now) (N.passes nav.now) (λ what. what) result
        (spec.renamed name.now (spec.standing_at (forests.get (N.forest nav.now)) (N.place nav.now target)) >>? (λ what.
        spec.named_once (forests.get (N.forest nav.now)) (map (change_seen (N.place nav.now)) done.now) (map (N.place nav.now) more.now) (record { node = N.place nav.now target; what = what }))) }
{
    let what = EditKind::Rename { name: name.copy()? };
    match kind_of(nav, target)? {
        Kind::Attribute => named_once(alloc, nav, done, Change { node: target, what }, more),
        Kind::Element => Ok(what),
        Kind::Pi => Ok(what),
        Kind::Document => Err(EvalEnd::Code(Code::XPTY0004)),
        Kind::Text => Err(EvalEnd::Code(Code::XPTY0004)),
    }
}

/// Each target, an element, an attribute or an instruction, gets the name. Two attributes of one
/// name are XQDY0025.
pub fn rename<N: Nav>(
    alloc: Global,
    nav: &N,
    name: &Str,
    targets: &[Id],
) -> Result<ChangeList, EvalEnd<N::Fault>>
    requires rising { N.honest nav.now → Rises node_cmp (map (N.place nav.now) targets.now) }
    ensures { (made : Made) → Leaves (N.honest nav.now) (N.passes nav.now) (map (change_seen (N.place nav.now))) result made
        (spec.each (forests.get (N.forest nav.now)) (λ done n more. plain (spec.renamed name.now (spec.standing_at (forests.get (N.forest nav.now)) n) >>? (λ what.
        spec.named_once (forests.get (N.forest nav.now)) done more (record { node = n; what = what })))) [] (map (N.place nav.now) targets.now) made) }
{
    let mut done = Sequence::new(alloc);
    let mut left = targets;
    'each: while let [target, more @ ..] = left {
        let what = renaming(alloc, nav, name, done.as_slice(), *target, more)?;
        done.push(Change {
            node: *target,
            what,
        })?;
        left = more;
    }
    Ok(done)
}
