//! Updates whose targets are each tested by themselves: the insertions and the deletions.
ghost use Rattle.std.specs.Prelude.{◌≡◌, [], Ok, IfOk, map};
ghost use Rattle.std.specs.FinMap as forests;
ghost use Rattle.xml_model.specs.Constructors.{has_name_twice};
ghost use Rattle.xml_model.specs.Edits as spec;
ghost use Rattle.xml_model.specs.Items.{Made, ◌>>?◌};
ghost use Rattle.xml_model.specs.Place.{attrs_of};
ghost use Rattle.xml_model.specs.declared.edit.EditKind.TheVariants as edit;
ghost use Rattle.xq_edits.specs.Seen.{change_seen, content_seen, put, removed};
ghost use Rattle.xq_edits.specs.SharedNames.{into_attributes};
ghost use Rattle.xq_nodes.specs.Answers.{Leaves, Looks};
ghost use Rattle.xq_values.specs.Gives.{Gives};

use crate::change::{Change, ChangeList, NewContent, Removal, Side};
use crate::copies::{copy_attrs, copy_nodes};
use crate::standing::{kind_at, shares_name};
use std::alloc::Global;
use xml_model::{EditKind, Id, Nav, NodeList};
use xq_ast::{Code, Kind, NoMemory, Sequence};
use xq_nodes::EvalEnd;
use xq_values::{ValueEnd, has_name_twice};

// What goes into a document: nodes alone.
fn into_document(alloc: Global, content: &NewContent) -> Result<EditKind, ValueEnd>
    ensures { Gives (λ what. what) result (spec.without_attributes (content_seen content.now) >>? (λ kids. Ok (edit.Into [] kids))) }
{
    match content.attrs.as_slice() {
        [] => {
            let kids = copy_nodes(alloc, &content.kids)?;
            Ok(EditKind::Into {
                attrs: Sequence::new(alloc),
                kids,
            })
        }
        [_, ..] => Err(ValueEnd::Code(Code::XPTY0004)),
    }
}

// What goes into an element that has no name of the content: all of it.
fn all_of(alloc: Global, content: &NewContent) -> Result<EditKind, NoMemory>
    ensures { IfOk result (λ what. what ≡ edit.Into content.now.attrs content.now.kids) }
{
    Ok(EditKind::Into {
        attrs: copy_attrs(alloc, &content.attrs)?,
        kids: copy_nodes(alloc, &content.kids)?,
    })
}

// What goes into an element, where `repeats` says whether a name stands twice in the content itself.
fn into_element<N: Nav>(
    alloc: Global,
    nav: &N,
    content: &NewContent,
    repeats: bool,
    target: Id,
) -> Result<EditKind, EvalEnd<N::Fault>>
    requires { repeats ≡ has_name_twice content.now.attrs }
    ensures { Looks (N.honest nav.now) (N.passes nav.now) (λ what. what) result
        (into_attributes (attrs_of (spec.standing_at (forests.get (N.forest nav.now)) (N.place nav.now target))) (content_seen content.now)) }
{
    if repeats {
        return Err(EvalEnd::Code(Code::XQDY0025));
    }
    if shares_name(nav, content.attrs.as_slice(), target)? {
        return Err(EvalEnd::Code(Code::XQDY0025));
    }
    Ok(all_of(alloc, content)?)
}

// What goes into a target.
fn into_at<N: Nav>(
    alloc: Global,
    nav: &N,
    content: &NewContent,
    repeats: bool,
    target: Id,
) -> Result<EditKind, EvalEnd<N::Fault>>
    requires { repeats ≡ has_name_twice content.now.attrs }
    ensures { Looks (N.honest nav.now) (N.passes nav.now) (λ what. what) result
        (spec.into (content_seen content.now) (spec.standing_at (forests.get (N.forest nav.now)) (N.place nav.now target))) }
{
    match kind_at(nav, target)? {
        Kind::Document => Ok(into_document(alloc, content)?),
        Kind::Element => into_element(alloc, nav, content, repeats, target),
        _ => Err(EvalEnd::Code(Code::XPTY0004)),
    }
}

/// The content goes into each target, an element or a document.
pub fn insert_into<N: Nav>(
    alloc: Global,
    nav: &N,
    content: &NewContent,
    targets: &[Id],
) -> Result<ChangeList, EvalEnd<N::Fault>>
    ensures { (made : Made) → Leaves (N.honest nav.now) (N.passes nav.now) (map (change_seen (N.place nav.now))) result made
        (spec.each_alone (forests.get (N.forest nav.now)) (spec.into (content_seen content.now)) (map (N.place nav.now) targets.now) made) }
{
    let repeats = has_name_twice(content.attrs.as_slice());
    let mut changes = Sequence::new(alloc);
    for target in targets {
        let what = into_at(alloc, nav, content, repeats, *target)?;
        changes.push(Change {
            node: *target,
            what,
        })?;
    }
    Ok(changes)
}

// Nodes that are put on a side.
fn put_on(alloc: Global, side: Side, kids: &NodeList) -> Result<EditKind, NoMemory>
    ensures { IfOk result (λ what. what ≡ put side kids.now) }
{
    let kids = copy_nodes(alloc, kids)?;
    match side {
        Side::Before => Ok(EditKind::Before { kids }),
        Side::After => Ok(EditKind::After { kids }),
    }
}

// What is put beside a target.
fn beside_at<N: Nav>(
    alloc: Global,
    nav: &N,
    side: Side,
    kids: &NodeList,
    target: Id,
) -> Result<EditKind, EvalEnd<N::Fault>>
    ensures { Looks (N.honest nav.now) (N.passes nav.now) (λ what. what) result
        (spec.beside (put side kids.now) (spec.standing_at (forests.get (N.forest nav.now)) (N.place nav.now target))) }
{
    match kind_at(nav, target)? {
        Kind::Document => Err(EvalEnd::Code(Code::XPTY0004)),
        Kind::Attribute => Err(EvalEnd::Code(Code::XPTY0004)),
        _ => Ok(put_on(alloc, side, kids)?),
    }
}

/// The nodes go beside each target, an element, a text or an instruction.
pub fn insert_beside<N: Nav>(
    alloc: Global,
    nav: &N,
    side: Side,
    kids: &NodeList,
    targets: &[Id],
) -> Result<ChangeList, EvalEnd<N::Fault>>
    ensures { (made : Made) → Leaves (N.honest nav.now) (N.passes nav.now) (map (change_seen (N.place nav.now))) result made
        (spec.each_alone (forests.get (N.forest nav.now)) (spec.beside (put side kids.now)) (map (N.place nav.now) targets.now) made) }
{
    let mut changes = Sequence::new(alloc);
    for target in targets {
        let what = beside_at(alloc, nav, side, kids, *target)?;
        changes.push(Change {
            node: *target,
            what,
        })?;
    }
    Ok(changes)
}

fn edit_of(removal: Removal) -> EditKind
    ensures { result ≡ removed removal }
{
    match removal {
        Removal::Whole => EditKind::Delete,
        Removal::Undeep => EditKind::Undeep,
    }
}

// What is done to a target that goes.
fn removal_at<N: Nav>(nav: &N, removal: Removal, target: Id) -> Result<EditKind, EvalEnd<N::Fault>>
    ensures { Looks (N.honest nav.now) (N.passes nav.now) (λ what. what) result
        (spec.unless_document (removed removal) (spec.standing_at (forests.get (N.forest nav.now)) (N.place nav.now target))) }
{
    match kind_at(nav, target)? {
        Kind::Document => Err(EvalEnd::Code(Code::XPTY0004)),
        _ => Ok(edit_of(removal)),
    }
}

/// Each target goes, any node but a document.
pub fn remove<N: Nav>(
    alloc: Global,
    nav: &N,
    removal: Removal,
    targets: &[Id],
) -> Result<ChangeList, EvalEnd<N::Fault>>
    ensures { (made : Made) → Leaves (N.honest nav.now) (N.passes nav.now) (map (change_seen (N.place nav.now))) result made
        (spec.each_alone (forests.get (N.forest nav.now)) (spec.unless_document (removed removal)) (map (N.place nav.now) targets.now) made) }
{
    let mut changes = Sequence::new(alloc);
    for target in targets {
        let what = removal_at(nav, removal, *target)?;
        changes.push(Change {
            node: *target,
            what,
        })?;
    }
    Ok(changes)
}
