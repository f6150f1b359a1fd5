//! The new document.
ghost use Rattle.std.specs.Prelude.{◌≡◌, OnOk};
ghost use Rattle.std.specs.Option.{option_copied};
ghost use Rattle.xml_model.specs.Document.{IsValid};
ghost use Rattle.xml_model.specs.Rebuild.{limited_document, rebuild, edits_at};
ghost use Rattle.tree_edit.specs.Numbered.{RisesFrom};
ghost use Rattle.tree_edit.specs.Ends.{Gives};
ghost use Rattle.tree_edit.specs.Tidy as spec;

use crate::copies::push_copies;
use crate::end::EditEnd;
use crate::kids::Kids;
use crate::nodes::edit_nodes;
use crate::spot::{Spot, edit_here};
use std::alloc::Global;
use xml_model::{DEPTH_MAX, Doc, EditKind, EditList, NODES_MAX, TEXT_BYTES_MAX};
use xq_ast::{Code, NoMemory};

// The document, where it keeps to the three limits.
fn limited(doc: Doc) -> Result<Doc, EditEnd>
    ensures { Gives result (limited_document doc) }
{
    let measure = doc.measure();
    if measure.depth as usize > DEPTH_MAX {
        return Err(EditEnd::Code(Code::TooDeep));
    }
    if measure.nodes > NODES_MAX {
        return Err(EditEnd::Code(Code::TooManyNodes));
    }
    if measure.bytes > TEXT_BYTES_MAX {
        return Err(EditEnd::Code(Code::TooMuchText));
    }
    Ok(doc)
}

// The nodes come that go into the document itself.
fn push_into(alloc: Global, what: Option<&EditKind>, out: &mut Kids) -> Result<(), NoMemory>
    ensures { OnOk result (out.new ≡ spec.with_nodes out.old (spec.into_document (option_copied what.entry))) }
{
    match what {
        Some(EditKind::Into { kids, .. }) => push_copies(alloc, kids, out),
        Some(EditKind::Before { .. }) => Ok(()),
        Some(EditKind::After { .. }) => Ok(()),
        Some(EditKind::Delete) => Ok(()),
        Some(EditKind::Undeep) => Ok(()),
        Some(EditKind::Put { .. }) => Ok(()),
        Some(EditKind::Rename { .. }) => Ok(()),
        None => Ok(()),
    }
}

/// The document after the edits, which are in the order of their places, no two at one place. All
/// of them are applied at once.
pub fn apply(alloc: Global, doc: &Doc, edits: &EditList) -> Result<Doc, EditEnd>
    requires valid { IsValid doc.now }
    requires rising { RisesFrom 0 edits.now }
    ensures gives { Gives result (rebuild doc.now (edits_at doc.now edits.now)) }
{
    let edits = edits.as_slice();
    let mut spot = Spot { number: 0, next: 0 };
    let what = edit_here(edits, &mut spot);
    let mut kids = Kids::new(alloc);
    edit_nodes(alloc, edits, &doc.kids, &mut spot, &mut kids)?;
    push_into(alloc, what, &mut kids)?;
    let kids = kids.finish()?;
    limited(Doc { kids })
}
