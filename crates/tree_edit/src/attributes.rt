//! What stands in the place of attributes.
ghost use Rattle.std.specs.Prelude.{◌≡◌, ◌+◌, ◌<◌, ◌^◌, ◌++◌, length, OnOk, IfOk};
ghost use Rattle.std.specs.Option.{option_copied};
ghost use Rattle.xml_model.specs.Rebuild.{edited_attribute};
ghost use Rattle.tree_edit.specs.Numbered.{look, IsAt, numbered_attributes};

use crate::copies::push_attrs;
use crate::spot::{Spot, edit_here};
use std::alloc::Global;
use xml_model::{Attr, AttrList, Edit, EditKind};
use xq_ast::{NoMemory, Sequence};

// What stands in the place of one attribute goes to the end.
fn edit_attribute(attr: &Attr, what: Option<&EditKind>, out: &mut AttrList) -> Result<(), NoMemory>
    ensures { OnOk result (out.new ≡ out.old ++ edited_attribute attr.now (option_copied what.entry)) }
{
    match what {
        Some(EditKind::Delete) => Ok(()),
        Some(EditKind::Undeep) => Ok(()),
        Some(EditKind::Put { attrs, .. }) => push_attrs(attrs, out),
        Some(EditKind::Rename { name }) => {
            let name = name.copy()?;
            let value = attr.value.copy()?;
            out.push(Attr { name, value })
        }
        Some(EditKind::Into { .. }) => out.push(attr.copy()?),
        Some(EditKind::Before { .. }) => out.push(attr.copy()?),
        Some(EditKind::After { .. }) => out.push(attr.copy()?),
        None => out.push(attr.copy()?),
    }
}

/// What stands in the place of the attributes of an element, the first of which is the next node.
pub fn edit_attributes(
    alloc: Global,
    edits: &[Edit],
    attrs: &AttrList,
    spot: &mut Spot,
) -> Result<AttrList, NoMemory>
    requires at { IsAt edits.now spot.old.number spot.old.next }
    requires room { spot.old.number + length attrs.now < 2 ^ 32 }
    ensures made { IfOk result (λ all. all ≡ numbered_attributes (look edits.now) spot.old.number attrs.now) }
    ensures number { OnOk result (spot.new.number ≡ spot.old.number + length attrs.now) }
    ensures at { OnOk result (IsAt edits.now spot.new.number spot.new.next) }
{
    let mut all = Sequence::new(alloc);
    for attr in attrs.as_slice() {
        let what = edit_here(edits, spot);
        edit_attribute(attr, what, &mut all)?;
    }
    Ok(all)
}
