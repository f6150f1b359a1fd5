//! Copies of content.
ghost use Rattle.std.specs.Prelude.{◌≡◌, IfOk};

use std::alloc::Global;
use xml_model::{AttrList, NodeList};
use xq_ast::{Items, NoMemory, Sequence};

pub(crate) fn copy_attrs(alloc: Global, attrs: &AttrList) -> Result<AttrList, NoMemory>
    ensures { IfOk result (λ all. all ≡ attrs.now) }
{
    let mut all = Sequence::new(alloc);
    for attr in attrs.as_slice() {
        all.push(attr.copy()?)?;
    }
    Ok(all)
}

pub(crate) fn copy_nodes(alloc: Global, nodes: &NodeList) -> Result<NodeList, NoMemory>
    ensures { IfOk result (λ all. all ≡ nodes.now) }
{
    let mut all = Items::new(alloc);
    for node in nodes.as_slice() {
        all.push(node.copy(alloc)?)?;
    }
    Ok(all)
}
