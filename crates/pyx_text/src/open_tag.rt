//! An element that is open, with its attributes so far.
ghost use Rattle.std.specs.Prelude.{◌≡◌, ◌++◌, ◌∷◌, [], drop, OnOk, OnErr, IfErr};
ghost use Rattle.xml_model.specs.Trees.{has_attribute};
ghost use Rattle.pyx_text.specs.Ways.{Tied};

use crate::fault::PyxFault;
use crate::places::Places;
use crate::room::push_in_room;
use std::alloc::Global;
use xml_model::{Attr, Node, has_attribute};
use xq_ast::Str;

// The attributes that are looked through one by one. All others are found by their names' places, so that many
// attributes of one element take no time that grows with their square.
const FEW: usize = 16;

/// An element that is open, with its attributes so far and the nodes before it in its list.
#[derive(Drop)]
pub(crate) struct OpenTag {
    pub(crate) name: Str,
    pub(crate) attrs: Vec<Attr>,
    pub(crate) before: Vec<Node>,
    places: Places,
    ghost tied: { Tied (drop 16 attrs.items) places.heads places.cells.items },
}

impl OpenTag {
    /// An element without attributes. Takes no memory.
    pub(crate) fn new(alloc: Global, name: Str, before: Vec<Node>) -> OpenTag
        ensures named { result.name ≡ name }
        ensures bare { result.attrs.items ≡ [] }
        ensures behind { result.before ≡ before }
    {
        OpenTag {
            name,
            attrs: Vec::new(alloc),
            before,
            places: Places::new(alloc),
        }
    }

    /// Whether the element has an attribute of this name.
    pub(crate) fn has(&self, name: &str) -> bool
        ensures { result ≡ has_attribute name.now self.now.attrs.items }
    {
        if self.attrs.len() <= FEW {
            return has_attribute(&self.attrs, name);
        }
        has_attribute(&self.attrs[..FEW], name) || self.places.has(&self.attrs[FEW..], name)
    }

    /// Adds an attribute. After an error nothing has changed.
    pub(crate) fn add(&mut self, alloc: Global, attr: Attr) -> Result<(), PyxFault>
        ensures ok { OnOk result (self.new.attrs.items ≡ self.old.attrs.items ++ attr ∷ []) }
        ensures err { OnErr result (self.new.attrs.items ≡ self.old.attrs.items) }
        ensures name { self.new.name ≡ self.old.name }
        ensures before { self.new.before.items ≡ self.old.before.items }
        ensures memory { IfErr result (λ e. e ≡ PyxFault.NoMemory) }
    {
        self.attrs.reserve(1)?;
        if self.attrs.len() < FEW {
            push_in_room(&mut self.attrs, attr);
            return Ok(());
        }
        self.places
            .add(alloc, &self.attrs[FEW..], attr.name.as_str())?;
        push_in_room(&mut self.attrs, attr);
        Ok(())
    }
}
