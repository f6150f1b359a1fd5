//! Items, and the nodes and trees that they speak of.
ghost use Rattle.std.specs.Prelude.{◌≡◌, IfOk};

use xml_model::{Attr, Id, Node, Place, SharedText};
use xq_ast::{Items, NoMemory, Sequence};

/// A node of a constructed tree: the number of the tree, from 0 in the order of construction, and
/// the node's place from the root.
#[derive(Debug, Drop)]
pub struct MadePlace {
    pub tree: usize,
    pub place: Place,
}

/// A node: one of a stored document, or one of a tree that the query has constructed.
#[derive(Debug, Drop)]
pub enum NodeId {
    Stored { id: Id },
    Made { at: MadePlace },
}

/// An item: a node or an atomic value.
#[derive(Debug, Drop)]
pub enum Item {
    Node { id: NodeId },
    Text { text: SharedText },
    Int { value: i64 },
    Truth { value: bool },
}

/// A list of items.
pub type ItemList = Items<Item>;

/// The root of a constructed tree.
#[derive(Debug, Drop)]
pub enum MadeRoot {
    Node { node: Node },
    Attribute { attr: Attr },
}

/// The roots of the constructed trees, in the order of their construction.
pub type MadeList = Items<MadeRoot>;

impl MadePlace {
    pub fn copy(&self) -> Result<MadePlace, NoMemory>
        ensures { IfOk result (λ p. p ≡ self.now) }
    {
        let mut place = Sequence::new(self.place.allocator());
        for step in self.place.as_slice() {
            place.push(*step)?;
        }
        Ok(MadePlace {
            tree: self.tree,
            place,
        })
    }
}

impl NodeId {
    pub fn copy(&self) -> Result<NodeId, NoMemory>
        ensures { IfOk result (λ n. n ≡ self.now) }
    {
        match self {
            NodeId::Stored { id } => Ok(NodeId::Stored { id: *id }),
            NodeId::Made { at } => Ok(NodeId::Made { at: at.copy()? }),
        }
    }
}

impl Item {
    /// The same item. A text is shared.
    pub fn copy(&self) -> Result<Item, NoMemory>
        ensures { IfOk result (λ i. i ≡ self.now) }
    {
        match self {
            Item::Node { id } => Ok(Item::Node { id: id.copy()? }),
            Item::Text { text } => Ok(Item::Text { text: text.copy()? }),
            Item::Int { value } => Ok(Item::Int { value: *value }),
            Item::Truth { value } => Ok(Item::Truth { value: *value }),
        }
    }
}
