// Labels of nodes: the codes of the keys on the way from the document.
ghost use Rattle.std.specs.Prelude.{◌≡◌, ◌≢◌, ℕ, List, ◌++◌, ◌∷◌, [], ◌↔◌, length, IfOk, IfSome, IfNone, IsTrue};
ghost use Rattle.order_labels.specs.KeyValue.{KeyValue, IsKey};
ghost use Rattle.order_labels.specs.LabelOrder.{byte_order};
ghost use Rattle.order_labels.specs.LabelShape.{child_label, IsLabel, IsAncestor, IsParent};

use crate::NoMemory;
use crate::key::Key;
use crate::order::compare;
use crate::reading::key_from_code;
use std::alloc::Global;
use std::cmp::Ordering;
use std::marker::Model;

/// The byte that ends each key's code in a label.
const END_OF_KEY: u8 = 1;

/// The bytes that say where a node stands in its document. Contracts see a list of bytes.
#[derive(Debug, Drop)]
pub struct Label {
    bytes: Vec<u8>,
}

impl Model for Label {
    ghost use Rattle.std.specs.Prelude.{List, ℕ};

    ghost Value = { List ℕ };

    ghost view = { λ label. label.bytes.items };
}

impl Label {
    /// The label of the document node: no bytes.
    pub fn document(alloc: Global) -> Label
        ensures { result ≡ [] }
    {
        Label {
            bytes: Vec::new(alloc),
        }
    }

    /// The label with these bytes, as they stand in a page. It may be none that `child` makes.
    pub fn from_bytes(alloc: Global, bytes: &[u8]) -> Result<Label, NoMemory>
        ensures { IfOk result (λ label. label ≡ bytes.now) }
    {
        let bytes = Vec::from_slice(alloc, bytes)?;
        Ok(Label { bytes })
    }

    /// The label with the bytes of a `Vec`.
    pub fn from_vec(bytes: Vec<u8>) -> Label
        ensures { result ≡ bytes.items }
    {
        Label { bytes }
    }

    /// The bytes as a `Vec`.
    pub fn into_vec(self) -> Vec<u8>
        ensures { result.items ≡ self }
    {
        self.bytes
    }

    /// The bytes.
    pub fn as_bytes(&self) -> &[u8]
        ensures { result.now ≡ self.now }
    {
        self.bytes.as_slice()
    }

    /// How many bytes there are.
    pub fn len(&self) -> usize
        ensures { result ≡ length self.now }
    {
        self.bytes.len()
    }

    /// Whether it is the document node's.
    pub fn is_empty(&self) -> bool
        ensures { IsTrue result ↔ (self.now ≡ []) }
    {
        self.bytes.is_empty()
    }

    /// A copy.
    pub fn copy(&self) -> Result<Label, NoMemory>
        ensures { IfOk result (λ label. label ≡ self.now) }
    {
        let bytes = self.bytes.clone()?;
        Ok(Label { bytes })
    }
}

/// The label of a node's child or attribute with this key.
pub fn child(alloc: Global, parent: &Label, key: &Key) -> Result<Label, NoMemory>
    ensures label { IfOk result (λ label. label ≡ child_label parent.now key.now) }
    ensures parent { IfOk result (IsParent parent.now) }
    ensures well_formed { IsLabel parent.now → IfOk result IsLabel }
{
    let mut bytes = Vec::from_slice(alloc, parent.as_bytes())?;
    key.push_code(&mut bytes)?;
    bytes.push(END_OF_KEY)?;
    Ok(Label { bytes })
}

/// The key with which a label is that of a child or attribute of `parent`, or None where it is not.
pub fn key_of_child(alloc: Global, parent: &Label, label: &Label) -> Result<Option<Key>, NoMemory>
    ensures found { IfOk result (λ found. IfSome found (λ k. label.now ≡ child_label parent.now k)) }
    ensures none { IfOk result (λ found. IfNone found ((k : KeyValue) → IsKey k → label.now ≢ child_label parent.now k)) }
{
    match code_below(parent.as_bytes(), label.as_bytes()) {
        Some(code) => key_from_code(alloc, code),
        None => Ok(None),
    }
}

/// What stands in a label between its parent's and the byte 1 at its end, if it is that of a child.
fn code_below<'a>(parent: &[u8], label: &'a [u8]) -> Option<&'a [u8]>
    ensures some { IfSome result (λ code. label.now ≡ parent.now ++ code.now ++ 1 ∷ []) }
    ensures none { IfNone result ((code : List ℕ) → label.now ≢ parent.now ++ code ++ 1 ∷ []) }
{
    if label.len() <= parent.len() {
        return None;
    }
    if &label[..parent.len()] != parent {
        return None;
    }
    let end = label.len() - 1;
    if label[end] != END_OF_KEY {
        return None;
    }
    Some(&label[parent.len()..end])
}

/// The order of two labels, which is that of their nodes in the document.
pub fn cmp(a: &Label, b: &Label) -> Ordering
    ensures { result ≡ byte_order a.now b.now }
{
    compare(a.as_bytes(), b.as_bytes())
}

/// Whether the first label is that of an ancestor of the second one's node.
pub fn is_ancestor(a: &Label, b: &Label) -> bool
    ensures { IsTrue result ↔ IsAncestor a.now b.now }
{
    let above = a.as_bytes();
    let below = b.as_bytes();
    if above.len() >= below.len() {
        return false;
    }
    &below[..above.len()] == above
}
