//! The nodes of one tree in a list, numbered in document order.
ghost use Rattle.std.specs.Prelude.{◌≡◌, ℕ, ◌+◌, ◌-◌, ◌≤◌, ◌<◌, [], ◌++◌, map, length, ◌^◌, vec_len, IfSome, IfOk, OnOk};
ghost use Rattle.std.specs.Option.{option_map, option_copied};
ghost use Rattle.std.specs.List.{slice_get};
ghost use Rattle.xml_model.specs.declared.limits.TheConstants.{NODES_MAX};
ghost use Rattle.xml_model.specs.Nav.{told_of, told_at, standing, first_place, next_place, parent_place};
ghost use Rattle.xml_model.specs.Trees.{count_node, count_of};
ghost use Rattle.xml_model.specs.Numbering.{attr_rows, kid_rows, node_rows, tree_rows, tree_size, place_of_number};
ghost use Rattle.xml_model.specs.Place.{the_document};
ghost use Rattle.xml_model.specs.TreeRows.{placed_by, row_of};

use crate::limits::NODES_MAX;
use crate::node::{Attr, AttrList, Doc, Node, NodeList};
use std::alloc::Global;
use xq_ast::{Kind, NoMemory, Str};

/// What can stand at a place of a tree, by reference.
#[derive(Clone, Copy)]
pub enum PlacedRef<'a> {
    Document(&'a Doc),
    Node(&'a Node),
    Attribute(&'a Attr),
}

// A node: how far before it its parent stands, and how many rows it has with all that stands in it.
#[derive(Clone, Copy)]
pub(crate) struct Entry<'a> {
    pub it: PlacedRef<'a>,
    pub back: u32,
    pub size: u32,
}

type Entries<'a> = Vec<Entry<'a>>;

// The attributes of an element, which is the last row so far.
fn add_attrs<'a>(rows: &mut Entries<'a>, attrs: &'a AttrList) -> Result<(), NoMemory>
    requires { length attrs.now < 2 ^ 32 - 1 }
    ensures rows { OnOk result (map row_of rows.new.items ≡ map row_of rows.old.items ++ attr_rows 1 attrs.now) }
    ensures len { OnOk result (vec_len rows.new ≡ vec_len rows.old + length attrs.now) }
{
    for (i, attr) in attrs.as_slice().iter().enumerate() {
        rows.push(Entry {
            it: PlacedRef::Attribute(attr),
            back: i as u32 + 1,
            size: 1,
        })?;
    }
    Ok(())
}

#[cycle(add)]
fn add_kids<'a>(rows: &mut Entries<'a>, kids: &'a NodeList, parent: usize) -> Result<(), NoMemory>
    requires parent { parent ≤ vec_len rows.old }
    requires fits { vec_len rows.old + count_of kids.now ≤ NODES_MAX + 1 }
    ensures rows { OnOk result (map row_of rows.new.items ≡ map row_of rows.old.items ++ kid_rows (vec_len rows.old - parent) (map node_rows kids.now)) }
    ensures len { OnOk result (vec_len rows.new ≡ vec_len rows.old + count_of kids.now) }
{
    for kid in kids.as_slice() {
        add_node(rows, kid, parent)?;
    }
    Ok(())
}

#[cycle(add)]
fn add_node<'a>(rows: &mut Entries<'a>, node: &'a Node, parent: usize) -> Result<(), NoMemory>
    requires parent { parent ≤ vec_len rows.old }
    requires fits { vec_len rows.old + count_node node.now ≤ NODES_MAX + 1 }
    ensures rows { OnOk result (map row_of rows.new.items ≡ map row_of rows.old.items ++ node_rows node.now (vec_len rows.old - parent)) }
    ensures len { OnOk result (vec_len rows.new ≡ vec_len rows.old + count_node node.now) }
{
    let at = rows.len();
    let back = (at - parent) as u32;
    rows.push(Entry {
        it: PlacedRef::Node(node),
        back,
        size: 1,
    })?;
    match node {
        Node::Element { attrs, kids, .. } => {
            add_attrs(rows, attrs)?;
            add_kids(rows, kids, at)?;
            let size = (rows.len() - at) as u32;
            rows[at] = Entry {
                it: PlacedRef::Node(node),
                back,
                size,
            };
            Ok(())
        }
        Node::Text { .. } => Ok(()),
        Node::Pi { .. } => Ok(()),
    }
}

fn kind_of(it: PlacedRef) -> Kind
    ensures { result ≡ (told_of (placed_by it.entry)).kind }
{
    match it {
        PlacedRef::Document(_) => Kind::Document,
        PlacedRef::Attribute(_) => Kind::Attribute,
        PlacedRef::Node(node) => match node {
            Node::Element { .. } => Kind::Element,
            Node::Text { .. } => Kind::Text,
            Node::Pi { .. } => Kind::Pi,
        },
    }
}

fn name_in(alloc: Global, it: PlacedRef) -> Result<Str, NoMemory>
    ensures { IfOk result (λ s. s ≡ (told_of (placed_by it.entry)).name) }
{
    match it {
        PlacedRef::Document(_) => Ok(Str::new(alloc)),
        PlacedRef::Attribute(attr) => attr.name.copy(),
        PlacedRef::Node(node) => match node {
            Node::Element { name, .. } => name.copy(),
            Node::Text { .. } => Ok(Str::new(alloc)),
            Node::Pi { target, .. } => target.copy(),
        },
    }
}

fn value_in(alloc: Global, it: PlacedRef) -> Result<Str, NoMemory>
    ensures { IfOk result (λ s. s ≡ (told_of (placed_by it.entry)).value) }
{
    match it {
        PlacedRef::Document(_) => Ok(Str::new(alloc)),
        PlacedRef::Attribute(attr) => attr.value.copy(),
        PlacedRef::Node(node) => match node {
            Node::Element { .. } => Ok(Str::new(alloc)),
            Node::Text { value } => value.copy(),
            Node::Pi { value, .. } => value.copy(),
        },
    }
}

/// The nodes of one tree: of a document, or of a node or an attribute that stands alone. Its nodes
/// are numbered in document order, the root being 0. Each call takes constant time, but for `name`
/// and `value`, which take what they answer.
#[derive(Drop)]
pub struct TreeRows<'a> {
    root: PlacedRef<'a>,
    rows: Entries<'a>,
    ghost are: { map row_of rows.items ≡ tree_rows (placed_by root) },
    ghost few: { vec_len rows ≤ NODES_MAX + 1 },
}

// The rows of a document, which is the first of them.
fn add_document<'a>(rows: &mut Entries<'a>, doc: &'a Doc) -> Result<(), NoMemory>
    requires none { rows.old.items ≡ [] }
    requires few { count_of doc.now.kids ≤ NODES_MAX }
    ensures rows { OnOk result (map row_of rows.new.items ≡ tree_rows (the_document doc.now)) }
    ensures len { OnOk result (vec_len rows.new ≡ 1 + count_of doc.now.kids) }
{
    rows.push(Entry {
        it: PlacedRef::Document(doc),
        back: 0,
        size: 1,
    })?;
    add_kids(rows, &doc.kids, 0)?;
    let size = rows.len() as u32;
    rows[0] = Entry {
        it: PlacedRef::Document(doc),
        back: 0,
        size,
    };
    Ok(())
}

fn add_tree<'a>(rows: &mut Entries<'a>, root: PlacedRef<'a>) -> Result<(), NoMemory>
    requires none { rows.old.items ≡ [] }
    requires few { tree_size (placed_by root) ≤ NODES_MAX + 1 }
    ensures rows { OnOk result (map row_of rows.new.items ≡ tree_rows (placed_by root.entry)) }
    ensures len { OnOk result (vec_len rows.new ≡ tree_size (placed_by root.entry)) }
{
    match root {
        PlacedRef::Document(doc) => add_document(rows, doc),
        PlacedRef::Node(node) => add_node(rows, node, 0),
        PlacedRef::Attribute(_) => {
            rows.push(Entry {
                it: root,
                back: 0,
                size: 1,
            })?;
            Ok(())
        }
    }
}

fn entry_of<'t, 'a>(rows: &'t [Entry<'a>], n: u32) -> Option<&'t Entry<'a>>
    ensures { option_copied result ≡ slice_get rows.now n }
{
    rows.get(n as usize)
}

impl<'a> TreeRows<'a> {
    /// The rows of a tree. Takes time and memory by the number of its nodes.
    pub fn of(alloc: Global, root: PlacedRef<'a>) -> Result<TreeRows<'a>, NoMemory>
        requires { tree_size (placed_by root) ≤ NODES_MAX + 1 }
        ensures { IfOk result (λ tree. placed_by tree.root ≡ placed_by root.entry) }
    {
        let mut rows = Vec::new(alloc);
        add_tree(&mut rows, root)?;
        Ok(TreeRows { root, rows })
    }

    /// The number of the first attribute, else of the first child.
    pub fn first(&self, n: u32) -> Option<u32>
        ensures gives { let root = placed_by self.now.root in option_map (place_of_number root) result ≡ first_place root (place_of_number root n) }
        ensures behind { IfSome result (λ m. (n < m) × (m ≤ NODES_MAX)) }
    {
        let Some(entry) = entry_of(&self.rows, n) else {
            return None;
        };
        if entry.size <= 1 {
            return None;
        }
        Some(n + 1)
    }

    /// The number of the next of the same chain: attributes, then children.
    pub fn next(&self, n: u32) -> Option<u32>
        ensures gives { let root = placed_by self.now.root in option_map (place_of_number root) result ≡ next_place root (place_of_number root n) }
        ensures behind { IfSome result (λ m. (n < m) × (m ≤ NODES_MAX)) }
    {
        let Some(entry) = entry_of(&self.rows, n) else {
            return None;
        };
        if n == 0 {
            return None;
        }
        let parent = n - entry.back;
        let Some(holder) = entry_of(&self.rows, parent) else {
            return None;
        };
        let behind = n + entry.size;
        if behind >= parent + holder.size {
            return None;
        }
        Some(behind)
    }

    pub fn parent(&self, n: u32) -> Option<u32>
        ensures gives { let root = placed_by self.now.root in option_map (place_of_number root) result ≡ parent_place root (place_of_number root n) }
        ensures before { IfSome result (λ m. (m < n) × (m ≤ NODES_MAX)) }
    {
        let Some(entry) = entry_of(&self.rows, n) else {
            return None;
        };
        if n == 0 {
            return None;
        }
        Some(n - entry.back)
    }

    pub fn kind(&self, n: u32) -> Kind
        ensures { let root = placed_by self.now.root in result ≡ (told_at (standing root (place_of_number root n))).kind }
    {
        match entry_of(&self.rows, n) {
            Some(entry) => kind_of(entry.it),
            None => Kind::Document,
        }
    }

    /// The name of an element or an attribute, or the target of an instruction. Others have the
    /// empty text.
    pub fn name(&self, n: u32) -> Result<Str, NoMemory>
        ensures { let root = placed_by self.now.root in IfOk result (λ s. s ≡ (told_at (standing root (place_of_number root n))).name) }
    {
        let alloc = *self.rows.allocator();
        match entry_of(&self.rows, n) {
            Some(entry) => name_in(alloc, entry.it),
            None => Ok(Str::new(alloc)),
        }
    }

    /// The value of an attribute, a text or an instruction. Others have the empty text.
    pub fn value(&self, n: u32) -> Result<Str, NoMemory>
        ensures { let root = placed_by self.now.root in IfOk result (λ s. s ≡ (told_at (standing root (place_of_number root n))).value) }
    {
        let alloc = *self.rows.allocator();
        match entry_of(&self.rows, n) {
            Some(entry) => value_in(alloc, entry.it),
            None => Ok(Str::new(alloc)),
        }
    }
}
