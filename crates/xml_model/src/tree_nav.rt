//! Plain trees behind `Nav`: the documents of a map, each as the rows of its nodes.
ghost use Rattle.std.specs.Prelude.{◌≡◌, ◌-◌, ◌<◌, map as list_map, is_some, length, ◌^◌, IfSome, IfOk};
ghost use Rattle.std.specs.FinMap as map;
ghost use Rattle.std.specs.Cmp.Lexicographic.{slice_cmp};
ghost use Rattle.std.specs.Option.{option_map, option_copied};
ghost use Rattle.std.specs.Ordering.{nat_cmp};
ghost use Rattle.std.specs.List.{slice_get};
ghost use Rattle.xml_model.specs.Forest.{IsForest};
ghost use Rattle.xml_model.specs.TreeNodes.{tree_name, turn_at, TellsTurns, IsTreeOf, AreTreesOf};

use crate::forest::DocMap;
use crate::nav::{Id, Nav, NavEnd};
use crate::tree_rows::{PlacedRef, TreeRows};
use indexmap::IndexMap;
use std::alloc::Global;
use std::cmp::Ordering;
use std::marker::Model;
use xq_ast::{Kind, NoMemory, Str, StrList};

// A document's rows, under its name.
#[derive(Drop)]
pub(crate) struct Tree<'a> {
    pub name: Str,
    pub rows: TreeRows<'a>,
}

// The number of each tree, by its name.
type Turns = IndexMap<String, u32>;

/// The nodes of a map's documents. Contracts see the forest. Documents are numbered in the order of
/// the bytes of their names, and the nodes of each in document order, the document being 0. Each
/// call takes constant time, but for `name` and `value`, which take what they answer. No call has a
/// fault.
#[derive(Drop)]
pub struct TreeNav<'a> {
    docs: &'a DocMap,
    trees: Vec<Tree<'a>>,
    turns: Turns,
}

impl<'a> Model for TreeNav<'a> {
    ghost use Rattle.xml_model.specs.Forest.{Forest, forest_code};
    ghost use Rattle.std.specs.Prelude.{length};
    ghost use Rattle.xml_model.specs.TreeNodes.{StandFor, TellsTurns};

    ghost Value = { Forest };

    ghost coded = { forest_code };

    ghost view = { λ nav. nav.docs.now };

    ghost invariant = { λ nav. StandFor nav.docs.now nav.trees.items × TellsTurns nav.trees.items (length nav.trees.items) nav.turns.entries };
}

/// A fault that never comes.
#[derive(Clone, Copy)]
pub enum NoFault {}

fn tree_at<'t, 'a>(trees: &'t [Tree<'a>], doc: u32) -> Option<&'t Tree<'a>>
    ensures { option_copied result ≡ slice_get trees.now doc }
{
    trees.get(doc as usize)
}

fn name_of<'t, 'a>(trees: &'t [Tree<'a>], doc: u32) -> &'t str
    ensures { result.now ≡ tree_name trees.now doc }
{
    match trees.get(doc as usize) {
        Some(tree) => tree.name.as_str(),
        None => "",
    }
}

// The order of two documents' names.
fn names_order(trees: &[Tree], a: u32, b: u32) -> Ordering
    ensures { result ≡ slice_cmp nat_cmp (tree_name trees.now a) (tree_name trees.now b) }
{
    if a == b {
        return Ordering::Equal;
    }
    name_of(trees, a).cmp(name_of(trees, b))
}

// A node of this document.
fn in_document(doc: u32, node: Option<u32>) -> Option<Id>
    ensures { result ≡ option_map (λ n. record { doc = doc; node = n }) node }
{
    match node {
        Some(node) => Some(Id { doc, node }),
        None => None,
    }
}

// The document of this name, by its turn.
fn root_of(turns: &Turns, name: &Str) -> Option<Id>
    ensures { result ≡ option_map (λ turn. record { doc = turn; node = 0 }) (turn_at turns.now.entries name.now) }
{
    match turns.get(name.as_str()) {
        Some(turn) => Some(Id {
            doc: *turn,
            node: 0,
        }),
        None => None,
    }
}

// The turn of each tree, at its name.
fn turns_of(alloc: Global, trees: &[Tree]) -> Result<Turns, NoMemory>
    requires { length trees.now < 2 ^ 32 }
    ensures { IfOk result (λ turns. TellsTurns trees.now (length trees.now) turns.entries) }
{
    let mut turns = IndexMap::with_capacity(alloc, trees.len())?;
    for (turn, tree) in trees.iter().enumerate() {
        let name = tree.name.copy()?;
        turns.insert(name.into_string(), turn as u32)?;
    }
    Ok(turns)
}

// The tree of the document of this name, if there is one.
fn tree_of<'a>(alloc: Global, docs: &'a DocMap, name: &Str) -> Result<Option<Tree<'a>>, NoMemory>
    ensures some { IfOk result (λ o. is_some o ≡ is_some (map.get docs.now name.now)) }
    ensures tree { IfOk result (λ o. IfSome o (λ tree. (tree.name ≡ name.now) × IsTreeOf docs.now tree)) }
{
    let Some(doc) = docs.get(name) else {
        return Ok(None);
    };
    Ok(Some(Tree {
        name: name.copy()?,
        rows: TreeRows::of(alloc, PlacedRef::Document(doc))?,
    }))
}

// The trees of these documents, in the order of the names.
fn trees_of<'a>(docs: &'a DocMap, names: &StrList) -> Result<Vec<Tree<'a>>, NoMemory>
    requires { names.now ≡ map.keys docs.now }
    ensures { IfOk result (λ trees. (list_map (λ tree. tree.name) trees.items ≡ names.now) × AreTreesOf docs.now trees.items) }
{
    let alloc = names.allocator();
    let mut trees = Vec::new(alloc);
    for name in names.as_slice() {
        if let Some(tree) = tree_of(alloc, docs, name)? {
            trees.push(tree)?;
        }
    }
    Ok(trees)
}

impl<'a> TreeNav<'a> {
    /// The nodes of these documents. Takes time and memory by the number of their nodes. More than
    /// 4,294,967,295 documents have no room.
    pub fn of(docs: &'a DocMap) -> Result<TreeNav<'a>, NoMemory>
        ensures forest { IfOk result (λ nav. nav ≡ docs.now) }
        ensures valid { IsForest docs.now }
    {
        docs.is_forest();
        let names = docs.names()?;
        if names.len() > u32::MAX as usize {
            return Err(NoMemory);
        }
        let trees = trees_of(docs, &names)?;
        let turns = turns_of(names.allocator(), &trees)?;
        Ok(TreeNav { docs, trees, turns })
    }
}

impl<'a> Nav for TreeNav<'a> {
    ghost use Rattle.xml_model.specs.Forest.{IsForest};
    ghost use Rattle.xml_model.specs.TreeNodes.{name_at, node_of_id};
    ghost use Rattle.std.proofs.Common.{ap, arith};
    ghost use Rattle.xml_model.specs.OneNumber.{same_number};

    type Fault = NoFault;

    ghost passes = { λ F fault. ⊥ };

    ghost honest = { λ F. IsForest F };

    ghost forest = { λ F. F };

    ghost place = { node_of_id };

    ghost number = { λ F n. 2 ^ 32 - n.node };

    fn root(&self, name: &Str) -> Result<Option<Id>, NoFault> {
        Ok(root_of(&self.turns, name))
    }

    fn first(&self, n: Id) -> Result<Option<Id>, NoFault> {
        let Some(tree) = tree_at(&self.trees, n.doc) else {
            return Ok(None);
        };
        Ok(in_document(n.doc, tree.rows.first(n.node)))
    }

    fn next(&self, n: Id) -> Result<Option<Id>, NoFault> {
        let Some(tree) = tree_at(&self.trees, n.doc) else {
            return Ok(None);
        };
        Ok(in_document(n.doc, tree.rows.next(n.node)))
    }

    fn parent(&self, n: Id) -> Result<Option<Id>, NoFault> {
        let Some(tree) = tree_at(&self.trees, n.doc) else {
            return Ok(None);
        };
        Ok(in_document(n.doc, tree.rows.parent(n.node)))
    }

    fn kind(&self, n: Id) -> Result<Kind, NoFault> {
        match tree_at(&self.trees, n.doc) {
            Some(tree) => Ok(tree.rows.kind(n.node)),
            None => Ok(Kind::Document),
        }
    }

    fn order(&self, a: Id, b: Id) -> Result<Ordering, NoFault> {
        match names_order(&self.trees, a.doc, b.doc) {
            Ordering::Equal => Ok(a.node.cmp(&b.node)),
            different => Ok(different),
        }
    }

    fn name(&self, n: Id) -> Result<Str, NavEnd<NoFault>> {
        match tree_at(&self.trees, n.doc) {
            Some(tree) => Ok(tree.rows.name(n.node)?),
            None => Ok(Str::new(*self.trees.allocator())),
        }
    }

    fn value(&self, n: Id) -> Result<Str, NavEnd<NoFault>> {
        match tree_at(&self.trees, n.doc) {
            Some(tree) => Ok(tree.rows.value(n.node)?),
            None => Ok(Str::new(*self.trees.allocator())),
        }
    }

    ghost few = { λ F n. Prim.omega arith };

    ghost named = { λ F a b honest same. ap (name_at F) same };

    ghost same = { same_number };

    ghost valid = { λ F honest. honest };
}
