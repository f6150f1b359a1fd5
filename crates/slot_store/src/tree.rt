//! Search trees of rows, which never change and share their branches: a changed tree has new branches on the way to what
//! changed, and shares all others.
ghost use Rattle.std.specs.Prelude.{◌≡◌, ◌++◌, ◌∷◌, [], IfOk};
ghost use Rattle.slot_store.specs.Table.{rows_in, Rise, with_row, without_row, slot_of, first_row, later_rows};

use crate::table::Row;
use page_bytes::{NoMemory, PageId};
use std::alloc::Global;
use std::cmp::Ordering;
use std::sync::Arc;

/// A tree of rows: none, or a branch. Copies share it.
#[cycle(tree)]
#[derive(Drop)]
pub(crate) enum Tree {
    Leaf,
    Node(Arc<Branch>),
}

/// A row with the rows of earlier pages on its left, and those of later ones on its right. The longest way down has `height`
/// branches.
#[cycle(tree)]
#[derive(Drop)]
pub(crate) struct Branch {
    pub(crate) left: Tree,
    pub(crate) row: Row,
    pub(crate) right: Tree,
    pub(crate) height: u32,
}

impl Tree {
    /// The same tree, which is shared and not copied.
    pub(crate) fn share(&self) -> Result<Tree, NoMemory>
        ensures { IfOk result (λ t. rows_in t ≡ rows_in self.now) }
    {
        match self {
            Tree::Leaf => Ok(Tree::Leaf),
            Tree::Node(branch) => match Arc::try_clone(branch) {
                Ok(branch) => Ok(Tree::Node(branch)),
                Err(_) => Err(NoMemory),
            },
        }
    }

    fn height(&self) -> u32 {
        match self {
            Tree::Leaf => 0,
            Tree::Node(branch) => branch.height,
        }
    }
}

// A branch of these rows, from left to right.
fn node(alloc: Global, left: Tree, row: Row, right: Tree) -> Result<Tree, NoMemory>
    ensures { IfOk result (λ t. rows_in t ≡ rows_in left ++ row ∷ rows_in right) }
{
    let height = left.height().max(right.height()).saturating_add(1);
    let branch = Branch {
        left,
        row,
        right,
        height,
    };
    match Arc::new(alloc, branch) {
        Ok(branch) => Ok(Tree::Node(branch)),
        Err(_) => Err(NoMemory),
    }
}

// The same, where one side may be higher than the other by two: its branches move over.
fn balanced(alloc: Global, left: Tree, row: Row, right: Tree) -> Result<Tree, NoMemory>
    ensures { IfOk result (λ t. rows_in t ≡ rows_in left ++ row ∷ rows_in right) }
{
    let (low, high) = (left.height(), right.height());
    if low > high.saturating_add(1) {
        return over_from_left(alloc, left, row, right);
    }
    if high > low.saturating_add(1) {
        return over_from_right(alloc, left, row, right);
    }
    node(alloc, left, row, right)
}

// The same, with branches of the left side moved to the right.
fn over_from_left(alloc: Global, left: Tree, row: Row, right: Tree) -> Result<Tree, NoMemory>
    ensures { IfOk result (λ t. rows_in t ≡ rows_in left ++ row ∷ rows_in right) }
{
    let Tree::Node(top) = &left else {
        return node(alloc, left, row, right);
    };
    match &top.right {
        Tree::Node(inner) if inner.height > top.left.height() => {
            let before = node(alloc, top.left.share()?, top.row, inner.left.share()?)?;
            let after = node(alloc, inner.right.share()?, row, right)?;
            node(alloc, before, inner.row, after)
        }
        _ => {
            let after = node(alloc, top.right.share()?, row, right)?;
            node(alloc, top.left.share()?, top.row, after)
        }
    }
}

// The same, with branches of the right side moved to the left.
fn over_from_right(alloc: Global, left: Tree, row: Row, right: Tree) -> Result<Tree, NoMemory>
    ensures { IfOk result (λ t. rows_in t ≡ rows_in left ++ row ∷ rows_in right) }
{
    let Tree::Node(top) = &right else {
        return node(alloc, left, row, right);
    };
    match &top.left {
        Tree::Node(inner) if inner.height > top.right.height() => {
            let before = node(alloc, left, row, inner.left.share()?)?;
            let after = node(alloc, inner.right.share()?, top.row, top.right.share()?)?;
            node(alloc, before, inner.row, after)
        }
        _ => {
            let before = node(alloc, left, row, top.left.share()?)?;
            node(alloc, before, top.row, top.right.share()?)
        }
    }
}

/// The slot of a page, if it has a row.
pub(crate) fn find_slot(tree: &Tree, id: PageId) -> Option<u64>
    ensures { Rise (rows_in tree.now) → result ≡ slot_of id (rows_in tree.now) }
{
    let Tree::Node(branch) = tree else {
        return None;
    };
    match id.cmp(&branch.row.id) {
        Ordering::Less => find_slot(&branch.left, id),
        Ordering::Equal => Some(branch.row.slot),
        Ordering::Greater => find_slot(&branch.right, id),
    }
}

/// The tree with a row at its page's place.
pub(crate) fn inserted(alloc: Global, tree: &Tree, row: Row) -> Result<Tree, NoMemory>
    ensures { Rise (rows_in tree.now) → IfOk result (λ t. rows_in t ≡ with_row row (rows_in tree.now)) }
{
    let Tree::Node(branch) = tree else {
        return node(alloc, Tree::Leaf, row, Tree::Leaf);
    };
    match row.id.cmp(&branch.row.id) {
        Ordering::Less => {
            let left = inserted(alloc, &branch.left, row)?;
            balanced(alloc, left, branch.row, branch.right.share()?)
        }
        Ordering::Equal => node(alloc, branch.left.share()?, row, branch.right.share()?),
        Ordering::Greater => {
            let right = inserted(alloc, &branch.right, row)?;
            balanced(alloc, branch.left.share()?, branch.row, right)
        }
    }
}

/// The tree without the row of a page, if there is one.
pub(crate) fn removed(alloc: Global, tree: &Tree, id: PageId) -> Result<Tree, NoMemory>
    ensures { Rise (rows_in tree.now) → IfOk result (λ t. rows_in t ≡ without_row id (rows_in tree.now)) }
{
    let Tree::Node(branch) = tree else {
        return Ok(Tree::Leaf);
    };
    match id.cmp(&branch.row.id) {
        Ordering::Less => {
            let left = removed(alloc, &branch.left, id)?;
            balanced(alloc, left, branch.row, branch.right.share()?)
        }
        Ordering::Equal => joined(alloc, &branch.left, &branch.right),
        Ordering::Greater => {
            let right = removed(alloc, &branch.right, id)?;
            balanced(alloc, branch.left.share()?, branch.row, right)
        }
    }
}

// The rows of one tree and then those of another.
fn joined(alloc: Global, left: &Tree, right: &Tree) -> Result<Tree, NoMemory>
    ensures { IfOk result (λ t. rows_in t ≡ rows_in left.now ++ rows_in right.now) }
{
    match first_of(right) {
        None => left.share(),
        Some(row) => {
            let rest = without_first(alloc, right)?;
            balanced(alloc, left.share()?, row, rest)
        }
    }
}

// The first row of a tree.
fn first_of(tree: &Tree) -> Option<Row>
    ensures { result ≡ first_row (rows_in tree.now) }
{
    let Tree::Node(branch) = tree else {
        return None;
    };
    match first_of(&branch.left) {
        None => Some(branch.row),
        Some(row) => Some(row),
    }
}

// The tree without its first row.
fn without_first(alloc: Global, tree: &Tree) -> Result<Tree, NoMemory>
    ensures { IfOk result (λ t. rows_in t ≡ later_rows (rows_in tree.now)) }
{
    let Tree::Node(branch) = tree else {
        return Ok(Tree::Leaf);
    };
    match &branch.left {
        Tree::Leaf => branch.right.share(),
        Tree::Node(_) => {
            let left = without_first(alloc, &branch.left)?;
            balanced(alloc, left, branch.row, branch.right.share()?)
        }
    }
}
