//! The table of a head: each page with the slot that has its image. Contracts see it as the list of its rows.
ghost use Rattle.std.specs.Prelude.{◌≡◌, ◌++◌, ◌∷◌, [], OnOk, OnErr, IfOk};
ghost use Rattle.std.specs.List.{AllByRecursion};
ghost use Rattle.slot_store.specs.Head.{IsRowBefore};
ghost use Rattle.slot_store.specs.Table.{rows_in, Rise, with_row, without_row, slot_of};

use crate::tree::{Tree, find_slot, inserted, removed};
use page_bytes::{NoMemory, PageId};
use std::alloc::Global;
use std::marker::Model;

/// A page, and the slot that has its image.
#[derive(Clone, Copy, Debug, PartialEq, Eq)]
pub struct Row {
    pub id: PageId,
    pub slot: u64,
}

/// The pages of a head with their slots, in rising order of pages. A change takes time and memory by the pages that it
/// changes: what stays is shared with the tables from which it was made.
#[derive(Drop)]
pub struct PageTable {
    alloc: Global,
    tree: Tree,
}

impl Model for PageTable {
    ghost use Rattle.std.specs.Prelude.{List};
    ghost use Rattle.slot_store.specs.declared.table.Row.{Row};
    ghost use Rattle.slot_store.specs.Table.{rows_in, Rise};

    ghost Value = { List Row };

    ghost view = { λ t. rows_in t.tree };

    ghost invariant = { λ t. Rise (rows_in t.tree) };
}

impl PageTable {
    /// A table without pages. Takes no memory.
    pub fn new(alloc: Global) -> PageTable
        ensures { result ≡ [] }
    {
        PageTable {
            alloc,
            tree: Tree::Leaf,
        }
    }

    /// The same table, which is shared and not copied.
    pub fn share(&self) -> Result<PageTable, NoMemory>
        ensures { IfOk result (λ t. t ≡ self.now) }
    {
        Ok(PageTable {
            alloc: self.alloc,
            tree: self.tree.share()?,
        })
    }

    /// The rows are in rising order of pages, no two of one page. Does nothing: it hands out what the type keeps.
    pub fn rises(&self)
        ensures { Rise self.now }
    {
        let _ = &self.tree;
    }

    /// The tree of the rows.
    pub(crate) fn tree(&self) -> &Tree
        ensures { rows_in result.now ≡ self.now }
    {
        &self.tree
    }

    /// The slot of a page, if it has a row. Takes no memory.
    pub fn slot_of(&self, id: PageId) -> Option<u64>
        ensures { result ≡ slot_of id self.now }
    {
        find_slot(&self.tree, id)
    }

    /// Puts a row at its page's place.
    pub fn insert(&mut self, row: Row) -> Result<(), NoMemory>
        ensures ok { OnOk result (self.new ≡ with_row row self.old) }
        ensures err { OnErr result (self.new ≡ self.old) }
    {
        self.tree = inserted(self.alloc, &self.tree, row)?;
        Ok(())
    }

    /// Takes the row of a page away, if there is one.
    pub fn remove(&mut self, id: PageId) -> Result<(), NoMemory>
        ensures ok { OnOk result (self.new ≡ without_row id self.old) }
        ensures err { OnErr result (self.new ≡ self.old) }
    {
        if self.slot_of(id).is_some() {
            self.tree = removed(self.alloc, &self.tree, id)?;
        }
        Ok(())
    }

    /// Puts a row behind the others. Its page comes after theirs.
    pub fn push(&mut self, row: Row) -> Result<(), NoMemory>
        requires last { AllByRecursion (λ q. IsRowBefore q row) self.old }
        ensures ok { OnOk result (self.new ≡ self.old ++ row ∷ []) }
        ensures err { OnErr result (self.new ≡ self.old) }
    {
        self.insert(row)
    }
}
