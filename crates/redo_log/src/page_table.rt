//! The pages that are there. Contracts see a finite map with nothing at each page.
ghost use Rattle.std.specs.Prelude.{◌≡◌, not, OnOk, OnErr};
ghost use Rattle.std.specs.FinMap as map;

use page_bytes::{PageId, Space};
use std::alloc::Global;
use std::collections::BTreeMap;
use std::marker::Model;
use xq_ast::NoMemory;

/// Some pages, in the order of pages.
#[derive(Drop)]
pub struct PageTable {
    pages: BTreeMap<PageId, ()>,
}

impl Model for PageTable {
    ghost use Rattle.std.specs.FinMap as map;
    ghost use base.Stored.{coded_unit};
    ghost use Rattle.page_bytes.specs.Known.{PageIds};
    ghost use Rattle.page_bytes.specs.Order.{page_code};

    ghost Value = { PageIds };

    ghost coded = { map.code page_code coded_unit };

    ghost view = { λ t. map.from_entries t.pages.entries };
}

impl PageTable {
    ghost use Rattle.page_bytes.specs.Order.{is_in};

    pub fn new(alloc: Global) -> PageTable
        ensures { result ≡ map.empty }
    {
        PageTable {
            pages: BTreeMap::new(alloc),
        }
    }

    pub fn has(&self, id: PageId) -> bool
        ensures { result ≡ map.contains_key self.now id }
    {
        self.pages.contains_key(&id)
    }

    pub fn insert(&mut self, id: PageId) -> Result<(), NoMemory>
        ensures { OnOk result (self.new ≡ map.insert self.old id tt) }
    {
        match self.pages.insert(id, ()) {
            Ok(_) => Ok(()),
            Err(_) => Err(NoMemory),
        }
    }

    pub fn remove(&mut self, id: PageId)
        ensures { self.new ≡ map.remove self.old id }
    {
        let _ = self.pages.remove(&id);
    }

    /// Takes out the pages of the space.
    pub fn leave(&mut self, space: Space)
        ensures { self.new ≡ map.retain_keys self.old (λ id. not (is_in space id)) }
    {
        self.pages.retain(|id, _| id.space != space);
    }
}
