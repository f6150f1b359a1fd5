//! Tables of pages, each with a value for some pages, and sets of spaces. Contracts see them as finite maps.
ghost use Rattle.std.specs.Prelude.{◌≡◌, ◌<◌, OnOk, OnErr, IfOk, IfNone, IfSome, OnSome, IsSome, Some, None, not};
ghost use Rattle.std.specs.FinMap as map;
ghost use Rattle.std.specs.Option.{option_copied};
ghost use Rattle.page_bytes.specs.Changes.{listed};

use crate::changed::Changed;
use crate::end::NoMemory;
use crate::ids::{PageId, Space};
use crate::lists::PageChange;
use crate::page::Page;
use std::alloc::{AllocError, Global};
use std::collections::BTreeMap;
use std::marker::Model;

/// A value for each of some pages, in the order of pages.
#[derive(Drop)]
pub struct PageTable<V> {
    entries: BTreeMap<PageId, V>,
}

impl<V> Model for PageTable<V> {
    ghost use Rattle.std.specs.FinMap as map;
    ghost use Rattle.page_bytes.specs.Order.{page_cmp, page_code};

    ghost Value = { map.FinMap page_cmp V };

    ghost coded = { map.code page_code V.code };

    ghost view = { λ t. map.from_entries t.entries.entries };
}

impl<V: Drop> PageTable<V> {
    ghost use Rattle.page_bytes.specs.Order.{is_in};
    ghost use Rattle.std.specs.Borrow.{sem};
    ghost use Rattle.page_bytes.specs.Lends.{lends_entry};

    pub fn new(alloc: Global) -> PageTable<V>
        ensures { result ≡ map.empty }
    {
        PageTable {
            entries: BTreeMap::new(alloc),
        }
    }

    pub fn get(&self, id: PageId) -> Option<&V>
        ensures { option_copied result ≡ map.get self.now id }
    {
        self.entries.get(&id)
    }

    pub fn has(&self, id: PageId) -> bool
        ensures { result ≡ map.contains_key self.now id }
    {
        self.get(id).is_some()
    }

    pub fn insert(&mut self, id: PageId, value: V) -> Result<(), NoMemory>
        ensures ok { OnOk result (self.new ≡ map.insert self.old id value) }
        ensures err { OnErr result (self.new ≡ self.old) }
    {
        match self.entries.insert(id, value) {
            Ok(_) => Ok(()),
            Err(_) => Err(NoMemory),
        }
    }

    /// Takes the page's value out, if there is one.
    pub fn take(&mut self, id: PageId) -> Option<V>
        ensures value { result ≡ map.get self.old id }
        ensures removed { self.new ≡ map.remove self.old id }
    {
        self.entries.remove(&id)
    }

    /// Takes out the pages of the space.
    pub fn leave(&mut self, space: Space)
        ensures { self.new ≡ map.retain_keys self.old (λ id. not (is_in space id)) }
    {
        self.entries.retain(|id, _| id.space != space);
    }

    /// The value of a page that is there, to write to.
    pub fn lend(&mut self, id: PageId) -> &mut V
        requires { IsSome (map.get self.old id) }
        ensures* writes_back { sem 𝓛 (lends_entry V.row self.entry id result) }
        ensures value { map.get self.old id ≡ Some result.now }
    {
        self.entries.get_mut(&id).unwrap()
    }

    /// Takes out the first page with its value, if there is one.
    pub fn take_first(&mut self) -> Option<(PageId, V)>
        ensures none { IfNone result (self.old ≡ map.empty) }
        ensures still { IfNone result (self.new ≡ self.old) }
        ensures value { IfSome result (λ e. map.get self.old e.0 ≡ Some e.1) }
        ensures removed { IfSome result (λ e. self.new ≡ map.remove self.old e.0) }
        ensures fewer { OnSome result (map.len self.new < map.len self.old) }
    {
        self.entries.pop_first()
    }
}

impl PageTable<Changed> {
    /// The same table. Its pages are shared.
    pub fn copy(&self) -> Result<PageTable<Changed>, NoMemory>
        ensures { IfOk result (λ copy. copy ≡ self.now) }
    {
        match self.entries.clone() {
            Ok(entries) => Ok(PageTable { entries }),
            Err(_) => Err(NoMemory),
        }
    }
}

impl PageTable<()> {
    /// The same table.
    pub fn copy(&self) -> Result<PageTable<()>, NoMemory>
        ensures { IfOk result (λ copy. copy ≡ self.now) }
    {
        match self.entries.clone() {
            Ok(entries) => Ok(PageTable { entries }),
            Err(_) => Err(NoMemory),
        }
    }
}

impl PageTable<Page> {
    ghost use Rattle.page_bytes.specs.Overlay.{overlay};
    ghost use Rattle.page_bytes.specs.declared.ids.PageId.{PageId};

    /// The same table. Its pages are shared.
    pub fn copy(&self) -> Result<PageTable<Page>, NoMemory>
        ensures { IfOk result (λ copy. copy ≡ self.now) }
    {
        match self.entries.clone() {
            Ok(entries) => Ok(PageTable { entries }),
            Err(_) => Err(NoMemory),
        }
    }

    /// Puts in each page that isn't there yet.
    pub fn add(&mut self, more: PageTable<Page>) -> Result<(), NoMemory>
        ensures ok { OnOk result (self.new ≡ overlay self.old more) }
        ensures err { OnErr result (self.new ≡ self.old) }
    {
        let mut more = more;
        more.leave_those_of(self);
        if self.share_all(&more).is_err() {
            self.leave_those_of(&more);
            return Err(NoMemory);
        }
        Ok(())
    }

    /// Takes out the pages that the other table has.
    fn leave_those_of(&mut self, other: &PageTable<Page>)
        ensures { self.new ≡ map.retain_keys self.old (λ id. not (map.contains_key other.now id)) }
    {
        self.entries.retain(|id, _| !other.has(*id));
    }

    /// Puts in all pages of the other table. After an error some of them may be there.
    fn share_all(&mut self, more: &PageTable<Page>) -> Result<(), NoMemory>
        ensures ok { OnOk result (self.new ≡ overlay more.now self.old) }
        ensures err { OnErr result ((q : PageId) → map.get more.now q ≡ None → map.get self.new q ≡ map.get self.old q) }
    {
        for (id, page) in &more.entries {
            self.insert(*id, page.copy()?)?;
        }
        Ok(())
    }
}

impl PageTable<Option<Page>> {
    ghost use Rattle.std.specs.List.Sorted.{IsStrictlySortedBy};
    ghost use Rattle.page_bytes.specs.Order.{page_cmp};
    ghost use Rattle.page_bytes.specs.Changes.{ids_of, change_of};
    ghost use Rattle.page_bytes.specs.declared.ids.PageId.{PageId};

    /// The list of the changes, in the order of pages.
    pub fn into_list(self, alloc: Global) -> Result<Vec<PageChange>, NoMemory>
        ensures rising { IfOk result (λ list. IsStrictlySortedBy page_cmp (ids_of list.items)) }
        ensures listed { IfOk result (λ list. (id : PageId) → change_of list.items id ≡ map.get self id) }
    {
        let PageTable { entries } = self;
        let _count = entries.len();
        match list_of(alloc, entries) {
            Ok(list) => Ok(list),
            Err(_) => Err(NoMemory),
        }
    }
}

fn list_of(
    alloc: Global,
    entries: BTreeMap<PageId, Option<Page>>,
) -> Result<Vec<PageChange>, AllocError>
    ensures { IfOk result (λ list. list.items ≡ listed entries.entries) }
{
    entries
        .into_iter()
        .map(|(id, page)| PageChange { id, page })
        .collect(alloc)
}

/// Some spaces, in the order of spaces.
#[derive(Drop)]
pub struct SpaceSet {
    spaces: BTreeMap<Space, ()>,
}

impl Model for SpaceSet {
    ghost use Rattle.std.specs.FinMap as map;
    ghost use base.Stored.{coded_unit};
    ghost use Rattle.page_bytes.specs.Order.{space_cmp, space_code};

    ghost Value = { map.FinMap space_cmp (Unit {0}) };

    ghost coded = { map.code space_code coded_unit };

    ghost view = { λ s. map.from_entries s.spaces.entries };
}

impl SpaceSet {
    pub fn new(alloc: Global) -> SpaceSet
        ensures { result ≡ map.empty }
    {
        SpaceSet {
            spaces: BTreeMap::new(alloc),
        }
    }

    pub fn has(&self, space: Space) -> bool
        ensures { result ≡ map.contains_key self.now space }
    {
        self.spaces.contains_key(&space)
    }

    pub fn insert(&mut self, space: Space) -> Result<(), NoMemory>
        ensures ok { OnOk result (self.new ≡ map.insert self.old space tt) }
        ensures err { OnErr result (self.new ≡ self.old) }
    {
        match self.spaces.insert(space, ()) {
            Ok(_) => Ok(()),
            Err(_) => Err(NoMemory),
        }
    }

    /// The same set.
    pub fn copy(&self) -> Result<SpaceSet, NoMemory>
        ensures { IfOk result (λ copy. copy ≡ self.now) }
    {
        match self.spaces.clone() {
            Ok(spaces) => Ok(SpaceSet { spaces }),
            Err(_) => Err(NoMemory),
        }
    }

    pub fn remove(&mut self, space: Space)
        ensures { self.new ≡ map.remove self.old space }
    {
        let _ = self.spaces.remove(&space);
    }
}
