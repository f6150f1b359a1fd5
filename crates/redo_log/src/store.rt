//! What the records of a log stand on, as they are read.
ghost use Rattle.std.specs.Prelude.{◌≡◌, IfOk, OnOk, Some, None};
ghost use Rattle.std.specs.FinMap as map;
ghost use Rattle.redo_log.specs.Store.{store_of, with_ids, names_after, spaces_after, pages_after_name, entry_of, after_name, after_names, with_images, without_gone, with_image, without_page, no_image};

use crate::catalogue::Catalogue;
use crate::change::LogName;
use crate::page_table::PageTable;
use crate::space_table::SpaceTable;
use page_bytes::{DocEntry, PageChange, PageId};
use std::alloc::Global;
use xq_ast::{NoMemory, Str};

/// The commit before the next record, the catalogue with its documents' spaces, and the pages that are there.
#[derive(Drop)]
pub struct Store {
    pub commit: u64,
    pub names: Catalogue,
    pub spaces: SpaceTable,
    pub pages: PageTable,
}

impl Store {
    /// After an error nothing is said of the store.
    pub fn of(
        alloc: Global,
        commit: u64,
        names: &[LogName],
        pages: &[PageId],
    ) -> Result<Store, NoMemory>
        ensures { IfOk result (λ s. s ≡ store_of commit names.now pages.now) }
    {
        let mut store = Store {
            commit,
            names: Catalogue::new(alloc),
            spaces: SpaceTable::new(alloc),
            pages: table_of(alloc, pages)?,
        };
        store.take_names(names)?;
        Ok(store)
    }

    fn take_names(&mut self, names: &[LogName]) -> Result<(), NoMemory>
        ensures { OnOk result (self.new ≡ after_names names.now self.old) }
    {
        for name in names {
            self.take_name(name)?;
        }
        Ok(())
    }

    /// Drops or sets a name.
    pub fn take_name(&mut self, n: &LogName) -> Result<(), NoMemory>
        ensures { OnOk result (self.new ≡ after_name n.now self.old) }
    {
        match n.entry {
            None => {
                self.drop_name(&n.name);
                Ok(())
            }
            Some(entry) => self.set_name(&n.name, entry),
        }
    }

    fn drop_name(&mut self, name: &Str)
        ensures { self.new ≡ after_name (record { name = name.now; entry = None }) self.old }
    {
        if let Some(entry) = self.names.remove(name) {
            self.spaces.remove(entry.space);
            self.pages.leave(entry.space);
        }
    }

    fn set_name(&mut self, name: &Str, entry: DocEntry) -> Result<(), NoMemory>
        ensures { OnOk result (self.new ≡ after_name (record { name = name.now; entry = Some entry }) self.old) }
    {
        self.names.insert(name.copy()?, entry)?;
        self.spaces.insert(entry.space)
    }
}

fn table_of(alloc: Global, ids: &[PageId]) -> Result<PageTable, NoMemory>
    ensures { IfOk result (λ t. t ≡ with_ids ids.now map.empty) }
{
    let mut table = PageTable::new(alloc);
    for id in ids {
        table.insert(*id)?;
    }
    Ok(table)
}

/// Puts in the pages of which there is an image.
pub fn put_images(table: &mut PageTable, pages: &[PageChange]) -> Result<(), NoMemory>
    ensures { OnOk result (table.new ≡ with_images no_image pages.now table.old) }
{
    for change in pages {
        put_image(table, change)?;
    }
    Ok(())
}

fn put_image(table: &mut PageTable, change: &PageChange) -> Result<(), NoMemory>
    ensures { OnOk result (table.new ≡ with_image no_image change.now.page change.now.id table.old) }
{
    match change.page {
        None => Ok(()),
        Some(_) => table.insert(change.id),
    }
}

/// Takes out the pages that are gone.
pub fn leave_gone(table: &mut PageTable, pages: &[PageChange])
    ensures { table.new ≡ without_gone pages.now table.old }
{
    for change in pages {
        leave_page(table, change);
    }
}

fn leave_page(table: &mut PageTable, change: &PageChange)
    ensures { table.new ≡ without_page change.now.page change.now.id table.old }
{
    if change.page.is_none() {
        table.remove(change.id);
    }
}
