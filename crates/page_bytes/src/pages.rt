//! What page calls read from: a set of pages, and what is known as absent.
ghost use Rattle.std.specs.Prelude.{◌≡◌, IfOk, OnOk, OnErr};
ghost use Rattle.std.specs.FinMap as map;

use crate::end::NoMemory;
use crate::ids::PageId;
use crate::page::Page;
use crate::table::PageTable;
use std::alloc::Global;
use std::marker::Model;

/// Pages to read. Its meaning is a finite map of pages, with some spaces known as whole and some pages known as freed.
pub trait Pages {
    ghost use Rattle.std.specs.Prelude.{◌≡◌};
    ghost use Rattle.std.specs.FinMap as map;
    ghost use Rattle.std.specs.Option.{option_copied};
    ghost use Rattle.page_bytes.specs.Known.{Known, is_absent};

    ghost known: { Self → Known };

    /// The bytes of a page that is there.
    fn page(&self, id: PageId) -> Option<&[u8; 4096]>
        ensures { option_copied result ≡ map.get (known self.now).pages id };

    /// Whether the page is known as absent: it isn't there, and its space is whole or it was freed.
    fn absent(&self, id: PageId) -> bool
        ensures { result ≡ is_absent (known self.now) id };
}

/// Some pages. No space is whole, and no page was freed.
#[derive(Drop)]
pub struct PageSet {
    pages: PageTable<Page>,
}

impl Model for PageSet {
    ghost use Rattle.page_bytes.specs.Known.{PageMap, page_map_code};

    ghost Value = { PageMap };

    ghost coded = { page_map_code };

    ghost view = { λ s. s.pages };
}

impl PageSet {
    /// The set of no pages.
    pub fn new(alloc: Global) -> PageSet
        ensures { result ≡ map.empty }
    {
        PageSet {
            pages: PageTable::new(alloc),
        }
    }

    /// Puts a page in, in the place of one that is there under this name.
    pub fn put(&mut self, id: PageId, page: Page) -> Result<(), NoMemory>
        ensures ok { OnOk result (self.new ≡ map.insert self.old id page) }
        ensures err { OnErr result (self.new ≡ self.old) }
    {
        self.pages.insert(id, page)
    }

    /// The same set. Its pages are shared, so this takes the time and memory of the table's entries, and no page's bytes are
    /// copied.
    pub fn copy(&self) -> Result<PageSet, NoMemory>
        ensures { IfOk result (λ copy. copy ≡ self.now) }
    {
        let pages = self.pages.copy()?;
        Ok(PageSet { pages })
    }

    pub(crate) fn into_table(self) -> PageTable<Page>
        ensures { result ≡ self }
    {
        let PageSet { pages } = self;
        pages
    }
}

impl Pages for PageSet {
    ghost use Rattle.page_bytes.specs.Known.{known_of};

    ghost known = { known_of };

    fn page(&self, id: PageId) -> Option<&[u8; 4096]> {
        match self.pages.get(id) {
            Some(page) => Some(page.bytes()),
            None => None,
        }
    }

    fn absent(&self, _id: PageId) -> bool {
        false
    }
}
