//! Lists of pages and of changes. Contracts see them as lists; a list is made from a `Vec` and gives it back without
//! taking memory.
ghost use Rattle.std.specs.Prelude.{◌≡◌};

use crate::ids::PageId;
use crate::page::Page;
use std::marker::Model;

/// A page that changed: what it is now, or nothing where it is gone.
#[derive(Drop)]
pub struct PageChange {
    pub id: PageId,
    pub page: Option<Page>,
}

/// A list of changes of pages.
#[derive(Drop)]
pub struct ChangeList {
    items: Vec<PageChange>,
}

impl Model for ChangeList {
    ghost use Rattle.std.specs.Prelude.{List};
    ghost use Rattle.page_bytes.specs.declared.lists.PageChange.{PageChange};

    ghost Value = { List PageChange };

    ghost view = { λ l. l.items.items };
}

impl ChangeList {
    /// The list of these changes.
    pub fn of(items: Vec<PageChange>) -> ChangeList
        ensures { result ≡ items.items }
    {
        ChangeList { items }
    }

    /// The changes.
    pub fn as_slice(&self) -> &[PageChange]
        ensures { result.now ≡ self.now }
    {
        self.items.as_slice()
    }

    /// The changes, given back.
    pub fn into_vec(self) -> Vec<PageChange>
        ensures { result.items ≡ self }
    {
        let ChangeList { items } = self;
        items
    }
}

/// A list of pages' names.
#[derive(Drop)]
pub struct PageIdList {
    items: Vec<PageId>,
}

impl Model for PageIdList {
    ghost use Rattle.std.specs.Prelude.{List};
    ghost use Rattle.page_bytes.specs.declared.ids.PageId.{PageId};

    ghost Value = { List PageId };

    ghost view = { λ l. l.items.items };
}

impl PageIdList {
    /// The list of these names.
    pub fn of(items: Vec<PageId>) -> PageIdList
        ensures { result ≡ items.items }
    {
        PageIdList { items }
    }

    /// The names.
    pub fn as_slice(&self) -> &[PageId]
        ensures { result.now ≡ self.now }
    {
        self.items.as_slice()
    }

    /// The names, given back.
    pub fn into_vec(self) -> Vec<PageId>
        ensures { result.items ≡ self }
    {
        let PageIdList { items } = self;
        items
    }
}
