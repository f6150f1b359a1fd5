//! A page that a workspace has changed, and may change again.
ghost use Rattle.std.specs.Prelude.{◌≡◌, IfOk, OnOk, OnErr, None, length, unwrap_or};

use crate::end::NoMemory;
use crate::page::{Draft, Page};
use std::alloc::{AllocError, Global};
use std::marker::Model;

/// The bytes of a changed page. They stand in a page, which copies share, or else in a draft of its own.
#[derive(Drop)]
pub struct Changed {
    own: Option<Draft>,
    page: Page,
}

impl Model for Changed {
    ghost use Rattle.std.specs.Prelude.{ℕ, List, unwrap_or};

    ghost Value = { List ℕ };

    ghost view = { λ c. unwrap_or c.own c.page };
}

impl Changed {
    ghost use Rattle.std.specs.Borrow.{sem};
    ghost use Rattle.page_bytes.specs.LendsChanged.{lends_changed, lends_renewed};

    /// The page, which is shared.
    pub fn of(page: Page) -> Changed
        ensures { result ≡ page }
    {
        Changed { own: None, page }
    }

    /// The bytes.
    pub fn bytes(&self) -> &[u8; 4096]
        ensures { result.now ≡ self.now }
    {
        match &self.own {
            Some(draft) => draft.bytes(),
            None => self.page.bytes(),
        }
    }

    /// Puts the bytes of a draft of its own into the page, so that copies share them.
    pub fn settle(&mut self, alloc: Global) -> Result<(), NoMemory>
        ensures { self.new ≡ self.old }
    {
        settle(alloc, &mut self.own, &mut self.page)
    }

    /// The bytes, to write to. They are copied first where another page shares them.
    pub fn edit(&mut self, alloc: Global) -> Result<&mut Draft, NoMemory>
        ensures* writes_back { sem 𝓛 (lends_changed self.entry result) }
        ensures value { IfOk result (λ draft. draft.now ≡ self.old) }
    {
        settle(alloc, &mut self.own, &mut self.page)?;
        self.page.own()
    }

    /// Takes the draft in the place of the bytes, and lends it.
    pub fn renew(&mut self, draft: Draft) -> &mut Draft
        ensures* writes_back { sem 𝓛 (lends_renewed self.entry result) }
        ensures value { result.now ≡ draft }
    {
        self.own.insert(draft)
    }

    /// The page with these bytes.
    pub fn into_page(self, alloc: Global) -> Result<Page, NoMemory>
        ensures bytes { IfOk result (λ p. p ≡ self) }
        ensures long { IfOk result (λ p. length p ≡ 4096) }
    {
        let Changed { own, page } = self;
        match own {
            Some(draft) => Page::of(alloc, draft),
            None => {
                page.tell_length();
                Ok(page)
            }
        }
    }
}

// Puts the bytes of a draft of its own into the page, so that copies share them.
fn settle(alloc: Global, own: &mut Option<Draft>, page: &mut Page) -> Result<(), NoMemory>
    ensures ok { OnOk result ((own.new ≡ None) × (page.new ≡ unwrap_or own.old page.old)) }
    ensures err { OnErr result ((own.new ≡ own.old) × (page.new ≡ page.old)) }
{
    if let Some(draft) = own {
        *page = Page::with_bytes(alloc, draft.bytes())?;
        *own = None;
    }
    Ok(())
}

impl Clone for Changed {
    ghost is_clone = { λ changed copy. copy ≡ changed };

    // The page is shared. A draft of its own is copied.
    fn clone(&self) -> Result<Changed, AllocError> {
        let page = self.page.clone()?;
        match &self.own {
            Some(draft) => {
                let draft = draft.clone()?;
                Ok(Changed {
                    own: Some(draft),
                    page,
                })
            }
            None => Ok(Changed { own: None, page }),
        }
    }
}
