//! The pages that a call works on, with its changes to them.
ghost use Rattle.std.specs.Prelude.{◌≡◌, OnOk, OnErr, IfOk, IfErr, Some, None, IsSome, IsTrue, ◌<◌};
ghost use Rattle.std.specs.FinMap as map;
ghost use Rattle.std.specs.Borrow.{sem};
ghost use Rattle.std.specs.List.Sorted.{IsStrictlySortedBy};
ghost use Rattle.page_bytes.specs.declared.ids.PageId.{PageId};
ghost use Rattle.page_bytes.specs.Order.{page_cmp};
ghost use Rattle.page_bytes.specs.Known.{is_unknown};
ghost use Rattle.page_bytes.specs.Changes.{ids_of, change_of, IsChange, IsLongChange};
ghost use Rattle.page_bytes.specs.Head.{head_of, next_page, with_next_page, LAST_PAGE};
ghost use Rattle.page_bytes.specs.Work.{work_over, without_page, with_space, without_space, first_bytes, fresh_page, with_fresh, with_pages};
ghost use Rattle.page_bytes.specs.Refusal.{RefusedBy, edit_refusal, free_refusal, fresh_refusal};
ghost use Rattle.page_bytes.specs.Inside.{Owns};
ghost use Rattle.std.specs.Option.{option_or};

use crate::changed::Changed;
use crate::changes::{Left, changes};
use crate::end::{NoMemory, PageEnd};
use crate::fields::read_u64;
use crate::head::{NEXT_PAGE_AT, tests_head};
use crate::ids::{PageId, Space};
use crate::lists::ChangeList;
use crate::page::{Draft, Page};
use crate::pages::{PageSet, Pages};
use crate::table::{PageTable, SpaceSet};
use std::alloc::Global;
use std::marker::Model;

/// Pages below, and over them what has changed since: drafts of pages, pages that are gone, and spaces of which only
/// the drafts are there. The page that an edit made last has its name, since its bytes may stand in a draft of its own.
#[derive(Drop)]
pub struct Workspace {
    alloc: Global,
    below: PageTable<Page>,
    drafts: PageTable<Changed>,
    gone: PageTable<()>,
    whole: SpaceSet,
    made: Option<PageId>,
}

impl Model for Workspace {
    ghost use Rattle.page_bytes.specs.Work.{Work, work_code};

    ghost Value = { Work };

    ghost coded = { work_code };

    ghost use Rattle.page_bytes.specs.Inside.{work_of};

    ghost view = { λ w. work_of w.below w.drafts w.gone w.whole };
}

impl Pages for Workspace {
    ghost known = { λ w. w.now };

    fn page(&self, id: PageId) -> Option<&[u8; 4096]> {
        if let Some(draft) = self.drafts.get(id) {
            return Some(draft.bytes());
        }
        if self.whole.has(id.space) {
            return None;
        }
        if self.gone.has(id) {
            return None;
        }
        match self.below.get(id) {
            Some(page) => Some(page.bytes()),
            None => None,
        }
    }

    fn absent(&self, id: PageId) -> bool {
        if self.page(id).is_some() {
            return false;
        }
        if self.whole.has(id.space) {
            return true;
        }
        self.gone.has(id)
    }
}

impl Workspace {
    ghost use Rattle.page_bytes.specs.LendsPage.{lends_page};

    /// The workspace of these pages, with no change.
    pub fn over(alloc: Global, below: PageSet) -> Workspace
        ensures { result ≡ work_over below }
    {
        Workspace {
            alloc,
            below: below.into_table(),
            drafts: PageTable::new(alloc),
            gone: PageTable::new(alloc),
            whole: SpaceSet::new(alloc),
            made: None,
        }
    }

    /// Makes the space whole, with no page.
    pub fn open_space(&mut self, space: Space) -> Result<(), NoMemory>
        ensures ok { OnOk result (self.new ≡ with_space self.old space) }
        ensures err { OnErr result (self.new ≡ self.old) }
    {
        self.whole.insert(space)?;
        self.drafts.leave(space);
        Ok(())
    }

    /// Forgets the space: no page and no change of it is there, and nothing is known of it.
    pub fn drop_space(&mut self, space: Space)
        ensures { self.new ≡ without_space self.old space }
    {
        self.below.leave(space);
        self.drafts.leave(space);
        self.gone.leave(space);
        self.whole.remove(space);
    }

    /// Adds pages to those below. A page that is there, or known as absent, stays as it is.
    pub fn add(&mut self, more: PageSet) -> Result<(), NoMemory>
        ensures ok { OnOk result (self.new ≡ with_pages self.old more) }
        ensures err { OnErr result (self.new ≡ self.old) }
    {
        self.below.add(more.into_table())
    }

    /// The draft of a page to write to, which begins with the page's bytes, or with zeros where the page is absent.
    /// What the draft holds when the borrow ends is then the page.
    pub fn edit(&mut self, id: PageId) -> Result<&mut Draft, PageEnd>
        ensures* writes_back { sem 𝓛 (lends_page self.entry id result) }
        ensures refused { RefusedBy (edit_refusal self.old.now id) result }
        ensures first { IfOk result (λ draft. draft.now ≡ first_bytes self.old.now id) }
    {
        let alloc = self.alloc;
        if self.drafts.has(id) {
            return match self.drafts.lend(id).edit(alloc) {
                Ok(draft) => Ok(draft),
                Err(NoMemory) => Err(PageEnd::NoMemory),
            };
        }
        let page = self.first_page(id)?;
        if self.page(id).is_some() {
            self.drafts.insert(id, Changed::of(page))?;
            return match self.drafts.lend(id).edit(alloc) {
                Ok(draft) => Ok(draft),
                Err(NoMemory) => Err(PageEnd::NoMemory),
            };
        }
        let draft = Draft::copy_of(alloc, page.bytes())?;
        settle(alloc, &mut self.drafts, self.made)?;
        self.drafts.insert(id, Changed::of(page))?;
        self.made = Some(id);
        Ok(self.drafts.lend(id).renew(draft))
    }

    // The page that an edit begins with.
    fn first_page(&self, id: PageId) -> Result<Page, PageEnd>
        ensures refused { RefusedBy (edit_refusal self.now.now id) result }
        ensures first { IfOk result (λ page. page ≡ first_bytes self.now.now id) }
    {
        if let Some(bytes) = self.page(id) {
            return Ok(Page::with_bytes(self.alloc, bytes)?);
        }
        if !self.absent(id) {
            return Err(PageEnd::Need { page: id });
        }
        let zeros = Draft::zero(self.alloc)?;
        Ok(Page::of(self.alloc, zeros)?)
    }

    /// Takes a page away.
    pub fn free(&mut self, id: PageId) -> Result<(), PageEnd>
        ensures refused { RefusedBy (free_refusal self.old.now id) result }
        ensures ok { OnOk result (self.new ≡ without_page self.old id) }
        ensures err { OnErr result (self.new ≡ self.old) }
    {
        self.find(id)?;
        self.gone.insert(id, ())?;
        let _ = self.drafts.take(id);
        Ok(())
    }

    fn find(&self, id: PageId) -> Result<&[u8; 4096], PageEnd>
        ensures refused { RefusedBy (free_refusal self.now.now id) result }
        ensures refusal { IfErr result (λ end. free_refusal self.now.now id ≡ Some end) }
        ensures found { IfOk result (λ bytes. map.get self.now.now.pages id ≡ Some bytes.now) }
    {
        if let Some(bytes) = self.page(id) {
            return Ok(bytes);
        }
        if !self.absent(id) {
            return Err(PageEnd::Need { page: id });
        }
        Err(PageEnd::Damaged { page: id })
    }

    /// Makes the page with the head's next number, all zeros, and raises that number.
    pub fn fresh(&mut self, space: Space) -> Result<PageId, PageEnd>
        ensures refused { RefusedBy (fresh_refusal self.old.now space) result }
        ensures page { IfOk result (λ id. id ≡ fresh_page self.old.now space) }
        ensures ok { OnOk result (self.new ≡ with_fresh self.old space) }
        ensures err { OnErr result (self.new ≡ self.old) }
    {
        let head = PageId { space, number: 0 };
        let number = self.next_number(space)?;
        let id = PageId { space, number };
        let page = Page::with_bytes(self.alloc, &[0; 4096])?;
        let raised = self.raised(head, number + 1)?;
        own(&mut self.drafts, &self.below, head)?;
        self.drafts.insert(id, Changed::of(page))?;
        *self.drafts.lend(head) = Changed::of(raised);
        Ok(id)
    }

    // The head, which is there, with another next number.
    fn raised(&self, head: PageId, number: u64) -> Result<Page, NoMemory>
        requires { IsSome (map.get self.now.now.pages head) }
        ensures { IfOk result (λ page. page ≡ with_next_page (first_bytes self.now.now head) number) }
    {
        let mut draft = Draft::copy_of(self.alloc, self.page(head).unwrap())?;
        draft.write_u64(NEXT_PAGE_AT, number);
        Page::of(self.alloc, draft)
    }

    fn next_number(&self, space: Space) -> Result<u64, PageEnd>
        ensures refused { RefusedBy (fresh_refusal self.now.now space) result }
        ensures there { OnOk result (IsSome (map.get self.now.now.pages (head_of space))) }
        ensures number { IfOk result (λ number. number ≡ next_page (first_bytes self.now.now (head_of space))) }
        ensures positive { IfOk result (λ number. 0 < number) }
        ensures not_last { IfOk result (λ number. number < LAST_PAGE) }
    {
        let head = PageId { space, number: 0 };
        let bytes = match self.find(head) {
            Ok(bytes) => bytes,
            Err(end) => return Err(end),
        };
        if !tests_head(bytes) {
            return Err(PageEnd::Damaged { page: head });
        }
        let number = read_u64(bytes, NEXT_PAGE_AT);
        if number == u64::MAX {
            return Err(PageEnd::Spent { number });
        }
        Ok(number)
    }

    /// The same workspace. Its pages are shared, those that have changed too, so this takes the time and memory of the tables'
    /// entries; of one page at most, the last that an edit made where none was, the bytes are copied. The first edit of a
    /// changed page in either workspace after this copies that page's bytes.
    pub fn copy(&self) -> Result<Workspace, NoMemory>
        ensures { IfOk result (λ copy. copy ≡ self.now) }
    {
        Ok(Workspace {
            alloc: self.alloc,
            below: self.below.copy()?,
            drafts: self.drafts.copy()?,
            gone: self.gone.copy()?,
            whole: self.whole.copy()?,
            made: self.made,
        })
    }

    /// The pages that aren't what they were below, each with what it is now, in rising order. Of a dropped space none
    /// is listed, nor is a page of which nothing is known.
    pub fn finish(self) -> Result<ChangeList, NoMemory>
        ensures rising { IfOk result (λ list. IsStrictlySortedBy page_cmp (ids_of list)) }
        ensures listed { IfOk result (λ list. (id : PageId) → IsChange (map.get self.below id) (map.get self.now.pages id) (change_of list id)) }
        ensures unknown { IfOk result (λ list. (id : PageId) → IsTrue (is_unknown self.now id) → change_of list id ≡ None) }
        ensures long { IfOk result (λ list. (id : PageId) → IsLongChange (change_of list id)) }
    {
        let Workspace {
            alloc,
            below,
            drafts,
            gone,
            whole,
            made: _,
        } = self;
        let left = Left {
            below,
            drafts,
            gone,
            whole,
        };
        let found = changes(alloc, left)?;
        let items = found.into_list(alloc)?;
        Ok(ChangeList::of(items))
    }
}

// Makes a draft of a page that is there, unless it has one. The draft shares the bytes of the page below.
fn own(drafts: &mut PageTable<Changed>, below: &PageTable<Page>, id: PageId) -> Result<(), NoMemory>
    requires { IsSome (option_or (map.get drafts.old id) (map.get below.now id)) }
    ensures ok { OnOk result (Owns drafts.old below.now id drafts.new) }
    ensures err { OnErr result (drafts.new ≡ drafts.old) }
{
    if drafts.has(id) {
        return Ok(());
    }
    let page = below.get(id).unwrap();
    drafts.insert(id, Changed::of(page.copy()?))
}

// Puts the bytes of this page's own draft into a page that copies share.
fn settle(
    alloc: Global,
    drafts: &mut PageTable<Changed>,
    made: Option<PageId>,
) -> Result<(), NoMemory>
    ensures { drafts.new ≡ drafts.old }
{
    if let Some(id) = made
        && drafts.has(id)
    {
        drafts.lend(id).settle(alloc)?;
    }
    Ok(())
}
