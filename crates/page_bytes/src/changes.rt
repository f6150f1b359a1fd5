//! What has changed in a workspace, page by page.
ghost use Rattle.std.specs.Prelude.{◌≡◌, OnOk, IfOk, Some, None};
ghost use Rattle.std.specs.FinMap as map;
ghost use Rattle.page_bytes.specs.Changes.{IsChange};
ghost use Rattle.page_bytes.specs.Inside.{now_of, Notes, IsListed, KeepsListed, AreLong};
ghost use Rattle.page_bytes.specs.declared.ids.PageId.{PageId};

use crate::changed::Changed;
use crate::end::NoMemory;
use crate::ids::PageId;
use crate::page::Page;
use crate::table::{PageTable, SpaceSet};
use std::alloc::Global;

/// What is left to be looked at of a workspace's pages.
#[derive(Drop)]
pub struct Left {
    pub below: PageTable<Page>,
    pub drafts: PageTable<Changed>,
    pub gone: PageTable<()>,
    pub whole: SpaceSet,
}

/// The change of each page that changed.
pub fn changes(alloc: Global, left: Left) -> Result<PageTable<Option<Page>>, NoMemory>
    ensures changes { IfOk result (λ changes. (q : PageId) → IsChange (map.get left.below q) (now_of left.gone left.whole q (map.get left.drafts q) (map.get left.below q)) (map.get changes q)) }
    ensures long { IfOk result (λ changes. AreLong changes) }
{
    let mut left = left;
    let mut changes = PageTable::new(alloc);
    note_below(alloc, &mut changes, &mut left)?;
    note_new(alloc, &mut changes, &mut left)?;
    Ok(changes)
}

fn note_below(
    alloc: Global,
    changes: &mut PageTable<Option<Page>>,
    left: &mut Left,
) -> Result<(), NoMemory>
    requires { changes.old ≡ map.empty }
    ensures same { OnOk result ((left.new.gone ≡ left.old.gone) × (left.new.whole ≡ left.old.whole)) }
    ensures all { OnOk result (left.new.below ≡ map.empty) }
    ensures long { OnOk result (AreLong changes.new) }
    ensures noted { OnOk result (IsListed left.old.below left.old.drafts left.old.gone left.old.whole left.new.below left.new.drafts changes.new) }
{
    while let Some((id, page)) = left.below.take_first() {
        let draft = left.drafts.take(id);
        note(alloc, changes, left, id, page, draft)?;
    }
    Ok(())
}

fn note_new(
    alloc: Global,
    changes: &mut PageTable<Option<Page>>,
    left: &mut Left,
) -> Result<(), NoMemory>
    requires below { left.old.below ≡ map.empty }
    requires long { AreLong changes.old }
    ensures same { OnOk result (left.new.below ≡ map.empty) }
    ensures all { OnOk result (left.new.drafts ≡ map.empty) }
    ensures long { OnOk result (AreLong changes.new) }
    ensures noted { OnOk result (KeepsListed left.old.drafts changes.old left.new.drafts changes.new) }
{
    while let Some((id, draft)) = left.drafts.take_first() {
        let page = draft.into_page(alloc)?;
        changes.insert(id, Some(page))?;
    }
    Ok(())
}

fn note(
    alloc: Global,
    changes: &mut PageTable<Option<Page>>,
    left: &Left,
    id: PageId,
    page: Page,
    draft: Option<Changed>,
) -> Result<(), NoMemory>
    ensures long { AreLong changes.old → OnOk result (AreLong changes.new) }
    ensures notes { OnOk result (Notes changes.old id (Some page) (now_of left.now.gone left.now.whole id draft (Some page)) changes.new) }
{
    if let Some(draft) = draft {
        if draft.bytes() == page.bytes() {
            return Ok(());
        }
        let page = draft.into_page(alloc)?;
        return changes.insert(id, Some(page));
    }
    if left.whole.has(id.space) {
        return changes.insert(id, None);
    }
    if left.gone.has(id) {
        return changes.insert(id, None);
    }
    Ok(())
}
