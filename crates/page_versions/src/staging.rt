//! Putting the changes of a commit in front of the chains.
ghost use Rattle.std.specs.Prelude.{◌≡◌, ◌+◌, ◌≤◌, ◌++◌, ◌∷◌, [], false, Some, if◌then◌else◌, IfOk, OnOk, OnErr, vec_len, vec_capacity};
ghost use Rattle.std.specs.FinMap as map;
ghost use Rattle.page_bytes.specs.declared.ids.PageId.{PageId};
ghost use Rattle.page_bytes.specs.Changes.{change_of};
ghost use Rattle.page_versions.specs.ChainMap.{chain_in};
ghost use Rattle.page_versions.specs.Staging.{image_of, staged_image, with_image, staged_chain};
ghost use Rattle.page_versions.specs.Inside.{is_page, is_listed, IsBefore, NoneEmpty, staged_once, StagesUnder};
ghost use Rattle.page_versions.specs.declared.version.Image.TheVariants as image;

use crate::chain::Chain;
use crate::table::ChainTable;
use crate::version::{Image, Version};
use page_bytes::{NoMemory, Page, PageChange, PageId, Space};

/// Stages, and makes room in `older` for the pages that are staged.
pub fn stage_with_room(
    table: &mut ChainTable,
    touched: &mut Vec<PageId>,
    older: &mut Vec<PageId>,
    commit: u64,
    changes: &[PageChange],
    dropped: &[Space],
) -> Result<(), NoMemory>
    requires filled { NoneEmpty table.old }
    requires before { (q : PageId) → IsBefore (Some commit) (chain_in table.old q) }
    ensures under { StagesUnder commit table.old table.new touched.old.items touched.new.items }
    ensures ok { OnOk result ((q : PageId) → chain_in table.new q ≡ staged_chain commit changes.now dropped.now q (chain_in table.old q)) }
    ensures older { older.new.items ≡ older.old.items }
    ensures room { OnOk result (vec_len older.new + vec_len touched.new ≤ vec_capacity older.new) }
{
    stage_all(table, touched, commit, changes, dropped)?;
    match older.reserve(touched.len()) {
        Ok(()) => Ok(()),
        Err(_) => Err(NoMemory),
    }
}

/// Puts changes, and absences for the pages of spaces, in front of the chains, as versions of the commit. The pages are
/// noted in `touched`, also those that were done before memory was refused.
fn stage_all(
    table: &mut ChainTable,
    touched: &mut Vec<PageId>,
    commit: u64,
    changes: &[PageChange],
    dropped: &[Space],
) -> Result<(), NoMemory>
    requires filled { NoneEmpty table.old }
    requires before { (q : PageId) → IsBefore (Some commit) (chain_in table.old q) }
    ensures under { StagesUnder commit table.old table.new touched.old.items touched.new.items }
    ensures ok { OnOk result ((q : PageId) → chain_in table.new q ≡ staged_chain commit changes.now dropped.now q (chain_in table.old q)) }
{
    let gone = table.pages_in(dropped)?;
    stage_changes(table, touched, commit, changes)?;
    stage_absences(table, touched, commit, gone.as_slice())
}

fn stage_changes(
    table: &mut ChainTable,
    touched: &mut Vec<PageId>,
    commit: u64,
    changes: &[PageChange],
) -> Result<(), NoMemory>
    requires filled { NoneEmpty table.old }
    requires before { (q : PageId) → IsBefore (Some commit) (chain_in table.old q) }
    ensures under { StagesUnder commit table.old table.new touched.old.items touched.new.items }
    ensures ok { OnOk result ((q : PageId) → chain_in table.new q ≡ with_image commit (staged_image (change_of changes.now q) false) (chain_in table.old q)) }
{
    for change in changes {
        let image = image_now(&change.page)?;
        stage_one(table, touched, commit, change.id, image)?;
    }
    Ok(())
}

fn stage_absences(
    table: &mut ChainTable,
    touched: &mut Vec<PageId>,
    commit: u64,
    pages: &[PageId],
) -> Result<(), NoMemory>
    requires filled { NoneEmpty table.old }
    ensures under { StagesUnder commit table.old table.new touched.old.items touched.new.items }
    ensures ok { OnOk result ((q : PageId) → chain_in table.new q ≡ (if is_listed pages.now q then staged_once commit image.Absent (chain_in table.old q) else chain_in table.old q)) }
{
    for id in pages {
        stage_one(table, touched, commit, *id, Image::Absent)?;
    }
    Ok(())
}

/// The image of what a page is now.
fn image_now(page: &Option<Page>) -> Result<Image, NoMemory>
    ensures { IfOk result (λ i. i ≡ image_of page.now) }
{
    match page {
        Some(page) => Ok(Image::Resident(page.copy()?)),
        None => Ok(Image::Absent),
    }
}

/// Puts a version in front of the page's chain, unless one of the commit is there.
fn stage_one(
    table: &mut ChainTable,
    touched: &mut Vec<PageId>,
    commit: u64,
    id: PageId,
    image: Image,
) -> Result<(), NoMemory>
    requires filled { NoneEmpty table.old }
    ensures under { StagesUnder commit table.old table.new touched.old.items touched.new.items }
    ensures ok { OnOk result ((q : PageId) → chain_in table.new q ≡ (if is_page q id then staged_once commit image (chain_in table.old q) else chain_in table.old q)) }
{
    note(touched, id)?;
    put_version(table, id, Version { commit, image })
}

fn note(touched: &mut Vec<PageId>, id: PageId) -> Result<(), NoMemory>
    ensures ok { OnOk result (touched.new.items ≡ touched.old.items ++ id ∷ []) }
    ensures err { OnErr result (touched.new.items ≡ touched.old.items) }
{
    match touched.push(id) {
        Ok(()) => Ok(()),
        Err(_) => Err(NoMemory),
    }
}

fn put_version(table: &mut ChainTable, id: PageId, version: Version) -> Result<(), NoMemory>
    ensures ok { OnOk result (table.new ≡ map.insert table.old id (staged_once version.commit version.image (chain_in table.old id))) }
    ensures err { OnErr result (table.new ≡ table.old) }
{
    if !table.has(id) {
        let chain = Chain::of(table.allocator(), version)?;
        return table.insert(id, chain);
    }
    let chain = table.lend(id);
    if chain.is_staged(version.commit) {
        return Ok(());
    }
    chain.push(version)
}
