//! Giving each page of a plan its slot.
ghost use Rattle.std.specs.Prelude.{◌≡◌, ◌≤◌, ◌<◌, ◌+◌, ◌++◌, ◌∷◌, [], ℕ, true, false, map, IfOk, OnOk, OnErr, IsErr, IsErrOf};
ghost use Rattle.std.specs.Option.{option_copied, option_map};
ghost use Rattle.std.specs.FinMap as maps;
ghost use Rattle.page_versions.specs.Chains.{version_at};
ghost use Rattle.std.specs.List.{AllByRecursion};
ghost use Rattle.slot_store.specs.Slots.{AreLeast, GivesSlots};
ghost use Rattle.slot_store.specs.Spent.{IsSlotSpent, IsSlotEnd, NoneFree, count_residents};
ghost use Rattle.slot_store.specs.Table.{rows_in};
ghost use Rattle.slot_store.specs.Planned.{newest_images, with_image, with_version, before_of, row_of, written_slots, image_at, is_image, cut_gone, without_gone, put_if, with_written};

use crate::end::PlanEnd;
use crate::planning::{LAST_SLOT, Placed};
use crate::slot_set::SlotSet;
use crate::table::{PageTable, Row};
use crate::tree::Tree;
use page_bytes::{NoMemory, PageId};
use page_versions::{Chain, Image, Versions};
use std::alloc::Global;
use xq_ast::SpentKind;

/// Places the newest image of each page: one that is in a slot stays, one that is in none gets the least free slot behind
/// those that were given before it.
pub fn place_pages(
    alloc: Global,
    versions: &Versions,
    commit: u64,
    used: &SlotSet,
) -> Result<Vec<Placed>, PlanEnd>
    ensures pages { IfOk result (λ placed. map before_of placed.items ≡ newest_images commit (maps.entries versions.now.chains)) }
    ensures least { IfOk result (λ placed. AreLeast (λ s. maps.contains_key used.now s) 0 (written_slots placed.items)) }
    ensures within { IfOk result (λ placed. AllByRecursion (λ (s : ℕ). s ≤ LAST_SLOT) (written_slots placed.items)) }
    ensures spent { (kind : SpentKind) (n : ℕ) → IsErrOf result (PlanEnd.Spent kind n) → IsSlotEnd kind n × IsSlotSpent (λ s. maps.contains_key used.now s) (newest_images commit (maps.entries versions.now.chains)) }
{
    let mut placed = Vec::new(alloc);
    let mut from = 0;
    for (id, chain) in versions.chains() {
        place_newest(&mut placed, &mut from, *id, chain, commit, used)?;
    }
    Ok(placed)
}

// Places the newest image of a page, if it has one.
fn place_newest(
    placed: &mut Vec<Placed>,
    from: &mut u64,
    id: PageId,
    chain: &Chain,
    commit: u64,
    used: &SlotSet,
) -> Result<(), PlanEnd>
    ensures pages { OnOk result (map before_of placed.new.items ≡ map before_of placed.old.items ++ with_version id (version_at chain.now commit) []) }
    ensures slots { OnOk result (GivesSlots (λ s. maps.contains_key used.now s) from.old from.new (written_slots placed.old.items) (written_slots placed.new.items)) }
    ensures spent { (kind : SpentKind) (n : ℕ) → IsErrOf result (PlanEnd.Spent kind n) → IsSlotEnd kind n × NoneFree (λ s. maps.contains_key used.now s) from.old × (0 < count_residents (with_version id (version_at chain.now commit) [])) }
{
    match newest(chain, commit) {
        None => Ok(()),
        Some(image) => place_image(placed, from, id, image, used),
    }
}

// The image of the newest version that is not after the commit.
fn newest(chain: &Chain, commit: u64) -> Option<&Image>
    ensures { option_copied result ≡ option_map (λ v. v.image) (version_at chain.now commit) }
{
    for version in chain.versions() {
        if version.commit <= commit {
            return Some(&version.image);
        }
    }
    None
}

fn place_image(
    placed: &mut Vec<Placed>,
    from: &mut u64,
    id: PageId,
    image: &Image,
    used: &SlotSet,
) -> Result<(), PlanEnd>
    ensures pages { OnOk result (map before_of placed.new.items ≡ map before_of placed.old.items ++ with_image id image.now []) }
    ensures slots { OnOk result (GivesSlots (λ s. maps.contains_key used.now s) from.old from.new (written_slots placed.old.items) (written_slots placed.new.items)) }

    // Spent comes only for an image that is in no slot, where no slot is free.
    ensures spent { (kind : SpentKind) (n : ℕ) → IsErrOf result (PlanEnd.Spent kind n) → IsSlotEnd kind n × NoneFree (λ s. maps.contains_key used.now s) from.old × (0 < count_residents (with_image id image.now [])) }
{
    match image {
        Image::Absent => Ok(()),
        Image::Slot(slot) => {
            let slot = *slot;
            push_placed(
                placed,
                Placed {
                    id,
                    slot,
                    page: None,
                },
            )?;
            Ok(())
        }
        Image::Resident(page) => {
            let slot = take_free(from, used)?;
            let page = Some(page.copy()?);
            push_placed(placed, Placed { id, slot, page })?;
            Ok(())
        }
    }
}

fn push_placed(placed: &mut Vec<Placed>, page: Placed) -> Result<(), NoMemory>
    ensures ok { OnOk result (placed.new.items ≡ placed.old.items ++ page ∷ []) }
    ensures err { OnErr result (placed.new.items ≡ placed.old.items) }
{
    match placed.push(page) {
        Ok(()) => Ok(()),
        Err(_) => Err(NoMemory),
    }
}

// The least free slot from a place on, which then stands behind it.
fn take_free(from: &mut u64, used: &SlotSet) -> Result<u64, PlanEnd>
    ensures found { IfOk result (λ s. (from.old ≤ s) × (s ≤ LAST_SLOT) × (maps.contains_key used.now s ≡ false) × ((t : ℕ) → from.old ≤ t → t < s → maps.contains_key used.now t ≡ true)) }
    ensures behind { IfOk result (λ s. from.new ≡ s + 1) }
    ensures none { IsErr result → NoneFree (λ s. maps.contains_key used.now s) from.old }
    ensures end { (kind : SpentKind) (n : ℕ) → IsErrOf result (PlanEnd.Spent kind n) → IsSlotEnd kind n }
    ensures err { IsErr result → IsErrOf result (PlanEnd.Spent SpentKind.Slot LAST_SLOT) }
{
    match used.next_free(*from) {
        Some(slot) => {
            *from = slot + 1;
            Ok(slot)
        }
        None => Err(PlanEnd::Spent {
            kind: SpentKind::Slot,
            number: LAST_SLOT,
        }),
    }
}

/// The table of a plan, made of the table that counts by what is written and what is gone.
pub fn changed_table(
    table: &PageTable,
    versions: &Versions,
    commit: u64,
    placed: &[Placed],
) -> Result<PageTable, NoMemory>
    ensures { IfOk result (λ new. new ≡ with_written placed.now (without_gone versions.now commit table.now table.now)) }
{
    let mut new = table.share()?;
    remove_gone(&mut new, table.tree(), versions, commit)?;
    put_written(&mut new, placed)?;
    Ok(new)
}

// Takes the rows of those of these pages away that have no image.
fn remove_gone(
    table: &mut PageTable,
    rows: &Tree,
    versions: &Versions,
    commit: u64,
) -> Result<(), NoMemory>
    ensures { OnOk result (table.new ≡ without_gone versions.now commit (rows_in rows.now) table.old) }
{
    let Tree::Node(branch) = rows else {
        return Ok(());
    };
    remove_gone(table, &branch.left, versions, commit)?;
    remove_if_gone(table, branch.row.id, versions, commit)?;
    remove_gone(table, &branch.right, versions, commit)
}

fn remove_if_gone(
    table: &mut PageTable,
    id: PageId,
    versions: &Versions,
    commit: u64,
) -> Result<(), NoMemory>
    ensures { OnOk result (table.new ≡ cut_gone (is_image (image_at versions.now commit id)) id table.old) }
{
    if has_image(versions, id, commit) {
        return Ok(());
    }
    table.remove(id)
}

// Whether a page has an image at a commit.
fn has_image(versions: &Versions, id: PageId, commit: u64) -> bool
    ensures { result ≡ is_image (image_at versions.now commit id) }
{
    match versions.page_at(id, commit) {
        None | Some(Image::Absent) => false,
        Some(_) => true,
    }
}

// Puts the rows of the pages that are written into the table.
fn put_written(table: &mut PageTable, placed: &[Placed]) -> Result<(), NoMemory>
    ensures { OnOk result (table.new ≡ with_written placed.now table.old) }
{
    for page in placed {
        put_if_written(table, page)?;
    }
    Ok(())
}

fn put_if_written(table: &mut PageTable, page: &Placed) -> Result<(), NoMemory>
    ensures { OnOk result (table.new ≡ put_if page.now.page (row_of page.now) table.old) }
{
    if page.page.is_none() {
        return Ok(());
    }
    table.insert(Row {
        id: page.id,
        slot: page.slot,
    })
}
