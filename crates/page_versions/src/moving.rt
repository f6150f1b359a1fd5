//! What is done to the chains of many pages, one after another.
ghost use Rattle.std.specs.Prelude.{◌≡◌, ◌<◌, ◌≤◌, ◌+◌, true, None, if◌then◌else◌, nat_lt, length, vec_len, vec_capacity};
ghost use Rattle.page_bytes.specs.declared.ids.PageId.{PageId};
ghost use Rattle.page_versions.specs.ChainMap.{chain_in};
ghost use Rattle.page_versions.specs.Purging.{base, unstaged, purged};
ghost use Rattle.page_versions.specs.Inside.{is_listed, is_page, NoneEmpty};

use crate::table::ChainTable;
use page_bytes::PageId;
use slab::Slab;

/// Drops what no open snapshot sees of these pages.
pub fn purge_all(
    table: &mut ChainTable,
    pages: &[PageId],
    staged: Option<u64>,
    snapshots: &Slab<u64>,
)
    requires filled { NoneEmpty table.old }
    ensures filled { NoneEmpty table.new }
    ensures purged { (q : PageId) → chain_in table.new q ≡ (if is_listed pages.now q then purged staged snapshots.now.slots (chain_in table.old q) else chain_in table.old q) }
{
    for id in pages {
        purge_one(table, *id, staged, snapshots);
    }
}

fn purge_one(table: &mut ChainTable, id: PageId, staged: Option<u64>, snapshots: &Slab<u64>)
    requires filled { NoneEmpty table.old }
    ensures filled { NoneEmpty table.new }
    ensures purged { (q : PageId) → chain_in table.new q ≡ (if is_page q id then purged staged snapshots.now.slots (chain_in table.old q) else chain_in table.old q) }
{
    if table.has(id) {
        table.lend(id).purge(staged, snapshots);
    }
}

/// Takes away what is staged of these pages.
pub fn retract_all(table: &mut ChainTable, pages: &[PageId], staged: Option<u64>)
    requires filled { NoneEmpty table.old }
    requires once { (q : PageId) → base staged (base staged (chain_in table.old q)) ≡ base staged (chain_in table.old q) }
    ensures filled { NoneEmpty table.new }
    ensures retracted { (q : PageId) → chain_in table.new q ≡ (if is_listed pages.now q then base staged (chain_in table.old q) else chain_in table.old q) }
{
    if let Some(commit) = staged {
        unstage_all(table, pages, commit);
    }
}

/// Takes the versions of the commit away, where they are in front.
pub fn unstage_all(table: &mut ChainTable, pages: &[PageId], commit: u64)
    requires filled { NoneEmpty table.old }
    requires once { (q : PageId) → unstaged commit (unstaged commit (chain_in table.old q)) ≡ unstaged commit (chain_in table.old q) }
    ensures filled { NoneEmpty table.new }
    ensures unstaged { (q : PageId) → chain_in table.new q ≡ (if is_listed pages.now q then unstaged commit (chain_in table.old q) else chain_in table.old q) }
{
    for id in pages {
        unstage_one(table, *id, commit);
    }
}

fn unstage_one(table: &mut ChainTable, id: PageId, commit: u64)
    requires filled { NoneEmpty table.old }
    ensures filled { NoneEmpty table.new }
    ensures unstaged { (q : PageId) → chain_in table.new q ≡ (if is_page q id then unstaged commit (chain_in table.old q) else chain_in table.old q) }
{
    if !table.has(id) {
        return;
    }
    let chain = table.lend(id);
    chain.unstage(commit);
    if chain.is_empty() {
        table.remove(id);
    }
}

/// Drops what no open snapshot sees of pages whose staged versions are published now, and notes in `older` those that
/// have more than one version since.
pub fn publish_all(
    table: &mut ChainTable,
    older: &mut Vec<PageId>,
    pages: &[PageId],
    snapshots: &Slab<u64>,
)
    requires filled { NoneEmpty table.old }
    requires long { (q : PageId) → 2 < length (chain_in table.old q) → is_listed older.old.items q ≡ true }
    requires room { vec_len older.old + length pages.now ≤ vec_capacity older.old }
    ensures filled { NoneEmpty table.new }
    ensures purged { (q : PageId) → chain_in table.new q ≡ (if is_listed pages.now q then purged None snapshots.now.slots (chain_in table.old q) else chain_in table.old q) }
    ensures long { (q : PageId) → is_listed pages.now q ≡ true → 1 < length (chain_in table.new q) → is_listed older.new.items q ≡ true }
    ensures kept { (q : PageId) → is_listed older.old.items q ≡ true → is_listed older.new.items q ≡ true }
    ensures room { vec_len older.new ≤ vec_capacity older.new }
{
    for id in pages {
        publish_one(table, older, *id, snapshots);
    }
}

fn publish_one(table: &mut ChainTable, older: &mut Vec<PageId>, id: PageId, snapshots: &Slab<u64>)
    requires filled { NoneEmpty table.old }
    requires long { 2 < length (chain_in table.old id) → is_listed older.old.items id ≡ true }
    requires room { vec_len older.old < vec_capacity older.old }
    ensures filled { NoneEmpty table.new }
    ensures purged { (q : PageId) → chain_in table.new q ≡ (if is_page q id then purged None snapshots.now.slots (chain_in table.old q) else chain_in table.old q) }
    ensures long { 1 < length (chain_in table.new id) → is_listed older.new.items id ≡ true }
    ensures kept { (q : PageId) → is_listed older.old.items q ≡ true → is_listed older.new.items q ≡ true }
    ensures len { vec_len older.new ≤ vec_len older.old + 1 }
    ensures capacity { vec_capacity older.new ≡ vec_capacity older.old }
{
    let was_long = len_of(table, id) > 2;
    purge_one(table, id, None, snapshots);
    if len_of(table, id) > 1 && !was_long {
        older.push_reserved(id);
    }
}

fn len_of(table: &ChainTable, id: PageId) -> usize
    ensures { result ≡ length (chain_in table.now id) }
{
    match table.get(id) {
        Some(chain) => chain.len(),
        None => 0,
    }
}

/// Leaves in `older` the pages that have more than one published version.
pub fn keep_long(older: &mut Vec<PageId>, table: &ChainTable, staged: Option<u64>)
    ensures long { (q : PageId) → is_listed older.old.items q ≡ true → 1 < length (base staged (chain_in table.now q)) → is_listed older.new.items q ≡ true }
    ensures len { vec_len older.new ≤ vec_len older.old }
    ensures capacity { vec_capacity older.new ≡ vec_capacity older.old }
{
    older.retain(|id| is_long(table, *id, staged));
}

fn is_long(table: &ChainTable, id: PageId, staged: Option<u64>) -> bool
    ensures { result ≡ nat_lt 1 (length (base staged (chain_in table.now id))) }
{
    match table.get(id) {
        Some(chain) => chain.is_long(staged),
        None => false,
    }
}
