//! Sets of slots, and the slots that are in use. Contracts see a finite map with nothing at each slot.
ghost use Rattle.std.specs.Prelude.{◌≡◌, ◌≤◌, ◌<◌, ℕ, true, false, None, IfSome, OnOk, IfOk, is_none};
ghost use Rattle.std.specs.FinMap as map;
ghost use Rattle.page_versions.specs.declared.version.Version.{Version as AVersion};
ghost use Rattle.page_versions.specs.Kept.{IsUpTo};
ghost use Rattle.slot_store.specs.Planned.{FitsVersions};
ghost use Rattle.slot_store.specs.Table.{rows_in};
ghost use Rattle.slot_store.specs.Used.{with_slots, slots_of, slots_if, slots_of_chains, slot_of_version, used_slots, is_used, is_named};
ghost use Rattle.std.specs.List.{flat_map};

use crate::planning::LAST_SLOT;
use crate::state::{DoubtedHead, SlotState};
use crate::tree::Tree;
use page_bytes::NoMemory;
use page_versions::{Chain, Image, Version, Versions};
use std::alloc::Global;
use std::collections::BTreeMap;
use std::marker::Model;

/// Some slots.
#[derive(Drop)]
pub struct SlotSet {
    slots: BTreeMap<u64, ()>,
}

impl Model for SlotSet {
    ghost use Rattle.std.specs.FinMap as map;
    ghost use Rattle.slot_store.specs.Used.{SlotIds, slot_ids_code};

    ghost Value = { SlotIds };

    ghost coded = { slot_ids_code };

    ghost view = { λ s. map.from_entries s.slots.entries };
}

impl SlotSet {
    pub fn new(alloc: Global) -> SlotSet
        ensures { result ≡ map.empty }
    {
        SlotSet {
            slots: BTreeMap::new(alloc),
        }
    }

    pub fn has(&self, slot: u64) -> bool
        ensures { result ≡ map.contains_key self.now slot }
    {
        self.slots.contains_key(&slot)
    }

    pub fn insert(&mut self, slot: u64) -> Result<(), NoMemory>
        ensures { OnOk result (self.new ≡ map.insert self.old slot tt) }
    {
        match self.slots.insert(slot, ()) {
            Ok(_) => Ok(()),
            Err(_) => Err(NoMemory),
        }
    }

    /// The least slot from a place on that is not in the set, if there is one that is not past the last slot.
    pub fn next_free(&self, from: u64) -> Option<u64>
        ensures found { IfSome result (λ s. (from ≤ s) × (s ≤ LAST_SLOT) × (map.contains_key self.now s ≡ false) × ((t : ℕ) → from ≤ t → t < s → map.contains_key self.now t ≡ true)) }
        ensures none { is_none result ≡ true → (t : ℕ) → from ≤ t → t ≤ LAST_SLOT → map.contains_key self.now t ≡ true }
    {
        let mut slot = from;
        while slot <= LAST_SLOT {
            if !self.has(slot) {
                return Some(slot);
            }
            slot += 1;
        }
        None
    }
}

/// The slots that the state's table, that of its head in doubt, or a version that is not after the commit names.
pub fn used_slots(
    alloc: Global,
    state: &SlotState,
    versions: &Versions,
    commit: u64,
) -> Result<SlotSet, NoMemory>
    ensures { IfOk result (λ set. set ≡ with_slots (used_slots state.now commit (map.entries versions.now.chains)) map.empty) }
{
    let mut slots = SlotSet::new(alloc);
    add_rows(&mut slots, state.table.tree())?;
    add_doubted(&mut slots, &state.doubt)?;
    add_versions(&mut slots, versions, commit)?;
    Ok(slots)
}

/// The slots that a plan leaves alone are exactly those that the table of the log that counts, that of a head in doubt, or a
/// version seen by an open snapshot names, where nothing is later than the commit. Does nothing.
pub fn only_named(state: &SlotState, versions: &Versions, commit: u64)
    requires newest { IsUpTo versions.now commit }
    requires fits { FitsVersions state.now versions.now commit }
    ensures { (s : ℕ) → is_used state.now commit (map.entries versions.now.chains) s ≡ is_named state.now versions.now s }
{
    // It hands out that each chain has its newest version and those that a snapshot sees, and no other.
    versions.exact();
    let _ = &state.table;
    let _ = commit;
}

fn add_doubted(slots: &mut SlotSet, doubt: &Option<DoubtedHead>) -> Result<(), NoMemory>
    ensures { OnOk result (slots.new ≡ with_slots (slots_if doubt.now) slots.old) }
{
    match doubt {
        None => Ok(()),
        Some(head) => add_rows(slots, head.table.tree()),
    }
}

fn add_rows(slots: &mut SlotSet, tree: &Tree) -> Result<(), NoMemory>
    ensures { OnOk result (slots.new ≡ with_slots (slots_of (rows_in tree.now)) slots.old) }
{
    let Tree::Node(branch) = tree else {
        return Ok(());
    };
    add_rows(slots, &branch.left)?;
    slots.insert(branch.row.slot)?;
    add_rows(slots, &branch.right)
}

fn add_versions(slots: &mut SlotSet, versions: &Versions, commit: u64) -> Result<(), NoMemory>
    ensures { OnOk result (slots.new ≡ with_slots (slots_of_chains commit (map.entries versions.now.chains)) slots.old) }
{
    for (_, chain) in versions.chains() {
        add_chain(slots, chain, commit)?;
    }
    Ok(())
}

fn add_chain(slots: &mut SlotSet, chain: &Chain, commit: u64) -> Result<(), NoMemory>
    ensures { OnOk result (slots.new ≡ with_slots (flat_map (slot_of_version commit) chain.now) slots.old) }
{
    for version in chain.versions() {
        add_version(slots, version, commit)?;
    }
    Ok(())
}

fn add_version(slots: &mut SlotSet, version: &Version, commit: u64) -> Result<(), NoMemory>
    ensures { OnOk result (slots.new ≡ with_slots (slot_of_version commit version.now) slots.old) }
{
    match version.image {
        Image::Slot(slot) if version.commit <= commit => slots.insert(slot),
        _ => Ok(()),
    }
}
