//! What a checkpoint is to write.
ghost use Rattle.std.specs.Prelude.{◌≡◌, ◌≤◌, ◌+◌, ◌*◌, ◌<◌, ◌++◌, ◌∷◌, [], ◌↔◌, ℕ, All, length, map as map_list, Ok, IfOk, OnOk, IsOk, IsErr, IsErrOf};
ghost use Rattle.std.specs.List.{AllByRecursion};
ghost use Rattle.std.specs.FinMap as map;
ghost use Rattle.xq_ast.specs.declared.limits.TheConstants.{DOCUMENT_NAME_BYTES_MAX};
ghost use Rattle.slot_store.specs.Slots.{AreLeast};
ghost use Rattle.slot_store.specs.Head.{head_bytes};
ghost use Rattle.slot_store.specs.Used.{is_used};
ghost use Rattle.slot_store.specs.Spent.{last_generation, IsSlotSpent, IsLogSpent, IsSpentAt};
ghost use Rattle.slot_store.specs.Planned.{newest_images, before_of, row_of, written_slots, head_of, IfMade, placed_in, IsMadeFor, FitsVersions};

use crate::end::PlanEnd;
use crate::placing::{changed_table, place_pages};
use crate::slot_set::used_slots;
use crate::spelling::{ROW_BYTES, front_of};
use crate::state::{Log, SlotState};
use crate::table::PageTable;
use page_bytes::{NoMemory, Page, PageId};
use page_device::LONGEST;
use page_versions::Versions;
use redo_log::LogNameList;
use std::alloc::Global;
use std::snapshot::Snapshot;
use xq_ast::SpentKind;

/// The last slot: with it the slot file has as many bytes as a file can have.
pub const LAST_SLOT: u64 = 2_251_799_813_685_246;

/// How many bytes of a head's pages are written at a time.
pub const BUFFER_BYTES: usize = 65_536;

/// A page of a plan, and its slot: the one that it is in, or the one to which `page` is written.
#[derive(Drop)]
pub struct Placed {
    pub id: PageId,
    pub slot: u64,
    pub page: Option<Page>,
}

/// What a checkpoint is to write: the images and their slots, and the head of the other log.
#[derive(Drop)]
pub struct MadePlan {
    pub(crate) alloc: Global,
    pub(crate) log: Log,
    pub(crate) generation: u64,
    pub(crate) commit: u64,
    pub(crate) entries: Snapshot<LogNameList>,
    // what stands before the pages in the head
    pub(crate) front: Vec<u8>,
    pub(crate) placed: Vec<Placed>,
    pub(crate) table: PageTable,
    pub(crate) buffer: Vec<u8>,
}

/// The plan of a checkpoint, or why it cannot be made.
#[derive(Drop)]
pub enum CheckPlan {
    /// What is to be written.
    Made(MadePlan),

    /// The next generation, slot or length of the log would be past the last one, which is `number`.
    Spent { kind: SpentKind, number: u64 },
}

impl CheckPlan {
    /// The pages with their slots, in rising order of pages. Where a number is spent there are none.
    pub fn placed(&self) -> &[Placed]
        ensures { result.now ≡ placed_in self.now }
    {
        match self {
            CheckPlan::Made(made) => made.placed.as_slice(),
            CheckPlan::Spent { .. } => &[],
        }
    }
}

/// The plan of a checkpoint, made of the newest commit's number and catalogue and of the versions of its pages. It takes all
/// the memory that the checkpoint needs.
pub fn plan(
    alloc: Global,
    state: &SlotState,
    versions: &Versions,
    commit: u64,
    entries: &LogNameList,
) -> Result<CheckPlan, NoMemory>
    requires names { All (λ n. length n.name ≤ DOCUMENT_NAME_BYTES_MAX) entries.now }
    requires fits { FitsVersions state.now versions.now commit }
    ensures made { IfOk result (λ p. IfMade p (IsMadeFor state.now)) }
    ensures commit { IfOk result (λ p. IfMade p (λ m. m.commit ≡ commit)) }
    ensures entries { IfOk result (λ p. IfMade p (λ m. m.entries.value ≡ entries.now)) }

    // The pages are those that have a newest image, in their order, and what is in no slot gets the least free slots.
    ensures pages { IfOk result (λ p. IfMade p (λ m. map_list before_of m.placed.items ≡ newest_images commit (map.entries versions.now.chains))) }
    ensures least { IfOk result (λ p. IfMade p (λ m. AreLeast (is_used state.now commit (map.entries versions.now.chains)) 0 (written_slots m.placed.items))) }

    // The plan is spent exactly where the generation, or else a slot, or else the length of the log would be past the last one.
    ensures spent_generation { (result ≡ Ok (CheckPlan.Spent SpentKind.Generation last_generation)) ↔ (state.now.generation ≡ last_generation) }
    ensures spent_slot { result ≡ Ok (CheckPlan.Spent SpentKind.Slot LAST_SLOT) → IsSlotSpent (is_used state.now commit (map.entries versions.now.chains)) (newest_images commit (map.entries versions.now.chains)) }
    ensures spent_log { result ≡ Ok (CheckPlan.Spent SpentKind.Log LONGEST) → IsLogSpent (state.now.generation + 1) commit entries.now (length (newest_images commit (map.entries versions.now.chains))) }
    ensures spent_only { (kind : SpentKind) (n : ℕ) → result ≡ Ok (CheckPlan.Spent kind n) → IsSpentAt kind n }
{
    match make_plan(alloc, state, versions, commit, entries) {
        Ok(made) => Ok(CheckPlan::Made(made)),
        Err(PlanEnd::Spent { kind, number }) => Ok(CheckPlan::Spent { kind, number }),
        Err(PlanEnd::NoMemory) => Err(NoMemory),
    }
}

// The plan itself, or why it is not made.
fn make_plan(
    alloc: Global,
    state: &SlotState,
    versions: &Versions,
    commit: u64,
    entries: &LogNameList,
) -> Result<MadePlan, PlanEnd>
    requires names { All (λ n. length n.name ≤ DOCUMENT_NAME_BYTES_MAX) entries.now }
    requires fits { FitsVersions state.now versions.now commit }
    ensures made { IfOk result (IsMadeFor state.now) }
    ensures commit { IfOk result (λ p. p.commit ≡ commit) }
    ensures entries { IfOk result (λ p. p.entries.value ≡ entries.now) }

    ensures pages { IfOk result (λ p. map_list before_of p.placed.items ≡ newest_images commit (map.entries versions.now.chains)) }
    ensures least { IfOk result (λ p. AreLeast (is_used state.now commit (map.entries versions.now.chains)) 0 (written_slots p.placed.items)) }

    ensures spent_generation { IsErrOf result (PlanEnd.Spent SpentKind.Generation last_generation) ↔ (state.now.generation ≡ last_generation) }
    ensures spent_slot { IsErrOf result (PlanEnd.Spent SpentKind.Slot LAST_SLOT) → IsSlotSpent (is_used state.now commit (map.entries versions.now.chains)) (newest_images commit (map.entries versions.now.chains)) }
    ensures spent_log { IsErrOf result (PlanEnd.Spent SpentKind.Log LONGEST) → IsLogSpent (state.now.generation + 1) commit entries.now (length (newest_images commit (map.entries versions.now.chains))) }
    ensures spent_only { (kind : SpentKind) (n : ℕ) → IsErrOf result (PlanEnd.Spent kind n) → IsSpentAt kind n }
{
    if state.generation == u64::MAX {
        return Err(PlanEnd::Spent {
            kind: SpentKind::Generation,
            number: u64::MAX,
        });
    }
    let generation = state.generation + 1;
    let used = used_slots(alloc, state, versions, commit)?;
    let placed = place_pages(alloc, versions, commit, &used)?;
    // It hands out that the rows are in the order of pages.
    state.table.rises();
    let table = changed_table(&state.table, versions, commit, placed.as_slice())?;
    let front = front_of(alloc, generation, commit, entries.as_slice(), placed.len())?;
    test_length(front.len(), placed.len())?;
    let Ok(buffer) = vec![in alloc; 0; BUFFER_BYTES] else {
        return Err(PlanEnd::NoMemory);
    };
    Ok(MadePlan {
        alloc,
        log: state.log,
        generation,
        commit,
        entries: Snapshot::of(entries),
        front,
        placed,
        table,
        buffer,
    })
}

// Whether the head, with its own gate and the first record's, fits the log.
fn test_length(front: usize, pages: usize) -> Result<(), PlanEnd>
    ensures fits { OnOk result (front + pages * 32 + 2 ≤ LONGEST) }
    ensures spent { IsErr result → LONGEST < front + pages * 32 + 2 }
    ensures end { IsErr result → IsErrOf result (PlanEnd.Spent SpentKind.Log LONGEST) }
{
    let long = front as u128 + pages as u128 * ROW_BYTES as u128 + 2;
    if long > LONGEST as u128 {
        return Err(PlanEnd::Spent {
            kind: SpentKind::Log,
            number: LONGEST,
        });
    }
    Ok(())
}
