// Versions of pages that are in no slot, with their newest commit number, where nothing is staged.
ghost use Rattle.std.specs.Prelude.{◌≤◌, All, IfOk, length};
ghost use Rattle.slot_store.specs.Planned.{IfMade, IsMadeFor};

use page_bytes::{ChangeList, Draft, NoMemory, Page, PageChange, PageId, Space};
use page_versions::{SpaceList, Versions};
use redo_log::LogNameList;
use slot_store::{CheckPlan, SlotState, plan};
use std::alloc::Global;
use std::marker::Model;

// A page of the one document, whose space is of commit 1.
pub fn id(number: u64) -> PageId {
    let space = Space {
        commit: 1,
        ordinal: 0,
    };
    PageId { space, number }
}

// A page's number, and its first byte now.
#[derive(Clone, Copy)]
pub struct Mark {
    pub page: u64,
    pub byte: u8,
}

fn change(alloc: Global, mark: Mark) -> Result<PageChange, NoMemory> {
    let mut bytes = [0; 4096];
    bytes[0] = mark.byte;
    let page = Page::of(alloc, Draft::copy_of(alloc, &bytes)?)?;
    Ok(PageChange {
        id: id(mark.page),
        page: Some(page),
    })
}

fn changes(alloc: Global, marks: &[Mark]) -> Result<ChangeList, NoMemory> {
    let mut changes = Vec::new(alloc);
    for mark in marks {
        if changes.push(change(alloc, *mark)?).is_err() {
            return Err(NoMemory);
        }
    }
    Ok(ChangeList::of(changes))
}

#[derive(Drop)]
pub struct Store {
    versions: Versions,
    newest: u64,
}

impl Model for Store {
    ghost use Rattle.std.specs.Prelude.{ℕ};
    ghost use Rattle.store_tests.specs.Resident.{AreFresh};

    ghost Value = { ℕ };

    ghost view = { λ s. s.newest };

    ghost invariant = { λ s. AreFresh s.versions s.newest };
}

impl Store {
    pub fn new(alloc: Global) -> Store {
        Store {
            versions: Versions::new(alloc),
            newest: 0,
        }
    }

    // Changes these pages in a commit.
    pub fn commit(&mut self, alloc: Global, marks: &[Mark]) -> Result<(), NoMemory> {
        if self.newest == u64::MAX {
            return Ok(());
        }
        let changes = changes(alloc, marks)?;
        let dropped = SpaceList::of(Vec::new(alloc));
        self.versions.stage(self.newest + 1, &changes, &dropped)?;
        self.versions.publish();
        self.newest += 1;
        Ok(())
    }

    // Opens a snapshot at the newest commit.
    pub fn open(&mut self) -> Result<usize, NoMemory> {
        self.versions.open_snapshot(self.newest)
    }

    // Plans a checkpoint of the newest commit.
    pub fn plan(
        &self,
        alloc: Global,
        state: &SlotState,
        entries: &LogNameList,
    ) -> Result<CheckPlan, NoMemory>
        requires { All (λ n. length n.name ≤ 255) entries.now }
        ensures { IfOk result (λ p. IfMade p (IsMadeFor state.now)) }
    {
        plan(alloc, state, &self.versions, self.newest, entries)
    }
}
