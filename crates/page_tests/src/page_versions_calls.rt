// Versions of pages: each call with ample memory, and what snapshots see.
ghost use Rattle.std.specs.Prelude.{◌≡◌, ◌≢◌, [], None, IsTrue, IsSomeAnd};
ghost use Rattle.std.specs.FinMap as map;
ghost use Rattle.std.specs.Option.{option_copied};
ghost use Rattle.page_versions.specs.declared.version.Image.TheVariants as image_variants;

use page_bytes::{ChangeList, Draft, NoMemory, Page, PageChange, PageId, Space};
use page_versions::{Image, SpaceList, Versions};
use std::alloc::Global;
use std::marker::Model;
use std::process::Abort;
use std::test::Fail;

/// Pages of several spaces: ten to a space.
fn id(number: u64) -> PageId {
    PageId {
        space: Space {
            commit: number / 10,
            ordinal: 0,
        },
        number: number % 10,
    }
}

fn page(alloc: Global, mark: u8) -> Result<Page, NoMemory> {
    let mut bytes = [0; 4096];
    bytes[0] = mark;
    Page::of(alloc, Draft::copy_of(alloc, &bytes)?)
}

/// A page's number, and its first byte now; 0 is a page that goes.
#[derive(Clone, Copy)]
struct Mark {
    page: u64,
    byte: u8,
}

fn change(alloc: Global, mark: Mark) -> Result<PageChange, NoMemory> {
    let page = if mark.byte == 0 {
        None
    } else {
        Some(page(alloc, mark.byte)?)
    };
    Ok(PageChange {
        id: id(mark.page),
        page,
    })
}

fn changes(alloc: Global, marks: &[Mark]) -> Result<ChangeList, NoMemory> {
    let mut changes = Vec::new(alloc);
    for mark in marks {
        if changes.push(change(alloc, *mark)?).is_err() {
            return Err(NoMemory);
        }
    }
    Ok(ChangeList::of(changes))
}

fn spaces(alloc: Global, numbers: &[u64]) -> Result<SpaceList, NoMemory> {
    let mut spaces = Vec::new(alloc);
    for number in numbers {
        if spaces.push(id(*number).space).is_err() {
            return Err(NoMemory);
        }
    }
    Ok(SpaceList::of(spaces))
}

/// The first byte of a page; 0 where it isn't there, and 200 and its slot where it is in one.
fn byte_of(image: Option<&Image>) -> u8 {
    match image {
        Some(Image::Resident(page)) => page.bytes()[0],
        Some(Image::Slot(slot)) => 200 + (*slot % 50) as u8,
        Some(Image::Absent) => 0,
        None => 0,
    }
}

/// Versions with their newest commit number, where nothing is staged.
#[derive(Drop)]
struct Store {
    versions: Versions,
    newest: u64,
}

impl Model for Store {
    ghost use Rattle.std.specs.Prelude.{ℕ};
    ghost use Rattle.page_versions.specs.Kept.{IsUpTo};

    ghost Value = { ℕ };

    ghost view = { λ s. s.newest };

    ghost invariant = { λ s. IsUpTo s.versions s.newest };
}

impl Store {
    fn new(alloc: Global) -> Store {
        Store {
            versions: Versions::new(alloc),
            newest: 0,
        }
    }

    fn commit(&mut self, changes: &ChangeList, dropped: &SpaceList) -> Result<(), NoMemory> {
        if self.newest == u64::MAX {
            return Ok(());
        }
        self.versions.stage(self.newest + 1, changes, dropped)?;
        self.versions.publish();
        self.newest += 1;
        Ok(())
    }

    fn give_up(&mut self, changes: &ChangeList, dropped: &SpaceList) -> Result<(), NoMemory> {
        if self.newest < u64::MAX {
            self.versions.stage(self.newest + 1, changes, dropped)?;
            self.versions.retract();
        }
        Ok(())
    }

    fn open(&mut self) -> Result<usize, NoMemory> {
        self.versions.open_snapshot(self.newest)
    }

    fn put_in_slot(&mut self, id: PageId, slot: u64) {
        if is_there(self.versions.page_at(id, self.newest)) {
            self.versions.in_slot(id, slot);
        }
    }

    fn end(&mut self, key: usize) {
        if self.versions.snapshot(key).is_some() {
            self.versions.end_snapshot(key);
        }
    }
}

fn is_there(image: Option<&Image>) -> bool
    ensures { IsTrue result → IsSomeAnd (option_copied image.entry) (λ i. i ≢ image_variants.Absent) }
{
    match image {
        Some(Image::Resident(_)) => true,
        Some(Image::Slot(_)) => true,
        _ => false,
    }
}

fn commit(alloc: Global, store: &mut Store, marks: &[Mark], dropped: &[u64]) -> Result<(), Fail> {
    let changes = changes(alloc, marks)?;
    store.commit(&changes, &spaces(alloc, dropped)?)?;
    Ok(())
}

fn assert_bytes(rt: &impl Abort, store: &Store, page: u64, bytes: &[u8]) {
    for (commit, byte) in bytes.iter().enumerate() {
        assert_eq!(rt;
            byte_of(store.versions.page_at(id(page), commit as u64)),
            *byte,
            "at {commit}"
        );
    }
}

#[test]
fn page_dropped_and_made_again(rt: HostRuntime) -> Result<(), Fail> {
    let alloc = rt.alloc();
    let mut store = Store::new(alloc);
    commit(
        alloc,
        &mut store,
        &[Mark { page: 11, byte: 1 }, Mark { page: 25, byte: 5 }],
        &[],
    )?;
    let first = store.open()?;
    commit(alloc, &mut store, &[], &[11, 30])?;
    let second = store.open()?;
    commit(alloc, &mut store, &[Mark { page: 11, byte: 3 }], &[])?;
    assert_bytes(&rt, &store, 11, &[0, 1, 0, 3]);
    assert_bytes(&rt, &store, 25, &[0, 5, 5, 5]);
    store.end(second);
    assert_bytes(&rt, &store, 11, &[0, 1, 1, 3]);
    store.end(first);
    assert_bytes(&rt, &store, 11, &[0, 0, 0, 3]);
    Ok(())
}

#[test]
fn slot_takes_the_newest_image_alone(rt: HostRuntime) -> Result<(), Fail> {
    let alloc = rt.alloc();
    let mut store = Store::new(alloc);
    commit(alloc, &mut store, &[Mark { page: 3, byte: 1 }], &[])?;
    let key = store.open()?;
    commit(alloc, &mut store, &[Mark { page: 3, byte: 2 }], &[])?;
    store.put_in_slot(id(3), 9);
    store.give_up(
        &changes(alloc, &[Mark { page: 3, byte: 4 }])?,
        &spaces(alloc, &[])?,
    )?;
    assert_bytes(&rt, &store, 3, &[0, 1, 209]);
    let mut kept = 0;
    for (_, chain) in store.versions.chains() {
        kept = chain.versions().len();
    }
    assert_eq!(rt; kept, 2);
    assert_eq!(rt; store.versions.snapshot(key), Some(1));
    Ok(())
}

#[test]
fn chain_started_with_its_image(rt: HostRuntime) -> Result<(), Fail> {
    let alloc = rt.alloc();
    for (image, byte) in [(Image::Slot(8), 208), (Image::Resident(page(alloc, 7)?), 7)] {
        let mut versions = Versions::new(alloc);
        start(&mut versions, image)?;
        assert_eq!(rt; byte_of(versions.page_at(id(3), 3)), 0);
        assert_eq!(rt; byte_of(versions.page_at(id(3), 4)), byte);
    }
    Ok(())
}

// A page that is there since commit 4.
fn start(versions: &mut Versions, image: Image) -> Result<(), NoMemory>
    requires { versions.old ≡ record { chains = map.empty; snapshots = []; staged = None } }
{
    if let Image::Absent = image {
        return Ok(());
    }
    versions.start(id(3), 4, image)
}
